//! The numbers that words of the program's line spell.

use crate::stop::Stop;

/// The number that the word at a place spells.
pub fn number_at(words: &[String], place: usize) -> Result<u64, Stop> {
    match words.get(place) {
        Some(word) => trace_text::number_of(word.as_bytes()).ok_or(Stop::Usage),
        None => Err(Stop::Usage),
    }
}

/// The number below 2^32 that the word at a place spells.
pub fn size_at(words: &[String], place: usize) -> Result<u32, Stop> {
    u32::try_from(number_at(words, place)?).or(Err(Stop::Usage))
}

/// The numbers that two words spell.
pub fn two(words: &[String]) -> Result<[u64; 2], Stop> {
    if words.len() != 2 {
        return Err(Stop::Usage);
    }
    Ok([number_at(words, 0)?, number_at(words, 1)?])
}

/// The numbers that three words spell.
pub fn three(words: &[String]) -> Result<[u64; 3], Stop> {
    if words.len() != 3 {
        return Err(Stop::Usage);
    }
    Ok([
        number_at(words, 0)?,
        number_at(words, 1)?,
        number_at(words, 2)?,
    ])
}

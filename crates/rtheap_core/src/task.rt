//! What the words ask for.

ghost use Rattle.std.specs.Prelude.{ℕ, ◌∷◌, [], map, codes, string_bytes, IfSome, IfNone};
ghost use Rattle.rtheap_core.specs.declared.schedules.Schedule.{Schedule};
ghost use Rattle.rtheap_core.specs.Tasks.{AsksFor, Ask, Names, IsNumberTo};

use crate::schedules::Schedule;
use trace_text::number_of;

/// The most turns of a replay.
const MOST_TURNS: u64 = 1_000_000_000;

/// The most lines of each thread of a generated job.
const MOST_LINES: u64 = 131_072;

/// What a call is to do.
#[derive(Clone, Copy, Debug, PartialEq, Eq)]
pub enum Task {
    /// Reads a job, runs its threads beside each other, and writes what each command answered,
    /// thread by thread.
    Run,
    /// Reads a job, makes at most so many turns of the schedule, and writes what each command
    /// answered, in order.
    Replay { schedule: Schedule, turns: u64 },
    /// Reads a job and writes the rate of its configuration.
    Plan,
    /// Generates a job and writes it.
    Make { key: u64, lines: u32 },
    /// Generates a job, runs its threads one after another, and writes the totals.
    Trial { key: u64, lines: u32 },
}

impl Task {
    /// What the words ask for, if they are the words of a task.
    pub fn of(words: &[String]) -> Option<Task>
        ensures asked { IfSome result (AsksFor (map (λ w. string_bytes w) words.now)) }
        ensures none { IfNone result (Ask (map (λ w. string_bytes w) words.now) → ⊥) }
    {
        match words {
            [word] => Task::of_word(word.as_str()),
            [word, first, second] => Task::of_words(word.as_str(), first.as_str(), second.as_str()),
            _ => None,
        }
    }

    fn of_word(word: &str) -> Option<Task>
        ensures asked { IfSome result (AsksFor (word.now ∷ [])) }
        ensures none { IfNone result (Ask (word.now ∷ []) → ⊥) }
    {
        match word {
            "run" => Some(Task::Run),
            "plan" => Some(Task::Plan),
            _ => None,
        }
    }

    fn of_words(word: &str, first: &str, second: &str) -> Option<Task>
        ensures asked { IfSome result (AsksFor (word.now ∷ first.now ∷ second.now ∷ [])) }
        ensures none { IfNone result (Ask (word.now ∷ first.now ∷ second.now ∷ []) → ⊥) }
    {
        match word {
            "replay" => Task::replay(first, second),
            "make" => Task::make(first, second),
            "trial" => Task::trial(first, second),
            _ => None,
        }
    }

    fn replay(which: &str, count: &str) -> Option<Task>
        ensures asked { IfSome result (AsksFor (codes "replay" ∷ which.now ∷ count.now ∷ [])) }
        ensures none { IfNone result (Ask (codes "replay" ∷ which.now ∷ count.now ∷ []) → ⊥) }
    {
        let schedule = schedule_of(which)?;
        let turns = number_to(MOST_TURNS, count)?;
        Some(Task::Replay { schedule, turns })
    }

    fn make(key: &str, count: &str) -> Option<Task>
        ensures asked { IfSome result (AsksFor (codes "make" ∷ key.now ∷ count.now ∷ [])) }
        ensures none { IfNone result (Ask (codes "make" ∷ key.now ∷ count.now ∷ []) → ⊥) }
    {
        let key = number_of(key.as_bytes())?;
        let lines = number_to(MOST_LINES, count)? as u32;
        Some(Task::Make { key, lines })
    }

    fn trial(key: &str, count: &str) -> Option<Task>
        ensures asked { IfSome result (AsksFor (codes "trial" ∷ key.now ∷ count.now ∷ [])) }
        ensures none { IfNone result (Ask (codes "trial" ∷ key.now ∷ count.now ∷ []) → ⊥) }
    {
        let key = number_of(key.as_bytes())?;
        let lines = number_to(MOST_LINES, count)? as u32;
        Some(Task::Trial { key, lines })
    }
}

/// The schedule that a word names.
fn schedule_of(word: &str) -> Option<Schedule>
    ensures named { IfSome result (Names word.now) }
    ensures none { IfNone result ((schedule : Schedule) → Names word.now schedule → ⊥) }
{
    match word {
        "robin" => Some(Schedule::Robin),
        "serial" => Some(Schedule::Serial),
        _ => Some(Schedule::Key(number_of(word.as_bytes())?)),
    }
}

/// The number that a word spells, where it is at most so large.
fn number_to(most: u64, word: &str) -> Option<u64>
    ensures number { IfSome result (IsNumberTo most word.now) }
    ensures none { IfNone result ((n : ℕ) → IsNumberTo most word.now n → ⊥) }
{
    let number = number_of(word.as_bytes())?;
    if number > most { None } else { Some(number) }
}

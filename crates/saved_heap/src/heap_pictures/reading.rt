//! The picture of which bytes are those.

ghost use Rattle.std.specs.Prelude.{◌≡◌, ◌<◌, ◌≤◌, ◌^◌, List, length, map, true, IfOk, Ok};
ghost use Rattle.std.specs.Str.{bytes_eq};
ghost use Rattle.sha2.specs.Sha256.{sha256};
ghost use Rattle.saved_heap.specs.heap_pictures.Pictures.{Content, content_of, is_sound, kind_of, view};
ghost use Rattle.saved_heap.specs.heap_pictures.Spelling.{saved};
ghost use Rattle.saved_heap.specs.heap_pictures.Reading.{Gives, number_at, value_at, some_values_at, values_at, kind_at, item_read, items_at, body_at, behind_magic, behind_version, behind_length, behind_digest, body_behind, picture_at};

use crate::heap_pictures::writing::{MAGIC, VERSION};
use crate::heap_pictures::{Item, Kind, Picture, ReadError, SaveFault};
use block_store::{Name, Value};
use sha2::{Digest, Sha256};
use std::alloc::Global;

const MALFORMED: ReadError = ReadError::Fault(SaveFault::Malformed);

// A number in eight bytes, or a fault where there are fewer.
fn number_of(bytes: &[u8], short: SaveFault) -> Result<(u64, &[u8]), ReadError>
    ensures { Gives (λ x. (x.0, x.1.now)) result (number_at short bytes.now) }
{
    if bytes.len() < 8 {
        return Err(ReadError::Fault(short));
    }
    let (front, rest) = bytes.split_at(8);
    let number = u64::from_be_bytes([
        front[0], front[1], front[2], front[3], front[4], front[5], front[6], front[7],
    ]);
    Ok((number, rest))
}

#[tactic(auto, unfolding(crate::specs::heap_pictures::Reading::value_at))]
fn value_of(bytes: &[u8]) -> Result<(Value, &[u8]), ReadError>
    ensures { Gives (λ x. (x.0, x.1.now)) result (value_at bytes.now) }
{
    match bytes {
        [0, rest @ ..] => Ok((Value::Nil, rest)),
        [1, rest @ ..] => {
            let (number, rest) = number_of(rest, SaveFault::Malformed)?;
            Ok((Value::Int(number), rest))
        }
        [2, rest @ ..] => {
            let (serial, rest) = number_of(rest, SaveFault::Malformed)?;
            Ok((Value::Ref(Name { thread: 0, serial }), rest))
        }
        _ => Err(MALFORMED),
    }
}

fn some_values(alloc: Global, count: u64, bytes: &[u8]) -> Result<(Vec<Value>, &[u8]), ReadError>
    ensures { Gives (λ x. (x.0.items, x.1.now)) result (some_values_at count bytes.now) }
{
    let mut values = Vec::new(alloc);
    let mut rest = bytes;
    for _ in 0..count {
        let (value, after) = value_of(rest)?;
        values.push(value)?;
        rest = after;
    }
    Ok((values, rest))
}

#[tactic(auto, unfolding(crate::specs::heap_pictures::Reading::values_at))]
fn values_of(alloc: Global, bytes: &[u8]) -> Result<(Vec<Value>, &[u8]), ReadError>
    ensures { Gives (λ x. (x.0.items, x.1.now)) result (values_at bytes.now) }
{
    let (count, rest) = number_of(bytes, SaveFault::Malformed)?;
    some_values(alloc, count, rest)
}

#[tactic(auto, unfolding(crate::specs::heap_pictures::Reading::kind_at))]
fn kind_of(bytes: &[u8]) -> Result<(Kind, &[u8]), ReadError>
    ensures { Gives (λ x. (kind_of x.0, x.1.now)) result (kind_at bytes.now) }
{
    match bytes {
        [0, rest @ ..] => Ok((Kind::Record, rest)),
        [1, rest @ ..] => Ok((Kind::Array, rest)),
        _ => Err(MALFORMED),
    }
}

#[tactic(auto, unfolding(crate::specs::heap_pictures::Reading::item_read))]
fn item_of(alloc: Global, bytes: &[u8]) -> Result<(Item, &[u8]), ReadError>
    ensures { Gives (λ x. (view x.0, x.1.now)) result (item_read bytes.now) }
{
    let (kind, rest) = kind_of(bytes)?;
    let (fields, rest) = values_of(alloc, rest)?;
    Ok((Item { kind, fields }, rest))
}

fn items_of(alloc: Global, count: u64, bytes: &[u8]) -> Result<(Vec<Item>, &[u8]), ReadError>
    ensures { Gives (λ x. (map view x.0.items, x.1.now)) result (items_at count bytes.now) }
{
    let mut items = Vec::new(alloc);
    let mut rest = bytes;
    for _ in 0..count {
        let (item, after) = item_of(alloc, rest)?;
        items.push(item)?;
        rest = after;
    }
    Ok((items, rest))
}

#[tactic(auto, unfolding(crate::specs::heap_pictures::Reading::body_at))]
fn body_of(alloc: Global, bytes: &[u8]) -> Result<Picture, ReadError>
    ensures { Gives content_of result (body_at bytes.now) }
{
    let (registers, rest) = values_of(alloc, bytes)?;
    let (count, rest) = number_of(rest, SaveFault::Malformed)?;
    let (objects, rest) = items_of(alloc, count, rest)?;
    let picture = Picture { registers, objects };
    if !rest.is_empty() {
        return Err(MALFORMED);
    }
    if !picture.is_sound() {
        return Err(MALFORMED);
    }
    Ok(picture)
}

// What follows the first eight bytes.
fn behind_magic(bytes: &[u8]) -> Result<&[u8], ReadError>
    ensures { Gives (λ x. x.now) result (behind_magic bytes.now) }
{
    let (front, rest) = bytes.split_at(bytes.len().min(8));
    if front != MAGIC.as_slice() {
        return Err(ReadError::Fault(SaveFault::NotASave));
    }
    Ok(rest)
}

fn behind_version(bytes: &[u8]) -> Result<&[u8], ReadError>
    ensures { Gives (λ x. x.now) result (behind_version bytes.now) }
{
    let (version, rest) = number_of(bytes, SaveFault::Torn)?;
    if version != VERSION {
        return Err(ReadError::Fault(SaveFault::Version(version)));
    }
    Ok(rest)
}

fn behind_length(bytes: &[u8]) -> Result<&[u8], ReadError>
    ensures read { Gives (λ x. x.now) result (behind_length bytes.now) }
    ensures long { IfOk result (λ x. 32 ≤ length x.now) }
{
    let (length, rest) = number_of(bytes, SaveFault::Torn)?;
    if rest.len() < 32 || (rest.len() - 32) as u64 != length {
        return Err(ReadError::Fault(SaveFault::Torn));
    }
    Ok(rest)
}

// Whether these bytes are the digest of a body.
fn is_digest(digest: &[u8], body: &[u8]) -> bool
    ensures { result ≡ bytes_eq (sha256 body.now) digest.now }
{
    let right = Sha256::digest(body);
    right.as_slice() == digest
}

fn behind_digest(bytes: &[u8]) -> Result<&[u8], ReadError>
    requires { 32 ≤ length bytes.now }
    ensures { Gives (λ x. x.now) result (behind_digest bytes.now) }
{
    let (digest, body) = bytes.split_at(32);
    if is_digest(digest, body) {
        Ok(body)
    } else {
        Err(ReadError::Fault(SaveFault::Checksum))
    }
}

#[tactic(auto, unfolding(crate::specs::heap_pictures::Reading::body_behind))]
fn body_behind(bytes: &[u8]) -> Result<&[u8], ReadError>
    ensures { Gives (λ x. x.now) result (body_behind bytes.now) }
{
    let bytes = behind_magic(bytes)?;
    let bytes = behind_version(bytes)?;
    let bytes = behind_length(bytes)?;
    behind_digest(bytes)
}

#[tactic(auto, unfolding(crate::specs::heap_pictures::Reading::picture_at))]
fn picture_of(alloc: Global, bytes: &[u8]) -> Result<Picture, ReadError>
    ensures { Gives content_of result (picture_at bytes.now) }
{
    body_of(alloc, body_behind(bytes)?)
}

/// The picture of which bytes are those. It is sound (`sound`), and what was saved is read again
/// (`again`).
///
/// # Errors
///
/// `Memory`, or the first fault that applies (`exact`).
pub fn decode(alloc: Global, bytes: &[u8]) -> Result<Picture, ReadError>
    ensures sound { IfOk result (λ p. is_sound (content_of p) ≡ true) }
    ensures again { (p : Content) → is_sound p ≡ true → length (saved p) < 2 ^ 64
        → bytes.now ≡ saved p → Gives content_of result (Ok p) }
    ensures exact { Gives content_of result (picture_at bytes.now) }
{
    picture_of(alloc, bytes)
}

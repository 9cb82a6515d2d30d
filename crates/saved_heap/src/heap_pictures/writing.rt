//! The bytes of a picture.

ghost use Rattle.std.specs.Prelude.{◌≡◌, ◌++◌, IfOk, OnOk};
ghost use Rattle.saved_heap.specs.heap_pictures.Pictures.{content_of, kind_of, view};
ghost use Rattle.saved_heap.specs.heap_pictures.Spelling.{body, item_bytes, kind_byte, saved, value_bytes, values_bytes, number};

use crate::heap_pictures::{Item, Kind, Picture};
use block_store::Value;
use sha2::{Digest, Sha256};
use std::alloc::{AllocError, Global};

/// The bytes with which each saved heap begins.
pub(crate) const MAGIC: [u8; 8] = [114, 116, 104, 101, 97, 112, 49, 10];

/// The version of these bytes.
pub(crate) const VERSION: u64 = 1;

fn put_number(out: &mut Vec<u8>, n: u64) -> Result<(), AllocError>
    ensures { OnOk result (out.new.items ≡ out.old.items ++ number n) }
{
    out.extend_from_slice(&n.to_be_bytes())
}

fn put_value(out: &mut Vec<u8>, value: &Value) -> Result<(), AllocError>
    ensures { OnOk result (out.new.items ≡ out.old.items ++ value_bytes value.now) }
{
    match *value {
        Value::Nil => out.push(0)?,
        Value::Int(n) => {
            out.push(1)?;
            put_number(out, n)?;
        }
        Value::Ref(name) => {
            out.push(2)?;
            put_number(out, name.serial)?;
        }
    }
    Ok(())
}

// How many values there are, and the values.
fn put_values(out: &mut Vec<u8>, values: &[Value]) -> Result<(), AllocError>
    ensures { OnOk result (out.new.items ≡ out.old.items ++ values_bytes values.now) }
{
    put_number(out, values.len() as u64)?;
    for value in values {
        put_value(out, value)?;
    }
    Ok(())
}

fn byte_of(kind: Kind) -> u8
    ensures { result ≡ kind_byte (kind_of kind) }
{
    match kind {
        Kind::Record => 0,
        Kind::Array => 1,
    }
}

fn put_item(out: &mut Vec<u8>, item: &Item) -> Result<(), AllocError>
    ensures { OnOk result (out.new.items ≡ out.old.items ++ item_bytes (view item.now)) }
{
    out.push(byte_of(item.kind))?;
    put_values(out, &item.fields)
}

// Registers and objects.
fn body_of(alloc: Global, picture: &Picture) -> Result<Vec<u8>, AllocError>
    ensures { IfOk result (λ v. v.items ≡ body (content_of picture.now)) }
{
    let mut out = Vec::new(alloc);
    put_values(&mut out, &picture.registers)?;
    put_number(&mut out, picture.objects.len() as u64)?;
    for item in &picture.objects {
        put_item(&mut out, item)?;
    }
    Ok(out)
}

/// The bytes of a picture: eight bytes that say what they are, the version, the length of the body,
/// its SHA-256, and the body.
///
/// # Errors
///
/// Where there is no memory for them.
pub fn encode(alloc: Global, picture: &Picture) -> Result<Vec<u8>, AllocError>
    ensures { IfOk result (λ v. v.items ≡ saved (content_of picture.now)) }
{
    let body = body_of(alloc, picture)?;
    let mut out = Vec::new(alloc);
    out.extend_from_slice(&MAGIC)?;
    put_number(&mut out, VERSION)?;
    put_number(&mut out, body.len() as u64)?;
    let digest = Sha256::digest(body.as_slice());
    out.extend_from_slice(&digest)?;
    out.extend_from_slice(&body)?;
    Ok(out)
}

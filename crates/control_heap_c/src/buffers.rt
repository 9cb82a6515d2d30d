//! Bytes for memory of the caller.

ghost use Rattle.control_heap_c.specs.Buffers.{IsCopied};

/// Copies bytes to the front of the caller's memory. Returns how many they are, in an `Err` if the
/// memory has no room for them.
pub fn copied(bytes: &[u8], out: &mut [u8]) -> Result<u64, u64>
    ensures { IsCopied bytes.now out.old out.new result }
{
    let count = bytes.len() as u64;
    if out.len() < bytes.len() {
        return Err(count);
    }
    out[..bytes.len()].copy_from_slice(bytes);
    Ok(count)
}

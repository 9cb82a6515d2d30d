//! The calls for a program in C with a heap of one thread. Each takes a handle, open or closed, and
//! a command also the struct for its reply. A call that is refused changes nothing, and its status
//! gives the cause.

ghost use Rattle.std.specs.Prelude.{◌≡◌, ◌≤◌, ◌<◌, ◌∷◌, []};
ghost use Rattle.never_heap.specs.declared.Command.TheVariants as commands;
ghost use Rattle.control_heap_c.specs.Outcomes.{Called, Opened, Shut, config_of, counts_of, heap_in, lent_words, register, width_of};
ghost use Rattle.control_heap_c.specs.Needs.{RaisedBy};
ghost use Rattle.control_heap_c.specs.Peeks.{Peeked};
ghost use Rattle.control_heap_c.specs.Saves.{LoadedBy, Saved};
ghost use Rattle.control_heap_c.specs.Texts.{Shown};

use crate::answer::{Answer, register, tell};
use crate::handle::{Handle, ask, close, counts_at, lent_words, open, open_told};
use crate::needs::{Limits, raise, raise_told};
use crate::peeks::{peek, peek_path, peek_told};
use crate::saves::{load_from, load_told, save_to, save_told};
use crate::texts::{show, text_told};
use never_heap::Command;
use std::alloc::Global;

/// Opens a heap in a closed handle. The version is 1 or 2.
#[unsafe(no_mangle)]
pub extern "C" fn rtheap_raw_open(
    alloc: Global,
    handle: &mut Handle,
    version: u32,
    blocks: u32,
    live: u32,
    object: u32,
    shared: u32,
) -> u32
    ensures { Opened (width_of version) (λ w. config_of w blocks live object shared)
        handle.old.link.value handle.new.link.value result }
{
    open_told(open(alloc, handle, version, blocks, live, object, shared))
}

/// The words of 8 bytes that a heap takes in lent memory; 0 if there is no such version.
#[unsafe(no_mangle)]
pub extern "C" fn rtheap_raw_words(version: u32, blocks: u32, object: u32) -> u64
    ensures { result ≡ lent_words (width_of version) blocks object }
{
    lent_words(version, blocks, object)
}

/// Opens a heap as `rtheap_raw_open` does, if this many words are enough; otherwise it changes
/// nothing and returns 15. The caller's allocator has them and gives out no other memory.
#[unsafe(no_mangle)]
pub extern "C" fn rtheap_raw_open_in(
    alloc: Global,
    handle: &mut Handle,
    words: u64,
    version: u32,
    blocks: u32,
    live: u32,
    object: u32,
    shared: u32,
) -> u32
    ensures few { words < lent_words (width_of version) blocks object
        → (result ≡ 15) × (handle.new.link.value ≡ handle.old.link.value) }
    ensures enough { lent_words (width_of version) blocks object ≤ words
        → Opened (width_of version) (λ w. config_of w blocks live object shared)
        handle.old.link.value handle.new.link.value result }
{
    if words < lent_words(version, blocks, object) {
        return 15;
    }
    open_told(open(alloc, handle, version, blocks, live, object, shared))
}

/// Closes a handle and frees its heap. Returns 0, or 1 if it has no heap.
#[unsafe(no_mangle)]
pub extern "C" fn rtheap_raw_close(alloc: Global, handle: &mut Handle) -> u32
    ensures { Shut handle.old.link.value result handle.new.link.value }
{
    close(alloc, handle)
}

/// The units of collection that are left of the heap's life; 0 if the handle is closed.
#[unsafe(no_mangle)]
pub extern "C" fn rtheap_raw_units_left(alloc: Global, handle: &mut Handle) -> u64
    ensures told { result ≡ (counts_of (heap_in handle.old.link.value)).units }
    ensures unchanged { handle.new.link.value ≡ handle.old.link.value }
{
    counts_at(alloc, handle).units
}

/// The allocations that are left of the heap's life; 0 if the handle is closed.
#[unsafe(no_mangle)]
pub extern "C" fn rtheap_raw_objects_left(alloc: Global, handle: &mut Handle) -> u64
    ensures told { result ≡ (counts_of (heap_in handle.old.link.value)).objects }
    ensures unchanged { handle.new.link.value ≡ handle.old.link.value }
{
    counts_at(alloc, handle).objects
}

/// The number of commands so far; 0 if the handle is closed.
#[unsafe(no_mangle)]
pub extern "C" fn rtheap_raw_asked(alloc: Global, handle: &mut Handle) -> u64
    ensures told { result ≡ (counts_of (heap_in handle.old.link.value)).asked }
    ensures unchanged { handle.new.link.value ≡ handle.old.link.value }
{
    counts_at(alloc, handle).asked
}

/// Makes register `d` refer to a new record, whose fields are nil.
#[unsafe(no_mangle)]
pub extern "C" fn rtheap_raw_new(
    alloc: Global,
    handle: &mut Handle,
    d: u32,
    fields: u32,
    out: &mut Answer,
) -> u32
    ensures { Called (commands.New (register d) fields) handle.old.link.value
        handle.new.link.value out.old out.new result }
{
    let command = Command::New {
        d: register(d),
        fields,
    };
    let outcome = ask(alloc, handle, command);
    tell(outcome, out)
}

/// Makes register `d` refer to a new array, whose elements are nil.
#[unsafe(no_mangle)]
pub extern "C" fn rtheap_raw_arr(
    alloc: Global,
    handle: &mut Handle,
    d: u32,
    elements: u32,
    out: &mut Answer,
) -> u32
    ensures { Called (commands.Arr (register d) elements) handle.old.link.value
        handle.new.link.value out.old out.new result }
{
    let command = Command::Arr {
        d: register(d),
        elements,
    };
    let outcome = ask(alloc, handle, command);
    tell(outcome, out)
}

/// Sets register `d` to a number.
#[unsafe(no_mangle)]
pub extern "C" fn rtheap_raw_set(
    alloc: Global,
    handle: &mut Handle,
    d: u32,
    value: u64,
    out: &mut Answer,
) -> u32
    ensures { Called (commands.Set (register d) value) handle.old.link.value
        handle.new.link.value out.old out.new result }
{
    let command = Command::Set {
        d: register(d),
        value,
    };
    let outcome = ask(alloc, handle, command);
    tell(outcome, out)
}

/// Sets register `d` to nil.
#[unsafe(no_mangle)]
pub extern "C" fn rtheap_raw_nil(
    alloc: Global,
    handle: &mut Handle,
    d: u32,
    out: &mut Answer,
) -> u32
    ensures { Called (commands.Nil (register d)) handle.old.link.value
        handle.new.link.value out.old out.new result }
{
    let command = Command::Nil { d: register(d) };
    let outcome = ask(alloc, handle, command);
    tell(outcome, out)
}

/// Copies register `s` to register `d`.
#[unsafe(no_mangle)]
pub extern "C" fn rtheap_raw_mov(
    alloc: Global,
    handle: &mut Handle,
    d: u32,
    s: u32,
    out: &mut Answer,
) -> u32
    ensures { Called (commands.Mov (register d) (register s)) handle.old.link.value
        handle.new.link.value out.old out.new result }
{
    let command = Command::Mov {
        d: register(d),
        s: register(s),
    };
    let outcome = ask(alloc, handle, command);
    tell(outcome, out)
}

/// Copies field `i` of the object in register `s` to register `d`.
#[unsafe(no_mangle)]
pub extern "C" fn rtheap_raw_get(
    alloc: Global,
    handle: &mut Handle,
    d: u32,
    s: u32,
    i: u64,
    out: &mut Answer,
) -> u32
    ensures { Called (commands.Get (register d) (register s) i) handle.old.link.value
        handle.new.link.value out.old out.new result }
{
    let command = Command::Get {
        d: register(d),
        s: register(s),
        i,
    };
    let outcome = ask(alloc, handle, command);
    tell(outcome, out)
}

/// Copies register `v` to field `i` of the object in register `s`.
#[unsafe(no_mangle)]
pub extern "C" fn rtheap_raw_put(
    alloc: Global,
    handle: &mut Handle,
    s: u32,
    i: u64,
    v: u32,
    out: &mut Answer,
) -> u32
    ensures { Called (commands.Put (register s) i (register v)) handle.old.link.value
        handle.new.link.value out.old out.new result }
{
    let command = Command::Put {
        s: register(s),
        i,
        v: register(v),
    };
    let outcome = ask(alloc, handle, command);
    tell(outcome, out)
}

/// Counts the fields or elements of the object in register `s`.
#[unsafe(no_mangle)]
pub extern "C" fn rtheap_raw_len(
    alloc: Global,
    handle: &mut Handle,
    s: u32,
    out: &mut Answer,
) -> u32
    ensures { Called (commands.Len (register s)) handle.old.link.value
        handle.new.link.value out.old out.new result }
{
    let command = Command::Len { s: register(s) };
    let outcome = ask(alloc, handle, command);
    tell(outcome, out)
}

/// Compares registers `a` and `b`.
#[unsafe(no_mangle)]
pub extern "C" fn rtheap_raw_same(
    alloc: Global,
    handle: &mut Handle,
    a: u32,
    b: u32,
    out: &mut Answer,
) -> u32
    ensures { Called (commands.Same (register a) (register b)) handle.old.link.value
        handle.new.link.value out.old out.new result }
{
    let command = Command::Same {
        a: register(a),
        b: register(b),
    };
    let outcome = ask(alloc, handle, command);
    tell(outcome, out)
}

/// Reads register `s`.
#[unsafe(no_mangle)]
pub extern "C" fn rtheap_raw_say(
    alloc: Global,
    handle: &mut Handle,
    s: u32,
    out: &mut Answer,
) -> u32
    ensures { Called (commands.Say (register s)) handle.old.link.value
        handle.new.link.value out.old out.new result }
{
    let command = Command::Say { s: register(s) };
    let outcome = ask(alloc, handle, command);
    tell(outcome, out)
}

/// Exchanges field `i` of the object in register `s` with register `v`.
#[unsafe(no_mangle)]
pub extern "C" fn rtheap_raw_swap(
    alloc: Global,
    handle: &mut Handle,
    s: u32,
    i: u64,
    v: u32,
    out: &mut Answer,
) -> u32
    ensures { Called (commands.Swap (register s) i (register v)) handle.old.link.value
        handle.new.link.value out.old out.new result }
{
    let command = Command::Swap {
        s: register(s),
        i,
        v: register(v),
    };
    let outcome = ask(alloc, handle, command);
    tell(outcome, out)
}

/// If field `i` of the object in register `s` equals register `a`, copies register `v` to it.
#[unsafe(no_mangle)]
pub extern "C" fn rtheap_raw_cas(
    alloc: Global,
    handle: &mut Handle,
    s: u32,
    i: u64,
    a: u32,
    v: u32,
    out: &mut Answer,
) -> u32
    ensures { Called (commands.Cas (register s) i (register a) (register v)) handle.old.link.value
        handle.new.link.value out.old out.new result }
{
    let command = Command::Cas {
        s: register(s),
        i,
        a: register(a),
        v: register(v),
    };
    let outcome = ask(alloc, handle, command);
    tell(outcome, out)
}

/// Does this many units of marking or sweeping.
#[unsafe(no_mangle)]
pub extern "C" fn rtheap_raw_idle(
    alloc: Global,
    handle: &mut Handle,
    units: u64,
    out: &mut Answer,
) -> u32
    ensures { Called (commands.Idle units) handle.old.link.value
        handle.new.link.value out.old out.new result }
{
    let command = Command::Idle { units };
    let outcome = ask(alloc, handle, command);
    tell(outcome, out)
}

/// Reads field `i` of the object in register `s`, without a command.
#[unsafe(no_mangle)]
pub extern "C" fn rtheap_raw_peek(
    alloc: Global,
    handle: &mut Handle,
    s: u32,
    i: u64,
    out: &mut Answer,
) -> u32
    ensures { Peeked (register s) (i ∷ []) handle.old.link.value handle.new.link.value
        out.old out.new result }
{
    let outcome = peek(alloc, handle, register(s), i);
    peek_told(outcome, out)
}

/// Reads what is at the end of a path of indices from register `s`, without a command: with no
/// index, what the register holds.
#[unsafe(no_mangle)]
pub extern "C" fn rtheap_raw_peek_path(
    alloc: Global,
    handle: &mut Handle,
    s: u32,
    path: &[u64],
    out: &mut Answer,
) -> u32
    ensures { Peeked (register s) path.now handle.old.link.value handle.new.link.value
        out.old out.new result }
{
    let outcome = peek_path(alloc, handle, register(s), path);
    peek_told(outcome, out)
}

/// Writes what the registers reach as a text to the caller's memory, and how many bytes it has to
/// `length`, also if the memory is too small (15).
#[unsafe(no_mangle)]
pub extern "C" fn rtheap_raw_text(
    alloc: Global,
    handle: &mut Handle,
    out: &mut [u8],
    length: &mut u64,
) -> u32
    ensures { Shown handle.old.link.value handle.new.link.value out.old out.new length.old
        length.new result }
{
    let outcome = show(alloc, handle, false, out);
    text_told(outcome, length)
}

/// The same as a drawing in the language of Graphviz's `dot`.
#[unsafe(no_mangle)]
pub extern "C" fn rtheap_raw_dot(
    alloc: Global,
    handle: &mut Handle,
    out: &mut [u8],
    length: &mut u64,
) -> u32
    ensures { Shown handle.old.link.value handle.new.link.value out.old out.new length.old
        length.new result }
{
    let outcome = show(alloc, handle, true, out);
    text_told(outcome, length)
}

/// Saves the heap as bytes to the caller's memory, and writes how many they are to `length`, also if
/// the memory is too small (15).
#[unsafe(no_mangle)]
pub extern "C" fn rtheap_raw_save(
    alloc: Global,
    handle: &mut Handle,
    out: &mut [u8],
    length: &mut u64,
) -> u32
    ensures { Saved handle.old.link.value handle.new.link.value out.old out.new length.old
        length.new result }
{
    let outcome = save_to(alloc, handle, out);
    save_told(outcome, length)
}

/// Opens in a closed handle a heap that shows what was saved as these bytes. Of a refusal that has a
/// number, it writes that to `number`.
#[unsafe(no_mangle)]
pub extern "C" fn rtheap_raw_load(
    alloc: Global,
    handle: &mut Handle,
    bytes: &[u8],
    version: u32,
    blocks: u32,
    live: u32,
    object: u32,
    shared: u32,
    number: &mut u64,
) -> u32
    ensures { LoadedBy bytes.now (width_of version) (λ w. config_of w blocks live object shared)
        handle.old.link.value handle.new.link.value number.old number.new result }
{
    let refusal = load_from(alloc, handle, bytes, version, blocks, live, object, shared);
    load_told(refusal, number)
}

/// Raises the limits of a configuration to what these bytes of a saved heap need.
#[unsafe(no_mangle)]
pub extern "C" fn rtheap_raw_raise(
    alloc: Global,
    bytes: &[u8],
    version: u32,
    shared: u32,
    limits: &mut Limits,
) -> u32
    ensures { RaisedBy bytes.now (width_of version) shared limits.old limits.new result }
{
    let outcome = raise(alloc, bytes, version, shared, *limits);
    raise_told(outcome, limits)
}

//! Where output goes.

ghost use Rattle.std.specs.Prelude.{◌≡◌, ◌≢◌, ◌⊎◌, ℕ, List, Option, OnOk, OnErr};
ghost use Rattle.trace_text.specs.Faults.{Rose};
ghost use Rattle.trace_text.specs.Streams.{Appends, AppendsPrefix};

use crate::Failed;

/// A stream of bytes that is written in pieces.
pub trait Sink {
    /// The bytes that the sink holds, where it tells them.
    ghost held: { Self → Option (List ℕ) };

    /// How many faults the sink has counted. The count never falls, and is still at 2^64 - 1.
    ghost faults: { Self → ℕ };

    /// Appends a piece. At `Failed` a prefix of it was appended.
    fn put(&mut self, piece: &[u8]) -> Result<(), Failed>
        ensures appended { OnOk result (Appends (held self.old) (held self.new) piece.now) }
        ensures prefix { OnErr result (AppendsPrefix (held self.old) (held self.new) piece.now) }
        ensures rose { OnErr result (Rose (faults self.old) (faults self.new)) }
        ensures still { OnOk result (faults self.new ≡ faults self.old) };
}

/// The status of a call whose writing failed.
pub const WRITE_FAULT: u8 = 6;

/// Writes the one line of a call by one `put`. The status of the call is `due`, or `WRITE_FAULT`
/// where the writing fails.
pub fn put_line<K: Sink>(line: &[u8], due: u8, sink: &mut K) -> u8
    requires { due ≢ WRITE_FAULT }
    ensures status { (result ≡ due) ⊎ (result ≡ WRITE_FAULT) }
    ensures line { result ≢ WRITE_FAULT → Appends (K.held sink.old) (K.held sink.new) line.now }
    ensures prefix { result ≡ WRITE_FAULT
        → AppendsPrefix (K.held sink.old) (K.held sink.new) line.now }
    ensures still { result ≢ WRITE_FAULT → K.faults sink.new ≡ K.faults sink.old }
    ensures rose { result ≡ WRITE_FAULT → Rose (K.faults sink.old) (K.faults sink.new) }
{
    match sink.put(line) {
        Ok(()) => due,
        Err(_) => WRITE_FAULT,
    }
}

//! What is written of a refusal.

ghost use Rattle.std.specs.Prelude.{◌≡◌, ◌≢◌, ◌≤◌, ◌⊎◌, length};
ghost use Rattle.trace_text.specs.Faults.{Rose};
ghost use Rattle.trace_text.specs.Streams.{Appends, AppendsPrefix};
ghost use Rattle.exit_statuses.specs.Refusals.{status_of, refusal_line};

use crate::refusal::Refusal;
use trace_text::{Sink, put_line};

/// Writes the line of a refusal, and says with which status the call of a program of this name
/// ends.
pub fn refused<K: Sink>(refusal: Refusal, name: &[u8], sink: &mut K) -> u8
    requires { length name.now ≤ 32 }
    ensures status { (result ≡ status_of refusal) ⊎ (result ≡ 6) }
    ensures line { result ≢ 6
        → Appends (K.held sink.old) (K.held sink.new) (refusal_line name.now refusal) }
    ensures prefix { result ≡ 6
        → AppendsPrefix (K.held sink.old) (K.held sink.new) (refusal_line name.now refusal) }
    ensures still { result ≢ 6 → K.faults sink.new ≡ K.faults sink.old }
    ensures rose { result ≡ 6 → Rose (K.faults sink.old) (K.faults sink.new) }
{
    put_line(refusal.line(name).bytes(), refusal.status(), sink)
}

//! What is written of a task that runs nothing, and of a refusal.

ghost use Rattle.std.specs.Prelude.{◌≡◌, ◌≢◌, ◌⊎◌, None, codes};
ghost use Rattle.exit_statuses.specs.Exits.{IsWritten};
ghost use Rattle.exit_statuses.specs.Refusals.{status_of, refusal_line};
ghost use Rattle.exit_statuses.specs.Sides.{sides};
ghost use Rattle.trace_text.specs.Faults.{Rose};
ghost use Rattle.trace_text.specs.Streams.{Appends, AppendsPrefix};

use crate::exit::Exit;
use exit_statuses::Refusal;
use trace_text::{LineBuffer, Sink, put_line};

/// Writes the line of a refusal.
pub fn refused<K: Sink>(refusal: Refusal, sink: &mut K) -> Exit
    ensures due { result.due ≡ status_of refusal }
    ensures run { result.run ≡ None }
    ensures status { (result.status ≡ result.due) ⊎ (result.status ≡ 6) }
    ensures line { result.status ≢ 6
        → Appends (K.held sink.old) (K.held sink.new) (refusal_line (codes "rtheap") refusal) }
    ensures prefix { result.status ≡ 6
        → AppendsPrefix (K.held sink.old) (K.held sink.new)
        (refusal_line (codes "rtheap") refusal) }
    ensures still { result.status ≢ 6 → K.faults sink.new ≡ K.faults sink.old }
    ensures rose { result.status ≡ 6 → Rose (K.faults sink.old) (K.faults sink.new) }
{
    Exit {
        status: exit_statuses::refused(refusal, b"rtheap", sink),
        due: refusal.status(),
        run: None,
    }
}

/// Writes the one line of a task that was done and ran nothing.
pub fn told<K: Sink>(line: &LineBuffer, sink: &mut K) -> Exit
    ensures due { result.due ≡ 0 }
    ensures run { result.run ≡ None }
    ensures status { (result.status ≡ 0) ⊎ (result.status ≡ 6) }
    ensures text { IsWritten (sides K.held K.faults sink.old sink.new) result.status line.now }
    ensures still { result.status ≢ 6 → K.faults sink.new ≡ K.faults sink.old }
    ensures rose { result.status ≡ 6 → Rose (K.faults sink.old) (K.faults sink.new) }
{
    Exit {
        status: put_line(line.bytes(), 0, sink),
        due: 0,
        run: None,
    }
}

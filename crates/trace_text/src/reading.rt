//! Reading a job from a source.

ghost use Rattle.std.specs.Prelude.{◌≡◌, ◌+◌, ◌<◌, ◌≤◌, ◌⊎◌, ℕ, List, Some, [], drop, length, Err, IfOk, IfSome, OnOk, MatchResult, IsErrOf};
ghost use Rattle.trace_text.specs.Jobs as jobs;
ghost use Rattle.trace_text.specs.declared.trace_faults.Why as whys;
ghost use Rattle.trace_text.specs.declared.trace_faults.TraceFault.TheVariants as faults;
ghost use Rattle.trace_text.specs.Jobs.{input_limit, IsJobInBounds, IsJob, IsInput};
ghost use Rattle.trace_text.specs.Refusals.{IsFirstBadLine};
ghost use Rattle.trace_text.specs.Streams.{IsAtEnd, StillTells};
ghost use Rattle.trace_text.specs.Inputs.{CountsFault, IsRead, IsRefused, StopsAt};

mod header;
mod input;
mod lines;
mod numbers;
mod tokens;
mod whole;
mod words;

use crate::jobs::Job;
pub use crate::reading::header::{behind, labelled};
pub use crate::reading::input::{INPUT_LIMIT, input_of};
pub use crate::reading::numbers::number_of;
pub use crate::reading::tokens::{
    first_line, first_token, no_more, one_token, three_tokens, two_tokens,
};
pub use crate::reading::whole::job_of;
use crate::sources::Source;
use crate::trace_faults::TraceFault;
use std::alloc::Global;

/// Reads a source to its end, and then the job that its bytes are. Reading stops at the first byte
/// too many, the 16,777,217th, and at a failure of the source.
///
/// # Errors
///
/// `ReadFault` where the source fails, `TooLong` where there are too many bytes, `BadLine` where
/// they are no job, with the first line that is wrong, and `OutOfMemory`.
pub fn read_trace<S: Source>(alloc: Global, source: &mut S) -> Result<Job, TraceFault>
    // What is read is the job of the bytes, and in its ranges whatever the source tells.
    ensures job { IfOk result (λ job. IfSome (S.left source.old) (λ bytes. IsInput bytes job)) }
    ensures bounds { IfOk result IsJobInBounds }

    // Bytes that are a job are read as that job, unless the source fails or memory runs out.
    ensures complete { IfSome (S.left source.old) (λ bytes.
        (job : jobs.Job) → IsInput bytes job → IsRead result job) }

    // Too many bytes are refused as such, and only they are.
    ensures long { IfSome (S.left source.old) (λ bytes.
        input_limit < length bytes → IsRefused result faults.TooLong) }
    ensures too_long { IsErrOf result faults.TooLong
        → IfSome (S.left source.old) (λ bytes. input_limit < length bytes) }

    // Other bytes that are no job are refused for the first line that is wrong, and only they are.
    ensures wrong { IfSome (S.left source.old) (λ bytes.
        (line : ℕ) (why : whys.Why) → length bytes ≤ input_limit
        → IsFirstBadLine bytes line why → IsRefused result (faults.BadLine line why)) }
    ensures bad_line { (line : ℕ) (why : whys.Why) → IsErrOf result (faults.BadLine line why)
        → IfSome (S.left source.old) (λ bytes.
        (length bytes ≤ input_limit) × IsFirstBadLine bytes line why) }

    // How far the source was read.
    ensures stopped { StopsAt result (S.left source.old) (S.left source.new) }
    ensures told { StillTells (S.left source.old) (S.left source.new) }

    // A source is blamed only where its count of faults rose.
    ensures cause { MatchResult result (λ _. S.faults source.new ≡ S.faults source.old)
        (λ fault. CountsFault fault (S.faults source.old) (S.faults source.new)) }
{
    let input = input_of(alloc, source, INPUT_LIMIT)?;
    if input.len() > INPUT_LIMIT {
        return Err(TraceFault::TooLong);
    }
    job_of(alloc, &input)
}

/// Bytes are at most one job.
pub fn jobs_are_one()
    ensures { (bytes : List ℕ) (job other : jobs.Job)
        → IsJob bytes job → IsJob bytes other → job ≡ other }
{}

/// Bytes are a job, or one line is the first that is wrong, for one reason; and never both.
pub fn inputs_are_told_apart()
    ensures either { (bytes : List ℕ) → ((job : jobs.Job) × IsJob bytes job)
        ⊎ ((line : ℕ) × (why : whys.Why) × IsFirstBadLine bytes line why) }
    ensures apart { (bytes : List ℕ) (job : jobs.Job) (line : ℕ) (why : whys.Why)
        → IsJob bytes job → IsFirstBadLine bytes line why → ⊥ }
    ensures one { (bytes : List ℕ) (line other : ℕ) (why reason : whys.Why)
        → IsFirstBadLine bytes line why → IsFirstBadLine bytes other reason
        → (line ≡ other) × (why ≡ reason) }
{}

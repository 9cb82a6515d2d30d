//! What a job may ask of a post.

ghost use Rattle.std.specs.Prelude.{◌≡◌, length, MatchResult};
ghost use Rattle.rt_mail.specs.Says.{IsWithin};
ghost use Rattle.rt_mail.specs.RefusedTexts.{IsRefusedJob};

use crate::said_numbers::says_of;
use exit_statuses::Refusal;
use trace_text::Job;

/// The most threads of a job.
const MOST_THREADS: u32 = 2;

/// The most `say` commands of a thread.
const MOST_SAYS: usize = 30_000;

/// Whether a job has few threads, each with few `say` commands.
///
/// # Errors
///
/// `TooManyThreads`, which is looked at first, and `TooManySays`.
pub fn within_limits(job: &Job) -> Result<(), Refusal>
    requires { length job.now.traces ≡ job.now.config.threads }
    ensures { MatchResult result (λ _. IsWithin job.now) (IsRefusedJob job.now) }
{
    if job.config.threads > MOST_THREADS {
        return Err(Refusal::TooManyThreads);
    }
    for t in 0..job.config.threads {
        if says_of(job.trace(t as usize)) > MOST_SAYS {
            return Err(Refusal::TooManySays);
        }
    }
    Ok(())
}

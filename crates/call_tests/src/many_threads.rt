//! Jobs of more than four threads, drawn, whose replies are known.

use crate::testing::{Call, made};
use rand_core::utils::NextWord;
use rand_pcg::Lcg64Xsh32;
use std::alloc::Global;
use std::test::Fail;

/// How many commands each thread has.
const COMMANDS: u32 = 20;

/// A job, and what its run writes before the totals.
#[derive(Drop)]
struct KnownJob {
    text: String,
    written: String,
}

impl KnownJob {
    /// Adds drawn commands of a thread, whose replies no other thread can change: it makes objects,
    /// none of which it keeps for long, and shows numbers.
    fn adds_thread(
        &mut self,
        alloc: Global,
        thread: u32,
        draws: &mut Lcg64Xsh32,
    ) -> Result<(), Fail> {
        let begun = format!(in alloc; "thread {thread}\n")?;
        self.text.push_str(begun.as_str())?;
        let mut serial: u32 = 0;
        for _ in 0..COMMANDS {
            let number = draws.next_word();
            let (command, told) = if number % 3 == 0 {
                serial = serial.saturating_add(1);
                (
                    format!(in alloc; "new 1 1\n")?,
                    format!(in alloc; "{thread} new {thread}.{serial} work {RATE}\n")?,
                )
            } else {
                (
                    format!(in alloc; "set 2 {number}\nsay 2\n")?,
                    format!(in alloc; "{thread} ok\n{thread} int {number}\n")?,
                )
            };
            self.text.push_str(command.as_str())?;
            self.written.push_str(told.as_str())?;
        }
        Ok(())
    }
}

/// The rate of these heaps, for 5 to 16 threads: the least P for which the live blocks and those that
/// two cycles give, 300 + 2 (2048 / P + 16) at most, are no more than 1,024.
const RATE: u32 = 6;

/// A drawn job of so many threads.
fn drawn(alloc: Global, threads: u32, key: u64) -> Result<KnownJob, Fail> {
    let header = "blocks 1024 live 300 object 1 shared 4\n";
    let mut drawn = KnownJob {
        text: format!(in alloc; "rtheap 1 threads {threads} {header}")?,
        written: String::new(alloc),
    };
    let mut draws = Lcg64Xsh32::new(key, 1);
    for thread in 0..threads {
        drawn.adds_thread(alloc, thread, &mut draws)?;
    }
    drawn.text.push_str("end\n")?;
    Ok(drawn)
}

// No memory is refused here, so no answer but the run is right.
#[test]
fn jobs_of_five_to_sixteen_threads_are_run(rt: HostRuntime) -> Result<(), Fail> {
    let alloc = rt.alloc();
    for threads in [5, 8, 16_u32] {
        let job = drawn(alloc, threads, u64::from(threads))?;
        let (exit, sink) = made(&rt, alloc, &Call::run(job.text.as_str()))?;
        assert_eq!(rt; (exit.status, exit.due), (0, 0), "{threads} threads");
        assert!(rt;
            sink.bytes().starts_with(job.written.as_bytes()),
            "{threads} threads"
        );
    }
    Ok(())
}

#[test]
fn jobs_of_sixteen_threads_are_planned_and_replayed(rt: HostRuntime) -> Result<(), Fail> {
    let alloc = rt.alloc();
    let job = drawn(alloc, 16, 1)?;
    let calls: [&[&str]; 2] = [&["plan"], &["replay", "serial", "1000000"]];
    for words in calls {
        let call = Call {
            words,
            ..Call::run(job.text.as_str())
        };
        let (exit, _sink) = made(&rt, alloc, &call)?;
        assert_eq!(rt; (exit.status, exit.due), (0, 0));
    }
    Ok(())
}

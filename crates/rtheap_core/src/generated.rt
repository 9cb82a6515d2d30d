//! Generated jobs.

ghost use Rattle.std.specs.Prelude.{◌≡◌, ◌≤◌, length, map, IfOk, OnOk};
ghost use Rattle.std.specs.List.{AllByRecursion};
ghost use Rattle.never_heap.specs.Bounds.{IsCommandInBounds};
ghost use Rattle.never_heap.specs.Jobs.{IsTraceInBounds};
ghost use Rattle.rate_plan.specs.Rates.{IsAdmitted, IsRate};
ghost use Rattle.rtheap_core.specs.schedules.Schedules.{word};
ghost use Rattle.trace_text.specs.Jobs.{IsJobInBounds};
ghost use Rattle.rtheap_core.specs.Generated.{drawn, trace_from, traces_from, generated_config, generated_job};
ghost use Rattle.rtheap_core.specs.Generated as generated;

use block_store::{Config, OutOfMemory, Width};
use never_heap::Command;
use rand_core::utils::NextWord;
use rand_pcg::Lcg64Xsh32;
use std::alloc::Global;
use trace_text::Job;

/// The heap of a generated job. Its rate is 9.
const CONFIG: Config = Config {
    width: Width::Four,
    threads: 4,
    blocks: 4096,
    live: 2000,
    object: 16,
    shared: 64,
};

/// The job of a key: four threads with so many commands each, at most 131,072. Each command is made
/// of the next four words of one generator.
///
/// # Errors
///
/// `OutOfMemory` where there is no room for the traces.
pub fn generate(alloc: Global, key: u64, lines: u32) -> Result<Job, OutOfMemory>
    requires { lines ≤ 131072 }
    ensures job { IfOk result (λ job. job ≡ generated_job key lines) }
    ensures bounds { IfOk result IsJobInBounds }
    ensures admitted { IfOk result (λ job. IsAdmitted job.config) }
    ensures rate { IfOk result (λ job. IsRate job.config 9) }
{
    let mut words = Lcg64Xsh32::new(key, 1);
    let traces = traces(alloc, lines, &mut words)?;
    Ok(Job {
        config: CONFIG,
        traces,
    })
}

/// The traces of the four threads, one after the other.
fn traces(
    alloc: Global,
    lines: u32,
    words: &mut Lcg64Xsh32,
) -> Result<Vec<Vec<Command>>, OutOfMemory>
    requires { lines ≤ 131072 }
    ensures traces { IfOk result (λ v. map (λ t. t.items) v.items ≡ traces_from 4 lines words.old) }
    ensures bounds { IfOk result (λ v.
        AllByRecursion (IsTraceInBounds generated_config) (map (λ t. t.items) v.items)) }
    ensures threads { IfOk result (λ v. length v.items ≡ 4) }
{
    let mut made = Vec::new(alloc);
    for _thread in 0..CONFIG.threads {
        made.push(trace(alloc, lines, words)?)?;
    }
    Ok(made)
}

/// A trace of the next commands.
fn trace(alloc: Global, lines: u32, words: &mut Lcg64Xsh32) -> Result<Vec<Command>, OutOfMemory>
    requires { lines ≤ 131072 }
    ensures commands { IfOk result (λ v. v.items ≡ (trace_from lines words.old).0) }
    ensures words { OnOk result (words.new ≡ (trace_from lines words.old).1) }
    ensures bounds { IfOk result (λ v. IsTraceInBounds generated_config v.items) }
{
    let mut made = Vec::new(alloc);
    for _line in 0..lines {
        made.push(draw(words))?;
    }
    Ok(made)
}

/// The next command. It takes four words, whether it needs them all or not.
#[tactic(auto, unfolding(crate::specs::Generated::drawn))]
fn draw(words: &mut Lcg64Xsh32) -> Command
    ensures command { result ≡ (drawn words.old).0 }
    ensures words { words.new ≡ (drawn words.old).1 }
    ensures bounds { IsCommandInBounds generated_config result }
{
    let w = next_word(words);
    let x = next_word(words);
    let y = next_word(words);
    let z = next_word(words);
    command_of(w, x, y, z)
}

/// The command of four words.
fn command_of(w: u32, x: u32, y: u32, z: u32) -> Command
    ensures command { result ≡ generated.command_of w x y z }
    ensures bounds { IsCommandInBounds generated_config result }
{
    let d = 1 + (x % 15) as u8;
    let s = (y % 16) as u8;
    let k = z % 8;
    match w % 10 {
        0 | 1 => Command::New { d, fields: k },
        2 => Command::Arr { d, elements: 4 * k },
        3 => Command::Set {
            d,
            value: u64::from(z),
        },
        4 => Command::Nil { d },
        5 => Command::Mov { d, s },
        6 => Command::Get {
            d,
            s,
            i: u64::from(k),
        },
        7 => Command::Put {
            s,
            i: u64::from(k),
            v: d,
        },
        8 => Command::Len { s },
        _ => Command::Same { a: d, b: s },
    }
}

/// A generator's next word.
#[tactic(auto, unfolding(crate::specs::schedules::Schedules::word))]
fn next_word(words: &mut Lcg64Xsh32) -> u32
    ensures word { result ≡ (word words.old).0 }
    ensures words { words.new ≡ (word words.old).1 }
{
    words.next_word()
}

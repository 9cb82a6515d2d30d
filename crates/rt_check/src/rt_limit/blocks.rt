//! How many blocks a rate takes.

ghost use Rattle.std.specs.Prelude.{◌≡◌, ◌≤◌, ◌↔◌, true, ℕ, MatchOption, IfSome};
ghost use Rattle.block_store.specs.Configs.{IsInBounds};
ghost use Rattle.rate_plan.specs.Rates.{IsAdmitted, IsRate};
ghost use Rattle.rt_check.specs.rt_limit.Blocks.{HasRate, IsLeastBlocks, IsNewHeap, IsToldBefore};

use block_store::Config;
use rate_plan::{one_rate, plan};

/// The most blocks that a heap can have, and the greatest live limit.
const MOST_BLOCKS: u32 = 65_535;

/// The least number of blocks with which a heap for the same threads and objects has, at this live
/// limit, a rate of at most `rate`.
pub fn least_blocks(config: &Config, live: u64, rate: u64) -> Option<u32>
    requires { IsInBounds config.now }
    ensures { MatchOption result ((m : ℕ) → HasRate config.now live rate m → ⊥)
        (IsLeastBlocks config.now live rate) }
{
    if live > u64::from(MOST_BLOCKS) {
        return None;
    }
    for blocks in 1..MOST_BLOCKS + 1 {
        let heap = Config {
            blocks,
            live: live as u32,
            ..*config
        };
        if keeps_up(&heap, rate) {
            return Some(blocks);
        }
    }
    None
}

/// A heap with the least number of blocks for some rate.
#[derive(Clone, Copy)]
pub(crate) struct Least {
    pub(crate) heap: Config,
    /// The heap's own rate.
    pub(crate) rate: u64,
}

/// The least heap for a rate, where it has no rate of at most `before`.
pub(crate) fn least_heap(config: &Config, live: u64, before: u64, rate: u64) -> Option<Least>
    requires { IsInBounds config.now }
    ensures heap { MatchOption result (IsToldBefore config.now live before rate)
        (IsNewHeap config.now live before rate) }
    ensures bounds { IfSome result (λ x. IsInBounds x.heap) }
    ensures rate { IfSome result (λ x. (1 ≤ x.rate) × (x.rate ≤ 131070)) }
{
    let blocks = least_blocks(config, live, rate)?;
    let heap = Config {
        blocks,
        live: live as u32,
        ..*config
    };
    let Ok(own) = plan(&heap) else {
        return None;
    };
    if own <= before {
        return None;
    }
    one_rate();
    Some(Least { heap, rate: own })
}

// Whether a heap has a rate of at most `rate`.
fn keeps_up(heap: &Config, rate: u64) -> bool
    requires { IsInBounds heap.now }
    ensures { result ≡ true
        ↔ (IsAdmitted heap.now × ((p : ℕ) × IsRate heap.now p × (p ≤ rate))) }
{
    one_rate();
    match plan(heap) {
        Ok(least) => least <= rate,
        Err(_) => false,
    }
}

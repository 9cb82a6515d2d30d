//! The rate at which allocations pay for the collection of a heap.
#![tactic(auto)]

ghost use Rattle.std.specs.Prelude.{◌≡◌, ℕ, ◌*◌, ◌≤◌, MatchResult};
ghost use Rattle.block_store.specs.Configs.{IsInBounds};
ghost use Rattle.block_store.specs.declared.Config.{Config};
ghost use Rattle.array_trees.specs.InitialHeaps.{opening_blocks};
ghost use Rattle.rate_plan.specs.Rates.{IsRate, IsAdmitted, IsRefusal, plan_fault_text};

pub mod solo_bound;

use array_trees::blocks_of_array;
use block_store::Config;
pub use solo_bound::{bounds_hold, moves_lower, near_holds, near_moves_lower, one_change};
use std::error::Error;
use std::fmt;

/// Why a configuration has no rate.
#[derive(Clone, Copy, Debug, PartialEq, Eq)]
pub enum PlanFault {
    /// The live blocks leave too little of the heap.
    NoRate,
    /// The opening heap has more blocks than the live limit.
    LiveTooSmall,
}

impl PlanFault {
    /// The printed text: what is wrong, and what to do.
    pub fn text(self) -> &'static str
        ensures { result.now ≡ plan_fault_text self }
    {
        match self {
            PlanFault::NoRate =>
                "the live limit leaves too few blocks; raise `blocks`, or lower `live`",
            PlanFault::LiveTooSmall =>
                "the registers and the shared array exceed the live limit; raise `live`",
        }
    }
}

impl fmt::Display for PlanFault {
    ghost use Rattle.std.specs.Prelude.{Some};
    ghost use Rattle.rate_plan.specs.Rates.{plan_fault_text};

    ghost output = { λ fault. Some (plan_fault_text fault) };

    fn fmt<W: fmt::Write>(&self, f: &mut fmt::Formatter<W>) -> fmt::Result {
        f.write_str(self.text())
    }
}

impl Error for PlanFault {}

// The blocks with which the heap opens: the register arrays of all threads, and the shared array.
fn opening_blocks(c: &Config) -> u32
    requires { IsInBounds c.now }
    ensures { result ≡ opening_blocks c.now }
{
    c.width.registers_end(c.threads) + blocks_of_array(c.width, c.shared)
}

/// The rate: how many units an allocation will make for each block, chosen so that a cycle ends
/// before the blocks are used up. It is the least number, at least 1, that is enough by `KeepsUp`.
/// The configuration is in bounds.
///
/// # Errors
///
/// `LiveTooSmall` where the opening heap has more than `live` blocks, which is looked at first.
/// `NoRate` where no number of units is enough.
pub fn plan(c: &Config) -> Result<u64, PlanFault>
    requires { IsInBounds c.now }
    ensures { MatchResult result (λ p. IsAdmitted c.now × IsRate c.now p) (IsRefusal c.now) }
{
    if c.live < opening_blocks(c) {
        return Err(PlanFault::LiveTooSmall);
    }
    let taken = c.live + 2 * c.threads * c.object;
    if c.blocks < taken + 2 {
        return Err(PlanFault::NoRate);
    }
    // The most blocks that may be asked for while a cycle lasts.
    let spare = (c.blocks - taken) / 2;
    Ok(u64::from((2 * c.blocks).div_ceil(spare)))
}

/// An admitted configuration has one rate. It is at least 5, and at most twice the number of
/// blocks.
pub fn one_rate()
    ensures found { (c : Config) → IsAdmitted c → (p : ℕ) × IsRate c p }
    ensures single { (c : Config) (p q : ℕ) → IsRate c p → IsRate c q → p ≡ q }
    ensures large { (c : Config) (p : ℕ) → IsAdmitted c → IsRate c p → 5 ≤ p }
    ensures small { (c : Config) (p : ℕ) → IsAdmitted c → IsRate c p → p ≤ 2 * c.blocks }
{
    array_trees::tree_counts();
}

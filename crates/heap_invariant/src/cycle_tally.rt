//! What the units of marking and sweeping pay for, over the cycles of a heap: that each block is
//! marked and swept once in a cycle, that a cycle gives few blocks, and that an allocation is
//! refused only where more blocks were live than the limit. Each law is the contract of a function
//! that does nothing.

ghost use Rattle.std.specs.Prelude.{ℕ, Bool, List, ◌<◌, ◌≤◌, ◌+◌, ◌≡◌, ◌*◌, ◌^◌, ◌-◌};
ghost use Rattle.block_store.specs.declared.Config.{Config};
ghost use Rattle.block_store.specs.declared.Name.{Name};
ghost use Rattle.block_store.specs.declared.Width.{Width};
ghost use Rattle.block_store.specs.Colours.{is_free};
ghost use Rattle.block_store.specs.Configs.{IsInBounds};
ghost use Rattle.array_trees.specs.InitialHeaps.{opening_blocks};
ghost use Rattle.rate_plan.specs.Rates.{KeepsUp};
ghost use Rattle.never_heap.specs.Cycles.{graph_at};
ghost use Rattle.never_heap.specs.GivenBlocks.{given};
ghost use Rattle.never_heap.specs.Histories.{HistoryItem, Legal, starts_in, work_in};
ghost use Rattle.never_heap.specs.Licensed.{StartsSmall, NoFulls};
ghost use Rattle.never_heap.specs.LiveBlocks.{live_blocks};
ghost use Rattle.heap_invariant.specs.name_invariant.States.{KeptState};
ghost use Rattle.heap_invariant.specs.name_invariant.Invariant.{Invariant};
ghost use Rattle.heap_invariant.specs.name_invariant.Events as kept_events;
ghost use Rattle.heap_invariant.specs.cycle_tally.Tallies.{Tally, units, made_now};
ghost use Rattle.heap_invariant.specs.cycle_tally.Events.{Event, apply, Guard, run, Guarded};
ghost use Rattle.heap_invariant.specs.cycle_tally.TallyInvariant.{IsRequested, TallyKept};
ghost use Rattle.heap_invariant.specs.cycle_tally.InitialHeaps.{Opened, opening_tally};
ghost use Rattle.heap_invariant.specs.cycle_tally.Bounds.{Bound};
ghost use Rattle.heap_invariant.specs.cycle_tally.Example.{small, small_rate, blacks, some_events, example_start, example_end, tight, tight_rate, full_events, full_start, full_end};
ghost use Rattle.heap_invariant.specs.cycle_tally.InUse.{IsCovered, count_free};
ghost use Rattle.heap_invariant.specs.cycle_tally.Entries.{InThreads};

/// Each event that may come keeps it, and so does each list of them, at a rate that keeps up.
pub fn events_are_kept()
    ensures step { (c : Config) (rate : ℕ) (black : ℕ → ℕ) (s : Tally) (e : Event)
        → 0 < rate → KeepsUp c rate → TallyKept c rate black s → Guard c rate black s e
        → TallyKept c rate black (apply c rate black s e) }
    ensures run { (c : Config) (rate : ℕ) (black : ℕ → ℕ) (s : Tally) (es : List Event)
        → 0 < rate → KeepsUp c rate → TallyKept c rate black s → Guarded c rate black s es
        → TallyKept c rate black (run c rate black s es) }
{}

/// An opening is kept, and the opening heap of each configuration in bounds that has room for it
/// is one, whatever its colours are. A thread's first command asks for no more blocks than the
/// largest object has or is told of no more units than an idle may be, and not both: so does each
/// command in bounds, and where there is none both are 0.
pub fn openings_are_kept()
    ensures kept { (c : Config) (rate : ℕ) (black : ℕ → ℕ) (s : Tally)
        → 0 < rate → Opened c s → TallyKept c rate black s }
    ensures heap { (c : Config) (colour asked told : ℕ → ℕ) → IsInBounds c
        → opening_blocks c ≤ c.blocks → ((t : ℕ) → t < c.threads → asked t ≤ c.object)
        → ((t : ℕ) → t < c.threads → IsRequested (asked t) (told t) 0)
        → Opened c (opening_tally c colour asked told) }
{}

/// What is kept is within the bound; and so is what comes after an opening.
pub fn events_keep_the_bound()
    ensures kept { (c : Config) (rate : ℕ) (black : ℕ → ℕ) (s : Tally)
        → 0 < rate → TallyKept c rate black s → Bound c rate s }
    ensures after { (c : Config) (rate : ℕ) (black : ℕ → ℕ) (s : Tally) (es : List Event)
        → 0 < rate → KeepsUp c rate → Opened c s → Guarded c rate black s es
        → Bound c rate (run c rate black s es) }
{}

/// Where each of its cycles began with at most L live blocks, a legal order within the bound has
/// no full.
pub fn few_live_are_never_refused()
    ensures { (c : Config) (rate : ℕ) (s : Tally) → Bound c rate s
        → Legal c s.order → StartsSmall c s.order → NoFulls s.order }
{}

/// Few blocks are in use at a start. Where each block that is not Free is of a register array, or
/// of a name that was reachable at the last start or made since, the blocks that are not Free are
/// at most those that were live at that start and those given since. So it is where the rules that
/// need the graph are kept and a cycle may start by them: this is what `Start` asks for, where the
/// free count is the number of Free blocks.
pub fn few_blocks_are_in_use()
    ensures covered { (c : Config) (h : List HistoryItem) (at : Name → ℕ → ℕ) (free : ℕ → Bool)
        (count : ℕ) → Legal c h → InThreads c.threads h → IsCovered c h at free
        → count ≡ count_free c.blocks free
        → c.blocks ≤ count + live_blocks c.width (graph_at c h (starts_in h))
        + given c.width h (starts_in h) }
    ensures start { (c : Config) (s : KeptState) (count : ℕ)
        → Invariant c s → kept_events.Guard c s kept_events.KeptEvent.Start
        → InThreads c.threads s.order
        → count ≡ count_free c.blocks (λ x. is_free (s.colour x))
        → c.blocks ≤ count + live_blocks c.width (graph_at c s.order s.cycle)
        + given c.width s.order s.cycle }
{}

/// While the works of what was decided and what was made for the commands in hand are below
/// 2^50 − 1, the units of all cycles and the number of the cycle are below 2^50, however many
/// commands there were.
pub fn counts_stay_small()
    ensures { (c : Config) (rate : ℕ) (s : Tally) → Bound c rate s
        → 0 < c.blocks → work_in s.order + made_now c.threads s < 2 ^ 50 - 1
        → (units c.blocks s < 2 ^ 50) × (s.cycle < 2 ^ 50) }
{}

/// The conditions of these laws are met in blocks of either width: over a whole cycle of one
/// thread, which pays for a record by it, and the first units of the next, of which an idle made
/// two and the third alone is paid.
pub fn the_example_runs()
    ensures bounds { (w : Width) → IsInBounds (small w) }
    ensures room { (w : Width) → opening_blocks (small w) ≤ (small w).blocks }
    ensures rate { (w : Width) → KeepsUp (small w) small_rate }
    ensures events { (w : Width)
        → Guarded (small w) small_rate blacks (example_start w) some_events }
    ensures legal { (w : Width) → Legal (small w) (example_end w).order }
    ensures starts { (w : Width) → StartsSmall (small w) (example_end w).order }
    ensures cycle { (w : Width) → (example_end w).cycle ≡ 2 }
    ensures units { (w : Width) → units (small w).blocks (example_end w) ≡ 23 }
    ensures paid { (w : Width) → ((example_end w).threads 0).balance
        ≡ record { paid = 1; cycle = 2; units = 3; given = 0 } }
{}

/// A full can come: of one thread that keeps what it is given, the fifth allocation is refused in
/// the fifth cycle, as more blocks were live at the start of the fourth than the limit.
pub fn a_full_can_come()
    ensures bounds { (w : Width) → IsInBounds (tight w) }
    ensures room { (w : Width) → opening_blocks (tight w) ≤ (tight w).blocks }
    ensures rate { (w : Width) → KeepsUp (tight w) (tight_rate w) }
    ensures events { (w : Width)
        → Guarded (tight w) (tight_rate w) blacks (full_start w) (full_events w) }
    ensures legal { (w : Width) → Legal (tight w) (full_end w).order }
    ensures full { (w : Width) → ¬ NoFulls (full_end w).order }
{}

//! Laws of histories and runs, for the proofs of the crates above.

ghost use Rattle.std.specs.Prelude.{◌≡◌, ◌≢◌, ◌<◌, ◌≤◌, ◌+◌, ℕ, Bool, true, List, [], ◌∷◌, ◌++◌};
ghost use Rattle.block_store.specs.declared.Config.{Config};
ghost use Rattle.block_store.specs.declared.Width.{Width};
ghost use Rattle.never_heap.specs.declared.Command.{Command};
ghost use Rattle.never_heap.specs.declared.Entry.{Entry};
ghost use Rattle.never_heap.specs.declared.Item.{Item};
ghost use Rattle.never_heap.specs.Coming.{left_of, MayCome, AllMayCome, IsNoFull};
ghost use Rattle.never_heap.specs.Cycles.{graph_at};
ghost use Rattle.never_heap.specs.GivenBlocks.{given};
ghost use Rattle.never_heap.specs.Histories.{HistoryItem, Started, Did, replay, starts_in, Legal};
ghost use Rattle.never_heap.specs.Licensed.{IsLicensedItem, Licensed, StartsSmall, NoFulls};
ghost use Rattle.never_heap.specs.LiveBlocks.{live_blocks};
ghost use Rattle.never_heap.specs.HistoryOfOrder.{IsHistoryOf};
ghost use Rattle.never_heap.specs.RightWork.{IsRightWork, RightWork};
ghost use Rattle.never_heap.specs.Runs.{IsRun};
ghost use Rattle.never_heap.specs.Taken.{taken_by};

/// Fulls stay licensed and works stay right, where those of one more item at the end are.
pub fn runs_grow()
    ensures licensed { (c : Config) (h : List HistoryItem) (i : HistoryItem)
        → Licensed c h → IsLicensedItem c h i → Licensed c (h ++ i ∷ []) }
    ensures work { (w : Width) (rate : ℕ) (h : List HistoryItem) (i : HistoryItem)
        → RightWork w rate h → IsRightWork w rate i → RightWork w rate (h ++ i ∷ []) }
{}

/// The graph at the start of a cycle stays as the history goes on, and a start is at the graph that
/// the history before it leaves.
pub fn cycles_start()
    ensures past { (c : Config) (h k : List HistoryItem) (z : ℕ)
        → 1 ≤ z → z ≤ starts_in h → graph_at c (h ++ k) z ≡ graph_at c h z }
    ensures next { (c : Config) (h k : List HistoryItem)
        → graph_at c (h ++ Started ∷ k) (starts_in h + 1) ≡ replay c h }
{}

/// What was given in a cycle: nothing at its start, more by each entry that takes blocks, and the
/// same for ever from the next start on.
pub fn blocks_are_given()
    ensures start { (w : Width) (h : List HistoryItem)
        → given w (h ++ Started ∷ []) (starts_in h + 1) ≡ 0 }
    ensures entry { (w : Width) (h : List HistoryItem) (e : Entry) → 1 ≤ starts_in h
        → given w (h ++ Did e ∷ []) (starts_in h) ≡ given w h (starts_in h) + taken_by w e }
    ensures end { (w : Width) (h : List HistoryItem) → 1 ≤ starts_in h
        → given w (h ++ Started ∷ []) (starts_in h) ≡ given w h (starts_in h) }
    ensures past { (w : Width) (h k : List HistoryItem) (z : ℕ)
        → 1 ≤ z → z < starts_in h → given w (h ++ k) z ≡ given w h z }
{}

/// A legal history whose fulls are licensed has none, where each of its cycles began with at most L
/// live blocks.
pub fn fulls_need_live_blocks()
    ensures { (c : Config) (h : List HistoryItem)
        → Legal c h → Licensed c h → StartsSmall c h → NoFulls h }
{}

/// An order and its logs make at most one history.
pub fn orders_make_one_history()
    ensures { (order : List Item) (logs : List (List Entry)) (h k : List HistoryItem)
        → IsHistoryOf order logs h → IsHistoryOf order logs k → h ≡ k }
{}

/// A run is items of which each may come after those before it, to the end of all traces; and any
/// such items, where there are some, are a run.
pub fn runs_are_items_that_may_come()
    ensures item { (c : Config) (rate : ℕ) (traces : List (List Command))
        (past : List HistoryItem) (i : HistoryItem) (rest : List HistoryItem)
        → IsRun c rate traces (past ++ i ∷ rest) → MayCome c rate traces past i }
    ensures items { (c : Config) (rate : ℕ) (traces : List (List Command)) (h : List HistoryItem)
        → IsRun c rate traces h → AllMayCome c rate traces [] h }
    ensures begun { (c : Config) (rate : ℕ) (traces : List (List Command)) (h : List HistoryItem)
        → IsRun c rate traces h → h ≢ [] }
    ensures none_left { (c : Config) (rate : ℕ) (traces : List (List Command))
        (h : List HistoryItem) (t : ℕ) → IsRun c rate traces h → left_of traces h t ≡ [] }
    ensures run { (c : Config) (rate : ℕ) (traces : List (List Command)) (h : List HistoryItem)
        → h ≢ [] → AllMayCome c rate traces [] h → ((t : ℕ) → left_of traces h t ≡ [])
        → IsRun c rate traces h }
{}

/// The induction along a run. Where something holds of no item, leaves at most L blocks live, and
/// goes on by each item that may come and is no full, it holds of each run, and no run has a full.
pub fn runs_are_walked()
    ensures { (c : Config) (rate : ℕ) (traces : List (List Command))
        (holds : List HistoryItem → Bool)
        → holds [] ≡ true
        → ((past : List HistoryItem)
        → holds past ≡ true → live_blocks c.width (replay c past) ≤ c.live)
        → ((past : List HistoryItem) (i : HistoryItem)
        → MayCome c rate traces past i → IsNoFull i
        → holds past ≡ true → holds (past ++ i ∷ []) ≡ true)
        → (h : List HistoryItem) → IsRun c rate traces h → (holds h ≡ true) × NoFulls h }
{}

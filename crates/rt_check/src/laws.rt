//! Laws of the definitions.

ghost use Rattle.std.specs.Prelude.{◌≡◌, ◌≤◌, ◌↔◌, ◌⊎◌, ℕ, List, [], length, Option};
ghost use Rattle.block_store.specs.declared.Config.{Config};
ghost use Rattle.never_heap.specs.declared.Command.{Command};
ghost use Rattle.never_heap.specs.Histories.{HistoryItem};
ghost use Rattle.never_heap.specs.Runs.{IsRun};
ghost use Rattle.trace_text.specs.OrderTexts.{order_lines};
ghost use Rattle.exit_statuses.specs.declared.refusal.Refusal.{Refusal};
ghost use Rattle.rt_check.specs.Answers.{IsAnswerTo};
ghost use Rattle.rt_check.specs.Good.{IsGood, AreGood, FirstBad};
ghost use Rattle.rt_check.specs.Taken.{IsTaken, AreTaken, FirstLeft};
ghost use Rattle.trace_text.specs.Jobs.{Job, IsJobInBounds};

/// The lines that are good to the end are those of a run in order. With at most 16 threads, as a
/// job has, a line is good as one item at most; and lines are good to the end, or one of them is
/// the first that is not: one of the two, never both, and there is one such line at most.
pub fn good_orders_are_runs()
    ensures runs { (c : Config) (rate : ℕ) (traces : List (List Command)) (lines : List (List ℕ))
        → AreGood c rate traces [] lines
        ↔ ((h : List HistoryItem) × IsRun c rate traces h × (lines ≡ order_lines h)) }
    ensures one { (c : Config) (rate : ℕ) (traces : List (List Command)) (past : List HistoryItem)
        (line : List ℕ) (i j : HistoryItem) → length traces ≤ 16
        → IsGood c rate traces past line i → IsGood c rate traces past line j → i ≡ j }
    ensures settled { (c : Config) (rate : ℕ) (traces : List (List Command))
        (lines : List (List ℕ)) → length traces ≤ 16
        → AreGood c rate traces [] lines
        ⊎ ((n : ℕ) × FirstBad c rate traces [] lines n) }
    ensures apart { (c : Config) (rate : ℕ) (traces : List (List Command)) (lines : List (List ℕ))
        (n : ℕ) → length traces ≤ 16
        → AreGood c rate traces [] lines → FirstBad c rate traces [] lines n → ⊥ }
    ensures first { (c : Config) (rate : ℕ) (traces : List (List Command)) (lines : List (List ℕ))
        (m n : ℕ) → length traces ≤ 16
        → FirstBad c rate traces [] lines m → FirstBad c rate traces [] lines n → m ≡ n }
{}

/// Bytes have one answer at most.
pub fn answers_are_one()
    ensures { (bytes : List ℕ) (a b : Option Refusal)
        → IsAnswerTo bytes a → IsAnswerTo bytes b → a ≡ b }
{}

/// Of a job in its ranges a line is taken as one item at most, and lines are not both taken to the
/// end and left.
pub fn lines_are_taken_once()
    ensures one { (job : Job) (past : List HistoryItem) (line : List ℕ) (i j : HistoryItem)
        → IsJobInBounds job → IsTaken job.config job.traces past line i
        → IsTaken job.config job.traces past line j → i ≡ j }
    ensures apart { (job : Job) (lines : List (List ℕ)) (h : List HistoryItem) (n : ℕ)
        → IsJobInBounds job → AreTaken job.config job.traces [] lines h
        → FirstLeft job.config job.traces [] lines n → ⊥ }
{}

//! What holds after every list of turns, for the proofs above: each law is the contract of a
//! function that does nothing.

ghost use Rattle.std.specs.Prelude.{◌+◌, ◌*◌, ◌^◌, ◌≡◌, ◌<◌, ◌≤◌, ◌++◌, ◌∷◌, [], ℕ, List, length, Some, true, false, if◌then◌else◌};
ghost use Rattle.block_store.specs.declared.Config.{Config};
ghost use Rattle.block_store.specs.declared.Name.{Name};
ghost use Rattle.block_store.specs.declared.TheConstants.{REGISTERS};
ghost use Rattle.block_store.specs.Colours.{is_free};
ghost use Rattle.block_store.specs.Counts.{total};
ghost use Rattle.block_store.specs.Heaps.{heap_of};
ghost use Rattle.block_store.specs.Phases.{bit, inside_of, cycle_of};
ghost use Rattle.block_store.specs.Places.{Place, Phase, ColourOf, extent, in_range};
ghost use Rattle.array_trees.specs.InitialHeaps.{opening_blocks};
ghost use Rattle.rate_plan.specs.Rates.{IsRate, IsAdmitted};
ghost use Rattle.never_heap.specs.declared.Reply.{Reply};
ghost use Rattle.never_heap.specs.Histories.{replay, part, Legal, starts_in, work_in};
ghost use Rattle.never_heap.specs.Reach.{reachable};
ghost use Rattle.never_heap.specs.RightWork.{RightWork, requested_units};
ghost use Rattle.never_heap.specs.Steps.{blocks_of};
ghost use Rattle.heap_invariant.specs.graph_relation.Events.{pending_registers, Follows};
ghost use Rattle.heap_invariant.specs.graph_relation.InitialHeaps.{opening_words};
ghost use Rattle.heap_invariant.specs.graph_relation.GraphOfWords.{Shows};
ghost use Rattle.heap_invariant.specs.graph_relation.Words.{block_words, Agrees};
ghost use Rattle.heap_invariant.specs.name_invariant.Building.{Build as Building, NotHeld};
ghost use Rattle.heap_invariant.specs.name_invariant.Invariant.{Invariant, IsOlder};
ghost use Rattle.heap_invariant.specs.name_invariant.Pictures.{no_task};
ghost use Rattle.heap_invariant.specs.name_invariant.Reached.{IsReachedBlock};
ghost use Rattle.heap_invariant.specs.name_invariant.States.{sizes};
ghost use Rattle.heap_machine.specs.Gating.{is_inside, GateOf};
ghost use Rattle.heap_machine.specs.WorkInHand.{holds_nothing};
ghost use Rattle.heap_machine.specs.Operations.{place_of, op_at, SumFits};
ghost use Rattle.heap_machine.specs.PhaseKept.{PhaseKept};
ghost use Rattle.heap_machine.specs.Readings.{IsHeld};
ghost use Rattle.barrier_steps.specs.Operands.{is_idle};
ghost use Rattle.barrier_steps.specs.Rows.{FieldState, field_decided};
ghost use Rattle.build_steps.specs.Rows.{BuildState};
ghost use Rattle.heap_system.specs.Parts.{Part, Access, Build, Leave};
ghost use Rattle.heap_system.specs.declared.Turn.TheVariants as Turn;
ghost use Rattle.heap_system.specs.Loaded.{IsLoadedBlock, IsTaking};
ghost use Rattle.heap_system.specs.Locals.{task, is_done, waits, is_rest, command_of, owed, entry_of, works, part_want, part_step, turn_of, LocalReads};
ghost use Rattle.heap_system.specs.Machines.{State, answer, turned, Run, opened, IsAfterTurns, local_in, local_at, heap_in, word_read};
ghost use Rattle.heap_system.specs.InitialHeaps.{opening_heap};
ghost use Rattle.heap_system.specs.Pictures.{stand_of, work_in_hand, gates_in, work_in_hand_of, tasks_in, kept_state, entries_waiting};
ghost use Rattle.heap_system.specs.Systems.{units_of, logs_of, Finish};
ghost use Rattle.heap_system.specs.Units.{units_made, units_made_for, blacks_made, passes_made, AreMadeFor, IsRight};

use crate::Finished;
use never_heap::Logs;

/// The words of an opening are those of the start graph, up to the last block of the shared array.
pub fn opening_shows_the_start()
    ensures { (c : Config) (ws : List ℕ) → IsAdmitted c
        → ((p : Place) → in_range (extent c) p ≡ true → heap_of (extent c) ws p ≡ opening_heap c p)
        → (x : ℕ) → 0 < x → x ≤ opening_blocks c
        → Agrees c.width (opening_words c) (block_words (heap_of (extent c) ws)) x }
{}

/// The words show, of the replay of the order, each object that the rules keep, where they say that
/// it is, and no two of its blocks are one; and they keep each one that the graph reaches.
/// There is one exception: between the event that takes a field's value and the store in the
/// register, so between the load and the store of a `get`, and between the exchange and the store
/// of a `swap`, that register's word is still that of the value that it had before. What a thread
/// has loaded is of that graph. No block that the graph reaches is Free, or held by a thread that
/// builds; nor is one to which a thread has loaded a reference, also where this is the only one: to
/// an object, to a value that it will store, or to one with which a `cas` compares.
pub fn words_show_the_order()
    ensures words { (c : Config) (r : Run) → IsAfterTurns c r
        → Shows c.width c.threads c.blocks (λ a. r.names.kept a ≡ true) (replay c r.order)
        r.names.at (block_words (heap_in c r.state))
        (pending_registers (λ t. (tasks_in c r.state t).loading)) }
    ensures reached { (c : Config) (r : Run) → IsAfterTurns c r
        → (a : Name) → reachable (replay c r.order) a ≡ true → r.names.kept a ≡ true }
    ensures older { (c : Config) (r : Run) → IsAfterTurns c r
        → (t q : ℕ) → t < c.threads → q < REGISTERS
        → pending_registers (λ u. (tasks_in c r.state u).loading) t q ≡ true
        → IsOlder c r.order (block_words (heap_in c r.state)) (λ a. r.names.kept a ≡ true)
        r.names.at t q }
    ensures loads { (c : Config) (r : Run) → IsAfterTurns c r
        → Follows c.width c.threads c.blocks (λ a. r.names.kept a ≡ true) r.names.at
        (kept_state c r).seen }
    ensures free { (c : Config) (r : Run) → IsAfterTurns c r
        → (x : ℕ) → IsReachedBlock c (kept_state c r) x
        → is_free (heap_in c r.state (ColourOf x)) ≡ false }
    ensures not_held { (c : Config) (r : Run) → IsAfterTurns c r
        → (x t : ℕ) (b : Building) → IsReachedBlock c (kept_state c r) x → t < c.threads
        → (task c (local_in c r t).part).build ≡ Some b → NotHeld b x }
    ensures loaded { (c : Config) (r : Run) → IsAfterTurns c r → (t x : ℕ) → t < c.threads
        → IsLoadedBlock (tasks_in c r.state t).loading x
        → (is_free (heap_in c r.state (ColourOf x)) ≡ false)
        × ((u : ℕ) (b : Building) → u < c.threads
        → (task c (local_in c r u).part).build ≡ Some b → NotHeld b x) }
    ensures apart { (c : Config) (r : Run) → IsAfterTurns c r → (a b : Name) (o p : ℕ)
        → r.names.kept a ≡ true → r.names.kept b ≡ true
        → o < sizes c (kept_state c r) a → p < sizes c (kept_state c r) b
        → r.names.at a o ≡ r.names.at b p → (a ≡ b) × (o ≡ p) }
    ensures pending { (c : Config) (r : Run) → IsAfterTurns c r
        → (t q : ℕ) → t < c.threads → q < REGISTERS
        → pending_registers (λ u. (tasks_in c r.state u).loading) t q ≡ true
        → IsTaking (local_in c r t) q }
{}

/// Each rule on the heap and on its names is kept: each word is one that its place can hold; grey
/// and Free blocks occur once, what is claimed and what was passed; in Mark the tricolour rule, and
/// that only Free blocks refer to Free ones; and what needs the graph.
pub fn turns_keep_the_rules()
    ensures held { (c : Config) (r : Run) → IsAfterTurns c r → IsHeld c (heap_in c r.state) }
    ensures rules { (c : Config) (r : Run) → IsAfterTurns c r
        → PhaseKept (extent c) (heap_in c r.state) (work_in_hand_of c r.state) }
    ensures names { (c : Config) (r : Run) → IsAfterTurns c r → Invariant c (kept_state c r) }
{}

/// The order is legal: each command is answered as the heap that never frees answers it there, or
/// it allocates and is answered full. That the threads answer this is `logs_are_parts`. Its starts
/// are the cycles that the phase word counts, its work is that of the logs, and each of its entries
/// has the work that its command owes.
pub fn order_is_legal()
    ensures legal { (c : Config) (r : Run) → IsAfterTurns c r → Legal c r.order }
    ensures starts { (c : Config) (r : Run) → IsAfterTurns c r
        → starts_in r.order ≡ cycle_of (heap_in c r.state Phase) }
    ensures work { (c : Config) (r : Run) → IsAfterTurns c r
        → work_in r.order ≡ units_of (logs_of r.state) }
    ensures right { (c : Config) (r : Run) → IsAfterTurns c r → (rate : ℕ) → IsRate c rate
        → RightWork c.width rate r.order }
{}

/// A thread's log is its part of the order, reply for reply. Between the linearization point of a
/// command and its last event inside, the order has one entry more, with the reply that the log
/// will have. A thread at rest is at nothing and holds nothing.
pub fn logs_are_parts()
    ensures each { (c : Config) (r : Run) → IsAfterTurns c r → (t : ℕ) → t < c.threads
        → part t r.order
        ≡ (local_in c r t).log ++ entries_waiting (replay c r.order) (local_in c r t) }
    ensures rest { (c : Config) (r : Run) → IsAfterTurns c r → (t : ℕ) → t < c.threads
        → is_rest (local_in c r t).part ≡ true
        → (part t r.order ≡ (local_in c r t).log)
        × (task c (local_in c r t).part ≡ no_task)
        × (work_in_hand c (local_in c r t).part ≡ holds_nothing) }
    ensures decided { (c : Config) (r : Run) → IsAfterTurns c r → (t : ℕ) → t < c.threads
        → (f : FieldState) → (local_in c r t).part ≡ Access f → field_decided f.row ≡ true
        → (y : Reply)
        × (part t r.order
        ≡ (local_in c r t).log ++ entry_of t (command_of (local_in c r t)) 0 y ∷ []) }
    ensures undecided { (c : Config) (r : Run) → IsAfterTurns c r → (t : ℕ) → t < c.threads
        → (f : FieldState) → (local_in c r t).part ≡ Access f → field_decided f.row ≡ false
        → part t r.order ≡ (local_in c r t).log }
    ensures building { (c : Config) (r : Run) → IsAfterTurns c r → (t : ℕ) → t < c.threads
        → (b : BuildState) → (local_in c r t).part ≡ Build b
        → part t r.order ≡ (local_in c r t).log }
{}

/// The works of a thread's entries, and the units that it has made for the command in hand, are its
/// turns that are units: those at which it makes a grey block black, and those at which it passes a
/// block of the sweep (`made`, `units`). The work of each entry is the units that the thread made
/// for this command, which are those made while the log had the entries before it and no more
/// (`each`); and so are those made for the command in hand (`hand`). It has made no more for any
/// command than it owes, which is the rate times the blocks of an allocation, and what an idle is
/// told of (`owed`); and each entry has exactly that (`entries`).
///
/// What its account has paid are these units where the command in hand is no idle, and none where
/// it is one (`paid`). An allocation builds its object, or is refused, only where the account has
/// paid the price of all its blocks (`builds`), and any other command is done only where exactly so
/// many units were made for it as it is told of (`serves`): those of an idle, and for the others
/// none. At rest, and on the way out once its command is over, nothing is made and nothing paid
/// (`rest`, `settled`).
pub fn works_are_units()
    ensures made { (c : Config) (r : Run) → (is : IsAfterTurns c r) → (t : ℕ) → t < c.threads
        → works (part t r.order) + (local_in c r t).spent
        ≡ units_made c t (opened c is.by_turns.first) is.turns }
    ensures each { (c : Config) (r : Run) → (is : IsAfterTurns c r) → (t : ℕ) → t < c.threads
        → AreMadeFor c t (part t r.order) (opened c is.by_turns.first) is.turns }
    ensures hand { (c : Config) (r : Run) → (is : IsAfterTurns c r) → (t : ℕ) → t < c.threads
        → (local_in c r t).spent
        ≡ units_made_for c t (length (local_in c r t).log) (opened c is.by_turns.first) is.turns }
    ensures units { (c : Config) (r : Run) → (is : IsAfterTurns c r) → (t : ℕ) → t < c.threads
        → units_made c t (opened c is.by_turns.first) is.turns
        ≡ blacks_made c t (opened c is.by_turns.first) is.turns
        + passes_made c t (opened c is.by_turns.first) is.turns }
    ensures owed { (c : Config) (r : Run) → IsAfterTurns c r → (t : ℕ) → t < c.threads
        → (local_in c r t).spent ≤ owed (local_in c r t) }
    ensures entries { (c : Config) (r : Run) → IsAfterTurns c r → (t : ℕ) → t < c.threads
        → (rate : ℕ) → IsRate c rate → IsRight c.width rate (part t r.order) }
    ensures paid { (c : Config) (r : Run) → (is : IsAfterTurns c r) → (t : ℕ) → t < c.threads
        → (local_in c r t).balance.paid
        ≡ (if is_idle (command_of (local_in c r t)) then 0 else
        units_made_for c t (length (local_in c r t).log) (opened c is.by_turns.first) is.turns) }
    ensures builds { (c : Config) (r : Run) → IsAfterTurns c r → (t : ℕ) → t < c.threads
        → (b : BuildState) → (local_in c r t).part ≡ Build b → (rate : ℕ) → IsRate c rate
        → (0 < blocks_of c.width (command_of (local_in c r t)))
        × ((local_in c r t).balance.paid ≡ rate * blocks_of c.width (command_of (local_in c r t)))
        × ((local_in c r t).spent ≡ owed (local_in c r t)) }
    ensures serves { (c : Config) (r : Run) → (is : IsAfterTurns c r) → (t : ℕ) → t < c.threads
        → (f : FieldState) → (local_in c r t).part ≡ Access f
        → (blocks_of c.width (command_of (local_in c r t)) ≡ 0)
        × (units_made_for c t (length (local_in c r t).log) (opened c is.by_turns.first) is.turns
        ≡ requested_units (command_of (local_in c r t))) }
    ensures rest { (c : Config) (r : Run) → IsAfterTurns c r → (t : ℕ) → t < c.threads
        → is_rest (local_in c r t).part ≡ true
        → ((local_in c r t).spent ≡ 0) × ((local_in c r t).balance.paid ≡ 0) }
    ensures settled { (c : Config) (r : Run) → IsAfterTurns c r → (t : ℕ) → t < c.threads
        → (local_in c r t).part ≡ Leave
        → ((local_in c r t).spent ≡ 0) × ((local_in c r t).balance.paid ≡ 0) }
    ensures rate { (c : Config) (r : Run) → IsAfterTurns c r → (t : ℕ) → t < c.threads
        → IsRate c (local_in c r t).rate }
{}

/// The phase word counts the threads inside, at most all of them; while the gate is closed one
/// thread has closed it and nobody is inside; and a thread inside has the phase and cycle of the
/// word.
pub fn threads_inside_are_counted()
    ensures count { (c : Config) (r : Run) → IsAfterTurns c r
        → inside_of (heap_in c r.state Phase)
        ≡ total c.threads (λ t. bit (is_inside (stand_of c (local_in c r t).part))) }
    ensures most { (c : Config) (r : Run) → IsAfterTurns c r
        → inside_of (heap_in c r.state Phase) ≤ c.threads }
    ensures gate { (c : Config) (r : Run) → IsAfterTurns c r
        → GateOf c.threads (heap_in c r.state Phase) (gates_in c r.state) }
{}

/// A turn waits exactly where it looks at a closed gate, where another thread changed the phase
/// word, the cursor or the free count since it was read, where it would close the gate in its
/// pass's cycle and phase but finds it closed or somebody inside, and where the last of all free
/// lists was empty. A thread's part and the word that its event reads tell it, whatever the state.
/// It answers that a thread is done exactly where it is, and then changes nothing.
pub fn turns_wait()
    ensures waits { (c : Config) (t : ℕ) (s : State) → is_done (local_at c s t) ≡ false
        → answer c t s
        ≡ (if waits (local_at c s t).part (word_read c s (local_at c s t))
        then Turn.Waited else Turn.Went) }
    ensures rows { (c : Config) (p : Part) (w : ℕ)
        → turn_of (part_step c p w) ≡ (if waits p w then Turn.Waited else Turn.Went) }
    ensures done { (c : Config) (t : ℕ) (s : State) → is_done (local_at c s t) ≡ true
        → (answer c t s ≡ Turn.Done) × (turned c t s ≡ s) }
{}

/// The next event of a thread is on a place of the heap, reads a word that its row may read, and
/// leaves no sum or difference outside of 64 bits. The cycles stay below 2^50, so that the phase
/// word has room for the next one.
pub fn events_are_safe()
    ensures place { (c : Config) (r : Run) → IsAfterTurns c r → (t : ℕ) → t < c.threads
        → in_range (extent c) (place_of (part_want c (local_in c r t).part)) ≡ true }
    ensures reads { (c : Config) (r : Run) → IsAfterTurns c r → (t : ℕ) → t < c.threads
        → LocalReads c (local_in c r t) (word_read c r.state (local_in c r t)) }
    ensures sums { (c : Config) (r : Run) → IsAfterTurns c r → (t : ℕ) → t < c.threads
        → SumFits (op_at (extent c) (part_want c (local_in c r t).part))
        (word_read c r.state (local_in c r t)) }
    ensures cycles { (c : Config) (r : Run) → IsAfterTurns c r
        → cycle_of (heap_in c r.state Phase) < 2 ^ 50 }
{}

/// What a finished run shows as `Logs` is what it holds: its logs, the cycles, and the sum of its
/// works.
pub fn finished_runs_show_their_logs()
    ensures logs { (f : Finish) → ⟦<Finished as Logs>⟧.logs f ≡ f.logs }
    ensures cycles { (f : Finish) → ⟦<Finished as Logs>⟧.cycle_count f ≡ f.cycles }
    ensures units { (f : Finish) → ⟦<Finished as Logs>⟧.unit_count f ≡ units_of f.logs }
{}

//! How many turns a command takes where one thread alone has them, for the proofs above: each law
//! is the contract of a function that does nothing.

ghost use Rattle.std.specs.Prelude.{ℕ, ◌+◌, ◌*◌, ◌<◌, ◌≤◌, ◌≡◌, false, true};
ghost use Rattle.block_store.specs.declared.Config.{Config};
ghost use Rattle.block_store.specs.Configs.{IsInBounds};
ghost use Rattle.block_store.specs.Widths.{payloads};
ghost use Rattle.rate_plan.specs.solo_bound.Near.{near_bound, near_other_bound};
ghost use Rattle.never_heap.specs.declared.Command.{Command};
ghost use Rattle.never_heap.specs.declared.Command.TheVariants.{Idle};
ghost use Rattle.never_heap.specs.RightWork.{requested_units};
ghost use Rattle.never_heap.specs.Steps.{blocks_of};
ghost use Rattle.barrier_steps.specs.Operands.{is_idle};
ghost use Rattle.rate_plan.specs.Rates.{IsRate, IsAdmitted};
ghost use Rattle.heap_system.specs.Alone.{IsQuiet, HasCommand, EndsWithin, command_bound, command_near, most_events, ChangesPhase, UnitBetween};
ghost use Rattle.heap_system.specs.Locals.{command_of, is_rest};
ghost use Rattle.heap_system.specs.Machines.{Run, IsAfterTurns, local_in};

/// Where nobody is inside and the gate is open, a thread at rest with a command left that alone has
/// turns does the command in a bounded number of them, of which none waits (`command`). Then it is
/// at rest with one entry more, nobody is inside, and the gate is open. On n threads, at rate P and
/// with at most b blocks in an object, the bound of an allocation of k blocks is
/// (P k + 1)(8 n + 64) + 16 k + 8 n + 64 (`allocation`), that of an idle of u units
/// (u + 1)(8 n + 64) (`idle`), and that of any other command b + 64 (`other`).
pub fn a_lone_thread_ends_its_command()
    ensures command { (c : Config) (r : Run) (t rate : ℕ) → IsAfterTurns c r → IsRate c rate
        → IsQuiet c r → t < c.threads → HasCommand (local_in c r t)
        → EndsWithin c t r (command_bound c rate (command_of (local_in c r t))) }
    ensures allocation { (c : Config) (k : Command) (rate : ℕ) → 0 < blocks_of c.width k
        → command_bound c rate k
        ≡ (rate * blocks_of c.width k + 1) * (8 * c.threads + 64) + 16 * blocks_of c.width k
        + 8 * c.threads + 64 }
    ensures idle { (c : Config) (u rate : ℕ)
        → command_bound c rate (Idle u) ≡ (u + 1) * (8 * c.threads + 64) }
    ensures other { (c : Config) (k : Command) (rate : ℕ) → blocks_of c.width k ≡ 0
        → is_idle k ≡ false → command_bound c rate k ≡ c.object + 64 }
{}

/// So a command is done in a number of turns that is near the most that one takes: those of its
/// units, of the changes of phase that can come among them and of the passes to others' grey lists
/// before the first, and those of the way in and out and of the command itself (`near`): of an
/// allocation those that write its blocks (`allocation`), of any other command its events inside
/// (`other`). That is within the bound that `a_lone_thread_ends_its_command` states, which so
/// follows (`stated`).
pub fn a_lone_command_ends_near_its_bound()
    ensures near { (c : Config) (r : Run) (t rate : ℕ) → IsAfterTurns c r → IsRate c rate
        → IsQuiet c r → t < c.threads → HasCommand (local_in c r t)
        → EndsWithin c t r (command_near c rate (command_of (local_in c r t))) }
    ensures allocation { (c : Config) (k : Command) (rate : ℕ) → 0 < blocks_of c.width k
        → command_near c rate k
        ≡ near_bound c.threads (payloads c.width) c.blocks (rate * blocks_of c.width k)
        (blocks_of c.width k) }
    ensures other { (c : Config) (k : Command) (rate : ℕ) → blocks_of c.width k ≡ 0
        → command_near c rate k
        ≡ near_other_bound c.threads (payloads c.width) c.blocks (requested_units k) (most_events c k) }
    ensures stated { (c : Config) (k : Command) (rate : ℕ) → IsInBounds c → IsAdmitted c
        → command_near c rate k ≤ command_bound c rate k }
{}

/// Between two changes of the phase that a lone thread makes there is a unit: it does not turn the
/// phase over twice for one.
pub fn units_part_the_changes_of_a_lone_thread()
    ensures { (c : Config) (r : Run) (t i j : ℕ) → IsAfterTurns c r → IsQuiet c r
        → t < c.threads → is_rest (local_in c r t).part ≡ true
        → i < j → ChangesPhase c t r i → ChangesPhase c t r j → UnitBetween c t r i j }
{}

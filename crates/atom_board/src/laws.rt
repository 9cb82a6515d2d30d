//! What callers know of a board beside its calls: each law is the contract of a function that does
//! nothing.

ghost use Rattle.std.specs.Prelude.{◌≡◌, ℕ};
ghost use Rattle.atomic_table.specs.Table as table;
ghost use Rattle.heap_system.specs.Locals.{LocalState};
ghost use Rattle.heap_system.specs.Systems.{Whole, units_of};
ghost use Rattle.atom_board.specs.declared.rules.View.{View};
ghost use Rattle.atom_board.specs.Boards.{BoardKept, MayGo, IsLonger};
ghost use Rattle.atom_board.specs.Mutators.{ClosedState};

use crate::closed::Closed;
use never_heap::Logs;

/// What a closed run shows as `Logs` is what it holds: its logs, the cycles, and the sum of its
/// works.
pub fn closed_runs_show_their_logs()
    ensures logs { (f : ClosedState) → ⟦<Closed as Logs>⟧.logs f ≡ f.logs }
    ensures cycles { (f : ClosedState) → ⟦<Closed as Logs>⟧.cycle_count f ≡ f.cycles }
    ensures units { (f : ClosedState) → ⟦<Closed as Logs>⟧.unit_count f ≡ units_of f.logs }
{}

/// A turn of a mutator is one step of the table, and keeps the rule of the board: the words and
/// threads after it are those after the same list of turns with the mutator's thread after it.
pub fn turns_lengthen_the_list()
    ensures { (k : Whole) (s : table.State Unit View) (kept : BoardKept k s) (id n : ℕ)
        (l : LocalState) → MayGo s id n l → IsLonger k s kept id n l }
{}

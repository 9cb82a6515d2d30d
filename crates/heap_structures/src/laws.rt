//! Laws of structures and of their commands.

ghost use Rattle.std.specs.Prelude.{◌≡◌, ◌≢◌, ◌≤◌, ℕ, List};
ghost use Rattle.block_store.specs.declared.Name.{Name};
ghost use Rattle.block_store.specs.declared.Value.{Value};
ghost use Rattle.array_trees.specs.Trees.{array_blocks};
ghost use Rattle.never_heap.specs.declared.Command.{Command};
ghost use Rattle.never_heap.specs.Graphs.{Graph};
ghost use Rattle.never_heap.specs.Steps.{step};
ghost use Rattle.control_heap.specs.Controls.{Control};
ghost use Rattle.control_heap.specs.graph_view.RunsOfCommands.{HasDone};
ghost use Rattle.heap_structures.specs.declared.cells.Cells.{Cells};
ghost use Rattle.heap_structures.specs.Cells.{IsNone, Spares};
ghost use Rattle.heap_structures.specs.Heaps.{Has, IsQuiet, Sight, Took};
ghost use Rattle.heap_structures.specs.Rings.{IsRound};

use block_store::Width;
use control_heap::{histories_are_right, lives_add_up};
use never_heap::{Command, live_grows};

/// A command that makes neither an object nor a unit is answered as the graph says, whatever is
/// known of the heap's past, and as much is known afterwards.
pub fn quiet_commands_keep_graphs()
    ensures { (s : Sight) (h z : Control) (g : Graph) (k : Command)
        → IsQuiet k → Has s h g → (d : HasDone h k z)
        → (d.reply ≡ (step g 0 k).1) × Has s z (step g 0 k).0 × Took 1 h z }
{
    histories_are_right();
    lives_add_up();
    live_grows();
}

/// A ring or queue keeps its values where a call spares its array and its base register. So several
/// may be on one heap; they may have one spare register in common.
pub fn others_stay()
    ensures { (rs : List ℕ) (a : Name) (g z : Graph) (c : Cells) (first count : ℕ)
        (xs : List Value) → Spares rs a g z → c.array ≢ a → IsNone rs c.base
        → IsRound g c first count xs → IsRound z c first count xs }
{}

/// How many blocks a structure of `size` values takes, the values apart.
pub fn blocks_of(width: Width, size: u32) -> u32
    requires { size ≤ 65535 }
    ensures { result ≡ array_blocks width size }
{
    let elements = size;
    Command::Arr { d: 0, elements }.blocks(width)
}

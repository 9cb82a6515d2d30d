//! Laws of commands that two heaps do, which show one graph up to names.

ghost use Rattle.std.specs.Prelude.{◌≡◌, ◌≤◌, List};
ghost use Rattle.std.specs.List.{AllByRecursion};
ghost use Rattle.block_store.specs.declared.Config.{Config};
ghost use Rattle.block_store.specs.declared.Width.{Width};
ghost use Rattle.never_heap.specs.declared.Command.{Command};
ghost use Rattle.never_heap.specs.Bounds.{IsCommandInRange};
ghost use Rattle.never_heap.specs.Graphs.{Graph};
ghost use Rattle.never_heap.specs.Histories.{HistoryItem, replay};
ghost use Rattle.never_heap.specs.LiveBlocks.{live_blocks};
ghost use Rattle.saved_heap.specs.heap_pictures.Following.{HasOneThread, StayOneUpToNames, replies_to};
ghost use Rattle.saved_heap.specs.heap_pictures.Plans.{graph_after};
ghost use Rattle.saved_heap.specs.heap_pictures.UpToNames.{AreOneUpToNames};

/// Two graphs of one thread that are one up to names are so again after the same commands, and the
/// replies are one up to names: each name of the first has one name in the second, from the first
/// of the commands to the last. A command that is answered `Full` leaves its graph unchanged, and
/// is none of these.
pub fn commands_keep_names()
    ensures runs { (c : Config) (h : List HistoryItem)
        → c.threads ≡ 1 → HasOneThread (replay c h) }
    ensures threads { (g : Graph) (ks : List Command)
        → HasOneThread g → HasOneThread (graph_after g ks) }
    ensures names { (g z : Graph) (ks : List Command)
        → HasOneThread g → HasOneThread z → AllByRecursion IsCommandInRange ks
        → (one : AreOneUpToNames g z)
        → StayOneUpToNames one (graph_after g ks) (graph_after z ks)
        (replies_to g ks) (replies_to z ks) }
{}

/// A graph of one thread has at most as many live blocks as one that is the same up to names.
pub fn names_take_no_blocks()
    ensures { (w : Width) (g z : Graph) → HasOneThread g → HasOneThread z → AreOneUpToNames g z
        → live_blocks w z ≤ live_blocks w g }
{}

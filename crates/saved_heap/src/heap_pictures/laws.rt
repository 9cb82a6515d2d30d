//! Laws of pictures. Each is the contract of a function that does nothing.

ghost use Rattle.std.specs.Prelude.{◌≡◌, true};
ghost use Rattle.block_store.specs.declared.Config.{Config};
ghost use Rattle.never_heap.specs.Graphs.{Graph, start_graph};
ghost use Rattle.saved_heap.specs.heap_pictures.Pictures.{Content, graph_of, is_sound};
ghost use Rattle.saved_heap.specs.heap_pictures.Plans.{graph_after, plan_of};
ghost use Rattle.saved_heap.specs.heap_pictures.UpToNames.{AreOneUpToNames};

/// The commands of a plan build what the picture shows, up to names: on the heap that never frees,
/// from the graph of a configuration of one thread.
pub fn pictures_are_built()
    ensures { (c : Config) (p : Content) → c.threads ≡ 1 → is_sound p ≡ true
        → AreOneUpToNames (graph_of p) (graph_after (start_graph c) (plan_of p)) }
{}

/// Graphs that are one up to names with a third are so with each other: what was saved and loaded,
/// or renewed and renewed again, is what it was at first.
pub fn names_follow_one_another()
    ensures { (g h z : Graph) → AreOneUpToNames g h → AreOneUpToNames h z → AreOneUpToNames g z }
{}

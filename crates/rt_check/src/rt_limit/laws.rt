//! Laws of the definitions.

ghost use Rattle.std.specs.Prelude.{◌≡◌, ◌≤◌, ◌∷◌, ◌++◌, [], ℕ, List};
ghost use Rattle.block_store.specs.declared.Config.{Config};
ghost use Rattle.block_store.specs.declared.Width.{Width};
ghost use Rattle.never_heap.specs.declared.Command.{Command};
ghost use Rattle.never_heap.specs.Graphs.{Graph, start_graph};
ghost use Rattle.never_heap.specs.Histories.{HistoryItem};
ghost use Rattle.never_heap.specs.Licensed.{NoFulls};
ghost use Rattle.never_heap.specs.LiveBlocks.{live_blocks};
ghost use Rattle.never_heap.specs.Runs.{IsRun};
ghost use Rattle.trace_text.specs.Jobs.{Job, IsJobInBounds};
ghost use Rattle.rt_check.specs.declared.moves.Move.{Move};
ghost use Rattle.rt_check.specs.rt_limit.Answers.{AreNeeds};
ghost use Rattle.rt_check.specs.rt_limit.Blocks.{with_limits};
ghost use Rattle.rt_check.specs.rt_limit.Moments.{graph_behind, most_live, moves_of, IsMoment};

/// The greatest number of live blocks is that of some moment, and at none more are live.
pub fn most_live_is_the_greatest()
    ensures reached { (w : Width) (g : Graph) (ms : List Move)
        → IsMoment w g ms (most_live w g ms) }
    ensures never_more { (w : Width) (g : Graph) (before behind : List Move)
        → live_blocks w (graph_behind g before) ≤ most_live w g (before ++ behind) }
{}

/// Where at no moment of the trace of a job of one thread more blocks are live than may be, no run
/// of the job has a reply `full`, at whatever rate. So none has, where the live limit is at least
/// what `limit` tells to be enough, with whatever number of blocks.
pub fn enough_is_never_full()
    ensures most { (c : Config) (rate : ℕ) (trace : List Command) (h : List HistoryItem)
        → most_live c.width (start_graph c) (moves_of 0 trace) ≤ c.live
        → IsRun c rate (trace ∷ []) h → NoFulls h }
    ensures told { (lines : List (List ℕ)) (job : Job) (text : List ℕ)
        (needs : AreNeeds lines job text) (blocks live rate : ℕ) (h : List HistoryItem)
        → IsJobInBounds job → job.config.threads ≡ 1 → needs.figures.enough ≤ live
        → IsRun (with_limits job.config blocks live) rate job.traces h → NoFulls h }
{}

//! Counts of what is live along an order of commands.

ghost use Rattle.std.specs.Prelude.{◌≡◌, ◌+◌, ◌^◌, ◌<◌, ◌≤◌, ◌++◌, ◌∷◌, [], ℕ, max, List, length, IfOk, OnOk};
ghost use Rattle.std.specs.List.{All};
ghost use Rattle.block_store.specs.Configs.{IsInBounds};
ghost use Rattle.block_store.specs.declared.Width.{Width};
ghost use Rattle.never_heap.specs.Graphs as graphs;
ghost use Rattle.never_heap.specs.Graphs.{start_graph};
ghost use Rattle.never_heap.specs.Steps.{blocks_of};
ghost use Rattle.rt_check.specs.declared.moves.Move.{Move};
ghost use Rattle.rt_check.specs.Moves.{commands_of};
ghost use Rattle.rt_check.specs.rt_limit.Counting.{Knows, HasRoom, IsMoveInRange};
ghost use Rattle.rt_check.specs.rt_limit.Figures.{AreFigures};
ghost use Rattle.rt_check.specs.rt_limit.Moments.{graph_behind};

use crate::Move;
use block_store::{Config, OutOfMemory};
use never_heap::{Graph, Scan};
use std::alloc::Global;

/// What a job needs, by an order of its commands.
#[derive(Clone, Copy, Debug, PartialEq, Eq)]
pub struct Figures {
    /// The blocks of all objects that are made.
    pub allocated: u64,
    /// The greatest number of live blocks that was counted.
    pub reached: u64,
    /// A live limit that is enough.
    pub enough: u64,
}

/// What is known after the commands so far.
#[derive(Clone, Copy, Debug, PartialEq, Eq)]
pub(crate) struct Counter {
    figures: Figures,
    /// No fewer blocks than are live: those last counted, and those made since.
    bound: u64,
}

impl Counter {
    // Before the first command.
    fn start(graph: &Graph, scan: &mut Scan) -> Result<Counter, OutOfMemory>
        ensures { IfOk result (Knows graph.now.width graph.now.graph []) }
    {
        let live = graph.count_live_by(scan)?;
        Ok(Counter {
            figures: Figures {
                allocated: 0,
                reached: live,
                enough: live,
            },
            bound: live,
        })
    }

    // After one more command, which made so many blocks. They are counted anew only where they may
    // be more than the greatest count by more than its 64th part.
    fn went(&mut self, graph: &Graph, scan: &mut Scan, made: u32) -> Result<(), OutOfMemory>
        requires { HasRoom self.old made }
        ensures { (g : graphs.Graph) (past : List Move) (m : Move)
            → Knows graph.now.width g past self.old
            → graph.now.graph ≡ graph_behind g (past ++ m ∷ [])
            → made ≡ blocks_of graph.now.width m.command
            → OnOk result (Knows graph.now.width g (past ++ m ∷ []) self.new) }
    {
        self.figures.allocated += u64::from(made);
        let bound = self.bound + u64::from(made);
        let reached = self.figures.reached;
        if bound <= reached + reached / 64 {
            self.bind(bound);
            return Ok(());
        }
        let live = graph.count_live_by(scan)?;
        self.figures.reached = reached.max(live);
        self.bind(live);
        Ok(())
    }

    // No more blocks than these are live.
    fn bind(&mut self, bound: u64)
        ensures { self.new ≡ record self.old {
          figures = record self.old.figures { enough = max self.old.figures.enough bound };
          bound = bound;
        } }
    {
        self.bound = bound;
        self.figures.enough = self.figures.enough.max(bound);
    }
}

/// Goes through an order of commands on a heap that never frees.
pub(crate) fn figures_of(
    alloc: Global,
    config: &Config,
    moves: &[Move],
) -> Result<Figures, OutOfMemory>
    requires config { IsInBounds config.now }
    requires moves { All (IsMoveInRange config.now) moves.now }
    requires few { (t : ℕ) → length (commands_of t moves.now) ≤ 131072 }
    requires short { length moves.now ≤ 2 ^ 26 }
    ensures { IfOk result (AreFigures config.now.width (start_graph config.now) moves.now) }
{
    let mut graph = Graph::start(alloc, config)?;
    let mut scan = Scan::new(alloc);
    let mut counter = Counter::start(&graph, &mut scan)?;
    for next in moves {
        graph.apply(next.thread, &next.command)?;
        counter.went(&graph, &mut scan, next.command.blocks(config.width))?;
    }
    Ok(counter.figures)
}

//! A heap that does one command at a time, described by the graph of its objects.

ghost use Rattle.std.specs.Prelude.{◌≡◌, ◌≤◌, ◌<◌, ◌+◌, ◌*◌, List, IfOk, IfErr, OnOk, OnErr};
ghost use Rattle.block_store.specs.declared.Config.{Config};
ghost use Rattle.never_heap.specs.declared.Command.{Command};
ghost use Rattle.never_heap.specs.declared.Reply.{Reply};
ghost use Rattle.never_heap.specs.Graphs.{Graph, start_graph};
ghost use Rattle.never_heap.specs.Histories.{replay};
ghost use Rattle.never_heap.specs.Licensed.{NoFulls};
ghost use Rattle.heap_system.specs.Machines.{Run};
ghost use Rattle.control_heap.specs.declared.control.Refused.{Refused};
ghost use Rattle.control_heap.specs.Controls.{Control, Stands, CanOpen, HasAnswered, asked, units};
ghost use Rattle.control_heap.specs.Refusals.{IsOpenFault, IsRefused};
ghost use Rattle.control_heap.specs.graph_view.RunsOfCommands.{HasDone, HasDoneAll, HasReplied, RefusesOne, HasRoomFor, HasUsed};
ghost use Rattle.control_heap.specs.WayBack.{AllDone};
ghost use Rattle.control_heap.specs.graph_view.ShownGraph.{Shows, HasMetNoFull, Leaves, Goes, IsSmall, StaySmall, Follows, AllFollow, AllAreSmall, AllStaySmall, graph_at_last};

use crate::{ControlHeap, OpenFault, Refused, histories_are_right};
use block_store::Config;
use never_heap::{Command, Reply};
use std::alloc::Global;

/// Opens a heap of a configuration. Where the opening graph is within the live limit, the heap
/// shows it and has met no `Full`. Nothing of the heap's life is used.
///
/// # Errors
///
/// As for `ControlHeap::open`.
pub fn open(alloc: Global, c: Config) -> Result<ControlHeap, OpenFault>
    ensures config { IfOk result (λ h. h.config ≡ c) }
    ensures fresh { IfOk result (λ h. (asked h ≡ 0) × (units h ≡ 0) × (h.objects ≡ 0)) }
    ensures shown { IsSmall c (start_graph c)
        → IfOk result (λ h. HasMetNoFull h (start_graph c)) }
    ensures refused { IfErr result (IsOpenFault c) }
{
    ControlHeap::open(alloc, c)
}

/// Does a command. Where the heap showed a graph and the command's result is within the live limit,
/// the reply is the one that the graph gives, and the heap then shows that result (`shown`); where
/// it had met no `Full`, it still has not (`never`). In any case the reply is the one that the
/// graph gives, or the command is an allocation, is answered `Full`, and leaves the graph unchanged
/// (`goes`).
///
/// # Errors
///
/// As for `ControlHeap::ask`.
pub fn ask(heap: &mut ControlHeap, command: Command) -> Result<Reply, Refused>
    ensures config { heap.new.config ≡ heap.old.config }
    ensures shown { IfOk result (λ reply. Follows Shows heap.old command reply heap.new) }
    ensures never { IfOk result (λ reply. Follows HasMetNoFull heap.old command reply heap.new) }
    ensures goes { IfOk result (λ reply. Goes heap.old command reply heap.new) }
    ensures answered { IfOk result (λ reply. HasAnswered heap.old command reply heap.new) }
    ensures done { OnOk result (HasDone heap.old command heap.new) }
    ensures refused { IfErr result (IsRefused heap.old command) }
    ensures unchanged { OnErr result (heap.new ≡ heap.old) }
{
    histories_are_right();
    heap.ask(command)
}

/// Does commands one after the other and returns the reply of the last, or `Stored` where there is
/// no command. It stops at the first command that is refused; the heap has then done those before
/// it, and no more.
///
/// # Errors
///
/// As for `ControlHeap::ask`, of that command. There is none where each command is in bounds and
/// the life has room for all of them (`lives_add_up`).
pub fn ask_all(heap: &mut ControlHeap, commands: &[Command]) -> Result<Reply, Refused>
    ensures config { heap.new.config ≡ heap.old.config }
    ensures shown { IfOk result (λ reply. AllFollow Shows heap.old commands.now reply heap.new) }
    ensures never { IfOk result
        (λ reply. AllFollow HasMetNoFull heap.old commands.now reply heap.new) }
    ensures replied { IfOk result (λ reply. HasReplied heap.old commands.now reply heap.new) }
    ensures done { OnOk result (HasDoneAll heap.old commands.now heap.new) }
    ensures refused { IfErr result (λ r. RefusesOne heap.old commands.now r heap.new) }
{
    let mut reply = Reply::Stored;
    for command in commands {
        reply = ask(heap, *command)?;
    }
    Ok(reply)
}

/// Commands use of a life the sum of what each uses: its units, its object, and one command
/// (`used`). Where so much is left and each command is in bounds, none is refused (`fits`).
pub fn lives_add_up()
    ensures used { (h z : Control) (ks : List Command) (r : Run)
        → Stands h r → HasDoneAll h ks z → HasUsed h ks z }
    ensures fits { (h z : Control) (ks : List Command) (r : Run) (x : Refused)
        → Stands h r → HasRoomFor h ks → RefusesOne h ks x z → ⊥ }
{
    histories_are_right();
}

/// No command of a heap whose history stayed within the live limit was answered `Full`.
pub fn shown_heaps_met_no_full()
    ensures { (h : Control) (g : Graph) (s : HasMetNoFull h g) → NoFulls s.shows.run.order }
{
    histories_are_right();
}

/// A heap that represents a run shows the graph that this run leaves and has met no `Full`, if at
/// no moment of the run more blocks were live than the limit.
pub fn small_histories_are_shown()
    ensures { (h : Control) (g : Graph) (r : Run) → Stands h r → replay h.config r.order ≡ g
        → StaySmall h.config (start_graph h.config) r.order
        → (s : HasMetNoFull h g) × (s.shows.run ≡ r) }
{}

/// A heap that was full recovers. From a graph within the live limit on, whatever came before, it
/// does commands that each leave such a graph, whether they are answered `Full` or not. Once they
/// have made more than 4m units on m blocks, the heap shows the graph that they left.
pub fn graphs_come_back()
    ensures { (h z : Control) (g : Graph) (ks : List Command) (a : List Reply)
        → Leaves h g → IsSmall h.config g → AllDone h ks a z → AllStaySmall h.config g ks a
        → units h + 4 * h.config.blocks < units z → Shows z (graph_at_last g ks a) }
{}

//! Laws about the runs that a heap represents. Each is the contract of a function that does
//! nothing.

ghost use Rattle.std.specs.Prelude.{◌≡◌, ◌≤◌, ℕ, List};
ghost use Rattle.rate_plan.specs.Rates.{IsAdmitted, IsRate};
ghost use Rattle.never_heap.specs.declared.Command.{Command};
ghost use Rattle.never_heap.specs.declared.Reply.{Reply};
ghost use Rattle.never_heap.specs.Histories.{Legal, work_in};
ghost use Rattle.never_heap.specs.Licensed.{Licensed, StartsSmall, NoFulls};
ghost use Rattle.never_heap.specs.RightWork.{RightWork};
ghost use Rattle.heap_system.specs.Machines.{Run};
ghost use Rattle.block_store.specs.declared.Config.{Config};
ghost use Rattle.block_store.specs.Configs.{IsInBounds};
ghost use Rattle.heap_system.specs.Alone.{command_bound, command_near};
ghost use Rattle.control_heap.specs.Controls.{Control, Stands, AllAnswered, HasHistory, units};
ghost use Rattle.control_heap.specs.Gauges.{most_operations};
ghost use Rattle.control_heap.specs.WayBack.{AllDone, HasWayBack};

/// Of each run that a heap represents: its order is a legal history of the heap that never frees
/// (`legal`). Each entry has the work that its command owes (`right`), and the works add up to the
/// units that the heap has counted (`units`). Each `Full` is licensed (`licensed`): so where every
/// cycle began with at most as many live blocks as the limit, no command was answered `Full`
/// (`never`).
pub fn histories_are_right()
    ensures legal { (h : Control) (r : Run) → Stands h r → Legal h.config r.order }
    ensures right { (h : Control) (r : Run) → Stands h r → (rate : ℕ) → IsRate h.config rate
        → RightWork h.config.width rate r.order }
    ensures units { (h : Control) (r : Run) → Stands h r → work_in r.order ≡ units h }
    ensures licensed { (h : Control) (r : Run) → Stands h r → Licensed h.config r.order }
    ensures never { (h : Control) (r : Run) → Stands h r → StartsSmall h.config r.order
        → NoFulls r.order }
{}

/// Requests that a heap answers one after the other have one history. For each run for which the
/// heap stood at first, the history of that run continues with their commands and replies, in
/// order.
pub fn requests_have_one_history()
    ensures { (h z : Control) (ks : List Command) (a : List Reply) (r : Run)
        → Stands h r → AllAnswered h ks a z → HasHistory z ks a r }
{}

/// A heap that was full recovers. From any moment on, the commands on a heap of m blocks make at
/// most 2m units for each cycle that begins meanwhile, and 2m more (`pace`). So after more than 4m
/// units two cycles have begun. Where each cycle that began since that moment began with no more
/// live blocks than the limit, no later allocation is answered `Full` (`back`, `two_cycles`).
pub fn full_heaps_come_back()
    ensures { (h y z : Control) (ks : List Command) (a : List Reply) (js : List Command)
        (b : List Reply) (r : Run)
        → Stands h r → AllDone h ks a y → AllDone y js b z → HasWayBack h y z ks a js b r }
{}

/// No command takes more operations than `most_operations` returns: a number within the near bound
/// of `HasMade` is at most that, and what it returns is within the stated bound of a lone thread.
pub fn commands_take_what_is_told()
    ensures most { (c : Config) (rate : ℕ) (k : Command) (n : ℕ) → n ≤ command_near c rate k
        → n ≤ most_operations c rate k }
    ensures stated { (c : Config) (rate : ℕ) (k : Command) → IsInBounds c → IsAdmitted c
        → most_operations c rate k ≤ command_bound c rate k }
{}

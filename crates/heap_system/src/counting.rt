//! What an event makes of the numbers that a thread keeps: its account, the units made for the
//! command in hand, the objects made, and the commands that are decided.

ghost use Rattle.std.specs.Prelude.{◌≡◌, ◌≤◌, ◌<◌, ◌+◌, ◌^◌, ◌*◌, true, None, Some, length};
ghost use Rattle.block_store.specs.Phases.{bit};
ghost use Rattle.heap_system.specs.Lives.{objects_of};
ghost use Rattle.heap_system.specs.Locals.{works, told_behind, balance_on, balance_over, spent_got, made_got};

use never_heap::{Command, Entry, Reply};
use work_account::Account;

/// An event by which a unit is made, or not, for the command that comes after those in the log: the
/// unit is paid, unless that command is told to make some.
#[inline(always)]
pub fn count(account: &mut Account, spent: &mut u64, trace: &[Command], log: &[Entry], unit: bool)
    requires there { length log.now < length trace.now }
    requires owed { unit ≡ true → told_behind trace.now log.now ≡ 0
        → account.old.balance.paid < account.old.rate * account.old.object }
    requires few { account.old.balance.units < 2 ^ 50 }
    requires spent { spent.old < 2 ^ 50 }
    ensures account { account.new ≡ record account.old {
      balance = balance_on unit (told_behind trace.now log.now) account.old.balance;
    } }
    ensures spent { spent.new ≡ spent_got None unit spent.old }
{
    if unit {
        if trace[log.len()].requested_units() == 0 {
            account.unit();
        } else {
            account.idle();
        }
        *spent += 1;
    }
}

/// The reply to a command of so many blocks, whose price was paid.
pub fn settle(account: &mut Account, reply: Reply, blocks: u32)
    requires { account.old.balance.paid ≡ account.old.rate * blocks }
    ensures { account.new
        ≡ record account.old { balance = balance_over reply blocks account.old.balance } }
{
    match reply {
        Reply::New(_) => account.publish(blocks),
        _ => account.refuse(blocks),
    }
}

/// How many objects are made after this reply to this command.
pub fn made_after(made: u64, command: Command, reply: Reply) -> u64
    requires { made < 2 ^ 43 }
    ensures { result ≡ made_got command (Some reply) made }
{
    match reply {
        Reply::New(_) => made + objects(command),
        _ => made,
    }
}

// How many objects the command makes.
fn objects(command: Command) -> u64
    ensures is { result ≡ objects_of command }
    ensures few { result ≤ 1 }
{
    match command {
        Command::New { .. } | Command::Arr { .. } => 1,
        _ => 0,
    }
}

/// One more than the commands in the log, where the one in hand is decided.
pub fn if_decided(logged: usize, decided: bool) -> usize
    requires { logged ≤ 2 ^ 60 }
    ensures { result ≡ logged + bit decided }
{
    if decided { logged + 1 } else { logged }
}

/// The sum of the works of the entries.
pub fn sum_of_works(entries: &[Entry]) -> u64
    requires { works entries.now ≤ 2 ^ 60 }
    ensures { result ≡ works entries.now }
{
    let mut sum = 0;
    for entry in entries {
        sum += entry.work;
    }
    sum
}

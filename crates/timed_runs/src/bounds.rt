//! The most turns of a command that alone has them.

ghost use Rattle.std.specs.Prelude.{◌≡◌, ◌<◌, ◌≤◌, IfSome, None};
ghost use Rattle.block_store.specs.Configs.{IsInBounds};
ghost use Rattle.heap_system.specs.Alone.{command_near};
ghost use Rattle.never_heap.specs.Steps.{length_made};
ghost use Rattle.rt_check.specs.rt_limit.Prices.{IsInWord};
ghost use Rattle.timed_runs.specs.Turns.{IsBoundAlone, other_near};

use crate::kinds::length_of;
use block_store::Config;
use heap_system::{a_lone_command_ends_near_its_bound, most_events};
use never_heap::Command;
use rt_check::{near_other_turns, near_turns};

/// At most so many turns a command takes, at this rate, of a thread that alone has turns: its near
/// bound. None where the number is too large for 64 bits, and of an object that no job has.
pub fn turns_alone(config: &Config, rate: u64, command: &Command) -> Option<u64>
    requires { IsInBounds config.now }
    ensures bound { IfSome result (IsBoundAlone config.now rate command.now) }
    ensures told { length_made command.now ≤ 65535
        → IsInWord result (command_near config.now rate command.now) }
    ensures none { 65535 < length_made command.now → result ≡ None }
{
    a_lone_command_ends_near_its_bound();
    if length_of(command) > 65_535 {
        return None;
    }
    let blocks = command.blocks(config.width);
    if blocks > 0 {
        near_turns(config, rate.checked_mul(u64::from(blocks))?, blocks)
    } else {
        other_turns(config, command)
    }
}

/// The near bound of a command that makes no object.
fn other_turns(config: &Config, command: &Command) -> Option<u64>
    requires { IsInBounds config.now }
    ensures { IsInWord result (other_near config.now command.now) }
{
    near_other_turns(
        config,
        command.requested_units(),
        most_events(config, command),
    )
}

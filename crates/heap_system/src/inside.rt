//! The most events inside of a command that makes no object, as a number.

ghost use Rattle.std.specs.Prelude.{◌+◌, ◌≡◌, ◌≤◌};
ghost use Rattle.block_store.specs.Configs.{IsInBounds};
ghost use Rattle.heap_system.specs.Alone.{longest_array, most_events, most_links};

use array_trees::depth_of;
use block_store::Config;
use never_heap::Command;

/// The most events of a command that makes no object, between those by which it goes in and out; of
/// another command the number tells nothing. The configuration is in bounds.
pub fn most_events(config: &Config, command: &Command) -> u32
    requires { IsInBounds config.now }
    ensures value { result ≡ most_events config.now command.now }
    ensures few { result ≤ config.now.object + 19 }
{
    match *command {
        Command::Set { .. } | Command::Nil { .. } | Command::Idle { .. } => 1,
        Command::New { .. } | Command::Arr { .. } => 1,
        Command::Len { .. } | Command::Same { .. } | Command::Say { .. } => 2,
        Command::Mov { .. } => 5,
        Command::Put { i, .. } => most_links(config, i) + 7,
        Command::Get { i, .. } | Command::Cas { i, .. } => most_links(config, i) + 8,
        Command::Swap { i, .. } => most_links(config, i) + 12,
    }
}

// The most links from an object's first block to field `i`.
fn most_links(config: &Config, i: u64) -> u32
    requires { IsInBounds config.now }
    ensures value { result ≡ most_links config.now i }
    ensures few { result ≤ config.now.object + 7 }
{
    let room = u64::from(config.width.payloads() - 1);
    let block = (i / room).min(u64::from(config.object - 1)) as u32;
    block.max(depth_of(config.width, longest_array(config)))
}

// No array has more elements.
fn longest_array(config: &Config) -> u32
    requires { IsInBounds config.now }
    ensures value { result ≡ longest_array config.now }
    ensures few { result ≤ 65535 }
{
    config.shared.max(config.width.payloads() * config.object)
}

//! The kinds of commands that are told apart.

ghost use Rattle.std.specs.Prelude.{◌≡◌, ◌<◌, ◌≤◌};
ghost use Rattle.std.specs.List.{count_by};
ghost use Rattle.block_store.specs.declared.Width.{Width};
ghost use Rattle.never_heap.specs.declared.Command.{Command};
ghost use Rattle.never_heap.specs.Steps.{length_made, blocks_of as blocks};
ghost use Rattle.timed_runs.specs.Kinds.{is_counted_in, is_of_kind};

use block_store::Width;
use never_heap::Command;
use std::fmt;

/// What a command is counted among.
#[derive(Clone, Copy, Debug, PartialEq, Eq)]
pub enum Kind {
    /// An allocation of more than half of so many blocks, and at most so many.
    Allocation { blocks: u32 },
    /// A `get` or a `put`.
    Access,
    /// An `idle`.
    Idle,
    /// Any other command.
    Other,
}

/// All kinds, in the order in which they are told.
pub const KINDS: [Kind; 14] = [
    Kind::Allocation { blocks: 1 },
    Kind::Allocation { blocks: 2 },
    Kind::Allocation { blocks: 4 },
    Kind::Allocation { blocks: 8 },
    Kind::Allocation { blocks: 16 },
    Kind::Allocation { blocks: 32 },
    Kind::Allocation { blocks: 64 },
    Kind::Allocation { blocks: 128 },
    Kind::Allocation { blocks: 256 },
    Kind::Allocation { blocks: 512 },
    Kind::Allocation { blocks: 1024 },
    Kind::Access,
    Kind::Idle,
    Kind::Other,
];

impl Kind {
    /// Whether the command, on blocks of this width, is of this kind.
    pub fn has(self, width: Width, command: &Command) -> bool
        ensures of_kind { length_made command.now ≤ 65535
            → result ≡ is_of_kind width command.now self }
        ensures counted { result ≡ is_counted_in width command.now self }
    {
        match self {
            Kind::Allocation { blocks } => {
                let asked = blocks_of(width, command);
                blocks / 2 < asked && asked <= blocks
            }
            Kind::Access => matches!(command, Command::Get { .. } | Command::Put { .. }),
            Kind::Idle => matches!(command, Command::Idle { .. }),
            Kind::Other => is_other(width, command),
        }
    }
}

impl Kind {
    /// What the kind is called.
    pub fn name(self) -> &'static str {
        match self {
            Kind::Allocation { blocks: 1 } => "1 block",
            Kind::Allocation { blocks: 2 } => "2 blocks",
            Kind::Allocation { blocks: 4 } => "3 to 4 blocks",
            Kind::Allocation { blocks: 8 } => "5 to 8 blocks",
            Kind::Allocation { blocks: 16 } => "9 to 16 blocks",
            Kind::Allocation { blocks: 32 } => "17 to 32 blocks",
            Kind::Allocation { blocks: 64 } => "33 to 64 blocks",
            Kind::Allocation { blocks: 128 } => "65 to 128 blocks",
            Kind::Allocation { blocks: 256 } => "129 to 256 blocks",
            Kind::Allocation { blocks: 512 } => "257 to 512 blocks",
            Kind::Allocation { .. } => "513 to 1024 blocks",
            Kind::Access => "get and put",
            Kind::Idle => "idle",
            Kind::Other => "others",
        }
    }
}

/// Each command of a job is of just one of the kinds, since it allocates at most 1,024 blocks.
pub fn a_command_is_of_one_kind()
    ensures { (w : Width) (k : Command) → blocks w k ≤ 1024 → count_by (is_of_kind w k) KINDS ≡ 1 }
{}

fn is_other(width: Width, command: &Command) -> bool
    ensures of_kind { length_made command.now ≤ 65535
        → result ≡ is_of_kind width command.now Kind.Other }
    ensures counted { result ≡ is_counted_in width command.now Kind.Other }
{
    match command {
        Command::Get { .. } | Command::Put { .. } | Command::Idle { .. } => false,
        _ => blocks_of(width, command) == 0,
    }
}

/// How many blocks the command allocates; 0 for one that makes no object, and for one that no job
/// has, since its object is too long.
pub fn blocks_of(width: Width, command: &Command) -> u32
    ensures in_job { length_made command.now ≤ 65535 → result ≡ blocks width command.now }
    ensures none { 65535 < length_made command.now → result ≡ 0 }
{
    if length_of(command) <= 65_535 {
        command.blocks(width)
    } else {
        0
    }
}

/// How many fields or elements the command makes.
pub fn length_of(command: &Command) -> u32
    ensures { result ≡ length_made command.now }
{
    match *command {
        Command::New { fields, .. } => fields,
        Command::Arr { elements, .. } => elements,
        _ => 0,
    }
}

impl fmt::Display for Kind {
    fn fmt<W: fmt::Write>(&self, f: &mut fmt::Formatter<W>) -> fmt::Result {
        f.write_str(self.name())
    }
}

//! Commands on one graph and on two threads, with their replies; and what of a graph is live.

ghost use Rattle.block_store.specs.Configs.{IsInBounds};

use crate::stored::last_stored;
use block_store::{Config, Name, OutOfMemory, Value, Width};
use never_heap::{Command, Graph, MOST_UNITS, NUMBERS, Reply};
use std::alloc::Global;
use std::marker::Model;
use std::process::Abort;

const CONFIG: Config = Config {
    width: Width::Four,
    threads: 1,
    blocks: 64,
    live: 20,
    object: 2,
    shared: 0,
};

const WIDE: Config = Config {
    width: Width::Eight,
    ..CONFIG
};

const RECORD: Name = Name {
    thread: 0,
    serial: 1,
};

const OTHER: Name = Name {
    thread: 0,
    serial: 2,
};

const ARRAY: Name = Name {
    thread: 1,
    serial: 0,
};

// Commands with their replies, on one graph.
const ANSWERED: [(Command, Reply); 16] = [
    (Command::New { d: 1, fields: 2 }, Reply::New(RECORD)),
    (Command::Set { d: 2, value: 5 }, Reply::Stored),
    (Command::Put { s: 1, i: 1, v: 2 }, Reply::Stored),
    (Command::Get { d: 3, s: 1, i: 1 }, Reply::Val(Value::Int(5))),
    (Command::Get { d: 3, s: 1, i: 2 }, Reply::Range),
    (Command::Say { s: 3 }, Reply::Val(Value::Int(5))),
    (Command::Get { d: 3, s: 4, i: 0 }, Reply::Null),
    (Command::Get { d: 3, s: 2, i: 0 }, Reply::Kind),
    (Command::Len { s: 1 }, Reply::Len(2)),
    (Command::Len { s: 4 }, Reply::Null),
    (Command::Same { a: 1, b: 1 }, Reply::Yes),
    (Command::Same { a: 1, b: 2 }, Reply::No),
    (Command::Put { s: 4, i: 0, v: 2 }, Reply::Null),
    (Command::Say { s: 1 }, Reply::Val(Value::Ref(RECORD))),
    (Command::Say { s: 0 }, Reply::Val(Value::Ref(ARRAY))),
    (Command::Len { s: 0 }, Reply::Len(0)),
];

const NIL: Reply = Reply::Val(Value::Nil);

const TO_RECORD: Reply = Reply::Val(Value::Ref(RECORD));

// Exchanges, on one graph: where there is no such field they change nothing; register 1 is the
// object that is stored in, and field 0 of it comes to hold that object itself.
const EXCHANGED: [(Command, Reply); 19] = [
    (Command::New { d: 1, fields: 2 }, Reply::New(RECORD)),
    (Command::Set { d: 2, value: 5 }, Reply::Stored),
    (Command::Swap { s: 3, i: 9, v: 2 }, Reply::Null),
    (Command::Swap { s: 2, i: 9, v: 1 }, Reply::Kind),
    (Command::Swap { s: 1, i: 2, v: 2 }, Reply::Range),
    (Command::Say { s: 2 }, Reply::Val(Value::Int(5))),
    (Command::Swap { s: 1, i: 1, v: 2 }, NIL),
    (Command::Say { s: 2 }, NIL),
    (
        Command::Swap { s: 1, i: 1, v: 2 },
        Reply::Val(Value::Int(5)),
    ),
    (Command::Mov { d: 4, s: 1 }, Reply::Stored),
    (Command::Swap { s: 1, i: 0, v: 1 }, NIL),
    (Command::Say { s: 1 }, NIL),
    (Command::Get { d: 1, s: 4, i: 0 }, TO_RECORD),
    (Command::Swap { s: 1, i: 0, v: 1 }, TO_RECORD),
    (Command::Same { a: 1, b: 4 }, Reply::Yes),
    (Command::Swap { s: 1, i: 0, v: 2 }, TO_RECORD),
    (Command::Say { s: 2 }, TO_RECORD),
    (Command::Get { d: 5, s: 1, i: 0 }, Reply::Val(Value::Int(5))),
    (Command::Get { d: 5, s: 1, i: 1 }, NIL),
];

fn cas(s: u8, i: u64, a: u8, v: u8) -> Command {
    Command::Cas { s, i, a, v }
}

/// Compares, on one graph: of nil and nil, of numbers, of an object with itself and with another
/// that is its like, and with what is to be stored in place of what is expected.
fn compared() -> [(Command, Reply); 25] {
    [
        (Command::New { d: 1, fields: 1 }, Reply::New(RECORD)),
        (Command::Set { d: 2, value: 0 }, Reply::Stored),
        (cas(3, 9, 3, 2), Reply::Null),
        (cas(2, 9, 3, 2), Reply::Kind),
        (cas(1, 1, 3, 2), Reply::Range),
        (cas(1, 0, 2, 3), Reply::No),
        (cas(1, 0, 3, 2), Reply::Yes),
        (Command::Say { s: 3 }, NIL),
        (Command::Say { s: 2 }, Reply::Val(Value::Int(0))),
        (Command::Set { d: 4, value: 1 }, Reply::Stored),
        (cas(1, 0, 4, 2), Reply::No),
        (cas(1, 0, 3, 4), Reply::No),
        (Command::Get { d: 5, s: 1, i: 0 }, Reply::Val(Value::Int(0))),
        (Command::Set { d: 5, value: 0 }, Reply::Stored),
        (cas(1, 0, 5, 4), Reply::Yes),
        (Command::Get { d: 6, s: 1, i: 0 }, Reply::Val(Value::Int(1))),
        (cas(1, 0, 4, 1), Reply::Yes),
        (Command::New { d: 7, fields: 1 }, Reply::New(OTHER)),
        (Command::Put { s: 7, i: 0, v: 1 }, Reply::Stored),
        (cas(1, 0, 7, 2), Reply::No),
        (Command::Get { d: 8, s: 1, i: 0 }, TO_RECORD),
        (cas(1, 0, 1, 3), Reply::Yes),
        (Command::Get { d: 9, s: 1, i: 0 }, NIL),
        (Command::Idle { units: 7 }, Reply::Idle),
        (Command::Get { d: 9, s: 7, i: 0 }, TO_RECORD),
    ]
}

/// A graph whose commands are tried while the test runs: at most a thousand.
#[derive(Drop)]
struct Asked<'c> {
    graph: Graph,
    config: &'c Config,
    left: u32,
}

impl<'c> Model for Asked<'c> {
    ghost use Rattle.std.specs.Prelude.{ℕ, ◌≡◌, ◌≤◌, ◌+◌, length};
    ghost use Rattle.never_heap.specs.Graphs.{WideGraph, count_of};

    ghost Value = { WideGraph };

    ghost view = { λ a. a.graph };

    ghost invariant = { λ a. (length a.graph.graph.mutators ≡ a.config.now.threads)
        × ((t : ℕ) → count_of a.graph.graph t + a.left ≤ 1000) };
}

impl<'c> Asked<'c> {
    #[tactic(auto, using(never_heap::proofs::StartGraph::count_of_start, never_heap::proofs::StartGraph::threads_of_start))]
    fn start(alloc: Global, config: &'c Config) -> Result<Asked<'c>, OutOfMemory>
        requires { IsInBounds config.now }
    {
        let graph = Graph::start(alloc, config)?;
        Ok(Asked {
            graph,
            config,
            left: 1000,
        })
    }

    /// The reply to a command. `None` if it is out of bounds, or too many were asked.
    #[tactic(auto, using(never_heap::proofs::StepChanges::step_threads, never_heap::proofs::StepChanges::step_counts_one))]
    fn ask(&mut self, thread: u32, command: &Command) -> Result<Option<Reply>, OutOfMemory> {
        if self.left == 0 || thread >= self.config.threads || !command.in_bounds(self.config) {
            return Ok(None);
        }
        self.left -= 1;
        Ok(Some(self.graph.apply(thread, command)?))
    }

    /// What a register holds; nil, if there is none of this number.
    fn register(&self, thread: u32, register: u8) -> Value {
        if thread >= self.config.threads || register >= 16 {
            return Value::Nil;
        }
        self.graph.register(thread, register)
    }

    fn reach_blocks(&self) -> Result<u64, OutOfMemory> {
        self.graph.reach_blocks()
    }

    fn count_live(&self) -> Result<u64, OutOfMemory> {
        self.graph.count_live()
    }
}

/// A graph after commands of thread 0, of which each was answered with the reply beside it.
fn answered<'c>(
    rt: &impl Abort,
    alloc: Global,
    config: &'c Config,
    table: &[(Command, Reply)],
) -> Result<Asked<'c>, OutOfMemory>
    requires { IsInBounds config.now }
{
    let mut graph = Asked::start(alloc, config)?;
    for (command, reply) in table {
        assert_eq!(rt; graph.ask(0, command)?, Some(*reply), "{command:?}");
    }
    Ok(graph)
}

#[test]
fn commands_are_answered(rt: HostRuntime) -> Result<(), OutOfMemory> {
    let graph = answered(&rt, rt.alloc(), &CONFIG, &ANSWERED)?;
    assert_eq!(rt; graph.reach_blocks()?, 7);
    assert_eq!(rt; graph.count_live()?, 7);
    Ok(())
}

#[test]
fn fields_are_exchanged_and_compared(rt: HostRuntime) -> Result<(), OutOfMemory> {
    let exchanged = answered(&rt, rt.alloc(), &WIDE, &EXCHANGED)?;
    assert_eq!(rt; exchanged.count_live()?, 5);
    let compared = answered(&rt, rt.alloc(), &WIDE, &compared())?;
    assert_eq!(rt; compared.count_live()?, 6);
    Ok(())
}

#[test]
fn three_commands_are_of_version_2(rt: HostRuntime) {
    for (command, told) in [
        (
            Command::Swap {
                s: 15,
                i: NUMBERS - 1,
                v: 15,
            },
            0,
        ),
        (cas(15, NUMBERS - 1, 15, 15), 0),
        (Command::Idle { units: MOST_UNITS }, 131_070),
    ] {
        assert!(rt; command.in_bounds(&WIDE) && !command.in_bounds(&CONFIG));
        assert_eq!(rt; command.requested_units(), told);
        assert_eq!(rt; command.blocks(Width::Eight), 0);
    }
}

// A ring of two records with a long array beside it, a chain of two after register 3, and what
// registers no longer refer to.
const LINKED: [Command; 13] = [
    Command::New { d: 1, fields: 4 },
    Command::New { d: 2, fields: 1 },
    Command::Put { s: 1, i: 0, v: 2 },
    Command::Put { s: 2, i: 0, v: 1 },
    Command::Arr { d: 2, elements: 17 },
    Command::Put { s: 1, i: 3, v: 2 },
    Command::New { d: 3, fields: 1 },
    Command::New { d: 4, fields: 7 },
    Command::Put { s: 4, i: 6, v: 3 },
    Command::Mov { d: 3, s: 4 },
    Command::Nil { d: 4 },
    Command::New { d: 5, fields: 3 },
    Command::Nil { d: 5 },
];

#[test]
fn one_scan_counts_what_rounds_count(rt: HostRuntime) -> Result<(), OutOfMemory> {
    let config = Config {
        object: 8,
        ..CONFIG
    };
    let mut graph = Asked::start(rt.alloc(), &config)?;
    for command in LINKED {
        assert!(rt; graph.ask(0, &command)?.is_some());
        assert_eq!(rt; graph.count_live()?, graph.reach_blocks()?);
    }
    // 6 at the opening, 2 and 1 of the ring, 8 of the array, 3 and 1 of the chain.
    assert_eq!(rt; graph.count_live()?, 21);
    Ok(())
}

/// How many blocks a chain of records has on `CONFIG` after so many rounds, with those of the
/// registers and of the shared array, at the rounds at which they are counted.
fn counted_at(round: u32) -> Option<u64> {
    match round {
        0 => Some(6),
        10 => Some(16),
        21 => Some(27),
        34 => Some(40),
        49 => Some(55),
        58 => Some(64),
        _ => None,
    }
}

/// A round: one more record, which refers to the one before it.
const ROUND: [Command; 3] = [
    Command::New { d: 1, fields: 1 },
    Command::Put { s: 1, i: 0, v: 2 },
    Command::Mov { d: 2, s: 1 },
];

#[test]
fn a_chain_can_be_reached_to_its_end(rt: HostRuntime) -> Result<(), OutOfMemory> {
    let mut graph = Asked::start(rt.alloc(), &CONFIG)?;
    for round in 0..59 {
        if let Some(blocks) = counted_at(round) {
            assert_eq!(rt; graph.reach_blocks()?, blocks, "after {round} rounds");
        }
        for command in ROUND {
            assert!(rt; graph.ask(0, &command)?.is_some());
        }
    }
    Ok(())
}

/// Two threads on blocks of this width, of which thread 1 makes a record of 14 fields.
fn other_thread(
    rt: &impl Abort,
    alloc: Global,
    width: Width,
    blocks: u64,
) -> Result<(), OutOfMemory> {
    let config = Config {
        width,
        threads: 2,
        object: 8,
        ..CONFIG
    };
    let name = Name {
        thread: 1,
        serial: 1,
    };
    let mut graph = Asked::start(alloc, &config)?;
    for (thread, command, reply) in [
        (1, Command::New { d: 1, fields: 14 }, Reply::New(name)),
        (1, Command::Say { s: 1 }, Reply::Val(Value::Ref(name))),
        (0, Command::Say { s: 1 }, NIL),
    ] {
        assert_eq!(rt; graph.ask(thread, &command)?, Some(reply));
    }
    assert_eq!(rt; graph.reach_blocks()?, blocks);
    Ok(())
}

#[test]
fn each_thread_has_its_own_registers(rt: HostRuntime) -> Result<(), OutOfMemory> {
    other_thread(&rt, rt.alloc(), Width::Four, 16)?;
    other_thread(&rt, rt.alloc(), Width::Eight, 9)
}

#[test]
fn wider_blocks_hold_more(rt: HostRuntime) {
    for (command, blocks) in [
        (Command::New { d: 1, fields: 14 }, 2),
        (Command::New { d: 1, fields: 15 }, 3),
        (Command::Arr { d: 1, elements: 8 }, 1),
        (Command::Arr { d: 1, elements: 9 }, 3),
    ] {
        assert_eq!(rt; command.blocks(Width::Eight), blocks);
        assert_eq!(rt; command.in_bounds(&WIDE), blocks <= 2);
    }
}

/// Commands of two threads on the shared array and on a record to which it refers: puts, exchanges
/// and compares, of which some are refused or lost. One field is never stored in.
fn shared() -> [(u32, Command); 20] {
    [
        (0, Command::New { d: 1, fields: 3 }),
        (0, Command::Put { s: 0, i: 0, v: 1 }),
        (1, Command::Get { d: 1, s: 0, i: 0 }),
        (1, Command::Set { d: 2, value: 7 }),
        (1, Command::Put { s: 1, i: 1, v: 2 }),
        (0, Command::Get { d: 3, s: 1, i: 1 }),
        (0, Command::Set { d: 2, value: 8 }),
        (0, Command::Put { s: 1, i: 1, v: 2 }),
        (1, Command::Get { d: 3, s: 1, i: 1 }),
        (1, Command::Put { s: 1, i: 3, v: 1 }),
        (1, Command::Get { d: 3, s: 1, i: 0 }),
        (1, Command::Swap { s: 1, i: 1, v: 2 }),
        (1, Command::Swap { s: 1, i: 3, v: 2 }),
        (0, cas(1, 1, 3, 0)),
        (0, Command::Get { d: 4, s: 1, i: 1 }),
        (1, cas(1, 1, 2, 2)),
        (1, cas(1, 2, 3, 2)),
        (1, Command::Get { d: 4, s: 1, i: 2 }),
        (0, Command::Swap { s: 1, i: 2, v: 1 }),
        (1, Command::Get { d: 4, s: 1, i: 2 }),
    ]
}

/// What was stored, in which field of which object.
type Stored = (Value, u64, Value);

/// The object that a command is about, and the value of the register that it may store.
fn about(graph: &Asked<'_>, thread: u32, command: &Command) -> (Value, Value) {
    match *command {
        Command::Put { s, v, .. } | Command::Swap { s, v, .. } | Command::Cas { s, v, .. } => {
            (graph.register(thread, s), graph.register(thread, v))
        }
        Command::Get { s, .. } => (graph.register(thread, s), Value::Nil),
        _ => (Value::Nil, Value::Nil),
    }
}

/// Notes what a command stored, and compares what it loaded.
fn notes(
    rt: &impl Abort,
    stored: &mut Vec<Stored>,
    (object, value): (Value, Value),
    command: &Command,
    reply: Reply,
) -> Result<(), OutOfMemory> {
    match (*command, reply) {
        (Command::Put { i, .. }, Reply::Stored) | (Command::Cas { i, .. }, Reply::Yes) => {
            stored.push((object, i, value))?;
        }
        (Command::Swap { i, .. }, Reply::Val(old)) => {
            assert_eq!(rt; old, last_stored(stored, object, i));
            stored.push((object, i, value))?;
        }
        (Command::Get { i, .. }, Reply::Val(got)) => {
            assert_eq!(rt; got, last_stored(stored, object, i));
        }
        _ => (),
    }
    Ok(())
}

#[test]
fn gets_answer_what_was_last_stored(rt: HostRuntime) -> Result<(), OutOfMemory> {
    let config = Config {
        threads: 2,
        shared: 2,
        ..WIDE
    };
    let mut graph = Asked::start(rt.alloc(), &config)?;
    let mut stored = Vec::new(rt.alloc());
    for (thread, command) in shared() {
        let about = about(&graph, thread, &command);
        let Some(reply) = graph.ask(thread, &command)? else {
            assert!(rt; false, "{command:?} is out of bounds");
            return Ok(());
        };
        notes(&rt, &mut stored, about, &command, reply)?;
    }
    // Three puts, two exchanges, and two compares that were won.
    assert_eq!(rt; stored.len(), 7);
    Ok(())
}

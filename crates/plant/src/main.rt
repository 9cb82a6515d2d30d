//! Keeps the last 40 readings, one a line, as records on a heap, and prints them at the end.
#![tactic(auto)]

ghost use Rattle.std.specs.Prelude.{IfOk, OnOk};
ghost use Rattle.plant.specs.StoredReadings.{HasStored, HasRead};

use block_store::{Config, Value, Width};
use control_heap::{ControlHeap, Fault, OpenFault};
use std::io;
use std::process::ExitCode;

const KEPT: usize = 40;
// At most 50 blocks are live: 3 of registers, 6 of the shared array, 40 readings and the next one.
const HEAP: Config = Config {
    width: Width::Eight,
    threads: 1,
    blocks: 128,
    live: 50,
    object: 1,
    shared: KEPT as u32,
};

// The register that refers to the shared array when the heap opens.
const ARRAY: u8 = 0;
// The register of the record that is stored or read.
const RECORD: u8 = 1;
// The register of its number.
const NUMBER: u8 = 2;

#[derive(Debug, Drop, thiserror::Error)]
enum Failure {
    #[error("line {0} is not a whole number below 2^32")]
    BadLine(usize),
    #[error("the heap does not open: {0}")]
    NoHeap(#[from] OpenFault),
    #[error("{0}")]
    Heap(#[from] Fault),
    #[error("place {0} of the array holds no reading")]
    Lost(usize),
    #[error("{0}")]
    Io(#[from] io::Error),
}

fn main(rt: HostRuntime) -> ExitCode {
    let Err(failure) = run(&rt) else {
        return ExitCode::SUCCESS;
    };
    let _ = eprintln!(rt; "plant: {failure}");
    ExitCode::from(match failure {
        Failure::BadLine(_) => 3,
        Failure::NoHeap(OpenFault::NoMemory) => 7,
        Failure::NoHeap(_) | Failure::Heap(_) | Failure::Lost(_) => 4,
        Failure::Io(error) if error.kind() == io::ErrorKind::OutOfMemory => 7,
        Failure::Io(_) => 5,
    })
}

fn run(rt: &(impl Input + Print + AllocGlobal)) -> Result<(), Failure> {
    let mut heap = ControlHeap::open(rt.alloc(), HEAP)?;
    let mut count = 0;
    for (index, line) in rt.lines(rt.alloc()).enumerate() {
        count = index + 1;
        let reading = line?.parse().map_err(|_| Failure::BadLine(count))?;
        keep(&mut heap, index % KEPT, reading)?;
    }
    for index in count.saturating_sub(KEPT)..count {
        println!(rt; "{}", reading_at(&mut heap, index % KEPT)?)?;
    }
    Ok(())
}

fn keep(heap: &mut ControlHeap, place: usize, reading: u32) -> Result<(), Fault>
    ensures { OnOk result (HasStored heap.old place reading heap.new) }
{
    heap.record(RECORD, 1)?;
    heap.set(NUMBER, u64::from(reading))?;
    heap.put(RECORD, 0, NUMBER)?;
    heap.put(ARRAY, place as u64, RECORD)?;
    Ok(())
}

fn reading_at(heap: &mut ControlHeap, place: usize) -> Result<u64, Failure>
    ensures { IfOk result (λ reading. HasRead heap.old place reading heap.new) }
{
    heap.get(RECORD, ARRAY, place as u64)?;
    match heap.get(NUMBER, RECORD, 0)? {
        Value::Int(reading) => Ok(reading),
        Value::Nil | Value::Ref(_) => Err(Failure::Lost(place)),
    }
}

//! How many blocks are live, by one scan over what can be reached.

ghost use Rattle.std.specs.Prelude.{◌≡◌, ◌≤◌, ◌∷◌, [], true, ℕ, length, IfOk, OnOk};
ghost use Rattle.block_store.specs.declared.Name.{Name};
ghost use Rattle.block_store.specs.declared.Value.TheVariants.{Ref};
ghost use Rattle.never_heap.specs.LiveBlocks.{live_blocks};
ghost use Rattle.never_heap.specs.Reach.{names, stands_in, reachable};
ghost use Rattle.never_heap.specs.Scans.{IsScanOf, HasFound, HasRegisters};

use crate::Graph;
use crate::marks::Marks;
use block_store::{Name, OutOfMemory, Value};
use std::alloc::Global;

/// A scan over the objects that can be reached: those found so far, each once, and their blocks
/// with those of the registers. One value serves any number of counts, and takes memory only where
/// there are more objects than before.
#[derive(Drop)]
pub struct Scan {
    marks: Marks,
    found: Vec<Name>,
    total: u64,
}

impl Scan {
    /// A scan that has found nothing.
    pub fn new(alloc: Global) -> Scan {
        Scan {
            marks: Marks::new(alloc),
            found: Vec::new(alloc),
            total: 0,
        }
    }

    // Finds the object of a name, where it was not found before.
    fn find(&mut self, graph: &Graph, name: Name) -> Result<(), OutOfMemory>
        requires few { length (names graph.now.graph) ≤ 2097153 }
        requires scanned { IsScanOf graph.now self.old }
        requires reached { reachable graph.now.graph name ≡ true }
        ensures scanned { OnOk result (IsScanOf graph.now self.new) }
        ensures finds { OnOk result (HasFound graph.now.graph self.old self.new (Ref name ∷ [])) }
    {
        if !self.marks.mark(name) {
            return Ok(());
        }
        self.found.push(name)?;
        self.total += u64::from(graph.blocks_of(name));
        Ok(())
    }

    // Finds each object to which a list of values refers.
    fn find_all(&mut self, graph: &Graph, values: &[Value]) -> Result<(), OutOfMemory>
        requires few { length (names graph.now.graph) ≤ 2097153 }
        requires scanned { IsScanOf graph.now self.old }
        requires reached { (b : Name)
            → stands_in b values.now ≡ true → reachable graph.now.graph b ≡ true }
        ensures scanned { OnOk result (IsScanOf graph.now self.new) }
        ensures finds { OnOk result (HasFound graph.now.graph self.old self.new values.now) }
    {
        for value in values {
            if let Value::Ref(name) = *value {
                self.find(graph, name)?;
            }
        }
        Ok(())
    }
}

impl Graph {
    /// The same number as `reach_blocks`, by one scan: each object that can be reached is found
    /// once, and its fields are looked through once.
    pub fn count_live(&self) -> Result<u64, OutOfMemory>
        ensures { IfOk result (λ k. k ≡ live_blocks self.now.width self.now.graph) }
    {
        self.count_live_by(&mut Scan::new(self.alloc()))
    }

    /// The same number by a scan that was used before, or was not. Nothing of what it found before
    /// is looked at, so the time goes with what is live, and not with all objects that were made.
    pub fn count_live_by(&self, scan: &mut Scan) -> Result<u64, OutOfMemory>
        ensures { IfOk result (λ k. k ≡ live_blocks self.now.width self.now.graph) }
    {
        self.count_names();
        self.scan_registers(scan)?;
        let mut next = 0;
        while next < scan.found.len() {
            let name = scan.found[next];
            scan.find_all(self, self.cells(name))?;
            next += 1;
        }
        Ok(scan.total)
    }

    // The scan begins, and finds what is in registers.
    fn scan_registers(&self, scan: &mut Scan) -> Result<(), OutOfMemory>
        requires { length (names self.now.graph) ≤ 2097153 }
        ensures scanned { OnOk result (IsScanOf self.now scan.new) }
        ensures registers { OnOk result (HasRegisters self.now.graph scan.new.marks) }
    {
        self.clear_marks(&mut scan.marks)?;
        scan.found.clear();
        scan.total = self.register_blocks();
        for mutator in self.mutators() {
            scan.find_all(self, mutator.registers())?;
        }
        Ok(())
    }

    // How many objects there are.
    fn count_names(&self) -> u64
        ensures value { result ≡ length (names self.now.graph) }
        ensures few { result ≤ 2097153 }
    {
        let mut count = 1;
        for mutator in self.mutators() {
            count += mutator.count() as u64;
        }
        count
    }
}

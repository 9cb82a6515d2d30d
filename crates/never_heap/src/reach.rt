//! Which objects of a graph can be reached, and how many blocks they take.

ghost use Rattle.std.specs.Prelude.{◌≡◌, ◌<◌, ◌≤◌, ◌+◌, ◌*◌, ◌&&◌, ◌||◌, ◌++◌, true, false, IfOk, OnOk, length, vec_len};
ghost use Rattle.block_store.specs.declared.Name.{Name};
ghost use Rattle.block_store.specs.Registers.{registers_end};
ghost use Rattle.never_heap.specs.Graphs.{has_name, object_of};
ghost use Rattle.never_heap.specs.LiveBlocks.{live_blocks, object_blocks};
ghost use Rattle.never_heap.specs.Marks.{has_place, has_mark};
ghost use Rattle.never_heap.specs.Reach.{names, thread_names, in_round, leads_to, reachable, AreAllReachable};

use crate::Graph;
use crate::marks::Marks;
use block_store::{Name, OutOfMemory};

// The names of the first objects of a thread, after what the list has.
fn push_names(list: &mut Vec<Name>, thread: u32, count: u64) -> Result<(), OutOfMemory>
    requires { count ≤ 131072 }
    ensures names { OnOk result (list.new.items ≡ list.old.items ++ thread_names thread count) }
    ensures more { OnOk result (vec_len list.new ≡ vec_len list.old + count) }
{
    for before in 0..count {
        let serial = before + 1;
        list.push(Name { thread, serial })?;
    }
    Ok(())
}

impl Graph {
    // All names: that of the shared array, and then thread by thread.
    fn list_names(&self) -> Result<Vec<Name>, OutOfMemory>
        ensures names { IfOk result (λ v. v.items ≡ names self.now.graph) }
        ensures few { IfOk result (λ v. vec_len v ≤ 2097153) }
    {
        let mutators = self.mutators();
        let shared = Name {
            thread: mutators.len() as u32,
            serial: 0,
        };
        let mut list = vec![in self.alloc(); shared]?;
        for thread in 0..mutators.len() {
            let count = mutators[thread].count() as u64;
            push_names(&mut list, thread as u32, count)?;
        }
        Ok(list)
    }

    // A place for each object, and no mark.
    pub(crate) fn no_marks(&self) -> Result<Marks, OutOfMemory>
        ensures places { IfOk result (λ m. (b : Name) → has_place m b ≡ has_name self.now.graph b) }
        ensures marks { IfOk result (λ m. (b : Name) → has_mark m b ≡ false) }
    {
        let mut marks = Marks::new(self.alloc());
        self.clear_marks(&mut marks)?;
        Ok(marks)
    }

    // The same of marks that there are, whichever they are.
    pub(crate) fn clear_marks(&self, marks: &mut Marks) -> Result<(), OutOfMemory>
        ensures places { OnOk result ((b : Name)
            → has_place marks.new b ≡ has_name self.now.graph b) }
        ensures marks { OnOk result ((b : Name) → has_mark marks.new b ≡ false) }
    {
        let mutators = self.mutators();
        marks.clear_shared(mutators.len());
        for thread in 0..mutators.len() {
            marks.clear_row(self.alloc(), thread, mutators[thread].count())?;
        }
        Ok(())
    }

    // Marks what is in registers.
    fn mark_registers(&self, marks: &mut Marks)
        ensures marks { (b : Name) → has_mark marks.new b
            ≡ (has_mark marks.old b || (in_round self.now.graph 0 b && has_place marks.old b)) }
        ensures places { (b : Name) → has_place marks.new b ≡ has_place marks.old b }
    {
        for mutator in self.mutators() {
            marks.spread(mutator.registers());
        }
    }

    // One round: marks each name in a field of a marked object, and answers whether one was not
    // marked before.
    fn mark_fields(&self, list: &[Name], marks: &mut Marks) -> bool
        ensures places { (b : Name) → has_place marks.new b ≡ has_place marks.old b }
        ensures kept { (b : Name) → has_mark marks.old b ≡ true → has_mark marks.new b ≡ true }
        ensures led { (a : Name) → leads_to self.now.graph (has_mark marks.old) list.now a ≡ true
            → has_place marks.old a ≡ true → has_mark marks.new a ≡ true }
        ensures sound { AreAllReachable self.now.graph (has_mark marks.old)
            → AreAllReachable self.now.graph (has_mark marks.new) }
        ensures unchanged { result ≡ false → marks.new ≡ marks.old }
    {
        let mut is_new = false;
        for name in list {
            if marks.has(*name) {
                is_new |= marks.spread(self.cells(*name));
            }
        }
        is_new
    }

    // Marks all objects that can be reached: what is in registers, and then round by round.
    fn mark_reachable(&self, list: &[Name]) -> Result<Marks, OutOfMemory>
        requires { list.now ≡ names self.now.graph }
        ensures { IfOk result (λ m. (b : Name)
            → has_mark m b ≡ (reachable self.now.graph b && has_name self.now.graph b)) }
    {
        let mut marks = self.no_marks()?;
        self.mark_registers(&mut marks);
        for _round in 0..list.len() {
            if !self.mark_fields(list, &mut marks) {
                return Ok(marks);
            }
        }
        Ok(marks)
    }

    /// The blocks of the registers of all threads, and of all objects that can be reached from
    /// registers.
    pub fn reach_blocks(&self) -> Result<u64, OutOfMemory>
        ensures { IfOk result (λ k. k ≡ live_blocks self.now.width self.now.graph) }
    {
        let list = self.list_names()?;
        let marks = self.mark_reachable(&list)?;
        let mut blocks = self.register_blocks();
        for name in &list {
            if marks.has(*name) {
                blocks += u64::from(self.blocks_of(*name));
            }
        }
        Ok(blocks)
    }

    // The blocks of the registers of all threads.
    #[tactic(auto, using(block_store::proofs::Registers::end_few))]
    pub(crate) fn register_blocks(&self) -> u64
        ensures value { result ≡ registers_end self.now.width (length self.now.graph.mutators) }
        ensures few { result ≤ 80 }
    {
        u64::from(self.width().registers_end(self.mutators().len() as u32))
    }

    // The blocks of the object of a name.
    pub(crate) fn blocks_of(&self, name: Name) -> u32
        requires { has_name self.now.graph name ≡ true }
        ensures value { result ≡ object_blocks self.now.width (object_of self.now.graph name) }
        ensures few { result ≤ 21845 }
    {
        self.object(name)
            .map_or(0, |object| object.blocks(self.width()))
    }
}

//! Marks on the objects of a graph.

ghost use Rattle.std.specs.Prelude.{◌≡◌, ◌<◌, ◌≤◌, ◌+◌, ◌-◌, ◌&&◌, ◌||◌, ◌++◌, ◌∷◌, [], true, false, ℕ, length, replicate, slice_set, slice_index_or, take, OnOk};
ghost use Rattle.block_store.specs.declared.Name.{Name};
ghost use Rattle.never_heap.specs.Graphs.{same_name};
ghost use Rattle.never_heap.specs.Marks.{has_place, has_mark};
ghost use Rattle.never_heap.specs.Reach.{stands_in};

use block_store::{Name, OutOfMemory, Value};
use std::alloc::Global;
use std::marker::Model;

/// The marks of the objects of one thread: those are marked whose stamp is the present one. So all
/// marks go by a step to the next stamp.
#[derive(Drop)]
struct Row {
    stamps: Vec<u32>,
    present: u32,
}

impl Model for Row {
    ghost use Rattle.std.specs.Prelude.{List, Bool, map, ◌≤◌, ◌==◌};
    ghost use Rattle.std.specs.List.{All};

    ghost Value = { List Bool };

    ghost view = { λ r. map (λ s. s == r.present) r.stamps.items };

    ghost invariant = { λ r. All (λ s. s ≤ r.present) r.stamps.items };
}

impl Row {
    fn new(alloc: Global) -> Row
        ensures { result ≡ [] }
    {
        Row {
            stamps: Vec::new(alloc),
            present: 0,
        }
    }

    // A place for each of so many objects, and no mark.
    fn begin(&mut self, alloc: Global, objects: usize) -> Result<(), OutOfMemory>
        ensures { OnOk result (self.new ≡ replicate objects false) }
    {
        let Some(next) = self.present.checked_add(1) else {
            *self = Row {
                stamps: vec![in alloc; 0; objects]?,
                present: 1,
            };
            return Ok(());
        };
        self.stamps.resize(objects, 0)?;
        self.present = next;
        Ok(())
    }

    fn len(&self) -> usize
        ensures { result ≡ length self.now }
    {
        self.stamps.len()
    }

    fn has(&self, i: usize) -> bool
        ensures { result ≡ slice_index_or self.now i false }
    {
        i < self.stamps.len() && self.stamps[i] == self.present
    }

    // Marks place `i`, where there is one, and answers whether it was not marked before.
    fn mark(&mut self, i: usize) -> bool
        ensures after { self.new ≡ slice_set self.old i true }
        ensures unchanged { result ≡ false → self.new ≡ self.old }
        ensures is_new { result ≡ true
            → (i < length self.old) × (slice_index_or self.old i false ≡ false) }
    {
        if i >= self.stamps.len() {
            return false;
        }
        if self.stamps[i] == self.present {
            return false;
        }
        self.stamps[i] = self.present;
        true
    }
}

/// Which of the objects of a graph are marked.
#[derive(Drop)]
pub(crate) struct Marks {
    shared: bool,
    rows: Vec<Row>,
}

impl Model for Marks {
    ghost use Rattle.never_heap.specs.Marks.{Marked};

    ghost Value = { Marked };

    ghost view = { λ m. record { shared = m.shared; rows = m.rows.items } };
}

impl Marks {
    // No mark, and no thread yet.
    pub(crate) fn new(alloc: Global) -> Marks
        ensures { (result.rows ≡ []) × (result.shared ≡ false) }
    {
        Marks {
            shared: false,
            rows: Vec::new(alloc),
        }
    }

    // No mark on the shared array, and no more threads than these.
    pub(crate) fn clear_shared(&mut self, threads: usize)
        ensures rows { self.new.rows ≡ take threads self.old.rows }
        ensures shared { self.new.shared ≡ false }
    {
        self.shared = false;
        self.rows.truncate(threads);
    }

    // No mark on the objects of a thread, which may be the next one.
    pub(crate) fn clear_row(
        &mut self,
        alloc: Global,
        thread: usize,
        objects: usize,
    ) -> Result<(), OutOfMemory>
        requires { thread ≤ length self.old.rows }
        ensures rows { OnOk result (take (thread + 1) self.new.rows
            ≡ take thread self.old.rows ++ replicate objects false ∷ []) }
        ensures some { OnOk result (thread < length self.new.rows) }
        ensures few { (n : ℕ) → thread < n → length self.old.rows ≤ n → length self.new.rows ≤ n }
        ensures shared { self.new.shared ≡ self.old.shared }
    {
        if thread == self.rows.len() {
            self.rows.push(Row::new(alloc))?;
        }
        self.rows[thread].begin(alloc, objects)
    }

    pub(crate) fn has(&self, name: Name) -> bool
        ensures { result ≡ has_mark self.now name }
    {
        let thread = name.thread as usize;
        if name.serial == 0 {
            return thread == self.rows.len() && self.shared;
        }
        thread < self.rows.len() && self.rows[thread].has(name.serial as usize - 1)
    }

    // Marks a name, where it has a place, and answers whether it was not marked before.
    pub(crate) fn mark(&mut self, name: Name) -> bool
        ensures marks { (b : Name) → has_mark self.new b
            ≡ (has_mark self.old b || (same_name name b && has_place self.old b)) }
        ensures places { (b : Name) → has_place self.new b ≡ has_place self.old b }
        ensures unchanged { result ≡ false → self.new ≡ self.old }
        ensures is_new { result ≡ true → (has_mark self.old name ≡ false)
            × (has_place self.old name ≡ true) }
    {
        let thread = name.thread as usize;
        if name.serial == 0 {
            let is_new = thread == self.rows.len() && !self.shared;
            if is_new {
                self.shared = true;
            }
            return is_new;
        }
        thread < self.rows.len() && self.rows[thread].mark(name.serial as usize - 1)
    }

    // Marks each name that is in a list of values, and answers whether one was not marked
    // before.
    pub(crate) fn spread(&mut self, values: &[Value]) -> bool
        ensures marks { (b : Name) → has_mark self.new b
            ≡ (has_mark self.old b || (stands_in b values.now && has_place self.old b)) }
        ensures places { (b : Name) → has_place self.new b ≡ has_place self.old b }
        ensures unchanged { result ≡ false → self.new ≡ self.old }
    {
        let mut is_new = false;
        for value in values {
            if let Value::Ref(name) = *value {
                is_new |= self.mark(name);
            }
        }
        is_new
    }
}

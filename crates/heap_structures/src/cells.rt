//! An array on the heap, with two registers of its own.

ghost use Rattle.std.specs.Prelude.{◌≡◌, ◌≢◌, ◌<◌, ◌≤◌, ◌^◌, ◌∷◌, ℕ, List, [], length, slice_index_or, slice_set, replicate, true, false, IfOk, OnOk, IsOkAnd, MatchResult};
ghost use Rattle.block_store.specs.declared.Value.{Value};
ghost use Rattle.block_store.specs.declared.Value.TheVariants.{Int, Nil};
ghost use Rattle.never_heap.specs.declared.Command.TheVariants.{Arr};
ghost use Rattle.never_heap.specs.Graphs.{Graph};
ghost use Rattle.control_heap.specs.Controls.{HasLeft};
ghost use Rattle.saved_heap.specs.heap_pictures.UpToNames.{AreOneUpToNames};
ghost use Rattle.control_heap.specs.graph_view.ShownGraph.{Leaves};
ghost use Rattle.heap_structures.specs.declared.cells.Cells.{Cells};
ghost use Rattle.heap_structures.specs.Cells.{HasPlace, IsCells, held};
ghost use Rattle.heap_structures.specs.Heaps.{Does, Fills, Has, Ready, Sight, Takes};
ghost use Rattle.heap_structures.specs.Opened.{MayOpen, NotOpened, Opens, OpensNils, StaysSmall};
ghost use Rattle.heap_structures.specs.Renewed.{renamed_values, with_array};
ghost use Rattle.heap_structures.specs.Rings.{IsNoTarget};

use crate::laws::quiet_commands_keep_graphs;
use crate::places::REGISTERS;
use block_store::{Name, Value};
use control_heap::{ControlHeap, Fault, histories_are_right, lives_add_up};
use never_heap::live_grows;

/// An array of `size` values. Register `base` refers to it; register `spare` is the structure's
/// own, for values on their way.
#[derive(Clone, Copy, Debug, PartialEq, Eq)]
pub struct Cells {
    pub(crate) array: Name,
    pub(crate) base: u8,
    pub(crate) spare: u8,
    pub(crate) size: u32,
}

impl Cells {
    /// The name of the array.
    pub fn array(&self) -> Name
        ensures { result ≡ self.now.array }
    {
        self.array
    }

    /// The register that refers to it.
    pub fn base(&self) -> u8
        ensures { result ≡ self.now.base }
    {
        self.base
    }

    /// The register for values on their way.
    pub fn spare(&self) -> u8
        ensures { result ≡ self.now.spare }
    {
        self.spare
    }

    /// How many values it has.
    pub fn size(&self) -> u32
        ensures { result ≡ self.now.size }
    {
        self.size
    }

    /// The array on a heap that has the graph of its own heap up to names.
    pub(crate) fn renewed(&self, other: &ControlHeap) -> Cells
        ensures same { HasPlace result self.now.base self.now.spare self.now.size }
        ensures named { (g z : Graph) (vs : List Value) (one : AreOneUpToNames g z)
            → IsCells g self.now vs → Leaves other.now z
            → result ≡ with_array self.now (one.to self.now.array) }
    {
        let mut cells = *self;
        if self.base < REGISTERS {
            if let Value::Ref(array) = other.register(self.base) {
                cells.array = array;
            }
        }
        cells
    }

    /// Whether a value may be loaded into register `d`.
    pub(crate) fn may_load(&self, d: u8) -> bool
        ensures yes { result ≡ true → (d < 16) × (d ≢ self.now.base) × (d ≢ self.now.spare) }
        ensures no { result ≡ false → IsNoTarget self.now d }
    {
        d < REGISTERS && d != self.base && d != self.spare
    }

    /// Loads value `i` into register `d`, and returns it.
    pub(crate) fn get(&self, heap: &mut ControlHeap, i: u64, d: u8) -> Result<Value, Fault>
        ensures { (s : Sight) (g : Graph) (vs : List Value)
            → Ready s 1 heap.old self.now g vs → i < length vs → d < 16 → d ≢ self.now.base
            → IsOkAnd result (λ v. (v ≡ slice_index_or vs i Nil)
            × Does s 1 heap.old heap.new (d ∷ []) self.now.array g
            (λ z. IsCells z self.now vs × (held z d ≡ slice_index_or vs i Nil))) }
    {
        quiet_commands_keep_graphs();
        heap.get(d, self.base, i)
    }

    /// Stores the value of register `from` as value `i`.
    pub(crate) fn put(&self, heap: &mut ControlHeap, i: u64, from: u8) -> Result<(), Fault>
        ensures { (s : Sight) (g : Graph) (vs : List Value)
            → Ready s 1 heap.old self.now g vs → i < length vs → from < 16
            → IsOkAnd result (λ _. Does s 1 heap.old heap.new [] self.now.array g
            (λ z. IsCells z self.now (slice_set vs i (held g from)))) }
    {
        quiet_commands_keep_graphs();
        heap.put(self.base, i, from)
    }

    /// Sets the spare register to a number.
    pub(crate) fn count_in(&self, heap: &mut ControlHeap, number: u64) -> Result<(), Fault>
        ensures { (s : Sight) (g : Graph) (vs : List Value)
            → Ready s 1 heap.old self.now g vs → number < 2 ^ 62
            → IsOkAnd result (λ _. Does s 1 heap.old heap.new (self.now.spare ∷ []) self.now.array g
            (λ z. IsCells z self.now vs × (held z self.now.spare ≡ Int number))) }
    {
        quiet_commands_keep_graphs();
        heap.set(self.spare, number)
    }

    /// Sets the spare register to nil.
    fn blank(&self, heap: &mut ControlHeap) -> Result<(), Fault>
        ensures { (s : Sight) (g : Graph) (vs : List Value)
            → Ready s 1 heap.old self.now g vs
            → IsOkAnd result (λ _. Does s 1 heap.old heap.new (self.now.spare ∷ []) self.now.array g
            (λ z. IsCells z self.now vs × (held z self.now.spare ≡ Nil))) }
    {
        quiet_commands_keep_graphs();
        heap.nil(self.spare)
    }

    /// Lets value `i` be nil.
    pub(crate) fn clear(&self, heap: &mut ControlHeap, i: u64) -> Result<(), Fault>
        ensures { (s : Sight) (g : Graph) (vs : List Value)
            → Ready s 2 heap.old self.now g vs → i < length vs
            → IsOkAnd result (λ _. Fills s 2 heap.old heap.new self.now g (slice_set vs i Nil)) }
    {
        self.blank(heap)?;
        self.put(heap, i, self.spare)
    }

    /// Lets value `i` be a number.
    pub(crate) fn write(&self, heap: &mut ControlHeap, i: u64, number: u64) -> Result<(), Fault>
        ensures { (s : Sight) (g : Graph) (vs : List Value)
            → Ready s 2 heap.old self.now g vs → i < length vs → number < 2 ^ 62
            → IsOkAnd result (λ _. Fills s 2 heap.old heap.new self.now g
            (slice_set vs i (Int number))) }
    {
        self.count_in(heap, number)?;
        self.put(heap, i, self.spare)
    }

    /// Copies value `from` to place `to`.
    pub(crate) fn copy(&self, heap: &mut ControlHeap, from: u64, to: u64) -> Result<(), Fault>
        ensures { (s : Sight) (g : Graph) (vs : List Value)
            → Ready s 2 heap.old self.now g vs → from < length vs → to < length vs
            → IsOkAnd result (λ _. Fills s 2 heap.old heap.new self.now g
            (slice_set vs to (slice_index_or vs from Nil))) }
    {
        self.get(heap, from, self.spare)?;
        self.put(heap, to, self.spare)
    }

    /// Loads value `i` into register `d`, lets it be nil in the array, and returns it.
    pub(crate) fn take(&self, heap: &mut ControlHeap, i: u64, d: u8) -> Result<Value, Fault>
        ensures { (s : Sight) (g : Graph) (vs : List Value)
            → Ready s 3 heap.old self.now g vs → i < length vs → d < 16 → d ≢ self.now.base
            → d ≢ self.now.spare
            → IsOkAnd result (λ v. (v ≡ slice_index_or vs i Nil)
            × Takes s heap.old heap.new self.now g vs i d) }
    {
        let value = self.get(heap, i, d)?;
        self.clear(heap, i)?;
        Ok(value)
    }
}

/// Makes an array of nils and lets register `base` refer to it.
pub(crate) fn nil_array(heap: &mut ControlHeap, base: u8, size: u32) -> Result<Name, Fault>
    ensures range { OnOk result ((base < 16) × (size ≤ 65535)) }
    ensures left { OnOk result (HasLeft heap.old (Arr base size)) }
    ensures grown { (s : Sight) (g : Graph) → Has s heap.old g
        → MayOpen s heap.old.config g size → StaysSmall s heap.old.config g base size }
    ensures opens { (s : Sight) (g : Graph) (spare : ℕ) → Has s heap.old g
        → StaysSmall s heap.old.config g base size
        → MatchResult result
        (λ a. OpensNils s heap.old heap.new g base size a)
        (λ f. NotOpened s heap.old heap.new base spare size g f) }
{
    histories_are_right();
    lives_add_up();
    live_grows();
    heap.array(base, size)
}

/// Makes an array of nils, of `size` values, with two registers of its own.
///
/// # Errors
///
/// As for `Ring::new`.
pub(crate) fn made(heap: &mut ControlHeap, base: u8, spare: u8, size: u32) -> Result<Cells, Fault>
    ensures placed { IfOk result (λ c. HasPlace c base spare size) }
    ensures some { OnOk result (1 ≤ size) }
    ensures opens { (s : Sight) (g : Graph) → Has s heap.old g
        → MayOpen s heap.old.config g size
        → MatchResult result
        (λ c. Opens s heap.old heap.new c g (λ z. IsCells z c (replicate size Nil)))
        (λ f. NotOpened s heap.old heap.new base spare size g f) }
{
    if spare >= REGISTERS || spare == base || size == 0 {
        return Err(Fault::OutOfBounds);
    }
    let array = nil_array(heap, base, size)?;
    Ok(Cells {
        array,
        base,
        spare,
        size,
    })
}

//! The last numbers of a sequence, each in an object of its own.

ghost use Rattle.std.specs.Prelude.{◌≡◌, ◌≢◌, ◌<◌, ◌≤◌, ◌+◌, ◌^◌, ◌++◌, ◌∷◌, ℕ, List, [], drop, length, IfOk, MatchResult, OnOk};
ghost use Rattle.std.specs.List.{sum_by};
ghost use Rattle.block_store.specs.declared.Name.{Name};
ghost use Rattle.block_store.specs.declared.Value.TheVariants.{Int};
ghost use Rattle.block_store.specs.declared.Width.{Width};
ghost use Rattle.block_store.specs.Registers.{registers_end};
ghost use Rattle.never_heap.specs.declared.Command.TheVariants.{Arr};
ghost use Rattle.never_heap.specs.Graphs.{Graph, object_of};
ghost use Rattle.never_heap.specs.LiveBlocks.{live_blocks, object_blocks};
ghost use Rattle.control_heap.specs.Controls.{HasLeft};
ghost use Rattle.heap_structures.specs.declared.records.Records.{Records};
ghost use Rattle.heap_structures.specs.Cells.{HasPlace, IsNone, Spares};
ghost use Rattle.heap_structures.specs.Circles.{last_of};
ghost use Rattle.heap_structures.specs.Heaps.{DoesOrStops, Has, Sight};
ghost use Rattle.heap_structures.specs.Opened.{MayOpen, NotOpened, Opens};
ghost use Rattle.heap_structures.specs.Records.{ArePlain, Grows, HasFreeSpare, IsRecords, MayPush, NotPushed, ReferOnly, first_of, records_cells};
ghost use Rattle.heap_structures.specs.Renewed.{ShowsAgain};
ghost use Rattle.heap_structures.specs.Rings.{IsNoTarget};

use crate::cells::{Cells, nil_array};
use crate::laws::quiet_commands_keep_graphs;
use crate::places::admit;
use crate::ring::Ring;
use block_store::Value;
use control_heap::{ControlHeap, Fault};

/// The last `size` numbers of a sequence, each in an object of its own.
#[derive(Clone, Copy, Debug, PartialEq, Eq)]
pub struct Records {
    ring: Ring,
}

impl Records {
    /// Makes an empty ring of at most `size` numbers, as `Ring::new` does. Register `spare` is to
    /// refer to no object, and only these calls are to store in it from now on.
    ///
    /// # Errors
    ///
    /// As for `Ring::new`.
    pub fn new(heap: &mut ControlHeap, base: u8, spare: u8, size: u32) -> Result<Records, Fault>
        ensures placed { IfOk result (λ r. HasPlace (records_cells r) base spare size) }
        ensures opens { (s : Sight) (g : Graph) → Has s heap.old g
            → MayOpen s heap.old.config g size
            → MatchResult result
            (λ r. Opens s heap.old heap.new (records_cells r) g
            (λ z. HasFreeSpare z r → IsRecords z r []))
            (λ f. NotOpened s heap.old heap.new base spare size g f) }
    {
        let ring = Ring::new(heap, base, spare, size)?;
        Ok(Records { ring })
    }

    /// Adds a number, in a new object; where `size` numbers are there, the oldest goes. What
    /// register `d` held is lost. At most four commands.
    ///
    /// # Errors
    ///
    /// `OutOfBounds` where there is no such register or it is the ring's own, or the heap refuses
    /// the object; `Full` and `NoLifeLeft` as for `ControlHeap::array`, the latter also where the
    /// heap's life has no room for four commands. The heap's graph is then unchanged.
    pub fn push(&mut self, heap: &mut ControlHeap, number: u32, d: u8) -> Result<(), Fault>
        ensures same { records_cells self.new ≡ records_cells self.old }
        ensures left { OnOk result (HasLeft heap.old (Arr d 1)) }
        ensures shows { (s : Sight) (g : Graph) (ns : List ℕ)
            → Has s heap.old g → IsRecords g self.old ns → MayPush s heap.old.config g d
            → MatchResult result
            (λ _. Grows s heap.old heap.new d (records_cells self.old) g
            (λ z. IsRecords z self.new
            (last_of (records_cells self.old).size (ns ++ number ∷ []))))
            (λ f. NotPushed s heap.old heap.new (records_cells self.old) d g f
            × (self.new ≡ self.old)) }
    {
        let cells = self.ring.cells;
        admit(heap, 4, cells.may_load(d))?;
        let array = nil_array(heap, d, 1)?;
        let object = Cells {
            array,
            base: d,
            spare: cells.spare,
            size: 1,
        };
        object.count_in(heap, u64::from(number))?;
        object.put(heap, 0, cells.spare)?;
        self.ring.push(heap, d)
    }

    /// Returns number `i`, counted from the oldest, or `None` where there is none. What register
    /// `d` held is lost. At most two commands.
    ///
    /// # Errors
    ///
    /// `OutOfBounds` where there is no such register or it is the ring's own, `NoLifeLeft` where
    /// the heap's life has no room for the commands. The heap is then unchanged.
    pub fn get(&self, heap: &mut ControlHeap, i: u32, d: u8) -> Result<Option<u32>, Fault>
        ensures { (s : Sight) (g : Graph) (ns : List ℕ)
            → Has s heap.old g → IsRecords g self.now ns
            → DoesOrStops s 2 heap.old heap.new (d ∷ (records_cells self.now).spare ∷ [])
            (records_cells self.now) g
            (λ n z. IsRecords z self.now ns × (n ≡ first_of (drop i ns)))
            (IsNoTarget (records_cells self.now) d) (Unit {0}) result }
    {
        quiet_commands_keep_graphs();
        let cells = self.ring.cells;
        admit(heap, 2, cells.may_load(d))?;
        let Some(_) = self.ring.get(heap, i, d)? else {
            return Ok(None);
        };
        let value = heap.get(cells.spare, d, 0)?;
        Ok(Some(number_in(value)))
    }

    /// How many numbers there are.
    pub fn len(&self) -> u32
        ensures { (g : Graph) (ns : List ℕ) → IsRecords g self.now ns → result ≡ length ns }
    {
        self.ring.len()
    }

    /// The numbers on a heap that has the graph of its own heap up to names (`Ring::renewed`).
    pub fn renewed(&self, other: &ControlHeap) -> Records
        ensures same { HasPlace (records_cells result) (records_cells self.now).base
            (records_cells self.now).spare (records_cells self.now).size }
        ensures shows { ShowsAgain (λ _ ns. ns) (λ g ns. IsRecords g self.now ns)
            (λ z ns. IsRecords z result ns) other.now }
    {
        let ring = self.ring.renewed(other);
        Records { ring }
    }

    /// Its array and registers.
    pub fn cells(&self) -> Cells
        ensures { result ≡ records_cells self.now }
    {
        self.ring.cells
    }
}

/// The numbers stay where a call spares both registers and the array, and changes no object of one
/// value.
pub fn other_records_stay()
    ensures { (rs : List ℕ) (a : Name) (g z : Graph) (r : Records) (ns : List ℕ)
        → Spares rs a g z → length (object_of g a).fields ≢ 1 → (records_cells r).array ≢ a
        → IsNone rs (records_cells r).base → IsNone rs (records_cells r).spare
        → IsRecords g r ns → IsRecords z r ns }
{}

/// How many blocks can be live where registers refer to the array of these numbers and to `others`,
/// which refer to no object: those of the registers, the array and `others`, and one a number.
pub fn few_blocks_live()
    ensures { (w : Width) (g : Graph) (r : Records) (ns : List ℕ) (others : List Name)
        → length g.mutators ≡ 1 → IsRecords g r ns
        → ReferOnly g ((records_cells r).array ∷ others) → ArePlain g others
        → live_blocks w g
        ≤ registers_end w 1 + (sum_by (λ b. object_blocks w (object_of g b)) others
        + (object_blocks w (object_of g (records_cells r).array) + length ns)) }
{}

/// The number that a value is, below 2^32.
fn number_in(value: Value) -> u32
    ensures { (n : ℕ) → value ≡ Int n → n < 2 ^ 32 → result ≡ n }
{
    match value {
        Value::Int(number) if number < 1 << 32 => number as u32,
        _ => 0,
    }
}

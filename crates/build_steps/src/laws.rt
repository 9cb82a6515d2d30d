//! Laws of the rows, for the proofs above: each is the contract of a function that does nothing.

ghost use Rattle.std.specs.Prelude.{◌≡◌, ◌≢◌, ◌<◌, ◌≤◌, ◌+◌, ◌⊎◌, ◌||◌, ◌&&◌, nat_lt, ℕ, List, [], length, true, false, Some, is_some, ◌^◌};
ghost use Rattle.block_store.specs.declared.Config.{Config};
ghost use Rattle.block_store.specs.Heaps.{Heap, put_at};
ghost use Rattle.block_store.specs.Colours.{is_free, black_word};
ghost use Rattle.block_store.specs.Payloads.{target, reference_word};
ghost use Rattle.block_store.specs.Phases.{cycle_of};
ghost use Rattle.block_store.specs.Places.{Extent, Place, extent, in_range, Phase, ColourOf};
ghost use Rattle.block_store.specs.Registers.{registers_end};
ghost use Rattle.block_store.specs.declared.Width.{Width};
ghost use Rattle.block_store.specs.Widths.{payloads};
ghost use Rattle.never_heap.specs.declared.Command.{Command};
ghost use Rattle.never_heap.specs.declared.Reply.TheVariants as replies;
ghost use Rattle.never_heap.specs.Bounds.{IsCommandInRange};
ghost use Rattle.never_heap.specs.Steps.{blocks_of};
ghost use Rattle.block_store.specs.Counts.{changed, times};
ghost use Rattle.heap_machine.specs.Grey.{no_grey, GreyKept};
ghost use Rattle.heap_machine.specs.Tricolour.{no_tricolour, TricolourKept};
ghost use Rattle.heap_machine.specs.Solid.{SolidKept};
ghost use Rattle.heap_machine.specs.WorkInHand.{WorkInHand, holds_nothing, grey_held, tricolour_held};
ghost use Rattle.heap_machine.specs.Operations.{place_of, heap_after, Fits};
ghost use Rattle.heap_machine.specs.Readings.{StoresHeld};
ghost use Rattle.heap_machine.specs.PhaseKept.{PhaseKept};
ghost use Rattle.heap_machine.specs.ReuseKept.{ReuseKept};
ghost use Rattle.build_steps.specs.Rows.{BuildState, built_at, built_payload, made_place, build_want, build_got, build_step, build_over, build_reply, build_in_hand, building, full_cycle};
ghost use Rattle.build_steps.specs.Fits.{BuildFits, BuildReads};
ghost use Rattle.build_steps.specs.LinearizationPoints.{is_counting, is_writing, is_publishing, is_built, is_refused, decides, is_last};
ghost use Rattle.build_steps.specs.Standing.{left_of, IsNextWord, IsWhole, Stands, HeldOnce, IsElsewhere, AllRead, build_after, heap_written};
ghost use Rattle.build_steps.specs.Objects.{made_part, block_at};
ghost use Rattle.build_steps.specs.declared.rows.BuildRow.TheVariants.{WritePayload};
ghost use Rattle.object_lists.specs.Parts.{Link, Field, Blank};

/// The first state fits its heap, and a state that fits becomes one that fits. Such a state wants a
/// place of the heap, adds and takes away nothing, and stores what the place can hold.
pub fn rows_stay_in_the_heap()
    ensures first { (c : Config) (t cycle serial : ℕ) (k : Command) (capacity : ℕ)
        → t < c.threads → c.threads ≤ 16 → c.blocks ≤ 65535
        → registers_end c.width (t + 1) ≤ c.blocks → serial < 2 ^ 43
        → IsCommandInRange k → 1 ≤ blocks_of c.width k
        → blocks_of c.width k ≤ 1024 → blocks_of c.width k ≤ capacity
        → BuildFits c (building c.width t c.threads cycle serial k capacity) }
    ensures next { (c : Config) (s : BuildState) (v : ℕ) → BuildFits c s → BuildReads c s v
        → BuildFits c (build_got (extent c) s v) }
    ensures place { (c : Config) (s : BuildState) → BuildFits c s
        → in_range (extent c) (place_of (build_want (extent c) s)) ≡ true }
    ensures sum { (c : Config) (s : BuildState) (v : ℕ) → Fits (build_want (extent c) s) v }
    ensures stores { (c : Config) (s : BuildState) → BuildFits c s
        → StoresHeld c (build_want (extent c) s) }
{}

/// Each event keeps that each Free block is in one place and is counted, that no block is
/// claimed twice, and that what was passed is not white, while the other threads hold what they
/// held and the cycle is the part's. A part begins and ends with nothing held.
pub fn rows_keep_reuse()
    ensures kept { (c : Config) (h : Heap) (hs : ℕ → WorkInHand) (s : BuildState)
        → BuildFits c s → cycle_of (h Phase) ≡ s.cycle
        → ReuseKept (extent c) h hs → hs s.thread ≡ build_in_hand s
        → ReuseKept (extent c) (heap_after h (build_want (extent c) s))
        (changed hs s.thread
        (build_in_hand (build_got (extent c) s (h (place_of (build_want (extent c) s)))))) }
    ensures first { (w : Width) (t n c serial : ℕ) (k : Command) (capacity : ℕ)
        → build_in_hand (building w t n c serial k capacity) ≡ holds_nothing }
    ensures over { (s : BuildState) → build_over s.row ≡ true → build_in_hand s ≡ holds_nothing }
{}

/// What a part has written is: of each ordinal that it has made black the owner with the
/// object's name, the shape, the links and nils, and the colour; of the one before it the words
/// that it has written. Each of its events before it publishes keeps that, whatever it reads,
/// where no block is held twice; and a write of a place of no held block keeps it.
pub fn what_is_written_stands()
    ensures first { (w : Width) (h : Heap) (t n c serial : ℕ) (k : Command) (capacity : ℕ)
        → Stands w h (building w t n c serial k capacity) }
    ensures kept { (c : Config) (h : Heap) (s : BuildState) (v : ℕ) → BuildFits c s
        → HeldOnce s.held → is_publishing s.row ≡ false → Stands c.width h s
        → Stands c.width (heap_after h (build_want (extent c) s)) (build_got (extent c) s v) }
    ensures others { (c : Config) (h : Heap) (s : BuildState) (p : Place) (v : ℕ) → BuildFits c s
        → IsElsewhere s p → Stands c.width h s → Stands c.width (put_at h p v) s }
{}

/// The words of the held blocks are written in one order, each once: of each ordinal, from the last
/// down, the owner, the shape, the payloads from 0 on, and last the colour.
pub fn words_are_written_in_order()
    ensures { (c : Config) (s : BuildState) (v : ℕ) → BuildFits c s → is_writing s.row ≡ true
        → IsNextWord (payloads c.width) s.blocks s.row (build_got (extent c) s v).row }
{}

/// What is published is the whole object: all its blocks are black and show the name with their
/// ordinals, the command's shape, the links of its layout and nils; and the command's register
/// then refers to the first of them. So it is after all events of a part, whatever they read,
/// where no block is held twice and nobody else writes what is held. A link is written when the
/// block to which it refers is black already.
pub fn what_is_published()
    ensures links_black { (c : Config) (h : Heap) (s : BuildState) (o j : ℕ) → BuildFits c s
        → Stands c.width h s → s.row ≡ WritePayload o j
        → target (built_payload c.width s o j) ≢ 0
        → h (ColourOf (target (built_payload c.width s o j))) ≡ black_word s.cycle }
    ensures links { (w : Width) (s : BuildState) (o j p : ℕ) → made_part w s.command o j ≡ Link p
        → built_payload w s o j ≡ reference_word (built_at s p) }
    ensures fields { (w : Width) (s : BuildState) (o j i : ℕ) → made_part w s.command o j ≡ Field i
        → built_payload w s o j ≡ 0 }
    ensures blanks { (w : Width) (s : BuildState) (o j : ℕ) → made_part w s.command o j ≡ Blank
        → built_payload w s o j ≡ 0 }
    ensures whole { (w : Width) (h : Heap) (s : BuildState) → Stands w h s
        → is_publishing s.row ≡ true → (o : ℕ) → o < s.blocks → IsWhole w h s o }
    ensures stays { (c : Config) (h : Heap) (s : BuildState) → BuildFits c s
        → Stands c.width h s → is_publishing s.row ≡ true → (o : ℕ) → o < s.blocks
        → registers_end c.width (s.thread + 1) < built_at s o
        → IsWhole c.width (heap_after h (build_want (extent c) s)) s o }
    ensures register { (c : Config) (h : Heap) (s : BuildState) → is_publishing s.row ≡ true
        → heap_after h (build_want (extent c) s) (made_place c.width s)
        ≡ reference_word (built_at s 0) }
    ensures events { (c : Config) (h : Heap) (t n cycle serial : ℕ) (k : Command) (capacity : ℕ)
        (vs : List ℕ) (s : BuildState)
        → s ≡ build_after (extent c) (building c.width t n cycle serial k capacity) vs
        → BuildFits c (building c.width t n cycle serial k capacity)
        → AllRead c (building c.width t n cycle serial k capacity) vs
        → HeldOnce s.held → is_publishing s.row ≡ true → (o : ℕ) → o < s.blocks
        → IsWhole c.width
        (heap_written (extent c) h (building c.width t n cycle serial k capacity) vs) s o }
{}

/// Each event keeps that a grey block is in one place, while the other threads hold what they
/// held; a part holds no grey block. Where what it has written is, each event keeps, in the
/// colours of its cycle, that no black block refers to a white one, and that no block that is not
/// Free refers to a Free one.
pub fn rows_keep_marking()
    ensures grey { (c : Config) (h : Heap) (hs : ℕ → WorkInHand) (s : BuildState) → BuildFits c s
        → ReuseKept (extent c) h hs → hs s.thread ≡ build_in_hand s
        → GreyKept c.threads h (λ u. grey_held (hs u))
        → GreyKept c.threads (heap_after h (build_want (extent c) s))
        (changed (λ u. grey_held (hs u)) s.thread
        (grey_held (build_in_hand
        (build_got (extent c) s (h (place_of (build_want (extent c) s))))))) }
    ensures tricolour { (c : Config) (h : Heap) (hs : ℕ → WorkInHand) (s : BuildState) → BuildFits c s
        → ReuseKept (extent c) h hs → hs s.thread ≡ build_in_hand s → Stands c.width h s
        → TricolourKept (extent c) s.cycle h (λ u. tricolour_held (hs u))
        → TricolourKept (extent c) s.cycle (heap_after h (build_want (extent c) s))
        (changed (λ u. tricolour_held (hs u)) s.thread
        (tricolour_held (build_in_hand
        (build_got (extent c) s (h (place_of (build_want (extent c) s))))))) }
    ensures solid { (c : Config) (h : Heap) (hs : ℕ → WorkInHand) (s : BuildState) → BuildFits c s
        → ReuseKept (extent c) h hs → hs s.thread ≡ build_in_hand s → Stands c.width h s
        → SolidKept (extent c) s.cycle h
        → SolidKept (extent c) s.cycle (heap_after h (build_want (extent c) s)) }
    ensures holds_no_grey { (s : BuildState) → grey_held (build_in_hand s) ≡ no_grey }
    ensures holds_no_tricolour { (s : BuildState)
        → tricolour_held (build_in_hand s) ≡ no_tricolour }
{}

/// Each event keeps all rules of the heap at once, while the other threads hold what they held,
/// what the part has written is, and the cycle is the part's. No event writes the phase.
pub fn rows_keep_the_heap()
    ensures kept { (c : Config) (h : Heap) (hs : ℕ → WorkInHand) (s : BuildState) → BuildFits c s
        → cycle_of (h Phase) ≡ s.cycle → Stands c.width h s
        → PhaseKept (extent c) h hs → hs s.thread ≡ build_in_hand s
        → PhaseKept (extent c) (heap_after h (build_want (extent c) s))
        (changed hs s.thread
        (build_in_hand (build_got (extent c) s (h (place_of (build_want (extent c) s)))))) }
    ensures phase { (c : Config) (h : Heap) (s : BuildState)
        → heap_after h (build_want (extent c) s) Phase ≡ h Phase }
{}

/// No block is held twice: a part begins with none, and each event keeps it, while the other
/// threads hold what they held. What is held and not black yet is Free, and among what the part
/// holds of the Free blocks.
pub fn held_blocks_are_distinct()
    ensures first { HeldOnce [] }
    ensures kept { (c : Config) (h : Heap) (hs : ℕ → WorkInHand) (s : BuildState) → BuildFits c s
        → ReuseKept (extent c) h hs → hs s.thread ≡ build_in_hand s → HeldOnce s.held
        → HeldOnce (build_got (extent c) s (h (place_of (build_want (extent c) s)))).held }
    ensures apart { (held : List ℕ) (i j : ℕ) → HeldOnce held → i < length held → j < length held
        → block_at held i ≡ block_at held j → i ≡ j }
    ensures left { (c : Config) (s : BuildState) (o : ℕ) → BuildFits c s → o < length s.held
        → o < left_of s.blocks s.row → 1 ≤ times (built_at s o) (build_in_hand s).held }
    ensures free { (c : Config) (h : Heap) (hs : ℕ → WorkInHand) (s : BuildState) (o : ℕ)
        → BuildFits c s → ReuseKept (extent c) h hs → hs s.thread ≡ build_in_hand s
        → o < length s.held → o < left_of s.blocks s.row
        → is_free (h (ColourOf (built_at s o))) ≡ true }
{}

/// There is a reply exactly once the linearization point was made, which is the last: the one that
/// reads a free count below the object's blocks, or the one that publishes. The first is answered
/// full, with the cycle before the part's, or 1 in cycle 1; the other new, with the name of the
/// thread and serial.
pub fn replies_are_decided()
    ensures present { (s : BuildState) → is_some (build_reply s) ≡ build_over s.row }
    ensures decided { (e : Extent) (s : BuildState) (v : ℕ)
        → build_over (build_got e s v).row ≡ (build_over s.row || decides s v) }
    ensures last { (e : Extent) (s : BuildState) (v : ℕ)
        → is_last (build_step s v) ≡ build_over (build_got e s v).row }
    ensures refused { (e : Extent) (s : BuildState) (v : ℕ)
        → is_refused (build_got e s v).row
        ≡ (is_refused s.row || (is_counting s.row && nat_lt v s.blocks)) }
    ensures built { (e : Extent) (s : BuildState) (v : ℕ)
        → is_built (build_got e s v).row ≡ (is_built s.row || is_publishing s.row) }
    ensures full { (s : BuildState) → is_refused s.row ≡ true
        → build_reply s ≡ Some (replies.Full (full_cycle s.cycle)) }
    ensures new { (s : BuildState) → is_built s.row ≡ true
        → build_reply s
        ≡ Some (replies.New (record { thread = s.thread; serial = s.serial })) }
    ensures cycle { (c : ℕ) → 1 ≤ c
        → ((c ≡ 1) × (full_cycle c ≡ 1)) ⊎ (full_cycle c + 1 ≡ c) }
{}

//! Laws of what a `get` reads, for the proofs of the crates above.

ghost use Rattle.std.specs.Prelude.{◌≡◌, ◌<◌, ◌++◌, ◌∷◌, [], ℕ, length, slice_index_or, List};
ghost use Rattle.block_store.specs.declared.Config.{Config};
ghost use Rattle.block_store.specs.declared.Name.{Name};
ghost use Rattle.block_store.specs.declared.Value.{Value};
ghost use Rattle.block_store.specs.declared.Value.TheVariants.{Ref};
ghost use Rattle.never_heap.specs.declared.Command.{Command};
ghost use Rattle.never_heap.specs.declared.Command.TheVariants.{Get};
ghost use Rattle.never_heap.specs.declared.Entry.{Entry};
ghost use Rattle.never_heap.specs.declared.Reply.TheVariants.{Val};
ghost use Rattle.never_heap.specs.Graphs.{register_of, object_of, field_of};
ghost use Rattle.never_heap.specs.Histories.{HistoryItem, Did, replay, Legal, HasTraces};
ghost use Rattle.never_heap.specs.Readback.{StoresIn, NoneStores, IsLastStored, StandsIn};

/// After a legal history a field holds what the last `put`, `swap` or `cas` that stored there has
/// stored, or nil where there is none, whichever thread made it; and that is one value.
pub fn fields_hold_what_was_last_stored()
    ensures field { (c : Config) (h : List HistoryItem) (a : Name) (i : ℕ) → Legal c h
        → IsLastStored c h a i (field_of (object_of (replay c h) a) i) }
    ensures one { (c : Config) (h : List HistoryItem) (a : Name) (i : ℕ) (v : Value) → Legal c h
        → IsLastStored c h a i v → field_of (object_of (replay c h) a) i ≡ v }
{}

/// In a legal history a `get` of a field that there is answers what was last stored there before
/// it, and each value that a `get` answers is that of such a field. So what was stored is read
/// back, by its own thread and by any other, until another command stores there.
pub fn gets_read_what_was_last_stored()
    ensures get { (c : Config) (before since : List HistoryItem) (get : Entry) (d s i : ℕ)
        (a : Name) (v : Value)
        → Legal c (before ++ Did get ∷ since) → get.command ≡ Get d s i
        → register_of (replay c before) get.thread s ≡ Ref a
        → i < length (object_of (replay c before) a).fields
        → IsLastStored c before a i v → get.reply ≡ Val v }
    ensures value { (c : Config) (before since : List HistoryItem) (get : Entry) (d s i : ℕ)
        (v : Value)
        → Legal c (before ++ Did get ∷ since) → get.command ≡ Get d s i → get.reply ≡ Val v
        → (a : Name) × ((register_of (replay c before) get.thread s ≡ Ref a)
        × IsLastStored c before a i v) }
    ensures back { (c : Config) (before between since : List HistoryItem) (store get : Entry)
        (d s i : ℕ) (a : Name) (v : Value)
        → Legal c (before ++ Did store ∷ (between ++ Did get ∷ since))
        → StoresIn (replay c before) store a i v
        → NoneStores (replay c (before ++ Did store ∷ [])) between a i
        → get.command ≡ Get d s i
        → register_of (replay c (before ++ Did store ∷ between)) get.thread s ≡ Ref a
        → get.reply ≡ Val v }
{}

/// A thread's commands are in a history in the order of its trace: each has its entry, after
/// those of the commands before it and before those of the commands after it.
pub fn commands_stand_in_trace_order()
    ensures { (traces : List (List Command)) (h : List HistoryItem) (t : ℕ)
        (xs : List Command) (x : Command) (ys : List Command)
        → HasTraces traces h → slice_index_or traces t [] ≡ xs ++ x ∷ ys
        → StandsIn h t xs x ys }
{}

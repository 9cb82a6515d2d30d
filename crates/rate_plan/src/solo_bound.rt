//! A lone thread's bound, over its rows alone: while one thread has turns and no other, each of
//! its turns brings its command nearer to its end.

ghost use Rattle.std.specs.Prelude.{ℕ, Bool, true, false, suc, ◌+◌, ◌*◌, ◌<◌, ◌≤◌, ◌≡◌, ◌⊎◌};
ghost use Rattle.rate_plan.specs.solo_bound.Moves.{Look, Lone, Terms, Moves, Fresh, changes_phase};
ghost use Rattle.rate_plan.specs.solo_bound.Prices.{left, at_look, unit_cost, inside_cost, allocation_bound, idle_bound, other_bound};
ghost use Rattle.rate_plan.specs.solo_bound.Near.{Scene, NearMoves, near_left, near_at, near_unit, near_bound, near_other_bound, farthest, changes_cost};

/// Each move lowers what is left of the command, on blocks of two payload words or more and at any
/// price of a unit that is at least its cost.
pub fn moves_lower()
    ensures { (e : Terms) (unit : ℕ) → 2 ≤ e.payloads → unit_cost e.threads e.payloads ≤ unit
        → (s z : Lone) → Moves e s.spot s z → left e unit z < left e unit s }
{}

/// What is left at the look is within the bounds, on blocks of two to eight payload words: of an
/// allocation that owes its units, by the bound (`allocation`) and exactly (`exact`); of a command
/// that allocates nothing (`other`); and of an `idle`, which owes units and has one event
/// (`one_event`).
pub fn bounds_hold()
    ensures allocation { (e : Terms) (rate : ℕ) (sweep ready : Bool)
        → 2 ≤ e.payloads → e.payloads ≤ 8 → e.allocates ≡ true
        → at_look e (8 * e.threads + 64) (rate * e.blocks) sweep ready
        ≤ allocation_bound e.threads e.blocks rate }
    ensures exact { (e : Terms) (r : ℕ) (sweep ready : Bool)
        → 2 ≤ e.payloads → e.allocates ≡ true
        → at_look e (unit_cost e.threads e.payloads) r sweep ready
        ≤ r * unit_cost e.threads e.payloads + ((e.payloads + 4) * e.blocks + e.threads + 7) }
    ensures other { (e : Terms) (unit b : ℕ) (sweep ready : Bool)
        → e.allocates ≡ false → e.most ≤ b + 61
        → at_look e unit 0 sweep ready ≤ other_bound b }
    ensures one_event { (e : Terms) (r : ℕ) (sweep ready : Bool)
        → 2 ≤ e.payloads → e.payloads ≤ 8 → e.allocates ≡ false → e.most ≡ 1
        → at_look e (8 * e.threads + 64) r sweep ready ≤ idle_bound e.threads r }
{}

/// At most one change of phase comes between two units: a change leads to a state before a unit
/// (`change`); each move from such a state makes the unit, or leads to such a state again
/// (`goes_on`); and none of them is a change (`none`).
pub fn one_change()
    ensures change { (e : Terms) (s z : Lone)
        → changes_phase s.spot ≡ true → Moves e s.spot s z → Fresh z.spot z }
    ensures goes_on { (e : Terms) (s z : Lone) → Moves e s.spot s z → Fresh s.spot s
        → Fresh z.spot z × (z.owed ≡ s.owed) ⊎ (suc z.owed ≡ s.owed) }
    ensures none { (s : Lone) → Fresh s.spot s → changes_phase s.spot ≡ false }
{}

/// Each move lowers what is left, where units and changes of phase are counted apart: on blocks of
/// two payload words or more, in a heap of some blocks.
pub fn near_moves_lower()
    ensures { (e : Terms) (m : ℕ) → 2 ≤ e.payloads → 0 < m
        → (s z : Scene) → NearMoves e m s z → near_left e m z < near_left e m s }
{}

/// What is left at the look is within the near bound: of an allocation (`allocation`), of a command
/// that makes no object (`other`), and of any command (`any`). The stated bound follows from it on
/// at most 16 threads, blocks of at most eight payload words, and a heap of at least as many blocks
/// as threads (`stated`, `idle_stated`).
pub fn near_holds()
    ensures allocation { (e : Terms) (m r room : ℕ) (far : ℕ → ℕ) (sweep : Bool)
        → 2 ≤ e.payloads → 0 < m → e.allocates ≡ true
        → ((passes : ℕ) → far passes ≤ farthest e.threads passes)
        → near_at e m Look r sweep room far
        ≤ near_bound e.threads e.payloads m r e.blocks }
    ensures other { (e : Terms) (m r room : ℕ) (far : ℕ → ℕ) (sweep : Bool)
        → 2 ≤ e.payloads → 0 < m → e.allocates ≡ false
        → ((passes : ℕ) → far passes ≤ farthest e.threads passes)
        → near_at e m Look r sweep room far
        ≤ near_other_bound e.threads e.payloads m r e.most }
    ensures any { (e : Terms) (m r room : ℕ) (far : ℕ → ℕ) (sweep : Bool)
        → 2 ≤ e.payloads → 0 < m → ((passes : ℕ) → far passes ≤ farthest e.threads passes)
        → near_at e m Look r sweep room far
        ≤ r * near_unit e.payloads + changes_cost e.threads m r + inside_cost e 0 + 2 }
    ensures stated { (n m w rate k : ℕ) → n ≤ 16 → w ≤ 8 → n ≤ m → 1 ≤ m
        → near_bound n w m (rate * k) k ≤ allocation_bound n k rate }
    ensures idle_stated { (n m w r : ℕ) → n ≤ 16 → w ≤ 8 → n ≤ m → 1 ≤ m
        → near_other_bound n w m r 1 ≤ idle_bound n r }
{}

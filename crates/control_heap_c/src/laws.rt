//! What the numbers of a call say: each law is the contract of a function that does nothing.

ghost use Rattle.std.specs.Prelude.{◌≡◌, ◌≤◌, ◌<◌, ℕ, suc, List, Option, Some, None, Err};
ghost use Rattle.block_store.specs.declared.Config.{Config};
ghost use Rattle.block_store.specs.declared.Width.{Width};
ghost use Rattle.block_store.specs.declared.TheConstants.{REGISTERS};
ghost use Rattle.never_heap.specs.declared.Command.{Command};
ghost use Rattle.never_heap.specs.declared.Reply.{Reply};
ghost use Rattle.control_heap.specs.Controls.{Control, AllAnswered};
ghost use Rattle.control_heap_c.specs.declared.answer.Answer.{Answer};
ghost use Rattle.control_heap_c.specs.declared.answer.Refusal.{Refusal};
ghost use Rattle.control_heap_c.specs.declared.handle.OpenRefusal.{OpenRefusal};
ghost use Rattle.control_heap_c.specs.declared.owned.Owned.{Owned};
ghost use Rattle.control_heap_c.specs.Outcomes.{Called, IsAnswered, IsNotAsked, IsNotOpened, IsOpened, AllCalled, Opened, config_of, heap_in, open_refusal_in, open_status, refusal_in, register, reply_in, status_of, written};

use crate::handle::Handle;

/// A reply can be read from the numbers that are written for it. A refusal of a command or of an
/// opening can be read from its status, which is not 0.
pub fn numbers_read_back()
    ensures replies { (a : Reply) → reply_in (written a) ≡ Some a }
    ensures refusals { (e : Refusal) → refusal_in (status_of (Err e)) ≡ Some e }
    ensures none { refusal_in 0 ≡ None }
    ensures openings { (e : OpenRefusal) → open_refusal_in (open_status (Some e)) ≡ Some e }
    ensures no_opening { open_refusal_in 0 ≡ None }
{}

/// A call of status 0 was answered, by the reply that it wrote. For a call of any other status the
/// status gives the cause, and nothing has changed.
pub fn statuses_tell()
    ensures answered { (k : Command) (old new : Option Owned) (before after : Answer)
        → Called k old new before after 0
        → (a : Reply) × (after ≡ written a) × IsAnswered (heap_in old) k a (heap_in new) }
    ensures refused { (k : Command) (old new : Option Owned) (before after : Answer) (s : ℕ)
        → Called k old new before after (suc s)
        → (e : Refusal) × (refusal_in (suc s) ≡ Some e) × IsNotAsked (heap_in old) k e × (new ≡ old)
        × (after ≡ before) }
{}

/// An opening of status 0 opened a heap in a closed handle. For one of any other status the status
/// gives the cause, and nothing has changed. Status 9 does not occur, and 15 only in lent memory of
/// too few words.
pub fn openings_tell()
    ensures opened { (w : Option Width) (c : Width → Config) (old new : Option Owned)
        → Opened w c old new 0 → (old ≡ None) × IsOpened w c (heap_in new) }
    ensures refused { (w : Option Width) (c : Width → Config) (old new : Option Owned) (s : ℕ)
        → Opened w c old new (suc s)
        → (e : OpenRefusal) × (open_refusal_in (suc s) ≡ Some e) × IsNotOpened old w c e
        × (new ≡ old) }
    ensures one_thread { (w : Option Width) (blocks live object shared : ℕ)
        (old new : Option Owned)
        → ¬ Opened w (λ x. config_of x blocks live object shared) old new 9 }
    ensures enough { (w : Option Width) (c : Width → Config) (old new : Option Owned)
        → ¬ Opened w c old new 15 }
{}

/// A register is passed on as it is, and one that no heap has remains one that no heap has.
pub fn registers_are_not_truncated()
    ensures kept { (r : ℕ) → r < REGISTERS → register r ≡ r }
    ensures beyond { (r : ℕ) → REGISTERS ≤ r → REGISTERS ≤ register r }
{}

/// Calls of status 0 one after the other are requests of the heap one after the other: by
/// `control_heap::requests_have_one_history` they have one history.
pub fn calls_are_requests()
    ensures { (h z : Control) (ks : List Command) (ys : List Reply) → AllCalled h ks ys z
        → AllAnswered h ks ys z }
{}

/// A handle may go to another thread.
pub fn handles_cross(handle: Handle) -> Handle
    ensures { result ≡ handle }
{
    sent(handle)
}

fn sent<T: Send>(value: T) -> T
    ensures { result ≡ value }
{
    value
}

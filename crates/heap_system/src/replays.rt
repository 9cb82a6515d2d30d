//! Runs of one job by one list of turns, for the proofs above: the law is the contract of a
//! function that does nothing.

ghost use Rattle.std.specs.Prelude.{◌≡◌, ℕ, List, map};
ghost use Rattle.block_store.specs.declared.Config.{Config};
ghost use Rattle.never_heap.specs.declared.Command.{Command};
ghost use Rattle.heap_system.specs.Locals.{is_done};
ghost use Rattle.heap_system.specs.Machines.{Run, IsRunOf, local_in};
ghost use Rattle.heap_system.specs.Rooms.{threads_without_room};
ghost use Rattle.heap_system.specs.Systems.{logs_of};

/// The configuration, the traces and a list of turns tell a run: its order, its words, its names
/// and each thread, with its log and whether it is done. They leave open alone for how many blocks
/// a thread has room, beyond those of the largest object.
pub fn jobs_have_one_order()
    ensures order { (c : Config) (traces : List (List Command)) (ts : List ℕ) (r q : Run)
        → IsRunOf c traces ts r → IsRunOf c traces ts q → r.order ≡ q.order }
    ensures words { (c : Config) (traces : List (List Command)) (ts : List ℕ) (r q : Run)
        → IsRunOf c traces ts r → IsRunOf c traces ts q → r.state.words ≡ q.state.words }
    ensures names { (c : Config) (traces : List (List Command)) (ts : List ℕ) (r q : Run)
        → IsRunOf c traces ts r → IsRunOf c traces ts q → r.names ≡ q.names }
    ensures threads { (c : Config) (traces : List (List Command)) (ts : List ℕ) (r q : Run)
        → IsRunOf c traces ts r → IsRunOf c traces ts q
        → threads_without_room r.state ≡ threads_without_room q.state }
    ensures logs { (c : Config) (traces : List (List Command)) (ts : List ℕ) (r q : Run)
        → IsRunOf c traces ts r → IsRunOf c traces ts q → logs_of r.state ≡ logs_of q.state }
    ensures done { (c : Config) (traces : List (List Command)) (ts : List ℕ) (r q : Run)
        → IsRunOf c traces ts r → IsRunOf c traces ts q
        → (t : ℕ) → is_done (local_in c r t) ≡ is_done (local_in c q t) }
{}

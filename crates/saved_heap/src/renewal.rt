//! A heap that is built from a picture, in pieces.

ghost use Rattle.std.specs.Prelude.{◌≡◌, ◌+◌, ◌-◌, ◌<◌, ◌≤◌, ◌∷◌, [], length, min, take, true, IfOk, IfErr, OnOk, OnErr};
ghost use Rattle.never_heap.specs.declared.Command.{Command};
ghost use Rattle.never_heap.specs.Graphs.{Graph};
ghost use Rattle.never_heap.specs.Steps.{step};
ghost use Rattle.saved_heap.specs.heap_pictures.Pictures.{Content, content_of, graph_of, is_sound};
ghost use Rattle.saved_heap.specs.heap_pictures.Plans.{graph_after, plan_of};
ghost use Rattle.block_store.specs.declared.Config.{Config};
ghost use Rattle.control_heap.specs.Controls.{CanOpen, Control, asked};
ghost use Rattle.control_heap.specs.Unused.{IsUnused};
ghost use Rattle.control_heap.specs.graph_view.ShownGraph.{Leaves};
ghost use Rattle.saved_heap.specs.Follows.{HasFollowed, IsFollowed};
ghost use Rattle.saved_heap.specs.Renewals.{HasBuilt, IsBuilt, IsBuiltFrom, IsOpened, ShowOneGraph, ShowsPicture, ShowsUpToNames, rest_of};
ghost use Rattle.saved_heap.specs.declared.faults.OnFault.TheVariants.{NotAllowed, Used};
ghost use Rattle.saved_heap.specs.declared.faults.RenewFault.{RenewFault};
ghost use Rattle.saved_heap.specs.Enough.{IsEnough, IsOutOfMemory};
ghost use Rattle.saved_heap.specs.Faults.{AreAllowed, CannotBuild, CannotRenew, IsCopyFault, IsRenewFault, StopsAt, StopsBuilding};

mod follow;

use crate::heap_pictures::{
    Picture, commands_keep_names, names_follow_one_another, pictures_are_built, plan,
};
use crate::{CopyFault, OnFault, RenewFault, picture_of};
use block_store::Config;
use control_heap::{
    ControlHeap, ask, histories_are_right, lives_add_up, small_histories_are_shown,
};
pub use follow::Behind;
use never_heap::{Command, Reply, live_grows, opening_blocks_are_live};
use rate_plan::one_rate;
use std::alloc::Global;
use std::marker::Model;

/// A heap that is being built, one command after the other.
#[derive(Drop)]
pub struct Renewal {
    heap: ControlHeap,
    commands: Vec<Command>,
    done: usize,
}

impl Model for Renewal {
    ghost use Rattle.std.specs.Prelude.{◌-◌, length, vec_capacity};
    ghost use Rattle.saved_heap.specs.Renewals.{Copying, HasCopied};

    ghost Value = { Copying };

    ghost view = { λ s. record {
      heap = s.heap;
      commands = s.commands.items;
      done = s.done;
      room = vec_capacity s.commands - length s.commands.items;
    } };

    ghost invariant = { λ s. HasCopied
        (record {
          heap = s.heap;
          commands = s.commands.items;
          done = s.done;
          room = vec_capacity s.commands - length s.commands.items;
        }) };
}

/// A renewal that could not begin on a heap: what was given for it, and why.
#[derive(Drop)]
pub struct NotBegun {
    /// The heap, unchanged.
    pub heap: ControlHeap,
    /// The planned commands.
    pub commands: Vec<Command>,
    /// Why it could not begin.
    pub fault: OnFault,
}

// Whether a heap allows each of these commands.
fn are_allowed(commands: &[Command], c: &Config) -> bool
    ensures yes { result ≡ true → AreAllowed c.now commands.now }
    ensures no { AreAllowed c.now commands.now → result ≡ true }
{
    for command in commands {
        if !command.in_bounds(c) {
            return false;
        }
    }
    true
}

// Does a command.
fn next(heap: &mut ControlHeap, command: Command) -> Result<(), CopyFault>
    ensures config { heap.new.config ≡ heap.old.config }
    ensures one { asked heap.new ≤ asked heap.old + 1 }
    ensures leaves { OnOk result ((g : Graph) → Leaves heap.old g
        → Leaves heap.new (step g 0 command).0) }
    ensures built { OnOk result (HasBuilt heap.old (command ∷ []) heap.new) }
    ensures stops { IfErr result (IsCopyFault heap.old command heap.new) }
{
    match ask(heap, command) {
        Err(refused) => Err(CopyFault::Refused(refused)),
        Ok(reply) => match reply {
            Reply::Full(cycle) => Err(CopyFault::Full(cycle)),
            _ => Ok(()),
        },
    }
}

// Does the first of these commands, `most` at most. Returns how many it did.
fn copied(
    heap: &mut ControlHeap,
    commands: &[Command],
    most: usize,
) -> (usize, Result<(), CopyFault>)
    ensures config { heap.new.config ≡ heap.old.config }
    ensures few { asked heap.new ≤ asked heap.old + most }
    ensures low { result.0 ≤ min most (length commands.now) }
    ensures leaves { (g : Graph) → Leaves heap.old g
        → Leaves heap.new (graph_after g (take result.0 commands.now)) }
    ensures all { OnOk result.1 (result.0 ≡ min most (length commands.now)) }
    ensures built { OnOk result.1
        (HasBuilt heap.old (take result.0 commands.now) heap.new) }
    ensures most { OnErr result.1 (result.0 < most) }
    ensures stops { IfErr result.1 (StopsAt heap.old commands.now result.0 heap.new) }
{
    let count = most.min(commands.len());
    for done in 0..count {
        if let Err(fault) = next(heap, commands[done]) {
            return (done, Err(fault));
        }
    }
    (count, Ok(()))
}

// The fault of a configuration that does not allow the commands of a picture.
fn too_large(picture: &Picture, c: &Config) -> RenewFault
    requires sound { is_sound (content_of picture.now) ≡ true }
    requires few { length picture.now.objects.items ≤ 65534 }
    requires not { AreAllowed c.now (plan_of (content_of picture.now)) → ⊥ }
    ensures { IsRenewFault c.now (content_of picture.now) result }
{
    match picture.needs(c.width, 0) {
        Some(needs) => RenewFault::ObjectTooLarge {
            needed: needs.object,
            most: c.object,
        },
        None => unreachable!(),
    }
}

// The fault of a copy that stopped.
fn stopped(picture: &Picture, c: &Config, fault: CopyFault) -> RenewFault
    requires can { CanOpen c.now }
    requires sound { is_sound (content_of picture.now) ≡ true }
    requires few { length picture.now.objects.items ≤ 65534 }
    requires stops { StopsBuilding c.now (plan_of (content_of picture.now)) fault }
    ensures { CannotBuild c.now (content_of picture.now) result }
{
    live_grows();
    opening_blocks_are_live();
    one_rate();
    histories_are_right();
    small_histories_are_shown();
    lives_add_up();
    let cycle = match fault {
        CopyFault::Full(cycle) => cycle,
        CopyFault::Refused(refused) => return RenewFault::Copy(CopyFault::Refused(refused)),
    };
    match picture.needs(c.width, c.shared) {
        Some(needs) => RenewFault::LiveTooSmall {
            needed: needs.live,
            live: c.live,
            cycle,
        },
        None => unreachable!(),
    }
}

impl Renewal {
    /// Opens a heap, in which `copy` then builds what a picture shows.
    ///
    /// # Errors
    ///
    /// `Unsound` and `TooManyObjects`, which no heap allows; `ObjectTooLarge` where the heap does not
    /// allow objects as large as those of the picture and a table of all of them; `Open` where it
    /// cannot be opened; `NoMemory` where memory runs out.
    pub fn of(alloc: Global, picture: &Picture, c: Config) -> Result<Renewal, RenewFault>
        ensures sound { OnOk result (is_sound (content_of picture.now) ≡ true) }
        ensures commands { IfOk result (λ n. n.commands ≡ plan_of (content_of picture.now)) }
        ensures none { IfOk result (λ n. n.done ≡ 0) }
        ensures config { IfOk result (λ n. n.heap.config ≡ c) }
        ensures opened { IfOk result (λ n. IsOpened c n.heap) }
        ensures can { OnOk result (CanOpen c) }
        ensures few { OnOk result (length picture.now.objects.items ≤ 65534) }
        ensures allowed { OnOk result (AreAllowed c (plan_of (content_of picture.now))) }
        ensures followed { IfOk result (λ n. (from : Control)
            → IsFollowed from (content_of picture.now) n.commands from) }
        ensures refused { IfErr result (IsRenewFault c (content_of picture.now)) }
    {
        let objects = picture.objects.len();
        if objects > 65_534 {
            return Err(RenewFault::TooManyObjects {
                objects: objects as u64,
            });
        }
        if !picture.is_sound() {
            return Err(RenewFault::Unsound);
        }
        let commands = plan(alloc, picture)?;
        if !are_allowed(&commands, &c) {
            return Err(too_large(picture, &c));
        }
        match ControlHeap::open(alloc, c) {
            Err(fault) => Err(RenewFault::Open(fault)),
            Ok(heap) => Ok(Renewal {
                heap,
                commands,
                done: 0,
            }),
        }
    }

    /// Takes a heap on which no command was done yet, in which `copy` then does the commands that
    /// `plan` or `Planning` made of a picture. So nothing is opened or planned here.
    ///
    /// # Errors
    ///
    /// Both, with the first that applies: `Used` where a command was done on the heap (`used`), and
    /// `NotAllowed` where it does not allow each of the commands (`refused`).
    pub fn on(heap: ControlHeap, commands: Vec<Command>) -> Result<Renewal, NotBegun>
        ensures commands { IfOk result (λ n. n.commands ≡ commands.items) }
        ensures none { IfOk result (λ n. n.done ≡ 0) }
        ensures heap { IfOk result (λ n. n.heap ≡ heap) }
        ensures opened { IfOk result (λ n. IsOpened heap.config n.heap) }
        ensures followed { IfOk result (λ n. (from : Control) (p : Content)
            → n.commands ≡ plan_of p → IsFollowed from p n.commands from) }
        ensures allowed { OnOk result (AreAllowed heap.config commands.items) }
        ensures used { IfErr result (λ n. n.fault ≡ Used → IsUnused heap → ⊥) }
        ensures refused { IfErr result (λ n. n.fault ≡ NotAllowed
            → IsUnused heap × (AreAllowed heap.config commands.items → ⊥)) }
        ensures same { IfErr result (λ n. n.heap ≡ heap) }
        ensures plan { IfErr result (λ n. n.commands.items ≡ commands.items) }
    {
        if !heap.is_unused() {
            return Err(NotBegun {
                heap,
                commands,
                fault: OnFault::Used,
            });
        }
        if !are_allowed(&commands, heap.config()) {
            return Err(NotBegun {
                heap,
                commands,
                fault: OnFault::NotAllowed,
            });
        }
        Ok(Renewal {
            heap,
            commands,
            done: 0,
        })
    }

    /// How many commands are left to do.
    pub fn left(&self) -> usize
        ensures { result ≡ length self.now.commands - self.now.done }
    {
        self.commands.len() - self.done
    }

    /// Does at most `most` commands on the new heap (`built`), and returns how many are left. Its
    /// source is not read any more.
    ///
    /// # Errors
    ///
    /// Of the next command (`stops`): `Full` where it was answered so, and `Refused` where it was
    /// refused. The new heap keeps its graph, and `copy` may be called again.
    pub fn copy(&mut self, most: usize) -> Result<usize, CopyFault>
        ensures commands { self.new.commands ≡ self.old.commands }
        ensures room { self.new.room ≡ self.old.room }
        ensures config { self.new.heap.config ≡ self.old.heap.config }
        ensures few { asked self.new.heap ≤ asked self.old.heap + most }
        ensures more { self.old.done ≤ self.new.done }
        ensures left { IfOk result (λ n. n ≡ length self.new.commands - self.new.done) }
        ensures all { OnOk result (self.new.done
            ≡ min (self.old.done + most) (length self.old.commands)) }
        ensures built { OnOk result (HasBuilt self.old.heap
            (take (self.new.done - self.old.done) (rest_of self.old)) self.new.heap) }
        ensures early { OnErr result (self.new.done < self.old.done + most) }
        ensures stops { IfErr result (StopsAt self.old.heap (rest_of self.old)
            (self.new.done - self.old.done) self.new.heap) }
    {
        let (more, end) = copied(&mut self.heap, &self.commands[self.done..], most);
        self.done += more;
        match end {
            Ok(()) => Ok(self.left()),
            Err(fault) => Err(fault),
        }
    }

    /// The new heap, in which all commands are done. It shows what the picture shows, up to names.
    ///
    /// # Errors
    ///
    /// The renewal, unchanged, where commands are left to do.
    pub fn finish(self) -> Result<ControlHeap, Renewal>
        ensures config { IfOk result (λ h. h.config ≡ self.heap.config) }
        ensures heap { IfOk result (λ h. h ≡ self.heap) }
        ensures all { OnOk result (self.done ≡ length self.commands) }
        ensures shown { IfOk result (ShowsPicture self.commands) }
        ensures followed { IfOk result (HasFollowed self.commands) }
        ensures left { OnErr result (1 ≤ length self.commands - self.done) }
        ensures same { IfErr result (λ n. n ≡ self) }
    {
        pictures_are_built();
        names_follow_one_another();
        commands_keep_names();
        histories_are_right();
        if self.done < self.commands.len() {
            return Err(self);
        }
        Ok(self.heap)
    }
}

/// A heap that can be opened and allows what a picture needs is enough to build it: nothing but
/// memory may be lacking.
pub fn needs_are_enough()
    ensures { (c : Config) (p : Content) (f : RenewFault) → IsEnough c p → CannotBuild c p f
        → IsOutOfMemory f }
{
    live_grows();
    opening_blocks_are_live();
    one_rate();
    histories_are_right();
    small_histories_are_shown();
    lives_add_up();
}

/// A heap of a configuration that shows what a picture shows, up to names. It does all commands at
/// once.
///
/// # Errors
///
/// As for `Renewal::of` and `Renewal::copy`; `LiveTooSmall` where `copy` has `Full`. Where the
/// configuration can be opened and allows what the picture needs (`Picture::needs`), only memory may
/// be lacking (`enough`).
pub fn build(alloc: Global, picture: &Picture, c: Config) -> Result<ControlHeap, RenewFault>
    ensures config { IfOk result (λ h. h.config ≡ c) }
    ensures shown { IfOk result (λ h. ShowsUpToNames h (graph_of (content_of picture.now))) }
    ensures built { IfOk result (IsBuilt c (plan_of (content_of picture.now))) }
    ensures refused { IfErr result (CannotBuild c (content_of picture.now)) }
    ensures enough { IsEnough c (content_of picture.now) → IfErr result IsOutOfMemory }
{
    needs_are_enough();
    let mut renewal = Renewal::of(alloc, picture, c)?;
    if let Err(fault) = renewal.copy(usize::MAX) {
        return Err(stopped(picture, &c, fault));
    }
    match renewal.finish() {
        Ok(heap) => Ok(heap),
        Err(_) => unreachable!(),
    }
}

/// A heap of a configuration that shows what another heap shows, up to names. It copies all at
/// once; `picture_of` and `Renewal` do it in pieces.
///
/// # Errors
///
/// As for `picture_of` and `build`.
pub fn renew(alloc: Global, from: &ControlHeap, c: Config) -> Result<ControlHeap, RenewFault>
    ensures config { IfOk result (λ h. h.config ≡ c) }
    ensures shown { IfOk result (ShowOneGraph from.now) }
    ensures built { IfOk result (IsBuiltFrom from.now c) }
    ensures refused { IfErr result (CannotRenew from.now c) }
{
    names_follow_one_another();
    let picture = picture_of(alloc, from)?;
    build(alloc, &picture, c)
}

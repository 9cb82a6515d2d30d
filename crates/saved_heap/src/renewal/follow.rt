//! Commands that the source does while it is copied, and that the copy does after those that build
//! the picture.

ghost use Rattle.std.specs.Prelude.{◌≡◌, ◌≤◌, ◌-◌, ◌++◌, false, length, OnOk, OnErr};
ghost use Rattle.never_heap.specs.Histories.{is_full};
ghost use Rattle.saved_heap.specs.heap_pictures.Pictures.{Content};
ghost use Rattle.control_heap.specs.Controls.{Control};
ghost use Rattle.saved_heap.specs.Follows.{HasReplied, IsFollowed, noted};

use super::Renewal;
use block_store::OutOfMemory;
use never_heap::{Command, Reply};
use std::error::Error;
use std::fmt;

/// There was no room to note a command. Make room and note it before the next; else the copy lacks
/// it, and has to begin again.
#[derive(Clone, Copy, Debug, PartialEq, Eq)]
pub struct Behind;

impl fmt::Display for Behind {
    ghost use Rattle.std.specs.Prelude.{Some};
    ghost use Rattle.saved_heap.specs.Faults.{behind_text};

    ghost output = { λ _. Some behind_text };

    fn fmt<W: fmt::Write>(&self, f: &mut fmt::Formatter<W>) -> fmt::Result {
        f.write_str("no room to note a command; make room and note it, or begin again")
    }
}

impl Error for Behind {}

impl Renewal {
    /// Takes room for this many commands that the source will do. If after each of its commands
    /// `copy` does m commands, and m is 2 at least, room for `left() / (m - 1) + 1` is enough.
    ///
    /// # Errors
    ///
    /// `OutOfMemory` where there is no memory for them.
    pub fn make_room(&mut self, commands: usize) -> Result<(), OutOfMemory>
        ensures heap { self.new.heap ≡ self.old.heap }
        ensures commands { self.new.commands ≡ self.old.commands }
        ensures done { self.new.done ≡ self.old.done }
        ensures room { OnOk result (commands ≤ self.new.room) }
        ensures more { self.old.room ≤ self.new.room }
    {
        self.commands.reserve(commands)?;
        Ok(())
    }

    /// Notes a command that the source did since its picture was taken, and its reply; `copy` does
    /// it after those that were noted before, and stops for good at one that the new heap does not
    /// allow. One that was answered `Full` left the source's graph unchanged, and is ignored. No
    /// memory is allocated.
    ///
    /// # Errors
    ///
    /// `Behind` where no room is left.
    pub fn follow(&mut self, command: Command, reply: Reply) -> Result<(), Behind>
        ensures heap { self.new.heap ≡ self.old.heap }
        ensures done { self.new.done ≡ self.old.done }
        ensures noted { OnOk result (self.new.commands ≡ self.old.commands ++ noted command reply) }
        ensures followed { OnOk result ((from old new : Control) (p : Content)
            → IsFollowed from p self.old.commands old → HasReplied old command reply new
            → IsFollowed from p self.new.commands new) }
        ensures room { OnOk result (self.new.room
            ≡ self.old.room - length (noted command reply)) }
        ensures behind { OnErr result ((self.old.room ≡ 0) × (is_full reply ≡ false)) }
        ensures unchanged { OnErr result (self.new ≡ self.old) }
    {
        if matches!(reply, Reply::Full(_)) {
            return Ok(());
        }
        if self.commands.len() >= self.commands.capacity() {
            return Err(Behind);
        }
        self.commands.push_reserved(command);
        Ok(())
    }
}

//! Slots for handles: how they are opened, used and closed.

ghost use Rattle.std.specs.Prelude.{◌≡◌, ◌<◌, ◌∷◌, [], ◌↔◌, IsTrue, IfOk, IfErr, OnOk, OnErr, IfSome};
ghost use Rattle.shared_heap.specs.Workers.{CanOpen};
ghost use Rattle.array_tables.specs.handle_table.Handles.{Matched, Found};
ghost use Rattle.live_tables.specs.declared.handles.request.HandleRequest.TheVariants as asks;
ghost use Rattle.live_tables.specs.rows.Workers.{AreEachOnce, AreFresh, AreInOrder, IsNext, IsOf, IsSameWorker};
ghost use Rattle.live_tables.specs.handles.Live.{CanDo, HasDone, IsInRange, IsMade, IsOpenFault, IsRefused, IsTableInRange, answer_by, commands_of, deed_of, handles, known_slot, opened_config, slots_of};

use crate::handles::commands::{
    evict_commands, found, id_of, in_range, is_known, is_yes, make_commands, place,
    release_commands, see_commands, take_commands,
};
use crate::handles::faults::{OpenFault, Refused};
use crate::handles::kind::{HandleWorker, Handles, LiveHandles};
use crate::handles::request::HandleRequest;
use crate::table::{LiveTable, opened};
use crate::worker::TableWorker;
use array_trees::blocks_of_array;
use block_store::{Config, Width};
use never_heap::{Command, Reply};
use std::alloc::Global;
use std::sync::Wait;

impl TableWorker<Handles> {
    /// The slot in which the worker made a handle last. `None` if it has not made it.
    pub fn slot_of(&self, handle: u8) -> Option<u32>
        requires { handle < 8 }
        ensures { result ≡ known_slot self.now handle }
    {
        self.own.slots[handle as usize]
    }
}

// Whether the worker has made the handle that a request names.
fn is_made(who: &HandleWorker, request: &HandleRequest) -> bool
    requires { IsInRange (slots_of who.now) request.now }
    ensures { IsTrue result ↔ IsMade who.now request.now }
{
    match *request {
        HandleRequest::See { handle } | HandleRequest::Release { handle } => is_known(who.slot_of(
            handle,
        )),
        _ => true,
    }
}

// Checks the range of a request, and that the worker has made its handle.
fn checked(who: &HandleWorker, request: &HandleRequest) -> Result<(), Refused>
    ensures can { OnOk result
        (IsInRange (slots_of who.now) request.now × IsMade who.now request.now) }
    ensures next { OnOk result (IsNext handles who.now (deed_of who.now request.now)) }
    ensures refused { IfErr result (IsRefused who.now request.now) }
{
    if !in_range(request, who.worker.config().shared) {
        return Err(Refused::OutOfRange);
    }
    if !is_made(who, request) {
        return Err(Refused::NotMade);
    }
    Ok(())
}

// Does what a request asks by its commands, if the worker's lifetime allows them. Returns the last
// three replies.
fn done<R: Wait>(
    rt: &R,
    table: &LiveHandles,
    who: &mut HandleWorker,
    request: HandleRequest,
    commands: &[Command],
) -> Result<(Reply, Reply, Reply), Refused>
    requires own { IsOf table.now who.old }
    requires checked { IsInRange (slots_of who.old) request × IsMade who.old request }
    requires next { IsNext handles who.old (deed_of who.old request) }
    requires commands { commands.now ≡ commands_of (deed_of who.old request ∷ []) }
    ensures same { IsSameWorker who.old who.new }
    ensures can { OnOk result (CanDo who.old request) }
    ensures did { IfOk result
        (λ three. HasDone who.old (deed_of who.old request)
        (answer_by (deed_of who.old request) three) who.new) }
    ensures refused { IfErr result (IsRefused who.old request) }
    ensures unchanged { OnErr result (who.new ≡ who.old) }
{
    match table.does(rt, who, request, commands) {
        Some(replies) => Ok(replies),
        None => Err(Refused::NoLifeLeft),
    }
}

// The configuration of the heap. It has four times as many blocks as may be live.
fn config_of(slots: u32, threads: u32) -> Config
    requires { IsTableInRange slots threads }
    ensures { result ≡ opened_config threads slots }
{
    let live = 22 * threads + blocks_of_array(Width::Eight, slots) + 2 * slots;
    Config {
        width: Width::Eight,
        threads,
        blocks: 4 * live,
        live,
        object: 1,
        shared: slots,
    }
}

// The heap of slots in range can be opened.
fn can_be_opened(slots: u32, threads: u32)
    requires { IsTableInRange slots threads }
    ensures { CanOpen (opened_config threads slots) }
{}

// Opens slots, with their workers. `None` if an allocation failed.
fn opened_slots(alloc: Global, slots: u32, threads: u32) -> Option<(LiveHandles, Vec<HandleWorker>)>
    requires { IsTableInRange slots threads }
    ensures can { CanOpen (opened_config threads slots) }
    ensures config { IfSome result (λ r. r.0.config ≡ opened_config threads slots) }
    ensures workers { IfSome result (λ r. AreInOrder r.0 r.1.items) }
    ensures each { IfSome result (λ r. AreEachOnce r.0 r.1.items) }
    ensures fresh { IfSome result (λ r. AreFresh r.1.items) }
{
    can_be_opened(slots, threads);
    opened(alloc, config_of(slots, threads))
}

impl LiveTable<Handles> {
    /// Opens 0 to 512 empty slots. Returns them with one worker for each of 1 to 16 `threads`, in
    /// thread order. No worker has done anything yet. No later call allocates.
    ///
    /// # Errors
    ///
    /// `OutOfRange` exactly if `slots` or `threads` is out of range, and `NoMemory` if an
    /// allocation failed.
    pub fn open(
        alloc: Global,
        slots: u32,
        threads: u32,
    ) -> Result<(LiveHandles, Vec<HandleWorker>), OpenFault>
        ensures can { OnOk result (IsTableInRange slots threads) }
        ensures config { IfOk result (λ r. r.0.config ≡ opened_config threads slots) }
        ensures workers { IfOk result (λ r. AreInOrder r.0 r.1.items) }
        ensures each { IfOk result (λ r. AreEachOnce r.0 r.1.items) }
        ensures fresh { IfOk result (λ r. AreFresh r.1.items) }
        ensures refused { IfErr result (IsOpenFault slots threads) }
    {
        if slots > 512 || threads == 0 || threads > 16 {
            return Err(OpenFault::OutOfRange);
        }
        match opened_slots(alloc, slots, threads) {
            Some(table) => Ok(table),
            None => Err(OpenFault::NoMemory),
        }
    }

    /// Makes an object with a number below 2^62, and a handle to it, which is the worker's handle
    /// of this number, 0 to 7, from now on. Returns whether it fills the slot: it does if the slot
    /// is free.
    ///
    /// Other threads may use other workers meanwhile. The call may wait for them.
    ///
    /// # Errors
    ///
    /// `OutOfRange` exactly if there is no such slot or handle or the number is 2^62 or more, and
    /// `NoLifeLeft` exactly if the request is in range and exceeds the worker's lifetime. The
    /// worker is then unchanged.
    pub fn make<R: Wait>(
        &self,
        rt: &R,
        who: &mut HandleWorker,
        handle: u8,
        slot: u32,
        number: u64,
    ) -> Result<bool, Refused>
        requires { IsOf self.now who.old }
        ensures same { IsSameWorker who.old who.new }
        ensures can { OnOk result (CanDo who.old (asks.Make handle slot number)) }
        ensures did { IfOk result (λ filled. HasDone who.old
            (deed_of who.old (asks.Make handle slot number)) (Matched filled) who.new) }
        ensures refused { IfErr result (IsRefused who.old (asks.Make handle slot number)) }
        ensures unchanged { OnErr result (who.new ≡ who.old) }
    {
        let request = HandleRequest::Make {
            handle,
            slot,
            number,
        };
        checked(who, &request)?;
        let id = id_of(who.thread(), who.own.made);
        let commands = make_commands(id, handle, slot, number);
        let (_, _, last) = done(rt, self, who, request, &commands)?;
        Ok(is_yes(last))
    }

    /// Returns whether the worker's handle is still in the slot in which it was made. It is not if
    /// the slot was not free then, or if the handle was released or evicted.
    ///
    /// # Errors
    ///
    /// `OutOfRange` exactly if there is no such handle, `NotMade` exactly if the worker has not
    /// made it, and `NoLifeLeft` as of `make`.
    pub fn see<R: Wait>(&self, rt: &R, who: &mut HandleWorker, handle: u8) -> Result<bool, Refused>
        requires { IsOf self.now who.old }
        ensures same { IsSameWorker who.old who.new }
        ensures can { OnOk result (CanDo who.old (asks.See handle)) }
        ensures did { IfOk result (λ live. HasDone who.old
            (deed_of who.old (asks.See handle)) (Matched live) who.new) }
        ensures refused { IfErr result (IsRefused who.old (asks.See handle)) }
        ensures unchanged { OnErr result (who.new ≡ who.old) }
    {
        let request = HandleRequest::See { handle };
        checked(who, &request)?;
        let slot = place(who.slot_of(handle));
        let commands = see_commands(handle, slot);
        let (_, _, last) = done(rt, self, who, request, &commands)?;
        Ok(is_yes(last))
    }

    /// Empties the slot in which the worker's handle was made, if the handle is still there.
    /// Returns whether it was.
    ///
    /// # Errors
    ///
    /// As of `see`.
    pub fn release<R: Wait>(
        &self,
        rt: &R,
        who: &mut HandleWorker,
        handle: u8,
    ) -> Result<bool, Refused>
        requires { IsOf self.now who.old }
        ensures same { IsSameWorker who.old who.new }
        ensures can { OnOk result (CanDo who.old (asks.Release handle)) }
        ensures did { IfOk result (λ live. HasDone who.old
            (deed_of who.old (asks.Release handle)) (Matched live) who.new) }
        ensures refused { IfErr result (IsRefused who.old (asks.Release handle)) }
        ensures unchanged { OnErr result (who.new ≡ who.old) }
    {
        let request = HandleRequest::Release { handle };
        checked(who, &request)?;
        let slot = place(who.slot_of(handle));
        let commands = release_commands(handle, slot);
        let (_, _, last) = done(rt, self, who, request, &commands)?;
        Ok(is_yes(last))
    }

    /// Returns the id and the number of the handle that is in a slot. `None` if it is empty.
    ///
    /// # Errors
    ///
    /// `OutOfRange` exactly if there is no such slot, and `NoLifeLeft` as of `make`.
    pub fn take<R: Wait>(
        &self,
        rt: &R,
        who: &mut HandleWorker,
        slot: u32,
    ) -> Result<Option<(u64, u64)>, Refused>
        requires { IsOf self.now who.old }
        ensures same { IsSameWorker who.old who.new }
        ensures can { OnOk result (CanDo who.old (asks.Take slot)) }
        ensures did { IfOk result (λ found. HasDone who.old
            (deed_of who.old (asks.Take slot)) (Found found) who.new) }
        ensures refused { IfErr result (IsRefused who.old (asks.Take slot)) }
        ensures unchanged { OnErr result (who.new ≡ who.old) }
    {
        let request = HandleRequest::Take { slot };
        checked(who, &request)?;
        let commands = take_commands(slot);
        let (id, _, number) = done(rt, self, who, request, &commands)?;
        Ok(found(id, number))
    }

    /// Returns what `take` does, and empties the slot.
    ///
    /// # Errors
    ///
    /// As of `take`.
    pub fn evict<R: Wait>(
        &self,
        rt: &R,
        who: &mut HandleWorker,
        slot: u32,
    ) -> Result<Option<(u64, u64)>, Refused>
        requires { IsOf self.now who.old }
        ensures same { IsSameWorker who.old who.new }
        ensures can { OnOk result (CanDo who.old (asks.Evict slot)) }
        ensures did { IfOk result (λ found. HasDone who.old
            (deed_of who.old (asks.Evict slot)) (Found found) who.new) }
        ensures refused { IfErr result (IsRefused who.old (asks.Evict slot)) }
        ensures unchanged { OnErr result (who.new ≡ who.old) }
    {
        let request = HandleRequest::Evict { slot };
        checked(who, &request)?;
        let commands = evict_commands(slot);
        let (id, _, number) = done(rt, self, who, request, &commands)?;
        Ok(found(id, number))
    }
}

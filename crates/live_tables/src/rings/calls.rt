//! Calls on rings.

ghost use Rattle.std.specs.Prelude.{◌≡◌, ◌∷◌, [], None, IfOk, IfErr, OnOk, OnErr, IfSome};
ghost use Rattle.shared_heap.specs.Workers.{CanOpen};
ghost use Rattle.array_tables.specs.number_rings.Rings.{ring_config};
ghost use Rattle.live_tables.specs.declared.rings.request.RingRequest.TheVariants as asks;
ghost use Rattle.live_tables.specs.rows.Workers.{AreEachOnce, AreFresh, AreInOrder, IsNext, IsOf, IsSameWorker, threads_of};
ghost use Rattle.live_tables.specs.rings.Live.{AreRingsInRange, CanDo, HasDone, IsInRange, IsOpenFault, IsRefused, answer_by, commands_of, kept_by, operation_of, rings};

use crate::rings::commands::{in_range, keep_commands, next_place, number, recall_commands};
use crate::rings::faults::{OpenFault, Refused};
use crate::rings::kind::{LiveRings, RingWorker, Rings};
use crate::rings::request::RingRequest;
use crate::table::{LiveTable, opened};
use crate::worker::TableWorker;
use array_tables::number_rings::config_of_rings;
use never_heap::{Command, Reply};
use std::alloc::Global;
use std::sync::Wait;

impl TableWorker<Rings> {
    /// How many numbers it kept.
    pub fn kept(&self) -> u64
        ensures { result ≡ kept_by self.now.done }
    {
        self.own
    }
}

// Checks the range of a request.
fn checked(who: &RingWorker, request: &RingRequest) -> Result<(), Refused>
    ensures can { OnOk result (IsInRange (threads_of who.now) request.now) }
    ensures next { OnOk result (IsNext rings who.now (operation_of who.now request.now)) }
    ensures refused { IfErr result (IsRefused who.now request.now) }
{
    if !in_range(request, who.worker.config().threads) {
        return Err(Refused::OutOfRange);
    }
    Ok(())
}

// Does what a request asks by its commands, if the worker's lifetime allows them. Returns the last
// three replies.
fn done<R: Wait>(
    rt: &R,
    table: &LiveRings,
    who: &mut RingWorker,
    request: RingRequest,
    commands: &[Command],
) -> Result<(Reply, Reply, Reply), Refused>
    requires own { IsOf table.now who.old }
    requires checked { IsInRange (threads_of who.old) request }
    requires next { IsNext rings who.old (operation_of who.old request) }
    requires commands { commands.now ≡ commands_of (operation_of who.old request ∷ []) }
    ensures same { IsSameWorker who.old who.new }
    ensures can { OnOk result (CanDo who.old request) }
    ensures did { IfOk result (λ three. HasDone who.old (operation_of who.old request)
        (answer_by (operation_of who.old request) three) who.new) }
    ensures refused { IfErr result (IsRefused who.old request) }
    ensures unchanged { OnErr result (who.new ≡ who.old) }
{
    match table.does(rt, who, request, commands) {
        Some(replies) => Ok(replies),
        None => Err(Refused::NoLifeLeft),
    }
}

// The heap of rings in range can be opened.
fn can_be_opened(threads: u32)
    requires { AreRingsInRange threads }
    ensures { CanOpen (ring_config threads) }
{}

// Opens rings, with their workers. `None` if an allocation failed.
fn opened_rings(alloc: Global, threads: u32) -> Option<(LiveRings, Vec<RingWorker>)>
    requires { AreRingsInRange threads }
    ensures can { CanOpen (ring_config threads) }
    ensures config { IfSome result (λ r. r.0.config ≡ ring_config threads) }
    ensures workers { IfSome result (λ r. AreInOrder r.0 r.1.items) }
    ensures each { IfSome result (λ r. AreEachOnce r.0 r.1.items) }
    ensures fresh { IfSome result (λ r. AreFresh r.1.items) }
{
    can_be_opened(threads);
    opened(alloc, config_of_rings(threads))
}

impl LiveTable<Rings> {
    /// Opens an empty ring for each of 1 to 16 `threads`. Returns them with one worker for each
    /// thread, in thread order. No worker has done anything yet. No later call allocates.
    ///
    /// # Errors
    ///
    /// `OutOfRange` exactly if `threads` is out of range, and `NoMemory` if an allocation failed.
    pub fn open(alloc: Global, threads: u32) -> Result<(LiveRings, Vec<RingWorker>), OpenFault>
        ensures can { OnOk result (AreRingsInRange threads) }
        ensures config { IfOk result (λ r. r.0.config ≡ ring_config threads) }
        ensures workers { IfOk result (λ r. AreInOrder r.0 r.1.items) }
        ensures each { IfOk result (λ r. AreEachOnce r.0 r.1.items) }
        ensures fresh { IfOk result (λ r. AreFresh r.1.items) }
        ensures refused { IfErr result (IsOpenFault threads) }
    {
        if threads == 0 || threads > 16 {
            return Err(OpenFault::OutOfRange);
        }
        match opened_rings(alloc, threads) {
            Some(rings) => Ok(rings),
            None => Err(OpenFault::NoMemory),
        }
    }

    /// Keeps a number in the worker's own ring: its number j, counted from 0, at place j mod 8.
    ///
    /// Other threads may use other workers meanwhile. The call may wait for them.
    ///
    /// # Errors
    ///
    /// `OutOfRange` exactly if the number is 2^62 or more, and `NoLifeLeft` exactly if the request
    /// is in range and exceeds the worker's lifetime. The worker is then unchanged.
    pub fn keep<R: Wait>(&self, rt: &R, who: &mut RingWorker, number: u64) -> Result<(), Refused>
        requires { IsOf self.now who.old }
        ensures same { IsSameWorker who.old who.new }
        ensures can { OnOk result (CanDo who.old (asks.Keep number)) }
        ensures did { OnOk result
            (HasDone who.old (operation_of who.old (asks.Keep number)) None who.new) }
        ensures refused { IfErr result (IsRefused who.old (asks.Keep number)) }
        ensures unchanged { OnErr result (who.new ≡ who.old) }
    {
        let request = RingRequest::Keep { number };
        checked(who, &request)?;
        let commands = keep_commands(next_place(who.thread(), who.own), number);
        done(rt, self, who, request, &commands)?;
        Ok(())
    }

    /// Returns the number that is at a place, 0 to 7, of a thread's ring. `None` if the thread has
    /// kept none there yet.
    ///
    /// # Errors
    ///
    /// `OutOfRange` exactly if there is no such thread or place, and `NoLifeLeft` as of `keep`.
    pub fn recall<R: Wait>(
        &self,
        rt: &R,
        who: &mut RingWorker,
        thread: u32,
        place: u32,
    ) -> Result<Option<u64>, Refused>
        requires { IsOf self.now who.old }
        ensures same { IsSameWorker who.old who.new }
        ensures can { OnOk result (CanDo who.old (asks.Recall thread place)) }
        ensures did { IfOk result (λ number. HasDone who.old
            (operation_of who.old (asks.Recall thread place)) number who.new) }
        ensures refused { IfErr result (IsRefused who.old (asks.Recall thread place)) }
        ensures unchanged { OnErr result (who.new ≡ who.old) }
    {
        let request = RingRequest::Recall { thread, place };
        checked(who, &request)?;
        let commands = recall_commands(u64::from(thread) * 8 + u64::from(place));
        let (_, _, last) = done(rt, self, who, request, &commands)?;
        Ok(number(last))
    }
}

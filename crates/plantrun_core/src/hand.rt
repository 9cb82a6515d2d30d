//! A worker of the table with a log of what it did.

ghost use Rattle.std.specs.Prelude.{◌≡◌, ◌<◌, ◌^◌, length, IfErr, IfOk};
ghost use Rattle.std.specs.Vec.{vec_capacity};
ghost use Rattle.array_tables.specs.tag_table.Tables.{IsOperationInRange};
ghost use Rattle.live_tables.specs.tags.Live.{HasDone, HasLife, IsRefused};
ghost use Rattle.live_tables.specs.rows.Workers.{IsOf, IsSameWorker, places_of};
ghost use Rattle.shared_heap.specs.Workers.{HeapState};
ghost use Rattle.plantrun_core.specs.Logs.{HasAsked, HasGoneOn, HasLogged, IsHandOf};

use crate::calls::Done;
use crate::clock::nanoseconds;
use crate::telling::Figures;
use array_tables::tag_table::Operation;
use live_tables::tags::{LiveTags, Refused, TagWorker};
use std::sync::Wait;
use std::time::Clock;

/// A worker, all that it did with the answers, and its figures.
#[derive(Drop)]
pub(crate) struct Hand {
    pub(crate) who: TagWorker,
    pub(crate) calls: Vec<Done>,
    pub(crate) figures: Figures,
}

/// Asks the table to do an operation.
fn ask<R: Wait>(
    rt: &R,
    table: &LiveTags,
    who: &mut TagWorker,
    op: Operation,
) -> Result<Option<(u64, u64)>, Refused>
    requires { IsOf table.now who.old }
    ensures same { IsSameWorker who.old who.new }
    ensures did { IfOk result (λ tag. HasDone who.old op tag who.new) }
    ensures refused { IfErr result (IsRefused who.old op) }
{
    match op {
        Operation::Write {
            place,
            value,
            quality,
        } => table.write(rt, who, place, value, quality),
        Operation::Clear { place } => table.clear(rt, who, place),
        Operation::Read { place } => table.read(rt, who, place),
    }
}

/// Does an operation, which the table does not refuse.
fn done<R: Wait>(rt: &R, table: &LiveTags, who: &mut TagWorker, op: Operation) -> Option<(u64, u64)>
    requires own { IsOf table.now who.old }
    requires range { IsOperationInRange (places_of who.old) op }
    requires life { HasLife who.old op }
    ensures same { IsSameWorker who.old who.new }
    ensures did { HasDone who.old op result who.new }
{
    match ask(rt, table, who, op) {
        Ok(answer) => answer,
        Err(_) => unreachable!(),
    }
}

/// Does an operation, and draws a stamp when it has returned.
fn stamped<R: Wait>(rt: &R, table: &LiveTags, who: &mut TagWorker, op: Operation) -> Done
    requires own { IsOf table.now who.old }
    requires range { IsOperationInRange (places_of who.old) op }
    requires life { HasLife who.old op }
    ensures same { IsSameWorker who.old who.new }
    ensures operation { result.operation ≡ op }
    ensures asked { HasAsked who.old result who.new }
{
    let answer = done(rt, table, who, op);
    let stamp = table.stamp(who);
    Done {
        operation: op,
        answer,
        stamp,
    }
}

impl Hand {
    /// Does an operation, and logs it. The log has room for it.
    pub(crate) fn does<R: Wait + Clock>(
        &mut self,
        rt: &R,
        table: &LiveTags,
        op: Operation,
    ) -> Option<(u64, u64)>
        requires own { IsHandOf table.now self.old }
        requires range { IsOperationInRange 48 op }
        requires few { length self.old.calls.items < 2 ^ 24 }
        requires room { length self.old.calls.items < vec_capacity self.old.calls }
        ensures own { IsHandOf table.now self.new }
        ensures same { IsSameWorker self.old.who self.new.who }
        ensures capacity { vec_capacity self.new.calls ≡ vec_capacity self.old.calls }
        ensures on { HasGoneOn self.old.who self.new.who }
        ensures did { HasLogged op result self.old.calls.items self.new.calls.items }
    {
        let began = nanoseconds(rt);
        let call = stamped(rt, table, &mut self.who, op);
        let took = nanoseconds(rt).saturating_sub(began);
        self.figures.longest = self.figures.longest.max(took);
        self.calls.push_reserved(call);
        call.answer
    }

    /// Counts a tick that ended now, or a reading that was written.
    pub(crate) fn counts(&mut self, now: u64, next: u64)
        ensures who { self.new.who ≡ self.old.who }
        ensures calls { self.new.calls ≡ self.old.calls }
        ensures own { (t : HeapState) → IsHandOf t self.old → IsHandOf t self.new }
    {
        self.figures.end(now, next);
    }
}

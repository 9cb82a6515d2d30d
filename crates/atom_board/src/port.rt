//! How one mutator reaches the shared words.

use crate::rules::{Law, Turned, View};
use atomic_table::{Seat, Shared};
use heap_machine::{Memory, Op};
use heap_system::{System, ThreadMemory};

/// The shared words as a memory for the one thread that the seat has.
#[derive(Drop)]
pub(crate) struct Port {
    pub(crate) seat: Seat<(), View>,
}

impl Memory for Port {
    ghost use Rattle.atom_board.specs.Ports.{MayTurn, HasTurned};

    type Shared = Shared<(), View, System, Law>;

    ghost may = { λ p s op. MayTurn p.seat.me p.seat.table_id s.table_id op };

    ghost acts = { λ p s op word after. HasTurned p.seat.table_id p.seat.id p.seat.me word
        after.seat.table_id after.seat.id after.seat.me };

    #[inline(always)]
    fn act(&mut self, shared: &Shared<(), View, System, Law>, op: &Op) -> u64 {
        let seat = &mut self.seat;
        match *op {
            Op::Load { place } => shared.load::<Turned>(seat, place),
            Op::Exchange { place, new } => shared.swap::<Turned>(seat, place, new),
            Op::CompareExchange { place, old, new } => {
                shared.compare_exchange::<Turned>(seat, place, old, new)
            }
            Op::FetchAdd { place, by } => shared.fetch_add::<Turned>(seat, place, by),
            Op::FetchSub { place, by } => shared.fetch_sub::<Turned>(seat, place, by),
        }
    }
}

impl ThreadMemory for Port {
    ghost use Rattle.atom_board.specs.Ports.{HasThread};
    ghost use Rattle.atom_board.specs.ThreadMemories.{may_turn, reads_well, still_has};

    ghost stands = { λ p s l. HasThread p.seat.me p.seat.table_id s.table_id l };

    ghost leads = { λ p s l has going low. record {
      allowed = may_turn p.seat.me p.seat.table_id s.table_id l has going low;
      reads = λ w n turned. reads_well p.seat.me p.seat.table_id s.table_id l has w n.seat.me
          turned.2;
      on = λ w n turned. still_has p.seat.me p.seat.table_id s.table_id l has w p.seat.id
          n.seat.id n.seat.table_id n.seat.me turned;
    } };
}

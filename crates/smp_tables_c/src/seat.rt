//! A CPU's seat at its two tables.

use crate::place::CpuPlace;
use smp_multi::StopTable;
use smp_queue::CallTable;
use std::alloc::Global;
use std::marker::Model;
use std::sync::Arc;

/// The seat of a CPU: its two tables, where the CPU is, and the slot of the stop that it has entered last.
#[derive(Drop)]
pub struct OwnedSeat {
    pub(crate) calls: Arc<CallTable<Global>, Global>,
    pub(crate) stops: Arc<StopTable<Global>, Global>,
    pub(crate) place: CpuPlace,
    pub(crate) slot: u32,
}

impl Model for OwnedSeat {
    ghost use Rattle.smp_tables_c.specs.SeatValue.{SeatValue};
    ghost use Rattle.smp_tables_c.specs.Seats.{IsSeated};

    ghost Value = { SeatValue };

    ghost view = { λ s. record { calls = s.calls.value; stops = s.stops.value; place = s.place; slot = s.slot } };

    ghost invariant = { λ s. IsSeated s.calls.value s.stops.value s.place };
}

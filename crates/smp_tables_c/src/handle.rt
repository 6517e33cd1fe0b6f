//! What C holds of a CPU: its seat, or nothing where it is closed.

ghost use Rattle.std.specs.Prelude.{◌≡◌, None, Some, MatchOption};
ghost use Rattle.smp_tables_c.specs.Seats.{flag_of};

use crate::held::Held;
use crate::seat::OwnedSeat;
use std::alloc::Global;
use std::mem;

/// A CPU as C holds it. It is closed where it holds no seat, as where its bytes are all 0.
#[repr(C)]
pub struct SmpCpu {
    pub held: Held,
    alloc: Global,
    is_open: u32,
    ghost is_told: { is_open ≡ flag_of held.seat },
}

impl SmpCpu {
    /// An open one.
    pub fn of(alloc: Global, seat: Box<OwnedSeat, Global>) -> SmpCpu
        ensures { result.held.seat ≡ Some seat.value }
    {
        SmpCpu {
            held: Held::of(seat),
            alloc,
            is_open: 1,
        }
    }

    /// Takes its seat out, and leaves it closed.
    pub fn take(&mut self) -> Option<Box<OwnedSeat, Global>>
        ensures left { self.new.held.seat ≡ None }
        ensures taken { MatchOption result (self.old.held.seat ≡ None) (λ b. self.old.held.seat ≡ Some b.value) }
    {
        if self.is_open != 1 {
            return None;
        }
        let held = mem::replace(&mut self.held, Held::nothing(self.alloc));
        self.is_open = 0;
        Some(held.into_seat())
    }

    /// Puts its seat back.
    pub fn put(&mut self, seat: Box<OwnedSeat, Global>)
        ensures { self.new.held.seat ≡ Some seat.value }
    {
        *self = SmpCpu::of(self.alloc, seat);
    }
}

impl Drop for SmpCpu {
    fn drop(self) {
        let SmpCpu {
            held,
            alloc: _,
            is_open,
        } = self;
        if is_open == 1 {
            drop(held.into_seat());
        }
    }
}

/// Takes what may go to another thread.
fn takes_sent<T: Send>(sent: &T) {
    let _ = sent;
}

/// A handle may go to another thread, as C hands it on by a lock, or by a thread's start or join.
pub fn may_go(cpu: &SmpCpu) {
    takes_sent(cpu);
}

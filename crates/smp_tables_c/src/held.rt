//! The address of a CPU's seat, or nothing.

ghost use Rattle.std.specs.Prelude.{◌≡◌, ◌≢◌, Option, None, Some};
ghost use Rattle.smp_tables_c.specs.declared.seat.OwnedSeat.{OwnedSeat};
ghost use Rattle.smp_tables_c.specs.Held.{seat_coded, seat_owns};

use crate::parts::Parts;
use crate::seat::OwnedSeat;
use std::alloc::Global;
use std::marker::Model;
use std::ptr::null_mut;

/// The address of a seat that it owns, as a box does; or it owns nothing. Which of the two is not told by its bytes. Where it is
/// dropped, what it owns is forgotten.
#[repr(C)]
#[derive(Drop)]
pub struct Held {
    ptr: *mut u8,
    alloc: Global,
    pub ghost seat: { Option OwnedSeat } by { seat_coded },
}

impl Model for Held {
    ghost also_owns = { λ h. seat_owns h.alloc h.ptr h.seat };
}

impl Held {
    /// What owns nothing.
    pub fn nothing(alloc: Global) -> Held
        ensures { result.seat ≡ None }
    {
        Held {
            ptr: null_mut(),
            alloc,
        }
    }

    /// What owns the seat of a box.
    pub fn of(seat: Box<OwnedSeat, Global>) -> Held
        ensures { result.seat ≡ Some seat.value }
    {
        Held::of_parts(Parts::of(seat))
    }

    fn of_parts(parts: Parts<OwnedSeat, Global>) -> Held
        ensures { result.seat ≡ Some parts.value }
    {
        let Parts { ptr, alloc } = parts;
        Held {
            ptr: ptr as *mut u8,
            alloc,
        }
    }

    fn into_parts(self) -> Parts<OwnedSeat, Global>
        requires { self.seat ≢ None }
        ensures { self.seat ≡ Some result.value }
    {
        let Held { ptr, alloc } = self;
        Parts {
            ptr: ptr as *mut OwnedSeat,
            alloc,
        }
    }

    /// The box of the seat.
    pub fn into_seat(self) -> Box<OwnedSeat, Global>
        requires { self.seat ≢ None }
        ensures { self.seat ≡ Some result.value }
    {
        self.into_parts().into_box()
    }
}

// It owns what a box does, or nothing.
unsafe impl Send for Held {}

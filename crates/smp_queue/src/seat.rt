//! A CPU's seat. Its steps are those of [`access`]. That page and `crowd` below it alone name a raw seat. The steps that
//! begin, count and end a call are made in the page beside it alone.

pub(crate) mod access;
pub mod call_steps;

pub(crate) use access::crowd::{CallSeatCrowd, all_together, gather, give, take};
pub(crate) use access::{
    CallSeat, CallSeatMaker, OwnedCallWords, SharedCallWords, close, exchange, lay, load,
    next_seat, note_call, store, swap, together,
};

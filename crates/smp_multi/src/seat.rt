//! A CPU's seat. Its steps are those of [`access`]. That page and `crowd` below it alone name a raw seat. The steps round a
//! stop function, and those of a patch, are made in the pages beside it alone.

pub(crate) mod access;
pub(crate) mod patch_steps;
pub(crate) mod run_steps;

pub(crate) use access::crowd::{StopSeatCrowd, all_together, gather, give, take};
pub(crate) use access::{
    OwnedStopWords, SharedStopWords, StopSeat, StopSeatMaker, exchange, lay, load, mask, next_seat,
    store, subtract, together,
};

//! What clauses see of the looks of a CPU at its own interrupt word: when it made them.

ghost use Rattle.std.specs.Prelude.{◌≡◌, ℕ, List, []};
ghost use Rattle.std.specs.Borrow.{ftrue};
ghost use base.Stored.{coded_ℕ, coded_list};
ghost use Rattle.smp_machine.specs.MachineCpu.{notes_looks};

use smp_multi::StopCpu;
use smp_queue::CallCpu;
use std::marker::{Brand, Model, PhantomData};
use std::snapshot::Snapshot;

/// For each look of a CPU at its own interrupt word, which a handler may follow: how many looks at phases of stops it had made by
/// then. It has no bytes, and only [`noted`] makes it longer.
#[derive(Drop)]
pub(crate) struct HeardAt {
    of: PhantomData<u32>,
    pub(crate) ghost at: { List ℕ } by { coded_list coded_ℕ },
}

impl Model for HeardAt {
    ghost also_owns = { λ _. ftrue };
}

// It owns nothing.
unsafe impl Send for HeardAt {}

/// A list of numbers. Each call picks it.
pub(crate) trait Listing {
    ghost use Rattle.std.specs.Prelude.{ℕ, List};

    ghost listed: { List ℕ };
}

impl Listing for Brand {
    ghost use Rattle.std.specs.Prelude.{[]};

    ghost listed = { [] };
}

impl HeardAt {
    /// This list.
    fn of<N: Listing>() -> HeardAt
        ensures { result.at ≡ N.listed }
    {
        HeardAt { of: PhantomData }
    }
}

/// No look.
fn none_as<N: Listing>() -> HeardAt
    requires { N.listed ≡ [] }
    ensures { result.at ≡ [] }
{
    HeardAt::of::<N>()
}

/// A CPU that has made no look.
pub(crate) fn none() -> HeardAt
    ensures { result.at ≡ [] }
{
    none_as::<Brand>()
}

/// With the looks that were made since.
fn noted_as<N: Listing>(
    heard: &HeardAt,
    before: &Snapshot<CallCpu>,
    calls: &CallCpu,
    stops: &StopCpu,
) -> HeardAt
    requires { N.listed ≡ notes_looks before.now.value calls.now stops.now heard.now.at }
    ensures { result.at ≡ notes_looks before.now.value calls.now stops.now heard.now.at }
{
    let _ = heard;
    let _ = before;
    let _ = calls;
    let _ = stops;
    HeardAt::of::<N>()
}

/// Notes each look at the interrupt word that the part of the calls has now and did not have before, with the looks at phases
/// that the part of the stops has.
pub(crate) fn noted(
    heard: &HeardAt,
    before: &Snapshot<CallCpu>,
    calls: &CallCpu,
    stops: &StopCpu,
) -> HeardAt
    ensures { result.at ≡ notes_looks before.now.value calls.now stops.now heard.now.at }
{
    noted_as::<Brand>(heard, before, calls, stops)
}

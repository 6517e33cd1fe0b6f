//! A user's proof, by public clauses alone: what a CPU that has turned a key reads of its sites.

ghost use Rattle.std.specs.Prelude.{◌≡◌, IfOk, slice_index_or};
ghost use Rattle.smp_labels.specs.declared.entries.Entry.{Entry};
ghost use Rattle.smp_multi.specs.Reads.{jumps};
ghost use Rattle.smp_machine.specs.ReadLaws.{is_jump};

use smp_labels::SiteKind;
use smp_machine::Seat;
use smp_machine::laws::kinds_follow_keys;
use smp_mask::SmpError;
use smp_multi::StopFunc;
use smp_queue::Handler;
use std::alloc::Allocator;
use std::sync::Wait;

/// Turns a key on or off, and then reads one of its sites: it jumps exactly where key and branch differ.
fn turn_and_look<A: Allocator, R: Wait, H: Handler + Drop, F: StopFunc + Drop>(
    seat: &mut Seat<'_, A, R, H, F>,
    k: u32,
    on: bool,
    i: u32,
) -> Result<SiteKind, SmpError>
    ensures { IfOk result (λ kind. (e : Entry) → e ≡ slice_index_or seat.old.machine.stops.setting.labels.entries i e → e.key ≡ k
        → jumps kind ≡ is_jump on e.branch) }
{
    let _machine = seat.machine;
    match seat.set_key(k, on) {
        Ok(_) => {
            kinds_follow_keys();
            seat.read_site(i)
        }
        Err(error) => Err(error),
    }
}

//! A static key with two sites: one CPU turns it on and off, one reads it, and two call each other. What the reader finds is
//! lawful each time.

ghost use Rattle.std.specs.Prelude.{◌≡◌, IfOk, slice_index_or};
ghost use Rattle.smp_labels.specs.declared.entries.Entry.{Entry};
ghost use Rattle.smp_multi.specs.Reads.{jumps};
ghost use Rattle.smp_machine.specs.ReadLaws.{is_jump};
ghost use Rattle.smp_machine.specs.Seats.{IsSameSeat};

use crate::end::calls_run;
use smp_labels::{Entry, LabelMap, SiteKind};
use smp_machine::laws::kinds_follow_keys;
use smp_machine::{Crew, Machine, NoStop, Seat, Silent, run_cpus};
use smp_mask::SmpError;
use std::alloc::{AllocError, Global};
use std::sync::Wait;
use std::thread::Threads;

/// Two sites of key 0: the first is a NOP while the key is off, and the second jumps then.
const SITES: [Entry; 2] = [
    Entry {
        key: 0,
        branch: false,
    },
    Entry {
        key: 0,
        branch: true,
    },
];

/// Reads key 0, and then a site: whether the key is on, and what is at the site.
fn look<R: Wait>(
    seat: &mut Seat<'_, Global, R, Silent, NoStop>,
    site: u32,
) -> Result<(bool, SiteKind), SmpError>
    // A site of the key jumps exactly where the key, as it was read, and the branch of the site differ.
    ensures lawful { IfOk result (λ seen. (e : Entry) → e ≡ slice_index_or seat.old.cpu.stops.setting.labels.entries site e
        → e.key ≡ 0 → jumps seen.1 ≡ is_jump seen.0 e.branch) }
    ensures same { IsSameSeat seat.old seat.new }
{
    kinds_follow_keys();
    let on = seat.read_key(0)?;
    let kind = seat.read_site(site)?;
    Ok((on, kind))
}

/// CPU 0 turns key 0, CPU 1 reads it and its sites, and CPUs 2 and 3 call each other.
struct Parts;

impl Crew<Silent, NoStop, Global> for Parts {
    ghost begins = { λ _ _ _ _. Unit {0} };

    ghost plays = { λ _ _ _. Unit {0} };

    fn make(&self, _cpu: u32) -> Result<(Silent, NoStop), AllocError> {
        Ok((Silent, NoStop))
    }

    fn play<R: Wait>(&self, seat: &mut Seat<'_, Global, R, Silent, NoStop>) {
        for round in 0..20u32 {
            let _ = match seat.number() {
                0 => seat.set_key(0, round % 2 == 0).is_ok(),
                1 => look(seat, round % 2).is_ok(),
                2 => seat.call_single(3, 7, 42, true).is_ok(),
                _ => seat.call_single(2, 7, 42, true).is_ok(),
            };
            seat.poll();
        }
    }
}

/// Runs four CPUs: how many calls they have run.
#[tactic(auto, using(crate::proofs::Ending::all_at))]
pub fn run<R: Wait + Threads + Sync>(rt: &R, alloc: Global) -> Result<u64, SmpError> {
    let labels = LabelMap::new(&SITES, 1)?;
    let (machine, boot) = Machine::new(alloc, 4, "0-3".parse()?, &labels)?;
    let played = run_cpus(rt, alloc, &machine, boot, &Parts)?;
    calls_run(machine, played)
}

//! Four CPUs, each on a thread of its own, drop an address space each at the same time.

ghost use Rattle.std.specs.Prelude.{IfOk};
ghost use Rattle.smp_machine.specs.MachineCpu.{IsFull};
ghost use Rattle.smp_machine.specs.Seats.{IsSameSeat};
ghost use Rattle.users.specs.Ends.{AreAt};
ghost use Rattle.users.specs.Tlb.{IsFlushed, TlbsAreFlushed};

use crate::end::calls_run;
use crate::shootdown::shoot::shoot_down;
use crate::shootdown::space::{AddressSpace, Gone, SPACES};
use crate::shootdown::tlb::{Entry, Tlb};
use smp_labels::LabelMap;
use smp_machine::{Crew, Machine, MachineBoot, NoStop, Played, Seat, run_cpus};
use smp_mask::{CpuMask, SmpError};
use std::alloc::{AllocError, Global};
use std::sync::Wait;
use std::sync::atomic::{AtomicBool, AtomicU64, Ordering};
use std::thread::Threads;

/// The users of each address space. CPU n drops address space n, and nobody drops the last one.
const USERS: [&str; 5] = ["0-2", "0-3", "2", "0-1", "0-3"];

/// What one CPU has seen when its address space was dropped. Threads share it by reference.
#[derive(Drop)]
pub struct Seen {
    called: AtomicU64,
    gone: AtomicU64,
}

impl Seen {
    fn new() -> Seen {
        Seen {
            called: AtomicU64::new(0),
            gone: AtomicU64::new(0),
        }
    }

    /// Notes which CPUs were called, and how many entries were gone then.
    fn note(&self, called: CpuMask, gone: u64) {
        self.called
            .store(u64::from(called.weight()), Ordering::SeqCst);
        self.gone.store(gone, Ordering::SeqCst);
    }

    /// How many CPUs were called.
    pub fn called(&self) -> u64 {
        self.called.load(Ordering::SeqCst)
    }

    /// How many entries were gone when the call returned.
    pub fn gone(&self) -> u64 {
        self.gone.load(Ordering::SeqCst)
    }
}

/// The address spaces that are in use.
fn spaces(alloc: Global) -> Result<Vec<AddressSpace, Global>, SmpError> {
    let mut spaces = Vec::new(alloc);
    for (id, users) in USERS.iter().enumerate() {
        let space = AddressSpace {
            id: id as u64,
            users: users.parse()?,
        };
        let Ok(()) = spaces.push(space) else {
            return Err(SmpError::NoMemory);
        };
    }
    Ok(spaces)
}

/// What the CPUs do: each fills its TLB, and drops one address space.
#[derive(Drop)]
struct Shootdowns<'a> {
    alloc: Global,
    spaces: Vec<AddressSpace, Global>,
    gone: &'a Gone,
    seen: [Seen; SPACES],
    /// Whether memory was refused to a TLB.
    refused: AtomicBool,
}

impl<'a> Shootdowns<'a> {
    fn new(alloc: Global, gone: &'a Gone) -> Result<Shootdowns<'a>, SmpError> {
        Ok(Shootdowns {
            alloc,
            spaces: spaces(alloc)?,
            gone,
            seen: [Seen::new(), Seen::new(), Seen::new(), Seen::new()],
            refused: AtomicBool::new(false),
        })
    }

    /// Fills the TLB of a CPU: of each address space that it uses, with one page more than its number says.
    fn fill(&self, tlb: &mut Tlb<'a>, number: u32) -> Result<(), AllocError> {
        for space in &self.spaces {
            if space.users.contains(number) {
                for page in 0..=number {
                    tlb.load(Entry {
                        space: space.id,
                        page: page as u64,
                    })?;
                }
            }
        }
        Ok(())
    }

    /// Drops the address space of this CPU's number, and notes what was seen then.
    fn drop_one<R: Wait>(&self, seat: &mut Seat<'_, Global, R, Tlb<'a>, NoStop>)
        ensures flushed { IsFlushed seat.old.cpu.calls seat.old.handler.entries.items → IsFlushed seat.new.cpu.calls seat.new.handler.entries.items }
        ensures same { IsSameSeat seat.old seat.new }
    {
        let number = seat.number() as usize;
        let (Some(space), Some(seen)) = (self.spaces.get(number), self.seen.get(number)) else {
            return;
        };
        if let Ok(called) = shoot_down(seat, space) {
            seen.note(called, self.gone.of(space.id));
        }
    }
}

impl<'a> Crew<Tlb<'a>, NoStop, Global> for Shootdowns<'a> {
    ghost use Rattle.std.specs.Prelude.{◌≡◌, []};
    ghost use Rattle.users.specs.Tlb.{IsFlushed};

    ghost begins = { λ _ _ _ _. Unit {0} };

    // A CPU that has run no call before: its TLB holds no entry of a space of which it has run a flush.
    ghost plays = { λ _ old new. old.cpu.calls.part.ran ≡ [] → IsFlushed new.cpu.calls new.handler.entries.items };

    fn make(&self, _cpu: u32) -> Result<(Tlb<'a>, NoStop), AllocError> {
        Ok((Tlb::new(self.alloc, self.gone), NoStop))
    }

    fn play<R: Wait>(&self, seat: &mut Seat<'_, Global, R, Tlb<'a>, NoStop>) {
        let number = seat.number();
        match self.fill(&mut seat.handler, number) {
            Ok(()) => self.drop_one(seat),
            Err(_) => self.refused.store(true, Ordering::SeqCst),
        }
    }
}

/// What a run has shown: of each address space that was dropped, and how many entries are left and calls have run.
#[derive(Drop)]
pub struct Report {
    pub seen: [Seen; SPACES],
    pub left: u64,
    pub calls: u64,
}

/// Runs each CPU on a thread of its own, and gives all back.
fn run_crew<'a, R: Wait + Threads + Sync>(
    rt: &R,
    alloc: Global,
    machine: &Machine<Global>,
    boot: MachineBoot<Global>,
    crew: &Shootdowns<'a>,
) -> Result<Vec<Played<Tlb<'a>, NoStop, Global>, Global>, SmpError>
    requires { IsFull boot machine.now }
    ensures at { IfOk result (λ back. AreAt machine.now back.items) }
    // The TLB of each holds no entry of a space of which its CPU has run a flush.
    ensures flushed { IfOk result (λ back. TlbsAreFlushed back.items) }
{
    let back = run_cpus(rt, alloc, machine, boot, crew)?;
    if crew.refused.load(Ordering::SeqCst) {
        return Err(SmpError::NoMemory);
    }
    Ok(back)
}

/// How many entries all TLBs hold.
fn left_in(back: &[Played<Tlb<'_>, NoStop, Global>]) -> u64 {
    let mut left = 0u64;
    for played in back {
        left = left.wrapping_add(played.handler.entries.len() as u64);
    }
    left
}

/// Four CPUs drop an address space each, at the same time.
pub fn run<R: Wait + Threads + Sync>(rt: &R, alloc: Global) -> Result<Report, SmpError> {
    let (machine, boot) = Machine::new(alloc, 4, "0-3".parse()?, &LabelMap::empty())?;
    let gone = Gone::new();
    let crew = Shootdowns::new(alloc, &gone)?;
    let back = run_crew(rt, alloc, &machine, boot, &crew)?;
    let left = left_in(&back);
    let calls = calls_run(machine, back)?;
    Ok(Report {
        seen: crew.seen,
        left,
        calls,
    })
}

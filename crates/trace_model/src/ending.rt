//! What is told of the state at the end of a trace.

ghost use Rattle.std.specs.Prelude.{◌≡◌, ◌<◌, ◌^◌};
ghost use Rattle.std.specs.Int.Bits.{bit_or};
ghost use Rattle.trace_model.specs.Ending.{busy_of, has_nodes, heads_of, is_busy, is_locked, is_waited_for};
ghost use Rattle.trace_model.specs.Ending.{joined_if, locked_of, owed_by, owes, queue_length, queued_by, ran_of};
ghost use Rattle.trace_model.specs.Ending.{waiting, waits};
ghost use Rattle.trace_model.specs.State.{cpu_at};

use crate::call::Place;
use crate::state::State;
use crate::stop::Stop;
use crate::table::at;
use smp_mask::CpuMask;
use smp_words::phase::OVER;
use std::alloc::Allocator;

/// A mask with one member more.
fn joined(mask: CpuMask, cpu: u32) -> CpuMask
    requires { cpu < 32 }
    ensures { result ≡ bit_or mask (2 ^ cpu) }
{
    match mask.with(cpu) {
        Ok(more) => more,
        Err(_) => mask,
    }
}

/// A mask with one member more, where that is wanted.
fn joined_if(mask: CpuMask, cpu: u32, is_wanted: bool) -> CpuMask
    requires { cpu < 32 }
    ensures { result ≡ joined_if is_wanted mask cpu }
{
    if is_wanted { joined(mask, cpu) } else { mask }
}

impl Stop {
    /// Whether it waits for a CPU of its mask.
    fn is_waited_for(&self, cpu: u32) -> bool
        ensures { result ≡ is_waited_for self.now cpu }
    {
        if self.phase == 0 || self.phase == OVER {
            return at(&self.answers, cpu, None).is_none();
        }
        at(&self.acked, cpu, 0) < self.phase
    }

    /// Whether it waits for a CPU.
    fn waits(&self, cpu: u32) -> bool
        ensures { result ≡ waits self.now cpu }
    {
        self.task.mask.contains(cpu) && self.is_waited_for(cpu)
    }

    /// Those for whom it waits.
    #[tactic(auto, unfolding(crate::specs::Ending::waiting))]
    pub fn waiting(&self) -> CpuMask
        ensures { result ≡ waiting self.now }
    {
        let mut mask = CpuMask::empty();
        for cpu in 0..32 {
            mask = joined_if(mask, cpu, self.waits(cpu));
        }
        mask
    }
}

/// Whether a record is not free.
fn is_locked(place: &Place) -> bool
    ensures { result ≡ is_locked place.now }
{
    match place {
        Place::Free => false,
        Place::Queue(_) | Place::Batch(_) | Place::Run(_) => true,
    }
}

impl<A: Allocator + Copy> State<A> {
    /// How many calls a CPU has queued for another.
    pub fn queued(&self, source: u32, to: u32) -> u64
        requires { source < 512 }
        ensures { result ≡ queued_by self.now source to }
    {
        self.cpus[source as usize].queued_for(to)
    }

    /// How many of these have ended.
    pub fn ran(&self, source: u32, to: u32) -> u64
        requires { to < 512 }
        ensures { result ≡ ran_of self.now source to }
    {
        self.cpus[to as usize].ran_of(source)
    }

    /// How many calls are queued for a CPU.
    pub fn queue_length(&self, cpu: u32) -> usize
        requires { cpu < 512 }
        ensures { result ≡ queue_length self.now cpu }
    {
        self.cpus[cpu as usize].queued_calls().len()
    }

    /// Whether anything is queued for a CPU.
    pub fn has_nodes(&self, cpu: u32) -> bool
        requires { cpu < 512 }
        ensures { result ≡ has_nodes (cpu_at self.now cpu) }
    {
        self.cpus[cpu as usize].has_nodes()
    }

    /// Whether a CPU has accepted an interrupt.
    pub fn has_accepted(&self, cpu: u32) -> bool
        requires { cpu < 512 }
        ensures { result ≡ (cpu_at self.now cpu).accepted }
    {
        self.cpus[cpu as usize].has_accepted()
    }

    /// Whether an interrupt is pending for a CPU.
    pub fn has_pending(&self, cpu: u32) -> bool
        requires { cpu < 512 }
        ensures { result ≡ (cpu_at self.now cpu).pending }
    {
        self.cpus[cpu as usize].has_pending()
    }

    /// Whether a CPU owes another an interrupt.
    fn owes(&self, to: u32, source: u32) -> bool
        requires { source < 512 }
        ensures { result ≡ owes self.now to source }
    {
        self.cpus[source as usize].owes(to)
    }

    /// The least CPU that owes this one an interrupt.
    #[tactic(auto, using(crate::proofs::Least::first_hit, crate::proofs::Least::first_miss, crate::proofs::Least::first_end))]
    pub fn owed_by(&self, to: u32) -> Option<u32>
        ensures { result ≡ owed_by self.now to }
    {
        for source in 0..512 {
            if self.owes(to, source) {
                return Some(source);
            }
        }
        None
    }

    /// How many queues are not empty.
    pub fn heads(&self) -> usize
        ensures { result ≡ heads_of self.now }
    {
        self.cpus.iter().filter(|cpu| cpu.has_nodes()).count()
    }

    /// How many records are not free.
    pub fn locked(&self) -> usize
        ensures { result ≡ locked_of self.now }
    {
        self.places.iter().filter(|place| is_locked(*place)).count()
    }

    /// How many CPUs handle an interrupt.
    pub fn busy(&self) -> usize
        ensures { result ≡ busy_of self.now }
    {
        self.cpus.iter().filter(|cpu| cpu.is_busy()).count()
    }
}

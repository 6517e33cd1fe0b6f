//! One CPU of the model: its queue, its batch, the call that it runs, and its interrupts.

ghost use Rattle.std.specs.Prelude.{◌≡◌, slice_index_or, false, OnOk};
ghost use Rattle.trace_model.specs.Cpu.{counted, fresh_cpu, in_stop, interrupted, is_bare, noted, owing};
ghost use Rattle.trace_model.specs.Cpu.{pushed, pushed_other, sent, with_interrupts};
ghost use Rattle.trace_model.specs.Ending.{has_nodes};

pub(crate) mod handling;

use crate::call::{Call, Current};
use crate::table::{at, put};
use std::alloc::{AllocError, Allocator};
use std::collections::VecDeque;
use std::marker::Model;

/// Counts one more at this place.
fn count(counts: &mut [u64; 512], at: u32)
    ensures { counts.new ≡ counted at counts.old }
{
    if at < 512 {
        counts[at as usize] = counts[at as usize].wrapping_add(1);
    }
}

/// One CPU.
#[derive(Drop)]
pub(crate) struct Cpu<A: Allocator> {
    /// The calls that are queued for it, oldest first.
    queue: Vec<Call, A>,
    /// Whether wakes or irq work are queued for it.
    others: bool,
    /// What is left of the calls that it has taken, in the order in which they run.
    batch: VecDeque<Call, A>,
    current: Option<Current>,
    pending: bool,
    accepted: bool,
    /// Whether its interrupts are on.
    irq: bool,
    /// The stop that it is in.
    inside: Option<u32>,
    /// The CPUs to which it owes an interrupt.
    owes: [bool; 512],
    /// How many calls it has queued for each CPU.
    queued: [u64; 512],
    /// How many calls of each CPU have ended here.
    ran: [u64; 512],
}

impl<A: Allocator> Model for Cpu<A> {
    ghost use Rattle.trace_model.specs.Cpu.{CpuState};

    ghost Value = { CpuState };

    ghost view = { λ c. record {
      queue = c.queue.items;
      others = c.others;
      batch = c.batch.items;
      current = c.current;
      pending = c.pending;
      accepted = c.accepted;
      irq = c.irq;
      inside = c.inside;
      owes = c.owes;
      queued = c.queued;
      ran = c.ran;
    } };
}

impl<A: Allocator + Copy> Cpu<A> {
    /// A CPU that has done nothing.
    pub(crate) fn new(alloc: A) -> Cpu<A>
        ensures { result ≡ fresh_cpu }
    {
        Cpu {
            queue: Vec::new(alloc),
            others: false,
            batch: VecDeque::new(alloc),
            current: None,
            pending: false,
            accepted: false,
            irq: true,
            inside: None,
            owes: [false; 512],
            queued: [0; 512],
            ran: [0; 512],
        }
    }

    /// A call joins its queue.
    pub(crate) fn push(&mut self, call: Call) -> Result<(), AllocError>
        ensures { OnOk result (self.new ≡ pushed call self.old) }
    {
        match self.queue.push(call) {
            Ok(()) => Ok(()),
            Err(_) => Err(AllocError),
        }
    }

    /// What is no call joins its queue.
    pub(crate) fn push_other(&mut self)
        ensures { self.new ≡ pushed_other self.old }
    {
        self.others = true;
    }

    /// Whether nothing is queued for it.
    pub(crate) fn is_bare(&self) -> bool
        ensures { result ≡ is_bare self.now }
    {
        !self.others && self.queue.is_empty()
    }

    /// The calls that are queued for it.
    pub(crate) fn queued_calls(&self) -> &[Call]
        ensures { result.now ≡ self.now.queue }
    {
        self.queue.as_slice()
    }

    /// It has added to the queue of a CPU, and owes it an interrupt where that queue was empty.
    pub(crate) fn note_owed(&mut self, to: u32, first: bool)
        ensures { self.new ≡ owing to first self.old }
    {
        if first {
            put(&mut self.owes, to, true);
        }
    }

    /// It has queued a call for a CPU.
    pub(crate) fn note_queued(&mut self, to: u32, first: bool)
        ensures { self.new ≡ noted to first self.old }
    {
        count(&mut self.queued, to);
        self.note_owed(to, first);
    }

    /// It has sent a CPU an interrupt.
    pub(crate) fn note_sent(&mut self, to: u32)
        ensures { self.new ≡ sent to self.old }
    {
        put(&mut self.owes, to, false);
    }

    /// An interrupt is pending for it.
    pub(crate) fn interrupt(&mut self)
        ensures { self.new ≡ interrupted self.old }
    {
        self.pending = true;
    }

    /// The number of the stop that it is in.
    pub(crate) fn stop(&self) -> Option<u32>
        ensures { result ≡ self.now.inside }
    {
        self.inside
    }

    /// Whether its interrupts are on.
    pub(crate) fn has_irq(&self) -> bool
        ensures { result ≡ self.now.irq }
    {
        self.irq
    }

    /// Turns its interrupts on or off.
    pub(crate) fn put_irq(&mut self, on: bool)
        ensures { self.new ≡ with_interrupts on self.old }
    {
        self.irq = on;
    }

    /// It is in the stop of this number, or in none.
    pub(crate) fn put_stop(&mut self, number: Option<u32>)
        ensures { self.new ≡ in_stop number self.old }
    {
        self.inside = number;
    }

    /// How many calls it has queued for a CPU.
    pub(crate) fn queued_for(&self, to: u32) -> u64
        ensures { result ≡ slice_index_or self.now.queued to 0 }
    {
        at(&self.queued, to, 0)
    }

    /// How many calls of a CPU have ended here.
    pub(crate) fn ran_of(&self, source: u32) -> u64
        ensures { result ≡ slice_index_or self.now.ran source 0 }
    {
        at(&self.ran, source, 0)
    }

    /// Whether it owes a CPU an interrupt.
    pub(crate) fn owes(&self, to: u32) -> bool
        ensures { result ≡ slice_index_or self.now.owes to false }
    {
        at(&self.owes, to, false)
    }

    /// Whether it has accepted an interrupt.
    pub(crate) fn has_accepted(&self) -> bool
        ensures { result ≡ self.now.accepted }
    {
        self.accepted
    }

    /// Whether an interrupt is pending for it.
    pub(crate) fn has_pending(&self) -> bool
        ensures { result ≡ self.now.pending }
    {
        self.pending
    }

    /// Whether something is queued for it.
    pub(crate) fn has_nodes(&self) -> bool
        ensures { result ≡ has_nodes self.now }
    {
        !self.is_bare()
    }
}

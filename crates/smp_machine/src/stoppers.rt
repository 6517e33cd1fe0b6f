//! The stopper queues of all CPUs, and what one CPU holds of them: a pass of each, by which it puts, and one of its own,
//! by which it takes.

ghost use Rattle.std.specs.Prelude.{◌≡◌, ◌<◌, true, false, MatchOption, length};
ghost use Rattle.smp_words.specs.Size.{cpus};
ghost use Rattle.smp_machine.specs.Passes.{AreHeld, passes_of, puts, note_of, takes, PutIsShown, TakenIsShown};

use crate::work_queue::{Item, Noting, Put, Take, WorkPass, WorkQueue};
use smp_multi::StopCpu;
use std::alloc::Allocator;
use std::marker::{Brand, Model};
use std::sync::Wait;

/// The queues: one for each CPU.
#[derive(Drop)]
pub(crate) struct Stoppers<A: Allocator> {
    pub(crate) queues: Vec<WorkQueue<A>, A>,
}

impl<A: Allocator> Model for Stoppers<A> {
    ghost use Rattle.std.specs.Prelude.{◌≡◌, List, map, length};
    ghost use Rattle.atomic_table.specs.Seated.{TableId};
    ghost use Rattle.smp_words.specs.Size.{cpus};
    ghost use Rattle.smp_machine.specs.Passes.{queue_ids};

    ghost Value = { List TableId };

    ghost view = { λ s. queue_ids s.queues.items };

    ghost invariant = { λ s. length s.queues.items ≡ cpus };
}

/// The passes of one CPU.
#[derive(Drop)]
pub(crate) struct Passes<A: Allocator> {
    number: u32,
    to: Vec<WorkPass, A>,
    own: WorkPass,
}

impl<A: Allocator> Model for Passes<A> {
    ghost use Rattle.smp_machine.specs.Passes.{PassesValue, AreHeld, passes_of};

    ghost Value = { PassesValue };

    ghost view = { λ p. passes_of p.number p.to.items p.own };

    ghost invariant = { λ p. AreHeld p.number p.to.items p.own };
}

impl<A: Allocator> Passes<A> {
    /// The passes of this CPU.
    pub(crate) fn new(number: u32, to: Vec<WorkPass, A>, own: WorkPass) -> Passes<A>
        requires { AreHeld number to.items own }
        ensures { result ≡ passes_of number to.items own }
    {
        Passes { number, to, own }
    }

    /// There is a list of what was put for each queue that there can be, and one of what is noted. It makes no step.
    pub(crate) fn has_all_queues(&self)
        ensures put { length self.now.put ≡ cpus }
        ensures noted { length self.now.noted ≡ cpus }
    {
        let _number = self.number;
    }
}

/// A work of a source's stop, and the CPU whose queue it goes into.
#[derive(Clone, Copy)]
pub(crate) struct CpuItem {
    pub(crate) cpu: u32,
    pub(crate) item: Item,
}

/// Puts a work into this CPU's queue, and notes this with it; false where the queue was full.
fn push<N: Noting, A: Allocator, R: Wait>(
    stoppers: &Stoppers<A>,
    rt: &R,
    me: &mut Passes<A>,
    stops: &StopCpu,
    to: CpuItem,
) -> bool
    requires queues { me.old.queues ≡ stoppers.now }
    requires own { to.item.slot ≡ me.old.number }
    requires within { to.cpu < cpus }
    requires note { N.note ≡ note_of stops.now me.old }
    ensures put { result ≡ true → (me.new ≡ puts to.cpu to.item N.note me.old) × PutIsShown me.new to.cpu }
    ensures full { result ≡ false → me.new ≡ me.old }
{
    let _ = stops;
    let CpuItem { cpu, item } = to;
    let pass = &mut me.to[cpu as usize];
    stoppers.queues[cpu as usize]
        .push_as::<Put<N>, R>(rt, pass, item)
        .is_ok()
}

impl<A: Allocator> Stoppers<A> {
    /// Puts the work of the own stop into this CPU's queue (`cpu_stop_queue_work`), at the compare-exchange of its tail; false where it
    /// was full. With the put it notes whether the CPU holds the gate, and which stop of its own is open. It may wait while another CPU
    /// is between two steps of a call on the same queue. No other way leads into a queue.
    pub(crate) fn put<R: Wait>(
        &self,
        rt: &R,
        me: &mut Passes<A>,
        stops: &StopCpu,
        to: CpuItem,
    ) -> bool
        requires queues { me.old.queues ≡ self.now }
        requires own { to.item.slot ≡ me.old.number }
        requires same { stops.now.number ≡ me.old.number }
        requires within { to.cpu < cpus }
        ensures put { result ≡ true → (me.new ≡ puts to.cpu to.item (note_of stops.now me.old) me.old) × PutIsShown me.new to.cpu }
        ensures full { result ≡ false → me.new ≡ me.old }
    {
        push::<Brand, A, R>(self, rt, me, stops, to)
    }

    /// Whether the own queue has nothing, by loads alone. It does not wait.
    #[inline(always)]
    pub(crate) fn is_empty(&self, me: &mut Passes<A>) -> bool
        requires queues { me.old.queues ≡ self.now }
        ensures { me.new ≡ me.old }
    {
        self.queues[me.number as usize].is_empty_as::<Take>(&mut me.own)
    }

    /// Takes the front of the own queue, at the compare-exchange of its head; an empty queue is only looked at. It may
    /// wait while another CPU is between two steps of a put into this queue.
    pub(crate) fn take<R: Wait>(&self, rt: &R, me: &mut Passes<A>) -> Option<Item>
        requires queues { me.old.queues ≡ self.now }
        ensures { MatchOption result (me.new ≡ me.old) (λ x. (me.new ≡ takes x me.old) × TakenIsShown me.new) }
    {
        self.queues[me.number as usize].pop_as::<Take, R>(rt, &mut me.own)
    }

    /// Whether this CPU's queue has a work that it has not taken, by loads alone. It does not wait.
    pub(crate) fn has_work(&self, me: &mut Passes<A>, cpu: u32) -> bool
        requires queues { me.old.queues ≡ self.now }
        requires within { cpu < cpus }
        ensures { me.new ≡ me.old }
    {
        let by = &mut me.to[cpu as usize];
        !self.queues[cpu as usize].is_empty_as::<Take>(by)
    }
}

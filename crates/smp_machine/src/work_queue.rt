//! One queue for each CPU, under the rule of its passes.

ghost use Rattle.std.specs.Prelude.{◌≡◌, ◌+◌, [], IfOk};
ghost use Rattle.smp_machine.specs.declared.work_queue.Knows.TheVariants.{Takes, Puts};
ghost use Rattle.crossbeam_queue.specs.Passes.{view, IsPassOf, ruled_capacity};

use crossbeam_queue::protocol::{Lesson, Outcome, Protocol, Split};
use crossbeam_queue::{Pass, RuledArrayQueue};
use smp_words::size::NR_CPUS;
use smp_words::work::Work;
use std::alloc::{AllocError, Allocator};
use std::collections::LinkedList;
use std::marker::{Brand, PhantomData};

/// What lies in a queue: the slot of a stop, which is its source's number, with its work.
#[derive(Clone, Copy)]
pub struct Item {
    pub slot: u32,
    pub work: Work,
}

/// What is noted with a put: whether its CPU held the gate, which stop of its own was open, and how many items it had put
/// before, into all queues. No value of it is made.
pub struct PutNote {
    pub gate: bool,
    pub stop: Option<Work>,
    pub before: u64,
}

/// What a pass of a queue knows. No value of it is made.
pub enum Knows {
    /// The pass of the CPU that takes: how many sources have a pass, and what it has taken.
    Takes(u32, LinkedList<Item>),
    /// The pass of a source, what it has put there, and what is noted with each.
    Puts(u32, LinkedList<Item>, LinkedList<PutNote>),
}

/// The rule of a queue.
pub struct Rule;

impl Protocol<Item, Knows> for Rule {
    ghost use Rattle.std.specs.Prelude.{[]};
    ghost use Rattle.smp_machine.specs.declared.work_queue.Knows.TheVariants.{Takes};
    ghost use Rattle.smp_machine.specs.WorkQueue.{IsInOrder};

    ghost holds = { IsInOrder };

    ghost first = { Takes 0 [] };
}

/// The taker gives the next source its pass.
pub struct Gives;

impl Split<Knows> for Gives {
    ghost use Rattle.smp_machine.specs.WorkQueue.{gives, given};

    ghost left = { gives };

    ghost right = { given };
}

/// What a put notes. Each put picks it.
pub trait Noting {
    ghost use Rattle.smp_machine.specs.declared.work_queue.PutNote.{PutNote};

    ghost note: { PutNote };
}

impl Noting for Brand {
    ghost use Rattle.std.specs.Prelude.{false, None};

    ghost note = { record { gate = false; stop = None; before = 0 } };
}

/// A source puts an item, and notes this.
pub struct Put<N: Noting> {
    of: PhantomData<N>,
}

impl<N: Noting> Outcome<Item, Knows> for Put<N> {
    ghost use Rattle.std.specs.Prelude.{◌≡◌};
    ghost use Rattle.smp_machine.specs.WorkQueue.{puts_more, IsKnown};

    ghost then = { λ v x w. (w ≡ puts_more N.note v x) × IsKnown w };
}

impl<N: Noting> Lesson<Item, Knows> for Put<N> {
    ghost use Rattle.std.specs.Prelude.{⊤};

    ghost fact = { λ v items. ⊤ };
}

/// The taker takes the front.
pub struct Take;

impl Outcome<Item, Knows> for Take {
    ghost use Rattle.std.specs.Prelude.{◌≡◌};
    ghost use Rattle.smp_machine.specs.WorkQueue.{takes_more, IsKnown};

    ghost then = { λ v x w. (w ≡ takes_more v x) × IsKnown w };
}

impl Lesson<Item, Knows> for Take {
    ghost use Rattle.std.specs.Prelude.{⊤};

    ghost fact = { λ v items. ⊤ };
}

pub type WorkQueue<A> = RuledArrayQueue<Item, Knows, Rule, A>;

pub type WorkPass = Pass<Item, Knows>;

/// A queue with the pass of the CPU that takes from it.
pub(crate) fn opened<A: Allocator + Clone>(alloc: A) -> Result<(WorkQueue<A>, WorkPass), AllocError>
    ensures { IfOk result (λ q. (ruled_capacity q.0 ≡ 32) × IsPassOf q.0 q.1 × (view q.1 ≡ Takes 0 [])) }
{
    WorkQueue::ruled(alloc, NR_CPUS as usize)
}

/// The pass of the next source.
pub(crate) fn give<A: Allocator>(
    queue: &WorkQueue<A>,
    taker: &mut WorkPass,
    source: u32,
) -> WorkPass
    requires { IsPassOf queue.now taker.old × (view taker.old ≡ Takes source []) }
    ensures { IsPassOf queue.now taker.new × (view taker.new ≡ Takes (source + 1) []) × IsPassOf queue.now result × (view result ≡ Puts source [] []) }
{
    queue.another::<Gives>(taker)
}

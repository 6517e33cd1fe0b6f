//! The queues are made, and the passes of each CPU.

ghost use Rattle.std.specs.Prelude.{◌≡◌, ◌+◌, ◌<◌, IfOk, length};
ghost use Rattle.smp_words.specs.Size.{cpus};
ghost use Rattle.smp_machine.specs.Passes.{queue_ids, AreTakers, AreSources, AreGiven, AreFresh};

use crate::stoppers::{Passes, Stoppers};
use crate::work_queue::{WorkPass, WorkQueue, give, opened};
use smp_words::size::NR_CPUS;
use std::alloc::{AllocError, Allocator};
use std::marker::Model;

/// The passes of one source, one for each queue.
#[derive(Drop)]
struct SourcePasses<A: Allocator> {
    to: Vec<WorkPass, A>,
}

impl<A: Allocator> Model for SourcePasses<A> {
    ghost use Rattle.std.specs.Prelude.{List};
    ghost use Rattle.crossbeam_queue.specs.Passes.{Pass};
    ghost use Rattle.smp_machine.specs.declared.work_queue.Item.{Item};
    ghost use Rattle.smp_machine.specs.declared.work_queue.Knows.{Knows};

    ghost Value = { List (Pass Item Knows) };

    ghost view = { λ s. s.to.items };
}

/// A queue for each CPU, and the passes that take from them.
fn open_all<A: Allocator + Copy>(
    alloc: A,
) -> Result<(Vec<WorkQueue<A>, A>, Vec<WorkPass, A>), AllocError>
    ensures sized { IfOk result (λ t. (length t.0.items ≡ cpus) × (length t.1.items ≡ cpus)) }
    ensures takers { IfOk result (λ t. AreTakers (queue_ids t.0.items) (λ _. 0) t.1.items) }
{
    let mut queues = Vec::with_capacity(alloc, NR_CPUS as usize)?;
    let mut takers = Vec::with_capacity(alloc, NR_CPUS as usize)?;
    for cpu in 0..NR_CPUS {
        let _ = cpu;
        let (queue, taker) = opened(alloc)?;
        queues.push(queue)?;
        takers.push(taker)?;
    }
    Ok((queues, takers))
}

/// The passes of the next source: one of each queue.
fn give_all<A: Allocator + Copy>(
    alloc: A,
    queues: &[WorkQueue<A>],
    takers: &mut Vec<WorkPass, A>,
    source: u32,
) -> Result<SourcePasses<A>, AllocError>
    requires sized { length takers.old.items ≡ length queues.now }
    requires takers { AreTakers (queue_ids queues.now) (λ _. source) takers.old.items }
    ensures sized { IfOk result (λ _. length takers.new.items ≡ length queues.now) }
    ensures takers { IfOk result (λ _. AreTakers (queue_ids queues.now) (λ _. source + 1) takers.new.items) }
    ensures sources { IfOk result (λ to. AreSources (queue_ids queues.now) source to) }
{
    let mut to = Vec::with_capacity(alloc, queues.len())?;
    for cpu in 0..queues.len() {
        let pass = give(&queues[cpu], &mut takers[cpu], source);
        to.push(pass)?;
    }
    Ok(SourcePasses { to })
}

/// The passes of all sources.
fn give_each<A: Allocator + Copy>(
    alloc: A,
    queues: &[WorkQueue<A>],
    takers: &mut Vec<WorkPass, A>,
) -> Result<Vec<SourcePasses<A>, A>, AllocError>
    requires sized { length takers.old.items ≡ length queues.now }
    requires takers { AreTakers (queue_ids queues.now) (λ _. 0) takers.old.items }
    ensures takers { IfOk result (λ _. AreTakers (queue_ids queues.now) (λ _. cpus) takers.new.items) }
    ensures kept { IfOk result (λ _. length takers.new.items ≡ length queues.now) }
    ensures sized { IfOk result (λ given. length given.items ≡ cpus) }
    ensures given { IfOk result (λ given. AreGiven (queue_ids queues.now) 0 given.items) }
{
    let mut given = Vec::with_capacity(alloc, NR_CPUS as usize)?;
    for source in 0..NR_CPUS {
        let to = give_all(alloc, queues, takers, source)?;
        given.push(to)?;
    }
    Ok(given)
}

/// The passes of each CPU: those by which it puts, with the one by which it takes.
fn pair_all<A: Allocator + Copy>(
    alloc: A,
    queues: &[WorkQueue<A>],
    mut takers: Vec<WorkPass, A>,
    mut given: Vec<SourcePasses<A>, A>,
) -> Result<Vec<Passes<A>, A>, AllocError>
    requires sized { (length queues.now ≡ cpus) × (length takers.items ≡ cpus) × (length given.items ≡ cpus) }
    requires takers { AreTakers (queue_ids queues.now) (λ _. cpus) takers.items }
    requires given { AreGiven (queue_ids queues.now) 0 given.items }
    ensures sized { IfOk result (λ passes. length passes.items ≡ cpus) }
    ensures fresh { IfOk result (λ passes. AreFresh (queue_ids queues.now) 0 passes.items) }
{
    let _ = queues;
    let mut passes = Vec::with_capacity(alloc, NR_CPUS as usize)?;
    for number in 0..NR_CPUS {
        let own = takers.remove(0);
        let SourcePasses { to } = given.remove(0);
        passes.push(Passes::new(number, to, own))?;
    }
    Ok(passes)
}

/// The queues, and the passes of each CPU.
pub(crate) fn open<A: Allocator + Copy>(
    alloc: A,
) -> Result<(Stoppers<A>, Vec<Passes<A>, A>), AllocError>
    ensures sized { IfOk result (λ t. (length t.0 ≡ cpus) × (length t.1.items ≡ cpus)) }
    ensures fresh { IfOk result (λ t. AreFresh t.0 0 t.1.items) }
{
    let (queues, mut takers) = open_all(alloc)?;
    let given = give_each(alloc, &queues, &mut takers)?;
    let passes = pair_all(alloc, &queues, takers, given)?;
    Ok((Stoppers { queues }, passes))
}

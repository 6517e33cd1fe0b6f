//! The CPUs of a machine before they begin, each with what was made for it.

ghost use Rattle.std.specs.Prelude.{◌≡◌, ◌+◌, [], ◌∷◌, ◌++◌, IfOk, MatchOption};
ghost use Rattle.smp_mask.specs.Mask.{members};
ghost use Rattle.smp_machine.specs.MachineCpu.{IsFull};
ghost use Rattle.smp_machine.specs.Members.{AreLeftFrom, AreMembers, IsNext};

use crate::boot::MachineBoot;
use crate::cpu::Cpu;
use crate::crew::Crew;
use crate::machine::Machine;
use smp_multi::StopFunc;
use smp_queue::Handler;
use smp_words::size::NR_CPUS;
use std::alloc::{AllocError, Allocator};

/// A CPU that has not begun, with its handler and its stop function.
#[derive(Drop)]
pub(crate) struct Member<H: Handler + Drop, F: StopFunc + Drop, A: Allocator> {
    pub(crate) cpu: Cpu<A>,
    pub(crate) handler: H,
    pub(crate) functions: F,
}

/// The CPU of a number, where it is online, with what is made for it; the CPUs from that number on were not given out before,
/// and those above it are not yet.
#[tactic(auto, using(crate::proofs::Crews::is_member))]
fn next_member<A: Allocator, H: Handler + Drop, F: StopFunc + Drop, C: Crew<H, F, A>>(
    machine: &Machine<A>,
    boot: &mut MachineBoot<A>,
    crew: &C,
    number: u32,
) -> Result<Option<Member<H, F, A>>, AllocError>
    requires { AreLeftFrom machine.now boot.old number }
    ensures member { IfOk result (λ next. IsNext (C.begins crew.now) machine.now number next) }
    ensures left { IfOk result (λ _. AreLeftFrom machine.now boot.new (number + 1)) }
{
    let Ok(cpu) = boot.cpu(number) else {
        return Ok(None);
    };
    let (handler, functions) = crew.make(number)?;
    Ok(Some(Member {
        cpu,
        handler,
        functions,
    }))
}

/// One CPU more, if there is one.
fn push_if<A: Allocator, H: Handler + Drop, F: StopFunc + Drop>(
    all: &mut Vec<Member<H, F, A>, A>,
    next: Option<Member<H, F, A>>,
) -> Result<(), AllocError>
    ensures { IfOk result (λ _. MatchOption next (all.new.items ≡ all.old.items) (λ x. all.new.items ≡ all.old.items ++ x ∷ [])) }
{
    match next {
        Some(member) => Ok(all.push(member)?),
        None => Ok(()),
    }
}

/// The CPUs of a machine that are online, ascending, each with what the crew makes for it.
pub(crate) fn members_of<A: Allocator, H: Handler + Drop, F: StopFunc + Drop, C: Crew<H, F, A>>(
    alloc: A,
    machine: &Machine<A>,
    mut boot: MachineBoot<A>,
    crew: &C,
) -> Result<Vec<Member<H, F, A>, A>, AllocError>
    requires { IsFull boot machine.now }
    ensures { IfOk result (λ all. AreMembers (C.begins crew.now) machine.now (members machine.now.calls.online) all.items) }
{
    let mut all = Vec::with_capacity(alloc, NR_CPUS as usize)?;
    for number in 0..NR_CPUS {
        let next = next_member(machine, &mut boot, crew, number)?;
        push_if(&mut all, next)?;
    }
    Ok(all)
}

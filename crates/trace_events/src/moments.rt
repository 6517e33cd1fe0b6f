//! What a script asks for, moment by moment.

ghost use Rattle.std.specs.Prelude.{◌≡◌, ◌++◌, IfOk, OnOk};
ghost use Rattle.trace_events.specs.Moments.{moments_at, moments_of, steps_at};

use smp_core::Event;
use smp_script::directive::Directive;
use std::alloc::{AllocError, Allocator};

/// One thing that a line asks for.
#[derive(Clone, Copy)]
pub enum Asked {
    /// An event.
    Turn(Event),
    /// The queues, the locked records and the phases: no event.
    Show,
}

/// One thing that is asked for, and the line that does, counted from 1.
#[derive(Clone, Copy)]
pub struct Moment {
    pub line: usize,
    pub asked: Asked,
}

// This number of steps of a CPU.
fn add_steps<A: Allocator>(
    found: &mut Vec<Moment, A>,
    line: usize,
    cpu: u32,
    count: u32,
) -> Result<(), AllocError>
    ensures { OnOk result (found.new.items ≡ found.old.items ++ steps_at line cpu count) }
{
    for _step in 0..count {
        let asked = Asked::Turn(Event::Step(cpu));
        found.push(Moment { line, asked })?;
    }
    Ok(())
}

// What one line asks for.
fn add_moments<A: Allocator>(
    found: &mut Vec<Moment, A>,
    line: usize,
    directive: Directive,
) -> Result<(), AllocError>
    ensures { OnOk result (found.new.items ≡ found.old.items ++ moments_at line directive) }
{
    match directive {
        Directive::Start(cpu, command) => {
            let asked = Asked::Turn(Event::Start(cpu, command));
            found.push(Moment { line, asked })?;
        }
        Directive::Step(cpu, count) => add_steps(found, line, cpu, count)?,
        Directive::Show => {
            let asked = Asked::Show;
            found.push(Moment { line, asked })?;
        }
        // no line of a replay
        Directive::Do(_, _, _) => {}
    }
    Ok(())
}

/// What these lines ask for, one thing after the other, where the first of them is line `first`: of a `step` line each step.
pub fn moments<A: Allocator>(
    alloc: A,
    first: u32,
    directives: &[Directive],
) -> Result<Vec<Moment, A>, AllocError>
    ensures { IfOk result (λ found. found.items ≡ moments_of first directives.now) }
{
    let mut found = Vec::new(alloc);
    let mut line = first as usize;
    for directive in directives {
        add_moments(&mut found, line, *directive)?;
        line += 1;
    }
    Ok(found)
}

//! A thread for each online CPU of a machine.

ghost use Rattle.std.specs.Prelude.{◌≡◌, ◌≤◌, [], vec_len, vec_capacity, IfOk, IfErr, IfSome};
ghost use Rattle.smp_mask.specs.Mask.{members};
ghost use Rattle.smp_machine.specs.Crews.{ArePlayed, HasEnded, IsPlayed};
ghost use Rattle.smp_machine.specs.Members.{AreMembers, IsMember};
ghost use Rattle.smp_machine.specs.Own.{own_of};
ghost use Rattle.smp_machine.specs.MachineCpu.{IsFull};
ghost use Rattle.smp_machine.specs.Seats.{IsSameSeat, SeatWorks};
ghost use Rattle.smp_machine.specs.Threads.{AreStarted, IsTaskOf};

use crate::boot::MachineBoot;
use crate::crew::{Crew, Played};
use crate::hearing::pause;
use crate::laws::is_shown;
use crate::machine::Machine;
use crate::member::{Member, members_of};
use crate::seat::Seat;
use smp_mask::SmpError;
use smp_multi::StopFunc;
use smp_queue::Handler;
use smp_start::StartLine;
use std::alloc::Allocator;
use std::sync::Wait;
use std::thread;
use std::thread::{Promise, PromisedHandle, Scope, Threads};

/// What the thread of a CPU promises: to give the CPU back, with its part played.
#[derive(Drop)]
struct Task<'e, C, A: Allocator> {
    machine: &'e Machine<A>,
    crew: &'e C,
    number: u32,
}

impl<'e, A: Allocator, H: Handler + Drop, F: StopFunc + Drop, C: Crew<H, F, A>> Promise<
    Option<Played<H, F, A>>,
> for Task<'e, C, A> {
    ghost use Rattle.std.specs.Prelude.{IfSome};
    ghost use Rattle.smp_machine.specs.Crews.{IsPlayed};

    ghost kept_by = { λ t r. IfSome r (λ p. IsPlayed H.leads F.leads (C.begins t.crew.now) (C.plays t.crew.now) (C.leaves t.crew.now)
        t.machine.now t.number p) };
}

/// A thread that was started.
type Thread<'e, H, F, C, A> = PromisedHandle<Option<Played<H, F, A>>, Task<'e, C, A>>;

/// Notes that this CPU has played its part. The last of all CPUs wakes those that wait for this asleep.
fn note_played<A: Allocator>(machine: &Machine<A>, line: &StartLine) {
    line.note_done();
    let online = machine.online();
    if line.done() >= u64::from(online.weight()) {
        for cpu in online.iter() {
            machine.wake(cpu);
        }
    }
}

/// Where the crew says that this CPU polls, it polls until all CPUs have played their parts, and once more. It sleeps between two
/// polls where the machine lets it.
fn poll_to_the_end<A: Allocator, R: Wait, H: Handler + Drop, F: StopFunc + Drop, C: Crew<H, F, A>>(
    rt: &R,
    crew: &C,
    line: &StartLine,
    seat: &mut Seat<'_, A, R, H, F>,
)
    ensures works { SeatWorks H.leads F.leads seat.old seat.new (own_of seat.old.cpu) }
    ensures same { IsSameSeat seat.old seat.new }
    ensures ended { HasEnded (C.leaves crew.now seat.old.cpu.calls.number) seat.old seat.new }
{
    if !crew.polls(seat.number()) {
        return;
    }
    let all = u64::from(seat.online().weight());
    let mut waits = pause(seat.machine, &seat.cpu.place);
    for _ in rt.forever() {
        waits.before_look();
        let last = line.done() >= all;
        let found = seat.poll_and_tell();
        if last {
            return;
        }
        waits.after_look(rt, found);
    }
    unreachable!()
}

/// What the thread of a CPU does: once all are started, its part; then it polls until all CPUs have played theirs, where the
/// crew says so. None where it may not begin.
fn drive<A: Allocator, R: Wait, H: Handler + Drop, F: StopFunc + Drop, C: Crew<H, F, A>>(
    rt: &R,
    machine: &Machine<A>,
    crew: &C,
    line: &StartLine,
    member: Member<H, F, A>,
) -> Option<Played<H, F, A>>
    requires machine { C.runs_on crew.now machine.now }
    requires member { IsMember (C.begins crew.now) machine.now member.cpu.calls.number member }
    ensures { IfSome result (λ p. IsPlayed H.leads F.leads (C.begins crew.now) (C.plays crew.now) (C.leaves crew.now) machine.now member.cpu.calls.number p) }
{
    if !line.wait(rt) {
        return None;
    }
    let Member {
        cpu,
        handler,
        functions,
    } = member;
    let mut seat = Seat::new(machine, rt, cpu, handler, functions);
    crew.play(&mut seat);
    note_played(machine, line);
    poll_to_the_end(rt, crew, line, &mut seat);
    let (cpu, handler, functions) = seat.into_parts();
    is_shown(machine, &cpu);
    Some(Played {
        cpu,
        handler,
        functions,
    })
}

/// What the threads of a run share: the runtime, the machine, what its CPUs play, and the line at which they start.
#[derive(Drop)]
struct Run<'e, R, C, A: Allocator> {
    rt: &'e R,
    machine: &'e Machine<A>,
    crew: &'e C,
    line: &'e StartLine,
}

impl<'e, R: Wait + Threads + Sync, C: Sync, A: Allocator + Copy + Send + Sync> Run<'e, R, C, A> {
    /// Starts the thread of a CPU. None where it can't be started.
    fn start<'s, H: Handler + Drop + Send + 's, F: StopFunc + Drop + Send + 's>(
        &self,
        scope: &Scope<'s, &'e ()>,
        member: Member<H, F, A>,
    ) -> Option<Thread<'e, H, F, C, A>>
    where
        A: 's,
        C: Crew<H, F, A>,
        requires machine { C.runs_on self.now.crew.now self.now.machine.now }
        requires member { IsMember (C.begins self.now.crew.now) self.now.machine.now member.cpu.calls.number member }
        ensures { IfSome result (λ h. IsTaskOf self.now.machine.now self.now.crew.now member.cpu.calls.number h.promise) }
    {
        let (rt, machine, crew, line) = (self.rt, self.machine, self.crew, self.line);
        let number = member.cpu.number();
        let task = Task {
            machine,
            crew,
            number,
        };
        scope
            .spawn_with(task, move || drive(rt, machine, crew, line, member))
            .ok()
    }

    /// Starts the thread of each CPU, until one can't be started: all threads, or those that were started.
    fn start_all<'s, H: Handler + Drop + Send + 's, F: StopFunc + Drop + Send + 's>(
        &self,
        scope: &Scope<'s, &'e ()>,
        all: Vec<Member<H, F, A>, A>,
        mut handles: Vec<Thread<'e, H, F, C, A>, A>,
    ) -> Result<Vec<Thread<'e, H, F, C, A>, A>, Vec<Thread<'e, H, F, C, A>, A>>
    where
        A: 's,
        C: Crew<H, F, A>,
        requires machine { C.runs_on self.now.crew.now self.now.machine.now }
        requires members { AreMembers (C.begins self.now.crew.now) self.now.machine.now (members self.now.machine.now.calls.online) all.items }
        requires room { vec_len all ≤ vec_capacity handles }
        requires none { (vec_len handles ≡ 0) × (handles.items ≡ []) }
        ensures sized { IfOk result (λ h. vec_len h ≡ vec_len all) }
        ensures started { IfOk result (λ h. AreStarted self.now.machine.now self.now.crew.now (members self.now.machine.now.calls.online) h.items) }
    {
        for member in all {
            let Some(handle) = self.start(scope, member) else {
                return Err(handles);
            };
            let Ok(()) = handles.push(handle) else {
                unreachable!()
            };
        }
        Ok(handles)
    }

    /// Waits for each thread: the CPUs, in the same order. None where a thread has not begun.
    fn join_all<H: Handler + Drop, F: StopFunc + Drop>(
        &self,
        handles: Vec<Thread<'e, H, F, C, A>, A>,
        mut back: Vec<Played<H, F, A>, A>,
    ) -> Option<Vec<Played<H, F, A>, A>>
    where
        C: Crew<H, F, A>,
        requires started { AreStarted self.now.machine.now self.now.crew.now (members self.now.machine.now.calls.online) handles.items }
        requires room { vec_len handles ≤ vec_capacity back }
        requires none { (vec_len back ≡ 0) × (back.items ≡ []) }
        ensures { IfSome result (λ v. ArePlayed H.leads F.leads (C.begins self.now.crew.now) (C.plays self.now.crew.now) (C.leaves self.now.crew.now)
            self.now.machine.now (members self.now.machine.now.calls.online) v.items) }
    {
        for handle in handles {
            let played = handle.join(self.rt)?;
            let Ok(()) = back.push(played) else {
                unreachable!()
            };
        }
        Some(back)
    }

    /// Starts the thread of each CPU, lets all begin once all are started, and waits for each. None where one can't be
    /// started, or memory ran out before: then none begins.
    fn run_threads<'s, H: Handler + Drop + Send + 's, F: StopFunc + Drop + Send + 's>(
        &self,
        scope: &Scope<'s, &'e ()>,
        alloc: A,
        all: Vec<Member<H, F, A>, A>,
    ) -> Option<Vec<Played<H, F, A>, A>>
    where
        A: 's,
        C: Crew<H, F, A>,
        requires machine { C.runs_on self.now.crew.now self.now.machine.now }
        requires members { AreMembers (C.begins self.now.crew.now) self.now.machine.now (members self.now.machine.now.calls.online) all.items }
        ensures { IfSome result (λ v. ArePlayed H.leads F.leads (C.begins self.now.crew.now) (C.plays self.now.crew.now) (C.leaves self.now.crew.now)
            self.now.machine.now (members self.now.machine.now.calls.online) v.items) }
    {
        let count = all.len();
        let Ok(handles) = Vec::with_capacity(alloc, count) else {
            return None;
        };
        let Ok(back) = Vec::with_capacity(alloc, count) else {
            return None;
        };
        match self.start_all(scope, all, handles) {
            Ok(handles) => {
                self.line.open();
                self.join_all(handles, back)
            }
            Err(started) => {
                self.line.cancel();
                drop(started);
                None
            }
        }
    }
}

/// Runs each CPU on a thread of its own, in a scope of theirs.
fn run_scope<
    'e,
    R: Wait + Threads + Sync,
    H: Handler + Drop + Send,
    F: StopFunc + Drop + Send,
    C: Crew<H, F, A> + Sync,
    A: Allocator + Copy + Send + Sync,
>(run: Run<'e, R, C, A>, alloc: A, all: Vec<Member<H, F, A>, A>) -> Option<Vec<Played<H, F, A>, A>>
    requires machine { C.runs_on run.crew.now run.machine.now }
    requires members { AreMembers (C.begins run.crew.now) run.machine.now (members run.machine.now.calls.online) all.items }
    ensures { IfSome result (λ v. ArePlayed H.leads F.leads (C.begins run.entry.crew.now) (C.plays run.entry.crew.now) (C.leaves run.entry.crew.now)
        run.entry.machine.now (members run.entry.machine.now.calls.online) v.items) }
{
    let Run {
        rt,
        machine,
        crew,
        line,
    } = run;
    thread::scope(
        thread::scope_env(),
        rt,
        move |scope| -> Option<Vec<Played<H, F, A>, A>>
            requires { C.runs_on crew.now machine.now × AreMembers (C.begins crew.now) machine.now (members machine.now.calls.online) all.items }
            ensures { IfSome result (λ v. ArePlayed H.leads F.leads (C.begins crew.entry.now) (C.plays crew.entry.now) (C.leaves crew.entry.now)
                machine.entry.now (members machine.entry.now.calls.online) v.items) }
        {
            let run = Run {
                rt,
                machine,
                crew,
                line,
            };
            run.run_threads(scope, alloc, all)
        },
    )
}

/// Runs each CPU of a machine on a thread of its own, and gives all of them back, ascending, with their handlers and stop
/// functions. These are made before any thread is started. Each CPU plays its part of the crew once all threads are started.
/// Then it polls until all have played theirs, and once more, unless the crew says that it ends at once.
///
/// It waits until all threads have ended. The caller's own thread plays no part, and need not poll.
///
/// E6 (`SmpError::NoMemory`) where memory is refused or a thread can't be started; then no part has begun.
pub fn run_cpus<
    R: Wait + Threads + Sync,
    H: Handler + Drop + Send,
    F: StopFunc + Drop + Send,
    C: Crew<H, F, A> + Sync,
    A: Allocator + Copy + Send + Sync,
>(
    rt: &R,
    alloc: A,
    machine: &Machine<A>,
    boot: MachineBoot<A>,
    crew: &C,
) -> Result<Vec<Played<H, F, A>, A>, SmpError>
    requires full { IsFull boot machine.now }
    requires machine { C.runs_on crew.now machine.now }
    ensures back { IfOk result (λ v. ArePlayed H.leads F.leads (C.begins crew.now) (C.plays crew.now) (C.leaves crew.now) machine.now
        (members machine.now.calls.online) v.items) }
    ensures only { IfErr result (λ e. e ≡ SmpError.NoMemory) }
{
    let Ok(all) = members_of(alloc, machine, boot, crew) else {
        return Err(SmpError::NoMemory);
    };
    let line = StartLine::new();
    let run = Run {
        rt,
        machine,
        crew,
        line: &line,
    };
    match run_scope(run, alloc, all) {
        Some(played) => Ok(played),
        None => Err(SmpError::NoMemory),
    }
}

//! The CPUs of a machine that were not given out yet.

ghost use Rattle.std.specs.Prelude.{◌≡◌, ◌<◌, ◌≤◌, ◌⊎◌, true, false, None, Some, if◌then◌else◌, length, IfOk, IfErr};
ghost use Rattle.smp_mask.specs.Mask.{has};
ghost use Rattle.smp_words.specs.Size.{cpus};
ghost use Rattle.smp_queue.specs.Cpu.{IsFull as IsFullOfCalls, is_left as call_left, given as calls_given};
ghost use Rattle.smp_multi.specs.Cpu.{IsFull as IsFullOfStops, is_left as stop_left, given as stops_given};
ghost use Rattle.smp_machine.specs.Passes.{AreFresh, fresh_passes};
ghost use Rattle.smp_machine.specs.MachineCpu.{IsFull, is_left, given, fresh_place};

use crate::cpu::Cpu;
use crate::heard_at;
use crate::machine::Machine;
use crate::machine_cpu::MachineCpu;
use crate::stoppers::Passes;
use smp_mask::{CpuMask, SmpError};
use smp_multi::StopBoot;
use smp_queue::Boot;
use smp_words::size::NR_CPUS;
use std::alloc::{AllocError, Allocator};
use std::marker::Model;
use std::snapshot::Snapshot;

/// Hands each CPU of a machine out once.
#[derive(Drop)]
pub struct MachineBoot<A: Allocator> {
    /// The machine as it was made, which contracts speak of.
    machine: Snapshot<Machine<A>>,
    online: CpuMask,
    waiting: Vec<Option<Cpu<A>>, A>,
}

impl<A: Allocator> Model for MachineBoot<A> {
    ghost use Rattle.std.specs.Prelude.{map, is_some};
    ghost use Rattle.smp_machine.specs.MachineCpu.{BootValue, AreWaiting};

    ghost Value = { BootValue };

    ghost view = { λ b. record { machine = b.machine.value; left = map is_some b.waiting.items } };

    ghost invariant = { λ b. AreWaiting b.machine.value b.online b.waiting.items };
}

/// The number of a CPU, and whether it is online.
#[derive(Clone, Copy)]
struct BootCpu {
    number: u32,
    is_online: bool,
}

/// The CPU of these parts, where it is online.
fn seat_if<A: Allocator>(
    machine: &Machine<A>,
    calls: &mut Boot<A>,
    stops: &mut StopBoot<A>,
    passes: Passes<A>,
    cpu: BootCpu,
) -> Option<Cpu<A>>
    requires online { (cpu.is_online ≡ has calls.old.table.online cpu.number) × (cpu.is_online ≡ has machine.now.stops.setting.online cpu.number) }
    requires calls { (calls.old.table ≡ machine.now.calls) × (cpu.is_online ≡ true → call_left calls.old cpu.number ≡ true) }
    requires table { (stops.old.table ≡ machine.now.stops.table) × (stops.old.setting ≡ machine.now.stops.setting) }
    requires stops { cpu.is_online ≡ true → stop_left stops.old cpu.number ≡ true }
    requires passes { passes ≡ fresh_passes machine.now.queues cpu.number }
    ensures cpu { result ≡ if cpu.is_online then Some (fresh_place machine.now cpu.number) else None }
    ensures calls { calls.new ≡ if cpu.is_online then calls_given cpu.number calls.old else calls.old }
    ensures stops { stops.new ≡ if cpu.is_online then stops_given cpu.number stops.old else stops.old }
{
    let _ = machine;
    let BootCpu { number, is_online } = cpu;
    if !is_online {
        return None;
    }
    let Ok(calls) = calls.cpu(number) else {
        unreachable!()
    };
    let Ok(stops) = stops.cpu(number) else {
        unreachable!()
    };
    let place = MachineCpu {
        calls,
        stops,
        passes,
        heard: heard_at::none(),
        source: number,
    };
    Some(Cpu { place })
}

/// All CPUs of the machine that are online.
pub(crate) fn seat_all<A: Allocator>(
    alloc: A,
    machine: &Machine<A>,
    mut calls: Boot<A>,
    mut stops: StopBoot<A>,
    mut passes: Vec<Passes<A>, A>,
) -> Result<MachineBoot<A>, AllocError>
    requires calls { IsFullOfCalls calls machine.now.calls }
    requires stops { IsFullOfStops stops machine.now.stops.table machine.now.stops.setting }
    requires sized { length passes.items ≡ cpus }
    requires passes { AreFresh machine.now.queues 0 passes.items }
    ensures { IfOk result (λ b. IsFull b machine.now) }
{
    let online = machine.online();
    let mut waiting = Vec::with_capacity(alloc, NR_CPUS as usize)?;
    for number in 0..NR_CPUS {
        let own = passes.remove(0);
        let is_online = online.contains(number);
        let boot = BootCpu { number, is_online };
        let cpu = seat_if(machine, &mut calls, &mut stops, own, boot);
        waiting.push(cpu)?;
    }
    let machine = Snapshot::of(machine);
    Ok(MachineBoot {
        machine,
        online,
        waiting,
    })
}

impl<A: Allocator> MachineBoot<A> {
    /// This CPU's value: that of a CPU of this machine that has done nothing. E1 where it is not online, then E2 where it
    /// was given out. It makes no step of a table, and does not wait.
    pub fn cpu(&mut self, cpu: u32) -> Result<Cpu<A>, SmpError>
        ensures ok { IfOk result (λ c. (c ≡ fresh_place self.old.machine cpu) × (has self.old.machine.calls.online cpu ≡ true)
            × (is_left self.old cpu ≡ true) × (self.new ≡ given cpu self.old)) }
        ensures err { IfErr result (λ e. ((e ≡ SmpError.NoCpu) × (has self.old.machine.calls.online cpu ≡ false))
            ⊎ ((e ≡ SmpError.Busy) × (has self.old.machine.calls.online cpu ≡ true) × (is_left self.old cpu ≡ false))) }
        ensures kept { IfErr result (λ e. self.new ≡ self.old) }
    {
        if !self.online.contains(cpu) {
            return Err(SmpError::NoCpu);
        }
        match self.waiting[cpu as usize].take() {
            Some(given) => Ok(given),
            None => Err(SmpError::Busy),
        }
    }
}

//! Opening: the two tables, and a seat for each CPU that is online.

ghost use Rattle.std.specs.Prelude.{◌≡◌, ◌≤◌, ◌⊎◌, ◌↔◌, true, IfErr, IfOk, IsErrOf, OnOk, length};
ghost use Rattle.smp_labels.specs.Labels.{AreLabels};
ghost use Rattle.smp_mask.specs.Mask.{has};
ghost use Rattle.smp_words.specs.Limits.{AreLimits};
ghost use Rattle.smp_queue.specs.Cpu.{given};
ghost use Rattle.smp_multi.specs.Cpu.{given as given_stop};
ghost use Rattle.smp_tables_c.specs.Opens.{AreLeft, HasSeats, IsFilled, IsLeft, OpenAnswers, fresh_seat};

use crate::handle::SmpCpu;
use crate::place::CpuPlace;
use crate::seat::OwnedSeat;
use smp_labels::LabelMap;
use smp_mask::{CpuMask, SmpError};
use smp_multi::{StopBoot, StopTable};
use smp_queue::{Boot, CallTable};
use std::alloc::Global;
use std::sync::Arc;

/// A seat that may be there.
type MaybeSeat = Option<Box<OwnedSeat, Global>>;

/// Two new tables, and their CPUs that are not at a seat yet.
#[derive(Drop)]
struct Opening {
    calls: Arc<CallTable<Global>, Global>,
    stops: Arc<StopTable<Global>, Global>,
    boot: Boot<Global>,
    stop_boot: StopBoot<Global>,
    ghost boot_is: { boot.table ≡ calls.value },
    ghost stop_boot_is: { (stop_boot.table ≡ stops.value.table) × (stop_boot.setting ≡ stops.value.setting) },
}

impl Opening {
    /// New tables of these CPUs with these labels.
    fn new(alloc: Global, nr: u32, online: CpuMask, labels: &LabelMap) -> Result<Opening, SmpError>
        ensures limits { OnOk result (AreLimits nr online) }
        ensures refused { IsErrOf result SmpError.BadArgument ↔ (¬ (AreLimits nr online)) }
        ensures only { IfErr result (λ e. (e ≡ SmpError.BadArgument) ⊎ (e ≡ SmpError.NoMemory)) }
        ensures made { IfOk result (λ o. (o.calls.value.nr ≡ nr) × (o.calls.value.online ≡ online)
            × (o.stops.value.nr ≡ nr) × (o.stops.value.setting ≡ record { online = online; labels = labels.now })) }
        ensures left { IfOk result (λ o. AreLeft 0 online o.boot o.stop_boot) }
    {
        let (calls, boot) = CallTable::new(alloc, nr, online)?;
        let (stops, stop_boot) = StopTable::new(alloc, nr, online, labels)?;
        let (Ok(calls), Ok(stops)) = (Arc::new(alloc, calls), Arc::new(alloc, stops)) else {
            return Err(SmpError::NoMemory);
        };
        Ok(Opening {
            calls,
            stops,
            boot,
            stop_boot,
        })
    }

    /// The seat of a CPU that is online and was not given out. Its only refusal is that of memory.
    fn seat(&mut self, alloc: Global, cpu: u32) -> Result<Box<OwnedSeat, Global>, SmpError>
        requires online { has self.old.calls.value.online cpu ≡ true }
        requires also_online { has self.old.stops.value.setting.online cpu ≡ true }
        requires left { IsLeft self.old.boot self.old.stop_boot cpu }
        ensures calls { self.new.calls.value ≡ self.old.calls.value }
        ensures stops { self.new.stops.value ≡ self.old.stops.value }
        ensures seat { IfOk result (λ b. b.value ≡ fresh_seat self.old.calls.value self.old.stops.value cpu) }
        ensures given { IfOk result (λ b. (self.new.boot ≡ given cpu self.old.boot) × (self.new.stop_boot ≡ given_stop cpu self.old.stop_boot)) }
        ensures refused { IfErr result (λ e. e ≡ SmpError.NoMemory) }
    {
        let me = self.boot.cpu(cpu)?;
        let stop = self.stop_boot.cpu(cpu)?;
        let (Ok(calls), Ok(stops)) = (Arc::try_clone(&self.calls), Arc::try_clone(&self.stops))
        else {
            return Err(SmpError::NoMemory);
        };
        let seat = OwnedSeat {
            calls,
            stops,
            place: CpuPlace::Out(me, stop),
            slot: 0,
        };
        match Box::new(alloc, seat) {
            Ok(seat) => Ok(seat),
            Err(_) => Err(SmpError::NoMemory),
        }
    }

    /// The seats of the CPUs below `nr` that are online. Its only refusal is that of memory.
    fn seats(
        &mut self,
        alloc: Global,
        nr: u32,
        online: CpuMask,
    ) -> Result<Vec<MaybeSeat, Global>, SmpError>
        requires online { (self.old.calls.value.online ≡ online) × (self.old.stops.value.setting.online ≡ online) }
        requires left { AreLeft 0 online self.old.boot self.old.stop_boot }
        ensures calls { self.new.calls.value ≡ self.old.calls.value }
        ensures stops { self.new.stops.value ≡ self.old.stops.value }
        ensures seats { IfOk result (λ v. HasSeats self.old.calls.value self.old.stops.value nr online v.items) }
        ensures refused { IfErr result (λ e. e ≡ SmpError.NoMemory) }
    {
        let mut seats = Vec::new(alloc);
        for cpu in 0..nr {
            let seat = if online.contains(cpu) {
                Some(self.seat(alloc, cpu)?)
            } else {
                None
            };
            if seats.push(seat).is_err() {
                return Err(SmpError::NoMemory);
            }
        }
        Ok(seats)
    }
}

/// Puts each seat that is there into the handle of its place.
fn fill(seats: &mut [MaybeSeat], cpus: &mut [SmpCpu])
    requires { length seats.old ≤ length cpus.old }
    ensures { IsFilled seats.old cpus.old cpus.new }
{
    for cpu in 0..seats.len() {
        if let Some(seat) = seats[cpu].take() {
            cpus[cpu].put(seat);
        }
    }
}

/// Makes the tables, and opens the handles of the CPUs that are online. At an error no handle is changed.
pub fn open_all(
    alloc: Global,
    nr: u32,
    online: CpuMask,
    labels: &LabelMap,
    cpus: &mut [SmpCpu],
) -> Result<(), SmpError>
    requires { AreLabels labels.now.keys labels.now.entries }
    ensures { OpenAnswers nr online labels.now cpus.old cpus.new result }
{
    if nr as usize > cpus.len() {
        return Err(SmpError::BadArgument);
    }
    let mut opening = Opening::new(alloc, nr, online, labels)?;
    let mut seats = opening.seats(alloc, nr, online)?;
    fill(&mut seats, cpus);
    Ok(())
}

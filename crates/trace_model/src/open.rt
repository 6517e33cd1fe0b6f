//! The state of the model before the first event.

ghost use Rattle.std.specs.Prelude.{◌≡◌, replicate, IfOk};
ghost use Rattle.trace_model.specs.Cpu.{fresh_cpu};
ghost use Rattle.trace_model.specs.Opened.{opening, places_free};
ghost use Rattle.trace_model.specs.Stop.{closed};

use crate::call::Place;
use crate::cpu::Cpu;
use crate::state::State;
use crate::stop::Stop;
use crate::without::Setting;
use smp_labels::LabelWords;
use smp_mask::CpuMask;
use std::alloc::{AllocError, Allocator};

/// CPUs that have done nothing.
fn fresh_cpus<A: Allocator + Copy>(alloc: A) -> Result<Vec<Cpu<A>, A>, AllocError>
    ensures { IfOk result (λ cpus. cpus.items ≡ replicate 512 fresh_cpu) }
{
    let mut cpus = Vec::with_capacity(alloc, 512)?;
    for _cpu in 0..512u32 {
        cpus.push(Cpu::new(alloc))?;
    }
    Ok(cpus)
}

/// Stops that are not open.
fn closed_stops<A: Allocator>(alloc: A, mask: CpuMask) -> Result<Vec<Stop, A>, AllocError>
    ensures { IfOk result (λ stops. stops.items ≡ replicate 64 (closed mask)) }
{
    let mut stops = Vec::with_capacity(alloc, 64)?;
    for _number in 0..64u32 {
        stops.push(Stop::closed(mask))?;
    }
    Ok(stops)
}

/// Records that are free.
#[tactic(auto, unfolding(crate::specs::Opened::places_free))]
fn free_places<A: Allocator>(alloc: A) -> Result<Vec<Place, A>, AllocError>
    ensures { IfOk result (λ places. places.items ≡ places_free 65536) }
{
    let mut places = Vec::with_capacity(alloc, 65_536)?;
    for _id in 0..65_536u32 {
        places.push(Place::Free)?;
    }
    Ok(places)
}

impl<A: Allocator + Copy> State<A> {
    /// Nothing is queued and no stop is open.
    #[tactic(auto, unfolding(crate::specs::Opened::opening))]
    pub fn open_all(alloc: A, setting: Setting, words: LabelWords) -> Result<State<A>, AllocError>
        ensures { IfOk result (λ state. state ≡ opening setting words) }
    {
        let cpus = fresh_cpus(alloc)?;
        let places = free_places(alloc)?;
        let stops = closed_stops(alloc, setting.online)?;
        Ok(State {
            setting,
            cpus,
            places,
            gate: None,
            stops,
            words,
        })
    }
}

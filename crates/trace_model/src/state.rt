//! The state of the model: its CPUs, its records, its stops, and its keys and sites.

ghost use Rattle.std.specs.Prelude.{◌≡◌, ◌<◌, ◌≤◌, length};
ghost use Rattle.trace_model.specs.Cpu.{Makes};
ghost use Rattle.trace_model.specs.State.{freed, place_at, place_reason, slipped, with_place};

use crate::call::Place;
use crate::cpu::Cpu;
use crate::reason::Reason;
use crate::stop::Stop;
use crate::without::Setting;
use smp_labels::LabelWords;
use std::alloc::Allocator;
use std::marker::Model;

/// The state of the model.
#[derive(Drop)]
pub struct State<A: Allocator> {
    pub setting: Setting,
    /// One for each CPU that there can be.
    pub(crate) cpus: Vec<Cpu<A>, A>,
    /// Where each record is.
    pub(crate) places: Vec<Place, A>,
    pub(crate) gate: Option<u32>,
    /// One for each number that a stop can have.
    pub(crate) stops: Vec<Stop, A>,
    pub(crate) words: LabelWords,
}

impl<A: Allocator> Model for State<A> {
    ghost use Rattle.trace_model.specs.State.{StateValue, IsState};

    ghost Value = { StateValue };

    ghost view = { λ s. record { setting = s.setting; cpus = s.cpus.items; places = s.places.items; gate = s.gate; stops = s.stops.items; words = s.words } };

    ghost invariant = { λ s. IsState s.cpus.items s.places.items s.stops.items };
}

/// Where a record is, as the reason why an event is none that needs it elsewhere.
pub(crate) fn place_reason(id: u16, place: Place) -> Reason
    ensures { result ≡ place_reason id place }
{
    match place {
        Place::Free => Reason::RecordFree(id),
        Place::Queue(cpu) => Reason::RecordQueued(id, cpu),
        Place::Batch(cpu) => Reason::RecordInBatch(id, cpu),
        Place::Run(cpu) => Reason::RecordRuns(id, cpu),
    }
}

impl<A: Allocator + Copy> State<A> {
    /// Where a record is.
    pub(crate) fn place(&self, id: u16) -> Place
        ensures { result ≡ place_at self.now id }
    {
        self.places[id as usize]
    }

    /// Unlocks a record that an unlock left out may have unlocked: whether it was so.
    fn slip(&mut self, id: u16, place: Place) -> bool
        ensures { (result, self.new) ≡ slipped id place self.old }
    {
        let without = self.setting.without;
        if !without.unlocks {
            return false;
        }
        let slipped = match place {
            Place::Queue(cpu) if without.order && cpu < 512 =>
                self.cpus[cpu as usize].slip_from_queue(id),
            Place::Batch(cpu) if !without.order && cpu < 512 =>
                self.cpus[cpu as usize].slip_from_batch(id),
            _ => false,
        };
        slipped
    }

    /// A record is at another place.
    pub(crate) fn put_place(&mut self, id: u16, place: Place)
        ensures { self.new ≡ with_place id place self.old }
    {
        self.places[id as usize] = place;
    }

    /// The record is free, or an unlock that is left out has unlocked it.
    pub(crate) fn free(&mut self, id: u16) -> Result<(), Reason>
        ensures { Makes result self.new (freed id self.old) }
    {
        let place = self.place(id);
        match place {
            Place::Free => return Ok(()),
            Place::Queue(_) | Place::Batch(_) | Place::Run(_) => {}
        }
        if !self.slip(id, place) {
            return Err(place_reason(id, place));
        }
        self.put_place(id, Place::Free);
        Ok(())
    }
}

//! How a CPU waits for a lock, in line with others. No step of a table is made here.

use crate::alarms::{Alarm, Alarms};
use crate::line::Place;
use crossbeam_utils::Backoff;
use smp_words::size::NR_CPUS;
use std::sync::Wait;

/// How often a CPU finds something else while it waits, before it lines up whatever it finds. Those in line come first, so the CPUs
/// that try without a place in it do not pass this one by for ever.
const PATIENCE: u32 = 2 * NR_CPUS;

/// A wait of a CPU for a lock that is tried, in line with the other CPUs that wait for it asleep.
#[derive(Drop)]
pub struct LineWait<'t> {
    alarms: &'t Alarms,
    cpu: u32,
    /// After how many looks in vain, one after another, the CPU sleeps; it never does where this is none.
    sleep_after: Option<u32>,
    /// How many looks were in vain since it last found something.
    looks: u32,
    /// How often it has found something.
    finds: u32,
    backoff: Backoff,
    alarm: Option<Alarm<'t>>,
    place: Option<Place<'t>>,
}

impl<'t> LineWait<'t> {
    /// The wait of this CPU, which has not looked yet.
    pub(crate) fn new(alarms: &'t Alarms, cpu: u32, sleep_after: Option<u32>) -> LineWait<'t> {
        LineWait {
            alarms,
            cpu,
            sleep_after,
            looks: 0,
            finds: 0,
            backoff: Backoff::new(),
            alarm: None,
            place: None,
        }
    }

    /// Whether the CPU may try to take the lock now. It may not while it is the turn of another CPU.
    pub fn may_try(&self) -> bool {
        self.sleep_after.is_none() || !self.alarms.line().is_turn_of_another(self.cpu)
    }

    /// Whether the CPU sleeps where it finds nothing.
    fn may_sleep(&self) -> bool {
        match self.sleep_after {
            Some(looks) => looks <= self.looks || PATIENCE <= self.finds,
            None => false,
        }
    }

    /// Call it before a look for anything else that is for this CPU. It sets the CPU's alarm, where the CPU may sleep. It makes no
    /// step, and does not wait.
    pub fn before_look(&mut self) {
        if self.may_sleep() {
            self.alarm = Some(self.alarms.set(self.cpu));
        }
    }

    /// Call it after that look, with whether it has found anything. The CPU is in line where its alarm is set and it has found
    /// nothing, or has found something often enough. Then it tries to take the lock once more, if it may, before it sleeps. What
    /// comes after the look rings its alarm. It makes no step, and does not wait.
    pub fn lines_up(&mut self, found: bool) -> bool {
        let alarm = self.alarm.take();
        if found {
            self.looks = 0;
            self.finds = self.finds.saturating_add(1);
        }
        if found && self.finds < PATIENCE {
            return false;
        }
        let Some(alarm) = alarm else {
            return false;
        };
        self.place = Some(self.alarms.line().mark(self.cpu, alarm));
        true
    }

    /// Call it where the lock was not taken. Where the CPU is in line, it sleeps until its alarm rings. Else it spins, longer each
    /// time, and then gives its processor to others.
    pub fn pause<R: Wait>(&mut self, rt: &R) {
        self.looks = self.looks.saturating_add(1);
        match self.place.take() {
            Some(place) => place.sleep(rt),
            None => self.backoff.snooze(),
        }
    }
}

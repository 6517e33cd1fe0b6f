//! How a CPU waits for another one's step, between two looks for it. No step of a table is made here.

use crate::alarms::{Alarms, WaitAlarm};
use crossbeam_utils::Backoff;
use std::sync::Wait;

/// A wait of a CPU. Before each look it sets the CPU's alarm if the CPU may sleep by then, and after a look in vain it pauses.
#[derive(Drop)]
pub struct Pause<'t> {
    alarms: &'t Alarms,
    cpu: u32,
    /// Whether the CPU is woken by its number alone. Else it is woken with all that wait, too.
    is_alone: bool,
    /// After how many looks in vain, one after another, the CPU sleeps; it never does where this is none.
    sleep_after: Option<u32>,
    /// How many looks were in vain since it last found something.
    looks: u32,
    backoff: Backoff,
    alarm: Option<WaitAlarm<'t>>,
}

impl<'t> Pause<'t> {
    /// The wait of this CPU, which has not looked yet, and whether the CPU is woken by its number alone.
    pub(crate) fn new(
        alarms: &'t Alarms,
        cpu: u32,
        is_alone: bool,
        sleep_after: Option<u32>,
    ) -> Pause<'t> {
        Pause {
            alarms,
            cpu,
            is_alone,
            sleep_after,
            looks: 0,
            backoff: Backoff::new(),
            alarm: None,
        }
    }

    /// Whether the CPU sleeps after its next look, where that is in vain.
    pub fn may_sleep(&self) -> bool {
        match self.sleep_after {
            Some(looks) => looks <= self.looks,
            None => false,
        }
    }

    /// Call it before each look. It sets the CPU's alarm, where the CPU may sleep. It makes no step, and does not wait.
    #[inline(always)]
    pub fn before_look(&mut self) {
        if self.alarm.is_none() && self.may_sleep() {
            self.alarm = Some(if self.is_alone {
                self.alarms.set_alone(self.cpu)
            } else {
                self.alarms.set_waiting(self.cpu)
            });
        }
    }

    /// Call it after a look in vain, with whether the CPU found anything else that is for it. Where the alarm is set, the CPU
    /// sleeps until it rings, and stays awake if it has found something. Else it spins, longer each time, and then gives its
    /// processor to others.
    #[inline(always)]
    pub fn after_look<R: Wait>(&mut self, rt: &R, found: bool) {
        self.looks = if found {
            0
        } else {
            self.looks.saturating_add(1)
        };
        match self.alarm.take() {
            Some(alarm) => {
                if !found {
                    alarm.sleep(rt);
                }
            }
            None => self.backoff.snooze(),
        }
    }
}

//! What a CPU does while it is tortured.

ghost use Rattle.smp_machine.specs.Seats.{IsSameSeat};

use crate::cpus::turn_and_poll;
use crate::torture::choice::Choice;
use crate::torture::counts::Counts;
use crate::torture::heard::{Listener, StopListener};
use crate::torture::schedule::Schedule;
use crate::torture::shared_words::SharedWords;
use smp_machine::Seat;
use std::alloc::Global;
use std::sync::Wait;
use std::time::{Clock, Instant};

/// The CPU at its machine, with its handler and its stop function.
pub type TortureSeat<'m, 'e, R> = Seat<'m, Global, R, Listener<'e>, StopListener>;

/// What a CPU makes at random, and what it has made.
#[derive(Drop)]
pub struct Torturer<'e, T> {
    pub clock: &'e T,
    pub schedule: &'e Schedule,
    pub words: &'e SharedWords,
    pub choice: Choice,
    pub counts: Counts,
    /// How much it has done, modulo 2^64.
    pub acts: u64,
}

/// A turn, and a poll where there is a work to take: what the handler hears in them is a batch of its own.
pub fn poll<R: Wait>(seat: &mut TortureSeat<'_, '_, R>)
    ensures { IsSameSeat seat.old seat.new }
{
    seat.handler.fresh = true;
    turn_and_poll(seat);
}

impl<'e, T: Clock> Torturer<'e, T> {
    /// A CPU of this number that has done nothing.
    pub fn new(
        clock: &'e T,
        schedule: &'e Schedule,
        words: &'e SharedWords,
        number: u32,
    ) -> Torturer<'e, T> {
        Torturer {
            clock,
            schedule,
            words,
            choice: Choice::new(schedule.request.seed, number, schedule.request.threads),
            counts: Counts::new(),
            acts: 0,
        }
    }

    /// Does one thing, and polls once, as often as not: how many seconds have passed. None where there is no clock.
    fn act<R: Wait>(&mut self, seat: &mut TortureSeat<'_, '_, R>) -> Option<u64>
        ensures { IsSameSeat seat.old seat.new }
    {
        let kind = self.choice.kind(&self.schedule.request.weights);
        let before = Instant::now(self.clock).ok()?;
        seat.handler.fresh = true;
        let right = self.make(seat, kind);
        let after = Instant::now(self.clock).ok()?;
        self.counts.made[kind.index()].note(right, after.duration_since(before));
        self.acts = self.acts.wrapping_add(1);
        self.words.note_acts(seat.number(), self.acts);
        if self.choice.flip() {
            poll(seat);
        }
        Some(after.duration_since(self.schedule.began).as_secs())
    }

    /// Does one thing after the other until the seconds have passed.
    pub fn act_all<R: Wait>(&mut self, seat: &mut TortureSeat<'_, '_, R>)
        ensures { IsSameSeat seat.old seat.new }
    {
        for _ in seat.rt.forever() {
            match self.act(seat) {
                Some(seconds) if seconds < u64::from(self.schedule.request.seconds) => {}
                _ => return,
            }
        }
        unreachable!()
    }
}

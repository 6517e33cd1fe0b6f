//! What a CPU does of each kind, and whether it was answered as it should be.

ghost use Rattle.smp_machine.specs.Seats.{IsSameSeat};

use crate::torture::heard::{answer_to, arg_of};
use crate::torture::kind::Kind;
use crate::torture::torturer::{TortureSeat, Torturer, poll};
use crossbeam_utils::Backoff;
use smp_labels::{Entry, LabelMap, SiteKind};
use smp_mask::{CpuMask, Edge, SmpError};
use std::sync::Wait;
use std::thread;
use std::time::{Clock, Duration};

/// Keys, with two sites each.
const KEYS: u32 = 2;

const SITES: u32 = 2 * KEYS;

/// How often a call by a record of the user is tried.
const TRIES: u32 = 100_000_000;

/// A CPU sleeps less than this number of microseconds.
const MOST_SLEEP: u32 = 100;

/// Whether a site jumps while its key is off.
fn is_branch(site: u32) -> bool {
    site % 2 == 1
}

/// The keys and their sites.
pub fn labels() -> Result<LabelMap, SmpError> {
    let sites = [0u32, 1, 2, 3].map(|site| Entry {
        key: site / 2,
        branch: is_branch(site),
    });
    LabelMap::new(&sites, KEYS)
}

/// The CPUs of a mask whose numbers are even where the info is, and else the odd ones.
fn picked(mask: CpuMask, info: u64) -> CpuMask {
    let mut picked = CpuMask::empty();
    for cpu in mask.iter() {
        if u64::from(cpu % 2) == info % 2 {
            picked = picked.with(cpu).unwrap_or(picked);
        }
    }
    picked
}

impl<'e, T: Clock> Torturer<'e, T> {
    /// Notes a call to each CPU of a mask.
    fn note_all(&mut self, kind: Kind, cpus: CpuMask, value: u64) {
        let sent = &mut self.counts.sent;
        for cpu in cpus.iter() {
            sent.note(kind.func(), cpu, value);
        }
    }

    /// Whether this CPU sees what the handlers of these CPUs have stored for a number.
    fn are_answered(&self, cpus: CpuMask, me: u32, number: u64) -> bool {
        cpus.iter()
            .all(|cpu| self.words.is_answered(cpu, me, number))
    }

    /// A number to be told by a call of this CPU. Where the call waits, the number is stored before it.
    fn told(&mut self, me: u32, wait: bool) -> u64 {
        let number = self.choice.value();
        if wait {
            self.words.ask(me, number);
        }
        number
    }

    fn single<R: Wait>(&mut self, seat: &mut TortureSeat<'_, '_, R>, kind: Kind) -> bool
        ensures { IsSameSeat seat.old seat.new }
    {
        let (me, dst) = (seat.number(), self.choice.cpu());
        let wait = Kind::waits(kind.func());
        let info = self.told(me, wait);
        let made = seat.call_single(dst, kind.func(), info, wait);
        self.counts.sent.note(kind.func(), dst, info);
        made.is_ok() && (!wait || self.words.is_answered(dst, me, info))
    }

    fn user<R: Wait>(&mut self, seat: &mut TortureSeat<'_, '_, R>, kind: Kind) -> bool
        ensures { IsSameSeat seat.old seat.new }
    {
        let (u, dst, info) = (self.choice.below(2), self.choice.cpu(), self.choice.value());
        let backoff = Backoff::new();
        for _ in 0..TRIES {
            match seat.call_async(u, dst, kind.func(), info) {
                Ok(()) => {
                    self.counts.sent.note(kind.func(), dst, info);
                    return true;
                }
                Err(SmpError::Busy) => self.counts.retries = self.counts.retries.wrapping_add(1),
                Err(_) => return false,
            }
            poll(seat);
            backoff.snooze();
        }
        false
    }

    fn any<R: Wait>(&mut self, seat: &mut TortureSeat<'_, '_, R>, kind: Kind) -> bool
        ensures { IsSameSeat seat.old seat.new }
    {
        let (me, mask) = (seat.number(), self.choice.mask());
        let wait = Kind::waits(kind.func());
        let info = self.told(me, wait);
        match seat.call_any(mask, kind.func(), info, wait) {
            Ok(cpu) => {
                self.counts.sent.note(kind.func(), cpu, info);
                mask.contains(cpu) && (!wait || self.words.is_answered(cpu, me, info))
            }
            Err(error) => error == SmpError::NoCpu && mask.first().is_none(),
        }
    }

    fn many<R: Wait>(&mut self, seat: &mut TortureSeat<'_, '_, R>, kind: Kind) -> bool
        ensures { IsSameSeat seat.old seat.new }
    {
        let (me, mask) = (seat.number(), self.choice.mask());
        let wait = Kind::waits(kind.func());
        let info = self.told(me, wait);
        let called = seat.call_many(mask, kind.func(), info, wait);
        let wanted = mask.without(me);
        self.note_all(kind, wanted, info);
        called == Ok(wanted) && (!wait || self.are_answered(wanted, me, info))
    }

    /// Calls the CPUs of a mask whose numbers are even where the info is, and else the odd ones.
    fn each<R: Wait>(&mut self, seat: &mut TortureSeat<'_, '_, R>, kind: Kind) -> bool
        ensures { IsSameSeat seat.old seat.new }
    {
        let (me, mask) = (seat.number(), self.choice.mask());
        let wait = Kind::waits(kind.func());
        let info = self.told(me, wait);
        let says = |cpu: u32, info: u64| u64::from(cpu % 2) == info % 2;
        let called = seat.each_cpu_cond(mask, kind.func(), info, &says, wait);
        let wanted = picked(mask, info);
        self.note_all(kind, wanted, info);
        called == Ok(wanted) && (!wait || self.are_answered(wanted, me, info))
    }

    /// An argument of a stop that names this CPU.
    fn arg(&mut self, number: u32) -> u64 {
        arg_of(number, self.choice.value())
    }

    fn stop_one<R: Wait>(&mut self, seat: &mut TortureSeat<'_, '_, R>, kind: Kind) -> bool
        ensures { IsSameSeat seat.old seat.new }
    {
        let (dst, arg) = (self.choice.cpu(), self.arg(seat.number()));
        let answer = seat.stop_one(dst, kind.func(), arg);
        self.counts.sent.note(kind.func(), dst, arg);
        answer == Ok(answer_to(arg))
    }

    fn stop_two<R: Wait>(&mut self, seat: &mut TortureSeat<'_, '_, R>, kind: Kind) -> bool
        ensures { IsSameSeat seat.old seat.new }
    {
        let (a, b, arg) = (
            self.choice.cpu(),
            self.choice.cpu(),
            self.arg(seat.number()),
        );
        let answer = seat.stop_two(a, b, kind.func(), arg);
        if a == b {
            return answer == Err(SmpError::BadArgument);
        }
        self.counts.sent.note(kind.func(), a, arg);
        answer == Ok(answer_to(arg))
    }

    fn stop_machine<R: Wait>(&mut self, seat: &mut TortureSeat<'_, '_, R>, kind: Kind) -> bool
        ensures { IsSameSeat seat.old seat.new }
    {
        let (active, arg) = (self.choice.mask(), self.arg(seat.number()));
        let answer = seat.stop_machine(kind.func(), arg, Some(active));
        self.note_all(kind, active, arg);
        let runs = active.first().is_some();
        answer == Ok(if runs { answer_to(arg) } else { 0 })
    }

    fn set_key<R: Wait>(&mut self, seat: &mut TortureSeat<'_, '_, R>) -> bool
        ensures { IsSameSeat seat.old seat.new }
    {
        let (k, on) = (self.choice.below(KEYS), self.choice.flip());
        seat.set_key(k, on).is_ok()
    }

    fn count<R: Wait>(&mut self, seat: &mut TortureSeat<'_, '_, R>, up: bool) -> bool
        ensures { IsSameSeat seat.old seat.new }
    {
        let k = self.choice.below(KEYS);
        let (counted, edge) = if up {
            (seat.key_inc(k), Edge::Full)
        } else {
            (seat.key_dec(k), Edge::Zero)
        };
        match counted {
            Ok(_) => true,
            Err(error) => error == SmpError::KeyRange(edge),
        }
    }

    fn read_key<R: Wait>(&mut self, seat: &mut TortureSeat<'_, '_, R>) -> bool
        ensures { IsSameSeat seat.old seat.new }
    {
        let k = self.choice.below(KEYS);
        seat.read_key(k).is_ok()
    }

    /// Between the two readings this CPU takes part in no stop, so that no patch comes between.
    fn read_site<R: Wait>(&mut self, seat: &mut TortureSeat<'_, '_, R>) -> bool
        ensures { IsSameSeat seat.old seat.new }
    {
        let site = self.choice.below(SITES);
        let key = seat.read_key(site / 2);
        let read = seat.read_site(site);
        match (key, read) {
            (Ok(on), Ok(kind)) => (kind == SiteKind::Jmp) == (on != is_branch(site)),
            _ => false,
        }
    }

    fn sleep(&mut self) -> bool {
        let micros = self.choice.below(MOST_SLEEP);
        thread::sleep(self.clock, Duration::from_micros(u64::from(micros)));
        true
    }

    /// Does one thing of this kind: whether it was answered as it should be.
    pub fn make<R: Wait>(&mut self, seat: &mut TortureSeat<'_, '_, R>, kind: Kind) -> bool
        ensures { IsSameSeat seat.old seat.new }
    {
        match kind {
            Kind::Single | Kind::SingleWait => self.single(seat, kind),
            Kind::Async => self.user(seat, kind),
            Kind::Any | Kind::AnyWait => self.any(seat, kind),
            Kind::Many | Kind::ManyWait => self.many(seat, kind),
            Kind::Each | Kind::EachWait => self.each(seat, kind),
            Kind::StopOne => self.stop_one(seat, kind),
            Kind::StopTwo => self.stop_two(seat, kind),
            Kind::StopMachine => self.stop_machine(seat, kind),
            Kind::SetKey => self.set_key(seat),
            Kind::KeyInc => self.count(seat, true),
            Kind::KeyDec => self.count(seat, false),
            Kind::ReadKey => self.read_key(seat),
            Kind::ReadSite => self.read_site(seat),
            Kind::Sleep => self.sleep(),
            Kind::Poll => {
                poll(seat);
                true
            }
        }
    }
}

//! How far a search is, told on standard error.

use crate::expectation_names::Named;
use explore::{ManyThreads, Watch};
use std::alloc::Global;
use std::io;
use std::thread::Threads;
use std::time::{Clock, Instant};

/// The clock is looked at once in this number of states.
const EACH: u32 = 1024;

/// What is counted beside the steps.
#[derive(Clone, Copy)]
pub enum Counted {
    States,
    /// The runs of a sample. Each of them looks at the clock.
    Runs,
}

/// Tells standard error once a second how far a search is, from the first second on, and of each expectation that it finds
/// broken. What fails in that is passed over.
#[derive(Drop)]
pub struct Progress<'a, R> {
    rt: &'a HostRuntime,
    counted: Counted,
    /// What is searched for.
    names: &'a [Named],
    threading: ManyThreads<'a, R>,
    /// What is broken, and was not told of.
    broken: Vec<Named>,
    /// None where the clock failed.
    began: Option<Instant>,
    /// The seconds of which standard error was told.
    told: u64,
    /// How often it was called.
    calls: u32,
}

impl<'a, R> Progress<'a, R> {
    pub fn new(
        rt: &'a HostRuntime,
        counted: Counted,
        names: &'a [Named],
        threading: ManyThreads<'a, R>,
    ) -> Progress<'a, R> {
        Progress {
            rt,
            counted,
            names,
            threading,
            broken: Vec::new(rt.alloc()),
            began: Instant::now(rt).ok(),
            told: 0,
            calls: 0,
        }
    }

    /// Whether it is time to look at the clock.
    fn is_due(&self) -> bool {
        match self.counted {
            Counted::States => self.calls % EACH == 0,
            Counted::Runs => true,
        }
    }

    /// How many seconds have passed.
    fn seconds(&self, began: Instant) -> io::Result<u64> {
        Ok(Instant::now(self.rt)?.duration_since(began).as_secs())
    }

    /// Begins a line with the name of an expectation.
    fn tell_name(&self, named: Named) -> io::Result<()> {
        let Named { line, word } = named;
        match line {
            0 | 1 => eprint!(self.rt; "smp: {word}: "),
            _ => eprint!(self.rt; "smp: {word} {line}: "),
        }
    }

    /// Begins a line of the search, with the name where one expectation is searched for alone.
    fn tell_names(&self) -> io::Result<()> {
        let names = self.names;
        match names {
            [one] => self.tell_name(*one),
            _ => eprint!(self.rt; "smp: "),
        }
    }

    /// Tells of all that is broken and was not told of.
    fn tell_untold(&self) -> io::Result<()> {
        for named in self.broken.iter() {
            self.tell_name(*named)?;
            eprintln!(self.rt; "broken")?;
        }
        Ok(())
    }

    /// Tells of what is broken, once a second has passed.
    fn tell_broken(&mut self, began: Instant) -> io::Result<()> {
        if self.seconds(began)? == 0 {
            return Ok(());
        }
        self.tell_untold()?;
        self.broken.clear();
        Ok(())
    }

    /// Tells of the second that has passed, if one has.
    fn tell(&mut self, began: Instant, count: usize, steps: u64) -> io::Result<()> {
        let seconds = self.seconds(began)?;
        if seconds <= self.told {
            return Ok(());
        }
        self.told = seconds;
        self.tell_broken(began)?;
        self.tell_names()?;
        match self.counted {
            Counted::States => eprintln!(self.rt; "{count} states, {steps} steps"),
            Counted::Runs => eprintln!(self.rt; "{count} runs, {steps} steps"),
        }
    }
}

impl<'a, R: Threads + Sync> Watch for Progress<'a, R> {
    type Threading = ManyThreads<'a, R>;

    fn threading(&self) -> ManyThreads<'a, R> {
        self.threading
    }

    fn look(&mut self, count: usize, steps: u64) {
        self.calls = self.calls.wrapping_add(1);
        if !self.is_due() {
            return;
        }
        let Some(began) = self.began else {
            return;
        };
        let _ = self.tell(began, count, steps);
    }

    fn broken(&mut self, number: usize) {
        let Some(named) = self.names.get(number).copied() else {
            return;
        };
        let Some(began) = self.began else {
            return;
        };
        if self.broken.push(named).is_ok() {
            let _ = self.tell_broken(began);
        }
    }
}

//! Times the batches of a workload.

ghost use Rattle.std.specs.Prelude.{◌≡◌, ◌+◌, ◌-◌, ◌%◌, ◌^◌, min, false, IfOk};
ghost use Rattle.std.specs.Duration.{as_nanos};

use crate::bench::samples::{Times, tenths_of_one, times_of};
use crate::error::LoadError;
use crate::request::Limit;
use std::alloc::Global;
use std::time::{Clock, CpuClock, Duration, Instant};

/// What was measured: how many operations, and the times of their batches.
#[derive(Clone, Copy)]
pub struct Measured {
    pub operations: u64,
    pub times: Times,
    /// Tenths of a nanosecond of a processor, of all threads of the process, for one operation.
    pub used: u64,
}

/// The nanoseconds of a time. More than 584 years count as these.
fn nanos_of(time: Duration) -> u64
    ensures { result ≡ min (as_nanos time) (2 ^ 64 - 1) }
{
    u64::try_from(time.as_nanos()).unwrap_or(u64::MAX)
}

/// Times the batches of a workload, and says when it is over.
#[derive(Drop)]
pub struct Meter<'a, R: Clock + CpuClock + Eprint> {
    rt: &'a R,
    name: &'static str,
    limit: Limit,
    /// Tenths of a nanosecond for one operation, of each batch.
    samples: Vec<u64, Global>,
    operations: u64,
    began: Instant,
    last: Instant,
    /// The processor's time that the process had used when the first batch began.
    used: Duration,
    /// The seconds of which standard error was told.
    told: u64,
    /// Whether a batch could not be noted.
    failed: bool,
}

impl<'a, R: Clock + CpuClock + Eprint> Meter<'a, R> {
    pub fn new(
        rt: &'a R,
        alloc: Global,
        name: &'static str,
        limit: Limit,
    ) -> Result<Meter<'a, R>, LoadError> {
        let now = Instant::now(rt)?;
        Ok(Meter {
            rt,
            name,
            limit,
            samples: Vec::new(alloc),
            operations: 0,
            began: now,
            last: now,
            used: rt.process_cpu_time()?,
            told: 0,
            failed: false,
        })
    }

    /// Begins the first batch now.
    pub fn begin(&mut self) -> Result<(), LoadError> {
        let now = Instant::now(self.rt)?;
        self.began = now;
        self.last = now;
        self.used = self.rt.process_cpu_time()?;
        Ok(())
    }

    /// How long the workload goes on.
    pub fn limit(&self) -> Limit {
        self.limit
    }

    /// How many operations there are to be in all, where they are counted.
    pub fn quota(&self) -> u64 {
        match self.limit {
            Limit::Operations(most) => most as u64,
            Limit::Milliseconds(_) => u64::MAX,
        }
    }

    /// Tells standard error of each second that has passed.
    fn tell(&mut self, passed: Duration) -> Result<(), LoadError>
        ensures { (self.new.operations ≡ self.old.operations) × (self.new.failed ≡ self.old.failed) }
    {
        let seconds = passed.as_secs();
        if seconds > self.told {
            self.told = seconds;
            eprintln!(self.rt;
                "{}: {seconds} s, {} operations",
                self.name, self.operations
            )?;
        }
        Ok(())
    }

    /// Notes a batch of this number of operations that ends now. Returns whether the workload goes on.
    fn note(&mut self, operations: u32) -> Result<bool, LoadError>
        ensures noted { IfOk result (λ _. self.new.operations ≡ (self.old.operations + operations) % 2 ^ 64) }
        ensures failed { self.new.failed ≡ self.old.failed }
    {
        let now = Instant::now(self.rt)?;
        if operations > 0 {
            let nanos = nanos_of(now.duration_since(self.last));
            self.samples
                .push(tenths_of_one(nanos, u64::from(operations)))?;
        }
        self.last = now;
        self.operations = self.operations.wrapping_add(operations as u64);
        let passed = now.duration_since(self.began);
        self.tell(passed)?;
        Ok(match self.limit {
            Limit::Operations(most) => self.operations < most as u64,
            Limit::Milliseconds(most) => passed.as_millis() < most as u128,
        })
    }

    /// A batch of this number of operations ends now. Returns whether the workload goes on. Where the clock, memory or standard
    /// error fails it does not, and `close` tells so.
    pub fn lap(&mut self, operations: u32) -> bool
        ensures { self.new.failed ≡ false → (self.old.failed ≡ false) × (self.new.operations ≡ (self.old.operations + operations) % 2 ^ 64) }
    {
        match self.note(operations) {
            Ok(goes_on) => goes_on,
            Err(_) => {
                self.failed = true;
                false
            }
        }
    }

    /// What was measured. `System` where a batch could not be noted.
    pub fn close(self) -> Result<Measured, LoadError>
        ensures { IfOk result (λ m. (self.entry.failed ≡ false) × (m.operations ≡ self.entry.operations)) }
    {
        if self.failed {
            return Err(LoadError::System);
        }
        let mut samples = self.samples;
        if samples.is_empty() {
            return Err(LoadError::NoBatch);
        }
        let used = nanos_of(self.rt.process_cpu_time()?.saturating_sub(self.used));
        Ok(Measured {
            operations: self.operations,
            times: times_of(samples.as_mut_slice()),
            used: tenths_of_one(used, self.operations.max(1)),
        })
    }
}

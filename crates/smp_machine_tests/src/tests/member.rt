//! What the CPUs of a machine run, and a CPU with it.

ghost use Rattle.std.specs.Prelude.{◌≡◌};

use super::hall::Hall;
use super::*;
use smp_multi::StopFunc;

/// A function of calls that is slow on purpose.
pub const SLOW: u16 = 15;

/// Counts the calls that it hears, and keeps the last: its source, its function and its word. A slow function raises the
/// flag at its end.
#[derive(Drop)]
pub struct Ear<'a> {
    pub calls: u32,
    pub last: (u32, u16, u64),
    pub hall: &'a Hall,
}

impl<'a> Ear<'a> {
    /// One that has heard nothing.
    pub fn new(hall: &'a Hall) -> Ear<'a> {
        Ear {
            calls: 0,
            last: (0, 0, 0),
            hall,
        }
    }
}

impl<'a> Handler for Ear<'a> {
    ghost leads = { λ _ _ _. Unit {0} };

    fn call(&mut self, src: u32, func: u16, info: u64) {
        if func == SLOW {
            self.hall.linger();
            self.hall.raise();
        }
        self.calls = self.calls.saturating_add(1);
        self.last = (src, func, info);
    }
}

/// A stop function that raises the flag, and waits until another CPU raises it once more.
pub const STAYS: u16 = 10;

/// A stop function, which counts its calls. Function 7 answers 7 on CPU 1, function 8 its argument, function 9 answers 9,
/// and [`STAYS`] whether the flag was raised no third time while it ran; all else is 0.
#[derive(Drop)]
pub struct Teller<'a> {
    pub calls: u32,
    hall: &'a Hall,
}

impl<'a> Teller<'a> {
    /// One that was not called.
    pub fn new(hall: &'a Hall) -> Teller<'a> {
        Teller { calls: 0, hall }
    }
}

impl<'a> StopFunc for Teller<'a> {
    ghost leads = { λ _ _ _. Unit {0} };

    fn run(&mut self, cpu: u32, func: u16, arg: u64) -> i32 {
        self.calls = self.calls.saturating_add(1);
        self.hall.has_run(cpu);
        match (func, cpu) {
            (7, 1) => 7,
            (8, _) => (arg % 32) as i32,
            (9, _) => 9,
            (STAYS, _) => i32::from(self.hall.stays()),
            _ => 0,
        }
    }
}

/// A CPU at its machine.
pub type Member<'m, 'a, R> = Seat<'m, Global, R, Ear<'a>, Teller<'a>>;

/// The CPUs of a machine that are not given out.
#[derive(Drop)]
pub struct Room<'m, 'a, R: Wait> {
    rt: &'m R,
    machine: &'m Machine<Global>,
    boot: MachineBoot<Global>,
    hall: &'a Hall,
    ghost whole: { boot.machine ≡ machine.now },
}

impl<'m, 'a, R: Wait> Room<'m, 'a, R> {
    pub fn new(
        rt: &'m R,
        machine: &'m Machine<Global>,
        boot: MachineBoot<Global>,
        hall: &'a Hall,
    ) -> Room<'m, 'a, R>
        requires { boot.machine ≡ machine.now }
    {
        Room {
            rt,
            machine,
            boot,
            hall,
        }
    }

    /// This CPU.
    fn member(&mut self, number: u32) -> Result<Member<'m, 'a, R>, SmpError> {
        let cpu = self.boot.cpu(number)?;
        let (ear, teller) = (Ear::new(self.hall), Teller::new(self.hall));
        Ok(Seat::new(self.machine, self.rt, cpu, ear, teller))
    }

    /// The CPUs from 0 on.
    pub fn members(
        &mut self,
        alloc: Global,
        cpus: u32,
    ) -> Result<Vec<Member<'m, 'a, R>, Global>, SmpError> {
        let mut members = Vec::new(alloc);
        for number in 0..cpus {
            let member = self.member(number)?;
            if members.push(member).is_err() {
                return Err(SmpError::NoMemory);
            }
        }
        Ok(members)
    }
}

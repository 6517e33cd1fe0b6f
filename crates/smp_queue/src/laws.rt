//! What a post and a question for a record are refused for, by their numbers, what a function hears of its call, and what
//! handling a call at a time comes to. Two CPUs at one moment.
//! These functions do nothing.

ghost use Rattle.std.specs.Prelude.{◌≡◌};
ghost use Rattle.smp_words.specs.Size.{owner};
ghost use Rattle.smp_words.specs.declared.call.Call.{Call};
ghost use Rattle.smp_queue.specs.Chain.{StepsAreHandle};
ghost use Rattle.smp_queue.specs.Cpu.{CpuValue};
ghost use Rattle.smp_queue.specs.Handling.{heard_of};
ghost use Rattle.smp_queue.specs.Refusals.{MisuseIsOfTheNumbers, RecordsAreThoseOfTheNumbers};
ghost use Rattle.smp_queue.specs.Together.{AreTogether, RunsWhatIsSent};

/// A post is refused with E4 (`SmpError::BadArgument`) just where its record may not carry such a call, it has no tries, or it is to the own CPU.
/// Record 0 carries SYNC calls, and 1, 10 and 11 ASYNC calls. The records 2 to 9, and those from 12 on, carry calls to one
/// CPU each.
pub fn misuse_is_of_the_numbers()
    ensures { MisuseIsOfTheNumbers }
{}

/// A question for a record is refused with E4 (`SmpError::BadArgument`) just where the CPU has no record of that number.
pub fn records_are_those_of_the_numbers()
    ensures { RecordsAreThoseOfTheNumbers }
{}

/// The function of a queued call hears the CPU that owns the call's record as its source, and the call's own number and info.
pub fn calls_are_heard()
    ensures { (call : Call) → heard_of call ≡ record { src = owner call.id; func = call.func; info = call.info } }
{}

/// Calls that `CallTable::begin_handle` and `CallTable::resume` hand out one after another, up to `Next::Done`, are just those
/// of the batch that was taken, each once, in drain order. They leave of the CPU what `CallTable::handle` leaves.
pub fn steps_are_handle()
    ensures { StepsAreHandle }
{}

/// Two CPUs whose values are parts of the same calls: each has begun what the other has sent to it, in order, and no call twice.
pub fn parts_agree()
    ensures { (one other : CpuValue) → AreTogether one other → RunsWhatIsSent one other × RunsWhatIsSent other one }
{}

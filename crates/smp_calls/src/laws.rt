//! The numbers of a CPU's records, the classes of its calls, what a call on the CPU itself is, and when a CPU that waits handles.
//! These functions do nothing.

ghost use Rattle.std.specs.Prelude.{◌≡◌, ◌≢◌, ℕ, ◌+◌, ◌<◌, Bool, true, false, [], ◌∷◌};
ghost use Rattle.smp_call_steps.specs.declared.known.Logged.TheVariants as logged;
ghost use Rattle.smp_queue.specs.Cpu.{CpuValue, confirmed_at, looks};
ghost use Rattle.smp_calls.specs.Families.{IsSized, Awaits, CallsHere, CallsUserHere, RefusesUser};
ghost use Rattle.smp_calls.specs.Queued.{calls_and_interrupts};
ghost use Rattle.smp_calls.specs.Records.{AreApart, class_for, single_record};
ghost use Rattle.smp_calls.specs.Turns.{AreSpaced, TakesApart};

use crate::records::{ASYNC_RECORD, SYNC_RECORD, USER_RECORDS};
use smp_mask::SmpError;
use smp_queue::Handler;
use smp_words::call::Class;

/// Record 0 is for a call to one CPU that is waited for, and record 1 for one that is not. The user has two records.
/// `many_record` and `user_record` give the numbers of the others, and no two of all these records are one.
pub fn records()
    ensures numbers { (SYNC_RECORD ≡ 0) × (ASYNC_RECORD ≡ 1) × (USER_RECORDS ≡ 2) }
    ensures apart { AreApart }
{}

/// A call to one CPU uses record 0 where it is waited for, and record 1 where it is not.
pub fn single_records()
    ensures { (single_record true ≡ 0) × (single_record false ≡ 1) }
{}

/// A call to many queues all its calls before it sends its first interrupt, also where each queue was empty.
pub fn interrupts_come_last()
    ensures { (a b : ℕ) → calls_and_interrupts (record { to = a; is_first = true } ∷ record { to = b; is_first = true } ∷ [])
        ≡ logged.Queued a ∷ logged.Queued b ∷ logged.Interrupted a ∷ logged.Interrupted b ∷ [] }
{}

/// A call that is waited for is SYNC, to one CPU and to many, and one that is not waited for is ASYNC.
pub fn classes()
    ensures { (class_for true ≡ Class.Sync) × (class_for false ≡ Class.Async) }
{}

/// A call on the CPU itself runs the function there, with this CPU as its source.
pub fn own_calls<H: Handler>()
    ensures { (old new : CpuValue) (before after : H) (func info : ℕ) (wait : Bool) → CallsHere H.leads old before new after func info wait →
        (called : H) × H.leads called (record { src = old.number; func = func; info = info }) after }
{}

/// A call on the CPU itself by a record of the user runs the function at once, with this CPU as its source. One look has found
/// the record free; a record that is not free is refused there too.
pub fn own_calls_by_users<H: Handler>()
    ensures heard { (old new : CpuValue) (before after : H) (u func info : ℕ) → CallsUserHere H.leads old before new after u func info →
        H.leads before (record { src = old.number; func = func; info = info }) after }
    ensures free { (old new : CpuValue) (before after : H) (u func info : ℕ) → IsSized old → u < 2 →
        CallsUserHere H.leads old before new after u func info → (new.steps ≡ old.steps + 1) × (confirmed_at new (10 + u) ≡ true) }
    ensures busy { (online u : ℕ) (old : CpuValue) → u < 2 → confirmed_at old (10 + u) ≢ true →
        RefusesUser online old (looks old) u old.number SmpError.Busy }
{}

/// A CPU that waits takes its interrupt word once after each look that finds its record locked, before the next one (`looks`). No
/// call takes it twice with no step between (`apart`). Each take is listed with the number of steps outside handling before it.
pub fn waits_handle_after_looks<H: Handler>()
    ensures looks { (k : ℕ) (old new : CpuValue) (before after : H) → Awaits k old before new after →
        old.steps ≡ 3 → old.asked_after ≡ [] → new.steps ≡ 6 → new.asked_after ≡ 4 ∷ 5 ∷ [] }
    ensures apart { (old new : CpuValue) (take : ℕ) → TakesApart old new → old.asked_after ≡ [] → new.asked_after ≢ take ∷ take ∷ [] }
    ensures spaced { AreSpaced 3 7 (4 ∷ 7 ∷ []) × (¬ (AreSpaced 3 7 (3 ∷ []))) × (¬ (AreSpaced 3 7 (4 ∷ 4 ∷ []))) × (¬ (AreSpaced 3 7 (8 ∷ []))) }
{}

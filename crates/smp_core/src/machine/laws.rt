//! What every core keeps, between any two steps. These functions do nothing: they make no step and wait for nobody.

ghost use Rattle.smp_call_steps.specs.Calls.{CallState};
ghost use Rattle.smp_call_steps.specs.Value.{control_of};
ghost use Rattle.smp_core.specs.Machine.{setup_in};
ghost use Rattle.smp_core.specs.Value.{Shown};
ghost use Rattle.smp_stop_steps.specs.State.{StopState};
ghost use Rattle.smp_stop_steps.specs.Table.{stop_number};
ghost use Rattle.smp_stop_steps.specs.Value.{StopShown};
ghost use Rattle.smp_words.specs.Layout.{number_in};

use super::Core;
use smp_stop_steps::laws::refusals_are_of_the_state;
use std::alloc::Allocator;

impl<A: Allocator> Core<A> {
    /// Every core shows a state of the calls that keeps all laws.
    pub fn shows_calls(&self)
        ensures { (calls : CallState) × Shown calls self.now }
    {
        let _nr = self.nr;
    }

    ghost use Rattle.smp_core.specs.Offline.{LeavesOffline};

    /// CPUs that are not online have no part in the calls, at any time: nothing is queued, pending, accepted, held, taken or run
    /// there, and they owe nobody an interrupt. So a CPU that has a queue has an interrupt pending or accepted, or is owed one
    /// by a CPU that is online. It makes no step, and does not wait.
    pub fn leaves_offline(&self)
        ensures { LeavesOffline self.now.online self.now.words self.now.controls }
    {
        let _nr = self.nr;
    }

    ghost use Rattle.smp_core.specs.OfflineStops.{LeavesOfflineStops};

    /// CPUs that are not online have no part in the stops, at any time: none holds the gate, is in a stop or of the mask of an
    /// open one, or has a stop of its own begun. None has looked at a phase, called a stop function, answered, or moved the
    /// count of a key. The gate's word and the rolls have none of them. It makes no step, and does not wait.
    pub fn leaves_offline_stops(&self)
        ensures { LeavesOfflineStops self.now.online self.now.stops }
    {
        let _nr = self.nr;
    }

    ghost use Rattle.std.specs.Prelude.{◌≡◌, ◌≢◌, ℕ, true};
    ghost use Rattle.smp_core.specs.Joined.{HandlesWithOn, IsInOneHalf};
    ghost use Rattle.smp_words.specs.declared.word.Word.TheVariants.{Hand};

    /// What joins the two halves, at any time. A CPU inside `handle` has its interrupts on, in whatever stops the core shows,
    /// and so has one whose handling word is not 0. No CPU is inside a command of each half at once. It makes no step, and
    /// does not wait.
    pub fn joins_halves(&self)
        ensures handles { (p : StopState) → StopShown p self.now.stops → (cpu : ℕ) → HandlesWithOn (control_of self.now.controls cpu).stage (p.now.irq cpu) }
        ensures hand { (p : StopState) → StopShown p self.now.stops → (cpu : ℕ) → number_in self.now.words (Hand cpu) ≢ 0 → p.now.irq cpu ≡ true }
        ensures in_one { (cpu : ℕ) → IsInOneHalf self.now.controls self.now.stops.controls cpu }
    {
        let _nr = self.nr;
    }

    /// And a state of the stops that keeps all laws.
    pub fn shows_stops(&self)
        ensures { (p : StopState) × StopShown p self.now.stops }
    {
        self.stops.shows_stops();
    }

    ghost use Rattle.smp_core.specs.Whole.{IsWhole};

    /// Every core is whole: the laws are those of `laws::whole_cores_keep_laws`.
    pub fn is_whole(&self)
        ensures { IsWhole self.now }
    {
        self.stops.is_sound();
    }

    ghost use Rattle.smp_stop_steps.specs.StopLaws.{KeepsStopLaws};

    /// The laws of rendezvous, between any two steps:
    /// - The phase law holds.
    /// - A CPU's interrupts are off from its look at `DISABLE_IRQ` until it has left.
    /// - A stop function runs in a stop of kind One, or on an active CPU of a Multi stop at `RUN`. In a Multi stop every CPU
    ///   of the mask has then acknowledged disabled interrupts.
    /// - The last CPU to complete is the one that stores done.
    /// - The label table is lawful whenever no patch is between its first and its last store.
    /// - A CPU that patches is active in its patch stop, at `RUN`, and patches alone. No CPU has interrupts on meanwhile.
    /// - A CPU with interrupts on finds in the table all that it has read since they went on.
    /// - The word of a key is what the nudges and the patches of all CPUs have moved it to.
    pub fn keeps_stop_laws(&self)
        ensures { (p : StopState) → StopShown p self.now.stops → KeepsStopLaws (setup_in self.now) p (stop_number self.now.stops.table) }
    {}

    ghost use Rattle.smp_stop_steps.specs.StepLaws.{StepsKeepLaws};
    ghost use Rattle.smp_call_steps.specs.StepLaws.{StepsKeepLaws as CallStepsKeepLaws};

    /// The laws of the steps that the CPUs may make next.
    ///
    /// In commands of the stop half: which CPU may make each step; that a stop function runs once, which its step says, and
    /// completes with its own answer; that each store to a key or a site is one of a patch. A step's note says what the step
    /// has changed.
    ///
    /// In commands of the call half: which CPU may make each step, and which words of records it leaves as they are. Calls
    /// begin, are counted and end one by one, and a step says `call S F I` just where it begins one. It says `owed` or
    /// `queued` just where it queues a call, by whether that queue was empty. What other notes say holds, and a post goes on
    /// as the law of tries says.
    pub fn steps_keep_laws(&self)
        ensures stops { (p : StopState) → StopShown p self.now.stops → StepsKeepLaws self.now.stops p }
        ensures calls { (a : CallState) → Shown a self.now → CallStepsKeepLaws a (number_in self.now.words) (control_of self.now.controls) }
    {
        self.stops.steps_keep_laws();
    }

    ghost use Rattle.smp_stop_steps.specs.Refusals.{RefusesByState};

    /// What `start` refuses of the commands of the stop half, of a CPU outside a command, is said by the state of the stops:
    /// which stop the CPU is in, whether it has left it, whether its interrupts are on, whether its own stop is open, and
    /// which CPU holds the gate.
    pub fn refusals_are_of_the_state(&self)
        ensures { (p : StopState) → StopShown p self.now.stops → RefusesByState self.now.stops p }
    {
        refusals_are_of_the_state();
    }

    ghost use Rattle.smp_call_steps.specs.BatchLinks.{BatchesLinked};

    /// At any time the next words link all that is left of the batch that a CPU has taken: down in the order of the
    /// queue until they are reversed, then up.
    pub fn links_batches(&self)
        ensures { (calls : CallState) → Shown calls self.now → BatchesLinked calls (number_in self.now.words) (control_of self.now.controls) }
    {}

    ghost use Rattle.smp_call_steps.specs.Counts.{ConfirmedCallsRan};
    ghost use Rattle.smp_call_steps.specs.HaveRun.{ConfirmedSyncCallsEnded, ConfirmedCallsHaveRun};

    /// Where a source has seen the last call of its record confirmed, all calls by that record that were ever
    /// queued have run, and the SYNC calls among them have ended; the last may run still, as an ASYNC call. So each call
    /// that it has sent by that record is among those that its target has run.
    pub fn confirmed_calls_ran(&self)
        ensures ran { (calls : CallState) → Shown calls self.now → ConfirmedCallsRan calls }
        ensures ended { (calls : CallState) → Shown calls self.now → ConfirmedSyncCallsEnded calls }
        ensures each { (calls : CallState) → Shown calls self.now → ConfirmedCallsHaveRun calls }
    {}
}

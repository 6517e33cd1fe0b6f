//! Runs what a script asks for, and keeps what it prints.

ghost use Rattle.std.specs.Prelude.{◌≡◌, ◌+◌, ◌++◌, ◌<◌, ◌≤◌, ◌^◌, false, IfOk, IfErr, OnOk, sum_by, string_bytes};
ghost use Rattle.smp_words.specs.Limits.{AreLimits};
ghost use Rattle.smp_core.specs.New.{new_core};
ghost use Rattle.smp_script.specs.Script.{events_of};
ghost use Rattle.smp_script.specs.MeaningOf.{meaning_of};
ghost use Rattle.smp_replay.specs.Output.{directive_after, event_after, event_text, labels_or_none, replay_after, replay_of, show_after, steps_after};
ghost use Rattle.smp_replay.specs.ProgressOf.{progress_of};
ghost use Rattle.smp_replay.specs.Printing.{PrintsReplay};

use crate::show::write_show;
use crate::text::{write_seen, write_stopped};
use smp_core::{Core, Event, Seen};
use smp_labels::LabelMap;
use smp_mask::{CpuMask, SmpError};
use smp_script::Mode;
use smp_script::directive::Directive;
use smp_script::script::{Script, read_script};
use std::alloc::{AllocError, Allocator};

// A step prints its line, and a start none.
fn write_event<A: Allocator>(out: &mut String<A>, seen: Option<Seen>) -> Result<(), AllocError>
    ensures { OnOk result (string_bytes out.new ≡ string_bytes out.old ++ event_text seen) }
{
    match seen {
        Some(seen) => write_seen(out, seen),
        None => Ok(()),
    }
}

/// A replay under way.
#[derive(Drop)]
pub struct Playback<A: Allocator> {
    core: Core<A>,
    /// How many events were made.
    position: u32,
    /// What was printed.
    text: String<A>,
}

impl<A: Allocator> Playback<A> {
    // One event: whether it was refused.
    fn event(&mut self, event: Event) -> Result<bool, AllocError>
        requires { self.old.position + 1 < 2 ^ 32 }
        ensures made { IfOk result (λ stopped. progress_of self.new stopped ≡ event_after (progress_of self.old false) event) }
        ensures count { self.new.position ≤ self.old.position + 1 }
    {
        match self.core.apply(event) {
            Ok(seen) => {
                write_event(&mut self.text, seen)?;
                self.position += 1;
                Ok(false)
            }
            Err(error) => {
                write_stopped(&mut self.text, self.position, error)?;
                Ok(true)
            }
        }
    }

    // So many steps of a CPU: whether one was refused.
    fn steps(&mut self, cpu: u32, count: u32) -> Result<bool, AllocError>
        requires { self.old.position + count < 2 ^ 32 }
        ensures made { IfOk result (λ stopped. progress_of self.new stopped ≡ steps_after (progress_of self.old false) cpu count) }
        ensures count { self.new.position ≤ self.old.position + count }
    {
        for _step in 0..count {
            if self.event(Event::Step(cpu))? {
                return Ok(true);
            }
        }
        Ok(false)
    }

    // What one line asks for: whether an event was refused.
    fn directive(&mut self, directive: Directive) -> Result<bool, AllocError>
        requires { self.old.position + events_of directive < 2 ^ 32 }
        ensures made { IfOk result (λ stopped. progress_of self.new stopped ≡ directive_after (progress_of self.old false) directive) }
        ensures count { self.new.position ≤ self.old.position + events_of directive }
    {
        match directive {
            Directive::Start(cpu, command) => self.event(Event::Start(cpu, command)),
            Directive::Step(cpu, count) => self.steps(cpu, count),
            Directive::Show => {
                write_show(&mut self.text, &self.core)?;
                Ok(false)
            }
            // no line of a replay
            Directive::Do(_, _, _) => Ok(false),
        }
    }

    // What these lines ask for: whether an event was refused.
    fn directives(&mut self, directives: &[Directive]) -> Result<bool, AllocError>
        requires { self.old.position + sum_by events_of directives.now < 2 ^ 32 }
        ensures { IfOk result (λ stopped. progress_of self.new stopped ≡ replay_after (progress_of self.old false) directives.now) }
    {
        for directive in directives {
            if self.directive(*directive)? {
                return Ok(true);
            }
        }
        Ok(false)
    }
}

/// What a script printed.
#[derive(Drop)]
pub struct Printed<A: Allocator> {
    pub text: String<A>,
    /// Whether an event was refused.
    pub stopped: bool,
}

/// A core with no calls and no stops, and with these labels. E6 where a growth is refused.
pub fn new_core<A: Allocator + Copy>(
    alloc: A,
    nr: u32,
    online: CpuMask,
    labels: &Option<LabelMap>,
) -> Result<Core<A>, SmpError>
    requires { AreLimits nr online }
    ensures core { IfOk result (λ core. core ≡ new_core nr online (labels_or_none labels.now)) }
    ensures err { IfErr result (λ e. e ≡ SmpError.NoMemory) }
{
    match labels {
        Some(labels) => Core::with_labels(alloc, nr, online, labels),
        None => Core::new(alloc, nr, online),
    }
}

// Runs a script on a table with no calls and no stops.
fn play_script<A: Allocator + Copy>(alloc: A, script: &Script<A>) -> Result<Printed<A>, SmpError>
    requires limits { AreLimits script.now.nr script.now.online }
    requires events { sum_by events_of script.now.directives.items ≤ 100000 }
    ensures text { IfOk result (λ o. string_bytes o.text ≡ (replay_of (meaning_of script.now)).text) }
    ensures stopped { IfOk result (λ o. o.stopped ≡ (replay_of (meaning_of script.now)).stopped) }
    ensures err { IfErr result (λ e. e ≡ SmpError.NoMemory) }
{
    let core = new_core(alloc, script.nr, script.online, &script.labels)?;
    let mut playback = Playback {
        core,
        position: 0,
        text: String::new(alloc),
    };
    let Ok(stopped) = playback.directives(script.directives.as_slice()) else {
        return Err(SmpError::NoMemory);
    };
    let Playback {
        core: _,
        position: _,
        text,
    } = playback;
    Ok(Printed { text, stopped })
}

/// Reads a script, runs it on a table with no calls and no stops, and keeps what it prints.
///
/// Refusals: `BadScript` with the first fault where the script is not lawful, `NoMemory` where a growth was refused.
pub fn print_script<A: Allocator + Copy>(alloc: A, text: &[u8]) -> Result<Printed<A>, SmpError>
    ensures { PrintsReplay text.now result }
{
    let script = read_script(alloc, Mode::Replay, text)?;
    play_script(alloc, &script)
}

//! What a line of a script asks for.

ghost use Rattle.std.specs.Prelude.{◌≡◌, ◌==◌, not, map, length};
ghost use Rattle.std.specs.List.{list_all};
ghost use Rattle.smp_script.specs.Lines.{AreShort};
ghost use Rattle.smp_script.specs.Script.{events_of};
ghost use Rattle.smp_script.specs.Commands.{directive_of, replay_line, run_line, show_of, step_of, steps_of, whole_directive};

use crate::command::read_start;
use crate::decimal::{read_from_to, read_u32};
use crate::line::is_word;
use crate::mode::Mode;
use crate::operation::read_do;
use crate::request::Request;
use crate::setting::Setting;
use smp_mask::Cause;
use smp_words::Command;

/// The most steps that one line may ask for.
const MAX_STEPS: u32 = 10_000;

/// What a line of a script asks for. A replay has all but the last of these, a run the last alone.
#[derive(Clone, Copy, Debug, PartialEq, Eq)]
pub enum Directive {
    /// The CPU begins a command: one event.
    Start(u32, Command),
    /// The CPU makes this number of steps of its command, each of them an event.
    Step(u32, u32),
    /// The queues, the locked records and the phases are printed: no event.
    Show,
    /// The CPU, which is online, makes a call this number of times: no event.
    Do(u32, u32, Request),
}

impl Directive {
    /// How many events it makes.
    pub fn events(&self) -> u32
        ensures { result ≡ events_of self.now }
    {
        match self {
            Directive::Start(_, _) => 1,
            Directive::Step(_, count) => *count,
            Directive::Show | Directive::Do(_, _, _) => 0,
        }
    }
}

// `step CPU N`
fn read_step(cpu: &[u8], count: &[u8]) -> Result<Directive, Cause>
    ensures { result ≡ step_of cpu.now count.now }
{
    let cpu = read_u32(cpu)?;
    let count = read_from_to(count, 1, MAX_STEPS)?;
    Ok(Directive::Step(cpu, count))
}

// What the fields after `step` ask for.
fn read_steps(fields: &[&[u8]]) -> Result<Directive, Cause>
    ensures { result ≡ steps_of (map (λ f. f.now) fields.now) }
{
    let [cpu, count] = fields else {
        return Err(Cause::Word);
    };
    read_step(cpu, count)
}

// What the fields after `show` ask for: there is none.
fn read_show(fields: &[&[u8]]) -> Result<Directive, Cause>
    ensures { result ≡ show_of (map (λ f. f.now) fields.now) }
{
    if !fields.is_empty() {
        return Err(Cause::Word);
    }
    Ok(Directive::Show)
}

// `start ..`, `step ..` or `show`
fn read_replay_line(limit: u32, word: &[u8], rest: &[&[u8]]) -> Result<Directive, Cause>
    requires { AreShort (map (λ f. f.now) rest.now) }
    ensures { result ≡ replay_line limit word.now (map (λ f. f.now) rest.now) }
{
    if is_word(word, b"start") {
        return read_start(limit, rest);
    }
    if is_word(word, b"step") {
        return read_steps(rest);
    }
    if is_word(word, b"show") {
        return read_show(rest);
    }
    Err(Cause::Word)
}

// `do ..`
fn read_run_line(setting: &Setting, word: &[u8], rest: &[&[u8]]) -> Result<Directive, Cause>
    requires { AreShort (map (λ f. f.now) rest.now) }
    ensures { result ≡ run_line setting.now.limit setting.now.online word.now (map (λ f. f.now) rest.now) }
{
    if is_word(word, b"do") {
        return read_do(setting.limit, setting.online, rest);
    }
    Err(Cause::Word)
}

// A line of that kind of script.
fn read_directive(setting: &Setting, fields: &[&[u8]]) -> Result<Directive, Cause>
    requires { AreShort (map (λ f. f.now) fields.now) }
    ensures { result ≡ directive_of setting.now (map (λ f. f.now) fields.now) }
{
    let [word, rest @ ..] = fields else {
        return Err(Cause::Word);
    };
    match setting.mode {
        Mode::Replay => read_replay_line(setting.limit, word, rest),
        Mode::Run => read_run_line(setting, word, rest),
    }
}

/// Whether no field is empty.
pub fn are_all_whole(fields: &[&[u8]]) -> bool
    ensures { result ≡ list_all (λ f. not (length f.now == 0)) fields.now }
{
    fields.iter().all(|f| !f.is_empty())
}

/// What the fields of a line ask for, none of which may be empty.
#[tactic(auto, using(crate::proofs::Reader::FieldLists::are_whole_map))]
pub fn read_whole(setting: &Setting, fields: &[&[u8]]) -> Result<Directive, Cause>
    requires { AreShort (map (λ f. f.now) fields.now) }
    ensures { result ≡ whole_directive setting.now (map (λ f. f.now) fields.now) }
{
    if !are_all_whole(fields) {
        return Err(Cause::Word);
    }
    read_directive(setting, fields)
}

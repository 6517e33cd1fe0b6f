//! Where a record is, as the words and the stages tell it.

ghost use Rattle.std.specs.Prelude.{◌≡◌, ◌↔◌, ◌<◌, true};
ghost use Rattle.smp_words.specs.Size.{cpus, records};
ghost use Rattle.smp_call_steps.specs.Calls.{CallState};
ghost use Rattle.smp_call_steps.specs.Batches.{has_record, running_of};
ghost use Rattle.smp_call_steps.specs.Value.{control_of, ValuesShow};
ghost use Rattle.smp_call_steps.specs.Whereabouts.{is_left as is_left_in, leads_through, place_in};
ghost use Rattle.smp_words.specs.Layout.{number_in};
ghost use Rattle.smp_words.specs.declared.word.Word.TheVariants.{Head};
ghost use Rattle.smp_call_steps.specs.Sound.{IsTable};

use crate::control::Control;
use crate::queue::is_on_chain;
use crate::table::read;
use smp_words::size::NR_CPUS;
use smp_words::word::Word;

/// Where a record is: each is in exactly one place. Numbers are CPUs.
#[derive(Clone, Copy, Debug, PartialEq, Eq)]
pub enum RecPlace {
    /// Unlocked.
    Free,
    /// Locked by its owner, and not queued yet.
    Held,
    /// In the queue of this CPU.
    Queued(u32),
    /// In what is left to run of the batch that this CPU has taken.
    Batch(u32),
    /// Its SYNC call runs on this CPU.
    Running(u32),
}

/// The place of a record. One that is locked, in no queue or batch, and not running is held by its owner.
pub fn place_of(words: &[u64], controls: &[Control], id: u32) -> RecPlace
    requires known { id < records }
    requires table { IsTable words.now controls.now }
    ensures calls { (calls : CallState) → ValuesShow calls words.now controls.now → result ≡ calls.place id }
    ensures told { result ≡ place_in words.now controls.now id }
{
    if read(words, Word::Flags(id)) == 0 {
        return RecPlace::Free;
    }
    for cpu in 0..NR_CPUS {
        if is_queued(words, controls, cpu, id) {
            return RecPlace::Queued(cpu);
        }
        if is_in_batch(words, controls, cpu, id) {
            return RecPlace::Batch(cpu);
        }
        if is_running(words, controls, cpu, id) {
            return RecPlace::Running(cpu);
        }
    }
    RecPlace::Held
}

fn is_queued(words: &[u64], controls: &[Control], cpu: u32, id: u32) -> bool
    requires table { IsTable words.now controls.now }
    ensures calls { (calls : CallState) → ValuesShow calls words.now controls.now → result ≡ true ↔ calls.place id ≡ RecPlace.Queued cpu }
    ensures told { result ≡ leads_through words.now (number_in words.now (Head cpu)) id }
{
    // The stages are named by the contract alone.
    let _count = controls.len();
    is_on_chain(words, read(words, Word::Head(cpu)), id)
}

fn is_in_batch(words: &[u64], controls: &[Control], cpu: u32, id: u32) -> bool
    requires known { cpu < cpus }
    requires table { IsTable words.now controls.now }
    ensures calls { (calls : CallState) → ValuesShow calls words.now controls.now → result ≡ true ↔ calls.place id ≡ RecPlace.Batch cpu }
    ensures told { result ≡ is_left_in words.now (control_of controls.now cpu).stage id }
{
    let control = &controls[cpu as usize];
    if control.is_between(id) {
        return true;
    }
    is_on_chain(words, control.down(), id) || is_on_chain(words, control.up(), id)
}

fn is_running(words: &[u64], controls: &[Control], cpu: u32, id: u32) -> bool
    requires known { cpu < cpus }
    requires table { IsTable words.now controls.now }
    ensures calls { (calls : CallState) → ValuesShow calls words.now controls.now → result ≡ true ↔ calls.place id ≡ RecPlace.Running cpu }
    ensures told { result ≡ has_record id (running_of (control_of controls.now cpu).stage) }
{
    controls[cpu as usize].is_running(id)
}

//! What `show` prints.

ghost use Rattle.std.specs.Prelude.{◌≡◌, ◌++◌, OnOk, string_bytes};
ghost use Rattle.std.specs.List.{flat_map};
ghost use Rattle.smp_mask.specs.Mask.{members};
ghost use Rattle.smp_words.specs.Size.{cpus, records};
ghost use Rattle.smp_replay.specs.Text.{list_text};
ghost use Rattle.smp_replay.specs.Showing.{if_locked, is_locked, locked_below, phase_text, phases_below, queue_text, show_text};

use crate::text::write_list;
use smp_core::{Core, Field, Word};
use smp_words::size::{NR_CPUS, RECORDS};
use std::alloc::{AllocError, Allocator};

// The line of a queue: its CPU and its records, oldest first.
fn write_queue<A: Allocator, B: Allocator>(
    out: &mut String<A>,
    core: &Core<B>,
    cpu: u32,
) -> Result<(), AllocError>
    ensures { OnOk result (string_bytes out.new ≡ string_bytes out.old ++ queue_text core.now cpu) }
{
    write!(out, "queue {cpu}:")?;
    let queue = core.queue(cpu);
    write_list(out, queue.as_slice())?;
    writeln!(out, "")
}

// The lines of all queues.
fn write_queues<A: Allocator, B: Allocator>(
    out: &mut String<A>,
    core: &Core<B>,
) -> Result<(), AllocError>
    ensures { OnOk result (string_bytes out.new ≡ string_bytes out.old ++ flat_map (queue_text core.now) (members core.now.online)) }
{
    for cpu in core.online().iter() {
        write_queue(out, core, cpu)?;
    }
    Ok(())
}

// Whether a record's flags word has LOCK.
fn has_lock<A: Allocator>(core: &Core<A>, id: u32) -> bool
    ensures { result ≡ is_locked core.now id }
{
    match core.word(Word::Flags(id)) {
        Some(flags) => flags % 2 == 1,
        None => false,
    }
}

// A record that is locked.
fn write_if_locked<A: Allocator, B: Allocator>(
    out: &mut String<A>,
    core: &Core<B>,
    id: u32,
) -> Result<(), AllocError>
    ensures { OnOk result (string_bytes out.new ≡ string_bytes out.old ++ list_text (if_locked core.now id)) }
{
    if has_lock(core, id) {
        return write!(out, " {id}");
    }
    Ok(())
}

// The locked records, ascending.
fn write_locked<A: Allocator, B: Allocator>(
    out: &mut String<A>,
    core: &Core<B>,
) -> Result<(), AllocError>
    ensures { OnOk result (string_bytes out.new ≡ string_bytes out.old ++ list_text (locked_below core.now records)) }
{
    for id in 0..RECORDS {
        write_if_locked(out, core, id)?;
    }
    Ok(())
}

// A slot whose state is not 0, and its state.
fn write_if_begun<A: Allocator, B: Allocator>(
    out: &mut String<A>,
    core: &Core<B>,
    slot: u32,
) -> Result<(), AllocError>
    ensures { OnOk result (string_bytes out.new ≡ string_bytes out.old ++ phase_text core.now slot) }
{
    match core.word(Word::Slot(slot, Field::State)) {
        Some(state) if state != 0 => write!(out, " {slot}={state}"),
        _ => write!(out, ""),
    }
}

// The slots whose state is not 0, ascending.
fn write_phases<A: Allocator, B: Allocator>(
    out: &mut String<A>,
    core: &Core<B>,
) -> Result<(), AllocError>
    ensures { OnOk result (string_bytes out.new ≡ string_bytes out.old ++ phases_below core.now cpus) }
{
    for slot in 0..NR_CPUS {
        write_if_begun(out, core, slot)?;
    }
    Ok(())
}

/// The queues of the CPUs online, the locked records, and the phases of the slots that are not in phase 0.
pub fn write_show<A: Allocator, B: Allocator>(
    out: &mut String<A>,
    core: &Core<B>,
) -> Result<(), AllocError>
    ensures { OnOk result (string_bytes out.new ≡ string_bytes out.old ++ show_text core.now) }
{
    write_queues(out, core)?;
    write!(out, "locked:")?;
    write_locked(out, core)?;
    write!(out, "\nphase:")?;
    write_phases(out, core)?;
    writeln!(out, "")
}

//! The lines of a run's output.

ghost use Rattle.std.specs.Prelude.{◌≡◌, ◌++◌, ◌<◌, ◌≤◌, OnOk, string_bytes};
ghost use Rattle.std.specs.List.{flat_map};
ghost use Rattle.smp_mask.specs.Mask.{members};
ghost use Rattle.smp_words.specs.Size.{cpus};
ghost use Rattle.smp_queue.specs.Audit.{tally_at, AreEqual, IfDrained};
ghost use Rattle.smp_run.specs.Text.{answer_text, audit_text, ending_text, key_text, kind_text, line_text, numbered};
ghost use Rattle.smp_run.specs.Text.{pair_text, site_text, tallies_text, tally_text};

use crate::answer::Answer;
use crate::reading::LabelReadings;
use smp_labels::SiteKind;
use smp_mask::CpuMask;
use smp_queue::{Audit, Tally};
use smp_script::errors::number_of;
use smp_script::spelling::{switch_name, write_mask};
use std::alloc::{AllocError, Allocator};

fn write_answer<A: Allocator>(out: &mut String<A>, answer: Answer) -> Result<(), AllocError>
    ensures { OnOk result (string_bytes out.new ≡ string_bytes out.old ++ answer_text answer) }
{
    match answer {
        Answer::Done => write!(out, "ok"),
        Answer::Cpu(cpu) => write!(out, "{cpu}"),
        Answer::Cpus(mask) => write_mask(out, mask),
        Answer::Number(answer) => write!(out, "{answer}"),
        Answer::Turned(true) => write!(out, "true"),
        Answer::Turned(false) => write!(out, "false"),
        Answer::Refused(error) => {
            let number = number_of(error);
            write!(out, "E{number}")
        }
    }
}

fn write_line<A: Allocator>(
    out: &mut String<A>,
    line: usize,
    answer: Answer,
) -> Result<(), AllocError>
    ensures { OnOk result (string_bytes out.new ≡ string_bytes out.old ++ line_text line answer) }
{
    write!(out, "{line} ")?;
    write_answer(out, answer)?;
    writeln!(out, "")
}

/// A line for each answer, of which the first is of line `first`.
pub(crate) fn write_answers<A: Allocator>(
    out: &mut String<A>,
    first: usize,
    answers: &[Answer],
) -> Result<(), AllocError>
    requires { first ≤ 4 }
    ensures { OnOk result (string_bytes out.new ≡ string_bytes out.old ++ numbered line_text first answers.now) }
{
    for at in 0..answers.len() {
        let answer = answers[at];
        write_line(out, first + at, answer)?;
    }
    Ok(())
}

fn write_pair<A: Allocator>(
    out: &mut String<A>,
    tally: &Tally,
    source: u32,
    to: u32,
) -> Result<(), AllocError>
    requires equal { AreEqual tally.now }
    requires source { source < cpus }
    requires to { to < cpus }
    ensures { OnOk result (string_bytes out.new ≡ string_bytes out.old ++ pair_text (tally_at tally.now.queued) source to) }
{
    if to == source {
        return write!(out, "");
    }
    let queued = tally.queued[source as usize][to as usize];
    let ran = tally.ran[to as usize][source as usize];
    writeln!(out, "tally {source} {to} {queued} {ran}")
}

fn write_row<A: Allocator>(
    out: &mut String<A>,
    online: CpuMask,
    tally: &Tally,
    source: u32,
) -> Result<(), AllocError>
    requires equal { AreEqual tally.now }
    requires source { source < cpus }
    ensures { OnOk result (string_bytes out.new ≡ string_bytes out.old ++ flat_map (pair_text (tally_at tally.now.queued) source) (members online)) }
{
    for to in online.iter() {
        write_pair(out, tally, source, to)?;
    }
    Ok(())
}

/// A line for each pair of different CPUs that are online.
fn write_tally<A: Allocator>(
    out: &mut String<A>,
    online: CpuMask,
    tally: &Tally,
) -> Result<(), AllocError>
    requires { AreEqual tally.now }
    ensures { OnOk result (string_bytes out.new ≡ string_bytes out.old ++ tally_text online tally.now) }
{
    for source in online.iter() {
        write_row(out, online, tally, source)?;
    }
    Ok(())
}

/// These lines where the audit is Drained.
fn write_tallies<A: Allocator>(
    out: &mut String<A>,
    online: CpuMask,
    audit: &Audit,
) -> Result<(), AllocError>
    requires { IfDrained audit.now AreEqual }
    ensures { OnOk result (string_bytes out.new ≡ string_bytes out.old ++ tallies_text online audit.now) }
{
    match audit {
        Audit::Drained(tally) => write_tally(out, online, tally),
        Audit::Left(_) => write!(out, ""),
    }
}

fn write_key<A: Allocator>(out: &mut String<A>, k: usize, on: bool) -> Result<(), AllocError>
    ensures { OnOk result (string_bytes out.new ≡ string_bytes out.old ++ key_text k on) }
{
    let state = switch_name(on);
    writeln!(out, "key {k} {state}")
}

fn write_keys<A: Allocator>(out: &mut String<A>, keys: &[bool]) -> Result<(), AllocError>
    ensures { OnOk result (string_bytes out.new ≡ string_bytes out.old ++ numbered key_text 0 keys.now) }
{
    for k in 0..keys.len() {
        let on = keys[k];
        write_key(out, k, on)?;
    }
    Ok(())
}

fn write_site<A: Allocator>(out: &mut String<A>, i: usize, kind: SiteKind) -> Result<(), AllocError>
    ensures { OnOk result (string_bytes out.new ≡ string_bytes out.old ++ site_text i kind) }
{
    match kind {
        SiteKind::Nop => writeln!(out, "site {i} NOP"),
        SiteKind::Jmp => writeln!(out, "site {i} JMP"),
    }
}

fn write_sites<A: Allocator>(out: &mut String<A>, sites: &[SiteKind]) -> Result<(), AllocError>
    ensures { OnOk result (string_bytes out.new ≡ string_bytes out.old ++ numbered site_text 0 sites.now) }
{
    for i in 0..sites.len() {
        let kind = sites[i];
        write_site(out, i, kind)?;
    }
    Ok(())
}

/// How the audit ended.
fn write_audit<A: Allocator>(out: &mut String<A>, audit: &Audit) -> Result<(), AllocError>
    ensures { OnOk result (string_bytes out.new ≡ string_bytes out.old ++ audit_text audit.now) }
{
    match audit {
        Audit::Drained(_) => writeln!(out, "drained"),
        Audit::Left(left) => {
            let (heads, locked, handling) = (left.heads, left.locked, left.handling);
            writeln!(out, "left {heads} {locked} {handling}")
        }
    }
}

/// What comes after the lines: the tallies where the audit is Drained, the keys, the sites, and how it ended.
pub(crate) fn write_ending<A: Allocator>(
    out: &mut String<A>,
    online: CpuMask,
    read: &LabelReadings<A>,
    audit: &Audit,
) -> Result<(), AllocError>
    requires { IfDrained audit.now AreEqual }
    ensures { OnOk result (string_bytes out.new ≡ string_bytes out.old ++ ending_text online read.now.keys.items read.now.sites.items audit.now) }
{
    write_tallies(out, online, audit)?;
    write_keys(out, read.keys.as_slice())?;
    write_sites(out, read.sites.as_slice())?;
    write_audit(out, audit)
}

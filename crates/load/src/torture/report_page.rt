//! What was done, as text.

ghost use Rattle.std.specs.Prelude.{◌≡◌, ◌==◌, ◌&&◌, if◌then◌else◌, codes};

use crate::request::Torture;
use crate::torture::answers::Answers;
use crate::torture::kind::Kind;
use crate::torture::report::Report;
use crate::torture::verdict::{answers_of, heard_of, is_drained, is_right_of, queued_in, sent_of};
use smp_queue::{Audit, Tally};
use std::io;

/// The columns that depend on the schedule.
const COLUMNS: &str = "        made  wrong         sent        heard     mean ns  longest us";

/// A verdict as a word.
fn word(right: bool) -> &'static str
    ensures { result.now ≡ (if right then codes "ok" else codes "OFF") }
{
    if right { "ok" } else { "OFF" }
}

/// What is said of a kind that was made, or is drawn, this often.
fn word_of(count: u64, right: bool) -> &'static str
    ensures { result.now ≡ (if (count == 0) && right then codes "not made" else if right then codes "ok" else codes "OFF") }
{
    if count == 0 && right {
        "not made"
    } else {
        word(right)
    }
}

/// The line of a kind, without what depends on the schedule.
fn print_kind_quietly<R: Print>(
    rt: &R,
    request: &Torture,
    reports: &[Report],
    kind: Kind,
) -> io::Result<()> {
    let (name, weight) = (kind.name(), request.weights.weight(kind));
    let said = word_of(u64::from(weight), is_right_of(reports, kind));
    println!(rt; "{name:<14}{weight:>8}  {said}")
}

/// The line of a kind.
fn print_kind<R: Print>(
    rt: &R,
    request: &Torture,
    reports: &[Report],
    kind: Kind,
) -> io::Result<()> {
    let Answers {
        count,
        wrong,
        nanos,
        longest,
    } = answers_of(reports, kind);
    let (sent, heard) = (sent_of(reports, kind).count, heard_of(reports, kind).count);
    let (name, weight) = (kind.name(), request.weights.weight(kind));
    let (mean, longest) = (nanos / count.max(1), longest / 1000);
    let said = word_of(count, is_right_of(reports, kind));
    println!(rt;
        "{name:<14}{weight:>8}{count:>12}{wrong:>7}{sent:>13}{heard:>13}{mean:>12}{longest:>12}  {said}"
    )
}

/// The line of each kind.
fn print_kinds<R: Print>(rt: &R, request: &Torture, reports: &[Report]) -> io::Result<()> {
    for kind in Kind::ALL {
        if request.quiet {
            print_kind_quietly(rt, request, reports, kind)?;
        } else {
            print_kind(rt, request, reports, kind)?;
        }
    }
    Ok(())
}

/// The line of the retries and the interrupts.
fn print_sums<R: Print>(rt: &R, reports: &[Report], tally: &Tally) -> io::Result<()> {
    let (mut retries, mut batches) = (0u64, 0u64);
    for report in reports {
        retries = retries.wrapping_add(report.retries);
        batches = batches.wrapping_add(report.batches);
    }
    let queued = queued_in(tally);
    let coalesced = queued.saturating_sub(batches);
    println!(rt; "queued {queued}, batches {batches}, coalesced {coalesced}, retries {retries}")
}

/// The line of the audit.
fn print_audit<R: Print>(rt: &R, reports: &[Report], audit: &Audit) -> io::Result<()> {
    match audit {
        Audit::Drained(_) => println!(rt; "audit drained {}", word(is_drained(reports, audit))),
        Audit::Left(left) => {
            let (heads, locked, handling) = (left.heads, left.locked, left.handling);
            println!(rt; "audit left {heads} heads, {locked} locked, {handling} handling OFF")
        }
    }
}

/// The lines above those of the kinds.
fn print_head<R: Print>(rt: &R, request: &Torture) -> io::Result<()> {
    let (threads, seconds, seed) = (request.threads, request.seconds, request.seed);
    let columns = if request.quiet { "" } else { COLUMNS };
    println!(rt; "{threads} threads, {seconds} s, seed {seed}\nkind            weight{columns}")
}

/// Prints what was done.
pub fn print_page<R: Print>(
    rt: &R,
    request: &Torture,
    reports: &[Report],
    audit: &Audit,
) -> io::Result<()> {
    print_head(rt, request)?;
    print_kinds(rt, request, reports)?;
    if let (Audit::Drained(tally), false) = (audit, request.quiet) {
        print_sums(rt, reports, tally)?;
    }
    print_audit(rt, reports, audit)
}

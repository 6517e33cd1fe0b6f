//! Whether every handler heard what was sent to it.

ghost use Rattle.std.specs.Prelude.{◌≡◌, ◌<◌, ◌↔◌, All, IsTrue};
ghost use Rattle.load.specs.Kinds.{index_of};
ghost use Rattle.load.specs.Verdicts.{heard_from, queued_for, all_answers, IsHeard, AreHeard, AreAnswered, AreNoStrays};
ghost use Rattle.load.specs.Verdicts.{AreSeen, IsTalliedBy, AreTallied, IsRightOf, AreAllRight, IsDrainedOf};

use crate::torture::answers::Answers;
use crate::torture::call_totals::CallTotal;
use crate::torture::kind::Kind;
use crate::torture::report::Report;
use smp_queue::{Audit, Tally};
use smp_words::size::NR_CPUS;

/// The kinds that are calls come first.
const CALLS: u16 = 9;

/// What a CPU has heard of a kind from another: by its handler, or by its stop function.
fn heard_from(target: &Report, kind: Kind, source: u32) -> CallTotal
    ensures { source < 32 → result ≡ heard_from target.now (index_of kind) source }
{
    let func = kind.func();
    let heard = target.heard.cell(func, source);
    heard.plus(target.ran.cell(func, source))
}

/// Whether a CPU has heard of a kind exactly what another has sent to it.
fn is_heard(source: &Report, target: &Report, kind: Kind) -> bool
    ensures { IsTrue result ↔ IsHeard (index_of kind) source.now target.now }
{
    let sent = source.sent.cell(kind.func(), target.number);
    sent == heard_from(target, kind, source.number)
}

/// Whether all CPUs have heard of a kind exactly what this one has sent to them.
fn are_heard(source: &Report, reports: &[Report], kind: Kind) -> bool
    ensures { IsTrue result ↔ All (λ target. IsHeard (index_of kind) source.now target) reports.now }
{
    reports.iter().all(|target| is_heard(source, target, kind))
}

/// Whether every CPU has heard of a kind exactly what each has sent to it.
fn is_right(reports: &[Report], kind: Kind) -> bool
    ensures { IsTrue result ↔ AreHeard (index_of kind) reports.now }
{
    reports
        .iter()
        .all(|source| are_heard(source, reports, kind))
}

/// Whether what each CPU has made of a kind was answered as it should be.
fn are_answered(reports: &[Report], kind: Kind) -> bool
    ensures { IsTrue result ↔ AreAnswered (index_of kind) reports.now }
{
    reports.iter().all(|r| r.made(kind).wrong == 0)
}

/// What all CPUs have made of a kind.
pub fn answers_of(reports: &[Report], kind: Kind) -> Answers
    ensures { result ≡ all_answers (index_of kind) reports.now }
{
    let mut all = Answers::NONE;
    for report in reports {
        all = all.plus(report.made(kind));
    }
    all
}

/// What all CPUs have sent of a kind.
pub fn sent_of(reports: &[Report], kind: Kind) -> CallTotal {
    let mut all = CallTotal::NONE;
    for report in reports {
        for cpu in 0..NR_CPUS {
            all = all.plus(report.sent.cell(kind.func(), cpu));
        }
    }
    all
}

/// What all CPUs have heard of a kind.
pub fn heard_of(reports: &[Report], kind: Kind) -> CallTotal {
    let mut all = CallTotal::NONE;
    for report in reports {
        for cpu in 0..NR_CPUS {
            all = all.plus(heard_from(report, kind, cpu));
        }
    }
    all
}

/// Whether no CPU has heard or made a call of a function or a CPU that does not exist.
fn are_no_strays(reports: &[Report]) -> bool
    ensures { IsTrue result ↔ AreNoStrays reports.now }
{
    reports.iter().all(|r| r.sent.strays() == 0 && r.heard.strays() == 0 && r.ran.strays() == 0)
}

/// Whether each call with wait saw what its source had stored before.
fn are_seen(reports: &[Report]) -> bool
    ensures { IsTrue result ↔ AreSeen reports.now }
{
    reports.iter().all(|r| r.unseen == 0)
}

/// How many calls a CPU has queued for another: the tables know nothing of calls to itself, which run at once.
#[tactic(auto, using(crate::proofs::Sent::sent_below_none, crate::proofs::Sent::sent_below_more))]
fn queued_for(report: &Report, target: u32) -> u64
    ensures { target < 32 → result ≡ queued_for report.now target }
{
    if target == report.number {
        return 0;
    }
    let mut count = 0u64;
    for func in 0..CALLS {
        count = count.wrapping_add(report.sent.cell(func, target).count);
    }
    count
}

/// Whether the tally words say the same of a CPU and each target.
fn is_tallied_by(report: &Report, tally: &Tally) -> bool
    ensures { IsTrue result ↔ IsTalliedBy tally.now report.now }
{
    for target in 0..NR_CPUS {
        let queued = tally.queued[report.number as usize][target as usize];
        if queued != queued_for(report, target) {
            return false;
        }
    }
    true
}

/// Whether the tally words of the machine say the same of each pair of CPUs.
fn are_tallied(reports: &[Report], tally: &Tally) -> bool
    ensures { IsTrue result ↔ AreTallied tally.now reports.now }
{
    reports.iter().all(|report| is_tallied_by(report, tally))
}

/// Whether a kind was heard as it was sent, and answered as it should be.
#[tactic(auto, unfolding(crate::specs::Verdicts::IsRightOf))]
pub fn is_right_of(reports: &[Report], kind: Kind) -> bool
    ensures { IsTrue result ↔ IsRightOf (index_of kind) reports.now }
{
    is_right(reports, kind) && are_answered(reports, kind)
}

/// Whether these kinds were.
fn are_right(reports: &[Report], kinds: &[Kind]) -> bool
    ensures { IsTrue result ↔ All (λ k. IsRightOf (index_of k) reports.now) kinds.now }
{
    kinds.iter().all(|kind| is_right_of(reports, *kind))
}

/// Whether all kinds were.
pub fn are_all_right(reports: &[Report]) -> bool
    ensures { IsTrue result ↔ AreAllRight reports.now }
{
    are_right(reports, Kind::ALL.as_slice())
}

/// Whether all calls have run, and what was noted beside the kinds is right.
pub fn is_drained(reports: &[Report], audit: &Audit) -> bool
    ensures { IsTrue result ↔ IsDrainedOf audit.now reports.now }
{
    match audit {
        Audit::Drained(tally) => {
            are_tallied(reports, tally) && are_no_strays(reports) && are_seen(reports)
        }
        Audit::Left(_) => false,
    }
}

/// How many calls were queued, modulo 2^64.
pub fn queued_in(tally: &Tally) -> u64 {
    let mut sum = 0u64;
    for row in &tally.queued {
        for queued in row {
            sum = sum.wrapping_add(*queued);
        }
    }
    sum
}

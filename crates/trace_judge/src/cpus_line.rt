//! Line 2 of a trace: how many CPUs there are, and which of them are online.

ghost use Rattle.std.specs.Prelude.{◌≡◌, ◌<◌, map};
ghost use Rattle.smp_script.specs.Fields.{word32};
ghost use Rattle.smp_script.specs.Lines.{AreShort};
ghost use Rattle.trace_judge.specs.Cpus.{all_in, all_of, cpus_told, every_cpu, few_of, is_all, is_last, many_of, whole_all};

use smp_mask::{Cause, CpuMask};
use smp_script::decimal::read_u32;
use smp_script::directive::are_all_whole;
use smp_script::line::is_word;
use smp_script::script::read_whole_cpus;

/// All CPUs below 32.
#[tactic(auto, unfolding(crate::specs::Cpus::every_cpu), using(smp_mask::proofs::Sets::none_empty))]
pub fn every_cpu() -> CpuMask
    ensures { result ≡ every_cpu }
{
    match CpuMask::parse(b"0-31") {
        Ok(cpus) => cpus,
        Err(_) => CpuMask::empty(),
    }
}

/// How many CPUs there are, where these are more than 32.
fn many_of(fields: &[&[u8]]) -> Option<u32>
    ensures { result ≡ many_of (map (λ f. f.now) fields.now) }
{
    match fields {
        [_, nr, ..] => {
            match read_u32(nr) {
                Ok(nr) => { if nr > 32 { Some(nr) } else { None } }
                Err(_) => None,
            }
        }
        _ => None,
    }
}

/// Whether that is the number of the last of these CPUs.
fn is_last(nr: u32, last: &[u8]) -> bool
    requires { 0 < nr }
    ensures { result ≡ is_last nr (word32 last.now) }
{
    match read_u32(last) {
        Ok(last) => last == nr - 1,
        Err(_) => false,
    }
}

/// Whether a list is `0-LAST`, that of all these CPUs.
fn is_all(nr: u32, mask: &[u8]) -> bool
    requires { 0 < nr }
    ensures { result ≡ is_all nr mask.now }
{
    match mask {
        [zero, dash, last @ ..] => *zero == b'0' && *dash == b'-' && is_last(nr, last),
        _ => false,
    }
}

/// The list of all of more than 32 CPUs.
fn all_in(nr: u32, mask: &[u8]) -> Result<(u32, CpuMask), Cause>
    requires { 0 < nr }
    ensures { result ≡ all_in nr mask.now }
{
    if nr > 512 {
        return Err(Cause::Range);
    }
    if !is_all(nr, mask) {
        return Err(Cause::Mask);
    }
    Ok((nr, every_cpu()))
}

/// The line of more than 32 CPUs.
fn all_of(nr: u32, fields: &[&[u8]]) -> Result<(u32, CpuMask), Cause>
    requires { 0 < nr }
    ensures { result ≡ all_of nr (map (λ f. f.now) fields.now) }
{
    let [word, _, mask] = fields else {
        return Err(Cause::Word);
    };
    if !is_word(word, b"cpus") {
        return Err(Cause::Word);
    }
    all_in(nr, mask)
}

/// The line of more than 32 CPUs, where no field is empty.
#[tactic(auto, using(smp_script::proofs::Reader::FieldLists::are_whole_map))]
fn whole_all(nr: u32, fields: &[&[u8]]) -> Result<(u32, CpuMask), Cause>
    requires { 0 < nr }
    ensures { result ≡ whole_all nr (map (λ f. f.now) fields.now) }
{
    if !are_all_whole(fields) {
        return Err(Cause::Word);
    }
    all_of(nr, fields)
}

/// The line of at most 32 CPUs.
fn few_of(fields: &[&[u8]]) -> Result<(u32, CpuMask), Cause>
    requires { AreShort (map (λ f. f.now) fields.now) }
    ensures { result ≡ few_of (map (λ f. f.now) fields.now) }
{
    match read_whole_cpus(32, fields) {
        Ok((_, online)) => Ok((32, online)),
        Err(cause) => Err(cause),
    }
}

/// What line 2 tells: 32 or more CPUs, which version 3 has, and those below 32 that are online.
pub(crate) fn read_cpus(is_third: bool, fields: &[&[u8]]) -> Result<(u32, CpuMask), Cause>
    requires { AreShort (map (λ f. f.now) fields.now) }
    ensures { result ≡ cpus_told is_third (map (λ f. f.now) fields.now) }
{
    if !is_third {
        return few_of(fields);
    }
    match many_of(fields) {
        Some(nr) => whole_all(nr, fields),
        None => few_of(fields),
    }
}

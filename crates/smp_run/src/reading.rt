//! What a CPU reads of the labels at the end of a run.

ghost use Rattle.std.specs.Prelude.{◌≡◌, ◌++◌, ◌<◌, length, IfOk};
ghost use Rattle.smp_multi.specs.Names.{ReadKey, ReadSite};
ghost use Rattle.smp_multi.specs.Reads.{ReadsOneTable, jumps};
ghost use Rattle.smp_run.specs.Readings.{HasRead, HaveKinds, ReadsMore, keys_read, sites_read};
ghost use Rattle.smp_run.specs.Seats.{IsSeated, keys_at, sites_at};

use smp_labels::{LabelMap, SiteKind};
use smp_machine::laws::interrupts_are_on;
use smp_machine::{Cpu, Machine};
use std::alloc::{AllocError, Allocator};

/// Which keys are on, and what is at each site.
#[derive(Drop)]
pub(crate) struct LabelReadings<A: Allocator> {
    pub(crate) keys: Vec<bool, A>,
    pub(crate) sites: Vec<SiteKind, A>,
}

/// Whether a key is on.
fn read_key<A: Allocator>(machine: &Machine<A>, me: &mut Cpu<A>, k: u32) -> bool
    requires seated { IsSeated machine.now me.old }
    requires key { k < keys_at machine.now }
    ensures { ReadsMore machine.now (ReadKey k result) me.old me.new }
{
    interrupts_are_on(me);
    match machine.read_key(me, k) {
        Ok(on) => on,
        Err(_) => unreachable!(),
    }
}

/// What is at a site.
fn read_site<A: Allocator>(machine: &Machine<A>, me: &mut Cpu<A>, i: u32) -> SiteKind
    requires seated { IsSeated machine.now me.old }
    requires site { i < sites_at machine.now }
    ensures { ReadsMore machine.now (ReadSite i (jumps result)) me.old me.new }
{
    interrupts_are_on(me);
    match machine.read_site(me, i) {
        Ok(kind) => kind,
        Err(_) => unreachable!(),
    }
}

/// The keys, ascending.
#[tactic(auto, using(crate::proofs::Readings::none_read))]
fn read_keys<A: Allocator>(
    alloc: A,
    machine: &Machine<A>,
    me: &mut Cpu<A>,
    count: u32,
) -> Result<Vec<bool, A>, AllocError>
    requires seated { IsSeated machine.now me.old }
    requires count { count ≡ keys_at machine.now }
    ensures { IfOk result (λ keys. HasRead machine.now me.old me.new (keys_read keys.items) × (length keys.items ≡ count)) }
{
    let mut keys = Vec::with_capacity(alloc, count as usize)?;
    for k in 0..count {
        let on = read_key(machine, me, k);
        keys.push(on)?;
    }
    Ok(keys)
}

/// The sites, ascending.
#[tactic(auto, using(crate::proofs::Readings::none_read))]
fn read_sites<A: Allocator>(
    alloc: A,
    machine: &Machine<A>,
    me: &mut Cpu<A>,
    count: u32,
) -> Result<Vec<SiteKind, A>, AllocError>
    requires seated { IsSeated machine.now me.old }
    requires count { count ≡ sites_at machine.now }
    ensures read { IfOk result (λ sites. HasRead machine.now me.old me.new (sites_read sites.items) × (length sites.items ≡ count)) }
    ensures one { IfOk result (λ _. 0 < count → ReadsOneTable me.new.stops) }
{
    let mut sites = Vec::with_capacity(alloc, count as usize)?;
    for i in 0..count {
        let kind = read_site(machine, me, i);
        sites.push(kind)?;
    }
    Ok(sites)
}

/// All keys, and then all sites.
pub(crate) fn read_labels<A: Allocator + Copy>(
    alloc: A,
    machine: &Machine<A>,
    labels: &LabelMap,
    me: &mut Cpu<A>,
) -> Result<LabelReadings<A>, AllocError>
    requires seated { IsSeated machine.now me.old }
    requires labels { machine.now.stops.setting.labels ≡ labels.now }
    ensures read { IfOk result (λ r. HasRead machine.now me.old me.new (keys_read r.keys.items ++ sites_read r.sites.items)) }
    ensures kinds { IfOk result (λ r. HaveKinds labels.now r.keys.items r.sites.items) }
{
    // Each entry's key is one of the keys.
    let _words = labels.words();
    let keys = read_keys(alloc, machine, me, labels.keys())?;
    let sites = read_sites(alloc, machine, me, labels.sites())?;
    Ok(LabelReadings { keys, sites })
}

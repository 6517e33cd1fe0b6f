//! The keys and the sites that C passes.

ghost use Rattle.std.specs.Prelude.{◌≡◌, IfSome, IfNone, map};
ghost use Rattle.smp_labels.specs.Labels.{AreLabels};
ghost use Rattle.smp_tables_c.specs.Sites.{entry_of, labels_of as labels_so};

use crate::record::SmpSite;
use arrayvec::ArrayVec;
use smp_labels::{Entry, LabelMap, MOST_SITES};

/// The labels of this many keys and of these sites, where a table can have them.
pub fn labels_of(keys: u32, sites: &[SmpSite]) -> Option<LabelMap>
    ensures taken { IfSome result (λ m. (m ≡ labels_so keys sites.now) × AreLabels keys (map entry_of sites.now)) }
    ensures refused { IfNone result (¬ (AreLabels keys (map entry_of sites.now))) }
{
    if sites.len() > MOST_SITES {
        return None;
    }
    let mut entries = ArrayVec::<Entry, MOST_SITES>::new();
    for site in sites {
        entries.push(site.entry());
    }
    LabelMap::new(entries.as_slice(), keys).ok()
}

//! A CPU with its interrupts on reads keys and sites.

ghost use Rattle.std.specs.Prelude.{◌≡◌, ℕ, ◌<◌};
ghost use Rattle.smp_labels.specs.declared.words.TheConstants.{MOST_KEYS, MOST_SITES};
ghost use Rattle.smp_labels.specs.Keys.{is_on as is_word_on};
ghost use Rattle.smp_labels.specs.Keys.{IsKeyWord};
ghost use Rattle.smp_stop_steps.specs.Threads.Known.{stepped};
ghost use Rattle.smp_multi.specs.Lives.{Lives, StopMoment};
ghost use Rattle.smp_stop_steps.specs.Threads.KnownAfter.{reads_more};
ghost use Rattle.smp_multi.specs.Names.{Key, ReadSite};
ghost use Rattle.smp_multi.specs.Reads.{MayRead, jumps, loads_known};

use crate::seat::{SharedStopWords, StopSeat, load};
use smp_labels::{SiteKind, is_on};
use smp_words::word::Word;

/// Loads the count of a key.
pub(crate) fn load_count(words: SharedStopWords<'_>, seat: &mut StopSeat, k: u32) -> u64
    requires at { MayRead words.shared.now.table_id seat.old }
    requires low { k < MOST_KEYS }
    ensures table { seat.new.table ≡ words.entry.shared.now.table_id }
    ensures lives { Lives seat.new.known }
    ensures known { seat.new.known ≡ loads_known k result seat.old.known }
    ensures then { StopMoment seat.old.known (Key k) result }
    ensures word { IsKeyWord result }
{
    load(words, seat, Word::Key(k))
}

/// Whether a key is on (`static_key_enabled`).
pub(crate) fn read_key(words: SharedStopWords<'_>, seat: &mut StopSeat, k: u32) -> bool
    requires at { MayRead words.shared.now.table_id seat.old }
    requires low { k < MOST_KEYS }
    ensures table { seat.new.table ≡ words.entry.shared.now.table_id }
    ensures lives { Lives seat.new.known }
    ensures known { (count : ℕ) × StopMoment seat.old.known (Key k) count × (result ≡ is_word_on count)
        × (seat.new.known ≡ loads_known k count seat.old.known) }
{
    is_on(load_count(words, seat, k))
}

/// What a site is.
pub(crate) fn read_site(words: SharedStopWords<'_>, seat: &mut StopSeat, i: u32) -> SiteKind
    requires at { MayRead words.shared.now.table_id seat.old }
    requires low { i < MOST_SITES }
    ensures table { seat.new.table ≡ words.entry.shared.now.table_id }
    ensures lives { Lives seat.new.known }
    ensures known { seat.new.known ≡ stepped 1 (reads_more (ReadSite i (jumps result)) seat.old.known) }
{
    SiteKind::from_word(load(words, seat, Word::Site(i)))
}

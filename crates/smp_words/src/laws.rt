//! The numbers that users rely on, as numbers. These functions do nothing.

ghost use Rattle.std.specs.Prelude.{◌≡◌, ℕ, ◌<◌, ◌+◌, ◌-◌, ◌*◌, nat_lt, if◌then◌else◌, Some};
ghost use Rattle.smp_words.specs.Size.{owner, record_of};
ghost use Rattle.smp_words.specs.Flags.{class_of, flags_of};
ghost use Rattle.smp_words.specs.Kinds.{kind_at, kind_word};
ghost use Rattle.smp_words.specs.Layout.{index_of};
ghost use Rattle.smp_words.specs.StopLayout.{stop_index_of};
ghost use Rattle.smp_words.specs.declared.call.Class.TheVariants.{Sync, Async};
ghost use Rattle.smp_words.specs.declared.work.Kind.TheVariants.{One, Multi, Patch};
ghost use Rattle.smp_words.specs.declared.field.Field.TheVariants as field;
ghost use Rattle.smp_words.specs.declared.word.Word.TheVariants.{Head, Intr, Hand, Queued, Ran, Flags, Func, Info, Next, Gate, Slot, Key, Entry, Site};

use crate::phase::{DISABLE_IRQ, EXIT, OVER, PREPARE, RUN};
use crate::size::{
    ENTRIES, FLAGS, FUNCS, GATE, HANDS, HEADS, INFOS, INTRS, KEYS, MOST_KEYS, MOST_SITES, NEXTS,
    NR_CPUS, QUEUED, RAN, RECORDS, RECORDS_OF_ONE, SITES, SLOTS, WORDS,
};

/// There are at most 32 CPUs with 36 records each, 4 label keys and 16 label sites.
pub fn limits()
    ensures cpus { NR_CPUS ≡ 32 }
    ensures records { (RECORDS_OF_ONE ≡ 36) × (RECORDS ≡ 1152) }
    ensures labels { (MOST_KEYS ≡ 4) × (MOST_SITES ≡ 16) }
{}

/// The records of a source: its first twelve have numbers below 384, its others those from 384 on.
pub fn records_by_number()
    ensures { (source k : ℕ) → record_of source k ≡ if nat_lt k 12 then 12 * source + k else 384 + 24 * source + (k - 12) }
{}

/// Where the words of each kind begin, in the call table and in the stop table.
pub fn words_begin()
    ensures of_cpus { (HEADS ≡ 0) × (INTRS ≡ 32) × (HANDS ≡ 64) }
    ensures tallies { (QUEUED ≡ 96) × (RAN ≡ 1120) }
    ensures of_records { (FLAGS ≡ 2144) × (FUNCS ≡ 2145) × (INFOS ≡ 2146) × (NEXTS ≡ 2147) × (WORDS ≡ 6752) }
    ensures stops { (GATE ≡ 0) × (SLOTS ≡ 1) × (KEYS ≡ 353) × (ENTRIES ≡ 357) × (SITES ≡ 373) }
{}

/// The phases have these numbers, in the state word of a slot and in what is seen of a turn.
pub fn phases_have_numbers()
    ensures { (PREPARE ≡ 1) × (DISABLE_IRQ ≡ 2) × (RUN ≡ 3) × (EXIT ≡ 4) × (OVER ≡ 5) }
{}

/// A record belongs to the source that has it by a local number.
pub fn records_have_owners()
    ensures { (source k : ℕ) → source < 32 → k < 36 → owner (record_of source k) ≡ source }
{}

/// The number of each word of the call table.
pub fn words_have_numbers()
    ensures of_cpus { (c : ℕ) → c < 32 → (index_of (Head c) ≡ Some c) × (index_of (Intr c) ≡ Some (32 + c)) × (index_of (Hand c) ≡ Some (64 + c)) }
    ensures tallies { (s d : ℕ) → s < 32 → d < 32 → (index_of (Queued s d) ≡ Some (96 + 32 * s + d)) × (index_of (Ran d s) ≡ Some (1120 + 32 * d + s)) }
    ensures of_records { (r : ℕ) → r < 1152 → (index_of (Flags r) ≡ Some (2144 + 4 * r)) × (index_of (Func r) ≡ Some (2145 + 4 * r))
        × (index_of (Info r) ≡ Some (2146 + 4 * r)) × (index_of (Next r) ≡ Some (2147 + 4 * r)) }
{}

/// The number of each word of the stop table: the fields of a slot in their order, then keys, entries and sites.
pub fn stop_words_have_numbers()
    ensures gate { stop_index_of Gate ≡ Some 0 }
    ensures work { (s : ℕ) → s < 32 → (stop_index_of (Slot s field.Kind) ≡ Some (1 + 11 * s)) × (stop_index_of (Slot s field.Mask) ≡ Some (2 + 11 * s))
        × (stop_index_of (Slot s field.Active) ≡ Some (3 + 11 * s)) × (stop_index_of (Slot s field.Func) ≡ Some (4 + 11 * s))
        × (stop_index_of (Slot s field.Arg) ≡ Some (5 + 11 * s)) }
    ensures phases { (s : ℕ) → s < 32 → (stop_index_of (Slot s field.State) ≡ Some (6 + 11 * s)) × (stop_index_of (Slot s field.Ack) ≡ Some (7 + 11 * s))
        × (stop_index_of (Slot s field.Roll) ≡ Some (8 + 11 * s)) }
    ensures ends { (s : ℕ) → s < 32 → (stop_index_of (Slot s field.Todo) ≡ Some (9 + 11 * s)) × (stop_index_of (Slot s field.Result) ≡ Some (10 + 11 * s))
        × (stop_index_of (Slot s field.Done) ≡ Some (11 + 11 * s)) }
    ensures keys { (k : ℕ) → k < 4 → stop_index_of (Key k) ≡ Some (353 + k) }
    ensures sites { (i : ℕ) → i < 16 → (stop_index_of (Entry i) ≡ Some (357 + i)) × (stop_index_of (Site i) ≡ Some (373 + i)) }
{}

/// The flags word of a locked record by its class, and the number of each kind of stop; each is read back.
pub fn values_have_numbers()
    ensures flags { (flags_of Sync ≡ 17) × (flags_of Async ≡ 1) × (class_of 17 ≡ Sync) × (class_of 1 ≡ Async) }
    ensures kinds { (kind_word One ≡ 0) × (kind_word Multi ≡ 1) × (kind_word Patch ≡ 2) × (kind_at 0 ≡ One) × (kind_at 1 ≡ Multi) × (kind_at 2 ≡ Patch) }
{}

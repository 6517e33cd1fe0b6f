//! How many CPUs, records and words there are, and to whom a record belongs. No other file has these numbers.

ghost use Rattle.std.specs.Prelude.{◌≡◌, ◌<◌};
ghost use Rattle.smp_words.specs.Size.{owner as owner_in, record_of as record_in, cpus, records_of_one, records};

/// The most CPUs that there are (`CONFIG_NR_CPUS`).
pub const NR_CPUS: u32 = smp_mask::NR_CPUS;

/// The destinations of a call to many whose records are among the first records of a source.
pub const FIRST_TARGETS: u32 = 8;

/// The first records of each source CPU: the sync record, the async record, one for each of the first
/// destinations of a call to many, and two for the user.
pub const FIRST_OF_ONE: u32 = FIRST_TARGETS + 4;

/// The local number of the first of the user's records.
pub const USER: u32 = FIRST_TARGETS + 2;

/// The further records of each source: one for each further destination.
pub const MORE_OF_ONE: u32 = NR_CPUS - FIRST_TARGETS;

/// The records of each source.
pub const RECORDS_OF_ONE: u32 = FIRST_OF_ONE + MORE_OF_ONE;

/// The first records of all sources. They have the lowest numbers.
pub const FIRST_RECORDS: u32 = NR_CPUS * FIRST_OF_ONE;

/// All records.
pub const RECORDS: u32 = NR_CPUS * RECORDS_OF_ONE;

/// The most calls that a queue or a batch has: a record is in one place.
pub const MOST_CALLS: usize = RECORDS as usize;

/// The words of one record.
pub const WORDS_OF_ONE: usize = 4;

/// Where the words of each kind begin in the call table: one for each CPU, then one for each pair of CPUs, then the records.
pub const HEADS: usize = 0;

pub const INTRS: usize = HEADS + NR_CPUS as usize;

pub const HANDS: usize = INTRS + NR_CPUS as usize;

pub const QUEUED: usize = HANDS + NR_CPUS as usize;

pub const RAN: usize = QUEUED + (NR_CPUS * NR_CPUS) as usize;

pub const FLAGS: usize = RAN + (NR_CPUS * NR_CPUS) as usize;

pub const FUNCS: usize = FLAGS + 1;

pub const INFOS: usize = FLAGS + 2;

pub const NEXTS: usize = FLAGS + 3;

/// The words of the call table.
pub const WORDS: usize = FLAGS + WORDS_OF_ONE * RECORDS as usize;

/// The words of one rendezvous slot.
pub const FIELDS: usize = 11;

/// The words of all rendezvous slots: one slot for each CPU.
pub const SLOT_WORDS: usize = FIELDS * NR_CPUS as usize;

/// The most label keys, and the most label sites.
pub const MOST_KEYS: u32 = 4;

pub const MOST_SITES: u32 = 16;

/// Where the words of each kind begin in the stop table: the gate, the slots, then the labels.
pub const GATE: usize = 0;

pub const SLOTS: usize = GATE + 1;

pub const KEYS: usize = SLOTS + SLOT_WORDS;

pub const ENTRIES: usize = KEYS + MOST_KEYS as usize;

pub const SITES: usize = ENTRIES + MOST_SITES as usize;

/// The record of this source with this local number.
pub fn record_of(source: u32, local: u32) -> u32
    requires source { source < cpus }
    requires local { local < records_of_one }
    ensures { result ≡ record_in source local }
{
    if local < FIRST_OF_ONE {
        FIRST_OF_ONE * source + local
    } else {
        FIRST_RECORDS + MORE_OF_ONE * source + (local - FIRST_OF_ONE)
    }
}

/// The source that a record belongs to.
pub fn owner_of(id: u32) -> u32
    ensures { result ≡ owner_in id }
{
    if id < FIRST_RECORDS {
        id / FIRST_OF_ONE
    } else {
        (id - FIRST_RECORDS) / MORE_OF_ONE
    }
}

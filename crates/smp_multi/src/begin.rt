//! A source begins a stop: it stores the fields of its slot, and at last the roll, which opens the stop
//! (`stop_machine_cpuslocked`, `queue_stop_cpus_work`).

ghost use Rattle.std.specs.Prelude.{◌≡◌, ◌+◌, ◌<◌};
ghost use Rattle.smp_stop_steps.specs.Threads.Known.{stepped};
ghost use Rattle.smp_multi.specs.Lives.{Lives};
ghost use Rattle.smp_stop_steps.specs.Slots.{order};
ghost use Rattle.smp_multi.specs.Begins.{Begins, draft_at, begun};
ghost use Rattle.smp_words.specs.declared.field.Field.TheVariants as field_of;

use crate::seat::{SharedStopWords, StopSeat, store};
use smp_stop_steps::accesses::begun_value;
use smp_words::field::Field;
use smp_words::word::Word;
use smp_words::work::Work;

/// Stores the next field.
fn store_field(
    words: SharedStopWords<'_>,
    seat: &mut StopSeat,
    number: u32,
    work: &Work,
    field: Field,
)
    requires at { Begins words.shared.now.table_id seat.old number work.now (order field) }
    requires low { order field < order field_of.Roll }
    ensures at { Begins words.entry.shared.now.table_id seat.new number work.now (order field + 1) }
    ensures known { seat.new.known ≡ stepped 1 (record (seat.old.known) { source = draft_at (order field + 1) work.now }) }
{
    let value = begun_value(*work, field);
    store(words, seat, Word::Slot(number, field), value);
}

/// Stores the roll, last of all: with it the CPUs of the mask are called. A CPU that finds its bit there enters, and loads the
/// other fields at once. They have to be this stop's by then, as Linux queues a work only once its `multi_stop_data` is filled in.
fn open_slot(words: SharedStopWords<'_>, seat: &mut StopSeat, number: u32, work: &Work)
    requires at { Begins words.shared.now.table_id seat.old number work.now (order field_of.Roll) }
    ensures table { seat.new.table ≡ words.entry.shared.now.table_id }
    ensures lives { Lives seat.new.known }
    ensures known { seat.new.known ≡ stepped 1 (begun work.now seat.old.known) }
{
    let value = begun_value(*work, Field::Roll);
    store(words, seat, Word::Slot(number, Field::Roll), value);
}

/// Begins a stop, at eleven stores.
pub(crate) fn begin(words: SharedStopWords<'_>, seat: &mut StopSeat, number: u32, work: &Work)
    requires at { Begins words.shared.now.table_id seat.old number work.now 0 }
    ensures table { seat.new.table ≡ words.entry.shared.now.table_id }
    ensures lives { Lives seat.new.known }
    ensures known { seat.new.known ≡ stepped 11 (begun work.now seat.old.known) }
{
    store_field(words, seat, number, work, Field::Kind);
    store_field(words, seat, number, work, Field::Mask);
    store_field(words, seat, number, work, Field::Active);
    store_field(words, seat, number, work, Field::Func);
    store_field(words, seat, number, work, Field::Arg);
    store_field(words, seat, number, work, Field::Result);
    store_field(words, seat, number, work, Field::Todo);
    store_field(words, seat, number, work, Field::Done);
    store_field(words, seat, number, work, Field::Ack);
    store_field(words, seat, number, work, Field::State);
    open_slot(words, seat, number, work);
}

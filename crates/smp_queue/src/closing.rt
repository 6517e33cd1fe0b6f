//! The words of a table that no thread shares any more.

ghost use Rattle.std.specs.Prelude.{◌≡◌};
ghost use Rattle.smp_queue.specs.Cells.{HasCell, cells, number_in};
ghost use Rattle.smp_queue.specs.Audit.{Closes, AuditAnswers};

use crate::audit::{Audit, answer};
use crate::cell::cell;
use crate::seat::{CallSeat, OwnedCallWords, close};
use atomic_table::Closed;
use smp_words::Word;
use std::alloc::Allocator;
use std::marker::Model;

/// The words of a call table that was given up, as the last step left them.
pub struct ClosedTable<A: Allocator> {
    closed: Closed<(), A>,
}

impl<A: Allocator> Model for ClosedTable<A> {
    ghost use Rattle.std.specs.Prelude.{◌≡◌, ℕ, List};
    ghost use Rattle.std.specs.Mem.Slots.{slots_items, slots_len, IsFull};
    ghost use Rattle.smp_queue.specs.Cells.{cells};

    ghost Value = { List ℕ };

    ghost view = { λ c. slots_items c.closed.words };

    ghost invariant = { λ c. IsFull c.closed.words × (slots_len c.closed.words ≡ cells) × (slots_len c.closed.slots ≡ 0) };
}

impl<A: Allocator> ClosedTable<A> {
    /// The words of a table, which is given up with one of its seats.
    pub(crate) fn of(owner: OwnedCallWords<A>, seat: CallSeat) -> ClosedTable<A>
        requires table { seat.table ≡ owner.table.shared.table_id }
        requires sized { (owner.table.shared.table_id.words ≡ cells) × (owner.table.shared.table_id.slots ≡ 0) }
        ensures { Closes owner.table.shared.key seat.known result }
    {
        ClosedTable {
            closed: close(owner, seat),
        }
    }

    /// The number in a word.
    pub(crate) fn number(&self, word: Word) -> u64
        requires { HasCell word }
        ensures { result ≡ number_in self.now word }
    {
        self.closed.word(cell(word))
    }

    /// Drained exactly where these words have no head, no locked record and no CPU inside `handle`, and else what they
    /// have. It takes effect at no step, and does not wait.
    pub fn audit(&self) -> Audit
        ensures { AuditAnswers (number_in self.now) result }
    {
        answer(self)
    }

    /// Gives the memory back.
    pub fn free(self) {
        let ClosedTable { closed } = self;
        closed.free();
    }
}

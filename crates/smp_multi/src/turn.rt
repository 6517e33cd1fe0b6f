//! One turn of a stop of several CPUs (`multi_cpu_stop`), up to the call of a function.

ghost use Rattle.std.specs.Prelude.{◌≡◌, ◌≢◌, ◌<◌, ◌==◌, ◌&&◌};
ghost use Rattle.smp_mask.specs.Mask.{has};
ghost use Rattle.smp_multi.specs.AtCall.{Goes};
ghost use Rattle.smp_multi.specs.Lives.{Lives};
ghost use Rattle.smp_multi.specs.Names.{One, Rests};
ghost use Rattle.smp_multi.specs.Rounds.{AtTurn};

use crate::patch::patch_on;
use crate::round::{look, move_on};
use crate::seat::run_steps::begin_run;
use crate::seat::{SharedStopWords, StopSeat};
use smp_stop_steps::mask::has_bit;
use smp_stop_steps::stage::Visit;
use smp_words::phase::{EXIT, RUN};
use smp_words::work::Kind;

/// What a turn has done.
#[derive(Clone, Copy, Debug, PartialEq, Eq)]
pub enum Turn {
    /// There was no new phase.
    Same,
    /// It has acknowledged this phase, in which it calls no function.
    Moved(u32),
    /// It has called its function, or made its patch, and acknowledged `RUN`.
    Ran,
    /// It has acknowledged `EXIT`, the last phase.
    Left,
}

/// Where a turn has come to.
#[derive(Clone, Copy)]
pub(crate) enum Go {
    /// It is over: the visit after it, and what it has done.
    Over(Visit, Turn),
    /// This function is to be called, with this argument.
    Call(u16, u64),
}

/// Whether this phase is the one in which the CPU calls its function.
fn calls_at(state: u64, visit: Visit, number: u32) -> bool
    requires { number < 64 }
    ensures { result ≡ (state == RUN && has visit.active number) }
{
    state == u64::from(RUN) && has_bit(visit.active, number)
}

/// One turn, or the part of it before the call of the function.
pub(crate) fn begin_turn(
    words: SharedStopWords<'_>,
    seat: &mut StopSeat,
    number: u32,
    visit: Visit,
) -> Go
    requires at { AtTurn words.shared.now.table_id seat.old visit visit.acked Rests }
    requires more { visit.acked ≢ EXIT }
    requires several { visit.kind ≢ One }
    requires number { seat.old.known.number ≡ number }
    requires below { number < 64 }
    ensures lives { Lives seat.new.known }
    ensures goes { Goes words.entry.shared.now.table_id seat.old.known seat.new visit result }
{
    let state = look(words, seat, visit);
    if state == u64::from(visit.acked) {
        return Go::Over(visit, Turn::Same);
    }
    if calls_at(state, visit, number) {
        if visit.kind == Kind::Patch {
            let visit = patch_on(words, seat, visit);
            return Go::Over(visit, Turn::Ran);
        }
        let (func, arg) = begin_run(words, seat, visit);
        return Go::Call(func, arg);
    }
    let visit = move_on(words, seat, visit);
    if visit.acked == EXIT {
        Go::Over(visit, Turn::Left)
    } else {
        Go::Over(visit, Turn::Moved(visit.acked))
    }
}

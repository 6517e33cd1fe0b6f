//! Which of its records a CPU uses for a call.

ghost use Rattle.std.specs.Prelude.{◌≡◌, ◌<◌};
ghost use Rattle.smp_words.specs.Size.{cpus, records_of_one};
ghost use Rattle.smp_calls.specs.Records.{many_record as many_record_in, user_record as user_record_in};
ghost use Rattle.smp_calls.specs.Records.{single_record as single_record_in, class_for as class_in};

use smp_words::call::Class;
use smp_words::size::{FIRST_TARGETS, USER};

/// The record for a call to one CPU that is waited for. It takes the place of the one on the caller's stack in
/// `kernel/smp.c: smp_call_function_single`.
pub const SYNC_RECORD: u32 = 0;

/// The record for a call to one CPU that is not waited for (`csd_data`).
pub const ASYNC_RECORD: u32 = 1;

/// How many records the user has.
pub const USER_RECORDS: u32 = 2;

/// The record for calls to many with this destination (`cfd_data`), by which [`crate::call_many`] without wait calls it:
/// 2 more than its number, from CPU 8 on 4 more. `CallTable::is_done` says whether its last call has begun or run.
/// It makes no step, and does not wait.
pub fn many_record(to: u32) -> u32
    requires { to < cpus }
    ensures { result ≡ many_record_in to }
{
    if to < FIRST_TARGETS { to + 2 } else { to + 4 }
}

/// The record of the user with this number, 0 or 1, by which [`crate::call_async`] calls: 10 and 11. It takes the place of a
/// `call_single_data_t` of the caller's own. It makes no step, and does not wait.
pub fn user_record(u: u32) -> u32
    requires { u < 2 }
    ensures { result ≡ user_record_in u }
{
    USER + u
}

/// The record for a call to one CPU.
pub(crate) fn single_record(wait: bool) -> u32
    ensures { result ≡ single_record_in wait }
{
    if wait { SYNC_RECORD } else { ASYNC_RECORD }
}

/// The class of a call: one that is waited for keeps its record until its function has run.
pub(crate) fn class_for(wait: bool) -> Class
    ensures { result ≡ class_in wait }
{
    if wait { Class::Sync } else { Class::Async }
}

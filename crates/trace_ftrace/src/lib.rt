//! What a kernel's own tracer wrote, as events that are judged.
//!
//! - `text`: The verdict on a text of the tracer; `verdict`: the verdict on its events; `verdict_text`: what is printed of it.
//! - `reader`: The verdict on what a reader gives, without holding it; `thin_text`: a text of which only the lines are kept that a verdict
//!   shows.
//! - `names`: Why an event is none, by the kernel's names; `counts`: what of the lines is not judged; `waits`: the calls that wait for long.
//! - `print`: The trace that a text tells; `json`: its events in the trace-event format.
//! - `laws`: What is printed of a text, for a reader of it.
//! - `records`: The addresses of records, by their numbers.
//! - `told`: The events that marks tell; `stop_told`: those of stops; `stops`: the stops that are open; `per_cpu`: what each CPU has.
//! - `ordered`: The verdict with the order of appends; `bounds`, `moment`: where an append can be; `placing`: events in such an order.
//! - `choosing`: The order that is chosen; `matching`: the appends and the calls that begin; `batches`: which calls a take has taken.
//! - `marks`: The marks of calls that the lines of a text have; `sign`, `stop_sign`: what one line shows; `kept`: what is kept of the lines.
//! - `offline`: A CPU that goes offline, which is not judged.
//! - `heading`, `field`: The CPU, the time, the event and the fields of a line.
//! - `words`, `number`: The words of a line, and numbers.
//! - `wrong`: Why a text is not judged.
#![tactic(auto)]

mod batches;
pub mod bounds;
mod choosing;
pub mod counts;
mod field;
mod heading;
pub mod json;
pub mod kept;
pub mod laws;
mod marks;
mod matching;
pub mod moment;
pub mod names;
mod number;
mod offline;
pub mod ordered;
mod per_cpu;
pub mod pieces;
pub mod placing;
pub mod print;
pub mod reader;
pub mod records;
pub mod sign;
pub mod stop_sign;
mod stop_told;
pub mod stops;
pub mod text;
pub mod thin_text;
pub mod told;
pub mod verdict;
pub mod verdict_text;
mod waits;
mod words;
pub mod wrong;

//! Shows a script: its replay with one column for each CPU, a picture of it, or what is wrong with a script that is not
//! lawful.
//!
//! - `show`: A script from a reader, and what is shown of it to a writer; `svg`, `json`: as a picture, and as trace events.
//! - `page`, `page_replay`: A replay as a page of HTML to step through; `page_style`, `page_script`: what each page has.
//! - `laws`: What is in a page, for a reader of its text.
//! - `choice`: Which events are shown.
//! - `lanes`, `narrow_lanes`, `cell`, `pad`: A replay with one column for each CPU, or one mark.
//! - `picture`, `areas`, `arrows`, `legend`, `element`: A replay as a picture.
//! - `frame`, `spans_arrows`, `style_names`: Where things are in it, what is drawn from one event to another, and in which style.
//! - `open_close`, `idle_handles`: What one step opens and a later one closes, and handles that find no interrupt.
//! - `text_kind`: The kinds of texts.
//! - `fault`: The first fault of a script.
//! - `templates`, `match_template`, `field_domain`, `condition_parts`: The lines that a text may have, how far a line keeps to
//!   one, what a field of it may be, and the same of a condition; `given_names`: what a name in it may have numbers of.
//! - `print_bytes`, `explain`: What is wrong with a text of any kind, and what may be in its place.
#![tactic(auto)]

pub mod areas;
pub mod arrows;
pub mod cell;
pub mod choice;
mod condition_parts;
pub mod element;
pub mod explain;
pub mod fault;
mod field_domain;
pub mod frame;
mod given_names;
mod idle_handles;
mod json;
pub mod lanes;
pub mod laws;
pub mod legend;
mod match_template;
mod narrow_lanes;
pub mod open_close;
mod pad;
mod page;
mod page_replay;
pub mod page_script;
pub mod page_style;
pub mod picture;
mod print_bytes;
pub mod show;
pub mod spans_arrows;
mod style_names;
pub mod svg;
mod templates;
pub mod text_kind;

pub use choice::{Choice, Mark};
pub use show::{explain_script, explained, show_json, show_lanes, show_page, show_svg};

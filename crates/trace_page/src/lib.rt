//! A trace of events, or what a kernel's tracer wrote, as a page of HTML to step through; or around one line as a picture.
//!
//! - `page`: The page, with the verdict on the events in it.
//! - `shown`: How many events it shows; `escape`: what it has of a text.
//! - `page_trace`: Its parts, and its own script.
//! - `picture`: The picture; `window`: its events; `grid`: where they are; `links`: arrows and boxes; `title`: what it says of an event.
//! - `laws`, `picture_laws`: What is in a page and in a picture, for a reader of its text.
#![tactic(auto)]

mod escape;
mod grid;
pub mod laws;
mod links;
pub mod page;
mod page_trace;
pub mod picture;
pub mod picture_laws;
mod shown;
mod title;
mod window;

pub use page::{page_of_kernel, page_of_trace};
pub use picture::{NoPicture, picture_of_kernel};

//! What a picture has from one kernel's event to another: the arrow of a call, and the boxes of functions and stops.

ghost use Rattle.std.specs.Prelude.{◌≡◌, ◌≤◌, ◌<◌, ◌^◌, ◌+◌, ◌++◌, length, IfSome, OnOk, string_bytes};
ghost use Rattle.trace_ftrace.specs.NamesView.{names_value};
ghost use Rattle.trace_page.specs.Links.{box_area, box_text, call_arrow, closing, drawn_text, ends};
ghost use Rattle.trace_page.specs.Links.{is_begin, is_complete, is_end, link_of, link_text, links_text};

use crate::grid::{Grid, Pen};
use crate::title::{label, title};
use std::alloc::{AllocError, Allocator};
use trace_ftrace::names::Names;
use trace_ftrace::told::Told;
use trace_model::{CallEvent, Event, StopEvent};
use view::arrows::ends_between;
use view::element::{Area, write_area, write_arrow, write_text};

/// What an event begins.
#[derive(Clone, Copy)]
enum Link {
    /// A call by this record waits for this CPU.
    Call(u16, u32),
    /// The function of this record's call runs on this CPU.
    Run(u16, u32),
    /// This CPU is in a stop.
    Stay(u32),
}

/// What an event begins; nothing of another event.
fn link_of(told: &Told) -> Option<Link>
    ensures { result ≡ link_of told.now.cpu told.now.event }
{
    match told.event {
        Event::Call(CallEvent::Queue(id, to, _, _, _)) => Some(Link::Call(id, to)),
        Event::Call(CallEvent::Begin(id, _, _)) => Some(Link::Run(id, told.cpu)),
        Event::Stop(StopEvent::Enter(_)) => Some(Link::Stay(told.cpu)),
        _ => None,
    }
}

/// Whether the function of this record's call is entered.
fn is_begin(event: Event, id: u16) -> bool
    ensures { result ≡ is_begin id event }
{
    match event {
        Event::Call(CallEvent::Begin(begun, _, _)) => begun == id,
        _ => false,
    }
}

/// Whether it returns.
fn is_end(event: Event, id: u16) -> bool
    ensures { result ≡ is_end id event }
{
    match event {
        Event::Call(CallEvent::End(ended)) => ended == id,
        _ => false,
    }
}

/// Whether a CPU leaves a stop.
fn is_complete(event: Event) -> bool
    ensures { result ≡ is_complete event }
{
    match event {
        Event::Stop(StopEvent::Complete(_)) => true,
        _ => false,
    }
}

/// Whether an event ends this.
fn ends(link: Link, told: &Told) -> bool
    ensures { result ≡ ends link told.now }
{
    match link {
        Link::Call(id, to) => told.cpu == to && is_begin(told.event, id),
        Link::Run(id, cpu) => told.cpu == cpu && is_end(told.event, id),
        Link::Stay(cpu) => told.cpu == cpu && is_complete(told.event),
    }
}

/// The number of the first of these events that ends this, where the first of all has this number.
fn closing(link: Link, number: u32, events: &[Told]) -> Option<u32>
    requires { number + length events.now ≤ 300 }
    ensures first { result ≡ closing link number events.now }
    ensures within { IfSome result (λ n. (number ≤ n) × (n ≤ 300)) }
{
    let mut place = number;
    let mut rest = events;
    while let [first, after @ ..] = rest {
        if ends(link, first) {
            return Some(place);
        }
        place += 1;
        rest = after;
    }
    None
}

/// Draws the arrow of a call from its event to that of its function's begin, on the CPU that it is for.
#[tactic(auto, unfolding(crate::specs::Links::call_arrow))]
fn write_call_arrow<A: Allocator>(
    out: &mut String<A>,
    grid: &Grid<'_>,
    from: (u32, u32),
    to: (u32, u32),
) -> Result<(), AllocError>
    requires { (from.0 ≤ 300) × (to.0 ≤ 300) }
    ensures { OnOk result (string_bytes out.new ≡ string_bytes out.old ++ call_arrow grid.now.low grid.now.lanes.now from to) }
{
    let start = grid.point(from.0, from.1);
    let (ends, y) = ends_between(start, grid.point(to.0, to.1));
    write_arrow(out, "call", ends, y)
}

/// The place of a box from one event's column to another's, where both are in one row, else to the end of the first one's row.
fn box_area(grid: &Grid<'_>, number: u32, end: u32, cpu: u32) -> Area
    requires { number ≤ 300 }
    ensures value { result ≡ box_area grid.now.low grid.now.lanes.now number end cpu }
    ensures x { result.x ≤ 892 }
    ensures y { result.y + 11 < 2 ^ 64 }
{
    let frame = grid.frame(number);
    let x = frame.left(number);
    let edge = frame.left(end) + frame.step();
    Area {
        x,
        y: frame.upper(cpu) + 3,
        width: edge.saturating_sub(x),
        height: 43,
    }
}

/// Draws the box of what an event begins, with as much of its function's name as finds room.
#[tactic(auto, unfolding(crate::specs::Links::box_text))]
fn write_box<A: Allocator + Copy>(
    out: &mut String<A>,
    pen: &Pen<'_, A>,
    told: &Told,
    style: &'static str,
    area: Area,
) -> Result<(), AllocError>
    requires { (area.x ≤ 892) × (area.y + 11 < 2 ^ 64) }
    ensures { OnOk result (string_bytes out.new ≡ string_bytes out.old ++ box_text (names_value pen.now.names) told.now style.now area) }
{
    let said = title(pen.alloc, &pen.names, told)?;
    write_area(out, style, area, said.as_str())?;
    let room = (area.width.saturating_sub(4) / 6) as usize;
    let front = label(pen.alloc, &pen.names, told, room)?;
    write_text(out, "label", area.x + 3, area.y + 11, front.as_str())
}

/// Draws what an event begins, from the event of the first number to that of the second, which ends it.
fn write_drawn<A: Allocator + Copy>(
    out: &mut String<A>,
    pen: &Pen<'_, A>,
    told: &Told,
    link: Link,
    reach: (u32, u32),
) -> Result<(), AllocError>
    requires { (reach.0 ≤ 300) × (reach.1 ≤ 300) }
    ensures { OnOk result (string_bytes out.new ≡ string_bytes out.old
        ++ drawn_text (names_value pen.now.names) pen.now.grid.low pen.now.grid.lanes.now told.now link reach) }
{
    let (number, end) = reach;
    match link {
        Link::Call(_, to) => write_call_arrow(out, &pen.grid, (number, told.cpu), (end, to)),
        Link::Run(_, cpu) => {
            let area = box_area(&pen.grid, number, end, cpu);
            write_box(out, pen, told, "handle", area)
        }
        Link::Stay(cpu) => {
            let area = box_area(&pen.grid, number, end, cpu);
            write_box(out, pen, told, "stop", area)
        }
    }
}

/// Draws what an event of this number begins, where one of these behind it ends it.
fn write_link<A: Allocator + Copy>(
    out: &mut String<A>,
    pen: &Pen<'_, A>,
    number: u32,
    told: &Told,
    behind: &[Told],
) -> Result<(), AllocError>
    requires { number + 1 + length behind.now ≤ 300 }
    ensures { OnOk result (string_bytes out.new ≡ string_bytes out.old
        ++ link_text (names_value pen.now.names) pen.now.grid.low pen.now.grid.lanes.now number told.now behind.now) }
{
    let Some(link) = link_of(told) else {
        return Ok(());
    };
    match closing(link, number + 1, behind) {
        Some(end) => write_drawn(out, pen, told, link, (number, end)),
        None => Ok(()),
    }
}

/// Draws what events begin that others of them end.
pub(crate) fn write_links<A: Allocator + Copy>(
    out: &mut String<A>,
    pen: &Pen<'_, A>,
    events: &[Told],
) -> Result<(), AllocError>
    requires { length events.now ≤ 300 }
    ensures { OnOk result (string_bytes out.new ≡ string_bytes out.old
        ++ links_text (names_value pen.now.names) pen.now.grid.low pen.now.grid.lanes.now 0 events.now) }
{
    let mut number = 0u32;
    let mut rest = events;
    while let [first, after @ ..] = rest {
        write_link(out, pen, number, first, after)?;
        number += 1;
        rest = after;
    }
    Ok(())
}

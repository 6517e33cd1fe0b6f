//! The head of a picture: its styles, its legend, its lanes and the numbers of its events.

ghost use Rattle.std.specs.Prelude.{◌≡◌, ◌++◌, OnOk, string_bytes};
ghost use Rattle.view.specs.Legend.{box_text, ground_text, head_text, lane_text, lanes_text, lower_end, size_text, tick_text, upper_end};

use crate::element::{Area, write_area, write_text};
use crate::frame::{Frame, IDLE_LANE, LANE, Lane, WIDTH};
use std::alloc::{AllocError, Allocator};

/// The place of the highest lane of the first row: below the legend and the numbers of the events.
pub const FIRST_BASE: u32 = 112;

/// Colours that readers tell apart who see no red or no green: the eight of Okabe and Ito.
pub const STYLES: &str = "<style>
text { font-family: monospace; font-size: 10px; fill: #000000; }
text.cpu { font-size: 12px; }
text.number { font-size: 9px; fill: #555555; text-anchor: middle; }
text.key { font-size: 11px; }
text.far { font-size: 9px; fill: #555555; text-anchor: end; }
text.value { font-size: 8px; text-anchor: middle; }
text.near { font-size: 9px; fill: #555555; }
rect { stroke-width: 1; }
rect.lane { fill: #f6f6f6; }
rect.off { fill: #000000; fill-opacity: 0.16; }
rect.odd { fill: #cc79a7; fill-opacity: 0.6; }
rect.even { fill: #cc79a7; fill-opacity: 0.25; }
rect.post { fill: #56b4e9; fill-opacity: 0.45; stroke: #0072b2; }
rect.send { fill: #e69f00; fill-opacity: 0.45; stroke: #e69f00; }
rect.handle { fill: #009e73; fill-opacity: 0.4; stroke: #009e73; }
rect.idle { fill: #009e73; fill-opacity: 0.25; }
rect.stop { fill: #cc79a7; fill-opacity: 0.4; stroke: #cc79a7; }
rect.ask { fill: #ffffff; fill-opacity: 0.6; stroke: #000000; }
rect.nudge { fill: #f0e442; fill-opacity: 0.6; stroke: #a09700; }
rect.mark { fill: #f0e442; fill-opacity: 0.35; stroke: #d55e00; stroke-width: 2; }
line.number { stroke: #dddddd; }
path.call { fill: none; stroke: #0072b2; stroke-width: 1.6; }
path.interrupt { fill: none; stroke: #d55e00; stroke-width: 1.6; stroke-dasharray: 5 3; }
</style>
";

/// What is drawn more than once: dots, and the heads of arrows.
pub const DOTS: &str = "<defs>
<path id=\"start\" d=\"M -4 -4 L 3 0 L -4 4 Z\" fill=\"#888888\"/>
<circle id=\"load\" r=\"4\" fill=\"#ffffff\" stroke=\"#000000\" stroke-width=\"1.5\"/>
<circle id=\"store\" r=\"4.5\" fill=\"#000000\"/>
<path id=\"swap\" d=\"M 0 -6 L 6 0 L 0 6 L -6 0 Z\" fill=\"#000000\"/>
<path id=\"lost\" d=\"M 0 -6 L 6 0 L 0 6 L -6 0 Z\" fill=\"#ffffff\" stroke=\"#000000\" stroke-width=\"1.5\"/>
<circle id=\"run\" r=\"7\" fill=\"#d55e00\" stroke=\"#000000\"/>
<path id=\"error\" d=\"M -5 -5 L 5 5 M 5 -5 L -5 5\" stroke=\"#d55e00\" stroke-width=\"3\"/>
<marker id=\"call-head\" markerWidth=\"8\" markerHeight=\"8\" refX=\"6\" refY=\"4\" orient=\"auto\" markerUnits=\"userSpaceOnUse\">\
<path d=\"M 0 0 L 8 4 L 0 8 Z\" fill=\"#0072b2\"/></marker>
<marker id=\"interrupt-head\" markerWidth=\"8\" markerHeight=\"8\" refX=\"6\" refY=\"4\" orient=\"auto\" markerUnits=\"userSpaceOnUse\">\
<path d=\"M 0 0 L 8 4 L 0 8 Z\" fill=\"#d55e00\"/></marker>
</defs>
";

// The first line: the boxes of commands.
const BOXES: &str =
    "<rect class=\"post\" x=\"12\" y=\"10\" width=\"22\" height=\"14\"/><text class=\"key\" x=\"40\" y=\"21\">post</text>
<rect class=\"send\" x=\"100\" y=\"10\" width=\"22\" height=\"14\"/><text class=\"key\" x=\"128\" y=\"21\">send</text>
<rect class=\"handle\" x=\"188\" y=\"10\" width=\"22\" height=\"14\"/><text class=\"key\" x=\"216\" y=\"21\">handle</text>
<rect class=\"stop\" x=\"290\" y=\"10\" width=\"22\" height=\"14\"/><text class=\"key\" x=\"318\" y=\"21\">of a stop</text>
<rect class=\"nudge\" x=\"412\" y=\"10\" width=\"22\" height=\"14\"/><text class=\"key\" x=\"440\" y=\"21\">nudge</text>
<rect class=\"ask\" x=\"508\" y=\"10\" width=\"22\" height=\"14\"/><text class=\"key\" x=\"536\" y=\"21\">done, poll, key, site</text>
<rect class=\"idle\" x=\"700\" y=\"14\" width=\"22\" height=\"6\"/><text class=\"key\" x=\"728\" y=\"21\">a handle of nothing</text>
";

// The second line: the dots of steps.
const STEPS: &str =
    "<use href=\"#start\" x=\"22\" y=\"43\"/><text class=\"key\" x=\"34\" y=\"47\">start</text>
<use href=\"#load\" x=\"98\" y=\"43\"/><text class=\"key\" x=\"110\" y=\"47\">load</text>
<use href=\"#store\" x=\"166\" y=\"43\"/><text class=\"key\" x=\"178\" y=\"47\">store</text>
<use href=\"#swap\" x=\"242\" y=\"43\"/><text class=\"key\" x=\"254\" y=\"47\">swap, cas, and, sub</text>
<use href=\"#lost\" x=\"408\" y=\"43\"/><text class=\"key\" x=\"420\" y=\"47\">lost cas</text>
<use href=\"#run\" x=\"506\" y=\"43\"/><text class=\"key\" x=\"520\" y=\"47\">a function runs</text>
<use href=\"#error\" x=\"650\" y=\"43\"/><text class=\"key\" x=\"662\" y=\"47\">error, refused</text>
";

// The third line: arrows and bands.
const LINKS: &str =
    "<path class=\"call\" d=\"M 12 69 L 42 69\" marker-end=\"url(#call-head)\"/><text class=\"key\" x=\"50\" y=\"73\">a call to its run</text>
<path class=\"interrupt\" d=\"M 188 69 L 218 69\" marker-end=\"url(#interrupt-head)\"/><text class=\"key\" x=\"226\" y=\"73\">a send to its swap</text>
<rect class=\"off\" x=\"372\" y=\"62\" width=\"22\" height=\"14\"/><text class=\"key\" x=\"400\" y=\"73\">interrupts off</text>
<rect class=\"odd\" x=\"514\" y=\"62\" width=\"14\" height=\"14\"/>\
<rect class=\"even\" x=\"528\" y=\"62\" width=\"14\" height=\"14\"/><text class=\"key\" x=\"548\" y=\"73\">phases of a stop</text>
";

// The begin of a picture, with its size.
#[tactic(auto, unfolding(crate::specs::Legend::size_text))]
fn write_size<A: Allocator>(out: &mut String<A>, width: u64, height: u64) -> Result<(), AllocError>
    ensures { OnOk result (string_bytes out.new ≡ string_bytes out.old ++ size_text width height) }
{
    write!(
        out,
        "<svg xmlns=\"http://www.w3.org/2000/svg\" width=\"{width}\" height=\"{height}\""
    )
}

// What of a picture is shown: all of it.
#[tactic(auto, unfolding(crate::specs::Legend::box_text))]
fn write_view_box<A: Allocator>(
    out: &mut String<A>,
    width: u64,
    height: u64,
) -> Result<(), AllocError>
    ensures { OnOk result (string_bytes out.new ≡ string_bytes out.old ++ box_text width height) }
{
    writeln!(out, " viewBox=\"0 0 {width} {height}\">")
}

// What is below all else.
#[tactic(auto, unfolding(crate::specs::Legend::ground_text))]
fn write_ground<A: Allocator>(
    out: &mut String<A>,
    width: u64,
    height: u64,
) -> Result<(), AllocError>
    ensures { OnOk result (string_bytes out.new ≡ string_bytes out.old ++ ground_text width height) }
{
    writeln!(
        out,
        "<rect width=\"{width}\" height=\"{height}\" fill=\"#ffffff\"/>"
    )
}

/// The begin of a picture, with its size, and its styles.
#[tactic(auto, unfolding(crate::specs::Legend::head_text))]
pub fn write_head<A: Allocator>(
    out: &mut String<A>,
    width: u64,
    height: u64,
) -> Result<(), AllocError>
    ensures { OnOk result (string_bytes out.new ≡ string_bytes out.old ++ head_text width height) }
{
    write_size(out, width, height)?;
    write_view_box(out, width, height)?;
    out.push_str(STYLES)?;
    out.push_str(DOTS)?;
    write_ground(out, width, height)
}

/// What the styles mean.
pub fn write_legend<A: Allocator>(out: &mut String<A>) -> Result<(), AllocError> {
    out.push_str(BOXES)?;
    out.push_str(STEPS)?;
    out.push_str(LINKS)
}

// The lane of a CPU.
#[tactic(auto, unfolding(crate::specs::Legend::lane_text))]
fn write_lane<A: Allocator + Copy>(
    alloc: A,
    out: &mut String<A>,
    frame: &Frame<'_>,
    lane: &Lane,
) -> Result<(), AllocError>
    ensures { OnOk result (string_bytes out.new
        ≡ string_bytes out.old ++ lane_text frame.now.base frame.now.low frame.now.lanes.now lane.now) }
{
    let cpu = lane.cpu;
    let y = frame.upper(cpu);
    let name = format!(in alloc; "CPU {cpu}")?;
    let height = if lane.busy { LANE } else { IDLE_LANE };
    let area = Area {
        x: 0,
        y: y + 1,
        width: WIDTH,
        height: height - 2,
    };
    write_area(out, "lane", area, name.as_str())?;
    write_text(out, "cpu", 4, y + height / 2 + 4, name.as_str())
}

/// The lanes of a row.
pub fn write_lanes<A: Allocator + Copy>(
    alloc: A,
    out: &mut String<A>,
    frame: &Frame<'_>,
) -> Result<(), AllocError>
    ensures { OnOk result (string_bytes out.new
        ≡ string_bytes out.old ++ lanes_text frame.now.base frame.now.low frame.now.lanes.now) }
{
    for lane in frame.lanes {
        write_lane(alloc, out, frame, lane)?;
    }
    Ok(())
}

// The upper end of a line.
#[tactic(auto, unfolding(crate::specs::Legend::upper_end))]
fn write_upper_end<A: Allocator>(out: &mut String<A>, x: u64, y: u64) -> Result<(), AllocError>
    ensures { OnOk result (string_bytes out.new ≡ string_bytes out.old ++ upper_end x y) }
{
    write!(out, "<line class=\"number\" x1=\"{x}\" y1=\"{y}\"")
}

// Its lower end.
#[tactic(auto, unfolding(crate::specs::Legend::lower_end))]
fn write_lower_end<A: Allocator>(out: &mut String<A>, x: u64, y: u64) -> Result<(), AllocError>
    ensures { OnOk result (string_bytes out.new ≡ string_bytes out.old ++ lower_end x y) }
{
    writeln!(out, " x2=\"{x}\" y2=\"{y}\"/>")
}

/// A line from one height to another, with this text above it.
#[tactic(auto, unfolding(crate::specs::Legend::tick_text))]
pub fn write_tick<A: Allocator>(
    out: &mut String<A>,
    x: u64,
    top: u64,
    bottom: u64,
    said: &str,
) -> Result<(), AllocError>
    ensures { OnOk result (string_bytes out.new ≡ string_bytes out.old ++ tick_text x top bottom said.now) }
{
    write_upper_end(out, x, top)?;
    write_lower_end(out, x, bottom)?;
    write_text(out, "number", x, top.saturating_sub(5), said)
}

// The number of an event, and a line below it.
fn write_number<A: Allocator + Copy>(
    alloc: A,
    out: &mut String<A>,
    frame: &Frame<'_>,
    column: u32,
) -> Result<(), AllocError> {
    let x = frame.left(column) + frame.step() / 2;
    let top = u64::from(frame.base);
    let number = format!(in alloc; "{column}")?;
    write_tick(out, x, top, frame.foot(), number.as_str())
}

/// The number of each fifth event of a row.
pub fn write_axis<A: Allocator + Copy>(
    alloc: A,
    out: &mut String<A>,
    frame: &Frame<'_>,
) -> Result<(), AllocError> {
    let top = u64::from(frame.base).saturating_sub(5);
    write_text(out, "key", 4, top, "event")?;
    for column in frame.first..frame.last.saturating_add(1) {
        if column % 5 == 0 {
            write_number(alloc, out, frame, column)?;
        }
    }
    Ok(())
}

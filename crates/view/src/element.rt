//! Elements of a picture, as SVG.

ghost use Rattle.std.specs.Prelude.{◌≡◌, ◌++◌, OnOk, string_bytes};
ghost use Rattle.view.specs.Elements.{area_text, arrow_back, arrow_front, arrow_text, char_text, dot_text, escaped};
ghost use Rattle.view.specs.Elements.{extent_text, leaving_text, meeting_text, point_text, title_text, use_text, words_front, words_text};

use std::alloc::{AllocError, Allocator};

// One character; `<`, `>`, `&` and `"` by their names.
fn write_char<A: Allocator>(out: &mut String<A>, c: char) -> Result<(), AllocError>
    ensures { OnOk result (string_bytes out.new ≡ string_bytes out.old ++ char_text c) }
{
    match c {
        '<' => out.push_str("&lt;"),
        '>' => out.push_str("&gt;"),
        '&' => out.push_str("&amp;"),
        '"' => out.push_str("&quot;"),
        _ => out.push(c),
    }
}

/// A text, with no character that begins or ends an element.
pub fn write_escaped<A: Allocator>(out: &mut String<A>, text: &str) -> Result<(), AllocError>
    ensures { OnOk result (string_bytes out.new ≡ string_bytes out.old ++ escaped text.now) }
{
    for c in text.chars() {
        write_char(out, c)?;
    }
    Ok(())
}

/// What is shown of an element when it is pointed at.
#[tactic(auto, unfolding(crate::specs::Elements::title_text))]
pub fn write_title<A: Allocator>(out: &mut String<A>, text: &str) -> Result<(), AllocError>
    ensures { OnOk result (string_bytes out.new ≡ string_bytes out.old ++ title_text text.now) }
{
    out.push_str("<title>")?;
    write_escaped(out, text)?;
    out.push_str("</title>")
}

// A text of this style from this point on, up to the text.
#[tactic(auto, unfolding(crate::specs::Elements::words_front))]
fn write_words_front<A: Allocator>(
    out: &mut String<A>,
    style: &str,
    x: u64,
    y: u64,
) -> Result<(), AllocError>
    ensures { OnOk result (string_bytes out.new ≡ string_bytes out.old ++ words_front style.now x y) }
{
    write!(out, "<text class=\"{style}\" x=\"{x}\" y=\"{y}\">")
}

/// A text of this style from this point on.
#[tactic(auto, unfolding(crate::specs::Elements::words_text))]
pub fn write_text<A: Allocator>(
    out: &mut String<A>,
    style: &str,
    x: u64,
    y: u64,
    text: &str,
) -> Result<(), AllocError>
    ensures { OnOk result (string_bytes out.new ≡ string_bytes out.old ++ words_text style.now x y text.now) }
{
    write_words_front(out, style, x, y)?;
    write_escaped(out, text)?;
    out.push_str("</text>\n")
}

/// A place of a picture: its left and upper edge, its width and its height.
#[derive(Clone, Copy)]
pub struct Area {
    pub x: u64,
    pub y: u64,
    pub width: u64,
    pub height: u64,
}

// The style and the corner of a filled place.
#[tactic(auto, unfolding(crate::specs::Elements::point_text))]
fn write_corner<A: Allocator>(
    out: &mut String<A>,
    style: &str,
    x: u64,
    y: u64,
) -> Result<(), AllocError>
    ensures { OnOk result (string_bytes out.new ≡ string_bytes out.old ++ point_text style.now x y) }
{
    write!(out, "<rect class=\"{style}\" x=\"{x}\" y=\"{y}\"")
}

// Its width and its height.
#[tactic(auto, unfolding(crate::specs::Elements::extent_text))]
fn write_extent<A: Allocator>(
    out: &mut String<A>,
    width: u64,
    height: u64,
) -> Result<(), AllocError>
    ensures { OnOk result (string_bytes out.new ≡ string_bytes out.old ++ extent_text width height) }
{
    write!(out, " width=\"{width}\" height=\"{height}\">")
}

/// A filled place of this style, with this title.
#[tactic(auto, unfolding(crate::specs::Elements::area_text))]
pub fn write_area<A: Allocator>(
    out: &mut String<A>,
    style: &str,
    area: Area,
    title: &str,
) -> Result<(), AllocError>
    ensures { OnOk result (string_bytes out.new ≡ string_bytes out.old ++ area_text style.now area title.now) }
{
    write_corner(out, style, area.x, area.y)?;
    write_extent(out, area.width, area.height)?;
    write_title(out, title)?;
    out.push_str("</rect>\n")
}

// The dot of this name round this point, up to its title.
#[tactic(auto, unfolding(crate::specs::Elements::use_text))]
fn write_use<A: Allocator>(
    out: &mut String<A>,
    name: &str,
    x: u64,
    y: u64,
) -> Result<(), AllocError>
    ensures { OnOk result (string_bytes out.new ≡ string_bytes out.old ++ use_text name.now x y) }
{
    write!(out, "<use href=\"#{name}\" x=\"{x}\" y=\"{y}\">")
}

/// The dot of this name round this point, with this title.
#[tactic(auto, unfolding(crate::specs::Elements::dot_text))]
pub fn write_dot<A: Allocator>(
    out: &mut String<A>,
    name: &str,
    x: u64,
    y: u64,
    title: &str,
) -> Result<(), AllocError>
    ensures { OnOk result (string_bytes out.new ≡ string_bytes out.old ++ dot_text name.now x y title.now) }
{
    write_use(out, name, x, y)?;
    write_title(out, title)?;
    out.push_str("</use>\n")
}

/// Two points.
#[derive(Clone, Copy)]
pub struct Ends {
    pub x1: u64,
    pub y1: u64,
    pub x2: u64,
    pub y2: u64,
}

// From a point on, upright, to this height.
#[tactic(auto, unfolding(crate::specs::Elements::leaving_text))]
fn write_leaving<A: Allocator>(
    out: &mut String<A>,
    x: u64,
    y: u64,
    across: u64,
) -> Result<(), AllocError>
    ensures { OnOk result (string_bytes out.new ≡ string_bytes out.old ++ leaving_text x y across) }
{
    write!(out, "M {x} {y} C {x} {across}")
}

// To a point, upright, from this height on.
#[tactic(auto, unfolding(crate::specs::Elements::meeting_text))]
fn write_meeting<A: Allocator>(
    out: &mut String<A>,
    x: u64,
    y: u64,
    across: u64,
) -> Result<(), AllocError>
    ensures { OnOk result (string_bytes out.new ≡ string_bytes out.old ++ meeting_text x y across) }
{
    write!(out, " {x} {across} {x} {y}")
}

// The begin of a path of this style.
#[tactic(auto, unfolding(crate::specs::Elements::arrow_front))]
fn write_arrow_front<A: Allocator>(out: &mut String<A>, style: &str) -> Result<(), AllocError>
    ensures { OnOk result (string_bytes out.new ≡ string_bytes out.old ++ arrow_front style.now) }
{
    write!(out, "<path class=\"{style}\" d=\"")
}

// Its end, with the head of an arrow.
#[tactic(auto, unfolding(crate::specs::Elements::arrow_back))]
fn write_arrow_back<A: Allocator>(out: &mut String<A>, style: &str) -> Result<(), AllocError>
    ensures { OnOk result (string_bytes out.new ≡ string_bytes out.old ++ arrow_back style.now) }
{
    writeln!(out, "\" marker-end=\"url(#{style}-head)\"/>")
}

/// An arrow of this style: it leaves the first point and meets the second upright, and crosses between at this height.
#[tactic(auto, unfolding(crate::specs::Elements::arrow_text))]
pub fn write_arrow<A: Allocator>(
    out: &mut String<A>,
    style: &str,
    ends: Ends,
    y: u64,
) -> Result<(), AllocError>
    ensures { OnOk result (string_bytes out.new ≡ string_bytes out.old ++ arrow_text style.now ends y) }
{
    write_arrow_front(out, style)?;
    write_leaving(out, ends.x1, ends.y1, y)?;
    write_meeting(out, ends.x2, ends.y2, y)?;
    write_arrow_back(out, style)
}

/// A path of this style, with an arrow's head at its end or without it.
pub fn write_path<A: Allocator>(
    out: &mut String<A>,
    style: &str,
    path: &str,
    has_head: bool,
) -> Result<(), AllocError> {
    write!(out, "<path class=\"{style}\" d=\"{path}\"")?;
    if has_head {
        write!(out, " marker-end=\"url(#{style}-head)\"")?;
    }
    writeln!(out, "/>")
}

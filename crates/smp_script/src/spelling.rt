//! The names that scripts, traces and reports share, and masks as text.

ghost use Rattle.std.specs.Prelude.{◌≡◌, ◌++◌, OnOk, string_bytes};
ghost use Rattle.smp_script.specs.Printed.{site_text};
ghost use Rattle.smp_script.specs.Spelling.{class_text, kind_text, mask_text, switch_text, way_text};

use smp_mask::CpuMask;
use smp_words::call::Class;
use smp_words::work::Kind;
use std::alloc::{AllocError, Allocator};

/// The name of a class of calls.
pub fn class_name(class: Class) -> &'static str
    ensures { result.now ≡ class_text class }
{
    match class {
        Class::Sync => "sync",
        Class::Async => "async",
    }
}

/// The name of a kind of stop.
pub fn kind_name(kind: Kind) -> &'static str
    ensures { result.now ≡ kind_text kind }
{
    match kind {
        Kind::One => "one",
        Kind::Multi => "multi",
        Kind::Patch => "patch",
    }
}

/// The name of the way that a nudge takes a key's count.
pub fn way_name(up: bool) -> &'static str
    ensures { result.now ≡ way_text up }
{
    if up { "up" } else { "down" }
}

/// The name of a key's state.
pub fn switch_name(on: bool) -> &'static str
    ensures { result.now ≡ switch_text on }
{
    if on { "on" } else { "off" }
}

/// The name of what a site has.
pub fn site_name(jumps: bool) -> &'static str
    ensures { result.now ≡ site_text jumps }
{
    if jumps { "JMP" } else { "NOP" }
}

/// Adds a mask as a CPU list, `-` where it is empty.
pub fn write_mask<A: Allocator>(out: &mut String<A>, mask: CpuMask) -> Result<(), AllocError>
    ensures { OnOk result (string_bytes out.new ≡ string_bytes out.old ++ mask_text mask) }
{
    if mask.bits() == 0 {
        return write!(out, "-");
    }
    write!(out, "{mask}")
}

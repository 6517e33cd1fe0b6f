//! The records that C passes.

ghost use Rattle.std.specs.Prelude.{◌≡◌};
ghost use Rattle.smp_tables_c.specs.Calls.{call_of, named as named_so};
ghost use Rattle.smp_tables_c.specs.Sites.{entry_of};
ghost use Rattle.smp_tables_c.specs.Works.{work_named};

use crate::masks::mask_of;
use smp_labels::Entry;
use smp_queue::Heard;
use smp_words::call::Class;
use smp_words::work::{Kind, Work};

/// The class and the function of these numbers, where there are such.
pub fn named(class: u32, func: u32) -> Option<(Class, u16)>
    ensures { result ≡ named_so class func }
{
    if class > 1 || func > 0xffff {
        return None;
    }
    let class = if class == 0 {
        Class::Sync
    } else {
        Class::Async
    };
    Some((class, func as u16))
}

/// A function that the caller is to run. `info` is its argument, and `func` its number. `src` is the CPU that has sent the call,
/// or the slot of the stop.
#[repr(C)]
#[derive(Clone, Copy)]
pub struct SmpCall {
    pub info: u64,
    pub src: u32,
    pub func: u32,
}

impl SmpCall {
    /// A call, as its function hears it.
    pub fn of(heard: Heard) -> SmpCall
        ensures { result ≡ call_of heard }
    {
        SmpCall {
            info: heard.info,
            src: heard.src,
            func: u32::from(heard.func),
        }
    }
}

/// What a stop is to do, by numbers.
#[repr(C)]
#[derive(Clone, Copy)]
pub struct SmpWork {
    pub arg: u64,
    pub kind: u32,
    pub mask: u32,
    pub active: u32,
    pub func: u32,
}

impl SmpWork {
    /// The work of these numbers, where there is such a kind and such a function.
    pub fn work(&self) -> Option<Work>
        ensures { result ≡ work_named self.now }
    {
        if self.kind > 2 || self.func > 0xffff {
            return None;
        }
        Some(Work {
            kind: Kind::of_word(u64::from(self.kind)),
            mask: mask_of(self.mask),
            active: mask_of(self.active),
            func: self.func as u16,
            arg: self.arg,
        })
    }
}

/// A site by numbers: that of its key, and whether it jumps while the key is off, which is not 0 then.
#[repr(C)]
#[derive(Clone, Copy)]
pub struct SmpSite {
    pub key: u32,
    pub branch: u32,
}

impl SmpSite {
    /// The entry of the site.
    pub fn entry(&self) -> Entry
        ensures { result ≡ entry_of self.now }
    {
        Entry {
            key: self.key,
            branch: self.branch != 0,
        }
    }
}

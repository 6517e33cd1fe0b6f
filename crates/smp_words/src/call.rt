//! A call, as its record has it.

ghost use Rattle.std.specs.Prelude.{◌≡◌};
ghost use Rattle.smp_words.specs.Flags.{flags_of, class_of as class_in};

/// The class of a call: a SYNC call's record stays locked until its function has run (`CSD_TYPE_SYNC`), an
/// ASYNC call's is unlocked before it runs (`CSD_TYPE_ASYNC`).
#[derive(Clone, Copy, Debug, PartialEq, Eq, Default)]
pub enum Class {
    Sync,
    #[default]
    Async,
}

impl Class {
    /// The flags word of a locked record of this class: LOCK with the class.
    pub fn flags(self) -> u64
        ensures { result ≡ flags_of self }
    {
        match self {
            Class::Sync => 0x11,
            Class::Async => 0x01,
        }
    }

    /// The class that a locked record's flags word tells.
    pub fn of_flags(flags: u64) -> Class
        ensures { result ≡ class_in flags }
    {
        if flags == 0x11 {
            Class::Sync
        } else {
            Class::Async
        }
    }
}

/// A call by the number of its record, whose owner is the call's source.
#[derive(Clone, Copy, Debug, PartialEq, Eq, Default)]
pub struct Call {
    /// The number of the record.
    pub id: u32,
    pub class: Class,
    /// The number of the function.
    pub func: u16,
    pub info: u64,
}

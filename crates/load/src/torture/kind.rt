//! What a CPU does at random.

ghost use Rattle.std.specs.Prelude.{◌≡◌, ◌<◌, ◌↔◌, IsTrue};
ghost use Rattle.load.specs.Kinds.{kinds, index_of, Waits};

/// How many kinds there are.
pub const KINDS: usize = 19;

/// What a CPU may do: a call, a stop, a change of a key, a reading, a sleep or polls.
#[derive(Clone, Copy)]
pub enum Kind {
    /// A call to one CPU, without wait and with it.
    Single,
    SingleWait,
    /// A call to one CPU by a record of the user, again after a poll while the record is busy.
    Async,
    /// A call to some CPU of a mask.
    Any,
    AnyWait,
    /// A call to all other CPUs of a mask.
    Many,
    ManyWait,
    /// A call to each CPU of a mask of which a condition holds.
    Each,
    EachWait,
    /// A stop of one CPU, of two, and of all of them.
    StopOne,
    StopTwo,
    StopMachine,
    /// A key is turned on or off, or counted up or down by one.
    SetKey,
    KeyInc,
    KeyDec,
    ReadKey,
    /// A key is read, and then one of its sites: they have to agree.
    ReadSite,
    /// The CPU sleeps, and polls for nobody.
    Sleep,
    /// Some polls in a row.
    Poll,
}

impl Kind {
    pub const ALL: [Kind; KINDS] = [
        Kind::Single,
        Kind::SingleWait,
        Kind::Async,
        Kind::Any,
        Kind::AnyWait,
        Kind::Many,
        Kind::ManyWait,
        Kind::Each,
        Kind::EachWait,
        Kind::StopOne,
        Kind::StopTwo,
        Kind::StopMachine,
        Kind::SetKey,
        Kind::KeyInc,
        Kind::KeyDec,
        Kind::ReadKey,
        Kind::ReadSite,
        Kind::Sleep,
        Kind::Poll,
    ];

    /// The kind's place in [`Kind::ALL`]. Calls and stops of this kind name the function of this number.
    pub fn index(self) -> usize
        ensures value { result ≡ index_of self }
        ensures below { result < kinds }
    {
        self as usize
    }

    pub fn name(self) -> &'static str {
        match self {
            Kind::Single => "single",
            Kind::SingleWait => "single-wait",
            Kind::Async => "async",
            Kind::Any => "any",
            Kind::AnyWait => "any-wait",
            Kind::Many => "many",
            Kind::ManyWait => "many-wait",
            Kind::Each => "each",
            Kind::EachWait => "each-wait",
            Kind::StopOne => "stop-one",
            Kind::StopTwo => "stop-two",
            Kind::StopMachine => "stop-machine",
            Kind::SetKey => "set-key",
            Kind::KeyInc => "key-inc",
            Kind::KeyDec => "key-dec",
            Kind::ReadKey => "read-key",
            Kind::ReadSite => "read-site",
            Kind::Sleep => "sleep",
            Kind::Poll => "poll",
        }
    }

    /// The function that calls and stops of this kind name.
    pub fn func(self) -> u16
        ensures { result ≡ index_of self }
    {
        self.index() as u16
    }

    /// Whether calls that name this function wait for it.
    pub fn waits(func: u16) -> bool
        ensures { IsTrue result ↔ Waits func }
    {
        match Kind::ALL.get(func as usize) {
            Some(Kind::SingleWait | Kind::AnyWait | Kind::ManyWait | Kind::EachWait) => true,
            _ => false,
        }
    }
}

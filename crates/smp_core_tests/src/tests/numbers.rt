//! The number of each kind of word, and what commands are refused for by their numbers.

use super::*;

// One word of each kind of the call table, the last word, and words that it has not.
const CALL_WORDS: [(Word, Option<usize>); 13] = [
    (Word::Head(3), Some(3)),
    (Word::Intr(3), Some(35)),
    (Word::Hand(3), Some(67)),
    (Word::Queued(2, 5), Some(165)),
    (Word::Ran(5, 2), Some(1282)),
    (Word::Flags(9), Some(2180)),
    (Word::Func(9), Some(2181)),
    (Word::Info(9), Some(2182)),
    (Word::Next(9), Some(2183)),
    (Word::Next(1151), Some(6751)),
    (Word::Head(32), None),
    (Word::Flags(1152), None),
    (Word::Gate, None),
];

// One word of each kind of the stop table, each field of the slot of CPU 2, and words that it has not.
const STOP_WORDS: [(Word, Option<usize>); 18] = [
    (Word::Gate, Some(0)),
    (Word::Slot(2, Field::Kind), Some(23)),
    (Word::Slot(2, Field::Mask), Some(24)),
    (Word::Slot(2, Field::Active), Some(25)),
    (Word::Slot(2, Field::Func), Some(26)),
    (Word::Slot(2, Field::Arg), Some(27)),
    (Word::Slot(2, Field::State), Some(28)),
    (Word::Slot(2, Field::Ack), Some(29)),
    (Word::Slot(2, Field::Roll), Some(30)),
    (Word::Slot(2, Field::Todo), Some(31)),
    (Word::Slot(2, Field::Result), Some(32)),
    (Word::Slot(2, Field::Done), Some(33)),
    (Word::Key(3), Some(356)),
    (Word::Entry(15), Some(372)),
    (Word::Site(15), Some(388)),
    (Word::Key(4), None),
    (Word::Slot(32, Field::Kind), None),
    (Word::Head(0), None),
];

#[test]
fn words_have_their_numbers(rt: HostRuntime) {
    for (word, number) in CALL_WORDS {
        assert_eq!(rt; call_index(word), number);
    }
    for (word, number) in STOP_WORDS {
        assert_eq!(rt; stop_index(word), number);
    }
}

// A post of function 1 by this record, with this class and as many tries, to CPU 1.
fn post(k: u32, class: Class, tries: u32) -> Command {
    Command::Post(k, 1, class, 1, 0, tries)
}

#[test]
fn commands_are_refused_by_their_numbers(rt: HostRuntime) -> Result<(), Fail> {
    let bad = SmpError::BadArgument;
    let mut core = Core::new(rt.alloc(), 3, "0-1".parse()?)?;
    for (cpu, command, error) in [
        (2, Command::Handle, SmpError::NoCpu),
        (7, Command::Handle, SmpError::NoCpu),
        (0, Command::Send(2), SmpError::NoCpu),
        (0, post(0, Class::Async, 1), bad),
        (0, post(1, Class::Sync, 1), bad),
        (0, post(10, Class::Sync, 1), bad),
        (0, post(11, Class::Sync, 1), bad),
        (0, post(2, Class::Async, 1), bad),
        (0, post(36, Class::Async, 1), bad),
        (0, post(1, Class::Async, 0), bad),
        (1, post(1, Class::Async, 1), bad),
    ] {
        assert_eq!(rt; core.start(cpu, command), Err(error), "at {command:?}");
    }
    Ok(())
}

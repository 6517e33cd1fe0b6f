use explore::{Atom, Line, Part};
use explore_text::{When, read_exploration};
use smp_core::RecPlace;
use smp_mask::{Cause, SmpError};
use smp_words::{Class, Command, Field, Note, Word};
use std::alloc::{AllocError, Global};
use std::test::*;

const HEADER: &[u8] = b"smp 1 explore\ncpus 3 0-1\n";

const WORKED: &[u8] = b"smp 2 explore
cpus 3 0-1
labels 1 0:1
# a comment,  of any bytes
cpu 1 post 0 0 sync 7 42 3
cpu 0 repeat handle
cpu 1 repeat 2 done 0
cpu 0 repeat poll with advance -1
cpu 1 repeat 3 gate with handle
always not slot.0.state 3 and queue.1 0 or gate 0
never said E2
finally ran.0.1 1
";

// The first fault of a text.
fn fault(alloc: Global, text: &[u8]) -> Option<(u32, Cause)> {
    match read_exploration(alloc, text) {
        Err(SmpError::BadScript { line, cause }) => Some((line, cause)),
        _ => None,
    }
}

// The first fault of a line behind a lawful header.
fn line_fault(alloc: Global, line: &[u8]) -> Result<Option<(u32, Cause)>, AllocError> {
    let mut text = Vec::new(alloc);
    text.extend_from_slice(HEADER)?;
    text.extend_from_slice(line)?;
    text.push(b'\n')?;
    Ok(fault(alloc, text.as_slice()))
}

#[test]
fn worked(rt: HostRuntime) -> Result<(), SmpError> {
    let read = read_exploration(rt.alloc(), WORKED)?;
    let post = Command::Post(0, 0, Class::Sync, 7, 42, 3);
    let lines = [
        (1, post, Some(0), None, 5),
        (0, Command::Handle, None, None, 6),
        (1, Command::Done(0), Some(2), None, 7),
        (0, Command::Poll, None, Some(Command::Advance(-1)), 8),
        (1, Command::Gate, Some(3), Some(Command::Handle), 9),
    ];
    assert_eq!(rt; read.nr, 3);
    assert_eq!(rt; read.lines.len(), 5);
    for (i, (cpu, command, again, between, number)) in lines.into_iter().enumerate() {
        assert!(rt;
            read.lines[i]
                == Line {
                    cpu,
                    command,
                    again,
                    between,
                    number
                }
        );
    }
    Ok(())
}

#[test]
fn worked_expectations(rt: HostRuntime) -> Result<(), SmpError> {
    let read = read_exploration(rt.alloc(), WORKED)?;
    let state = Atom::Word(Word::Slot(0, Field::State), 3);
    let parts = [
        Part::IsNot(state),
        Part::Is(Atom::Queue(1, 0)),
        Part::Or,
        Part::Is(Atom::Word(Word::Gate, 0)),
    ];
    assert_eq!(rt; read.expectations.len(), 3);
    let always = &read.expectations[0];
    assert_eq!(rt; (always.line, always.when), (10, When::Always));
    assert!(rt; always.parts.as_slice() == parts.as_slice());
    let never = &read.expectations[1];
    assert_eq!(rt; (never.line, never.when), (11, When::Never));
    assert!(rt; never.parts.as_slice() == [Part::Is(Atom::Said(Note::Busy))].as_slice());
    let finally = &read.expectations[2];
    assert_eq!(rt; (finally.line, finally.when), (12, When::Finally));
    Ok(())
}

#[test]
fn places(rt: HostRuntime) -> Result<(), SmpError> {
    let text = b"smp 1 explore
cpus 2 0-1
always place.3 free or place.3 held and not place.4 queued.1 or place.23 batch.0 and place.1 running.1
";
    let read = read_exploration(rt.alloc(), text)?;
    let parts = [
        Part::Is(Atom::Place(3, RecPlace::Free)),
        Part::Or,
        Part::Is(Atom::Place(3, RecPlace::Held)),
        Part::IsNot(Atom::Place(4, RecPlace::Queued(1))),
        Part::Or,
        Part::Is(Atom::Place(23, RecPlace::Batch(0))),
        Part::Is(Atom::Place(1, RecPlace::Running(1))),
    ];
    assert_eq!(rt; read.expectations.len(), 1);
    assert!(rt; read.expectations[0].parts.as_slice() == parts.as_slice());
    Ok(())
}

#[test]
fn wrong_words(rt: HostRuntime) -> Result<(), AllocError> {
    let lines: [&[u8]; 29] = [
        b"",
        b"cpu",
        b"cpu 0",
        b"cpu 0 jump",
        b"cpu 9 repeat",
        b"cpu 9 repeat 99999999999 jump",
        b"cpu 0 done 0 with handle",
        b"cpu 0 repeat done 0 with",
        b"cpu 0 repeat with handle",
        b"cpu 0 repeat done 0 with send 1",
        b"cpu 0 repeat done 0 with handle with handle",
        b"cpu 9 repeat x done x with enter",
        b"step 0 1",
        b"always",
        b"always gate",
        b"always gate  0",
        b"always gate x and",
        b"always gate 0 gate 0",
        b"always not not gate 0",
        b"never head 0",
        b"never head.x 0",
        b"never ran.99999999999.x 0",
        b"never slot.0.nothing 0",
        b"finally said posted",
        b"never place.0 queued",
        b"never place.0 free.1",
        b"never place.x held",
        b"never place.0 batch.1.1",
        b"never place.99999999999 1",
    ];
    for line in lines {
        assert_eq!(rt; line_fault(rt.alloc(), line)?, Some((3, Cause::Word)));
    }
    Ok(())
}

#[test]
fn wrong_fields(rt: HostRuntime) -> Result<(), AllocError> {
    let lines: [(&[u8], Cause); 16] = [
        (b"cpu x handle", Cause::Number),
        (b"cpu 2 handle", Cause::Range),
        (b"cpu 2 repeat x handle", Cause::Range),
        (b"cpu 0 repeat x handle", Cause::Number),
        (b"cpu 0 repeat x key 4294967296", Cause::Number),
        (b"cpu 0 repeat 1 key 4294967296", Cause::Range),
        (b"cpu 0 repeat done x with enter 4294967296", Cause::Number),
        (b"cpu 0 repeat done 0 with advance 2147483648", Cause::Range),
        (b"cpu 0 begin one 0- 0 1 0", Cause::Mask),
        (b"always gate -1", Cause::Number),
        (b"always key.4294967296 x", Cause::Range),
        (b"always head.0 x or key.4294967296 0", Cause::Number),
        (b"never queue.0 01", Cause::Number),
        (b"never gate 18446744073709551616", Cause::Range),
        (b"never place.4294967296 held", Cause::Range),
        (b"never place.0 running.4294967296", Cause::Range),
    ];
    for (line, cause) in lines {
        assert_eq!(rt; line_fault(rt.alloc(), line)?, Some((3, cause)));
    }
    Ok(())
}

// Line 2 has three CPUs, and there is no line of labels. CPU 2's last record is 35, and none has one for a further target.
#[test]
fn what_is_not_there(rt: HostRuntime) -> Result<(), AllocError> {
    let lines: [&[u8]; 16] = [
        b"always head.3 0",
        b"always intr.9 0",
        b"always hand.31 0",
        b"always queued.0.3 0",
        b"always ran.3.0 0",
        b"always flags.36 0",
        b"always func.384 0",
        b"always info.1151 0",
        b"always next.99999 0",
        b"always slot.3.state 0",
        b"always key.0 0",
        b"always entry.0 0",
        b"always site.0 0",
        b"never queue.3 1",
        b"never place.36 held",
        b"never place.35 running.3",
    ];
    for line in lines {
        assert_eq!(rt; line_fault(rt.alloc(), line)?, Some((3, Cause::Range)));
    }
    assert_eq!(rt; line_fault(rt.alloc(), b"always flags.35 0")?, None);
    assert_eq!(rt; line_fault(rt.alloc(), b"always slot.2.state 0")?, None);
    Ok(())
}

#[test]
fn wrong_texts(rt: HostRuntime) {
    let texts: [(&[u8], u32, Cause); 6] = [
        (b"", 1, Cause::Cut),
        (b"smp 1 replay\ncpus 1 0\n", 1, Cause::Word),
        (b"# first\nsmp 1 explore\ncpus 1 0\n", 1, Cause::Word),
        (b"smp 1 explore\ncpus 1 1\n", 2, Cause::Range),
        (b"smp 1 explore\ncpus 1 0\n#\nlabels 0 -\n", 4, Cause::Word),
        (b"smp 1 explore\ncpus 1 0\n# cut", 3, Cause::Cut),
    ];
    for (text, line, cause) in texts {
        assert_eq!(rt; fault(rt.alloc(), text), Some((line, cause)));
    }
}

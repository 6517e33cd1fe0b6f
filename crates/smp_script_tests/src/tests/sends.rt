//! The steps and the events of a send.

use smp_mask::SmpError;
use smp_replay::check_steps;
use smp_replay::difference::difference_text;
use smp_script::{Outcome, Watched};
use std::alloc::Global;
use std::str::from_utf8;
use std::test::*;
use trace_events::show_events;
use view::{Mark, show_page};

// A send, and what the machine prints for it.
const SEND: &[u8] =
    b"smp 1 replay\ncpus 2 0-1\nstart 0 send 1\nstep 0 1\nstart 1 handle\nstep 1 2\n";

// What is told of a trace of steps that is held against the send.
fn checked(alloc: Global, trace: &[u8]) -> Result<Vec<u8, Global>, SmpError> {
    let checked = check_steps(alloc, SEND, trace)?;
    let Some(difference) = checked.difference else {
        return Ok(Vec::new(alloc));
    };
    let printed = checked.printed.as_bytes();
    match difference_text(alloc, difference, printed, trace) {
        Ok(text) => Ok(text),
        Err(_) => Err(SmpError::NoMemory),
    }
}

#[test]
fn the_first_line_that_differs(rt: HostRuntime) -> Result<(), Fail> {
    let cases: [(&[u8], &[u8]); 4] = [
        (
            b"0 store intr.1 1 ; sent\n1 store hand.1 1\n1 swap intr.1 1\n".as_slice(),
            b"".as_slice(),
        ),
        (
            b"0 store intr.1 1 ; sent\n1 swap intr.1 1\n1 store hand.1 1\n".as_slice(),
            b"line 2 differs\nmachine: 1 store hand.1 1\ntrace: 1 swap intr.1 1\n".as_slice(),
        ),
        (
            b"0 store intr.1 1 ; sent\n1 store hand.1 1\n".as_slice(),
            b"line 3 differs\nmachine: 1 swap intr.1 1\ntrace has ended\n".as_slice(),
        ),
        (
            b"0 store intr.1 1 ; sent".as_slice(),
            b"line 1 differs\nmachine: 0 store intr.1 1 ; sent\ntrace: 0 store intr.1 1 ; sent (cut)\n".as_slice(),
        ),
    ];
    for (trace, told) in cases {
        assert_eq!(rt; checked(rt.alloc(), trace)?.as_slice(), told);
    }
    Ok(())
}

#[test]
fn the_events_of_a_send(rt: HostRuntime) -> Result<(), Fail> {
    let mut writer = Watched::new(Vec::new(rt.alloc()));
    let outcome = show_events(rt.alloc(), &mut Watched::new(SEND), &mut writer)?;
    assert_eq!(rt; outcome, Outcome::Done);
    let told = b"smp 2 trace\ncpus 2 0-1\n0 send 1\n1 accept\n".as_slice();
    assert_eq!(rt; writer.into_inner().as_slice(), told);
    Ok(())
}

// The data of its page: the script, then a line for each event, with the numbers found and put, then the marked event.
const DATA: &str = ">smp 1 replay
cpus 2 0-1
start 0 send 1
step 0 1
start 1 handle
step 1 2
</script>
<script type=\"text/plain\" id=\"events\">0 3 0 - - starts
1 4 0 - 1 store intr.1 1 ; sent
2 5 1 - - starts
3 6 1 - 1 store hand.1 1
4 6 1 1 0 swap intr.1 1
</script>
<script type=\"text/plain\" id=\"mark\">4</script>
";

#[test]
fn the_page_of_a_send(rt: HostRuntime) -> Result<(), Fail> {
    let mut writer = Watched::new(Vec::new(rt.alloc()));
    let mark = Some(Mark::Last);
    let outcome = show_page(rt.alloc(), mark, &mut Watched::new(SEND), &mut writer)?;
    assert_eq!(rt; outcome, Outcome::Done);
    let page = writer.into_inner();
    assert!(rt; from_utf8(page.as_slice()).unwrap_or("").contains(DATA));
    Ok(())
}

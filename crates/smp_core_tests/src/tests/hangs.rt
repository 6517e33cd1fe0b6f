//! Programs that hang, and programs that end: what `ends` says of them.

use crate::tests::search::states;
use explore::{Conditions, Expected, Start, Unwatched, Verdict, explore};
use explore_text::read_exploration;
use smp_core::Core;
use smp_mask::SmpError;
use std::alloc::Global;
use std::test::*;
use std::thread::Threads;

// The steps of a shortest script to a state in which no CPU moves on; none where there is no such state.
fn steps_to_hang<R: Threads + Sync>(
    rt: &R,
    alloc: Global,
    text: &str,
) -> Result<Option<usize>, SmpError> {
    let read = read_exploration(alloc, text.as_bytes())?;
    let core = Core::new(alloc, read.nr, read.online)?;
    let all = Conditions {
        expected: &[Expected::Ends],
    };
    let lines = read.lines.as_slice();
    let start = Start { core, lines };
    match explore(alloc, start, all, states(2_000), &mut Unwatched(rt))? {
        Verdict::All { .. } => Ok(None),
        Verdict::Broken(schedule) => Ok(Some(schedule.len())),
        Verdict::Limit(_) => Err(SmpError::Contended),
    }
}

// Two CPUs call each other and wait. Each posts in 8 steps and sends in one; then neither call has run.
const NEITHER_HANDLES: &str = "smp 1 explore
cpus 2 0-1
cpu 0 post 0 1 sync 7 42 1
cpu 0 send 1
cpu 0 repeat done 0
cpu 1 post 0 0 sync 7 42 1
cpu 1 send 0
cpu 1 repeat done 0
";

// Both handle while they wait, and once more behind that, since a CPU that has ended handles nothing more.
const BOTH_HANDLE: &str = "smp 1 explore
cpus 2 0-1
cpu 0 post 0 1 sync 7 42 1
cpu 0 send 1
cpu 0 repeat done 0 with handle
cpu 0 handle
cpu 1 post 0 0 sync 7 42 1
cpu 1 send 0
cpu 1 repeat done 0 with handle
cpu 1 handle
";

// And where neither handles behind its wait: CPU 1 has ended, and CPU 0's call is in its queue.
const ONE_ENDS_FIRST: &str = "smp 1 explore
cpus 2 0-1
cpu 0 post 0 1 sync 7 42 1
cpu 0 send 1
cpu 0 repeat done 0 with handle
cpu 1 post 0 0 sync 7 42 1
cpu 1 send 0
cpu 1 repeat done 0 with handle
";

// Three CPUs call each other in a ring.
const RING: &str = "smp 1 explore
cpus 3 0-2
cpu 0 post 0 1 sync 7 42 1
cpu 0 send 1
cpu 0 repeat done 0
cpu 1 post 0 2 sync 7 42 1
cpu 1 send 2
cpu 1 repeat done 0
cpu 2 post 0 0 sync 7 42 1
cpu 2 send 0
cpu 2 repeat done 0
";

// CPU 0 calls CPU 1, which waits in a stop of both in its first phase: its interrupts are on.
const CALL_INTO_STOP: &str = "smp 1 explore
cpus 2 0-1
cpu 0 gate
cpu 0 begin multi 0-1 0 5 9
cpu 0 post 0 1 sync 7 42 1
cpu 0 send 1
cpu 0 repeat done 0
cpu 0 enter 0
cpu 0 repeat advance 0
cpu 0 repeat advance 0
cpu 0 repeat advance 0
cpu 0 repeat advance 0
cpu 0 finish
cpu 0 repeat poll
cpu 0 ungate
cpu 1 repeat enter 0 with handle
cpu 1 repeat advance 0 with handle
cpu 1 repeat advance 0 with handle
cpu 1 repeat advance 0 with handle
cpu 1 repeat advance 0 with handle
cpu 1 finish
";

// The call comes once both have acted on the second phase: CPU 1 passes over its `handle`, and CPU 0 never acts on the third.
const CALL_WITH_INTERRUPTS_OFF: &str = "smp 1 explore
cpus 2 0-1
cpu 0 gate
cpu 0 begin multi 0-1 0 5 9
cpu 0 enter 0
cpu 0 repeat advance 0
cpu 0 repeat advance 0
cpu 0 post 0 1 sync 7 42 1
cpu 0 send 1
cpu 0 repeat done 0
cpu 0 repeat advance 0
cpu 0 repeat advance 0
cpu 0 finish
cpu 0 repeat poll
cpu 0 ungate
cpu 1 repeat enter 0 with handle
cpu 1 repeat advance 0 with handle
cpu 1 repeat advance 0 with handle
cpu 1 repeat advance 0 with handle
cpu 1 repeat advance 0 with handle
cpu 1 finish
";

// The first `handle` may take the one call that comes; then none comes for the second.
const LOST_WAKE_UP: &str = "smp 1 explore
cpus 2 0-1
cpu 0 post 0 1 sync 7 42 1
cpu 0 send 1
cpu 1 handle
cpu 1 repeat handle
";

// Each of two CPUs enters its own stop of both first, acts on its first phase, and waits for the second. A `begin` has 11
// steps, an `enter` 4 and an `advance` 2; the gate is taken and given in one each.
const STOPS_CROSSWISE: &str = "smp 1 explore
cpus 2 0-1
cpu 0 repeat gate
cpu 0 begin multi 0-1 0 5 9
cpu 0 ungate
cpu 0 enter 0
cpu 0 repeat advance 0
cpu 0 repeat advance 0
cpu 1 repeat gate
cpu 1 begin multi 0-1 1 5 9
cpu 1 ungate
cpu 1 enter 1
cpu 1 repeat advance 0
cpu 1 repeat advance 0
";

// Each of three CPUs waits for the one before it.
const ROUND: &str = "smp 1 explore
cpus 3 0-2
cpu 0 repeat handle
cpu 0 send 1
cpu 1 repeat handle
cpu 1 send 2
cpu 2 repeat handle
cpu 2 send 0
";

// One of the three sends before it waits.
const ROUND_BEGUN: &str = "smp 1 explore
cpus 3 0-2
cpu 0 send 1
cpu 0 repeat handle
cpu 1 repeat handle
cpu 1 send 2
cpu 2 repeat handle
cpu 2 send 0
";

// Two calls of the library crosswise; each CPU takes its interrupt once more behind its call.
const CALLS_CROSSWISE: &str = "smp 1 explore
cpus 2 0-1
cpu 0 call_single 1 7 42 wait
cpu 0 handle
cpu 1 call_single 0 7 42 wait
cpu 1 handle
";

// A call of the library to all others, without wait.
const CALL_TO_ALL: &str = "smp 1 explore
cpus 3 0-2
cpu 0 call_many 0-2 7 42 nowait
cpu 1 repeat handle
cpu 2 repeat handle
";

// A stop of the library, of which CPU 1 is one.
const STOP_MACHINE: &str = "smp 1 explore
cpus 2 0-1
cpu 0 stop_machine none 5 9
cpu 1 repeat enter 0 with handle
cpu 1 repeat advance 0 with handle
cpu 1 repeat advance 0 with handle
cpu 1 repeat advance 0 with handle
cpu 1 repeat advance 0 with handle
cpu 1 finish
";

// And one in which CPU 1 takes no part: CPU 0 waits for the second phase after 18 steps, and CPU 1 has ended after three.
const STOP_ALONE: &str = "smp 1 explore
cpus 2 0-1
cpu 0 stop_machine 0 5 9
cpu 1 handle
";

// The verdicts and numbers are those of another search, over another simulator of the machine, which takes a state for a hang
// where no order from there on moves a program on or changes a word.
#[test]
fn what_hangs(rt: HostRuntime) -> Result<(), SmpError> {
    let cases = [
        (NEITHER_HANDLES, Some(18)),
        (BOTH_HANDLE, None),
        (ONE_ENDS_FIRST, Some(33)),
        (RING, Some(27)),
        (CALL_INTO_STOP, None),
        (CALL_WITH_INTERRUPTS_OFF, Some(43)),
        (LOST_WAKE_UP, Some(22)),
        (STOPS_CROSSWISE, Some(38)),
        (ROUND, Some(0)),
        (ROUND_BEGUN, None),
        (CALLS_CROSSWISE, None),
        (CALL_TO_ALL, None),
        (STOP_MACHINE, None),
        (STOP_ALONE, Some(21)),
    ];
    for (text, steps) in cases {
        assert_eq!(rt; steps_to_hang(&rt, rt.alloc(), text)?, steps, "{text}");
    }
    Ok(())
}

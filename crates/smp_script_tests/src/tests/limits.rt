//! What is told of a search that meets a limit, and the status.

use commands::outcomes::{Question, print_outcomes};
use commands::searches::{Scripts, Search};
use commands::status::{Answer, status_of};
use explore::{ManyThreads, Most, Unwatched};
use explore_text::{Orders, Task, explore_script};
use smp_mask::SmpError;
use smp_script::Watched;
use std::alloc::Global;
use std::test::*;
use std::thread::Threads;

// What is told of two sends by these orders, and the status of the program.
fn told<R: Threads + Sync>(
    rt: &R,
    alloc: Global,
    orders: Orders,
) -> Result<(Vec<u8, Global>, u8), SmpError> {
    let text = b"smp 1 explore\ncpus 2 0-1\ncpu 0 send 1\ncpu 1 send 0\n".as_slice();
    let mut reader = Watched::new(text);
    let mut writer = Watched::new(Vec::new(alloc));
    let task = Task::Judge(orders);
    let ending = explore_script(alloc, task, &mut reader, &mut writer, &mut Unwatched(rt))?;
    Ok((writer.into_inner(), status_of(Ok(Answer::Explored(ending)))))
}

// There are 4 states, of 448 bytes and more each. Where both limits are met that of the states is told.
#[test]
fn which_limit(rt: HostRuntime) -> Result<(), Fail> {
    let cases: [(usize, usize, &[u8], u8); 6] = [
        (
            4,
            1_048_576,
            b"goes holds, 4 states, 4 steps, 2 deep\nends holds, 4 states, 4 steps, 2 deep\n".as_slice(),
            0,
        ),
        (
            4,
            usize::MAX,
            b"goes holds, 4 states, 4 steps, 2 deep\nends holds, 4 states, 4 steps, 2 deep\n".as_slice(),
            0,
        ),
        (3, usize::MAX, b"goes limit\nends limit\n".as_slice(), 2),
        (
            4,
            1024,
            b"goes limit of memory\nends limit of memory\n".as_slice(),
            2,
        ),
        (0, 0, b"goes limit\nends limit\n".as_slice(), 2),
        (
            1,
            0,
            b"goes limit of memory\nends limit of memory\n".as_slice(),
            2,
        ),
    ];
    for (states, bytes, wanted, status) in cases {
        let (text, ended) = told(&rt, rt.alloc(), Orders::All(Most { states, bytes }))?;
        assert_eq!(rt; text.as_slice(), wanted);
        assert_eq!(rt; ended, status);
    }
    Ok(())
}

// A send is one step that others see, so merged moves are the single steps.
#[test]
fn merged_moves_of_two_sends(rt: HostRuntime) -> Result<(), Fail> {
    let most = Most {
        states: 4,
        bytes: usize::MAX,
    };
    let (text, ended) = told(&rt, rt.alloc(), Orders::Merged(most))?;
    assert_eq!(rt;
        text.as_slice(),
        b"goes holds, 4 merged, 4 moves, 2 deep\nends holds, 4 merged, 4 moves, 2 deep\n".as_slice()
    );
    assert_eq!(rt; ended, 0);
    Ok(())
}

// What is printed of the outcomes of two sends, where at most this many states are kept, and the status.
fn outcomes_of<R: Threads + Sync>(
    (rt, by): (&HostRuntime, &R),
    states: usize,
    scripts: Scripts<'_>,
) -> (Vec<u8, Global>, u8) {
    let text = b"smp 1 explore\ncpus 2 0-1\ncpu 0 send 1\ncpu 1 send 0\n".as_slice();
    let bytes = usize::MAX;
    let question = Question {
        names: &["intr.0"],
        most: Most { states, bytes },
        scripts,
        threading: ManyThreads { rt: by, threads: 2 },
    };
    let mut writer = Watched::new(Vec::new(rt.alloc()));
    let done = print_outcomes(rt, &question, text, &mut writer);
    let status = status_of(done.map(|e| Answer::Explored(e)));
    (writer.into_inner(), status)
}

// There are 4 states, and one outcome. Where its script alone is asked for, standard error has the line of a limit. A script
// that can't be written takes no line away, and where the folder is not there nothing is searched.
#[test]
fn outcomes_of_two_sends(rt: HostRuntime) {
    let all = b"outcome 1: intr.0 1, 1 final state, 2 steps\n1 outcome, 4 states\n".as_slice();
    let script =
        b"smp 1 replay\ncpus 2 0-1\nstart 0 send 1\nstep 0 1\nstart 1 send 0\nstep 1 1\n".as_slice();
    let cases: [(usize, Scripts<'_>, &[u8], u8); 7] = [
        (4, Scripts::Folder("/proc"), all, 2),
        (4, Scripts::Folder("/proc/none"), b"".as_slice(), 2),
        (4, Scripts::Behind, all, 0),
        (4, Scripts::Only(1), script, 0),
        (4, Scripts::Only(2), b"".as_slice(), 2),
        (3, Scripts::Behind, b"outcomes limit\n".as_slice(), 2),
        (3, Scripts::Only(1), b"".as_slice(), 2),
    ];
    for (states, scripts, wanted, status) in cases {
        let (text, ended) = outcomes_of((&rt, &rt), states, scripts);
        assert_eq!(rt; text.as_slice(), wanted);
        assert_eq!(rt; ended, status);
    }
}

// Four CPUs post to a fifth, with four tries each. Plain C and Spin count as many states, steps and levels.
const POSTS: &[u8] = b"\
    smp 1 explore\n\
    cpus 5 0-4\n\
    cpu 0 post 0 4 sync 7 42 4\n\
    cpu 1 post 0 4 sync 7 42 4\n\
    cpu 2 post 0 4 sync 7 42 4\n\
    cpu 3 post 0 4 sync 7 42 4\n\
    ";

// What is printed is the same, however many threads there are.
#[test]
fn threads_work_out_the_steps(rt: HostRuntime) -> Result<(), Fail> {
    let wanted = b"\
        goes holds, 16084 states, 46504 steps, 38 deep\n\
        ends holds, 16084 states, 46504 steps, 38 deep\n\
        "
        .as_slice();
    for threads in [1, 3, 64] {
        let search = Search {
            rt: &rt,
            orders: Orders::All(Most {
                states: 16_084,
                bytes: usize::MAX,
            }),
            text: POSTS,
            scripts: Scripts::Behind,
            threading: ManyThreads { rt: &rt, threads },
        };
        let mut writer = Watched::new(Vec::new(rt.alloc()));
        assert!(rt; search.run(&mut writer).is_ok(), "{threads}");
        assert_eq!(rt; writer.into_inner().as_slice(), wanted, "{threads}");
    }
    Ok(())
}

// Two sends that break what is expected.
const SENDS: &[u8] = b"\
    smp 1 explore\n\
    cpus 2 0-1\n\
    never intr.0 1\n\
    never intr.1 1\n\
    cpu 0 send 1\n\
    cpu 1 send 0\n\
    ";

// What is printed of an exploration of 4 states at most, whose scripts go there, and the status.
fn explored<R: Threads + Sync>(
    (rt, by): (&HostRuntime, &R),
    text: &[u8],
    scripts: Scripts<'_>,
) -> (Vec<u8, Global>, u8) {
    let search = Search {
        rt,
        orders: Orders::All(Most {
            states: 4,
            bytes: usize::MAX,
        }),
        text,
        scripts,
        threading: ManyThreads { rt: by, threads: 1 },
    };
    let mut writer = Watched::new(Vec::new(rt.alloc()));
    let done = search.run(&mut writer);
    let status = status_of(done.map(|e| Answer::Explored(e)));
    (writer.into_inner(), status)
}

// No file can be made in `/proc`, `/dev/null` is no folder, and `/proc/none` is not there.
#[test]
fn a_script_that_is_not_written(rt: HostRuntime) {
    let all = b"\
        goes holds, 4 states, 4 steps, 2 deep\n\
        ends holds, 4 states, 4 steps, 2 deep\n\
        never 3 broken\n\
        never 4 broken\n\
        "
        .as_slice();
    for (folder, wanted) in [
        ("/proc", all),
        ("/dev/null", b"".as_slice()),
        ("/proc/none", b"".as_slice()),
    ] {
        let (text, status) = explored((&rt, &rt), SENDS, Scripts::Folder(folder));
        assert_eq!(rt; text.as_slice(), wanted, "{folder}");
        assert_eq!(rt; status, 2, "{folder}");
    }
}

// Each expectation has a line of JSON, also one that is broken. In the second text the only CPU takes the gate, and then tries
// to take it for ever: the state after a try is the one before.
#[test]
fn a_report_as_json(rt: HostRuntime) {
    let hangs = b"smp 1 explore\ncpus 1 0\ncpu 0 gate\ncpu 0 repeat gate\n".as_slice();
    let cases: [(&[u8], &[u8]); 2] = [
        (
            SENDS,
            b"\
                {\"line\":0,\"word\":\"goes\",\"ending\":\"holds\",\"told\":[\"goes holds, 4 states, 4 steps, 2 deep\"]}\n\
                {\"line\":1,\"word\":\"ends\",\"ending\":\"holds\",\"told\":[\"ends holds, 4 states, 4 steps, 2 deep\"]}\n\
                {\"line\":3,\"word\":\"never\",\"ending\":\"broken\",\"told\":[\"never 3 broken\"],\
                \"script\":[\"smp 1 replay\",\"cpus 2 0-1\",\"start 1 send 0\",\"step 1 1\"]}\n\
                {\"line\":4,\"word\":\"never\",\"ending\":\"broken\",\"told\":[\"never 4 broken\"],\
                \"script\":[\"smp 1 replay\",\"cpus 2 0-1\",\"start 0 send 1\",\"step 0 1\"]}\n\
                ",
        ),
        (
            hangs,
            b"\
                {\"line\":0,\"word\":\"goes\",\"ending\":\"holds\",\"told\":[\"goes holds, 2 states, 2 steps, 1 deep\"]}\n\
                {\"line\":1,\"word\":\"ends\",\"ending\":\"broken\",\"told\":[\"ends broken\",\"  CPU 0, line 4: repeats gate\"],\
                \"script\":[\"smp 1 replay\",\"cpus 1 0\",\"start 0 gate\",\"step 0 1\"]}\n\
                ",
        ),
    ];
    for (text, wanted) in cases {
        let (printed, status) = explored((&rt, &rt), text, Scripts::Json);
        assert_eq!(rt; printed.as_slice(), wanted);
        assert_eq!(rt; status, 1);
    }
}

//! Traces of version 3, and texts of ftrace that need it.

use smp_mask::{Cause, SmpError};
use smp_script::Watched;
use std::alloc::Global;
use std::test::*;
use trace_ftrace::print::print_kernel;
use trace_ftrace::text::{MOST_WAIT, judge_kernel, judge_ordered};
use trace_ftrace::wrong::{Refusal, Wrong};
use trace_judge::{Ruling, judge_trace};

// What is printed of a trace, or why it is not judged.
fn judged(alloc: Global, trace: &[u8]) -> Result<Vec<u8, Global>, SmpError> {
    let mut writer = Watched::new(Vec::new(alloc));
    judge_trace(alloc, &mut Watched::new(trace), &mut writer)?;
    Ok(writer.into_inner())
}

// CPU 40 calls CPU 511, and waits.
const CALL: &[u8] = b"smp 3 trace
cpus 512 0-511
40 queue 0 511 sync 1 42
40 send 511
511 accept
511 take
511 begin 0 1 42
511 end 0
511 unlock 0
";

#[test]
fn a_call_of_high_cpus(rt: HostRuntime) -> Result<(), Fail> {
    let told = b"lawful 7 events\ntally 40 511 1 1\ndrained\n".as_slice();
    assert_eq!(rt; judged(rt.alloc(), CALL)?.as_slice(), told);
    let cases: [(&[u8], &[u8]); 2] = [
        (
            b"smp 3 trace\ncpus 64 0-63\n40 queue 0 64 sync 1 42\n".as_slice(),
            b"line 3: CPU 40 queue: CPU 64 is not online\n".as_slice(),
        ),
        (
            b"smp 3 trace\ncpus 64 0-63\n40 queue 0 63 sync 1 42\n63 take\n".as_slice(),
            b"line 4: CPU 63 take: no interrupt is accepted\n".as_slice(),
        ),
    ];
    for (trace, told) in cases {
        assert_eq!(rt; judged(rt.alloc(), trace)?.as_slice(), told);
    }
    Ok(())
}

#[test]
fn lines_that_many_cpus_can_not_have(rt: HostRuntime) {
    let cases: [(&[u8], u32, Cause); 7] = [
        (b"smp 4 trace\ncpus 64 0-63\n".as_slice(), 1, Cause::Word),
        (b"smp 2 trace\ncpus 64 0-63\n".as_slice(), 2, Cause::Range),
        (b"smp 3 trace\ncpus 513 0-512\n".as_slice(), 2, Cause::Range),
        (b"smp 3 trace\ncpus 64 0-62\n".as_slice(), 2, Cause::Mask),
        (
            b"smp 3 trace\ncpus 64 0-63\nlabels 1 0\n".as_slice(),
            3,
            Cause::Word,
        ),
        (
            b"smp 3 trace\ncpus 64 0-63\n64 accept\n".as_slice(),
            3,
            Cause::Range,
        ),
        (
            b"smp 3 trace\ncpus 64 0-63\n40 off\n".as_slice(),
            3,
            Cause::Range,
        ),
    ];
    for (trace, line, cause) in cases {
        let wanted = SmpError::BadScript { line, cause };
        assert!(rt; judged(rt.alloc(), trace).is_err_and(|why| why == wanted));
    }
}

// CPU 40 opens two stops of CPU 1, which runs the second first. CPU 2 collects that one; the other is left.
const NUMBERED: &[u8] = b"smp 3 trace
cpus 64 0-63
without gate
40 open 63 one 1 - 9 5
40 open 0 one 1 - 7 6
1 enter 0
1 run 7 6
1 complete -3
2 collect 0 -3
1 enter 63
";

#[test]
fn stops_have_numbers_of_their_own(rt: HostRuntime) -> Result<(), Fail> {
    let told = b"lawful 7 events\nstop 63 one 0 1\ndrained\n".as_slice();
    assert_eq!(rt; judged(rt.alloc(), NUMBERED)?.as_slice(), told);
    let cases: [(&[u8], &[u8]); 3] = [
        (
            b"smp 3 trace\ncpus 2 0-1\nwithout gate\n0 open 5 one 1 - 9 5\n1 open 5 one 0 - 9 5\n".as_slice(),
            b"line 5: CPU 1 open: stop 5 is open\n".as_slice(),
        ),
        (
            b"smp 3 trace\ncpus 2 0-1\nwithout gate\n0 open 5 one 1 - 9 5\n0 collect 0 0\n".as_slice(),
            b"line 5: CPU 0 collect: stop 0 is not open\n".as_slice(),
        ),
        (
            b"smp 3 trace\ncpus 2 0-1\n0 open 5 one 1 - 9 5\n".as_slice(),
            b"line 3: CPU 0 open: the gate is of no CPU\n".as_slice(),
        ),
    ];
    for (trace, told) in cases {
        assert_eq!(rt; judged(rt.alloc(), trace)?.as_slice(), told);
    }
    Ok(())
}

// A wake of CPU 1 comes first, so the call behind it owes no interrupt. CPU 1 takes both. Irq work is left in its queue.
const SHARED: &[u8] = b"smp 3 trace
cpus 64 0-63
40 queue 1 wake
0 queue 7 1 sync 1 42
40 send 1
1 accept
1 take
1 begin 7 1 42
1 end 7
1 unlock 7
0 queue 1 irqwork
40 queue 1 wake
";

#[test]
fn wakes_and_irq_work_share_the_queue(rt: HostRuntime) -> Result<(), Fail> {
    let told = b"lawful 10 events\ntally 0 1 1 1\nqueue 1 0 owed 0\nleft 1 0 0\n".as_slice();
    assert_eq!(rt; judged(rt.alloc(), SHARED)?.as_slice(), told);
    let cases: [(&[u8], &[u8]); 4] = [
        (
            b"smp 3 trace\ncpus 4 0-3\n2 queue 1 wake\n0 queue 7 1 sync 1 42\n".as_slice(),
            b"lawful 2 events\ntally 0 1 1 0\nqueue 1 1 owed 2\nleft 1 1 0\n".as_slice(),
        ),
        (
            b"smp 3 trace\ncpus 4 0-3\nwithout interrupts order unlocks\n2 queue 1 wake\n".as_slice(),
            b"lawful 1 events\ndrained\n".as_slice(),
        ),
        (
            b"smp 3 trace\ncpus 4 0-3\n2 queue 2 irqwork\n".as_slice(),
            b"line 3: CPU 2 queue: CPU 2 is the caller\n".as_slice(),
        ),
        (
            b"smp 3 trace\ncpus 4 0-3\n2 queue 4 wake\n".as_slice(),
            b"line 3: CPU 2 queue: CPU 4 is not online\n".as_slice(),
        ),
    ];
    for (trace, told) in cases {
        assert_eq!(rt; judged(rt.alloc(), trace)?.as_slice(), told);
    }
    Ok(())
}

// The second and the third line of a trace in which a class may be unknown.
const UNKNOWN: &str = "cpus 2 0-1\nwithout interrupts order unlocks\n";

#[test]
fn lines_of_version_3_alone(rt: HostRuntime) -> Result<(), Fail> {
    let told = b"lawful 3 events\ntally 0 1 1 1\ndrained\n".as_slice();
    let call = format!(in rt.alloc();
        "smp 3 trace\n{UNKNOWN}0 queue 7 1 unknown 1 42\n1 begin 7 1 42\n1 end 7\n"
    )?;
    assert_eq!(rt; judged(rt.alloc(), call.as_bytes())?.as_slice(), told);
    let cases: [(&str, &str, &str, Cause); 11] = [
        ("2", UNKNOWN, "0 queue 7 1 unknown 1 42", Cause::Word),
        (
            "3",
            "cpus 2 0-1\nwithout unlocks\n",
            "0 queue 7 1 unknown 1 42",
            Cause::Word,
        ),
        ("3", UNKNOWN, "0 open one 1 - 9 5", Cause::Word),
        ("3", UNKNOWN, "0 open 64 one 1 - 9 5", Cause::Range),
        ("3", UNKNOWN, "0 open x one 1-9 - 9 5", Cause::Number),
        ("3", UNKNOWN, "0 collect 0", Cause::Word),
        ("3", UNKNOWN, "0 collect 64 0", Cause::Range),
        ("2", UNKNOWN, "0 collect 0 0", Cause::Word),
        ("2", UNKNOWN, "0 queue 1 wake", Cause::Word),
        ("3", UNKNOWN, "0 queue 1 call", Cause::Word),
        ("3", UNKNOWN, "0 queue x irqwork", Cause::Number),
    ];
    for (version, head, line, cause) in cases {
        let trace = format!(in rt.alloc(); "smp {version} trace\n{head}{line}\n")?;
        let wanted = SmpError::BadScript { line: 4, cause };
        assert!(rt; judged(rt.alloc(), trace.as_bytes()).is_err_and(|why| why == wanted));
    }
    Ok(())
}

// CPU 200 queues a call for CPU 511, which runs it.
const TRACED: &[u8] = b"x-1 [200] 1: csd_queue_cpu: cpu=511 func=f csd=a0
x-2 [511] 7: csd_function_entry: func=f csd=a0
x-2 [511] 8: csd_function_exit: func=f csd=a0
";

// The trace that it tells.
const PRINTED: &[u8] = b"smp 3 trace
cpus 512 0-511
without gate interrupts order raises switches unlocks
# line 1
200 queue 0 511 async 0 0
# line 2
511 begin 0 0 0
# line 3
511 end 0
";

#[test]
fn a_text_of_high_cpus(rt: HostRuntime) {
    let alloc = rt.alloc();
    let plain = judge_kernel(alloc, 0, TRACED).map(|v| v.1);
    assert!(rt; plain == Ok(Ruling::Lawful));
    let ordered = judge_ordered(alloc, 0, MOST_WAIT, TRACED).map(|v| v.1);
    assert!(rt; ordered == Ok(Ruling::Lawful));
    let printed = print_kernel(alloc, 0, TRACED);
    assert!(rt; printed.is_ok_and(|text| text.as_slice() == PRINTED));
}

#[test]
fn cpus_that_a_text_can_not_have(rt: HostRuntime) {
    let cases: [&[u8]; 3] = [
        b"x-1 [512] 1: csd_function_entry: func=f csd=a0\n".as_slice(),
        b"x-1 [200] 1: csd_queue_cpu: cpu=512 func=f csd=a0\n".as_slice(),
        b"x-1 [032] 1: stop_leave: (multi_cpu_stop+0x1/0x2) ret=0x0\n".as_slice(),
    ];
    for text in cases {
        let plain = judge_kernel(rt.alloc(), 0, text).map(|v| v.1);
        assert!(rt; plain == Err(Refusal::Wrong(1, Wrong::Cpu)));
    }
}

// A task opens 64 stops of one CPU, and then one more.
#[test]
fn stops_that_a_text_opens(rt: HostRuntime) -> Result<(), Fail> {
    let mut text = String::new(rt.alloc());
    for time in 1..65u32 {
        writeln!(text, "x-1 [000] {time}: nowait_open: cpu=1 fn=0x1 arg=0x2")?;
    }
    let plain = judge_kernel(rt.alloc(), 0, text.as_bytes()).map(|v| v.1);
    assert!(rt; plain == Ok(Ruling::Lawful));
    writeln!(text, "x-1 [000] 65: nowait_open: cpu=1 fn=0x1 arg=0x2")?;
    let more = judge_kernel(rt.alloc(), 0, text.as_bytes()).map(|v| v.1);
    assert!(rt; more == Err(Refusal::Wrong(65, Wrong::Stops)));
    Ok(())
}

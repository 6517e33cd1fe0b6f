//! A CPU that goes offline while Linux 6.12 is traced: what it queues then is not recorded.

use std::alloc::Global;
use std::test::*;
use trace_ftrace::text::{MOST_WAIT, judge_kernel, judge_ordered};
use trace_ftrace::wrong::{Refusal, Wrong};
use trace_judge::Ruling;

// CPU 1 queues its record for CPU 3, which runs the call.
const BEFORE: &[u8] =
    b"rcu_exp_gp_kthr-20      [001] .N.2.        10138: csd_queue_cpu: cpu=3 callsite=generic_exec_single+0x33/0x130 func=rcu_exp_handler csd=ff1100003e8b7280
rcu_exp_gp_kthr-20      [001] .N.3.        10139: csd_class: (csd.csd_queue_cpu) csd=0xff1100003e8b7280 flags=0x1
load-250     [003] d.h..        10180: csd_function_entry: func=rcu_exp_handler, csd=ff1100003e8b7280
load-250     [003] d.h..        10183: csd_function_exit: func=rcu_exp_handler, csd=ff1100003e8b7280
";

// It is offline, and has queued the record for CPU 0.
const UNTOLD: &[u8] =
    b"migration/0-21      [000] d.h1.        11099: csd_function_entry: func=retrigger_next_event, csd=ff1100003e8b7280
migration/0-21      [000] d.h1.        11100: csd_function_exit: func=retrigger_next_event, csd=ff1100003e8b7280
";

// And once more, to say that it is offline.
const OFFLINE: &[u8] =
    b"load-248     [000] d.H1.        11111: csd_function_entry: func=cpuhp_complete_idle_dead, csd=ff1100003e8b7280
load-248     [000] d.H1.        11112: csd_function_exit: func=cpuhp_complete_idle_dead, csd=ff1100003e8b7280
";

// The call of CPU 3 is over once more.
const OVER: &[u8] =
    b"load-250     [003] d.h..        10184: csd_function_exit: func=rcu_exp_handler, csd=ff1100003e8b7280
";

// The stop that takes CPU 1 down has its answer.
const DOWN: &[u8] =
    b"kworker/0:2-164     [000] .....        11115: stop_close: (takedown_cpu+0x5f/0x130 <- stop_machine_cpuslocked) ret=0x0
";

// Another stop has its answer.
const CLOSED: &[u8] =
    b"kworker/0:2-164     [000] .....        11115: stop_close: (timekeeping_notify+0x5f/0x130 <- stop_machine) ret=0x0
";

// The ruling on these texts as one, without order and with it.
fn rulings(alloc: Global, texts: &[&[u8]]) -> (Result<Ruling, Refusal>, Result<Ruling, Refusal>) {
    let mut text = Vec::new(alloc);
    for one in texts {
        if text.extend_from_slice(one).is_err() {
            return (Err(Refusal::NoMemory), Err(Refusal::NoMemory));
        }
    }
    let plain = judge_kernel(alloc, 0, text.as_slice()).map(|v| v.1);
    let ordered = judge_ordered(alloc, 0, MOST_WAIT, text.as_slice()).map(|v| v.1);
    (plain, ordered)
}

// Whether both are this.
fn are(rt: &HostRuntime, texts: &[&[u8]], wanted: Result<Ruling, Refusal>) -> bool {
    rulings(rt.alloc(), texts) == (wanted, wanted)
}

// Where no line shows that a CPU is offline, the record is free. Where one does, there or later, that line is named.
#[test]
fn a_record_that_is_free(rt: HostRuntime) {
    let alone = Err(Refusal::Wrong(5, Wrong::Offline));
    let later = Err(Refusal::Wrong(7, Wrong::Offline));
    assert!(rt; are(&rt, &[BEFORE, UNTOLD], Ok(Ruling::Broken)));
    assert!(rt; are(&rt, &[BEFORE, OFFLINE], alone));
    assert!(rt; are(&rt, &[BEFORE, UNTOLD, OFFLINE], later));
}

// Another fault is told where it is before that line, and not behind it. A text without a fault is lawful.
#[test]
fn another_fault(rt: HostRuntime) {
    let behind = Err(Refusal::Wrong(1, Wrong::Offline));
    assert!(rt; are(&rt, &[BEFORE, OVER, OFFLINE], Ok(Ruling::Broken)));
    assert!(rt; are(&rt, &[OFFLINE, BEFORE, OVER], behind));
    assert!(rt; are(&rt, &[OFFLINE], Ok(Ruling::Lawful)));
}

// A stop has its answer in the function that takes a CPU down, by a probe as Linux 6.1 needs it.
#[test]
fn a_stop_that_takes_a_cpu_down(rt: HostRuntime) {
    assert!(rt;
        are(
            &rt,
            &[BEFORE, UNTOLD, DOWN],
            Err(Refusal::Wrong(7, Wrong::Offline)),
        )
    );
    assert!(rt; are(&rt, &[BEFORE, UNTOLD, CLOSED], Ok(Ruling::Broken)));
}

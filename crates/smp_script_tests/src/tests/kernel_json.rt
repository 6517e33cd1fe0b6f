//! What a kernel's tracer wrote, in the trace-event format.

use std::str::from_utf8;
use std::test::*;
use trace_ftrace::json::json_of_kernel;
use trace_ftrace::wrong::{Refusal, Wrong};

// A call whose function has a quote in its name, and a stop of one CPU on which nobody waits.
const TEXT: &[u8] =
    b" load   203 [000]   110.000000001: csd:csd_queue_cpu: cpu=1 callsite=generic_exec_single+0x33 func=do\"it csd=0xff1100003e836080
 load   203 [001]   110.000002030: csd:csd_function_entry: func=do\"it, csd=0xff1100003e836080
 load   203 [001]   110.000004400:  csd:csd_function_exit: func=do\"it, csd=0xff1100003e836080
 load   203 [000]   110.000005000: smp:nowait_open: cpu=1 fn=0xffffffff81213920 arg=0x0
 migr    26 [001]   110.000006000: smp:stop_work: fn=0xffffffff81213920 arg=0x0
 migr    26 [001]   110.000007000: smp:stop_done: ret=0x0
";

const JSON: &str = r#"{"displayTimeUnit":"ns","traceEvents":[
{"name":"process_name","ph":"M","pid":0,"args":{"name":"ftrace"}},
{"pid":0,"tid":0,"ph":"M","name":"thread_name","args":{"name":"CPU 0"}},
{"pid":0,"tid":1,"ph":"M","name":"thread_name","args":{"name":"CPU 1"}},
{"pid":0,"tid":0,"ts":110000000.001,"ph":"X","dur":0,"name":"queue do\u0022it","args":{"line":1,"record":"csd ff1100003e836080"}},
{"pid":0,"tid":0,"ts":110000000.001,"ph":"s","cat":"call","name":"call","id":1},
{"pid":0,"tid":1,"ts":110000002.030,"ph":"B","name":"do\u0022it","args":{"line":2,"record":"csd ff1100003e836080"}},
{"pid":0,"tid":1,"ts":110000002.030,"ph":"f","bp":"e","cat":"call","name":"call","id":1},
{"pid":0,"tid":1,"ts":110000004.400,"ph":"E"},
{"pid":0,"tid":0,"ts":110000005.000,"ph":"b","cat":"stop","name":"stop 0","id":0,"args":{"line":4,"fn":"ffffffff81213920","cpus":"1"}},
{"pid":0,"tid":1,"ts":110000006.000,"ph":"B","name":"stop 0","args":{"line":5}},
{"pid":0,"tid":1,"ts":110000006.000,"ph":"i","s":"t","name":"run ffffffff81213920"},
{"pid":0,"tid":1,"ts":110000007.000,"ph":"E"},
{"pid":0,"tid":1,"ts":110000007.000,"ph":"e","cat":"stop","name":"stop 0","id":0}
]}
"#;

#[test]
fn calls_and_stops_are_slices(rt: HostRuntime) {
    match json_of_kernel(rt.alloc(), 0, TEXT) {
        Ok(json) => assert_eq!(rt; from_utf8(json.as_slice()), Ok(JSON)),
        Err(_) => assert!(rt; false),
    }
}

#[test]
fn a_text_that_is_none(rt: HostRuntime) {
    match json_of_kernel(rt.alloc(), 0, b"CPU:1 [LOST 5 EVENTS]\n") {
        Ok(_) => assert!(rt; false),
        Err(why) => assert_eq!(rt; why, Refusal::Wrong(1, Wrong::Form)),
    }
}

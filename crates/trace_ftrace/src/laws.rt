//! What is printed of a text, for a reader of it.

ghost use Rattle.std.specs.Prelude.{◌≡◌, true, false, [], ◌∷◌, Some, None, Ok, codes};
ghost use Rattle.smp_words.specs.declared.call.Class.TheVariants as class;
ghost use Rattle.trace_model.specs.declared.event.CallEvent.TheVariants as calls;
ghost use Rattle.trace_model.specs.declared.event.Event.TheVariants as event;
ghost use Rattle.trace_ftrace.specs.Json.{json_of};
ghost use Rattle.trace_ftrace.specs.Laws.{events_in, events_read, is_order_shown, swapped, swapped_events, waits_in};
ghost use Rattle.trace_ftrace.specs.Print.{trace_of};
ghost use Rattle.trace_ftrace.specs.Reading.{reading_of};
ghost use Rattle.trace_ftrace.specs.declared.laws.TheConstants.{ALONE, FIFTH, FIXED, JSON, MOVED, NESTED, PROBED, TEXT, TRACE, TRAPPED};

/// A text: CPU 0 queues a call for CPU 1, which makes it after 6 nanoseconds, and one for CPU 2, which is not begun.
pub const TEXT: &str = "x-1 [0] 1: csd_queue_cpu: cpu=1 func=f csd=a0
x-2 [1] 7: csd_function_entry: func=f csd=a0
x-2 [1] 8: csd_function_exit: func=f csd=a0
x-1 [0] 9: csd_queue_cpu: cpu=2 func=g csd=b0
";

/// The trace that it tells.
pub const TRACE: &str = "smp 2 trace
cpus 32 0-31
without gate interrupts order raises switches unlocks
# line 1
0 queue 0 1 async 0 0
# line 2
1 begin 0 0 0
# line 3
1 end 0
# line 4
0 queue 1 2 async 1 0
";

/// Its events in the trace-event format.
pub const JSON: &str = r#"{"displayTimeUnit":"ns","traceEvents":[
{"name":"process_name","ph":"M","pid":0,"args":{"name":"ftrace"}},
{"pid":0,"tid":0,"ph":"M","name":"thread_name","args":{"name":"CPU 0"}},
{"pid":0,"tid":1,"ph":"M","name":"thread_name","args":{"name":"CPU 1"}},
{"pid":0,"tid":2,"ph":"M","name":"thread_name","args":{"name":"CPU 2"}},
{"pid":0,"tid":0,"ts":0.001,"ph":"X","dur":0,"name":"queue f","args":{"line":1,"record":"csd a0"}},
{"pid":0,"tid":0,"ts":0.001,"ph":"s","cat":"call","name":"call","id":1},
{"pid":0,"tid":1,"ts":0.007,"ph":"B","name":"f","args":{"line":2,"record":"csd a0"}},
{"pid":0,"tid":1,"ts":0.007,"ph":"f","bp":"e","cat":"call","name":"call","id":1},
{"pid":0,"tid":1,"ts":0.008,"ph":"E"},
{"pid":0,"tid":0,"ts":0.009,"ph":"X","dur":0,"name":"queue g","args":{"line":4,"record":"csd b0"}},
{"pid":0,"tid":0,"ts":0.009,"ph":"s","cat":"call","name":"call","id":4}
]}
"#;

/// A call that waits is told by the line that queues it, its record's address and its function. One that is begun is told where it
/// has waited for more than this time, and one that is not begun always.
pub fn waits_are_told()
    ensures more { waits_in 5 TEXT.now ≡ Ok (codes "waited 6: line 1: csd a0, f\nnot begun: line 4: csd b0, g\n") }
    ensures just { waits_in 6 TEXT.now ≡ Ok (codes "not begun: line 4: csd b0, g\n") }
{}

/// The trace of a text has its events in their order, each behind a comment with the line that tells it.
pub fn traces_have_all_events()
    ensures { trace_of (reading_of 0 TEXT.now) ≡ Ok TRACE.now }
{}

/// A printed trace reads back as its events.
pub fn traces_read_back()
    ensures { events_read TRACE.now ≡ Ok ((0, event.Call (calls.Queue 0 1 class.Async 0 0)) ∷ (1, event.Call (calls.Begin 0 0 0))
        ∷ (1, event.Call (calls.End 0)) ∷ (0, event.Call (calls.Queue 1 2 class.Async 1 0)) ∷ []) }
{}

/// In the trace-event format a call is a slice from its begin to its end, and a flow leads to it from where it is queued.
pub fn calls_are_slices()
    ensures { json_of (reading_of 0 TEXT.now) ≡ Ok JSON.now }
{}

/// A text: CPU 1 queues a call for CPU 0, and behind that CPU 2 one, which CPU 0 makes first.
pub const MOVED: &str = "x-1 [1] ...1. 10: csd_queue_cpu: cpu=0 func=f csd=a0
x-2 [2] ...1. 20: csd_queue_cpu: cpu=0 func=g csd=b0
x-3 [0] d.h1. 30: csd_function_entry: func=g csd=b0
";

/// `MOVED`, and CPU 1 makes a direct call between the two lines that queue.
pub const FIXED: &str = "x-1 [1] ...1. 10: csd_queue_cpu: cpu=0 func=f csd=a0
x-1 [1] ...1. 12: csd_function_entry: func=h csd=0
x-2 [2] ...1. 20: csd_queue_cpu: cpu=0 func=g csd=b0
x-3 [0] d.h1. 30: csd_function_entry: func=g csd=b0
";

/// `FIXED`, but CPU 1 makes its direct call in an interrupt.
pub const NESTED: &str = "x-1 [1] ...1. 10: csd_queue_cpu: cpu=0 func=f csd=a0
x-1 [1] d.h1. 12: csd_function_entry: func=h csd=0
x-2 [2] ...1. 20: csd_queue_cpu: cpu=0 func=g csd=b0
x-3 [0] d.h1. 30: csd_function_entry: func=g csd=b0
";

/// An append can be behind a later line of another CPU, where its own CPU is not seen between the two in the same context. Its
/// record is then seen free at its own line, and a take comes where it is chosen.
pub fn appends_move_within_bounds()
    ensures moved { events_in (swapped 2) MOVED.now ≡ Ok (Some swapped_events) }
    ensures fixed { events_in (swapped 3) FIXED.now ≡ Ok None }
    ensures nested { events_in (swapped 3) NESTED.now ≡ Ok (Some swapped_events) }
{}

/// Probes by traps: CPU 1 queues a call for CPU 0, and before its append an interrupt of it queues irq work.
pub const TRAPPED: &str = "x-1 [1] d.Z1. 10: one_queue: cpu=0 func=f csd=a0 flags=1
x-1 [1] d.Z1. 12: one_queue: cpu=2 func=f csd=c0 flags=30
x-1 [1] d.Z1. 13: one_queued: cpu=2
x-2 [2] d.Z1. 20: one_queue: cpu=0 func=g csd=b0 flags=1
x-1 [1] d.Z1. 25: one_queued: cpu=0
x-3 [0] d.Z1. 30: async_entry: func=g csd=b0
";

/// `TRAPPED` without the interrupt.
pub const PROBED: &str = "x-1 [1] d.Z1. 10: one_queue: cpu=0 func=f csd=a0 flags=1
x-1 [1] d.Z1. 13: one_queued: cpu=0
x-2 [2] d.Z1. 20: one_queue: cpu=0 func=g csd=b0 flags=1
x-3 [0] d.Z1. 30: async_entry: func=g csd=b0
";

/// A probe behind an append, and no line before that.
pub const ALONE: &str = "x-1 [1] d.Z1. 13: one_queued: cpu=0
";

/// Five queue lines of a CPU, and no probe behind an append.
pub const FIFTH: &str = "x-1 [1] d.Z1. 10: one_queue: cpu=0 func=f csd=a0 flags=1
x-1 [1] d.Z1. 11: one_queue: cpu=0 func=f csd=a1 flags=1
x-1 [1] d.Z1. 12: one_queue: cpu=0 func=f csd=a2 flags=1
x-1 [1] d.Z1. 13: one_queue: cpu=0 func=f csd=a3 flags=1
x-1 [1] d.Z1. 14: one_queue: cpu=0 func=f csd=a4 flags=1
";

/// An append whose line is by a trap is over by its own probe. That of an append inside of it, in an interrupt, is another.
pub fn traps_end_at_their_probes()
    ensures moved { events_in (swapped 4) TRAPPED.now ≡ Ok (Some swapped_events) }
    ensures fixed { events_in (swapped 3) PROBED.now ≡ Ok None }
{}

/// Order is judged where each probe behind an append has its queue line, and no CPU is inside of five appends.
pub fn probes_show_order()
    ensures nested { is_order_shown TRAPPED.now ≡ Ok true }
    ensures alone { is_order_shown ALONE.now ≡ Ok false }
    ensures fifth { is_order_shown FIFTH.now ≡ Ok false }
{}

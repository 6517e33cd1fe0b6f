//! The data in pages of traces.

use std::str::from_utf8;
use std::test::*;
use trace_judge::Ruling;
use trace_page::{page_of_kernel, page_of_trace};

// A trace with a byte that could end the data.
const TRACE: &[u8] = b"smp 2 trace\ncpus 2 0-1\n# a <b>\n0 queue 1 1 async 1 0\n";

// The data of its page: the trace, no other lines of events, and the verdict.
const TRACE_DATA: &str = ">smp 2 trace
cpus 2 0-1
# a \\060b>
0 queue 1 1 async 1 0
</script>
<script type=\"text/plain\" id=\"events\"></script>
<script type=\"text/plain\" id=\"said\">lawful 1 events
tally 0 1 1 0
queue 1 1 owed 0
left 1 1 0
</script>
";

#[test]
fn the_page_of_a_trace(rt: HostRuntime) -> Result<(), Fail> {
    let (page, ruling) = page_of_trace(rt.alloc(), TRACE)?;
    assert_eq!(rt; ruling, Ruling::Lawful);
    assert!(rt;
        from_utf8(page.as_slice())
            .unwrap_or("")
            .contains(TRACE_DATA)
    );
    Ok(())
}

// What perf wrote: a call is queued, its function is entered twice, and returns.
const KERNEL: &[u8] =
    b" load   203 [000]   110.000000001: csd:csd_queue_cpu: cpu=1 callsite=generic_exec_single+0x33 func=do_it csd=0xff1100003e836080
 load   203 [001]   110.000000002: csd:csd_function_entry: func=do_it, csd=0xff1100003e836080
 load   203 [001]   110.000000003: csd:csd_function_entry: func=do_it, csd=0xff1100003e836080
 load   203 [001]   110.000000004:  csd:csd_function_exit: func=do_it, csd=0xff1100003e836080
";

// The data of its page: the lines up to the refused event, the events, and the verdict.
const KERNEL_DATA: &str =
    "> load   203 [000]   110.000000001: csd:csd_queue_cpu: cpu=1 callsite=generic_exec_single+0x33 func=do_it csd=0xff1100003e836080
 load   203 [001]   110.000000002: csd:csd_function_entry: func=do_it, csd=0xff1100003e836080
 load   203 [001]   110.000000003: csd:csd_function_entry: func=do_it, csd=0xff1100003e836080
</script>
<script type=\"text/plain\" id=\"events\">1 0 queue 0 1 async 0 0
2 1 begin 0 0 0
3 1 begin 0 0 0
</script>
<script type=\"text/plain\" id=\"said\">line 3: CPU 1 begin: the call of csd ff1100003e836080 is not over
";

#[test]
fn the_page_of_a_kernels_text(rt: HostRuntime) {
    match page_of_kernel(rt.alloc(), 0, KERNEL) {
        Ok((page, ruling)) => {
            assert_eq!(rt; ruling, Ruling::Broken);
            assert!(rt;
                from_utf8(page.as_slice())
                    .unwrap_or("")
                    .contains(KERNEL_DATA)
            );
        }
        Err(_) => assert!(rt; false),
    }
}

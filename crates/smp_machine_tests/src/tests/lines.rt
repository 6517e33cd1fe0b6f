//! Cache lines: what every thread reads of a table shares none with what one of them writes.

use super::*;
use smp_multi::StopTable;
use smp_queue::CallTable;

/// How many bytes each of these is. Its fields lie as they are declared, and 64 unused bytes lie on each side of what threads write
/// and of what each of them reads. Where these are taken away on one side, it is 64 bytes less.
#[test]
fn tables_have_unused_bytes_around_what_threads_write(rt: HostRuntime) {
    assert_eq!(rt; size_of::<CallTable<Global>>(), 5_104);
    assert_eq!(rt; size_of::<StopTable<Global>>(), 352);
    assert_eq!(rt; size_of::<Machine<Global>>(), 5_928);
}

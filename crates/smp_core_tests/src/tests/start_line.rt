//! A start line is opened or cancelled, and counts the threads that are done.

use smp_start::StartLine;
use std::test::*;

#[test]
fn threads_begin_only_at_an_open_line(rt: HostRuntime) {
    let line = StartLine::new();
    assert_eq!(rt; line.look(), None);
    line.settle(true);
    assert_eq!(rt; line.look(), Some(true));
    assert!(rt; line.wait(&rt));
}

#[test]
fn no_thread_begins_at_a_cancelled_line(rt: HostRuntime) {
    let line = StartLine::new();
    line.settle(false);
    assert_eq!(rt; line.look(), Some(false));
    assert!(rt; !line.wait(&rt));
}

#[test]
fn a_line_counts_the_threads_that_are_done(rt: HostRuntime) {
    let line = StartLine::new();
    assert_eq!(rt; line.done(), 0);
    line.note_done();
    line.note_done();
    assert_eq!(rt; line.done(), 2);
    assert_eq!(rt; line.look(), None);
}

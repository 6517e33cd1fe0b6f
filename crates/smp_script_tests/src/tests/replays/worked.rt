//! Worked cases: scripts, and what each prints.

/// Two posts to one CPU: the first is owed an interrupt, the second is queued; and the batch of both.
pub const MARKS: &[u8] = b"smp 1 replay
cpus 3 0-2
start 0 post 1 2 async 1 0 1
step 0 8
start 1 post 1 2 async 2 0 1
step 1 8
start 0 send 2
step 0 1
start 2 handle
step 2 22
";

pub const MARKS_PRINTS: &[u8] = b"0 load flags.1 0
0 store flags.1 1
0 store func.1 1
0 store info.1 0
0 store queued.0.2 1
0 load head.2 0
0 store next.1 0
0 cas head.2 0 > 2 ; owed
1 load flags.13 0
1 store flags.13 1
1 store func.13 2
1 store info.13 0
1 store queued.1.2 1
1 load head.2 2
1 store next.13 2
1 cas head.2 2 > 14 ; queued
0 store intr.2 1 ; sent
2 store hand.2 1
2 swap intr.2 1
2 swap head.2 14
2 load next.13 2
2 store next.13 0
2 load next.1 0
2 store next.1 14
2 load next.1 14
2 load flags.1 1
2 load next.13 0
2 load flags.13 1
2 load next.1 14
2 load func.1 1
2 load info.1 0
2 store flags.1 0 ; call 0 1 0
2 store ran.2.0 1
2 load next.13 0
2 load func.13 2
2 load info.13 0
2 store flags.13 0 ; call 1 2 0
2 store ran.2.1 1
2 store hand.2 0 ; handled 2
";

/// A batch of two classes: the SYNC calls are unlinked and run first.
pub const TWO_CLASSES: &[u8] = b"smp 1 replay
cpus 2 0-1
start 0 post 1 1 async 1 0 1
step 0 8
start 0 post 0 1 sync 2 0 1
step 0 8
start 0 post 10 1 async 3 0 1
step 0 8
start 0 post 3 1 sync 4 0 1
step 0 8
start 0 send 1
step 0 1
start 1 handle
step 1 42
";

pub const TWO_CLASSES_PRINTS: &[u8] = b"0 load flags.1 0
0 store flags.1 1
0 store func.1 1
0 store info.1 0
0 store queued.0.1 1
0 load head.1 0
0 store next.1 0
0 cas head.1 0 > 2 ; owed
0 load flags.0 0
0 store flags.0 17
0 store func.0 2
0 store info.0 0
0 store queued.0.1 2
0 load head.1 2
0 store next.0 2
0 cas head.1 2 > 1 ; queued
0 load flags.10 0
0 store flags.10 1
0 store func.10 3
0 store info.10 0
0 store queued.0.1 3
0 load head.1 1
0 store next.10 1
0 cas head.1 1 > 11 ; queued
0 load flags.3 0
0 store flags.3 17
0 store func.3 4
0 store info.3 0
0 store queued.0.1 4
0 load head.1 11
0 store next.3 11
0 cas head.1 11 > 4 ; queued
0 store intr.1 1 ; sent
1 store hand.1 1
1 swap intr.1 1
1 swap head.1 4
1 load next.3 11
1 store next.3 0
1 load next.10 1
1 store next.10 4
1 load next.0 2
1 store next.0 11
1 load next.1 0
1 store next.1 1
1 load next.1 1
1 load flags.1 1
1 load next.0 11
1 load flags.0 17
1 load func.0 2
1 load info.0 0
1 store next.1 11
1 store hand.1 2 ; call 0 2 0
1 store ran.1.0 1
1 store flags.0 0
1 load next.10 4
1 load flags.10 1
1 load next.3 0
1 load flags.3 17
1 load func.3 4
1 load info.3 0
1 store next.10 0
1 store hand.1 5 ; call 0 4 0
1 store ran.1.0 2
1 store flags.3 0
1 load next.1 11
1 load func.1 1
1 load info.1 0
1 store flags.1 0 ; call 0 1 0
1 store ran.1.0 3
1 load next.10 0
1 load func.10 3
1 load info.10 0
1 store flags.10 0 ; call 0 3 0
1 store ran.1.0 4
1 store hand.1 0 ; handled 4
";

/// A record that is asked for while its call is queued, and once it has run.
pub const BUSY_RECORD: &[u8] = b"smp 1 replay
cpus 2 0-1
start 0 post 10 1 async 1 1 1
step 0 8
start 0 post 10 1 async 1 1 1
step 0 1
start 0 send 1
step 0 1
start 1 handle
step 1 13
start 0 done 10
step 0 1
start 0 post 10 1 async 1 1 1
step 0 8
";

pub const BUSY_RECORD_PRINTS: &[u8] = b"0 load flags.10 0
0 store flags.10 1
0 store func.10 1
0 store info.10 1
0 store queued.0.1 1
0 load head.1 0
0 store next.10 0
0 cas head.1 0 > 11 ; owed
0 load flags.10 1 ; E2
0 store intr.1 1 ; sent
1 store hand.1 1
1 swap intr.1 1
1 swap head.1 11
1 load next.10 0
1 store next.10 0
1 load next.10 0
1 load flags.10 1
1 load next.10 0
1 load func.10 1
1 load info.10 1
1 store flags.10 0 ; call 0 1 1
1 store ran.1.0 1
1 store hand.1 0 ; handled 1
0 load flags.10 0 ; done
0 load flags.10 0
0 store flags.10 1
0 store func.10 1
0 store info.10 1
0 store queued.0.1 2
0 load head.1 0
0 store next.10 0
0 cas head.1 0 > 11 ; owed
";

/// Two posts that lose an exchange: the first has no more tries, the second wins its second.
pub const CONTENDED: &[u8] = b"smp 1 replay
cpus 3 0-2
start 0 post 1 2 async 1 0 1
step 0 7
start 1 post 1 2 async 2 0 1
step 1 8
step 0 3
start 0 post 1 2 async 1 0 2
step 0 7
start 1 post 10 2 async 3 0 1
step 1 8
step 0 3
show
";

pub const CONTENDED_PRINTS: &[u8] = b"0 load flags.1 0
0 store flags.1 1
0 store func.1 1
0 store info.1 0
0 store queued.0.2 1
0 load head.2 0
0 store next.1 0
1 load flags.13 0
1 store flags.13 1
1 store func.13 2
1 store info.13 0
1 store queued.1.2 1
1 load head.2 0
1 store next.13 0
1 cas head.2 0 > 14 ; owed
0 cas head.2 14 kept
0 store queued.0.2 0
0 store flags.1 0 ; E5
0 load flags.1 0
0 store flags.1 1
0 store func.1 1
0 store info.1 0
0 store queued.0.2 1
0 load head.2 14
0 store next.1 14
1 load flags.22 0
1 store flags.22 1
1 store func.22 3
1 store info.22 0
1 store queued.1.2 2
1 load head.2 14
1 store next.22 14
1 cas head.2 14 > 23 ; queued
0 cas head.2 23 kept
0 store next.1 23
0 cas head.2 23 > 2 ; queued
queue 0:
queue 1:
queue 2: 13 22 1
locked: 1 13 22
phase:
";

/// A stop of two CPUs, of which both call the function; the last to complete answers 7.
pub const STOP_OF_TWO: &[u8] = b"smp 1 replay
cpus 2 0-1
start 0 gate
step 0 1
start 0 begin multi 0-1 0-1 9 5
step 0 11
start 0 enter 0
step 0 4
start 1 enter 0
step 1 4
start 0 advance 0
step 0 2
start 1 advance 7
step 1 4
start 0 advance 0
step 0 2
start 1 advance 7
step 1 4
start 0 advance 0
step 0 4
start 1 advance 7
step 1 6
start 0 advance 0
step 0 2
start 1 advance 7
step 1 4
start 0 finish
step 0 1
start 0 poll
step 0 1
start 1 finish
step 1 3
start 0 poll
step 0 2
show
";

pub const STOP_OF_TWO_PRINTS: &[u8] = b"0 cas gate 0 > 1 ; gate
0 store slot.0.kind 1
0 store slot.0.mask 3
0 store slot.0.active 3
0 store slot.0.func 9
0 store slot.0.arg 5
0 store slot.0.result 0
0 store slot.0.todo 2
0 store slot.0.done 0
0 store slot.0.ack 2
0 store slot.0.state 1
0 store slot.0.roll 3 ; begun
0 and slot.0.roll 3
0 load slot.0.kind 1
0 load slot.0.mask 3
0 load slot.0.active 3 ; entered
1 and slot.0.roll 2
1 load slot.0.kind 1
1 load slot.0.mask 3
1 load slot.0.active 3 ; entered
0 load slot.0.state 1
0 sub slot.0.ack 2 ; moved 1
1 load slot.0.state 1
1 sub slot.0.ack 1
1 store slot.0.ack 2
1 store slot.0.state 2 ; moved 1
0 load slot.0.state 2
0 sub slot.0.ack 2 ; moved 2
1 load slot.0.state 2
1 sub slot.0.ack 1
1 store slot.0.ack 2
1 store slot.0.state 3 ; moved 2
0 load slot.0.state 3
0 load slot.0.func 9
0 load slot.0.arg 5 ; run 9 5
0 sub slot.0.ack 2 ; ran
1 load slot.0.state 3
1 load slot.0.func 9
1 load slot.0.arg 5 ; run 9 5
1 sub slot.0.ack 1
1 store slot.0.ack 2
1 store slot.0.state 4 ; ran
0 load slot.0.state 4
0 sub slot.0.ack 2 ; left
1 load slot.0.state 4
1 sub slot.0.ack 1
1 store slot.0.ack 2
1 store slot.0.state 5 ; left
0 sub slot.0.todo 2 ; finished
0 load slot.0.done 0 ; pending
1 store slot.0.result 7
1 sub slot.0.todo 1
1 store slot.0.done 1 ; finished
0 load slot.0.done 1
0 load slot.0.result 7 ; result 7
queue 0:
queue 1:
locked:
phase: 0=5
";

/// One synchronous call, from CPU 0 to CPU 1.
pub const ONE_CALL: &[u8] = b"smp 1 replay
cpus 2 0-1
start 0 post 0 1 sync 7 42 1
step 0 8
start 0 send 1
step 0 1
start 1 handle
step 1 13
start 0 done 0
step 0 1
show
";

pub const ITS_OUTPUT: &[u8] = b"0 load flags.0 0
0 store flags.0 17
0 store func.0 7
0 store info.0 42
0 store queued.0.1 1
0 load head.1 0
0 store next.0 0
0 cas head.1 0 > 1 ; owed
0 store intr.1 1 ; sent
1 store hand.1 1
1 swap intr.1 1
1 swap head.1 1
1 load next.0 0
1 store next.0 0
1 load next.0 0
1 load flags.0 17
1 load func.0 7
1 load info.0 42
1 store hand.1 2 ; call 0 7 42
1 store ran.1.0 1
1 store flags.0 0
1 store hand.1 0 ; handled 1
0 load flags.0 0 ; done
queue 0:
queue 1:
locked:
phase:
";

/// A stop of one CPU, from the gate to its result.
pub const ONE_STOP: &[u8] = b"smp 1 replay
cpus 1 0
start 0 gate
step 0 1
start 0 begin multi 0 0 9 5
step 0 11
start 0 ungate
step 0 1
start 0 enter 0
step 0 4
start 0 advance 7
step 0 4
start 0 advance 7
step 0 4
start 0 advance 7
step 0 6
start 0 advance 7
step 0 4
start 0 finish
step 0 3
start 0 poll
step 0 2
show
";

pub const ITS_STEPS: &[u8] = b"0 cas gate 0 > 1 ; gate
0 store slot.0.kind 1
0 store slot.0.mask 1
0 store slot.0.active 1
0 store slot.0.func 9
0 store slot.0.arg 5
0 store slot.0.result 0
0 store slot.0.todo 1
0 store slot.0.done 0
0 store slot.0.ack 1
0 store slot.0.state 1
0 store slot.0.roll 1 ; begun
0 store gate 0 ; open
0 and slot.0.roll 1
0 load slot.0.kind 1
0 load slot.0.mask 1
0 load slot.0.active 1 ; entered
0 load slot.0.state 1
0 sub slot.0.ack 1
0 store slot.0.ack 1
0 store slot.0.state 2 ; moved 1
0 load slot.0.state 2
0 sub slot.0.ack 1
0 store slot.0.ack 1
0 store slot.0.state 3 ; moved 2
0 load slot.0.state 3
0 load slot.0.func 9
0 load slot.0.arg 5 ; run 9 5
0 sub slot.0.ack 1
0 store slot.0.ack 1
0 store slot.0.state 4 ; ran
0 load slot.0.state 4
0 sub slot.0.ack 1
0 store slot.0.ack 1
0 store slot.0.state 5 ; left
0 store slot.0.result 7
0 sub slot.0.todo 1
0 store slot.0.done 1 ; finished
0 load slot.0.done 1
0 load slot.0.result 7 ; result 7
queue 0:
locked:
phase: 0=5
";

/// A patch of one key with two sites.
pub const ONE_PATCH: &[u8] = b"smp 1 replay
cpus 1 0
labels 1 0:0,0:1
start 0 gate
step 0 1
start 0 begin patch 0 0 0 1
step 0 11
start 0 enter 0
step 0 4
start 0 advance 0
step 0 4
start 0 advance 0
step 0 4
start 0 advance 0
step 0 13
";

pub const ITS_LAST_STEPS: &[u8] = b"0 load slot.0.state 3
0 load slot.0.func 0
0 load slot.0.arg 1
0 load key.0 0
0 load entry.0 1
0 load entry.1 2
0 load entry.2 0
0 store key.0 1
0 store site.0 1
0 store site.1 0
0 sub slot.0.ack 1
0 store slot.0.ack 1
0 store slot.0.state 4 ; ran
";

/// Nudges before and after a patch that brings the count to 1, and one that comes too late.
pub const NUDGES: &[u8] = b"smp 2 replay
cpus 10 0,9
labels 1 0:0
start 0 nudge 0 up
step 0 1
start 0 nudge 0 down
step 0 1
start 0 gate
step 0 1
start 0 begin patch 0,9 0 0 2
step 0 11
start 0 enter 0
step 0 4
start 9 enter 0
step 9 4
start 0 advance 0
step 0 2
start 9 advance 0
step 9 4
start 0 advance 0
step 0 2
start 9 advance 0
step 9 4
start 9 advance 0
step 9 2
start 0 advance 0
step 0 11
start 0 advance 0
step 0 2
start 9 advance 0
step 9 4
start 0 nudge 0 up
step 0 1
start 9 nudge 0 up
step 9 2
step 0 1
start 0 nudge 0 down
step 0 2
start 0 nudge 0 down
step 0 1
";

pub const FIRST_NUDGES: &[u8] = b"0 load key.0 0 ; stop
0 load key.0 0 ; E13
";

pub const LAST_NUDGES: &[u8] = b"0 load key.0 1
9 load key.0 1
9 cas key.0 1 > 2 ; done
0 cas key.0 2 kept ; lost
0 load key.0 2
0 cas key.0 2 > 1 ; done
0 load key.0 1 ; stop
";

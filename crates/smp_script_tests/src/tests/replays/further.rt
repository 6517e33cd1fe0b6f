//! Worked cases of records, heads, tries and keys: scripts, and what each prints.

/// A record that is free before its function ran is used again, and its call runs in the next batch.
pub const FREE_RECORD: &[u8] = b"smp 1 replay
cpus 2 0-1
start 0 post 10 1 async 1 1 1
step 0 8
start 0 send 1
step 0 1
start 1 handle
step 1 11
start 0 post 10 1 async 2 1 1
step 0 8
start 0 send 1
step 0 1
step 1 2
start 1 handle
step 1 13
";

pub const FREE_RECORD_PRINTS: &[u8] = b"0 load flags.10 0
0 store flags.10 1
0 store func.10 1
0 store info.10 1
0 store queued.0.1 1
0 load head.1 0
0 store next.10 0
0 cas head.1 0 > 11 ; owed
0 store intr.1 1 ; sent
1 store hand.1 1
1 swap intr.1 1
1 swap head.1 11
1 load next.10 0
1 store next.10 0
1 load next.10 0
1 load flags.10 1
1 load next.10 0
1 load func.10 1
1 load info.10 1
1 store flags.10 0 ; call 0 1 1
0 load flags.10 0
0 store flags.10 1
0 store func.10 2
0 store info.10 1
0 store queued.0.1 2
0 load head.1 0
0 store next.10 0
0 cas head.1 0 > 11 ; owed
0 store intr.1 1 ; sent
1 store ran.1.0 1
1 store hand.1 0 ; handled 1
1 store hand.1 1
1 swap intr.1 1
1 swap head.1 11
1 load next.10 0
1 store next.10 0
1 load next.10 0
1 load flags.10 1
1 load next.10 0
1 load func.10 2
1 load info.10 1
1 store flags.10 0 ; call 0 2 1
1 store ran.1.0 2
1 store hand.1 0 ; handled 1
";

/// The head is the same again over another chain, and the exchange wins.
pub const EQUAL_HEADS: &[u8] = b"smp 1 replay
cpus 3 0-2
start 1 post 10 2 async 1 1 1
step 1 8
start 1 send 2
step 1 1
start 0 post 10 2 async 2 2 1
step 0 7
start 2 handle
step 2 13
start 1 post 10 2 async 3 3 1
step 1 8
step 0 1
show
";

pub const EQUAL_HEADS_PRINTS: &[u8] = b"1 load flags.22 0
1 store flags.22 1
1 store func.22 1
1 store info.22 1
1 store queued.1.2 1
1 load head.2 0
1 store next.22 0
1 cas head.2 0 > 23 ; owed
1 store intr.2 1 ; sent
0 load flags.10 0
0 store flags.10 1
0 store func.10 2
0 store info.10 2
0 store queued.0.2 1
0 load head.2 23
0 store next.10 23
2 store hand.2 1
2 swap intr.2 1
2 swap head.2 23
2 load next.22 0
2 store next.22 0
2 load next.22 0
2 load flags.22 1
2 load next.22 0
2 load func.22 1
2 load info.22 1
2 store flags.22 0 ; call 1 1 1
2 store ran.2.1 1
2 store hand.2 0 ; handled 1
1 load flags.22 0
1 store flags.22 1
1 store func.22 3
1 store info.22 3
1 store queued.1.2 2
1 load head.2 0
1 store next.22 0
1 cas head.2 0 > 23 ; owed
0 cas head.2 23 > 11 ; queued
queue 0:
queue 1:
queue 2: 22 10
locked: 10 22
phase:
";

/// A call that is posted after the interrupt is accepted and before the queue is taken runs in that batch.
pub const LATE_POST: &[u8] = b"smp 1 replay
cpus 3 0-2
start 0 post 1 1 async 1 0 1
step 0 8
start 0 send 1
step 0 1
start 1 handle
step 1 2
start 2 post 1 1 async 2 0 1
step 2 8
step 1 20
";

pub const LATE_POST_PRINTS: &[u8] = b"0 load flags.1 0
0 store flags.1 1
0 store func.1 1
0 store info.1 0
0 store queued.0.1 1
0 load head.1 0
0 store next.1 0
0 cas head.1 0 > 2 ; owed
0 store intr.1 1 ; sent
1 store hand.1 1
1 swap intr.1 1
2 load flags.25 0
2 store flags.25 1
2 store func.25 2
2 store info.25 0
2 store queued.2.1 1
2 load head.1 2
2 store next.25 2
2 cas head.1 2 > 26 ; queued
1 swap head.1 26
1 load next.25 2
1 store next.25 0
1 load next.1 0
1 store next.1 26
1 load next.1 26
1 load flags.1 1
1 load next.25 0
1 load flags.25 1
1 load next.1 26
1 load func.1 1
1 load info.1 0
1 store flags.1 0 ; call 0 1 0
1 store ran.1.0 1
1 load next.25 0
1 load func.25 2
1 load info.25 0
1 store flags.25 0 ; call 2 2 0
1 store ran.1.2 1
1 store hand.1 0 ; handled 2
";

/// A post loses each of its five exchanges.
pub const FIVE_TRIES: &[u8] = b"smp 1 replay
cpus 3 0-2
start 0 post 1 2 async 1 0 5
step 0 7
start 1 post 0 2 sync 2 0 1
step 1 8
step 0 2
start 1 post 1 2 async 3 0 1
step 1 8
step 0 2
start 1 post 4 2 async 4 0 1
step 1 8
step 0 2
start 1 post 10 2 async 5 0 1
step 1 8
step 0 2
start 1 post 11 2 async 6 0 1
step 1 8
step 0 3
";

pub const FIVE_TRIES_PRINTS: &[u8] = b"0 load flags.1 0
0 store flags.1 1
0 store func.1 1
0 store info.1 0
0 store queued.0.2 1
0 load head.2 0
0 store next.1 0
1 load flags.12 0
1 store flags.12 17
1 store func.12 2
1 store info.12 0
1 store queued.1.2 1
1 load head.2 0
1 store next.12 0
1 cas head.2 0 > 13 ; owed
0 cas head.2 13 kept
0 store next.1 13
1 load flags.13 0
1 store flags.13 1
1 store func.13 3
1 store info.13 0
1 store queued.1.2 2
1 load head.2 13
1 store next.13 13
1 cas head.2 13 > 14 ; queued
0 cas head.2 14 kept
0 store next.1 14
1 load flags.16 0
1 store flags.16 1
1 store func.16 4
1 store info.16 0
1 store queued.1.2 3
1 load head.2 14
1 store next.16 14
1 cas head.2 14 > 17 ; queued
0 cas head.2 17 kept
0 store next.1 17
1 load flags.22 0
1 store flags.22 1
1 store func.22 5
1 store info.22 0
1 store queued.1.2 4
1 load head.2 17
1 store next.22 17
1 cas head.2 17 > 23 ; queued
0 cas head.2 23 kept
0 store next.1 23
1 load flags.23 0
1 store flags.23 1
1 store func.23 6
1 store info.23 0
1 store queued.1.2 5
1 load head.2 23
1 store next.23 23
1 cas head.2 23 > 24 ; queued
0 cas head.2 24 kept
0 store queued.0.2 0
0 store flags.1 0 ; E5
";

/// The second of two keys, its site, and its edges.
pub const SECOND_KEY: &[u8] = b"smp 1 replay
cpus 1 0
labels 2 0:0,1:1
start 0 key 1
step 0 1
start 0 site 1
step 0 1
start 0 nudge 1 up
step 0 1
start 0 nudge 1 down
step 0 1
show
";

pub const SECOND_KEY_PRINTS: &[u8] = b"0 load key.1 0 ; off
0 load site.1 1 ; JMP
0 load key.1 0 ; stop
0 load key.1 0 ; E13
queue 0:
locked:
phase:
";

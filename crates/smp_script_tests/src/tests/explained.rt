//! Texts with a fault, and what is said of it.

use commands::explain::explain_text;
use smp_mask::SmpError;
use smp_script::{Outcome, Watched};
use std::alloc::{AllocError, Global};
use std::str::from_utf8;
use std::test::*;

// What is explained of a text, and how that ends.
fn explained(alloc: Global, text: &[u8]) -> Result<(Vec<u8, Global>, Outcome), SmpError> {
    let mut writer = Watched::new(Vec::new(alloc));
    let outcome = explain_text(alloc, text, &mut writer)?;
    Ok((writer.into_inner(), outcome))
}

#[test]
fn what_may_stand_there(rt: HostRuntime) -> Result<(), Fail> {
    let cases: [(&str, &str); 24] = [
        (
            "smp 2 trace\ncpus 2 0-1\nlabels 1 0:0\n0 set 1 1\n",
            "line 4 Range: a number outside the range of its field
  0 set 1 1
  field 3, K: here is `1`
    here may be: a key below KEYS, here 1
    the line: C set K N
",
        ),
        (
            "smp 2 trace\ncpus 2 0-1\nlabels 1 0:0\n0 site 1 NOP\n",
            "line 4 Range: a number outside the range of its field
  0 site 1 NOP
  field 3, I: here is `1`
    here may be: a site of those in ITEMS, here 1
    the line: C site I NOP
",
        ),
        (
            "smp 3 trace\ncpus 2 0-1\nwithout interrupts order unlocks\n0 queue 1 1 x 7 42\n",
            "line 4 Word: a wrong word, or too few or too many fields
  0 queue 1 1 x 7 42
  field 5, CLASS: here is `x`
    here may be: sync, async, unknown
    the line: C queue R D CLASS FUNC INFO
",
        ),
        (
            "smp 3 trace\ncpus 2 0-1\n0 queue 1 wakes\n",
            "line 3 Word: a wrong word, or too few or too many fields
  0 queue 1 wakes
  field 4: here is `wakes`
    here may be: a number from 0 to 4294967295
    here may be: wake, irqwork
",
        ),
        (
            "smp 3 trace\ncpus 2 0-1\n0 open 64 one 1 - 7 9\n",
            "line 3 Range: a number outside the range of its field
  0 open 64 one 1 - 7 9
  field 3, S: here is `64`
    here may be: a number from 0 to 63
    the line: C open S KIND MASK ACTIVE FUNC ARG
",
        ),
        (
            "smp 1 replay\ncpus 2 0-1\nstart 0 post 0 1 synk 7 42 1\n",
            "line 3 Word: a wrong word, or too few or too many fields
  start 0 post 0 1 synk 7 42 1
  field 6, CLASS: here is `synk`
    here may be: sync, async
    the line: start CPU post K DST CLASS FUNC INFO TRIES
",
        ),
        (
            "smp 1 replay\ncpus 2 0-1\nstart 0 post 0 1 sync 7 42\n",
            "line 3 Word: a wrong word, or too few or too many fields
  start 0 post 0 1 sync 7 42
  field 9, TRIES: here the line ends
    here may be: a number from 0 to 4294967295
    the line: start CPU post K DST CLASS FUNC INFO TRIES
",
        ),
        (
            "smp 1 replay\ncpus 2 0-1\nstat 0 handle\n",
            "line 3 Word: a wrong word, or too few or too many fields
  stat 0 handle
  field 1: here is `stat`
    here may be: labels, start, step, show
",
        ),
        (
            "smp 1 replay\r\ncpus 2 0-1\r\n",
            "line 1 Word: a wrong word, or too few or too many fields
  smp 1 replay\\r
  field 3: here is `replay\\r`: a carriage return is its end; a line ends in a line feed alone, not in CR LF
    here may be: replay
    the line: smp VERSION replay
",
        ),
        (
            "smp 1 replay\ncpus 2 0-1\n# a comment\n",
            "line 3 Word: a wrong word, or too few or too many fields
  # a comment
  field 1: here is `#`: only explorations and traces have comments, from line 3 on
    here may be: labels, start, step, show
",
        ),
        (
            "smp 1 replay\ncpus 2 0-1\nstep 0 0\n",
            "line 3 Range: a number outside the range of its field
  step 0 0
  field 3, N: here is `0`
    here may be: a number from 1 to 10000
    the line: step CPU N
",
        ),
        (
            "smp 1 run\ncpus 2 0-1\ndo 3 1 one 1 7 9\n",
            "line 3 Range: a number outside the range of its field
  do 3 1 one 1 7 9
  field 2, CPU: here is `3`
    here may be: a CPU that is online
    the line: do CPU N one DST FUNC ARG
",
        ),
        (
            "smp 1 run\ncpus 2 0-1\ndo 1 1 set 0 up\n",
            "line 3 Word: a wrong word, or too few or too many fields
  do 1 1 set 0 up
  field 6: here is `up`
    here may be: on, off
",
        ),
        (
            "smp 1 run\ncpus 2 0-1\ndo 0 1 inc 0\ndo 1 1 inc 0\n",
            "line 4 SharedKey: an earlier line changes the key of this one on another CPU
  do 1 1 inc 0
",
        ),
        (
            "smp 1 explore\ncpus 2 0-1\nnever said owd\n",
            "line 3 Word: a wrong word, or too few or too many fields
  never said owd
  field 3, NOTE: here is `owd`
    here may be: E1, E2, E5, E7, E13, owed, queued, sent, done, locked, idle, call, handled, \
        gate, taken, open, begun, entered, same, moved, run, ran, left, finished, pending, result, \
        on, off, NOP, JMP, stop, lost
",
        ),
        (
            "smp 1 explore\ncpus 2 0-1\nlabels 1 0:1\nnever not site.1 1\n",
            "line 4 Range: a number outside the range of its field
  never not site.1 1
  field 3, WORD: here is `site.1`
    here may be: said, queue.C, place.R, or a word: gate, key.K, entry.I, site.I, flags.R, \
        func.R, info.R, next.R, head.C, intr.C, hand.C, queued.S.D, ran.S.D, slot.S.NAME
    lines 2 and 3 give: CPUs below 2, keys below 1, sites below 1
",
        ),
        (
            "smp 1 explore\ncpus 2 0-1\ncpu 0 set_key 0 on\n",
            "line 3 Range: a number outside the range of its field
  cpu 0 set_key 0 on
  field 4, K: here is `0`
    here may be: a key below KEYS, here 0
    the line: cpu C set_key K on
",
        ),
        (
            "smp 1 explore\ncpus 2 0-1\ncpu 0 repeat x handle\n",
            "line 3 Number: a field that is no decimal number
  cpu 0 repeat x handle
  field 4, N: here is `x`
    here may be: a number from 0 to 4294967295
    the line: cpu C repeat N handle
",
        ),
        (
            "smp 1 explore\ncpus 2 0-1\ncpu 0 repeat done 0 with send 1\n",
            "line 3 Word: a wrong word, or too few or too many fields
  cpu 0 repeat done 0 with send 1
  field 7: here is `send`
    here may be: handle, enter, advance
",
        ),
        (
            "smp 2 trace\ncpus 2 0-1\n0 queue 1 1 sink 7 42\n",
            "line 3 Word: a wrong word, or too few or too many fields
  0 queue 1 1 sink 7 42
  field 5, CLASS: here is `sink`
    here may be: sync, async
    the line: C queue R D CLASS FUNC INFO
",
        ),
        (
            "smp 3 trace\ncpus 64 0-62\n",
            "line 2 Mask: a field that is no list of CPUs
  cpus 64 0-62
  field 3, MASK: here is `0-62`
    here may be: 0-LAST, the list of all NR CPUs
    the line: cpus NR MASK
",
        ),
        (
            "smp 3 trace\ncpus 64 0-63\n40 off\n",
            "line 3 Range: a number outside the range of its field
  40 off
  field 1, C: here is `40`
    here may be: a number from 0 to 31
    the line: C off
",
        ),
        (
            "smp 2 replays\n",
            "line 1 Word: a wrong word, or too few or too many fields
  smp 2 replays
  field 3: here is `replays`
    here may be: replay, run, explore, trace
",
        ),
        ("smp 1 explore\ncpus 2 0-1\ncpu 0 send 1\n", "no fault\n"),
    ];
    for (text, expected) in cases {
        let (said, _) = explained(rt.alloc(), text.as_bytes())?;
        assert_eq!(rt; from_utf8(said.as_slice()).unwrap_or("?"), expected);
    }
    Ok(())
}

// A text of this head and this line, with `?` in place of the line's field of this number, counted from 1.
fn changed(
    alloc: Global,
    head: &str,
    line: &str,
    number: usize,
) -> Result<String<Global>, AllocError> {
    let mut fields: Vec<&str, Global> = Vec::new(alloc);
    let mut at = 0usize;
    for field in line.split(' ') {
        at = at.saturating_add(1);
        fields.push(if at == number { "?" } else { field })?;
    }
    let line = fields.join(alloc, " ")?;
    let line = line.as_str();
    format!(in alloc; "{head}{line}\n")
}

// Whether what is explained of a text has these words.
fn says(alloc: Global, text: &str, words: &str) -> Result<bool, SmpError> {
    let (said, _) = explained(alloc, text.as_bytes())?;
    Ok(from_utf8(said.as_slice()).unwrap_or("").contains(words))
}

// The number of the first field of a line that is not named as the one at fault where it is `?`.
fn first_unnamed(rt: &HostRuntime, head: &str, line: &str) -> Result<Option<usize>, Fail> {
    let mut number = 0usize;
    for _field in line.split(' ') {
        number = number.saturating_add(1);
        let text = changed(rt.alloc(), head, line, number)?;
        let words = format!(in rt.alloc(); "\n  field {number}")?;
        if !says(rt.alloc(), text.as_str(), words.as_str())? {
            return Ok(Some(number));
        }
    }
    Ok(None)
}

// No field is `?` in any kind of text.
#[test]
fn the_changed_field_is_named(rt: HostRuntime) -> Result<(), Fail> {
    let replay = "smp 2 replay\ncpus 2 0-1\n";
    let run = "smp 1 run\ncpus 2 0-1\n";
    let exploration = "smp 1 explore\ncpus 2 0-1\n";
    let trace = "smp 2 trace\ncpus 2 0-1\n";
    let labelled = "smp 2 trace\ncpus 2 0-1\nlabels 1 0:0\n";
    let third = "smp 3 trace\ncpus 2 0-1\nwithout interrupts order unlocks\n";
    let cases: [(&str, &str); 46] = [
        ("", "smp 1 replay"),
        ("smp 2 trace\n", "cpus 2 0-1"),
        (replay, "labels 1 0:1,0:0"),
        (replay, "start 0 post 0 1 sync 7 42 1"),
        (replay, "start 0 send 1"),
        (replay, "start 0 done 0"),
        (replay, "start 1 handle"),
        (replay, "start 0 gate"),
        (replay, "start 0 begin multi 0-1 - 7 9"),
        (replay, "start 1 enter 0"),
        (replay, "start 1 advance -3"),
        (replay, "start 1 runone 5"),
        (replay, "start 1 finish"),
        (replay, "start 0 key 0"),
        (replay, "start 0 site 1"),
        (replay, "start 0 nudge 0 up"),
        (replay, "step 0 2"),
        (replay, "show"),
        (run, "labels 1 0:1"),
        (run, "do 0 1 sync 1 7 42"),
        (run, "do 0 1 user 0 1 7 42"),
        (run, "do 0 1 any wait 0-1 7 42"),
        (run, "do 0 1 many nowait - 7 42"),
        (run, "do 0 1 cond even wait 0-1 7 42"),
        (run, "do 0 1 one 1 7 9"),
        (run, "do 0 1 two 0 1 7 9"),
        (run, "do 0 1 machine none 7 9"),
        (run, "do 0 1 machine 0-1 7 9"),
        (run, "do 0 1 set 0 on"),
        (run, "do 0 1 inc 0"),
        (exploration, "cpu 0 post 0 1 async 7 42 1"),
        (exploration, "cpu 0 repeat 3 gate with advance 1"),
        (exploration, "never gate 1 and not said sent"),
        (exploration, "finally place.0 queued.1"),
        (trace, "0 queue 1 1 sync 7 42"),
        (trace, "0 free 1"),
        (trace, "1 begin 1 7 42"),
        (trace, "0 open multi 0-1 0 7 9"),
        (trace, "0 ack 2"),
        (trace, "0 raise 2"),
        (labelled, "0 set 0 1"),
        (labelled, "0 turn 0 JMP"),
        (third, "0 open 5 multi 0-1 0 7 9"),
        (third, "1 collect 5 -3"),
        (third, "0 queue 1 1 unknown 7 42"),
        (third, "0 queue 1 wake"),
    ];
    for (head, line) in cases {
        assert_eq!(rt; first_unnamed(&rt, head, line)?, None, "{line}");
    }
    Ok(())
}

// There are 9 CPUs, 2 keys and 3 sites. Record 107 is the last of CPU 8's first twelve, and 384 CPU 0's for calls to CPU 8. Records
// 108 and 600 are of CPU 9, and 385 is for calls to it.
#[test]
fn what_is_not_there_is_named(rt: HostRuntime) -> Result<(), Fail> {
    let head = "smp 2 explore\ncpus 9 0-8\nlabels 2 0:1,1:0,1:1\n";
    let cases: [(&str, &str); 19] = [
        ("always hand.9 0", "field 2, WORD: here is `hand.9`"),
        (
            "never intr.8 1 and intr.9 1",
            "field 5, WORD: here is `intr.9`",
        ),
        ("never queued.0.9 1", "field 2, WORD: here is `queued.0.9`"),
        ("never ran.9.0 1", "field 2, WORD: here is `ran.9.0`"),
        (
            "finally slot.9.state 0",
            "field 2, WORD: here is `slot.9.state`",
        ),
        (
            "never slot.8.state 3 or queue.9 1",
            "field 5, WORD: here is `queue.9`",
        ),
        ("never key.2 0", "field 2, WORD: here is `key.2`"),
        (
            "never key.1 0 or entry.3 0",
            "field 5, WORD: here is `entry.3`",
        ),
        (
            "never entry.2 0 or site.3 1",
            "field 5, WORD: here is `site.3`",
        ),
        (
            "never flags.107 0 or flags.108 0",
            "field 5, WORD: here is `flags.108`",
        ),
        (
            "never func.384 1 or info.385 1",
            "field 5, WORD: here is `info.385`",
        ),
        ("never next.600 0", "field 2, WORD: here is `next.600`"),
        (
            "never place.1152 free",
            "field 2, WORD: here is `place.1152`",
        ),
        (
            "never not place.0 running.9",
            "field 4, PLACE: here is `running.9`",
        ),
        (
            "never place.0 batch.8 or place.0 queued.9",
            "field 6, PLACE: here is `queued.9`",
        ),
        (
            "never head.4294967296 0",
            "field 2, WORD: here is `head.4294967296`",
        ),
        (
            "never head.0 18446744073709551616 and head.9 0",
            "field 3, N: here is `18446744073709551616`",
        ),
        ("cpu 0 set_key 2 on", "field 4, K: here is `2`"),
        ("cpu 9 handle", "field 2, C: here is `9`"),
    ];
    for (line, named) in cases {
        let text = format!(in rt.alloc(); "{head}{line}\n")?;
        let words = format!(in rt.alloc();
            "line 4 Range: a number outside the range of its field\n  {line}\n  {named}\n"
        )?;
        assert!(rt; says(rt.alloc(), text.as_str(), words.as_str())?, "{line}");
    }
    Ok(())
}

// A condition that is missing, and words that there are.
#[test]
fn conditions_that_end_early(rt: HostRuntime) -> Result<(), Fail> {
    let head = "smp 2 explore\ncpus 9 0-8\nlabels 2 0:1,1:0,1:1\n";
    let cases: [(&str, &str); 3] = [
        (
            "never",
            "line 4 Word: a wrong word, or too few or too many fields\n  never\n  field 2, WORD: here the line ends\n",
        ),
        (
            "never head.8 0 and",
            "  field 5, WORD: here the line ends\n",
        ),
        ("never site.2 1 or place.384 running.8", "no fault\n"),
    ];
    for (line, words) in cases {
        let text = format!(in rt.alloc(); "{head}{line}\n")?;
        assert!(rt; says(rt.alloc(), text.as_str(), words)?, "{line}");
    }
    Ok(())
}

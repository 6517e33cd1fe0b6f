//! What is in a picture of a kernel's events, for a reader of it.

ghost use Rattle.std.specs.Prelude.{◌≡◌, ◌++◌, Ok, length};
ghost use Rattle.trace_ftrace.specs.Reading.{reading_of};
ghost use Rattle.trace_ftrace.specs.declared.laws.TheConstants.{TEXT};
ghost use Rattle.trace_page.specs.Laws.{lines_to};
ghost use Rattle.trace_page.specs.Pictures.{line_at, made_of};
ghost use Rattle.trace_page.specs.Windows.{marked, marked_place, window_of};
ghost use Rattle.trace_page.specs.declared.picture.TheConstants.{LEGEND};
ghost use Rattle.trace_page.specs.declared.picture_laws.TheConstants.{REST};
ghost use Rattle.view.specs.Legend.{head_text};

/// What the picture around line 2 of `trace_ftrace::laws::TEXT` has below its legend. CPU 0 queues a call for CPU 1, which makes it
/// after 6 nanoseconds, and then one for CPU 2.
pub const REST: &str =
    r##"<text class="key" x="12" y="73">line 2 is marked; times in microseconds from 0.001 on</text>
<rect class="lane" x="0" y="113" width="900" height="60"><title>CPU 0</title></rect>
<text class="cpu" x="4" y="147">CPU 0</text>
<rect class="lane" x="0" y="175" width="900" height="60"><title>CPU 1</title></rect>
<text class="cpu" x="4" y="209">CPU 1</text>
<line class="number" x1="66" y1="112" x2="66" y2="236"/>
<text class="number" x="66" y="107">0.000</text>
<rect class="mark" x="80" y="112" width="28" height="124"><title>the marked event</title></rect>
<path class="call" d="M 66 150 C 66 172 94 172 94 198" marker-end="url(#call-head)"/>
<rect class="handle" x="80" y="177" width="56" height="43"><title>line 2, 0.007: CPU 1 begin f, csd a0</title></rect>
<text class="label" x="83" y="188">f</text>
<use href="#store" x="66" y="144"><title>line 1, 0.001: CPU 0 queue f for CPU 1, csd a0</title></use>
<use href="#run" x="94" y="206"><title>line 2, 0.007: CPU 1 begin f, csd a0</title></use>
<use href="#load" x="122" y="206"><title>line 3, 0.008: CPU 1 end, csd a0</title></use>
<use href="#store" x="150" y="144"><title>line 4, 0.009: CPU 0 queue g for CPU 2, csd b0</title></use>
</svg>
"##;

/// A picture has a lane for each CPU with an event, in the order of the CPUs, and a frame round the event of the marked line. An
/// arrow leads from a call to its begin, and a box from that to its end. An event's title has its line, its time, its CPU and the
/// kernel's names.
pub fn pictures_have_all_events()
    ensures { made_of 2 (reading_of 0 TEXT.now) ≡ Ok (head_text 900 270 ++ LEGEND.now ++ REST.now) }
{}

/// Of 300 lines with an event each, the picture around line 150 has those from line 50 to line 250, and line 150 is marked. Around
/// line 60 it has those from line 1 to line 160. A line that tells no event stands for the next one that does, else for the last
/// event.
pub fn windows_have_100_events_on_each_side()
    ensures first { line_at (window_of 150 (lines_to 300)) 0 ≡ 50 }
    ensures count { length (window_of 150 (lines_to 300)) ≡ 201 }
    ensures mark { line_at (window_of 150 (lines_to 300)) (marked 150 (lines_to 300)) ≡ 150 }
    ensures front { line_at (window_of 60 (lines_to 300)) 0 ≡ 1 }
    ensures fewer { length (window_of 60 (lines_to 300)) ≡ 160 }
    ensures behind { line_at (window_of 150 (lines_to 140)) (marked 150 (lines_to 140)) ≡ 140 }
    ensures next { line_at (lines_to 9) (marked_place 0 (lines_to 9)) ≡ 1 }
{}

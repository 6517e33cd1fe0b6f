//! What is in a page of a trace, for a reader of its text.

ghost use Rattle.std.specs.Prelude.{◌≡◌, ℕ, List, [], ◌∷◌, ◌++◌, codes};
ghost use Rattle.std.specs.Fmt.{decimal};
ghost use Rattle.trace_events.specs.Text.{numbered_text};
ghost use Rattle.trace_ftrace.specs.declared.told.Told.{Told};
ghost use Rattle.trace_model.specs.declared.event.Event.{Event};
ghost use Rattle.trace_page.specs.Escapes.{escaped};
ghost use Rattle.trace_page.specs.TracePages.{event_line, kernel_page, source_line, told_by, trace_page};
ghost use Rattle.trace_page.specs.declared.page_trace.TheConstants.{BEFORE_EVENTS, BEFORE_VERDICT, PARTS, TRACE};
ghost use Rattle.smp_script.specs.Lines.{parts_of};
ghost use Rattle.view.specs.declared.page_script.TheConstants.{HELPERS, LANES};
ghost use Rattle.view.specs.declared.page_style.TheConstants.{STYLE};

/// The page of a trace has its text and its verdict. That of a kernel's text has the line that tells each event, then a line for each
/// event, in their order, and the verdict.
#[tactic(auto, unfolding(crate::specs::TracePages::page_of))]
pub fn pages_have_all_events()
    ensures traces { (text said : List ℕ) → trace_page text said
        ≡ STYLE.now ++ PARTS.now ++ escaped text ++ BEFORE_EVENTS.now ++ [] ++ BEFORE_VERDICT.now ++ escaped said
        ++ HELPERS.now ++ TRACE.now ++ LANES.now }
    ensures kernels { (text said : List ℕ) (a b : Told) → kernel_page text (a ∷ b ∷ []) said
        ≡ STYLE.now ++ PARTS.now ++ (source_line (parts_of 10 text) a ++ (source_line (parts_of 10 text) b ++ []))
        ++ BEFORE_EVENTS.now ++ (event_line a ++ (event_line b ++ [])) ++ BEFORE_VERDICT.now ++ escaped said ++ HELPERS.now ++ TRACE.now ++ LANES.now }
{}

/// The line of an event has the number of the line that tells it, its CPU and the event. The first line of a text has number 1. A byte
/// that could end the data, or that can't be printed, has a backslash and the three digits of its number in its place.
pub fn lines_have_what_is_told()
    ensures events { (l c t : ℕ) (e : Event) → event_line (record { line = l; cpu = c; time = t; event = e })
        ≡ decimal l ++ codes " " ++ (decimal c ++ codes " " ++ numbered_text e ++ codes "\n") }
    ensures first { (e : Event) (c t : ℕ) → told_by (parts_of 10 (codes "one\ntwo\n")) (record { line = 1; cpu = c; time = t; event = e }) ≡ codes "one" }
    ensures second { (e : Event) (c t : ℕ) → told_by (parts_of 10 (codes "one\ntwo\n")) (record { line = 2; cpu = c; time = t; event = e }) ≡ codes "two" }
    ensures bytes { escaped (codes "a <b>\\\t&~\n") ≡ codes "a \\060b>\\092\\009&~\n" }
{}

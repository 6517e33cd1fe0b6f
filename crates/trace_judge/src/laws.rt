//! What the verdict on a trace means.

ghost use Rattle.std.specs.Prelude.{◌≡◌, ℕ, List, Ok};
ghost use Rattle.smp_script.specs.Lines.{lines_of};
ghost use Rattle.trace_model.specs.State.{StateValue};
ghost use Rattle.trace_judge.specs.Head.{HeadValue, head_of};
ghost use Rattle.trace_judge.specs.Runs.{IsMeant, IsRunOf};
ghost use Rattle.trace_judge.specs.Verdict.{verdict_of};

/// A trace is accepted exactly where the model has a run with its events, from a model in which nothing has happened. Else the
/// verdict names the first event for which there is no step, and the first of its premises that does not hold; or the first
/// line at fault, and what comes before it is a run.
pub fn verdicts_are_meant()
    ensures meant { (text : List ℕ) → IsMeant text (verdict_of text) }
    ensures accepted { (text : List ℕ) (h : HeadValue) (count : ℕ) (t : StateValue) → head_of (lines_of text) ≡ Ok h →
        IsRunOf h count t → verdict_of text ≡ Ok (count, t) }
{}

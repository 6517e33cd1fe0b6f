//! What is in a page of a replay, for a reader of its text.

ghost use Rattle.std.specs.Prelude.{◌≡◌, ℕ, List, [], ◌∷◌, ◌++◌, Some, None, codes};
ghost use Rattle.std.specs.Fmt.{decimal};
ghost use Rattle.smp_mask.specs.declared.error.SmpError.{SmpError};
ghost use Rattle.smp_replay.specs.Text.{step_text};
ghost use Rattle.smp_words.specs.declared.seen.Seen.{Seen};
ghost use Rattle.trace_events.specs.declared.rows.Row.{Row};
ghost use Rattle.trace_events.specs.declared.rows.What.TheVariants as whats;
ghost use Rattle.view.specs.Cells.{meaning_of, refused_text};
ghost use Rattle.view.specs.Pages.{number_text, page_of, row_line};
ghost use Rattle.view.specs.declared.choice.Mark.TheVariants as marks;
ghost use Rattle.view.specs.declared.page_replay.TheConstants.{BEFORE_EVENTS, BEFORE_MARK, PARTS, REPLAY};
ghost use Rattle.view.specs.declared.page_script.TheConstants.{HELPERS, LANES};
ghost use Rattle.view.specs.declared.page_style.TheConstants.{STYLE};

/// A page has the script, then a line for each event in their order, then the number of the event at which it opens. That is the
/// last one, or the one of this number; without a mark there is a dash.
pub fn pages_have_all_events()
    ensures last { (text : List ℕ) (a b : Row) → page_of (Some marks.Last) text (a ∷ b ∷ [])
        ≡ STYLE.now ++ PARTS.now ++ text ++ BEFORE_EVENTS.now ++ (row_line a ++ (row_line b ++ [])) ++ BEFORE_MARK.now ++ decimal b.number
        ++ HELPERS.now ++ REPLAY.now ++ LANES.now }
    ensures event { (text : List ℕ) (a b : Row) (n : ℕ) → page_of (Some (marks.Event n)) text (a ∷ b ∷ [])
        ≡ STYLE.now ++ PARTS.now ++ text ++ BEFORE_EVENTS.now ++ (row_line a ++ (row_line b ++ [])) ++ BEFORE_MARK.now ++ decimal n
        ++ HELPERS.now ++ REPLAY.now ++ LANES.now }
    ensures unmarked { (text : List ℕ) (a b : Row) → page_of None text (a ∷ b ∷ [])
        ≡ STYLE.now ++ PARTS.now ++ text ++ BEFORE_EVENTS.now ++ (row_line a ++ (row_line b ++ [])) ++ BEFORE_MARK.now ++ codes "-"
        ++ HELPERS.now ++ REPLAY.now ++ LANES.now }
{}

/// The line of an event has its number, the script's line and its CPU. Behind these are the number found and the number put, each
/// a dash where there is none, and last what the step did.
pub fn lines_have_what_was_seen()
    ensures steps { (n l c : ℕ) (seen : Seen) → row_line (record { number = n; line = l; cpu = c; what = whats.Stepped seen })
        ≡ decimal n ++ codes " " ++ decimal l ++ codes " " ++ decimal c ++ codes " " ++ number_text seen.found ++ codes " " ++ number_text seen.put
        ++ codes " " ++ (step_text seen ++ meaning_of seen.note) ++ codes "\n" }
    ensures starts { (n l c : ℕ) → row_line (record { number = n; line = l; cpu = c; what = whats.Began })
        ≡ decimal n ++ codes " " ++ decimal l ++ codes " " ++ decimal c ++ codes " " ++ codes "-" ++ codes " " ++ codes "-" ++ codes " "
        ++ codes "starts" ++ codes "\n" }
    ensures refused { (n l c : ℕ) (error : SmpError) → row_line (record { number = n; line = l; cpu = c; what = whats.Refused error })
        ≡ decimal n ++ codes " " ++ decimal l ++ codes " " ++ decimal c ++ codes " " ++ codes "-" ++ codes " " ++ codes "-" ++ codes " "
        ++ refused_text error ++ codes "\n" }
    ensures numbers { (number_text None ≡ codes "-") × ((n : ℕ) → number_text (Some n) ≡ decimal n) }
{}

//! What is proved of the lines of a replay beside the contracts of the calls. These functions do nothing.

ghost use Rattle.std.specs.Fmt.{decimal};
ghost use Rattle.std.specs.Prelude.{◌≡◌, ℕ, [], ◌++◌, Option, Some, None, codes};
ghost use Rattle.smp_mask.specs.declared.error.SmpError.{SmpError};
ghost use Rattle.smp_words.specs.declared.seen.Act.{Act};
ghost use Rattle.smp_words.specs.declared.seen.Act.TheVariants.{Load, Store, Swap, Sub, And, Cas};
ghost use Rattle.smp_words.specs.declared.seen.Note.{Note};
ghost use Rattle.smp_words.specs.declared.seen.Seen.{Seen};
ghost use Rattle.smp_script.specs.Errors.{error_number};
ghost use Rattle.smp_script.specs.Printed.{note_text, word_text};
ghost use Rattle.smp_replay.specs.Text.{act_text, after_step, seen_text, step_text, stopped_text, value_text};

/// The word of each act, and no two acts have one word.
pub fn acts_have_words()
    ensures words { (act_text Load ≡ codes "load") × (act_text Store ≡ codes "store") × (act_text Swap ≡ codes "swap") × (act_text Sub ≡ codes "sub")
        × (act_text And ≡ codes "and") × (act_text Cas ≡ codes "cas") }
    ensures apart { (a b : Act) → act_text a ≡ act_text b → a ≡ b }
{}

/// The line of a step is `CPU ACT WORD VALUE`, with ` ; NOTE` behind it where the step has a note. VALUE is the number put by a
/// store, and else the number found; of a compare-exchange also the number put, or `kept`. A refused event prints `stopped I EN`.
pub fn lines_are_printed_so()
    ensures lines { (seen : Seen) → seen_text seen ≡ decimal seen.cpu ++ codes " " ++ step_text seen ++ codes "\n" }
    ensures steps { (seen : Seen) → step_text seen
        ≡ act_text seen.act ++ codes " " ++ word_text seen.word ++ codes " " ++ value_text seen.act seen.found seen.put ++ after_step seen.note }
    ensures values { (n : ℕ) → (found put : Option ℕ) → (value_text Store found (Some n) ≡ decimal n) × (value_text Load (Some n) put ≡ decimal n)
        × (value_text Swap (Some n) put ≡ decimal n) × (value_text Sub (Some n) put ≡ decimal n) × (value_text And (Some n) put ≡ decimal n) }
    ensures exchanges { (n m : ℕ) → (value_text Cas (Some n) (Some m) ≡ decimal n ++ codes " > " ++ decimal m)
        × (value_text Cas (Some n) None ≡ decimal n ++ codes " kept") }
    ensures notes { (after_step None ≡ []) × ((note : Note) → after_step (Some note) ≡ codes " ; " ++ note_text note) }
    ensures stopped { (i : ℕ) → (error : SmpError) → stopped_text i error
        ≡ codes "stopped " ++ decimal i ++ codes " E" ++ decimal (error_number error) ++ codes "\n" }
{}

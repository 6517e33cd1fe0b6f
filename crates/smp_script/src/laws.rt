//! What is proved of scripts beside the contracts of the calls.

ghost use Rattle.std.specs.Fmt.{decimal, signed_decimal};
ghost use Rattle.std.specs.Prelude.{◌≡◌, ◌↔◌, ℕ, ℤ, ◌≤◌, List, ◌++◌, Ok, Err, IsOk, codes};
ghost use Rattle.smp_mask.specs.declared.error.Cause.{Cause};
ghost use Rattle.smp_mask.specs.declared.error.Edge.{Edge};
ghost use Rattle.smp_mask.specs.declared.error.Side.{Side};
ghost use Rattle.smp_mask.specs.declared.error.SmpError.TheVariants as errors;
ghost use Rattle.smp_words.specs.declared.field.Field.{Field};
ghost use Rattle.smp_words.specs.declared.field.Field.TheVariants as fields;
ghost use Rattle.smp_words.specs.declared.seen.Note.{Note};
ghost use Rattle.smp_words.specs.declared.seen.Note.TheVariants as notes;
ghost use Rattle.smp_words.specs.declared.word.Word.TheVariants as words;
ghost use Rattle.smp_script.specs.declared.directive.Directive.{Directive};
ghost use Rattle.smp_script.specs.declared.mode.Mode.{Mode};
ghost use Rattle.smp_script.specs.declared.mode.Mode.TheVariants.{Replay, Run};
ghost use Rattle.smp_script.specs.declared.version.Version.TheVariants.{One, Two};
ghost use Rattle.smp_script.specs.Errors.{error_number};
ghost use Rattle.smp_script.specs.FirstFault.{IsFaultless, IsFirstFault, setting_in};
ghost use Rattle.smp_script.specs.Modes.{mode_text};
ghost use Rattle.smp_script.specs.Printed.{NoteFits, field_text, note_text, word_text};
ghost use Rattle.smp_script.specs.Script.{Script, script_of};
ghost use Rattle.smp_script.specs.Spelling.{IsLawful, IsSpelling, Masks, canonical_text};
ghost use Rattle.smp_script.specs.Versions.{limit_of, version_text};

/// For each kind of script: the canonical text of each script within the limits of its version reads back as that script. And a
/// text reads as a script exactly where it spells that script, with some CPU list of each mask in place of the canonical one.
pub fn scripts_are_spellings()
    ensures canonical { (mode : Mode) → (script : Script) → IsLawful mode script → script_of mode (canonical_text mode script) ≡ Ok script }
    ensures only { (mode : Mode) → (text : List ℕ) → (script : Script) → (script_of mode text ≡ Ok script)
        ↔ ((mask : List ℕ) × (lines : List (Masks × Directive)) × IsSpelling mode mask lines script text) }
{}

/// For each kind of script: a text is refused with a line and a cause exactly where these are its first fault: no line before has a fault,
/// and none of that line's comes earlier in the order. It reads as a script exactly where it has no fault at all.
/// How many CPUs it may speak of, its first line tells, and which of them are online its second.
pub fn first_faults_are_told()
    ensures first { (mode : Mode) → (text : List ℕ) → (n : ℕ) → (cause : Cause)
        → (script_of mode text ≡ Err (n, cause)) ↔ IsFirstFault (setting_in mode text) text n cause }
    ensures none { (mode : Mode) → (text : List ℕ) → IsOk (script_of mode text) ↔ IsFaultless (setting_in mode text) text }
{}

/// A script of version 1 is for 1 to 8 CPUs, and one of version 2 for 1 to 32. These are the words of the first line.
pub fn versions_have_limits()
    ensures limits { (limit_of One ≡ 8) × (limit_of Two ≡ 32) }
    ensures within { (mode : Mode) → (text : List ℕ) → (script : Script) → script_of mode text ≡ Ok script
        → (1 ≤ script.nr) × (script.nr ≤ limit_of script.version) }
    ensures versions { (version_text One ≡ codes "1") × (version_text Two ≡ codes "2") }
    ensures modes { (mode_text Replay ≡ codes "replay") × (mode_text Run ≡ codes "run") }
{}

/// The number of each error, as it is printed behind `E`.
pub fn errors_have_numbers()
    ensures of_calls { (error_number errors.NoCpu ≡ 1) × (error_number errors.Busy ≡ 2) × (error_number errors.BadArgument ≡ 4)
        × (error_number errors.Contended ≡ 5) × (error_number errors.NoMemory ≡ 6) × (error_number errors.IdleStep ≡ 10) }
    ensures of_stops { (error_number errors.NoStopper ≡ 3) × (error_number errors.Stale ≡ 7) × (error_number errors.SlotBusy ≡ 8)
        × ((edge : Edge) → error_number (errors.KeyRange edge) ≡ 13) }
    ensures of_texts { ((line : ℕ) → (cause : Cause) → error_number (errors.BadScript line cause) ≡ 9)
        × ((position : ℕ) → error_number (errors.BadMask position) ≡ 11) × ((side : Side) → error_number (errors.StreamFailed side) ≡ 12) }
{}

/// The name of each word, with its numbers in decimal.
pub fn words_have_names()
    ensures of_cpus { (c : ℕ) → (word_text (words.Head c) ≡ codes "head." ++ decimal c) × (word_text (words.Intr c) ≡ codes "intr." ++ decimal c)
        × (word_text (words.Hand c) ≡ codes "hand." ++ decimal c) }
    ensures tallies { (s d : ℕ) → (word_text (words.Queued s d) ≡ codes "queued." ++ decimal s ++ codes "." ++ decimal d)
        × (word_text (words.Ran d s) ≡ codes "ran." ++ decimal d ++ codes "." ++ decimal s) }
    ensures of_records { (r : ℕ) → (word_text (words.Flags r) ≡ codes "flags." ++ decimal r) × (word_text (words.Func r) ≡ codes "func." ++ decimal r)
        × (word_text (words.Info r) ≡ codes "info." ++ decimal r) × (word_text (words.Next r) ≡ codes "next." ++ decimal r) }
    ensures gate { word_text words.Gate ≡ codes "gate" }
    ensures slots { (s : ℕ) → (f : Field) → word_text (words.Slot s f) ≡ codes "slot." ++ decimal s ++ codes "." ++ field_text f }
    ensures work { (field_text fields.Kind ≡ codes "kind") × (field_text fields.Mask ≡ codes "mask") × (field_text fields.Active ≡ codes "active")
        × (field_text fields.Func ≡ codes "func") × (field_text fields.Arg ≡ codes "arg") }
    ensures phases { (field_text fields.State ≡ codes "state") × (field_text fields.Ack ≡ codes "ack") × (field_text fields.Roll ≡ codes "roll") }
    ensures ends { (field_text fields.Todo ≡ codes "todo") × (field_text fields.Result ≡ codes "result") × (field_text fields.Done ≡ codes "done") }
    ensures labels { (i : ℕ) → (word_text (words.Key i) ≡ codes "key." ++ decimal i) × (word_text (words.Entry i) ≡ codes "entry." ++ decimal i)
        × (word_text (words.Site i) ≡ codes "site." ++ decimal i) }
{}

/// The text of each note.
pub fn notes_have_texts()
    ensures posts { (note_text notes.Busy ≡ codes "E2") × (note_text notes.NoCpu ≡ codes "E1") × (note_text notes.Owed ≡ codes "owed")
        × (note_text notes.Queued ≡ codes "queued") × (note_text notes.Contended ≡ codes "E5") }
    ensures calls { (note_text notes.Sent ≡ codes "sent") × (note_text notes.Done ≡ codes "done") × (note_text notes.Locked ≡ codes "locked")
        × (note_text notes.Idle ≡ codes "idle") × ((n : ℕ) → note_text (notes.Handled n) ≡ codes "handled " ++ decimal n) }
    ensures functions { (s f i : ℕ) →
        (note_text (notes.Call s f i) ≡ codes "call " ++ decimal s ++ codes " " ++ decimal f ++ codes " " ++ decimal i)
        × (note_text (notes.Run f i) ≡ codes "run " ++ decimal f ++ codes " " ++ decimal i) }
    ensures gates { (note_text notes.Gate ≡ codes "gate") × (note_text notes.Taken ≡ codes "taken") × (note_text notes.Open ≡ codes "open")
        × (note_text notes.Begun ≡ codes "begun") × (note_text notes.Stale ≡ codes "E7") × (note_text notes.Entered ≡ codes "entered") }
    ensures phases { (note_text notes.Same ≡ codes "same") × ((p : ℕ) → note_text (notes.Moved p) ≡ codes "moved " ++ decimal p)
        × (note_text notes.Ran ≡ codes "ran") × (note_text notes.Left ≡ codes "left") }
    ensures ends { (note_text notes.Finished ≡ codes "finished") × (note_text notes.Pending ≡ codes "pending")
        × ((z : ℤ) → note_text (notes.Result z) ≡ codes "result " ++ signed_decimal z) }
    ensures labels { (note_text notes.On ≡ codes "on") × (note_text notes.Off ≡ codes "off") × (note_text notes.Nop ≡ codes "NOP")
        × (note_text notes.Jmp ≡ codes "JMP") × (note_text notes.KeyRange ≡ codes "E13") × (note_text notes.Stop ≡ codes "stop")
        × (note_text notes.Lost ≡ codes "lost") }
{}

/// No two notes have one text.
pub fn notes_are_told_apart()
    ensures { (m n : Note) → NoteFits m → NoteFits n → note_text m ≡ note_text n → m ≡ n }
{}

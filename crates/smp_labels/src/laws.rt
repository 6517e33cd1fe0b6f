//! The label law in its cases, as a function that does nothing and whose contract is the law.

ghost use Rattle.std.specs.Prelude.{◌≡◌, ◌≢◌, ℕ, ◌+◌, ◌*◌, ◌<◌, ◌≤◌, true, false, None, Some};
ghost use Rattle.smp_labels.specs.Entries.{entry_at, entry_word};
ghost use Rattle.smp_labels.specs.Keys.{change_of, change_word, count_after, edge_of};
ghost use Rattle.smp_labels.specs.Kinds.{kind_word};
ghost use Rattle.smp_labels.specs.Law.{IsLawful, Table};
ghost use Rattle.smp_labels.specs.PlanOrder.{PlansAreInOrder};
ghost use Rattle.smp_labels.specs.Sites.{SitesJump};
ghost use Rattle.smp_labels.specs.declared.entries.Entry.{Entry};
ghost use Rattle.smp_labels.specs.declared.keys.Change.TheVariants.{Off, On, Up, Down};
ghost use Rattle.smp_labels.specs.declared.kinds.SiteKind.TheVariants.{Nop, Jmp};
ghost use Rattle.smp_mask.specs.declared.error.Edge.TheVariants.{Full, Zero};

/// A site of a lawful table jumps (1) exactly where its key and its branch differ, and else goes on (0): with branch 0,
/// where the key's count is above 0; with branch 1, where it is 0 (`kernel/jump_label.c: jump_label_type`).
pub fn sites_jump()
    ensures { SitesJump }
{}

/// Nothing follows the last entry of a lawful table: behind an entry word of 0 each of the 16 is 0.
pub fn tables_are_packed()
    ensures { (t : Table) → IsLawful t → (i j : ℕ) → i < j → j < 16 → t.entry i ≡ 0 → t.entry j ≡ 0 }
{}

/// The number of each change of a key and of each kind of site; a change is read back from its number.
pub fn changes_have_numbers()
    ensures changes { (change_word Off ≡ 0) × (change_word On ≡ 1) × (change_word Up ≡ 2) × (change_word Down ≡ 3) }
    ensures read { (change_of 0 ≡ Off) × (change_of 1 ≡ On) × (change_of 2 ≡ Up) × (change_of 3 ≡ Down) }
    ensures kinds { (kind_word Nop ≡ 0) × (kind_word Jmp ≡ 1) }
{}

/// The count of a key after each change. Off leaves 0. On leaves a count above 0 as it was, and 1 for 0. Up is one more, but
/// for 65,535, and down one less, but for 0; there the change is refused by that end of the range.
pub fn counts_change_so()
    ensures off { (n : ℕ) → count_after Off n ≡ Some 0 }
    ensures on { (count_after On 0 ≡ Some 1) × ((n : ℕ) → n ≢ 0 → count_after On n ≡ Some n) }
    ensures up { ((n : ℕ) → n < 65535 → count_after Up n ≡ Some (n + 1)) × (count_after Up 65535 ≡ None) × (edge_of Up ≡ Full) }
    ensures down { (count_after Down 0 ≡ None) × ((n : ℕ) → count_after Down (n + 1) ≡ Some n) × (edge_of Down ≡ Zero) }
{}

/// The word of an entry with key k: 2k + 1 with branch 0, and 2k + 2 with branch 1. Each is read back, and 0 is of no entry.
pub fn entries_have_numbers()
    ensures words { (k : ℕ) → (entry_word (record { key = k; branch = false }) ≡ 2 * k + 1) × (entry_word (record { key = k; branch = true }) ≡ 2 * k + 2) }
    ensures read { (e : Entry) → entry_at (entry_word e) ≡ Some e }
    ensures none { entry_at 0 ≡ None }
{}

/// A patch stores the key's word first, and then the words of its sites, ascending (`kernel/jump_label.c: jump_label_update`).
pub fn plans_are_in_order()
    ensures { PlansAreInOrder }
{}

//! The kind of a site.

ghost use Rattle.std.specs.Prelude.{◌≡◌};
ghost use Rattle.smp_labels.specs.Kinds.{kind_of, kind_word, kind_at};

/// What is at a site, as Linux's `enum jump_label_type` (`include/linux/jump_label.h`).
#[derive(Clone, Copy, Debug, PartialEq, Eq)]
pub enum SiteKind {
    /// The code goes on: `JUMP_LABEL_NOP`, 0.
    Nop = 0,
    /// The code jumps: `JUMP_LABEL_JMP`, 1.
    Jmp = 1,
}

impl SiteKind {
    /// The site's word.
    pub fn word(self) -> u64
        ensures { result ≡ kind_word self }
    {
        self as u64
    }

    /// The kind that a site's word says. Each word but 0 is a jump.
    pub fn from_word(word: u64) -> SiteKind
        ensures { result ≡ kind_at word }
    {
        if word == 0 {
            SiteKind::Nop
        } else {
            SiteKind::Jmp
        }
    }
}

/// The kind of a site, from its key and the branch that it was declared with: a jump where the two
/// differ, as `kernel/jump_label.c: jump_label_type`.
pub fn kind_of(enabled: bool, branch: bool) -> SiteKind
    ensures { result ≡ kind_of enabled branch }
{
    if enabled != branch {
        SiteKind::Jmp
    } else {
        SiteKind::Nop
    }
}

//! Lists of kinds.

ghost use Rattle.std.specs.Prelude.{◌≡◌, ◌==◌, [], option_map};
ghost use Rattle.std.specs.List.{slice_split};
ghost use Rattle.ifs_asm.specs.inner.Words.{kind_in, kinds_in, kinds_from, with_kind};
ghost use Rattle.ifs_asm.specs.inner.Forms.{kinds_by, parts_left};

use crate::lists::cut_at_comma;
use crate::words::{is, value_of};
use ifs_base::Kind;
use ifs_image::Kinds;

/// A list of kinds.
#[derive(Drop)]
pub(crate) struct KindsForm {
    /// The kinds, the topmost last. If there are more than four, the first four.
    pub kinds: Kinds,
    /// Whether there are four kinds at most.
    pub fits: bool,
}

/// Reads a list: a dash, or kinds with commas between them. Returns `None` if the word is no list.
pub(crate) fn kinds_of(word: &[u8]) -> Option<KindsForm>
    ensures { kinds_by result ≡ kinds_in word.now }
{
    if is(word, b"-") {
        return Some(KindsForm::new());
    }
    each_of(word)
}

/// Reads kinds with commas between them.
fn each_of(word: &[u8]) -> Option<KindsForm>
    ensures { kinds_by result ≡ kinds_from [] (slice_split (λ byte. byte == 44) word.now) }
{
    let mut list = KindsForm::new();
    let mut left = Some(word);
    while let Some(text) = left {
        let (part, rest) = cut_at_comma(text);
        list.add(kind_of(part)?);
        left = rest;
    }
    Some(list)
}

/// The kind that a word names.
fn kind_of(word: &[u8]) -> Option<Kind>
    ensures { result ≡ kind_in word.now }
{
    value_of!(word;
        b"truth" => Kind::Truth,
        b"command" => Kind::Command,
        b"state" => Kind::StateName,
    )
}

impl KindsForm {
    ghost use Rattle.std.specs.Prelude.{Some, [], option_and_then};
    ghost use Rattle.ifs_asm.specs.inner.Words.{with_kind};
    ghost use Rattle.ifs_asm.specs.inner.Forms.{kinds_by};

    /// The empty list.
    fn new() -> Self
        ensures { kinds_by (Some result) ≡ Some [] }
    {
        KindsForm {
            kinds: Kinds::new(),
            fits: true,
        }
    }

    /// Adds a kind on top if there is room.
    fn add(&mut self, kind: Kind)
        ensures { kinds_by (Some self.new) ≡ option_and_then (λ kinds. with_kind kinds kind) (kinds_by (Some self.old)) }
    {
        if self.kinds.is_full() {
            self.fits = false;
        } else {
            self.kinds.push(kind);
        }
    }
}

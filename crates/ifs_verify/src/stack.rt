//! The kinds on the stack at a place.

use ifs_base::Kind;
use std::marker::Model;

/// A list of kinds, topmost first, in an array. The array has room for four results above the stack's limit of
/// 32, so that a list may pass the limit before it is reported.
#[derive(Drop)]
pub struct Stack {
    kinds: [Kind; 36],
    len: usize,
}

impl Model for Stack {
    ghost use Rattle.std.specs.Prelude.{◌≡◌, ◌≤◌, List, length, reverse, take};
    ghost use Rattle.ifs_base.specs.declared.op.Kind.{Kind};

    ghost Value = { List Kind };

    ghost view = { λ s. reverse (take s.len s.kinds) };

    ghost invariant = { λ s. (s.len ≤ 36) × (length s.kinds ≡ 36) };
}

impl Stack {
    ghost use Rattle.std.specs.Prelude.{◌≡◌, ◌+◌, ◌<◌, ◌≤◌, ◌↔◌, IsTrue, [], ◌∷◌, ◌++◌};
    ghost use Rattle.std.specs.Prelude.{length, reverse, Some, None, IfSome, MatchOption};
    ghost use Rattle.ifs_base.specs.Kinds.{without};
    ghost use Rattle.ifs_verify.specs.inner.Passes.{LacksTop};

    /// The empty list.
    pub fn new() -> Self
        ensures { result ≡ [] }
    {
        Stack {
            kinds: [Kind::Truth; 36],
            len: 0,
        }
    }

    /// The number of kinds.
    pub fn len(&self) -> usize
        ensures value { result ≡ length self.now }
        ensures room { length self.now ≤ 36 }
    {
        self.len
    }

    /// A copy of the list.
    pub fn copied(&self) -> Self
        ensures { result ≡ self.now }
    {
        Stack {
            kinds: self.kinds,
            len: self.len,
        }
    }

    /// Puts a kind on top.
    pub fn push(&mut self, kind: Kind)
        requires { length self.old < 36 }
        ensures { self.new ≡ kind ∷ self.old }
    {
        self.kinds[self.len] = kind;
        self.len += 1;
    }

    /// Takes the topmost kind off.
    pub fn pop(&mut self) -> Option<Kind>
        ensures { MatchOption result ((self.old ≡ []) × (self.new ≡ [])) (λ kind. self.old ≡ kind ∷ self.new) }
    {
        if self.len == 0 {
            return None;
        }
        self.len -= 1;
        Some(self.kinds[self.len])
    }

    /// Takes a kind off the top; `None` if there is none or another kind.
    pub fn take(&mut self, kind: Kind) -> Option<()>
        ensures { MatchOption result (LacksTop kind self.old) (λ _. self.old ≡ kind ∷ self.new) }
    {
        let top = self.pop()?;
        if top != kind {
            return None;
        }
        Some(())
    }

    /// Takes kinds off the top, the last of them topmost; `None` if one is missing or of another kind. The list is
    /// unspecified then.
    #[inline(never)]
    pub fn take_all(&mut self, kinds: &[Kind]) -> Option<()>
        ensures left { MatchOption result (without (reverse kinds.now) self.old ≡ None) (λ _. without (reverse kinds.now) self.old ≡ Some self.new) }
        ensures short { IfSome result (λ _. length self.new ≤ length self.old) }
    {
        let mut left = kinds.len();
        while left > 0 {
            left -= 1;
            self.take(kinds[left])?;
        }
        Some(())
    }

    /// Puts kinds on top, the last of them topmost.
    pub fn push_all(&mut self, kinds: &[Kind])
        requires { length self.old + length kinds.now ≤ 36 }
        ensures { self.new ≡ reverse kinds.now ++ self.old }
    {
        for index in 0..kinds.len() {
            self.push(kinds[index]);
        }
    }

    /// Whether the list has exactly these kinds, the last of them topmost.
    pub fn is_of(&self, kinds: &[Kind]) -> bool
        ensures { IsTrue result ↔ (self.now ≡ reverse kinds.now) }
    {
        self.kinds[..self.len] == kinds[..]
    }

    /// Whether both lists are the same.
    pub fn is_same(&self, other: &Stack) -> bool
        ensures { IsTrue result ↔ (self.now ≡ other.now) }
    {
        self.kinds[..self.len] == other.kinds[..other.len]
    }
}

//! The parts of an image in place, in its bytes.

ghost use Rattle.std.specs.Prelude.{◌≡◌, ◌<◌, ◌+◌, ◌^◌, ◌↔◌, Some, All, [], slice_get, length, IsTrue};
ghost use Rattle.ifs_base.specs.Spelling.{op_of};
ghost use Rattle.ifs_image.specs.Lent.{ops_in, IsInstruction};

use crate::decoding::known_op;
use crate::parts::{Budgets, Handlers, Kinds};
use ifs_base::{Items, Op, StateId};
use std::marker::Model;

/// A text in place. Contracts see its bytes.
#[derive(Debug, Drop)]
pub struct LentText<'a> {
    text: &'a str,
}

impl<'a> Model for LentText<'a> {
    ghost use Rattle.std.specs.Prelude.{List, ℕ};

    ghost Value = { List ℕ };

    ghost view = { λ t. t.text.now };
}

impl<'a> LentText<'a> {
    /// A text in place.
    pub fn new(text: &'a str) -> Self
        ensures { result ≡ text.now }
    {
        LentText { text }
    }

    /// Borrows the text.
    pub fn as_str(&self) -> &'a str
        ensures { result.now ≡ self.now }
    {
        self.text
    }

    /// Borrows the bytes of the text.
    pub fn as_bytes(&self) -> &'a [u8]
        ensures { result.now ≡ self.now }
    {
        self.text.as_bytes()
    }
}

/// An external test whose command is in place. Contracts see the test.
#[derive(Debug, Drop)]
pub struct LentTest<'a> {
    /// Seconds from one start to the next.
    pub period: u32,
    /// The command.
    pub text: LentText<'a>,
}

impl<'a> Model for LentTest<'a> {
    ghost use Rattle.ifs_image.specs.declared.parts.TestSpec.{TestSpec};

    ghost Value = { TestSpec };

    ghost view = { λ t. record { period = t.period; text = t.text } };
}

/// A state whose name is in place. Contracts see the state.
#[derive(Debug, Drop)]
pub struct LentState<'a> {
    /// Its name.
    pub name: LentText<'a>,
    /// Its code.
    pub handlers: Handlers,
}

impl<'a> Model for LentState<'a> {
    ghost use Rattle.ifs_image.specs.declared.parts.StateSpec.{StateSpec};

    ghost Value = { StateSpec };

    ghost view = { λ s. record { name = s.name; handlers = s.handlers } };
}

/// Instructions in place. Contracts see their list.
#[derive(Debug, Drop)]
pub struct LentCode<'a> {
    words: &'a [[u8; 4]],
}

impl<'a> Model for LentCode<'a> {
    ghost use Rattle.std.specs.Prelude.{List, All};
    ghost use Rattle.ifs_base.specs.declared.op.Op.{Op};
    ghost use Rattle.ifs_image.specs.Lent.{ops_in, IsInstruction};

    ghost Value = { List Op };

    ghost view = { λ c. ops_in c.words.now };

    ghost invariant = { λ c. All IsInstruction c.words.now };
}

impl<'a> LentCode<'a> {
    /// Instructions in place.
    pub(crate) fn new(words: &'a [[u8; 4]]) -> Self
        requires { All IsInstruction words.now }
        ensures { result ≡ ops_in words.now }
    {
        LentCode { words }
    }

    /// The number of instructions.
    pub fn len(&self) -> usize
        ensures { result ≡ length self.now }
    {
        let words = self.words;
        words.len()
    }

    /// Whether there are none.
    pub fn is_empty(&self) -> bool
        ensures { IsTrue result ↔ (self.now ≡ []) }
    {
        let words = self.words;
        words.is_empty()
    }

    /// The four bytes of the instruction at a place.
    pub fn word(&self, place: usize) -> [u8; 4]
        requires { place < length self.now }
        ensures word { slice_get self.now place ≡ op_of result }
        // The next place is in the range of a number too.
        ensures next { place + 1 < 2 ^ 64 }
    {
        let words = self.words;
        words[place]
    }

    /// The instruction at a place.
    pub fn op(&self, place: usize) -> Op
        requires { place < length self.now }
        ensures op { slice_get self.now place ≡ Some result }
        // The next place is in the range of a number too.
        ensures next { place + 1 < 2 ^ 64 }
    {
        known_op(self.word(place))
    }

    /// The same instructions, borrowed again.
    pub fn again(&self) -> LentCode<'a>
        ensures { result ≡ self.now }
    {
        let words = self.words;
        LentCode { words }
    }
}

/// A routine whose code is in place. Contracts see the routine.
#[derive(Debug, Drop)]
pub struct LentRoutine<'a> {
    /// Its parameters, at most 4, the topmost last.
    pub params: Kinds,
    /// Its results, at most 4, the topmost last.
    pub results: Kinds,
    /// Its instructions.
    pub code: LentCode<'a>,
}

impl<'a> Model for LentRoutine<'a> {
    ghost use Rattle.ifs_image.specs.declared.parts.Routine.{Routine};

    ghost Value = { Routine };

    ghost view = { λ r. record { params = r.params; results = r.results; code = r.code } };
}

/// All parts of an image, with its texts and code in place. Contracts see the image.
#[derive(Debug)]
pub struct LentParts<'a> {
    pub version: u8,
    pub budgets: Budgets,
    pub initial: StateId,
    pub always: Handlers,
    pub interfaces: Items<LentText<'a>>,
    pub tests: Items<LentTest<'a>>,
    pub commands: Items<LentText<'a>>,
    pub states: Items<LentState<'a>>,
    pub routines: Items<LentRoutine<'a>>,
}

impl<'a> Drop for LentParts<'a> {
    fn drop(self) {
        let LentParts {
            version: _version,
            budgets: _budgets,
            initial: _initial,
            always: _always,
            interfaces: _interfaces,
            tests: _tests,
            commands: _commands,
            states: _states,
            routines: _routines,
        } = self;
    }
}

impl<'a> Model for LentParts<'a> {
    ghost use Rattle.ifs_image.specs.declared.parts.ImageParts.{ImageParts};

    ghost Value = { ImageParts };

    ghost view = { λ p. record {
      version = p.version;
      budgets = p.budgets;
      initial = p.initial;
      always = p.always;
      interfaces = p.interfaces;
      tests = p.tests;
      commands = p.commands;
      states = p.states;
      routines = p.routines;
    } };
}

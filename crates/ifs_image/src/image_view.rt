//! An image in place, in its bytes.

ghost use Rattle.std.specs.Prelude.{◌≡◌, ◌<◌, ◌≤◌, Some, IfSome, length, slice_get, option_map, position};
ghost use Rattle.std.specs.Str.{bytes_eq};
ghost use Rattle.ifs_image.specs.Code.{code_of, op_at};

use crate::lent::{LentCode, LentParts, LentText};
use crate::parts::{Budgets, Handlers};
use ifs_base::{Kind, Op, StateId};
use std::marker::Model;

/// An image in place: it borrows its texts and instructions from its bytes. Contracts see its parts, which fit the
/// limits of the format and have distinct names. No method allocates.
#[derive(Debug)]
pub struct ImageView<'a> {
    parts: LentParts<'a>,
}

impl<'a> Drop for ImageView<'a> {
    fn drop(self) {
        let ImageView { parts: _parts } = self;
    }
}

impl<'a> Model for ImageView<'a> {
    ghost use Rattle.ifs_image.specs.declared.parts.ImageParts.{ImageParts};
    ghost use Rattle.ifs_image.specs.Limits.{Fits};

    ghost Value = { ImageParts };

    ghost view = { λ v. v.parts };

    ghost invariant = { λ v. Fits v.parts };
}

impl<'a> ImageView<'a> {
    ghost use Rattle.ifs_image.specs.Limits.{Fits};

    /// The image of these parts, which fit.
    pub(crate) fn new(parts: LentParts<'a>) -> Self
        requires { Fits parts }
        ensures { result ≡ parts.entry }
    {
        ImageView { parts }
    }

    /// Borrows the parts.
    pub(crate) fn parts(&self) -> &LentParts<'a>
        ensures value { result.now ≡ self.now }
        ensures fits { Fits self.now }
    {
        &self.parts
    }

    /// The version of the format, 1 or 2.
    pub fn version(&self) -> u8
        ensures { result ≡ self.now.version }
    {
        self.parts.version
    }

    /// The stated limits of one event.
    pub fn budgets(&self) -> Budgets
        ensures { result ≡ self.now.budgets }
    {
        self.parts.budgets
    }

    /// The state that a policy starts in.
    pub fn initial(&self) -> StateId
        ensures { result ≡ self.now.initial }
    {
        self.parts.initial
    }

    /// The handlers of the part outside all states.
    pub fn always(&self) -> Handlers
        ensures { result ≡ self.now.always }
    {
        self.parts.always
    }

    /// The number of interfaces, at most 64.
    pub fn interfaces(&self) -> usize
        ensures { result ≡ length self.now.interfaces }
    {
        self.parts.interfaces.len()
    }

    /// The name of an interface.
    pub fn interface(&self, index: usize) -> &'a str
        requires { index < length self.now.interfaces }
        ensures { slice_get self.now.interfaces index ≡ Some result.now }
    {
        let name = &self.parts.interfaces.as_slice()[index];
        name.as_str()
    }

    /// The index of the first interface of this name, byte by byte; `None` if there is none.
    pub fn interface_index(&self, name: &[u8]) -> Option<usize>
        ensures found { result ≡ position (λ other. bytes_eq other name.now) self.now.interfaces }
        ensures within { IfSome result (λ index. index < length self.now.interfaces) }
    {
        index_of(self.parts.interfaces.as_slice(), name)
    }

    /// The number of tests, at most 64.
    pub fn tests(&self) -> usize
        ensures { result ≡ length self.now.tests }
    {
        self.parts.tests.len()
    }

    /// The period of a test, in seconds, from 1 to 604,800.
    pub fn test_period(&self, index: usize) -> u32
        requires { index < length self.now.tests }
        ensures { option_map (λ test. test.period) (slice_get self.now.tests index) ≡ Some result }
    {
        let test = &self.parts.tests.as_slice()[index];
        test.period
    }

    /// The command of a test.
    pub fn test_text(&self, index: usize) -> &'a str
        requires { index < length self.now.tests }
        ensures { option_map (λ test. test.text) (slice_get self.now.tests index) ≡ Some result.now }
    {
        let test = &self.parts.tests.as_slice()[index];
        test.text.as_str()
    }

    /// The number of commands, at most 1,024.
    pub fn commands(&self) -> usize
        ensures { result ≡ length self.now.commands }
    {
        self.parts.commands.len()
    }

    /// The text of a command.
    pub fn command(&self, index: usize) -> &'a str
        requires { index < length self.now.commands }
        ensures { slice_get self.now.commands index ≡ Some result.now }
    {
        let text = &self.parts.commands.as_slice()[index];
        text.as_str()
    }

    /// The number of states, from 1 to 256.
    pub fn states(&self) -> usize
        ensures { result ≡ length self.now.states }
    {
        self.parts.states.len()
    }

    /// The name of a state.
    pub fn state_name(&self, index: usize) -> &'a str
        requires { index < length self.now.states }
        ensures { option_map (λ state. state.name) (slice_get self.now.states index) ≡ Some result.now }
    {
        let state = &self.parts.states.as_slice()[index];
        state.name.as_str()
    }

    /// The handlers of a state.
    pub fn state_handlers(&self, index: usize) -> Handlers
        requires { index < length self.now.states }
        ensures { option_map (λ state. state.handlers) (slice_get self.now.states index) ≡ Some result }
    {
        let state = &self.parts.states.as_slice()[index];
        state.handlers
    }

    /// The number of routines, at most 1,024.
    pub fn routines(&self) -> usize
        ensures { result ≡ length self.now.routines }
    {
        self.parts.routines.len()
    }

    /// The parameters of a routine, at most 4, the topmost last.
    pub fn params(&self, index: usize) -> &[Kind]
        requires { index < length self.now.routines }
        ensures value { option_map (λ routine. routine.params.items) (slice_get self.now.routines index) ≡ Some result.now }
        ensures few { length result.now ≤ 4 }
    {
        let routine = &self.parts.routines.as_slice()[index];
        routine.params.as_slice()
    }

    /// The results of a routine, at most 4, the topmost last.
    pub fn results(&self, index: usize) -> &[Kind]
        requires { index < length self.now.routines }
        ensures value { option_map (λ routine. routine.results.items) (slice_get self.now.routines index) ≡ Some result.now }
        ensures few { length result.now ≤ 4 }
    {
        let routine = &self.parts.routines.as_slice()[index];
        routine.results.as_slice()
    }

    /// The code of a routine, at most 1,024 instructions.
    pub fn code(&self, index: usize) -> LentCode<'a>
        requires { index < length self.now.routines }
        ensures { result ≡ code_of self.now index }
    {
        let routine = &self.parts.routines.as_slice()[index];
        routine.code.again()
    }

    /// The number of instructions of a routine.
    pub fn code_len(&self, index: usize) -> usize
        requires { index < length self.now.routines }
        ensures { result ≡ length (code_of self.now index) }
    {
        let routine = &self.parts.routines.as_slice()[index];
        routine.code.len()
    }

    /// The instruction at a place of a routine.
    pub fn op(&self, index: usize, place: usize) -> Op
        requires { place < length (code_of self.now index) }
        ensures { op_at self.now index place ≡ Some result }
    {
        let routine = &self.parts.routines.as_slice()[index];
        routine.code.op(place)
    }
}

/// The index of the first name that equals this one, byte by byte.
fn index_of(names: &[LentText<'_>], name: &[u8]) -> Option<usize>
    ensures found { result ≡ position (λ other. bytes_eq other name.now) names.now }
    ensures within { IfSome result (λ index. index < length names.now) }
{
    names.iter().position(|other| other.as_bytes() == name)
}

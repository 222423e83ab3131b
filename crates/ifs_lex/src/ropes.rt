//! The values of macros. Values share the values of the macros that they use.

ghost use Rattle.std.specs.Prelude.{◌≡◌, ◌<◌, ◌+◌, ◌^◌, ◌++◌, ◌∷◌, [], map, length, IfOk, OnOk};
ghost use Rattle.std.specs.List.{All};
ghost use Rattle.ifs_lex.specs.Expansion.{token};
ghost use Rattle.ifs_lex.specs.inner.Ropes.{whats_at, stacked, weight, weights, Holds, KeepsRopes};

use crate::pieces::text_from;
use crate::token::{Token, What};
use ifs_base::Span;
use std::alloc::{AllocError, Global};
use std::marker::Model;

/// No token, one token, or two earlier cells in sequence.
#[derive(Drop)]
pub enum Cell {
    Empty,
    Leaf(What),
    Both(usize, usize),
}

/// The tokens of a cell, and their number.
#[derive(Clone, Copy)]
pub struct Rope {
    pub root: usize,
    pub count: usize,
}

/// Copies a token.
fn copied(alloc: Global, what: &What) -> Result<What, AllocError>
    ensures { IfOk result (λ made. made ≡ what.now) }
{
    Ok(match what {
        What::Word(text) => What::Word(text_from(alloc, text.as_str())?),
        What::Quoted(text) => What::Quoted(text_from(alloc, text.as_str())?),
        What::BraceOpen => What::BraceOpen,
        What::BraceClose => What::BraceClose,
        What::ParenOpen => What::ParenOpen,
        What::ParenClose => What::ParenClose,
        What::Dot => What::Dot,
        What::Equals => What::Equals,
        What::Bang => What::Bang,
        What::And => What::And,
        What::Or => What::Or,
        What::End => What::End,
    })
}

/// The cells of all values. Clauses see the tokens of each cell.
pub struct Ropes {
    cells: Vec<Cell>,
}

impl Drop for Ropes {
    fn drop(self) {
        let Ropes { cells: _cells } = self;
    }
}

impl Model for Ropes {
    ghost use Rattle.std.specs.Prelude.{List, [], ◌<◌, length};
    ghost use Rattle.ifs_lex.specs.declared.token.What.{What};
    ghost use Rattle.ifs_lex.specs.inner.Ropes.{ropes_from, AreEarlier};

    ghost Value = { List (List What) };

    ghost view = { λ r. ropes_from [] r.cells.items };

    ghost invariant = { λ r. AreEarlier r.cells.items };
}

impl Rope {
    /// No token. It is the first cell.
    pub const EMPTY: Rope = Rope { root: 0, count: 0 };
}

impl Ropes {
    /// Makes ropes with the empty rope at 0.
    pub fn new(alloc: Global) -> Result<Self, AllocError>
        ensures { IfOk result (λ made. made ≡ [] ∷ []) }
    {
        let mut cells = Vec::new(alloc);
        cells.push(Cell::Empty)?;
        Ok(Ropes { cells })
    }

    /// Makes a rope of one token.
    pub fn leaf(&mut self, what: What) -> Result<Rope, AllocError>
        ensures made { IfOk result (λ rope. Holds self.new rope) }
        ensures whats { IfOk result (λ rope. whats_at self.new rope.root ≡ what ∷ []) }
        ensures keeps { KeepsRopes self.old self.new }
    {
        let root = self.cells.len();
        self.cells.push(Cell::Leaf(what))?;
        Ok(Rope { root, count: 1 })
    }

    /// Joins two ropes. If one is empty, the result is the other.
    pub fn both(&mut self, left: Rope, right: Rope) -> Result<Rope, AllocError>
        requires left_holds { Holds self.old left }
        requires right_holds { Holds self.old right }
        requires fits { left.count + right.count < 2 ^ 64 }
        ensures made { IfOk result (λ rope. Holds self.new rope) }
        ensures whats { IfOk result (λ rope. whats_at self.new rope.root ≡ whats_at self.old left.root ++ whats_at self.old right.root) }
        ensures keeps { KeepsRopes self.old self.new }
    {
        if left.count == 0 {
            return Ok(right);
        }
        if right.count == 0 {
            return Ok(left);
        }
        let root = self.cells.len();
        self.cells.push(Cell::Both(left.root, right.root))?;
        Ok(Rope {
            root,
            count: left.count + right.count,
        })
    }

    fn put(
        &self,
        alloc: Global,
        number: usize,
        span: Span,
        left: &mut Vec<usize>,
        tokens: &mut Vec<Token>,
    ) -> Result<(), AllocError>
        requires within { number < length self.now }
        requires all_within { All (λ n. n < length self.now) left.old.items }
        ensures all_within { OnOk result (All (λ n. n < length self.now) left.new.items) }
        ensures whole { OnOk
            result
            (tokens.new.items ++ map (token span) (stacked self.now left.new.items)
            ≡ tokens.old.items ++ map (token span) (whats_at self.now number ++ stacked self.now left.old.items)) }
        ensures lighter { OnOk result (weights left.new.items < weight number + weights left.old.items) }
    {
        match &self.cells[number] {
            Cell::Empty => Ok(()),
            Cell::Leaf(what) => {
                let what = copied(alloc, what)?;
                tokens.push(Token {
                    what,
                    span,
                    number: 0,
                })?;
                Ok(())
            }
            Cell::Both(first, second) => {
                left.push(*second)?;
                left.push(*first)?;
                Ok(())
            }
        }
    }

    /// Appends the tokens of a rope to `tokens`, all with one span.
    pub fn give_out(
        &self,
        alloc: Global,
        root: usize,
        span: Span,
        tokens: &mut Vec<Token>,
    ) -> Result<(), AllocError>
        requires { root < length self.now }
        ensures { OnOk result (tokens.new.items ≡ tokens.old.items ++ map (token span) (whats_at self.now root)) }
    {
        let mut left = Vec::new(alloc);
        left.push(root)?;
        while let Some(number) = left.pop() {
            self.put(alloc, number, span, &mut left, tokens)?;
        }
        Ok(())
    }
}

//! The macros that are known at a place of a text.

ghost use Rattle.std.specs.Prelude.{◌≡◌, ℕ, List, Some};
ghost use Rattle.std.specs.HashMap as hash;
ghost use Rattle.std.specs.Str.{bytes_eq};
ghost use Rattle.ifs_lex.specs.declared.macros.Entry.{Entry};
ghost use Rattle.ifs_lex.specs.inner.Kept.{IsValue};

use crate::cursor::Cursor;
use crate::fault::LexFault;
use crate::limits::{MAX_MACROS, MAX_TEXT, MAX_TOKENS};
use crate::pieces::{Piece, quoted_value, text_from, what_of};
use crate::ropes::{Rope, Ropes};
use crate::token::{Token, What};
use ifs_base::Span;
use std::alloc::{AllocError, Global};
use std::collections::HashMap;

/// The value of a macro, and whether it was given beside the text.
#[derive(Clone, Copy)]
pub struct Entry {
    pub rope: Rope,
    pub given: bool,
}

/// The macros by name, and their values.
#[derive(Drop)]
pub struct MacroTable<'a> {
    table: HashMap<&'a str, Entry>,
    ropes: Ropes,
    ghost values: { (name : List ℕ) (entry : Entry) → hash.get_by (λ k. bytes_eq name k.now) table ≡ Some entry → IsValue ropes entry.rope },
    ghost empty: { IsValue ropes (record { root = 0; count = 0 }) },
}

impl<'a> MacroTable<'a> {
    ghost use Rattle.std.specs.Prelude.{◌≢◌, ◌+◌, ◌≤◌, ◌++◌, ◌∷◌, [], length, map, option_map};
    ghost use Rattle.std.specs.Prelude.{◌||◌, nat_lt, is_some, Ok, IfOk, IfSome, OnOk};
    ghost use Rattle.ifs_lex.specs.Expansion.{no_macros, with_macro, whats_of, joined};
    ghost use Rattle.ifs_lex.specs.Expansion.{value_of, defined, is_given, known_as, token};
    ghost use Rattle.ifs_lex.specs.inner.Pieces.{lexeme_of};
    ghost use Rattle.ifs_lex.specs.inner.Ropes.{whats_at, KeepsRopes};
    ghost use Rattle.ifs_lex.specs.inner.Kept.{macro_of, whats_of_rope, IsAsWanted};
    ghost use Rattle.ifs_lex.specs.inner.Known.{macros_of};

    /// Makes a table without macros.
    pub fn new(alloc: Global) -> Result<Self, AllocError>
        ensures { IfOk result (λ made. macros_of made ≡ no_macros) }
    {
        Ok(MacroTable {
            table: HashMap::new(alloc),
            ropes: Ropes::new(alloc)?,
        })
    }

    /// Returns the macro of a name, if it is known.
    pub fn get(&self, name: &str) -> Option<Entry>
        ensures known { option_map (macro_of self.now.ropes) result ≡ (macros_of self.now).known name.now }
        ensures value { IfSome result (λ entry. IsValue self.now.ropes entry.rope) }
    {
        self.table.get(name).copied()
    }

    /// Appends the tokens of a value to `tokens`, all with one span.
    pub fn give_out(
        &self,
        alloc: Global,
        rope: Rope,
        span: Span,
        tokens: &mut Vec<Token>,
    ) -> Result<(), AllocError>
        requires { IsValue self.now.ropes rope }
        ensures { OnOk result (tokens.new.items ≡ tokens.old.items ++ map (token span) (whats_at self.now.ropes rope.root)) }
    {
        self.ropes.give_out(alloc, rope.root, span, tokens)?;
        Ok(())
    }

    fn leaf(&mut self, what: What) -> Result<Rope, AllocError>
        ensures whats { IfOk result (λ rope. whats_at self.new.ropes rope.root ≡ what ∷ []) }
        ensures value { IfOk result (λ rope. IsValue self.new.ropes rope) }
        ensures keeps { KeepsRopes self.old.ropes self.new.ropes }
        ensures same { macros_of self.new ≡ macros_of self.old }
    {
        let rope = self.ropes.leaf(what)?;
        Ok(rope)
    }

    fn both(&mut self, left: Rope, right: Rope) -> Result<Rope, AllocError>
        requires left_value { IsValue self.old.ropes left }
        requires right_value { IsValue self.old.ropes right }
        requires within { left.count + right.count ≤ 16384 }
        ensures whats { IfOk result (λ rope. whats_at self.new.ropes rope.root ≡ whats_at self.old.ropes left.root ++ whats_at self.old.ropes right.root) }
        ensures value { IfOk result (λ rope. IsValue self.new.ropes rope) }
        ensures keeps { KeepsRopes self.old.ropes self.new.ropes }
        ensures same { macros_of self.new ≡ macros_of self.old }
    {
        let rope = self.ropes.both(left, right)?;
        Ok(rope)
    }

    /// Makes a rope of a piece of a value. Returns `None` if a value may not have this piece.
    #[tactic(auto, using(crate::proofs::Signs::sign_whats))]
    fn part(&mut self, alloc: Global, piece: Piece<'_>) -> Result<Option<Rope>, AllocError>
        ensures whats { IfOk result (λ part. option_map (whats_of_rope self.new.ropes) part ≡ whats_of (macros_of self.old) (lexeme_of piece.entry)) }
        ensures value { IfOk result (λ part. IfSome part (λ rope. IsValue self.new.ropes rope)) }
        ensures keeps { KeepsRopes self.old.ropes self.new.ropes }
        ensures same { macros_of self.new ≡ macros_of self.old }
    {
        match piece {
            Piece::Word(word) => {
                let rope = self.leaf(What::Word(text_from(alloc, word)?))?;
                Ok(Some(rope))
            }
            Piece::Quoted(quote, inside) => {
                let rope = self.leaf(What::Quoted(quoted_value(alloc, quote, inside)?))?;
                Ok(Some(rope))
            }
            Piece::Use(name) => match self.get(name) {
                Some(entry) => Ok(Some(entry.rope)),
                None => Ok(None),
            },
            Piece::Equals => Ok(None),
            Piece::Sign(sign) => {
                let rope = self.leaf(what_of(sign))?;
                Ok(Some(rope))
            }
            Piece::End => Ok(Some(Rope::EMPTY)),
            Piece::Stray => Ok(None),
            Piece::Unclosed => Ok(None),
        }
    }

    /// Appends a piece to what was read of a value.
    fn longer(
        &mut self,
        alloc: Global,
        before: Rope,
        piece: Piece<'_>,
    ) -> Result<Option<Rope>, AllocError>
        requires { IsValue self.old.ropes before }
        ensures whats { IfOk result (λ more. option_map (whats_of_rope self.new.ropes) more ≡ joined (whats_of_rope self.old.ropes before) (whats_of (macros_of self.old) (lexeme_of piece.entry))) }
        ensures value { IfOk result (λ more. IfSome more (λ rope. IsValue self.new.ropes rope)) }
        ensures keeps { KeepsRopes self.old.ropes self.new.ropes }
        ensures same { macros_of self.new ≡ macros_of self.old }
    {
        match self.part(alloc, piece)? {
            Some(part) => {
                if before.count + part.count > MAX_TOKENS {
                    return Ok(None);
                }
                let rope = self.both(before, part)?;
                Ok(Some(rope))
            }
            None => Ok(None),
        }
    }

    /// Reads a value. Returns `None` if its text is no list of tokens.
    #[tactic(auto, unfolding(crate::specs::Expansion::value_of))]
    fn value_of(&mut self, alloc: Global, text: &str) -> Result<Option<Rope>, AllocError>
        ensures whats { IfOk result (λ value. option_map (whats_of_rope self.new.ropes) value ≡ value_of (macros_of self.old) text.now) }
        ensures value { IfOk result (λ value. IfSome value (λ rope. IsValue self.new.ropes rope)) }
        ensures keeps { KeepsRopes self.old.ropes self.new.ropes }
        ensures same { macros_of self.new ≡ macros_of self.old }
    {
        if text.len() > MAX_TEXT {
            return Ok(None);
        }
        let mut cursor = Cursor::start(text);
        let mut rope = Rope::EMPTY;
        'lexemes: loop {
            let piece = cursor.next().piece;
            match self.longer(alloc, rope, piece)? {
                Some(more) => {
                    if piece.is_last() {
                        return Ok(Some(more));
                    }
                    rope = more;
                }
                None => return Ok(None),
            }
        }
    }

    /// Returns whether the name is known, or the table may have one name more.
    fn has_room(&self, name: &str) -> bool
        ensures { result ≡ (is_some ((macros_of self.now).known name.now) || nat_lt (macros_of self.now).count 256) }
    {
        self.table.len() < MAX_MACROS || self.get(name).is_some()
    }

    /// Returns whether the name was given beside the text.
    fn is_given(&self, name: &str) -> bool
        ensures { result ≡ is_given (macros_of self.now) name.now }
    {
        match self.get(name) {
            Some(entry) => entry.given,
            None => false,
        }
    }

    fn put(&mut self, line: u32, name: &'a str, entry: Entry) -> Result<(), LexFault>
        requires { IsValue self.old.ropes entry.rope }
        ensures { IsAsWanted
            (λ done. macros_of self.new)
            result
            (known_as line entry.given name.now (Some (whats_of_rope self.old.ropes entry.rope)) (macros_of self.old)) }
    {
        if self.has_room(name) {
            self.table.insert(name, entry)?;
            return Ok(());
        }
        Err(LexFault::OverLimit { line })
    }

    /// Reads a definition. It changes nothing if the name was given beside the text.
    #[tactic(auto, unfolding(crate::specs::Expansion::defined))]
    pub fn define(
        &mut self,
        alloc: Global,
        line: u32,
        given: bool,
        name: &'a str,
        value: &str,
    ) -> Result<(), LexFault>
        ensures { IsAsWanted (λ done. macros_of self.new) result (defined line given name.now value.now (macros_of self.old)) }
    {
        if self.is_given(name) {
            return Ok(());
        }
        match self.value_of(alloc, value)? {
            Some(rope) => match self.put(line, name, Entry { rope, given }) {
                Ok(()) => Ok(()),
                Err(fault) => Err(fault),
            },
            None => Err(LexFault::BadMacro { line }),
        }
    }
}

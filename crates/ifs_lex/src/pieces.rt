//! The first piece of a text.

ghost use Rattle.std.specs.Prelude.{◌≡◌, ◌<◌, ◌≤◌, ◌+◌, ◌++◌, ◌∷◌, length, IfOk, IfSome, MatchOption};
ghost use Rattle.ifs_lex.specs.Lexemes as lexemes;
ghost use Rattle.ifs_lex.specs.inner.Pieces.{lexeme_of, kept_len, what_of};

use crate::characters::{
    begins_name, begins_word, is_macro_name, is_quote, is_reserved, name_run, word_run,
};
use crate::scans::{begins_with, inside_len, is_dropped};
use crate::token::What;
use ifs_base::Text;
use memchr::memchr2;
use std::alloc::{AllocError, Global};

/// A sign other than `=`.
#[derive(Clone, Copy)]
pub enum Sign {
    BraceOpen,
    BraceClose,
    ParenOpen,
    ParenClose,
    Dot,
    Bang,
    And,
    Or,
}

/// A piece of a text, borrowed from it.
#[derive(Clone, Copy)]
pub enum Piece<'a> {
    /// A word.
    Word(&'a str),
    /// A quoted text: its quote, and the text between the quotes.
    Quoted(u8, &'a str),
    /// A use of the macro of this name.
    Use(&'a str),
    /// `=`
    Equals,
    /// Another sign.
    Sign(Sign),
    /// The end of the text.
    End,
    /// A character that begins no lexeme.
    Stray,
    /// A quote that no other quote closes.
    Unclosed,
}

/// Returns the token of a sign.
pub fn what_of(sign: Sign) -> What
    ensures { result ≡ what_of sign }
{
    match sign {
        Sign::BraceOpen => What::BraceOpen,
        Sign::BraceClose => What::BraceClose,
        Sign::ParenOpen => What::ParenOpen,
        Sign::ParenClose => What::ParenClose,
        Sign::Dot => What::Dot,
        Sign::Bang => What::Bang,
        Sign::And => What::And,
        Sign::Or => What::Or,
    }
}

/// Copies a text.
pub fn text_from(alloc: Global, text: &str) -> Result<Text, AllocError>
    ensures { IfOk result (λ made. made ≡ text.now) }
{
    Ok(Text::new(String::from_str(alloc, text)?))
}

impl<'a> Piece<'a> {
    ghost use Rattle.ifs_lex.specs.Expansion as expansion;
    ghost use Rattle.std.specs.Prelude.{option_map};

    /// Returns the name that the piece can give to a macro.
    #[tactic(auto, using(crate::proofs::Signs::sign_name))]
    pub fn name(&self) -> Option<&'a str>
        ensures { option_map (λ name. name.now) result ≡ expansion.macro_name_of (lexeme_of self.now) }
    {
        match *self {
            Piece::Word(word) => {
                if is_macro_name(word) && !is_reserved(word) {
                    return Some(word);
                }
                None
            }
            _ => None,
        }
    }

    /// Returns whether the piece is the sign `=`.
    #[tactic(auto, using(crate::proofs::Signs::sign_equals))]
    pub fn is_equals(&self) -> bool
        ensures { result ≡ expansion.is_equals (lexeme_of self.now) }
    {
        matches!(*self, Piece::Equals)
    }

    /// Returns whether the lexer stops after the piece.
    #[tactic(auto, using(crate::proofs::Signs::sign_last))]
    pub fn is_last(&self) -> bool
        ensures { result ≡ lexemes.is_last (lexeme_of self.now) }
    {
        matches!(*self, Piece::End | Piece::Stray | Piece::Unclosed)
    }

    /// Returns the text that the piece can give to a macro.
    #[tactic(auto, using(crate::proofs::Signs::sign_text))]
    pub fn text(&self, alloc: Global) -> Result<Option<Text>, AllocError>
        ensures { IfOk result (λ text. text ≡ expansion.macro_text_of (lexeme_of self.now)) }
    {
        match *self {
            Piece::Word(word) => {
                if is_reserved(word) {
                    return Ok(None);
                }
                Ok(Some(text_from(alloc, word)?))
            }
            Piece::Quoted(quote, inside) => Ok(Some(quoted_value(alloc, quote, inside)?)),
            _ => Ok(None),
        }
    }
}

/// Returns the offset of the first byte that is no part of the value, if there is one.
fn kept_len(quote: u8, bytes: &[u8]) -> Option<usize>
    ensures { result ≡ kept_len quote bytes.now }
{
    let mut from = 0;
    while let Some(ahead) = memchr2(b'\n', b'\\', bytes.split_at(from).1) {
        let place = from + ahead;
        if is_dropped(quote, bytes[place], bytes.split_at(place + 1).1) {
            return Some(place);
        }
        from = place + 1;
    }
    None
}

/// Splits a text at the first byte that is no part of the value, if there is one. It drops that byte.
fn split_kept(quote: u8, text: &str) -> Option<(&str, &str)>
    ensures value { MatchOption
        result
        (lexemes.quoted_value quote text.now ≡ text.now)
        (λ parts. lexemes.quoted_value quote text.now ≡ parts.0.now ++ lexemes.quoted_value quote parts.1.now) }
    ensures shorter { IfSome result (λ parts. length parts.1.now < length text.now) }
{
    match kept_len(quote, text.as_bytes()) {
        Some(len) => {
            let (kept, dropped) = text.split_at(len);
            Some((kept, dropped.split_at(1).1))
        }
        None => None,
    }
}

/// Returns the value of the text between two quotes.
pub fn quoted_value(alloc: Global, quote: u8, inside: &str) -> Result<Text, AllocError>
    ensures { IfOk result (λ value. value ≡ lexemes.quoted_value quote inside.now) }
{
    let mut value = String::new(alloc);
    let mut left = inside;
    while let Some((kept, rest)) = split_kept(quote, left) {
        value.push_str(kept)?;
        left = rest;
    }
    value.push_str(left)?;
    Ok(Text::new(value))
}

fn word_here(text: &str) -> (Piece<'_>, usize)
    ensures lexeme { lexeme_of result.0 ≡ (lexemes.word_here text.now).lexeme }
    ensures len { result.1 ≡ (lexemes.word_here text.now).len }
{
    let len = word_run(text.as_bytes());
    (Piece::Word(text.split_at(len).0), len)
}

fn quoted_here(quote: u8, rest: &str) -> (Piece<'_>, usize)
    requires { quote < 128 }
    ensures lexeme { lexeme_of result.0 ≡ (lexemes.quoted_here quote rest.now).lexeme }
    ensures len { result.1 ≡ (lexemes.quoted_here quote rest.now).len }
{
    match inside_len(quote, rest.as_bytes()) {
        Some(len) => (Piece::Quoted(quote, rest.split_at(len).0), len + 2),
        None => (Piece::Unclosed, 0),
    }
}

fn use_here(rest: &str) -> (Piece<'_>, usize)
    ensures lexeme { lexeme_of result.0 ≡ (lexemes.use_here rest.now).lexeme }
    ensures len { result.1 ≡ (lexemes.use_here rest.now).len }
{
    match rest.as_bytes() {
        [first, ..] if begins_name(*first) => {
            let len = name_run(rest.as_bytes());
            (Piece::Use(rest.split_at(len).0), 1 + len)
        }
        _ => (Piece::Stray, 0),
    }
}

fn twice(byte: u8, sign: Sign, rest: &[u8]) -> (Piece<'static>, usize)
    ensures lexeme { lexeme_of result.0 ≡ (lexemes.twice byte (what_of sign) rest.now).lexeme }
    ensures len { result.1 ≡ (lexemes.twice byte (what_of sign) rest.now).len }
{
    if begins_with(byte, rest) {
        (Piece::Sign(sign), 2)
    } else {
        (Piece::Stray, 0)
    }
}

fn sign_here(byte: u8, rest: &[u8]) -> (Piece<'static>, usize)
    ensures lexeme { lexeme_of result.0 ≡ (lexemes.sign_here byte rest.now).lexeme }
    ensures len { result.1 ≡ (lexemes.sign_here byte rest.now).len }
{
    match byte {
        b'{' => (Piece::Sign(Sign::BraceOpen), 1),
        b'}' => (Piece::Sign(Sign::BraceClose), 1),
        b'(' => (Piece::Sign(Sign::ParenOpen), 1),
        b')' => (Piece::Sign(Sign::ParenClose), 1),
        b'.' => (Piece::Sign(Sign::Dot), 1),
        b'=' => (Piece::Equals, 1),
        b'!' => (Piece::Sign(Sign::Bang), 1),
        b'&' => twice(b'&', Sign::And, rest),
        b'|' => twice(b'|', Sign::Or, rest),
        _ => (Piece::Stray, 0),
    }
}

#[tactic(auto, unfolding(crate::specs::Lexemes::lexeme_here), using(crate::proofs::Boundaries::quote_ascii))]
/// Returns the first piece of a text that begins with no blank and no comment, and its number of bytes.
pub fn piece_here(text: &str) -> (Piece<'_>, usize)
    ensures lexeme { lexeme_of result.0 ≡ (lexemes.lexeme_here text.now).lexeme }
    ensures len { result.1 ≡ (lexemes.lexeme_here text.now).len }
{
    match text.as_bytes() {
        [] => (Piece::End, 0),
        [first, ..] if begins_word(*first) => word_here(text),
        [first, ..] if is_quote(*first) => quoted_here(*first, text.split_at(1).1),
        [b'$', ..] => use_here(text.split_at(1).1),
        [first, rest @ ..] => sign_here(*first, rest),
    }
}

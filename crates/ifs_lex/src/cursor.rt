//! A cursor in a text. It reads one lexeme after another.

ghost use Rattle.std.specs.Prelude.{◌≡◌, ◌==◌, ◌≤◌, ◌+◌, count_by, length};
ghost use Rattle.std.specs.Str.{IsCharBoundary};
ghost use Rattle.ifs_lex.specs.inner.Pieces.{spanned_of};

use crate::pieces::{Piece, piece_here};
use crate::scans::gap_len;
use ifs_base::Span;
use std::marker::Model;

/// A piece of a text, and its place.
#[derive(Clone, Copy)]
pub struct Lexeme<'a> {
    pub piece: Piece<'a>,
    pub span: Span,
}

/// The bytes whose newlines are counted at once. A byte can count them.
const BLOCK: usize = 255;

/// Counts the newlines of a block. The count is a byte, so that a vector instruction adds many.
fn newlines_of_block(bytes: &[u8]) -> u8
    requires { length bytes.now ≤ 255 }
    ensures { result ≡ count_by (λ b. b == 10) bytes.now }
{
    let mut count = 0;
    for byte in bytes {
        count += u8::from(*byte == b'\n');
    }
    count
}

/// Counts the newlines.
fn newlines(bytes: &[u8]) -> u32
    requires { length bytes.now ≤ 1048576 }
    ensures { result ≡ count_by (λ b. b == 10) bytes.now }
{
    let mut count = 0;
    let mut left = bytes;
    while left.len() > BLOCK {
        let (block, rest) = left.split_at(BLOCK);
        count += u32::from(newlines_of_block(block));
        left = rest;
    }
    count + u32::from(newlines_of_block(left))
}

/// A cursor in a text of at most 1,048,576 bytes: the text after it, its offset, and its line, from 1.
#[derive(Drop)]
pub struct Cursor<'a> {
    left: &'a str,
    at: u32,
    line: u32,
}

impl<'a> Model for Cursor<'a> {
    ghost use Rattle.std.specs.Prelude.{◌+◌, ◌≤◌, length};
    ghost use Rattle.ifs_lex.specs.Lexemes as lexemes;

    ghost Value = { lexemes.TextCursor };

    ghost view = { λ p. record { at = p.at; line = p.line; left = p.left.now } };

    ghost invariant = { λ p. (p.at + length p.left.now ≤ 1048576) × (p.line ≤ p.at + 1) };
}

impl<'a> Cursor<'a> {
    ghost use Rattle.ifs_lex.specs.Lexemes as lexemes;

    /// Makes a cursor at the start of a text.
    pub fn start(text: &'a str) -> Self
        requires { length text.now ≤ 1048576 }
        ensures { result ≡ lexemes.start text.now }
    {
        Cursor {
            left: text,
            at: 0,
            line: 1,
        }
    }

    /// Copies the cursor, to look ahead.
    pub fn again(&self) -> Self
        ensures { result ≡ self.now }
    {
        Cursor {
            left: self.left,
            at: self.at,
            line: self.line,
        }
    }

    fn skip(&mut self, count: usize)
        requires { IsCharBoundary self.old.left count }
        ensures { self.new ≡ lexemes.past count self.old }
    {
        let (front, left) = self.left.split_at(count);
        self.line += newlines(front.as_bytes());
        self.at += count as u32;
        self.left = left;
    }

    /// Skips blanks and comments, and reads the next lexeme.
    pub fn next(&mut self) -> Lexeme<'a>
        ensures found { spanned_of result ≡ lexemes.lexeme_at self.old }
        ensures after { self.new ≡ lexemes.after_lexeme self.old }
    {
        let gap = gap_len(self.left.as_bytes());
        self.skip(gap);
        let (line, start) = (self.line, self.at);
        let (piece, len) = piece_here(self.left);
        self.skip(len);
        Lexeme {
            piece,
            span: Span {
                line,
                start,
                end: self.at,
            },
        }
    }
}

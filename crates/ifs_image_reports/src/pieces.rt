//! Pieces of sentences, and how they are written.

use crate::counted::{put_counted, put_hexadecimal, put_there, put_word};
use crate::field::{Field, put_field};
use crate::instruction::{put_kinds, put_op};
use ifs_base::{Kind, Op};
use ifs_terminal::Shown;
use std::alloc::AllocError;

/// A piece of a sentence.
#[derive(Clone, Copy)]
pub(crate) enum Piece<'a> {
    Words(&'static str),
    Number(u64),
    /// A number of things of a name, as `4 states`.
    Counted(usize, &'static str),
    /// How many things of a name there are, as `there are 4 states`.
    There(usize, &'static str),
    /// Bytes, in two hexadecimal digits each.
    Bytes(&'a [u8]),
    /// A word of a text, between backticks.
    Word(&'a [u8]),
    /// A name, between quotes.
    Name(&'a str),
    /// The name of a field.
    Field(Field),
    /// An instruction, between backticks.
    Op(Op),
    /// Kinds, between backticks.
    Kinds(&'a [Kind]),
}

impl Piece<'_> {
    fn put(self, out: &mut String) -> Result<(), AllocError> {
        match self {
            Piece::Words(words) => out.push_str(words),
            Piece::Number(number) => write!(out, "{number}"),
            Piece::Counted(count, name) => put_counted(out, count, name),
            Piece::There(count, name) => put_there(out, count, name),
            Piece::Bytes(bytes) => put_hexadecimal(out, bytes),
            Piece::Word(word) => put_word(out, word),
            Piece::Name(name) => write!(out, "{}", Shown(name)),
            Piece::Field(field) => put_field(out, field),
            Piece::Op(op) => put_op(out, op),
            Piece::Kinds(kinds) => put_kinds(out, kinds),
        }
    }
}

/// Adds pieces, one after the other.
pub(crate) fn put(out: &mut String, pieces: &[Piece<'_>]) -> Result<(), AllocError> {
    for piece in pieces {
        piece.put(out)?;
    }
    Ok(())
}

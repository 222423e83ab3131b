//! The tokens of `if COND { }`, by those of COND.

ghost use Rattle.std.specs.Prelude.{◌≡◌, ◌∷◌, ◌++◌, [], codes, IfOk, OnOk};
ghost use Rattle.ifs_claim_parse.specs.Conditions.{whats};

use ifs_base::{Span, Text};
use ifs_lex::{Token, What};
use std::alloc::{AllocError, Global};

/// A copy of a token without its place.
fn copied(what: &What) -> Result<What, AllocError>
    ensures { IfOk result (λ copy. copy ≡ what.now) }
{
    match what {
        What::Word(word) => Ok(What::Word(word.clone()?)),
        What::Quoted(text) => Ok(What::Quoted(text.clone()?)),
        What::BraceOpen => Ok(What::BraceOpen),
        What::BraceClose => Ok(What::BraceClose),
        What::ParenOpen => Ok(What::ParenOpen),
        What::ParenClose => Ok(What::ParenClose),
        What::Dot => Ok(What::Dot),
        What::Equals => Ok(What::Equals),
        What::Bang => Ok(What::Bang),
        What::And => Ok(What::And),
        What::Or => Ok(What::Or),
        What::End => Ok(What::End),
    }
}

/// The place of a token that is in no text.
pub const NOWHERE: Span = Span {
    line: 0,
    start: 0,
    end: 0,
};

/// Appends a token with its number.
pub fn put(tokens: &mut Vec<Token>, what: What) -> Result<(), AllocError>
    ensures { OnOk result (whats tokens.new.items ≡ whats tokens.old.items ++ (what ∷ [])) }
{
    let number = tokens.len();
    tokens.push(Token {
        what,
        span: NOWHERE,
        number,
    })?;
    Ok(())
}

/// The word `if`.
fn word_if(alloc: Global) -> Result<What, AllocError>
    ensures { IfOk result (λ what. what ≡ What.Word (codes "if")) }
{
    Ok(What::Word(Text::new(String::from_str(alloc, "if")?)))
}

/// `if` and copies of tokens, which have the numbers from 1 on.
pub fn behind_if(alloc: Global, tokens: &[Token]) -> Result<Vec<Token>, AllocError>
    ensures { IfOk result (λ made. whats made.items ≡ What.Word (codes "if") ∷ whats tokens.now) }
{
    let mut made = Vec::new(alloc);
    put(&mut made, word_if(alloc)?)?;
    for token in tokens {
        put(&mut made, copied(&token.what)?)?;
    }
    Ok(made)
}

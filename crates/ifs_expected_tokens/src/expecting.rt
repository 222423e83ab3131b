//! What can come behind tokens: a token can if the parser does not stop at it.

ghost use Rattle.std.specs.Prelude.{◌≡◌, ◌≢◌, ◌<◌, ◌+◌, ◌^◌, ◌∷◌, ◌++◌, [], None, IfOk, IfSome, IsTrue, false};
ghost use Rattle.ifs_lex.specs.Expansion.{EndsOnce, is_end};
ghost use Rattle.ifs_parse.specs.Files.{File};
ghost use Rattle.ifs_parse.specs.Grammar.{GoesOn, NoneGoesOn, Says};
ghost use Rattle.ifs_parse.specs.Words.{fits_period};
ghost use Rattle.ifs_expected_tokens.specs.Expected.{AreExpectedAs, CanGoOn, CannotGoOn, IsFront, StopsOn};
ghost use Rattle.ifs_expected_tokens.specs.inner.Shorter.{IsFrontBelow};

use crate::kind::{KINDS, Kind, what_of};
use ifs_base::Span;
use ifs_lex::{Token, What};
use ifs_parse::parse;
use std::alloc::{AllocError, Global};

/// The place of a token that is tried, and of the end behind it.
const TRIED: Span = Span {
    line: 1,
    start: 0,
    end: 0,
};

/// Whether each token has its number, and none is the end.
pub fn is_front(tokens: &[Token]) -> bool
    ensures front { IsTrue result → IsFront tokens.now }
    ensures all { IsFront tokens.now → IsTrue result }
{
    let mut number = 0;
    let mut left = tokens;
    'tokens: while let [first, rest @ ..] = left {
        if first.number != number || is_end(&first.what) {
            return false;
        }
        number += 1;
        left = rest;
    }
    true
}

/// Whether a token is the end of the text.
fn is_end(what: &What) -> bool
    ensures { result ≡ is_end what.now }
{
    matches!(what, What::End)
}

/// Reads tokens, and returns the number of the token at which they stop, if they do.
pub(crate) fn number_of_stop(alloc: Global, tokens: &[Token]) -> Result<Option<usize>, AllocError>
    requires { EndsOnce tokens.now }
    ensures said { IfOk result (λ found. found ≡ None → (file : File) × Says tokens.now file) }
    ensures stops { IfOk result (λ found. IfSome found (λ number. StopsOn tokens.now number)) }
{
    match parse(alloc, tokens) {
        Ok(_tree) => Ok(None),
        Err(fault) => match fault.place() {
            Some(place) => Ok(Some(place.number)),
            None => Err(AllocError),
        },
    }
}

/// Reads tokens with an end behind them that has this number, and returns the number of the token at which they stop, if they do.
fn stop_before_end(
    alloc: Global,
    front: &mut Vec<Token>,
    end: usize,
) -> Result<Option<usize>, AllocError>
    requires { IsFrontBelow end front.old.items }
    ensures same { IfOk result (λ _. front.new.items ≡ front.old.items) }
    ensures said { IfOk result (λ found. found ≡ None → CanGoOn front.old.items) }
    ensures can { IfOk result (λ found. IfSome found (λ number. number ≡ end → CanGoOn front.old.items)) }
    ensures cannot { IfOk result (λ found. IfSome found (λ number. number ≢ end → CannotGoOn front.old.items)) }
    ensures empty { front.old.items ≡ [] → IfOk result (λ found. IfSome found (λ number. number ≡ end)) }
{
    let count = front.len();
    front.push(Token {
        what: What::End,
        span: TRIED,
        number: end,
    })?;
    let found = number_of_stop(alloc, front.as_slice())?;
    front.truncate(count);
    Ok(found)
}

/// Whether tokens can go on. Their numbers are below that of the end.
fn can_go_on(alloc: Global, front: &mut Vec<Token>, end: usize) -> Result<bool, AllocError>
    requires { IsFrontBelow end front.old.items }
    ensures same { IfOk result (λ _. front.new.items ≡ front.old.items) }
    ensures can { IfOk result (λ yes. IsTrue yes → CanGoOn front.old.items) }
    ensures cannot { IfOk result (λ yes. yes ≡ false → CannotGoOn front.old.items) }
    // Some tokens say a file.
    ensures empty { front.old.items ≡ [] → IfOk result (λ yes. IsTrue yes) }
{
    match stop_before_end(alloc, front, end)? {
        None => Ok(true),
        Some(number) => Ok(number == end),
    }
}

/// Whether a token that is not the end can come behind tokens with lower numbers.
fn goes_on(alloc: Global, front: &mut Vec<Token>, token: Token) -> Result<bool, AllocError>
    requires front { IsFrontBelow token.number front.old.items }
    requires room { token.number + 1 < 2 ^ 64 }
    requires inner { is_end token.what ≡ false }
    ensures same { IfOk result (λ _. front.new.items ≡ front.old.items) }
    ensures can { IfOk result (λ yes. IsTrue yes → GoesOn fits_period 32 front.old.items token) }
    ensures cannot { IfOk result (λ yes. yes ≡ false → NoneGoesOn fits_period 32 front.old.items token) }
{
    let count = front.len();
    let end = token.number + 1;
    front.push(token)?;
    let goes_on = can_go_on(alloc, front, end)?;
    front.truncate(count);
    Ok(goes_on)
}

/// Whether the end can come behind tokens with numbers below its own.
fn ends(
    alloc: Global,
    front: &mut Vec<Token>,
    span: Span,
    number: usize,
) -> Result<bool, AllocError>
    requires { IsFrontBelow number front.old.items }
    ensures same { IfOk result (λ _. front.new.items ≡ front.old.items) }
    ensures can { IfOk result (λ yes. IsTrue yes → GoesOn fits_period 32 front.old.items (record { what = What.End; span = span; number = number })) }
    ensures cannot { IfOk result (λ yes. yes ≡ false → NoneGoesOn fits_period 32 front.old.items (record { what = What.End; span = span; number = number })) }
    ensures said { IfOk result (λ yes. IsTrue yes → (file : File) × Says (front.old.items ++ record { what = What.End; span = span; number = number } ∷ []) file) }
{
    let count = front.len();
    front.push(Token {
        what: What::End,
        span,
        number,
    })?;
    let found = number_of_stop(alloc, front.as_slice())?;
    front.truncate(count);
    match found {
        None => Ok(true),
        Some(_number) => Ok(false),
    }
}

/// Whether a token can come behind tokens with lower numbers.
fn can_follow(alloc: Global, front: &mut Vec<Token>, token: Token) -> Result<bool, AllocError>
    requires front { IsFrontBelow token.number front.old.items }
    requires room { token.number + 1 < 2 ^ 64 }
    ensures same { IfOk result (λ _. front.new.items ≡ front.old.items) }
    ensures can { IfOk result (λ yes. IsTrue yes → GoesOn fits_period 32 front.old.items token) }
    ensures cannot { IfOk result (λ yes. yes ≡ false → NoneGoesOn fits_period 32 front.old.items token) }
{
    match token.what {
        What::End => ends(alloc, front, token.span, token.number),
        what => goes_on(
            alloc,
            front,
            Token {
                what,
                span: token.span,
                number: token.number,
            },
        ),
    }
}

/// The kinds of tokens that can come behind tokens with numbers below this one. Each is tried.
pub(crate) fn kinds_tried(
    alloc: Global,
    front: &mut Vec<Token>,
    number: usize,
) -> Result<Vec<Kind>, AllocError>
    requires front { IsFrontBelow number front.old.items }
    requires room { number + 1 < 2 ^ 64 }
    ensures same { IfOk result (λ _. front.new.items ≡ front.old.items) }
    ensures expected { IfOk result (λ kinds. AreExpectedAs number front.old.items kinds.items) }
{
    let mut kinds = Vec::new(alloc);
    let mut left: &[Kind] = &KINDS;
    'kinds: while let Some((kind, rest)) = left.split_first() {
        let what = what_of(alloc, *kind)?;
        let tried = Token {
            what,
            span: TRIED,
            number,
        };
        if can_follow(alloc, front, tried)? {
            kinds.push(*kind)?;
        }
        left = rest;
    }
    Ok(kinds)
}

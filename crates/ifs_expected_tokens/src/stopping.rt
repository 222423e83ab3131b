//! The token at which the grammar stops, and what could be there.

ghost use Rattle.std.specs.Prelude.{◌≡◌, ◌≢◌, List, None, IfOk, IfSome};
ghost use Rattle.ifs_lex.specs.Expansion.{EndsOnce, HasTokens, defined_by};
ghost use Rattle.ifs_lex.specs.Numbered.{AreNumbered};
ghost use Rattle.ifs_parse.specs.Grammar.{StopsAt};
ghost use Rattle.ifs_expected_tokens.specs.Expected.{AreExpected, IsFront, StopsBy};

use crate::expecting::is_front;
use crate::kind::Kind;
use crate::shortening::kinds_behind;
use ifs_base::Span;
use ifs_lex::{LexFault, Token, TokenPlace, tokens};
use ifs_parse::ParseFault;
use std::alloc::{AllocError, Global};

/// The place where the tokens of a text stop following the grammar.
#[derive(Debug, Drop)]
pub struct Stop {
    /// The number of the first token that cannot be where it is, from 0.
    pub index: usize,
    /// Its place. That of a macro's token is the use of the macro.
    pub span: Span,
    /// The kinds of tokens that can.
    pub kinds: Vec<Kind>,
}

/// The place where tokens stop, by the fault with which the parser refuses them. The only error is a failed allocation.
pub fn stop_of(
    alloc: Global,
    tokens: &mut Vec<Token>,
    fault: ParseFault,
) -> Result<Option<Stop>, AllocError>
    ensures same { IfOk result (λ _. tokens.new.items ≡ tokens.old.items) }
    // The tokens before the place can go on, but not with the next one. The kinds are exactly those that can be there.
    ensures stops { AreNumbered tokens.old.items → StopsAt tokens.old.items fault → IfOk result (λ found. IfSome found (λ stop. StopsBy tokens.old.items stop.index stop.span stop.kinds.items)) }
    // Tokens that stop have such a place.
    ensures some { EndsOnce tokens.old.items → AreNumbered tokens.old.items → StopsAt tokens.old.items fault → IfOk result (λ found. found ≢ None) }
{
    let Some(place) = fault.place() else {
        return Ok(None);
    };
    if place.number >= tokens.len() {
        return Ok(None);
    }
    let mut rest = tokens.split_off(place.number)?;
    let found = stop_behind(alloc, tokens, place)?;
    tokens.append(&mut rest)?;
    Ok(found)
}

/// The stop at a place behind tokens.
fn stop_behind(
    alloc: Global,
    front: &mut Vec<Token>,
    place: TokenPlace,
) -> Result<Option<Stop>, AllocError>
    ensures same { IfOk result (λ _. front.new.items ≡ front.old.items) }
    ensures place { IfOk result (λ found. IfSome found (λ stop. (stop.index ≡ place.number) × (stop.span ≡ place.span))) }
    ensures expected { IfOk result (λ found. IfSome found (λ stop. AreExpected front.old.items stop.kinds.items)) }
    ensures some { IsFront front.old.items → IfOk result (λ found. found ≢ None) }
{
    if !is_front(front.as_slice()) {
        return Ok(None);
    }
    let kinds = kinds_behind(alloc, front)?;
    Ok(Some(Stop {
        index: place.number,
        span: place.span,
        kinds,
    }))
}

/// The tokens of a text, if it has tokens.
pub fn tokens_or_none<'a>(
    alloc: Global,
    text: &'a str,
    definitions: &'a [(&'a str, &'a str)],
) -> Result<Option<Vec<Token>>, AllocError>
    ensures has { IfOk result (λ found. IfSome found (λ tokens. HasTokens text.now (defined_by definitions.now) tokens.items)) }
    ensures ended { IfOk result (λ found. IfSome found (λ tokens. EndsOnce tokens.items)) }
    ensures numbered { IfOk result (λ found. IfSome found (λ tokens. AreNumbered tokens.items)) }
    ensures none { IfOk result (λ found. found ≡ None → (all : List Token) → ¬ HasTokens text.now (defined_by definitions.now) all) }
{
    match tokens(alloc, text, definitions) {
        Ok(tokens) => Ok(Some(tokens)),
        Err(LexFault::Memory) => Err(AllocError),
        Err(_fault) => Ok(None),
    }
}

//! Parses the tokens of a policy.

ghost use Rattle.std.specs.Prelude.{◌≡◌, ◌≢◌, Some, Err, IfOk, IfErr, IsOkAnd};
ghost use Rattle.ifs_lex.specs.Expansion.{EndsOnce};
ghost use Rattle.ifs_parse.specs.AtOnce as at_once;
ghost use Rattle.ifs_parse.specs.inner.Combined.{IsAsRead};
ghost use Rattle.ifs_parse.specs.Files.{File, file};
ghost use Rattle.ifs_parse.specs.Grammar.{Says, StopsAt};
ghost use Rattle.ifs_parse.specs.Words.{fits_period};
ghost use Rattle.ifs_parse.specs.inner.Reading.{read_within};
ghost use Rattle.ifs_parse.specs.declared.fault.ParseFault.{ParseFault};
ghost use Rattle.ifs_parse.specs.declared.fault.ParseFault.TheVariants.{Memory};

use crate::fault::ParseFault;
use crate::mark::mark_of;
use crate::parser::Parser;
use crate::tree::{Item, Tree};
use ifs_lex::Token;
use std::alloc::Global;

/// The most `if`, `!` and `(` that may be open at the same time.
const NESTING: u32 = 32;

/// The items of a policy, and the lines of its notes.
#[derive(Drop)]
struct Parsed {
    items: Vec<Item>,
    notes: Vec<u32>,
}

#[tactic(auto, unfolding(crate::specs::inner::Reading::read_within))]
fn read(alloc: Global, tokens: &[Token]) -> Result<Parsed, ParseFault>
    ensures { IsAsRead (λ parsed. file parsed.items.items parsed.notes.items) result (read_within fits_period 32 tokens.now) }
{
    let mut parser = Parser {
        alloc,
        left: tokens,
        notes: Vec::new(alloc),
    };
    let items = parser.file(NESTING)?;
    let Parser { notes, .. } = parser;
    Ok(Parsed { items, notes })
}

/// Returns the fault that is certain before the first allocation, if there is one.
fn certain_at_once(tokens: &[Token]) -> Option<ParseFault>
    ensures { result ≡ at_once.certain_of_tokens tokens.now }
{
    match tokens {
        [] => None,
        [first, ..] => {
            if mark_of(&first.what).may_come_first() {
                return None;
            }
            Some(ParseFault::Unexpected(first.place()))
        }
    }
}

/// Returns the fault that is certain at once, or else reads the tokens.
fn answer(alloc: Global, tokens: &[Token]) -> Result<Parsed, ParseFault>
    ensures wanted { IsAsRead (λ parsed. file parsed.items.items parsed.notes.items) result (read_within fits_period 32 tokens.now) }
    ensures at_once { (fault : ParseFault) → at_once.certain_of_tokens tokens.now ≡ Some fault → result ≡ Err fault }
{
    match certain_at_once(tokens) {
        Some(fault) => Err(fault),
        None => read(alloc, tokens),
    }
}

/// Returns the tree of a policy's tokens, with its notes. The last token, and no other, must be `End`.
///
/// A fault is that of the first token that cannot go on, and has its place. If an allocation fails, the fault is
/// P0 instead. If no file begins with the first token, the fault is always that of this token.
pub fn parse(alloc: Global, tokens: &[Token]) -> Result<Tree, ParseFault>
    requires { EndsOnce tokens.now }
    // The tokens say the tree by the grammar, with its notes.
    ensures found { IfOk result (λ tree. Says tokens.now tree) }
    // A file that the tokens say is returned, unless an allocation fails.
    ensures only { (file : File) → Says tokens.now file → result ≢ Err Memory → IsOkAnd result (λ tree. tree ≡ file) }
    // Any other fault is at the first token that cannot go on: the tokens before it can, and with it nothing can.
    // It is P7 or P8 if the token could go on without that limit. It is P6 if the grammar cannot go on with this token
    // under any limits.
    ensures stops { IfErr result (λ fault. fault ≢ Memory → StopsAt tokens.now fault) }
    // A fault that is certain before the first allocation is returned, even if allocations fail.
    ensures at_once { (fault : ParseFault) → at_once.certain_of_tokens tokens.now ≡ Some fault → result ≡ Err fault }
{
    match answer(alloc, tokens) {
        Ok(parsed) => Ok(Tree::new(parsed.items, parsed.notes)),
        Err(fault) => Err(fault),
    }
}

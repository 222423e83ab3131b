//! What can come behind tokens, by a part of them: whole items, and whole parts of a state, are read once and left out.

ghost use Rattle.std.specs.Prelude.{◌≡◌, ◌<◌, ◌+◌, ◌^◌, ◌∷◌, ◌++◌, [], IfOk, IsTrue};
ghost use Rattle.ifs_lex.specs.Expansion.{EndsOnce, Endless};
ghost use Rattle.ifs_parse.specs.Files.{File};
ghost use Rattle.ifs_parse.specs.Grammar.{Says};
ghost use Rattle.ifs_expected_tokens.specs.Expected.{AreExpected, AreExpectedAs, IsFront};
ghost use Rattle.ifs_expected_tokens.specs.inner.Shorter.{BeginsState, IsFrontBelow, IsOneState, SayItems, placed};

use crate::expecting::{kinds_tried, number_of_stop};
use crate::kind::Kind;
use ifs_base::Span;
use ifs_lex::{Token, What};
use ifs_parse::{Item, parse};
use std::alloc::{AllocError, Global};

/// The tokens that begin a state: its word, its name and the brace.
const HEAD: usize = 3;

/// How far tokens were read.
#[derive(Clone, Copy)]
struct Scan {
    /// How many braces are open.
    open: usize,
    /// The number of the token behind the last whole item.
    item: usize,
    /// The same for the last whole part of a state.
    part: usize,
    /// Whether the last token is a word before the name or the command that ends an action.
    is_before_end: bool,
}

impl Scan {
    /// Reads a token that is not the end of anything.
    fn within(self, is_before_end: bool) -> Scan {
        Scan {
            open: self.open,
            item: self.item,
            part: self.part,
            is_before_end,
        }
    }

    /// Reads the end of an item, a part or a statement, after which so many braces are open. The next token has this number.
    fn at_end(self, open: usize, next: usize) -> Scan {
        Scan {
            open,
            item: if open == 0 { next } else { self.item },
            part: if open == 1 { next } else { self.part },
            is_before_end: false,
        }
    }

    /// Reads a token. The next one has this number.
    fn after(self, what: &What, next: usize) -> Scan {
        match what {
            What::BraceOpen => self.at_end(self.open.saturating_add(1), next),
            What::BraceClose => self.at_end(self.open.saturating_sub(1), next),
            What::Word(_) | What::Quoted(_) if self.is_before_end => self.at_end(self.open, next),
            What::Word(word) => self.within(is_before_end(word.as_str())),
            _ => self.within(false),
        }
    }
}

/// Whether a word comes before the name or the command that ends an action.
fn is_before_end(word: &str) -> bool {
    matches!(word, "run" | "set-state" | "init-state")
}

/// Reads tokens without what they say.
fn scan_of(tokens: &[Token]) -> Scan {
    let mut scan = Scan {
        open: 0,
        item: 0,
        part: 0,
        is_before_end: false,
    };
    for (index, token) in tokens.iter().enumerate() {
        scan = scan.after(&token.what, index.saturating_add(1));
    }
    scan
}

/// The kinds of tokens that can come behind tokens.
pub fn kinds_behind(alloc: Global, front: &mut Vec<Token>) -> Result<Vec<Kind>, AllocError>
    requires { IsFront front.old.items }
    ensures same { IfOk result (λ _. front.new.items ≡ front.old.items) }
    ensures expected { IfOk result (λ kinds. AreExpected front.old.items kinds.items) }
{
    let number = front.len();
    let scan = scan_of(front.as_slice());
    let mut rest = front.split_off(scan.item.min(number))?;
    let part = scan.part.saturating_sub(scan.item);
    let kinds = kinds_behind_items(alloc, front, &mut rest, part, number)?;
    front.append(&mut rest)?;
    Ok(kinds)
}

/// The kinds behind tokens in two lists, with numbers below this one. The first may be whole items, and the second may begin a state
/// with whole parts up to a token.
fn kinds_behind_items(
    alloc: Global,
    items: &mut Vec<Token>,
    rest: &mut Vec<Token>,
    part: usize,
    number: usize,
) -> Result<Vec<Kind>, AllocError>
    requires front { IsFrontBelow number (items.old.items ++ rest.old.items) }
    requires room { number + 1 < 2 ^ 64 }
    ensures items { IfOk result (λ _. items.new.items ≡ items.old.items) }
    ensures rest { IfOk result (λ _. rest.new.items ≡ rest.old.items) }
    ensures expected { IfOk result (λ kinds. AreExpectedAs number (items.old.items ++ rest.old.items) kinds.items) }
{
    let is_whole = say_items(alloc, items)?;
    if is_whole {
        kinds_behind_parts(alloc, rest, part, number)
    } else {
        kinds_behind_both(alloc, items, rest, number)
    }
}

/// The kinds behind tokens with numbers below this one. Up to a token they may begin a state with whole parts.
fn kinds_behind_parts(
    alloc: Global,
    tokens: &mut Vec<Token>,
    part: usize,
    number: usize,
) -> Result<Vec<Kind>, AllocError>
    requires front { IsFrontBelow number tokens.old.items }
    requires room { number + 1 < 2 ^ 64 }
    ensures same { IfOk result (λ _. tokens.new.items ≡ tokens.old.items) }
    ensures expected { IfOk result (λ kinds. AreExpectedAs number tokens.old.items kinds.items) }
{
    let mut rest = tokens.split_off(part.min(tokens.len()))?;
    let kinds = kinds_in_state(alloc, tokens, &mut rest, number)?;
    tokens.append(&mut rest)?;
    Ok(kinds)
}

/// The kinds behind tokens in two lists, with numbers below this one. The first may begin a state with whole parts.
fn kinds_in_state(
    alloc: Global,
    state: &mut Vec<Token>,
    rest: &mut Vec<Token>,
    number: usize,
) -> Result<Vec<Kind>, AllocError>
    requires front { IsFrontBelow number (state.old.items ++ rest.old.items) }
    requires room { number + 1 < 2 ^ 64 }
    ensures state { IfOk result (λ _. state.new.items ≡ state.old.items) }
    ensures rest { IfOk result (λ _. rest.new.items ≡ rest.old.items) }
    ensures expected { IfOk result (λ kinds. AreExpectedAs number (state.old.items ++ rest.old.items) kinds.items) }
{
    let is_state = begins_state(alloc, state)?;
    if is_state {
        kinds_behind_head(alloc, state, rest, number)
    } else {
        kinds_behind_both(alloc, state, rest, number)
    }
}

/// The kinds behind tokens in two lists, with numbers below this one. The first begins a state, and the whole parts in it are left out.
fn kinds_behind_head(
    alloc: Global,
    state: &mut Vec<Token>,
    rest: &mut Vec<Token>,
    number: usize,
) -> Result<Vec<Kind>, AllocError>
    requires begins { BeginsState state.old.items }
    requires front { IsFrontBelow number (state.old.items ++ rest.old.items) }
    requires room { number + 1 < 2 ^ 64 }
    ensures state { IfOk result (λ _. state.new.items ≡ state.old.items) }
    ensures rest { IfOk result (λ _. rest.new.items ≡ rest.old.items) }
    ensures expected { IfOk result (λ kinds. AreExpectedAs number (state.old.items ++ rest.old.items) kinds.items) }
{
    let mut parts = state.split_off(HEAD)?;
    let kinds = kinds_behind_both(alloc, state, rest, number)?;
    state.append(&mut parts)?;
    Ok(kinds)
}

/// The kinds behind tokens in two lists, with numbers below this one.
fn kinds_behind_both(
    alloc: Global,
    front: &mut Vec<Token>,
    rest: &mut Vec<Token>,
    number: usize,
) -> Result<Vec<Kind>, AllocError>
    requires front { IsFrontBelow number (front.old.items ++ rest.old.items) }
    requires room { number + 1 < 2 ^ 64 }
    ensures front { IfOk result (λ _. front.new.items ≡ front.old.items) }
    ensures rest { IfOk result (λ _. rest.new.items ≡ rest.old.items) }
    ensures expected { IfOk result (λ kinds. AreExpectedAs number (front.old.items ++ rest.old.items) kinds.items) }
{
    let count = front.len();
    front.append(rest)?;
    let kinds = kinds_tried(alloc, front, number)?;
    let mut again = front.split_off(count)?;
    rest.append(&mut again)?;
    Ok(kinds)
}

/// Adds a sign or the end behind tokens.
fn put(tokens: &mut Vec<Token>, what: What) -> Result<(), AllocError>
    ensures { IfOk result (λ _. tokens.new.items ≡ tokens.old.items ++ placed what ∷ []) }
{
    tokens.push(Token {
        what,
        span: Span {
            line: 1,
            start: 0,
            end: 0,
        },
        number: 0,
    })?;
    Ok(())
}

/// Whether tokens say whole items.
fn say_items(alloc: Global, tokens: &mut Vec<Token>) -> Result<bool, AllocError>
    requires { Endless tokens.old.items }
    ensures same { IfOk result (λ _. tokens.new.items ≡ tokens.old.items) }
    ensures items { IfOk result (λ yes. IsTrue yes → SayItems tokens.old.items) }
{
    let count = tokens.len();
    put(tokens, What::End)?;
    let stop = number_of_stop(alloc, tokens.as_slice())?;
    tokens.truncate(count);
    Ok(stop.is_none())
}

/// Whether tokens begin a state, and say whole parts of it.
fn begins_state(alloc: Global, tokens: &mut Vec<Token>) -> Result<bool, AllocError>
    requires { Endless tokens.old.items }
    ensures same { IfOk result (λ _. tokens.new.items ≡ tokens.old.items) }
    ensures begins { IfOk result (λ yes. IsTrue yes → BeginsState tokens.old.items) }
{
    let count = tokens.len();
    put(tokens, What::BraceClose)?;
    put(tokens, What::End)?;
    let found = say_one_state(alloc, tokens.as_slice())?;
    tokens.truncate(count);
    Ok(found)
}

/// Whether tokens say one state.
fn say_one_state(alloc: Global, tokens: &[Token]) -> Result<bool, AllocError>
    requires { EndsOnce tokens.now }
    ensures { IfOk result (λ yes. IsTrue yes → (file : File) × IsOneState file.items × Says tokens.now file) }
{
    match parse(alloc, tokens) {
        Ok(tree) => Ok(is_one_state(tree.items())),
        Err(fault) => match fault.place() {
            Some(_place) => Ok(false),
            None => Err(AllocError),
        },
    }
}

/// Whether items are one state.
fn is_one_state(items: &[Item]) -> bool
    ensures { IsTrue result → IsOneState items.now }
{
    match items {
        [Item::State(_name, _parts)] => true,
        _ => false,
    }
}

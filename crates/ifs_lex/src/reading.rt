//! Reads the tokens of a text.

ghost use Rattle.std.specs.Prelude.{◌≡◌, ◌≤◌, [], ◌∷◌, length, option_map, is_some};
ghost use Rattle.std.specs.Prelude.{Some, Err, IfOk, IfErr, IsOkAnd, ◌≢◌, List};
ghost use Rattle.ifs_lex.specs.declared.fault.LexFault.{LexFault};
ghost use Rattle.ifs_lex.specs.AtOnce as at_once;
ghost use Rattle.ifs_lex.specs.declared.token.Token.{Token};
ghost use Rattle.ifs_lex.specs.declared.fault.LexFault.TheVariants.{Memory};
ghost use Rattle.ifs_lex.specs.Lexemes.{lexemes_of};
ghost use Rattle.ifs_lex.specs.Expansion.{expanded, tokens_after, segments_from, given_one, defined_by};
ghost use Rattle.ifs_lex.specs.Expansion.{given_from, tokens_of, unnumbered_of, HasTokens, EndsOnce};
ghost use Rattle.ifs_lex.specs.Numbered.{AreNumbered, numbered_from};
ghost use Rattle.ifs_lex.specs.inner.Kept.{IsAsWanted};
ghost use Rattle.ifs_lex.specs.inner.Known.{macros_of};
ghost use Rattle.ifs_lex.specs.inner.Pieces.{lexeme_of};
ghost use Rattle.ifs_lex.specs.Stuck.{SaysStuck};
ghost use Rattle.ifs_lex.specs.inner.Turns.{definition_here, after_definition};

use crate::characters::is_macro_name;
use crate::cursor::{Cursor, Lexeme};
use crate::fault::LexFault;
use crate::limits::{MAX_TEXT, MAX_TOKENS};
use crate::macros::MacroTable;
use crate::pieces::{Piece, quoted_value, text_from, what_of};
use crate::token::{Token, What};
use ifs_base::{Span, Text};
use std::alloc::{AllocError, Global};

/// Reads the rest of a definition that begins with a piece, and returns its name and its text. If no definition
/// begins with the piece, the cursor stays.
fn definition<'a>(
    alloc: Global,
    cursor: &mut Cursor<'a>,
    piece: &Piece<'a>,
) -> Result<Option<(&'a str, Text)>, AllocError>
    ensures found { IfOk result (λ made. option_map (λ d. (d.0.now, d.1)) made ≡ definition_here cursor.old (lexeme_of piece.now)) }
    ensures after { IfOk result (λ made. cursor.new ≡ after_definition cursor.old (is_some made)) }
{
    let mut ahead = cursor.again();
    match piece.name() {
        Some(name) => {
            if !ahead.next().piece.is_equals() {
                return Ok(None);
            }
            match ahead.next().piece.text(alloc)? {
                Some(text) => {
                    *cursor = ahead;
                    Ok(Some((name, text)))
                }
                None => Ok(None),
            }
        }
        None => Ok(None),
    }
}

/// The tokens so far, and the known macros.
#[derive(Drop)]
pub struct Reading<'a> {
    pub tokens: Vec<Token>,
    pub macros: MacroTable<'a>,
}

impl<'a> Reading<'a> {
    ghost use Rattle.ifs_lex.specs.Lexemes as lexemes;
    ghost use Rattle.ifs_lex.specs.Expansion.{with_whats, with_use, with_lexeme};
    ghost use Rattle.ifs_lex.specs.inner.Turns.{expanded_of, with_turn};

    fn into_tokens(self) -> Vec<Token>
        ensures { result.items ≡ self.entry.tokens.items }
    {
        let Reading { tokens, macros: _ } = self;
        tokens
    }

    fn put(&mut self, span: Span, what: What) -> Result<(), LexFault>
        ensures { IsAsWanted (λ done. expanded_of self.new) result (with_whats span (what ∷ []) (expanded_of self.old)) }
    {
        if self.tokens.len() >= MAX_TOKENS {
            return Err(LexFault::OverLimit { line: span.line });
        }
        self.tokens.push(Token {
            what,
            span,
            number: 0,
        })?;
        Ok(())
    }

    fn use_macro(&mut self, alloc: Global, span: Span, name: &str) -> Result<(), LexFault>
        ensures { IsAsWanted (λ done. expanded_of self.new) result (with_use span ((expanded_of self.old).macros.known name.now) (expanded_of self.old)) }
    {
        match self.macros.get(name) {
            Some(entry) => {
                if self.tokens.len() + entry.rope.count > MAX_TOKENS {
                    return Err(LexFault::OverLimit { line: span.line });
                }
                self.macros
                    .give_out(alloc, entry.rope, span, &mut self.tokens)?;
                Ok(())
            }
            None => Err(LexFault::UnknownMacro { line: span.line }),
        }
    }

    #[tactic(auto, using(crate::proofs::Signs::sign_lexeme))]
    fn stand(&mut self, alloc: Global, found: Lexeme<'_>) -> Result<(), LexFault>
        ensures { IsAsWanted (λ done. expanded_of self.new) result (with_lexeme found.entry.span (lexeme_of found.entry.piece) (expanded_of self.old)) }
    {
        let span = found.span;
        match found.piece {
            Piece::Word(word) => {
                let text = text_from(alloc, word)?;
                self.put(span, What::Word(text))
            }
            Piece::Quoted(quote, inside) => {
                let value = quoted_value(alloc, quote, inside)?;
                self.put(span, What::Quoted(value))
            }
            Piece::Use(name) => self.use_macro(alloc, span, name),
            Piece::Equals => self.put(span, What::Equals),
            Piece::Sign(sign) => self.put(span, what_of(sign)),
            Piece::End => {
                self.tokens.push(Token {
                    what: What::End,
                    span,
                    number: 0,
                })?;
                Ok(())
            }
            Piece::Stray => Err(LexFault::Stray { line: span.line }),
            Piece::Unclosed => Err(LexFault::Unclosed { line: span.line }),
        }
    }

    /// Adds a definition, or what a piece gives.
    fn with(
        &mut self,
        alloc: Global,
        found: Lexeme<'_>,
        definition: Option<(&'a str, Text)>,
    ) -> Result<(), LexFault>
        ensures { IsAsWanted
            (λ done. expanded_of self.new)
            result
            (with_turn (record { lexeme = lexeme_of found.entry.piece; span = found.entry.span }) (option_map (λ d. (d.0.now, d.1)) definition.entry) (expanded_of self.old)) }
    {
        match definition {
            Some((name, text)) => self
                .macros
                .define(alloc, found.span.line, false, name, text.as_str()),
            None => self.stand(alloc, found),
        }
    }
}

/// Reads the tokens of a text with the macros that are given beside it.
#[tactic(auto, using(crate::proofs::Segments::some_same))]
fn read<'a>(alloc: Global, text: &'a str, macros: MacroTable<'a>) -> Result<Vec<Token>, LexFault>
    requires { length text.now ≤ 1048576 }
    ensures { IsAsWanted
        (λ tokens. tokens.items)
        result
        (tokens_after (expanded [] (macros_of macros.entry)) (segments_from 0 (lexemes_of text.now))) }
{
    let mut reading = Reading {
        tokens: Vec::new(alloc),
        macros,
    };
    let mut cursor = Cursor::start(text);
    'lexemes: loop {
        let found = cursor.next();
        let made = definition(alloc, &mut cursor, &found.piece)?;
        match reading.with(alloc, found, made) {
            Ok(()) => {}
            Err(fault) => return Err(fault),
        }
        if found.piece.is_last() {
            return Ok(reading.into_tokens());
        }
    }
}

fn define_given<'a>(
    alloc: Global,
    macros: &mut MacroTable<'a>,
    name: &'a str,
    value: &str,
) -> Result<(), LexFault>
    ensures { IsAsWanted (λ done. macros_of macros.new) result (given_one name.now value.now (macros_of macros.old)) }
{
    if is_macro_name(name) {
        return macros.define(alloc, 0, true, name, value);
    }
    Err(LexFault::BadMacro { line: 0 })
}

/// Reads the definitions that are given beside a text, in order.
fn read_given<'a>(
    alloc: Global,
    macros: &mut MacroTable<'a>,
    defs: &[(&'a str, &'a str)],
) -> Result<(), LexFault>
    ensures { IsAsWanted (λ done. macros_of macros.new) result (given_from (macros_of macros.old) (defined_by defs.now)) }
{
    let mut left = defs;
    while let [(name, value), rest @ ..] = left {
        match define_given(alloc, macros, name, value) {
            Ok(()) => left = rest,
            Err(fault) => return Err(fault),
        }
    }
    Ok(())
}

/// Returns the fault of a piece if no macro is known.
fn fault_without_macros(found: Lexeme<'_>) -> Option<LexFault>
    ensures { result ≡ at_once.fault_without_macros found.entry.span (lexeme_of found.entry.piece) }
{
    let line = found.span.line;
    match found.piece {
        Piece::Use(_) => Some(LexFault::UnknownMacro { line }),
        Piece::Stray => Some(LexFault::Stray { line }),
        Piece::Unclosed => Some(LexFault::Unclosed { line }),
        _ => None,
    }
}

/// Returns the fault that is certain before the first allocation, if there is one.
fn certain_at_once<'a>(text: &'a str, defs: &[(&'a str, &'a str)]) -> Option<LexFault>
    ensures { result ≡ at_once.certain_at_once text.now (defined_by defs.now) }
{
    match defs {
        [] if text.len() > MAX_TEXT => Some(LexFault::OverLimit { line: 1 }),
        [] => {
            let mut cursor = Cursor::start(text);
            fault_without_macros(cursor.next())
        }
        [(name, value), ..] => {
            if is_macro_name(name) && value.len() <= MAX_TEXT {
                return None;
            }
            Some(LexFault::BadMacro { line: 0 })
        }
    }
}

/// Reads the tokens of a text without their numbers.
#[tactic(auto, unfolding(crate::specs::Expansion::unnumbered_of))]
fn read_all<'a>(
    alloc: Global,
    text: &'a str,
    defs: &'a [(&'a str, &'a str)],
) -> Result<Vec<Token>, LexFault>
    ensures { IsAsWanted (λ tokens. tokens.items) result (unnumbered_of text.now (defined_by defs.now)) }
{
    let mut macros = MacroTable::new(alloc)?;
    match read_given(alloc, &mut macros, defs) {
        Ok(()) => {}
        Err(fault) => return Err(fault),
    }
    if text.len() > MAX_TEXT {
        return Err(LexFault::OverLimit { line: 1 });
    }
    match read(alloc, text, macros) {
        Ok(tokens) => Ok(tokens),
        Err(fault) => Err(fault),
    }
}

/// Numbers tokens from 0.
fn number_all(tokens: &mut [Token])
    ensures { tokens.new ≡ numbered_from 0 tokens.old }
{
    for (number, token) in tokens.iter_mut().enumerate() {
        token.number = number;
    }
}

/// Reads the tokens of a text, and numbers them.
#[tactic(auto, unfolding(crate::specs::Expansion::tokens_of))]
fn read_numbered<'a>(
    alloc: Global,
    text: &'a str,
    defs: &'a [(&'a str, &'a str)],
) -> Result<Vec<Token>, LexFault>
    ensures { IsAsWanted (λ tokens. tokens.items) result (tokens_of text.now (defined_by defs.now)) }
{
    match read_all(alloc, text, defs) {
        Ok(mut tokens) => {
            number_all(tokens.as_mut_slice());
            Ok(tokens)
        }
        Err(fault) => Err(fault),
    }
}

/// Returns the fault that is certain at once, or else reads the text.
fn answer<'a>(
    alloc: Global,
    text: &'a str,
    defs: &'a [(&'a str, &'a str)],
) -> Result<Vec<Token>, LexFault>
    ensures wanted { IsAsWanted (λ tokens. tokens.items) result (tokens_of text.now (defined_by defs.now)) }
    ensures at_once { (fault : LexFault) → at_once.certain_at_once text.now (defined_by defs.now) ≡ Some fault → result ≡ Err fault }
{
    match certain_at_once(text, defs) {
        Some(fault) => Err(fault),
        None => read_numbered(alloc, text, defs),
    }
}

/// Returns the tokens of a policy text, numbered from 0. The last token, and no other, is `End`. `defs` are definitions that take
/// precedence over those of the text. Of two definitions in `defs` with one name, the first counts.
///
/// A fault is the first from the left, and has its line. Faults of `defs` come before those of the text and have
/// line 0. If an allocation fails, the fault is P0 instead, unless another one is certain before the first allocation.
pub fn tokens<'a>(
    alloc: Global,
    text: &'a str,
    defs: &'a [(&'a str, &'a str)],
) -> Result<Vec<Token>, LexFault>
    // The text spells the returned tokens.
    ensures found { IfOk result (λ tokens. HasTokens text.now (defined_by defs.now) tokens.items) }
    // The last token, and no other, is the end.
    ensures ended { IfOk result (λ tokens. EndsOnce tokens.items) }
    // Each token has its number in the list, from 0.
    ensures numbered { IfOk result (λ tokens. AreNumbered tokens.items) }
    // Tokens that the text spells are returned, unless an allocation fails.
    ensures only { (spelled : List Token) → HasTokens text.now (defined_by defs.now) spelled
        → result ≢ Err Memory → IsOkAnd result (λ tokens. tokens.items ≡ spelled) }
    // Any other fault is the first.
    ensures first_fault { IfErr result (λ fault. fault ≢ Memory → tokens_of text.now (defined_by defs.now) ≡ Err fault) }
    // P1 and P2 are faults of a text that is stuck with that fault, and never of a macro's value.
    ensures stuck { IfErr result (λ fault. SaysStuck text.now fault) }
    // A fault that is certain before the first allocation is returned, even if allocations fail.
    ensures at_once { (fault : LexFault) → at_once.certain_at_once text.now (defined_by defs.now) ≡ Some fault → result ≡ Err fault }
{
    match answer(alloc, text, defs) {
        Ok(tokens) => Ok(tokens),
        Err(fault) => Err(fault),
    }
}

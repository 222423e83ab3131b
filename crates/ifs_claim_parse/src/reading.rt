//! Reads the lines of a claims file.

ghost use Rattle.std.specs.Prelude.{◌≡◌, ◌≤◌, ◌+◌, ◌-◌, ◌++◌, ◌∷◌, min, max, [], List, None, IfErr, IfOk, IfSome, IsTrue, OnOk, length, map, option_to_list, string_bytes};
ghost use Rattle.std.specs.List.{list_any};
ghost use Rattle.std.specs.Str.{IsUtf8};
ghost use Rattle.ifs_lex.specs.declared.token.Token.{Token};
ghost use Rattle.ifs_lex.specs.Lexemes.{lexemes_of};
ghost use Rattle.ifs_lex.specs.Expansion.{EndsOnce, HasTokens, defined_by, is_equals};
ghost use Rattle.ifs_lex.specs.inner.Pieces.{lexeme_of};
ghost use Rattle.ifs_expected_tokens.specs.Places.{IsPlaced};
ghost use Rattle.ifs_claim_parse.specs.Macros.{macros_of};
ghost use Rattle.ifs_claim_parse.specs.Files.{AreStated, FileStates, LineStates, offset_in};
ghost use Rattle.ifs_claim_parse.specs.inner.Lines.{AddsLine, AreRead};

use crate::context::{Context, LinePlace};
use crate::fault::{FileFault, LineFault, Why, Wrong};
use crate::forms::read_claim;
use crate::macros::macros_of;
use crate::next::Line;
use crate::reporting::{no_macros, no_text, report_on, too_large};
use crate::stated::Stated;
use ifs_expected_tokens::lexemes_of;
use ifs_lex::{LexFault, Lexeme, Token, tokens};
use ifs_policy::Policy;
use ifs_report::{Part, Report};
use std::alloc::{AllocError, Global};
use std::str::from_utf8;

/// The most bytes of a file.
const MOST_BYTES: usize = 65_536;

/// The most claims of a file.
const MOST_CLAIMS: usize = 1_024;

/// Reads a claims file: its bytes, the text of a policy that is accepted with these definitions, and that policy. Returns its
/// claims in order, or the report on the first line that is none. The error is a failed allocation.
///
/// A refused file has a report with one of these codes: Q1 if a word, a sign or a byte cannot be where it is, Q2 if the policy has
/// no such name, Q3 if a condition is none or has no test behind `known` or `unknown`, Q4 beyond a limit: 65,536 bytes, 1,024
/// claims, 65,535 changes, and the limits of tokens and of nesting of the policies' language. Of a line, it is on the first word
/// from the left that cannot be there.
pub fn claims_of(
    alloc: Global,
    claims: &[u8],
    text: &str,
    definitions: &[(&str, &str)],
    policy: &Policy,
) -> Result<Result<Vec<Stated>, Report>, AllocError>
    // The claims are what the lines of the file say, each in the place of its line, and speak only of what the policy has.
    ensures said { IfOk result (λ read. IfOk read (λ stated. FileStates (macros_of text.now) (defined_by definitions.now) policy.now.tables claims.now stated.items)) }
    // A report names a part of the file, or of the value of a definition, or the whole file.
    ensures placed { IsUtf8 claims.now → IfOk result (λ read. IfErr read (λ report. IsPlaced claims.now definitions.now None report.place)) }
{
    if claims.len() > MOST_BYTES {
        return Ok(Err(too_large(alloc, claims.len())?));
    }
    match from_utf8(claims) {
        Ok(lines) => read_text(alloc, lines, text, definitions, policy),
        Err(error) => Ok(Err(no_text(alloc, claims, error.valid_up_to())?)),
    }
}

/// The claims of a text, or the report on the first line that is none.
fn read_text(
    alloc: Global,
    lines: &str,
    text: &str,
    definitions: &[(&str, &str)],
    policy: &Policy,
) -> Result<Result<Vec<Stated>, Report>, AllocError>
    requires { length lines.now ≤ 65536 }
    ensures said { IfOk result (λ read. IfOk read (λ stated. FileStates (macros_of text.now) (defined_by definitions.now) policy.now.tables lines.now stated.items)) }
    ensures placed { IfOk result (λ read. IfErr read (λ report. IsPlaced lines.now definitions.now None report.place)) }
{
    match macros_of(alloc, text)? {
        Some(macros) => {
            let context = Context {
                alloc,
                macros: macros.as_str(),
                definitions,
                tables: policy.tables(),
            };
            read_or_report(context, lines)
        }
        None => Ok(Err(no_macros(alloc)?)),
    }
}

/// The claims of the lines of a text, or the report on the first line that is none.
fn read_or_report(
    context: Context<'_>,
    lines: &str,
) -> Result<Result<Vec<Stated>, Report>, AllocError>
    requires { length lines.now ≤ 65536 }
    ensures said { IfOk result (λ read. IfOk read (λ stated. FileStates context.entry.macros.now (defined_by context.entry.definitions.now) context.entry.tables.now lines.now stated.items)) }
    ensures placed { IfOk result (λ read. IfErr read (λ report. IsPlaced lines.now context.entry.definitions.now None report.place)) }
{
    match read_lines(context, lines) {
        Ok(stated) => Ok(Ok(stated)),
        Err(FileFault::Memory) => Err(AllocError),
        Err(FileFault::Line(line, wrong)) => {
            let report = report_on(context, lines, line, wrong)?;
            Ok(Err(report))
        }
    }
}

/// The claims of the lines of a text.
fn read_lines(context: Context<'_>, lines: &str) -> Result<Vec<Stated>, FileFault>
    requires { length lines.now ≤ 65536 }
    ensures { IfOk result (λ stated. FileStates context.entry.macros.now (defined_by context.entry.definitions.now) context.entry.tables.now lines.now stated.items) }
{
    let mut stated = Vec::new(context.alloc);
    let mut number = 1u32;
    let mut at = 0usize;
    let mut left = lines;
    'lines: while let Some((line, rest)) = left.split_once('\n') {
        match add_line(context, number, at, line, &mut stated) {
            Ok(()) => {}
            Err(fault) => return Err(fault),
        }
        number += 1;
        at += line.len() + 1;
        left = rest;
    }
    match add_line(context, number, at, left, &mut stated) {
        Ok(()) => Ok(stated),
        Err(fault) => Err(fault),
    }
}

/// Adds the claim of a line, if it is not blank.
fn add_line(
    context: Context<'_>,
    number: u32,
    at: usize,
    line: &str,
    stated: &mut Vec<Stated>,
) -> Result<(), FileFault>
    requires short { at + length line.now ≤ 65536 }
    requires few { length stated.old.items ≤ 1024 }
    ensures { OnOk result (AddsLine context.entry.macros.now (defined_by context.entry.definitions.now) context.entry.tables.now number at line.now stated.old.items stated.new.items) }
{
    match read_line(context, number, at, line, stated.len()) {
        Ok(found) => add_claim(found, stated),
        Err(LineFault::Memory) => Err(FileFault::Memory),
        Err(LineFault::Wrong(wrong)) => {
            let part = Part {
                start: at,
                end: at + line.len(),
            };
            Err(FileFault::Line(part, wrong))
        }
    }
}

/// Adds the claim of a line, if it has one.
fn add_claim(found: Option<Stated>, stated: &mut Vec<Stated>) -> Result<(), FileFault>
    ensures { OnOk result (stated.new.items ≡ stated.old.items ++ option_to_list found) }
{
    if let Some(claim) = found {
        stated.push(claim)?;
    }
    Ok(())
}

/// The claim of a line, if it is not blank. So many claims come before it.
fn read_line(
    context: Context<'_>,
    number: u32,
    at: usize,
    line: &str,
    before: usize,
) -> Result<Option<Stated>, LineFault>
    requires short { at + length line.now ≤ 65536 }
    requires few { before ≤ 1024 }
    ensures states { IfOk result (λ found. LineStates context.entry.macros.now (defined_by context.entry.definitions.now) context.entry.tables.now number at line.now (option_to_list found)) }
    ensures few { IfOk result (λ found. length (option_to_list found) + before ≤ 1024) }
{
    if defines_macros(context.alloc, line)? {
        return Err(whole(Why::Equals));
    }
    let tokens = line_tokens(context, line)?;
    let place = LinePlace {
        number,
        at,
        bytes: line.len(),
        macros: context.macros.len(),
    };
    let found = read_stated(context, place, before, tokens.as_slice())?;
    Ok(found)
}

/// The claim of the tokens of a line, if there are any. So many claims come before it.
fn read_stated(
    context: Context<'_>,
    place: LinePlace,
    before: usize,
    tokens: &[Token],
) -> Result<Option<Stated>, LineFault>
    requires short { place.at + place.bytes ≤ 65536 }
    requires few { before ≤ 1024 }
    ensures stated { IfOk result (λ found. AreStated context.entry.tables.now place tokens.now (option_to_list found)) }
    ensures few { IfOk result (λ found. length (option_to_list found) + before ≤ 1024) }
{
    if tokens.is_empty() {
        return Ok(None);
    }
    if before >= MOST_CLAIMS {
        return Err(whole(Why::TooMany));
    }
    let line = Line {
        alloc: context.alloc,
        tables: context.tables,
        count: tokens.len(),
    };
    let claim = read_claim(line, tokens)?;
    Ok(Some(Stated {
        line: place.number,
        part: part_of(tokens, place),
        claim,
    }))
}

/// The fault of a line at its first token.
fn whole(why: Why) -> LineFault {
    LineFault::Wrong(Wrong { index: 0, why })
}

/// Whether a line has a sign `=`, and may define macros.
fn defines_macros(alloc: Global, line: &str) -> Result<bool, AllocError>
    requires { length line.now ≤ 65536 }
    ensures { IfOk result (λ yes. yes ≡ list_any (λ p. is_equals p.lexeme) (lexemes_of line.now)) }
{
    let lexemes = lexemes_of(alloc, line)?;
    Ok(has_equals(lexemes.as_slice()))
}

/// Whether a lexeme is the sign `=`.
fn has_equals(lexemes: &[Lexeme<'_>]) -> bool
    ensures { result ≡ list_any (λ found. is_equals (lexeme_of found.piece)) lexemes.now }
{
    lexemes.iter().any(|found| found.piece.is_equals())
}

/// The tokens of a line behind the macros of the policy, without their end.
pub fn line_tokens(context: Context<'_>, line: &str) -> Result<Vec<Token>, LineFault>
    ensures { IfOk result (λ found. (end : Token) × HasTokens (context.entry.macros.now ++ line.now) (defined_by context.entry.definitions.now) (found.items ++ (end ∷ []))) }
{
    let text = joined(context.alloc, context.macros, line)?;
    match tokens(context.alloc, text.as_str(), context.definitions) {
        Ok(tokens) => Ok(without_end(tokens)),
        Err(LexFault::Memory) => Err(LineFault::Memory),
        Err(fault) => Err(whole(Why::Tokens(fault))),
    }
}

/// Tokens without the last one.
fn without_end(mut tokens: Vec<Token>) -> Vec<Token>
    requires { EndsOnce tokens.items }
    ensures { (end : Token) × (tokens.items ≡ result.items ++ (end ∷ [])) }
{
    let _end = tokens.pop();
    tokens
}

/// A text and another one behind it.
fn joined(alloc: Global, front: &str, back: &str) -> Result<String, AllocError>
    ensures { IfOk result (λ made. string_bytes made ≡ front.now ++ back.now) }
{
    let mut made = String::from_str(alloc, front)?;
    made.push_str(back)?;
    Ok(made)
}

/// The offset in a line of an offset behind so many bytes of macros, at most the length of the line.
pub fn within(offset: u32, macros: usize, length: usize) -> usize
    ensures { result ≡ min (offset - macros) length }
{
    (offset as usize).saturating_sub(macros).min(length)
}

/// The part of a file from the first to the last token of a line.
fn part_of(tokens: &[Token], place: LinePlace) -> Part
    requires { place.at + place.bytes ≤ 65536 }
    ensures starts { (first : Token) (rest : List Token) → tokens.now ≡ first ∷ rest → result.start ≡ offset_in place first.span.start }
    ensures ends { (front : List Token) (last : Token) → tokens.now ≡ front ++ (last ∷ []) → result.end ≡ max result.start (offset_in place last.span.end) }
{
    let (Some(first), Some(last)) = (tokens.first(), tokens.last()) else {
        return Part {
            start: place.at,
            end: place.at,
        };
    };
    let start = place.at + within(first.span.start, place.macros, place.bytes);
    let end = place.at + within(last.span.end, place.macros, place.bytes);
    Part {
        start,
        end: end.max(start),
    }
}

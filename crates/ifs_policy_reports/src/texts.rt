//! Reports on texts that have no tokens.

ghost use Rattle.ifs_lex.specs.Expansion.{EndsOnce};

use crate::definitions::{put_written, rest_of_line};
use crate::files::kind_of_file;
use crate::quotes::{long_quoted, put_long};
use crate::scans::{ByteKind, contains, length_of_front};
use crate::strays::{hint_around, put_hint_for_character, put_hint_in_value, put_named};
use crate::wording::put_words;
use ifs_expected_tokens::{
    MOST_BYTES, Spelled, is_front, kinds_behind, lexemes_of, tokens_or_none,
};
use ifs_lex::{LexFault, Lexeme, Piece, Token, What};
use ifs_parse::parse;
use ifs_policy_text::TokenizedPolicy;
use ifs_policy_text::lines::{line_at, part_of, slice_of};
use ifs_policy_text::macros::{Macro, before, first_written, front_of, known};
use ifs_report::{Draft, Part, Place, Report, Severity, is_near};
use std::alloc::{AllocError, Global};

/// The most tokens of a text.
const MOST_TOKENS: usize = 16_384;

/// The report on bytes that are no text: the first byte that belongs to no character.
pub(crate) fn no_text(alloc: Global, bytes: &[u8], valid: usize) -> Result<Report, AllocError> {
    let mut draft = Draft::new(alloc, Severity::Error);
    put_byte(bytes, valid, &mut draft);
    draft.finish()
}

fn put_byte(bytes: &[u8], valid: usize, draft: &mut Draft) {
    draft.at(Place::Text(Part {
        start: valid,
        end: valid.saturating_add(1),
    }));
    let byte = match bytes.get(valid) {
        Some(byte) => *byte,
        None => 0,
    };
    let added = write!(
        draft.report.message,
        "the byte {byte:02x} cannot stand here"
    );
    draft.keep(added);
    draft.expect("UTF-8");
    let kind = kind_of_file(bytes);
    draft.hint(if kind.is_empty() {
        "from Latin-1, `iconv -f latin1 -t utf8` makes UTF-8"
    } else {
        kind
    });
}

/// The report on a text without tokens.
pub(crate) fn no_tokens<'a>(
    alloc: Global,
    policy: &TokenizedPolicy<'a>,
    definitions: &'a [(&'a str, &'a str)],
    fault: LexFault,
) -> Result<Report, AllocError> {
    let mut draft = Draft::new(alloc, Severity::Error);
    put_fault(alloc, policy, definitions, fault, &mut draft)?;
    draft.finish()
}

fn put_fault<'a>(
    alloc: Global,
    policy: &TokenizedPolicy<'a>,
    definitions: &'a [(&'a str, &'a str)],
    fault: LexFault,
    draft: &mut Draft,
) -> Result<(), AllocError> {
    match fault {
        LexFault::Stray { .. } => return put_stray(alloc, policy, definitions, draft),
        LexFault::Unclosed { .. } => put_unclosed(policy, draft),
        LexFault::UnknownMacro { line } => return put_unknown(alloc, policy, line, draft),
        LexFault::BadMacro { line } => return put_bad_value(alloc, policy, line, draft),
        LexFault::OverLimit { line } => put_over_limit(policy, line, draft),
        LexFault::Memory => return Err(AllocError),
    }
    Ok(())
}

/// The part of the character at an offset of a text, and the character. Behind the text it is another one.
fn character_at(text: &str, start: usize, other: char) -> (Part, char) {
    let (length, character) = match first_behind(text, start) {
        Some(character) => (character.len_utf8(), character),
        None => (0, other),
    };
    let part = Part {
        start,
        end: start.saturating_add(length),
    };
    (part, character)
}

/// The character at an offset of a text, if there is one.
fn first_behind(text: &str, start: usize) -> Option<char> {
    match text.get(start..) {
        Some(rest) => rest.chars().next(),
        None => None,
    }
}

/// The offset where the lexer stopped.
fn last_offset(policy: &TokenizedPolicy<'_>) -> usize {
    match policy.lexemes.as_slice().last() {
        Some(found) => found.span.start as usize,
        None => 0,
    }
}

/// A character that begins no word and no sign.
fn put_stray<'a>(
    alloc: Global,
    policy: &TokenizedPolicy<'a>,
    definitions: &'a [(&'a str, &'a str)],
    draft: &mut Draft,
) -> Result<(), AllocError> {
    let (part, character) = character_at(policy.text, last_offset(policy), ' ');
    draft.at(Place::Text(part));
    put_named(draft, character);
    draft.say(" cannot stand here");
    if put_cause(policy, part, draft) {
        return Ok(());
    }
    put_hint_at(draft, policy, part, character);
    let front = Part {
        start: 0,
        end: part.start,
    };
    match slice_of(policy.text, front) {
        Some(front) => put_expected(alloc, front, definitions, draft),
        None => Ok(()),
    }
}

/// Adds what to write in place of a stray character, by what is around it or for itself.
fn put_hint_at(draft: &mut Draft, policy: &TokenizedPolicy<'_>, part: Part, character: char) {
    let around = hint_around(policy.text, part, character);
    if around.is_empty() {
        put_hint_for_character(draft, policy, part, character);
    } else {
        draft.hint(around);
    }
}

/// Adds what is wrong before a stray character: the file is no text, or a quote is missing. It is `false` if neither is.
fn put_cause(policy: &TokenizedPolicy<'_>, part: Part, draft: &mut Draft) -> bool {
    let kind = kind_of_file(policy.text.as_bytes());
    if !kind.is_empty() {
        draft.hint(kind);
        return true;
    }
    match long_quoted(policy.text, policy.lexemes.as_slice(), part.start) {
        Some(long) => put_long(long, draft),
        None => return false,
    }
    true
}

/// Adds what can come behind a text. If that stops following the grammar before its end, says so.
fn put_expected<'a>(
    alloc: Global,
    front: &'a str,
    definitions: &'a [(&'a str, &'a str)],
    draft: &mut Draft,
) -> Result<(), AllocError> {
    let Some(mut tokens) = tokens_or_none(alloc, front, definitions)? else {
        return Ok(());
    };
    match stop_before_end(alloc, tokens.as_slice())? {
        Some(index) => {
            let policy = TokenizedPolicy::read(alloc, front, definitions)?;
            put_stop(alloc, &policy, definitions, index, draft)
        }
        None => put_kinds(alloc, &mut tokens, draft),
    }
}

/// The number of the token before the end at which the grammar stops, if it does.
fn stop_before_end(alloc: Global, tokens: &[Token]) -> Result<Option<usize>, AllocError>
    requires { EndsOnce tokens.now }
{
    let Err(fault) = parse(alloc, tokens) else {
        return Ok(None);
    };
    let Some(place) = fault.place() else {
        return Err(AllocError);
    };
    let is_before = place.number.saturating_add(1) < tokens.len();
    Ok(if is_before { Some(place.number) } else { None })
}

/// Adds what can come behind tokens without their end.
fn put_kinds(alloc: Global, tokens: &mut Vec<Token>, draft: &mut Draft) -> Result<(), AllocError> {
    tokens.truncate(tokens.len().saturating_sub(1));
    if is_front(tokens.as_slice()) {
        let kinds = kinds_behind(alloc, tokens)?;
        put_words(draft, kinds.as_slice(), last_of(tokens.as_slice()));
    }
    Ok(())
}

/// The last of these tokens.
fn last_of(tokens: &[Token]) -> Option<&What> {
    match tokens.last() {
        Some(token) => Some(&token.what),
        None => None,
    }
}

/// Names a token that cannot be where it is.
fn put_stop<'a>(
    alloc: Global,
    policy: &TokenizedPolicy<'a>,
    definitions: &'a [(&'a str, &'a str)],
    index: usize,
    draft: &mut Draft,
) -> Result<(), AllocError> {
    let place = policy.spot(alloc, index)?.place;
    let Place::Text(part) = place else {
        return Ok(());
    };
    if !draft.report.hint.is_empty()
        && (index > 0 || draft.report.hint.as_str().starts_with("a macro"))
    {
        return Ok(());
    }
    let word = policy.word(place, definitions);
    let line = line_at(policy.text, part.start);
    let wrong = if index == 0 {
        "begins no policy: is this the right file?"
    } else {
        "cannot stand where it does either"
    };
    draft.report.hint.clear();
    write!(draft.report.hint, "`{word}` on line {line} {wrong}")
}

/// A quote that no other closes.
fn put_unclosed(policy: &TokenizedPolicy<'_>, draft: &mut Draft) {
    let (part, quote) = character_at(policy.text, last_offset(policy), '"');
    draft.at(Place::Text(part));
    draft.say("the text quoted from here on does not end");
    draft.expect(another(quote));
    match long_quoted(policy.text, policy.lexemes.as_slice(), part.start) {
        Some(long) => put_long(long, draft),
        None => put_closing(quote, draft),
    }
}

/// Says where to close what a quote begins.
fn put_closing(quote: char, draft: &mut Draft) {
    let added = write!(
        draft.report.hint,
        "write a `{quote}` at the end of the text that it begins"
    );
    draft.keep(added);
}

/// The quote that is expected.
fn another(quote: char) -> &'static str {
    match quote {
        '\'' => "another `'`",
        _ => "another `\"`",
    }
}

/// A use of a macro.
#[derive(Clone, Copy)]
struct Used<'n> {
    name: &'n str,
    line: u32,
    place: Place,
}

/// The use of a macro that is not known there, if a lexeme of a line is one.
fn unknown_use<'n>(
    policy: &TokenizedPolicy<'_>,
    line: u32,
    found: &Lexeme<'n>,
) -> Option<Used<'n>> {
    if found.span.line != line {
        return None;
    }
    let part = part_of(found.span);
    match found.piece {
        Piece::Use(name) if !is_known(policy, name, part.start) => Some(Used {
            name,
            line,
            place: Place::Text(part),
        }),
        _ => None,
    }
}

/// Whether a macro is known at an offset of the text.
fn is_known(policy: &TokenizedPolicy<'_>, name: &str, offset: usize) -> bool {
    known(before(policy.macros.as_slice(), offset), name).is_some()
}

/// The first use of a macro on a line that is not known there.
fn first_unknown<'a>(policy: &TokenizedPolicy<'a>, line: u32) -> Option<Used<'a>> {
    for found in policy.lexemes.as_slice() {
        let used = unknown_use(policy, line, found);
        if used.is_some() {
            return used;
        }
    }
    None
}

/// A use of a macro that is not defined before it.
fn put_unknown(
    alloc: Global,
    policy: &TokenizedPolicy<'_>,
    line: u32,
    draft: &mut Draft,
) -> Result<(), AllocError> {
    match first_unknown(policy, line) {
        Some(used) => put_use(alloc, policy, used, draft),
        None => {
            draft.say("a macro is used that is not defined above");
            Ok(())
        }
    }
}

/// Says of a use of a macro that it is not defined.
fn put_use(
    alloc: Global,
    policy: &TokenizedPolicy<'_>,
    used: Used<'_>,
    draft: &mut Draft,
) -> Result<(), AllocError> {
    let name = used.name;
    draft.at(used.place);
    draft.say_of("`$", name, "` cannot stand here");
    draft.expect("a macro that is defined above");
    if is_defined_by_use(policy, used.place) {
        draft.hint_of("a macro is defined without `$`: `", name, " = ..`");
        return Ok(());
    }
    if let Some(beside) = definition_of(policy, name) {
        return put_beside(policy.text, name, beside, draft);
    }
    if let Some(later) = first_written(policy.macros.as_slice(), name) {
        draft.label(later.name_place(), "defined here");
        return write!(
            draft.report.hint,
            "define `{name}` above line {}",
            used.line
        );
    }
    if let Some(comment) = line_in_comment(policy.text, name) {
        return put_comment(&mut draft.report.hint, comment);
    }
    if let Some(shorter) = name.strip_suffix("link")
        && first_written(policy.macros.as_slice(), shorter).is_some()
    {
        draft.hint_of("did you mean `$", shorter, ".link`?");
        return Ok(());
    }
    match near_macro(alloc, policy, name)? {
        Some(near) => draft.hint_of("did you mean `$", near, "`?"),
        None => draft.hint_of("define it above: ", name, " = \"..\""),
    }
    Ok(())
}

/// Whether the sign `=` is behind the use of a macro.
fn is_defined_by_use(policy: &TokenizedPolicy<'_>, place: Place) -> bool {
    let Place::Text(part) = place else {
        return false;
    };
    match policy.text.get(part.end..) {
        Some(rest) => begins_equals(rest.trim_start()),
        None => false,
    }
}

/// Whether a text begins with `=` or `:=`.
fn begins_equals(text: &str) -> bool {
    matches!(text.as_bytes(), [b'=', ..] | [b':', b'=', ..])
}

/// What is like the definition of a macro, and is none: the line, and the offset of its value if it has the sign `=`.
#[derive(Clone, Copy)]
struct Beside {
    line: u32,
    value: Option<usize>,
}

/// What is like the definition of a macro, if something is: a name with a text in quotes beside it, or with the sign `=`.
fn definition_of(policy: &TokenizedPolicy<'_>, name: &str) -> Option<Beside> {
    let lexemes = policy.lexemes.as_slice();
    for (index, first) in lexemes.iter().enumerate() {
        let rest = lexemes.get(index.saturating_add(1)..).unwrap_or_default();
        let found = beside_at(first, rest, name);
        if found.is_some() {
            return found;
        }
    }
    None
}

/// What is like a definition of this name, if a lexeme begins that.
fn beside_at(first: &Lexeme<'_>, rest: &[Lexeme<'_>], name: &str) -> Option<Beside> {
    let (found, second) = (first.piece.name()?, rest.first()?);
    if found != name || second.span.line != first.span.line {
        return None;
    }
    let line = first.span.line;
    match (second.piece, rest.get(1)) {
        (Piece::Quoted(..), _) => Some(Beside { line, value: None }),
        (Piece::Equals, Some(third)) if !is_string(third) => Some(Beside {
            line,
            value: Some(part_of(second.span).end),
        }),
        _ => None,
    }
}

/// Whether a lexeme is a string.
fn is_string(found: &Lexeme<'_>) -> bool {
    matches!(found.piece, Piece::Quoted(..) | Piece::Word(_))
}

/// Says how the definition is written.
fn put_beside(text: &str, name: &str, beside: Beside, draft: &mut Draft) -> Result<(), AllocError> {
    let line = beside.line;
    match beside.value {
        Some(offset) => {
            write!(draft.report.hint, "on line {line}, ")?;
            put_rest(name, rest_of_line(text, offset), draft);
            Ok(())
        }
        None => write!(
            draft.report.hint,
            "is a `=` missing behind `{name}` on line {line}?"
        ),
    }
}

/// Says how the definition is written that has this behind its `=`.
fn put_rest(name: &str, rest: &str, draft: &mut Draft) {
    if rest.starts_with('=') {
        draft.hint_of("a macro is defined by one `=`: `", name, " = ..`");
    } else {
        put_written(name, rest, draft);
    }
}

/// Says of a comment that it takes in the next line.
fn put_comment(hint: &mut String, line: u32) -> Result<(), AllocError> {
    let next = line.saturating_add(1);
    write!(
        hint,
        "the comment on line {line} ends in a backslash, so line {next} belongs to it"
    )
}

/// The name of a macro that is nearly this one.
fn near_macro<'p>(
    alloc: Global,
    policy: &'p TokenizedPolicy<'_>,
    name: &str,
) -> Result<Option<&'p str>, AllocError> {
    for found in policy.macros.as_slice() {
        if is_near(alloc, name, found.name)? {
            return Ok(Some(found.name));
        }
    }
    Ok(None)
}

/// The line of a comment that takes in the definition of a macro on the next line, if there is one.
fn line_in_comment(text: &str, name: &str) -> Option<u32> {
    let mut number = 0u32;
    let mut is_joined = false;
    for line in text.lines() {
        if is_joined && begins_definition(line, name) {
            return Some(number);
        }
        number = number.saturating_add(1);
        is_joined = line.ends_with('\\') && contains(line, "#");
    }
    None
}

/// Whether a line begins with the definition of a macro.
fn begins_definition(line: &str, name: &str) -> bool {
    match line.split_once('=') {
        Some((before, _)) => before.trim() == name,
        None => false,
    }
}

/// A macro whose value is no list of tokens.
fn put_bad_value(
    alloc: Global,
    policy: &TokenizedPolicy<'_>,
    line: u32,
    draft: &mut Draft,
) -> Result<(), AllocError> {
    for (index, found) in policy.macros.iter().enumerate() {
        if found.line == line && put_macro(alloc, policy, index, found, draft)? {
            return Ok(());
        }
    }
    draft.say("a macro has a bad name or value");
    Ok(())
}

/// Says what is wrong with the value of a macro. It is `false` if nothing is.
fn put_macro(
    alloc: Global,
    policy: &TokenizedPolicy<'_>,
    index: usize,
    found: &Macro<'_>,
    draft: &mut Draft,
) -> Result<bool, AllocError> {
    let text = found.text(alloc)?;
    let lexemes = lexemes_of(alloc, text.as_str())?;
    let value = Value {
        policy,
        earlier: front_of(policy.macros.as_slice(), index),
        found,
        text: text.as_str(),
    };
    put_value(alloc, value, lexemes.as_slice(), draft)
}

/// The value of a macro, and the macros that are defined before it.
#[derive(Clone, Copy)]
struct Value<'v, 'a> {
    policy: &'v TokenizedPolicy<'a>,
    earlier: &'v [Macro<'a>],
    found: &'v Macro<'a>,
    text: &'v str,
}

/// Says what is wrong with a value, and names its macro. It is `false` if nothing is.
fn put_value(
    alloc: Global,
    value: Value<'_, '_>,
    lexemes: &[Lexeme<'_>],
    draft: &mut Draft,
) -> Result<bool, AllocError> {
    let is_long = lexemes.is_empty() || value.found.count > MOST_TOKENS;
    if let Some(lexeme) = first_wrong(value, lexemes) {
        put_lexeme(alloc, value, lexeme, draft)?;
    } else if is_long {
        put_too_long(value.found, draft);
    } else {
        return Ok(false);
    }
    put_definition(value, draft);
    Ok(true)
}

/// Names the macro, if its name is on another line than the place of a report.
fn put_definition(value: Value<'_, '_>, draft: &mut Draft) {
    let found = value.found;
    match draft.report.place {
        Place::Text(part) if line_at(value.policy.text, part.start) != found.line => draft.label(
            found.name_place(),
            "the value of this macro",
        ),
        _ => {}
    }
}

/// Says that a value is too long.
fn put_too_long(found: &Macro<'_>, draft: &mut Draft) {
    let name = found.name;
    draft.at(found.opening());
    let added = write!(
        draft.report.message,
        "the value of `{name}` has over {MOST_TOKENS} tokens or {MOST_BYTES} bytes"
    );
    draft.keep(added);
}

/// The first lexeme of a value with which something is wrong.
fn first_wrong<'l, 'f>(value: Value<'_, '_>, lexemes: &'l [Lexeme<'f>]) -> Option<&'l Lexeme<'f>> {
    for found in lexemes {
        if is_wrong(value, found) {
            return Some(found);
        }
    }
    None
}

/// Whether something is wrong with a lexeme of a value.
fn is_wrong(value: Value<'_, '_>, found: &Lexeme<'_>) -> bool {
    match found.piece {
        Piece::Use(used) => known(value.earlier, used).is_none(),
        Piece::Equals | Piece::Unclosed | Piece::Stray => true,
        _ => false,
    }
}

/// Says what is wrong with a lexeme of a value.
fn put_lexeme(
    alloc: Global,
    value: Value<'_, '_>,
    lexeme: &Lexeme<'_>,
    draft: &mut Draft,
) -> Result<(), AllocError> {
    let part = part_of(lexeme.span);
    let place = value.found.place(part);
    match lexeme.piece {
        Piece::Use(name) => {
            let line = value.found.line;
            return put_use(alloc, value.policy, Used { name, line, place }, draft);
        }
        Piece::Equals => put_equals(value, place, draft),
        Piece::Unclosed => put_unclosed_in(value, part.start, draft),
        _ => put_stray_in(value, part.start, draft),
    }
    Ok(())
}

/// The line of a place in a text. It is 0 elsewhere.
fn line_of(text: &str, place: Place) -> u32 {
    match place {
        Place::Text(part) => line_at(text, part.start),
        _ => 0,
    }
}

/// The sign `=` in a value. If that has several lines, its quote is missing on the first.
fn put_equals(value: Value<'_, '_>, here: Place, draft: &mut Draft) {
    let there = line_of(value.policy.text, here);
    if let Spelled::Quoted(quote, _) = value.found.value
        && there > value.found.line
    {
        draft.label(here, "cannot stand in a value");
        return put_open(value.found, char::from(quote), there, draft);
    }
    draft.at(here);
    draft.say_of("`=` cannot stand in the value of `", value.found.name, "`");
    draft.hint("a value has conditions and commands, and no definitions");
}

/// Says of the quote of a value that it does not close on its line.
fn put_open(found: &Macro<'_>, quote: char, there: u32, draft: &mut Draft) {
    let line = found.line;
    draft.at(found.opening());
    draft.expect(another(quote));
    let said = write!(
        draft.report.message,
        "the value quoted from here on has a `=` on line {there}"
    );
    draft.keep(said);
    let added = write!(draft.report.hint, "is a `{quote}` missing on line {line}?");
    draft.keep(added);
}

/// A quote in a value that no other closes.
fn put_unclosed_in(value: Value<'_, '_>, start: usize, draft: &mut Draft) {
    let (part, quote) = character_at(value.text, start, '"');
    draft.at(value.found.place(part));
    draft.say_of(
        "the text quoted from here on does not end in the value of `",
        value.found.name,
        "`",
    );
    draft.expect(another(quote));
    if put_behind(value, draft) {
        return;
    }
    if !contains(value.text, " every ") {
        return put_closing(quote, draft);
    }
    let added = write!(draft.report.hint, "write a `{quote}` before `every`");
    draft.keep(added);
}

/// What is behind the quote that closes a value, on its line, and that quote.
fn behind_value<'v>(value: Value<'v, '_>) -> Option<(char, &'v str)> {
    let (Spelled::Quoted(quote, _), Place::Text(whole)) = (value.found.value, value.found.whole())
    else {
        return None;
    };
    let rest = value.policy.text.get(whole.end.saturating_add(1)..)?;
    let line = match rest.split_once('\n') {
        Some((line, _)) => line,
        None => rest,
    };
    Some((char::from(quote), line))
}

/// Says of a value that ends before its line does what that makes wrong. It is `false` if nothing is behind it.
fn put_behind(value: Value<'_, '_>, draft: &mut Draft) -> bool {
    let Some((quote, rest)) = behind_value(value) else {
        return false;
    };
    if rest.trim_start().is_empty() || rest.trim_start().starts_with('#') {
        return false;
    }
    if length_of_front(rest, ByteKind::Blank) > 0 {
        draft.hint_of("a value is one string: `", value.found.name, " = '..'`");
        return true;
    }
    let added = write!(
        draft.report.hint,
        "the `{quote}` behind it ends the value: inside of `{quote}..{quote}` write `\\{quote}`"
    );
    draft.keep(added);
    true
}

/// A character in a value that begins no word and no sign.
fn put_stray_in(value: Value<'_, '_>, start: usize, draft: &mut Draft) {
    let (part, character) = character_at(value.text, start, ' ');
    draft.at(value.found.place(part));
    put_named(draft, character);
    draft.say_of(" cannot stand in the value of `", value.found.name, "`");
    put_hint_in_value(draft, value.text, part, character);
}

/// A text that is too long, or has too many tokens or macros.
fn put_over_limit(policy: &TokenizedPolicy<'_>, line: u32, draft: &mut Draft) {
    let bytes = policy.text.len();
    if bytes > MOST_BYTES {
        draft.rule("a policy has at most 1048576 bytes");
        draft.hint("let scripts do what the text repeats");
        let added = write!(draft.report.message, "the text has {bytes} bytes");
        return draft.keep(added);
    }
    if let Some(found) = first_on(policy.lexemes.as_slice(), line) {
        draft.at(Place::Text(part_of(found.span)));
    }
    draft.rule("a policy has at most 16384 tokens, and 256 macros");
    draft.say("on this line the policy has too many tokens or macros");
    draft.hint("let one script ask several things");
}

/// The first lexeme on a line.
fn first_on<'l, 'a>(lexemes: &'l [Lexeme<'a>], line: u32) -> Option<&'l Lexeme<'a>> {
    for found in lexemes {
        if found.span.line == line {
            return Some(found);
        }
    }
    None
}

//! What would mend the definition of a macro.

use crate::grammar::Seen;
use crate::names::word_of;
use crate::scans::{contains, is_one_of};
use crate::wording::has;
use ifs_expected_tokens::{Kind, lexemes_of};
use ifs_lex::{Piece, What, is_macro_name};
use ifs_policy_text::TokenizedPolicy;
use ifs_policy_text::lines::{part_of, slice_of};
use ifs_policy_text::macros::{Home, Macro, before, known};
use ifs_report::{Draft, Part, Place};
use std::alloc::{AllocError, Global};

/// The macro whose value has a place.
pub(crate) fn macro_with<'p, 'a>(
    policy: &'p TokenizedPolicy<'a>,
    place: Place,
) -> Option<&'p Macro<'a>> {
    for found in policy.macros.as_slice() {
        if is_within(place, found.whole()) {
            return Some(found);
        }
    }
    None
}

/// Whether a place is within another one.
fn is_within(place: Place, whole: Place) -> bool {
    match (place, whole) {
        (Place::Text(part), Place::Text(whole)) => whole.start <= part.start
            && part.end <= whole.end,
        (Place::Definition(number, _), Place::Definition(other, _)) => number == other,
        _ => false,
    }
}

/// The name of the macro whose use is before the place, if its value has a comment.
pub(crate) fn comment_in_value<'p>(
    alloc: Global,
    seen: Seen<'p, '_>,
) -> Result<Option<&'p str>, AllocError> {
    let Some(found) = macro_before(seen) else {
        return Ok(None);
    };
    if has_comment(alloc, found)? {
        return Ok(Some(found.name));
    }
    Ok(None)
}

/// The macro whose use is before the place.
fn macro_before<'p, 'a>(seen: Seen<'p, 'a>) -> Option<&'p Macro<'a>> {
    let token = seen.policy.tokens.get(seen.index.checked_sub(1)?)?;
    let part = part_of(token.span);
    let name = slice_of(seen.policy.text, part)?.strip_prefix('$')?;
    let macros = before(seen.policy.macros.as_slice(), part.start);
    macros.get(known(macros, name)?)
}

/// Whether the value of a macro has a comment. That goes to the end of the value.
pub(crate) fn has_comment(alloc: Global, found: &Macro<'_>) -> Result<bool, AllocError> {
    let text = found.text(alloc)?;
    let lexemes = lexemes_of(alloc, text.as_str())?;
    let mut end = 0usize;
    for lexeme in lexemes.as_slice() {
        if let Piece::End = lexeme.piece {
            break;
        }
        end = part_of(lexeme.span).end;
    }
    match text.as_str().get(end..) {
        Some(rest) => Ok(contains(rest, "#")),
        None => Ok(false),
    }
}

/// The rest of the line from an offset, without a comment and blanks around it.
pub(crate) fn rest_of_line(text: &str, from: usize) -> &str {
    let rest = text.get(from..).unwrap_or("");
    let line = match rest.split_once('\n') {
        Some((line, _)) => line,
        None => rest,
    };
    match line.split_once('#') {
        Some((front, _)) => front.trim(),
        None => line.trim(),
    }
}

/// The macro whose value ends on the line of the place, right before the place.
fn macro_ending_before<'p, 'a>(seen: Seen<'p, 'a>, part: Part) -> Option<&'p Macro<'a>> {
    for found in seen.policy.macros.as_slice() {
        if let Place::Text(whole) = found.whole()
            && whole.end <= part.start
            && is_gap(seen.policy.text, whole.end, part.start)
        {
            return Some(found);
        }
    }
    None
}

/// Whether the end of a value, by a quote or without one, and blanks are all between two offsets.
fn is_gap(text: &str, from: usize, to: usize) -> bool {
    match text.get(from..to) {
        Some(gap) => {
            let rest = behind_quote(gap);
            !contains(rest, "\n") && rest.trim().is_empty()
        }
        None => false,
    }
}

/// A text without the quote that it begins with, if it does.
fn behind_quote(text: &str) -> &str {
    match text.as_bytes() {
        [b'"' | b'\'', ..] => text.get(1..).unwrap_or(""),
        _ => text,
    }
}

/// Adds the hint for what is behind a value that is to be a part of it.
pub(crate) fn put_definition_before(seen: Seen<'_, '_>, draft: &mut Draft) {
    let Some(token) = seen.policy.tokens.get(seen.index) else {
        return;
    };
    if let What::End | What::BraceClose = token.what {
        return;
    }
    if is_one_of(
        word_of(Some(&token.what)),
        &["state", "init-state", "init", "if", "run", "set-state"],
    ) {
        return;
    }
    let part = part_of(token.span);
    if contains(rest_of_line(seen.policy.text, part.start), "{") {
        return;
    }
    if let Some(found) = macro_ending_before(seen, part) {
        draft.label(found.name_place(), "its value ends early");
        put_one_string(seen.policy.text, found, draft);
    }
}

/// Says that a value is one string.
fn put_one_string(text: &str, found: &Macro<'_>, draft: &mut Draft) {
    let from = match found.home {
        Home::Text(from) => from,
        Home::Given(_) => return,
    };
    let is_quoted = matches!(
        text.as_bytes().get(from.saturating_sub(1)),
        Some(b'"' | b'\'')
    );
    let start = if is_quoted {
        from.saturating_sub(1)
    } else {
        from
    };
    put_written(found.name, rest_of_line(text, start), draft);
}

/// Says how a macro with several words as its value is written.
pub(crate) fn put_written(name: &str, rest: &str, draft: &mut Draft) {
    draft.hint_of("a value is one string: `", name, " = '");
    if contains(rest, "'") || contains(rest, "\"") {
        draft.hint("..'`");
        return;
    }
    if contains(rest, "&&") || contains(rest, "||") {
        draft.hint_of("( ", rest, " )'`");
    } else {
        draft.hint_of("", rest, "'`");
    }
}

/// Adds the hint for a name with `=` and no string behind it.
pub(crate) fn put_early_value(seen: Seen<'_, '_>, draft: &mut Draft) {
    let next = seen.index.saturating_add(1);
    let (Some(What::Equals), Some(equals)) = (seen.policy.what(next), seen.policy.tokens.get(next))
    else {
        return;
    };
    let rest = rest_of_line(seen.policy.text, part_of(equals.span).end);
    if let Some(name) = seen.word.strip_prefix('$') {
        draft.hint_of("a macro is defined without `$`: `", name, " = ..`");
    } else if let Some(name) = seen.word.strip_suffix(':') {
        draft.hint_of("a macro is defined by `=` alone: `", name, " = ..`");
    } else if rest.starts_with('=') {
        draft.hint_of("a macro is defined by one `=`: `", seen.word, " = ..`");
    } else if is_macro_name(seen.word) && has(seen.kinds, Kind::State) && !rest.is_empty() {
        put_written(seen.word, rest, draft);
    }
}

/// Adds the hint for the sign `=`.
pub(crate) fn put_equals(seen: Seen<'_, '_>, draft: &mut Draft) {
    if seen.word != "=" {
        return;
    }
    match word_behind_equals(seen) {
        "true" | "1" | "yes" | "good" | "ok" if has(seen.kinds, Kind::And) => {
            draft.hint("a condition is true by itself: leave the comparison out");
        }
        "false" | "0" | "no" | "bad" if has(seen.kinds, Kind::And) => {
            draft.hint("write `!` before the condition, and leave the comparison out");
        }
        _ if has(seen.kinds, Kind::Dot) || has(seen.kinds, Kind::And) => {
            draft.hint("a link is asked without `=`: write `.link.up`");
        }
        _ => draft.hint(
            "a macro is defined by NAME = \"VALUE\", where NAME is no word of the language",
        ),
    }
}

/// The word behind one or two signs `=` at the place.
fn word_behind_equals<'p>(seen: Seen<'p, '_>) -> &'p str {
    let next = seen.index.saturating_add(1);
    match seen.policy.what(next) {
        Some(What::Equals) => word_of(seen.policy.what(next.saturating_add(1))),
        other => word_of(other),
    }
}

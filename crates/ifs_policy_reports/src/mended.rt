//! The words for a sign or a word that is missing or too much.

use crate::definitions::macro_with;
use crate::grammar::Seen;
use crate::mending::{Mending, mending_of};
use crate::open_signs::put_open_brace;
use crate::repairs::{Repair, begins_line, parts_at, sign_of, spelling};
use crate::token_places::NamesTokens;
use crate::wording::has;
use ifs_expected_tokens::Kind;
use ifs_lex::What;
use ifs_policy_text::lines::{line_at, part_of, slice_of};
use ifs_report::{Draft, Part, Place};
use std::alloc::{AllocError, Global};

/// Adds what one sign or word would mend, if one does.
pub(crate) fn put_mended(
    alloc: Global,
    seen: Seen<'_, '_>,
    draft: &mut Draft,
) -> Result<(), AllocError> {
    match mending_of(alloc, seen)? {
        Some(Mending::Alone(repair)) => {
            draft.hint(cause_of(seen, repair));
            put_repair(alloc, seen, repair, draft)?;
            put_opening(alloc, seen, repair, draft)
        }
        Some(Mending::Indented(repair)) => {
            draft.hint(cause_by_indentation(seen, repair));
            put_repair(alloc, seen, repair, draft)
        }
        Some(Mending::Either(first, second)) => {
            put_repair(alloc, seen, first, draft)?;
            draft.hint(", or ");
            put_repair(alloc, seen, second, draft)
        }
        None => Ok(()),
    }
}

/// Why a sign is left out. It is empty if the place says it.
fn cause_of(seen: Seen<'_, '_>, repair: Repair) -> &'static str {
    match (repair, seen.policy.what(seen.index)) {
        (Repair::Without(_), Some(What::BraceClose)) if has(seen.kinds, Kind::State) =>
            "no `{` is open here: ",
        (Repair::Without(_), Some(What::ParenClose)) if has(seen.kinds, Kind::And) =>
            "no `(` is open here: ",
        _ => "",
    }
}

/// Adds the other repair of a `)` in the value of a macro, since the value may be negated, or be one of several conditions.
fn put_opening(
    alloc: Global,
    seen: Seen<'_, '_>,
    repair: Repair,
    draft: &mut Draft,
) -> Result<(), AllocError> {
    let (Repair::Without(_), Some(What::ParenClose)) = (repair, seen.policy.what(seen.index)) else {
        return Ok(());
    };
    let place = seen.policy.origin(alloc, seen.index)?;
    if macro_with(seen.policy, place).is_some() {
        draft.hint(", or write the `(` that it closes");
    }
    Ok(())
}

/// Why a repair is named among others.
fn cause_by_indentation(seen: Seen<'_, '_>, repair: Repair) -> &'static str {
    match repair {
        Repair::Without(index) if index == seen.index => "no `{` is open here: ",
        _ => "by the indentation, ",
    }
}

/// Adds what a repair does.
fn put_repair(
    alloc: Global,
    seen: Seen<'_, '_>,
    repair: Repair,
    draft: &mut Draft,
) -> Result<(), AllocError> {
    match repair {
        Repair::Without(index) => put_without(alloc, seen, index, draft),
        Repair::Before(index, kind) => put_before(alloc, seen, index, kind, draft),
        Repair::Swapped(index) => put_swapped(alloc, seen, index, draft),
    }
}

/// Adds that a token is too much.
fn put_without(
    alloc: Global,
    seen: Seen<'_, '_>,
    index: usize,
    draft: &mut Draft,
) -> Result<(), AllocError> {
    let sign = sign_at(seen, index);
    if index == seen.index {
        draft.hint_of("leave this `", sign, "` out");
        return Ok(());
    }
    let line = seen.policy.line(alloc, index)?;
    draft.label_token(alloc, seen.policy, index, "this one");
    write!(draft.report.hint, "leave the `{sign}` on line {line} out")
}

fn sign_at<'p>(seen: Seen<'p, '_>, index: usize) -> &'p str {
    match seen.policy.what(index) {
        Some(what) => sign_of(what),
        None => "",
    }
}

/// Adds that a token of a kind is missing before another one.
fn put_before(
    alloc: Global,
    seen: Seen<'_, '_>,
    index: usize,
    kind: Kind,
    draft: &mut Draft,
) -> Result<(), AllocError> {
    if let Kind::BraceClose = kind {
        put_open_brace(alloc, seen, index, draft)?;
    }
    let word = spelling(kind);
    draft.hint(if is_word(word) { "the word `" } else { "a `" });
    draft.hint_of("", word, "` is missing ");
    if let Kind::BraceOpen = kind
        && is_in_text(seen, index)
    {
        return put_behind(seen, index.saturating_sub(1), draft);
    }
    put_place(alloc, seen, index, draft)
}

/// Whether a spelling is a word.
fn is_word(spelling: &str) -> bool {
    match spelling.as_bytes() {
        [first, ..] => first.is_ascii_alphabetic(),
        [] => false,
    }
}

/// Whether a token is in the text itself, or the first of a use of a macro.
fn is_in_text(seen: Seen<'_, '_>, index: usize) -> bool {
    match (
        seen.policy.tokens.get(index.saturating_sub(1)),
        seen.policy.tokens.get(index),
    ) {
        (Some(before), Some(token)) => before.span != token.span,
        _ => false,
    }
}

/// Adds that something is missing behind a token.
fn put_behind(seen: Seen<'_, '_>, index: usize, draft: &mut Draft) -> Result<(), AllocError> {
    let Some(token) = seen.policy.tokens.get(index) else {
        return Ok(());
    };
    let part = part_of(token.span);
    let line = token.span.line;
    draft.label(Place::Text(part), "behind this");
    draft.hint_of(
        "behind `",
        slice_of(seen.policy.text, part).unwrap_or(""),
        "`",
    );
    write!(draft.report.hint, " on line {line}")
}

/// Adds that something is missing before a token.
fn put_place(
    alloc: Global,
    seen: Seen<'_, '_>,
    index: usize,
    draft: &mut Draft,
) -> Result<(), AllocError> {
    if let Some(What::End) = seen.policy.what(index) {
        draft.hint("at the end of the text");
        return Ok(());
    }
    match seen.policy.spot(alloc, index)?.place {
        Place::Text(part) if begins_line(seen.policy.text, part) => {
            let line = line_at(seen.policy.text, part.start);
            write!(draft.report.hint, "before line {line}")
        }
        Place::Text(part) if index != seen.index => put_before_part(seen, part, draft),
        _ => {
            draft.hint("before this");
            Ok(())
        }
    }
}

/// Adds that something is missing before a part of the text.
fn put_before_part(seen: Seen<'_, '_>, part: Part, draft: &mut Draft) -> Result<(), AllocError> {
    let line = line_at(seen.policy.text, part.start);
    draft.label(Place::Text(part), "before this");
    draft.hint_of(
        "before `",
        slice_of(seen.policy.text, part).unwrap_or(""),
        "`",
    );
    write!(draft.report.hint, " on line {line}")
}

/// Adds that two tokens are in the other order.
fn put_swapped(
    alloc: Global,
    seen: Seen<'_, '_>,
    index: usize,
    draft: &mut Draft,
) -> Result<(), AllocError> {
    let Some((first, second)) = parts_at(alloc, seen.policy, index)? else {
        return Ok(());
    };
    let first = slice_of(seen.policy.text, first).unwrap_or("");
    let second = slice_of(seen.policy.text, second).unwrap_or("");
    write!(
        draft.report.hint,
        "write `{second} {first}` in place of `{first} {second}`"
    )
}

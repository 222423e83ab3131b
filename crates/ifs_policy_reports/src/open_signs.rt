//! Braces and parentheses that are open at a place.

use crate::definitions::macro_with;
use crate::grammar::Seen;
use crate::repairs::sign_of;
use crate::token_places::NamesTokens;
use crate::wording::has;
use ifs_expected_tokens::Kind;
use ifs_lex::What;
use ifs_policy_text::TokenizedPolicy;
use ifs_policy_text::lines::part_of;
use ifs_report::{Draft, Place};
use std::alloc::{AllocError, Global};

/// The innermost sign that is open at a token, by its number: `{`, or `(` of the condition there.
pub(crate) fn open_at(
    alloc: Global,
    policy: &TokenizedPolicy<'_>,
    index: usize,
    sign: &str,
    closing: &str,
) -> Result<Option<usize>, AllocError> {
    let mut open = Vec::new(alloc);
    for (number, token) in policy.tokens.iter().enumerate() {
        if number >= index {
            break;
        }
        let here = sign_of(&token.what);
        if here == sign {
            open.push(number)?;
        } else if here == closing {
            let _closed = open.pop();
        }
    }
    Ok(open.pop())
}

/// Says of a parenthesis that is open at the place, and that is in the value of a macro which ends before the place, that the
/// value does not close it. It is `false` if there is none.
pub(crate) fn put_unclosed_value(
    alloc: Global,
    seen: Seen<'_, '_>,
    draft: &mut Draft,
) -> Result<bool, AllocError> {
    if !has(seen.kinds, Kind::ParenClose) {
        return Ok(false);
    }
    match open_at(alloc, seen.policy, seen.index, "(", ")")? {
        Some(open) if !is_beside(seen.policy, open, seen.index) => {
            let place = seen.policy.origin(alloc, open)?;
            Ok(put_value(seen, place, draft))
        }
        _ => Ok(false),
    }
}

/// Whether two tokens come from one use of a macro, or the first one from none.
fn is_beside(policy: &TokenizedPolicy<'_>, first: usize, second: usize) -> bool {
    match (policy.tokens.get(first), policy.tokens.get(second)) {
        (Some(first), Some(second)) => first.span == second.span
            || is_itself(policy, first.span.start as usize),
        _ => true,
    }
}

/// Whether the text has a parenthesis at an offset, and no use of a macro.
fn is_itself(policy: &TokenizedPolicy<'_>, offset: usize) -> bool {
    match policy.text.get(offset..) {
        Some(rest) => rest.starts_with("("),
        None => true,
    }
}

/// Says of a parenthesis at a place in the value of a macro that it is not closed there.
fn put_value(seen: Seen<'_, '_>, place: Place, draft: &mut Draft) -> bool {
    let Some(found) = macro_with(seen.policy, place) else {
        return false;
    };
    draft.say_of("the `(` is not closed in the value of `", found.name, "`");
    draft.at(place);
    draft.expect("`)`");
    if let Some(token) = seen.policy.tokens.get(seen.index) {
        draft.label(Place::Text(part_of(token.span)), "this is behind the value");
    }
    draft.hint_of("close it in the value of `", found.name, "`");
    true
}

/// Names the brace that is open at the place, if a `}` is missing before that.
pub(crate) fn put_open_brace(
    alloc: Global,
    seen: Seen<'_, '_>,
    index: usize,
    draft: &mut Draft,
) -> Result<(), AllocError> {
    if let Some(open) = open_at(alloc, seen.policy, index, "{", "}")? {
        draft.label_token(alloc, seen.policy, open, "opened here");
    }
    Ok(())
}

/// Adds what is open at the place, or what is closed there without being open.
pub(crate) fn put_open(
    alloc: Global,
    seen: Seen<'_, '_>,
    draft: &mut Draft,
) -> Result<(), AllocError> {
    let may_close = has(seen.kinds, Kind::BraceClose);
    match seen.policy.what(seen.index) {
        Some(What::BraceClose) if has(seen.kinds, Kind::State) => {
            draft.hint(
                "no `{` is open here: leave a `}` out, or write the `{` that this one closes",
            );
        }
        Some(What::ParenClose) if has(seen.kinds, Kind::And) => {
            draft.hint("no `(` is open here: leave this `)` out, or write the `(` that it closes");
        }
        Some(what) if may_close && ends_blocks(what) => put_brace(alloc, seen, draft)?,
        _ if has(seen.kinds, Kind::ParenClose) => put_parenthesis(alloc, seen, draft)?,
        _ => {}
    }
    Ok(())
}

/// Whether no block is open before a token.
fn ends_blocks(what: &What) -> bool {
    match what {
        What::End => true,
        _ => matches!(sign_of(what), "state" | "init-state"),
    }
}

/// Says of the brace that is open at the place that it is.
fn put_brace(alloc: Global, seen: Seen<'_, '_>, draft: &mut Draft) -> Result<(), AllocError> {
    let Some(open) = open_at(alloc, seen.policy, seen.index, "{", "}")? else {
        return Ok(());
    };
    draft.label_token(alloc, seen.policy, open, "opened here");
    let line = seen.policy.line(alloc, open)?;
    write!(
        draft.report.hint,
        "a `}}` is missing: the `{{` on line {line} is open here"
    )
}

/// Says of the parenthesis that is open at the place that it is.
fn put_parenthesis(alloc: Global, seen: Seen<'_, '_>, draft: &mut Draft) -> Result<(), AllocError> {
    let Some(open) = open_at(alloc, seen.policy, seen.index, "(", ")")? else {
        return Ok(());
    };
    draft.label_token(alloc, seen.policy, open, "opened here");
    let line = seen.policy.line(alloc, open)?;
    write!(
        draft.report.hint,
        "a `)` is missing: the `(` on line {line} is open here"
    )
}

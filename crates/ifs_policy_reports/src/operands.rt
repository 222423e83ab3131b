//! What would mend a name or a command that is neither a link nor a test.

use crate::definitions::comment_in_value;
use crate::grammar::Seen;
use crate::hints::put_line;
use crate::names::{Role, has_role, text_at};
use crate::scans::{ByteKind, is_all};
use ifs_lex::What;
use ifs_policy_text::lines::{part_of, slice_of};
use ifs_policy_text::macros::last_named;
use ifs_report::Draft;
use std::alloc::{AllocError, Global};

/// Adds the hint for a name or a command before the place.
pub(crate) fn put_operand(
    alloc: Global,
    seen: Seen<'_, '_>,
    draft: &mut Draft,
) -> Result<(), AllocError> {
    match seen.policy.what_before(seen.index) {
        Some(What::Word(name)) => put_word(alloc, seen, name.as_str(), draft),
        Some(What::Quoted(text)) => return put_quoted(alloc, seen, text.as_str(), draft),
        _ => {}
    }
    Ok(())
}

/// Adds the hint for a word.
fn put_word(alloc: Global, seen: Seen<'_, '_>, name: &str, draft: &mut Draft) {
    if name == "not" {
        draft.hint("write `!` for `not`");
    } else if last_named(seen.policy.macros.as_slice(), name).is_some() {
        draft.hint_of("did you mean `$", name, "` ");
        put_line(alloc, seen, draft);
        draft.hint("?");
    } else {
        draft.hint_of("write `", name, ".link.up` for a link, or `");
        draft.hint_of("", name, " every SECONDS` for a test");
    }
}

/// Adds the hint for a text in quotes.
fn put_quoted(
    alloc: Global,
    seen: Seen<'_, '_>,
    text: &str,
    draft: &mut Draft,
) -> Result<(), AllocError> {
    if let Some((name, state)) = link_in(text) {
        put_link(alloc, seen, name, state, draft);
    } else if let Some(run) = run_of(seen, text) {
        return put_command(alloc, seen, run, draft);
    } else if let Some(found) = comment_in_value(alloc, seen)? {
        draft.hint_of("the `#` in the value of `", found, "` ");
        put_line(alloc, seen, draft);
        draft.hint(" begins a comment: what follows it does not count");
    } else {
        draft.hint("the command ");
        put_line(alloc, seen, draft);
        draft.hint(" is no condition: a test has `every SECONDS` behind its command");
    }
    Ok(())
}

/// The name and the state, if a text is a link.
fn link_in(text: &str) -> Option<(&str, &str)> {
    let (front, state) = text.rsplit_once('.')?;
    let name = front.strip_suffix(".link")?;
    match state {
        "up" | "down" | "unknown" if !name.is_empty() => Some((name, state)),
        _ => None,
    }
}

/// Says of a link that it has no quotes.
fn put_link(alloc: Global, seen: Seen<'_, '_>, name: &str, state: &str, draft: &mut Draft) {
    let quote = if is_all(name, ByteKind::OfName) {
        ""
    } else {
        "\""
    };
    draft.hint("leave the quotes ");
    put_line(alloc, seen, draft);
    draft.hint(" out: `");
    draft.hint(quote);
    draft.hint(name);
    draft.hint(quote);
    draft.hint_of(".link.", state, "`");
}

/// The first `run` of a command, by the number of the command's token.
fn run_of(seen: Seen<'_, '_>, text: &str) -> Option<usize> {
    for (index, _token) in seen.policy.tokens.iter().enumerate() {
        if has_role(seen.policy, index, Role::Command)
            && text_at(seen.policy, Some(index)) == text
        {
            return Some(index);
        }
    }
    None
}

/// Says of a command that it is run elsewhere.
fn put_command(
    alloc: Global,
    seen: Seen<'_, '_>,
    run: usize,
    draft: &mut Draft,
) -> Result<(), AllocError> {
    let line = match seen.policy.tokens.get(run) {
        Some(token) => token.span.line,
        None => 0,
    };
    let name = used_before(seen);
    if name.is_empty() {
        draft.hint("the command ");
        put_line(alloc, seen, draft);
    } else {
        draft.hint_of("`", name, "`");
    }
    write!(
        draft.report.hint,
        " is a command (`run` on line {line}): a condition is a link or a test"
    )
}

/// The name of the macro that is used before the place. It is empty if there is none.
fn used_before<'p>(seen: Seen<'p, '_>) -> &'p str {
    let Some(before) = seen.index.checked_sub(1) else {
        return "";
    };
    let Some(token) = seen.policy.tokens.get(before) else {
        return "";
    };
    match slice_of(seen.policy.text, part_of(token.span)) {
        Some(text) => text.strip_prefix('$').unwrap_or(""),
        None => "",
    }
}

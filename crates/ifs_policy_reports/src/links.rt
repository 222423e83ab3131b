//! What would mend a link: `NAME.link.STATE`.

use crate::changes::mends;
use crate::grammar::Seen;
use crate::hints::is_nearly;
use crate::names::text_at;
use crate::scans::{ByteKind, is_one_of, length_of_front};
use crate::wording::has;
use ifs_expected_tokens::Kind;
use ifs_lex::What;
use ifs_policy_text::lines::{line_before, part_of};
use ifs_policy_text::macros::Macro;
use ifs_report::{Draft, Part, Place};
use std::alloc::{AllocError, Global};

/// The states of a link.
const STATES: [&str; 3] = ["up", "down", "unknown"];

/// Words for states of a link, each with the state.
const OTHERS: [(&str, &str); 16] = [
    ("master", "up"),
    ("backup", "down"),
    ("active", "up"),
    ("inactive", "down"),
    ("online", "up"),
    ("offline", "down"),
    ("on", "up"),
    ("off", "down"),
    ("running", "up"),
    ("alive", "up"),
    ("dead", "down"),
    ("good", "up"),
    ("bad", "down"),
    ("true", "up"),
    ("false", "down"),
    ("init", "unknown"),
];

/// The state of a link that a word is for. It is empty if it is for none.
fn state_of(word: &str) -> &'static str {
    for state in &STATES {
        if *state == word {
            return state;
        }
    }
    for (known, state) in &OTHERS {
        if *known == word {
            return state;
        }
    }
    ""
}

/// Adds the hint for a part of a link that is missing or wrong, if there is one.
pub(crate) fn put_link(
    alloc: Global,
    seen: Seen<'_, '_>,
    draft: &mut Draft,
) -> Result<(), AllocError> {
    if has(seen.kinds, Kind::Text) || is_sign(seen) {
        return Ok(());
    }
    if has(seen.kinds, Kind::Up) {
        return put_state(alloc, seen, draft);
    }
    if has(seen.kinds, Kind::Link) {
        return put_dotted(alloc, seen, draft);
    }
    Ok(())
}

/// Whether the place has a sign, or a word that cannot be a name.
fn is_sign(seen: Seen<'_, '_>) -> bool {
    match seen.policy.what(seen.index) {
        Some(What::Word(word)) => is_one_of(
            word.as_str(),
            &["state", "init-state", "if", "run", "set-state", "every"],
        ),
        Some(What::Quoted(_)) => false,
        _ => true,
    }
}

/// Adds the hint for a word behind `.link.`.
fn put_state(alloc: Global, seen: Seen<'_, '_>, draft: &mut Draft) -> Result<(), AllocError> {
    if is_one_of(seen.word, &["master", "backup"]) {
        draft.hint("a master is `up`, and a backup is `down`");
        return Ok(());
    }
    let state = state_of(seen.word);
    if !state.is_empty() {
        draft.hint_of("write `", state, "`");
        return Ok(());
    }
    for state in &STATES {
        if is_nearly(alloc, seen.word, state)? {
            draft.hint_of("did you mean `", state, "`?");
            return Ok(());
        }
    }
    draft.hint("a link is `up`, `down` or `unknown`");
    Ok(())
}

/// Adds the hint for a word behind `NAME.`.
fn put_dotted(alloc: Global, seen: Seen<'_, '_>, draft: &mut Draft) -> Result<(), AllocError> {
    if let Some(state) = seen.word.strip_prefix("link")
        && is_one_of(state, &STATES)
    {
        draft.hint_of("write `link.", state, "`");
        return Ok(());
    }
    let state = state_of(seen.word);
    if !state.is_empty() {
        return put_whole(alloc, seen, state, draft);
    }
    if is_nearly(alloc, seen.word, "link")? {
        draft.hint("did you mean `link`?");
        return Ok(());
    }
    put_name(alloc, seen, draft)
}

/// The name before the place, as it is written: the use of a macro, a text in quotes, or a word.
fn name_of<'p>(alloc: Global, seen: Seen<'p, '_>) -> Result<Option<&'p str>, AllocError> {
    let Some(dot) = seen.index.checked_sub(1) else {
        return Ok(None);
    };
    match seen.policy.origin(alloc, dot)? {
        Place::Text(part) => Ok(written_before(seen.policy.text, part.start)),
        _ => Ok(Some(text_at(seen.policy, dot.checked_sub(1)))),
    }
}

/// The name that is written before an offset. A name that a line before begins is none.
fn written_before(text: &str, offset: usize) -> Option<&str> {
    let line = line_before(text, offset)?;
    if length_of_back(line) == line.len() && continues_line(text, offset, line.len()) {
        return None;
    }
    if let Some(front) = line.strip_suffix('"') {
        let start = front.rfind('"')?;
        return line.get(start..);
    }
    let length = length_of_back(line);
    line.get(line.len().saturating_sub(length)..)
}

/// Whether a line that has so many bytes before an offset goes on with what is before it.
fn continues_line(text: &str, offset: usize, length: usize) -> bool {
    match text.get(..offset.saturating_sub(length)) {
        Some(front) => front.ends_with("\\\n"),
        None => false,
    }
}

/// How many bytes of a name, or of the use of a macro, a text ends with.
pub(crate) fn length_of_back(text: &str) -> usize {
    let mut length = 0usize;
    for byte in text.bytes().rev() {
        if !is_of_name(byte) {
            break;
        }
        length = length.saturating_add(1);
    }
    length
}

fn is_of_name(byte: u8) -> bool {
    byte.is_ascii_alphanumeric()
        || matches!(
            byte,
            b'_' | b'/' | b'-' | b':' | b'+' | b'@' | b'%' | b'*' | b'~' | b'$'
        )
}

/// Adds the whole link that is meant by `NAME.STATE`.
fn put_whole(
    alloc: Global,
    seen: Seen<'_, '_>,
    state: &str,
    draft: &mut Draft,
) -> Result<(), AllocError> {
    let Some(name) = name_of(alloc, seen)? else {
        return Ok(());
    };
    match seen.word {
        "master" => draft.hint("a master is `up`: "),
        "backup" => draft.hint("a backup is `down`: "),
        _ => {}
    }
    let name = match name.strip_suffix("link") {
        Some(shorter) if !shorter.is_empty() => shorter,
        _ => name,
    };
    write!(draft.report.hint, "write `{name}.link.{state}`")
}

/// Adds the hint for a name with a dot, if quotes mend it.
fn put_name(alloc: Global, seen: Seen<'_, '_>, draft: &mut Draft) -> Result<(), AllocError> {
    let Some(name) = name_of(alloc, seen)? else {
        return Ok(());
    };
    let word = seen.word;
    let whole = format!(in alloc; "{name}.{word}")?;
    put_quotes(alloc, seen, whole.as_str(), draft)
}

/// Adds the hint for a name that needs quotes.
fn put_quotes(
    alloc: Global,
    seen: Seen<'_, '_>,
    whole: &str,
    draft: &mut Draft,
) -> Result<(), AllocError> {
    if is_value(alloc, seen, whole)? {
        draft.hint_of(
            "a name with a dot needs quotes inside of the quotes: `'\"",
            whole,
            "\"'`",
        );
    } else if is_mended(alloc, seen, whole)? {
        draft.hint_of("a name with a dot needs quotes: `\"", whole, "\"`");
    }
    Ok(())
}

/// Whether quotes around a name before the place mend the text there, or the name has a digit behind the dot.
fn is_mended(alloc: Global, seen: Seen<'_, '_>, whole: &str) -> Result<bool, AllocError> {
    if length_of_front(seen.word, ByteKind::Digit) > 0 {
        return Ok(true);
    }
    let Some(token) = seen.policy.tokens.get(seen.index) else {
        return Ok(false);
    };
    let end = part_of(token.span).end;
    let part = Part {
        start: end.saturating_sub(whole.len()),
        end,
    };
    let quoted = format!(in alloc; "\"{whole}\"")?;
    mends(
        alloc,
        seen.policy.text,
        seen.definitions,
        part,
        quoted.as_str(),
    )
}

/// Whether a text is the whole value of a macro.
fn is_value(alloc: Global, seen: Seen<'_, '_>, whole: &str) -> Result<bool, AllocError> {
    for found in seen.policy.macros.as_slice() {
        if has_value(alloc, found, whole)? {
            return Ok(true);
        }
    }
    Ok(false)
}

/// Whether a text is the whole value of this macro.
fn has_value(alloc: Global, found: &Macro<'_>, whole: &str) -> Result<bool, AllocError> {
    let value = found.text(alloc)?;
    Ok(value.as_str() == whole)
}

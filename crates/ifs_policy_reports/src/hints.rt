//! What would mend a text that does not follow the grammar.

use crate::definitions::{put_definition_before, put_early_value, put_equals};
use crate::grammar::Seen;
use crate::links::put_link;
use crate::mended::put_mended;
use crate::names::word_of;
use crate::open_signs::put_open;
use crate::operands::put_operand;
use crate::periods::put_period;
use crate::quotes::put_long_before;
use crate::repairs::spelling;
use crate::wording::has;
use ifs_expected_tokens::Kind;
use ifs_lex::{Token, What, is_reserved};
use ifs_policy_text::lines::part_of;
use ifs_policy_text::macros::Macro;
use ifs_report::{Draft, is_near};
use std::alloc::{AllocError, Global};

/// Kinds that words are for, with the words that are nearly theirs.
const WORDS: [Kind; 7] = [
    Kind::State,
    Kind::InitState,
    Kind::Init,
    Kind::If,
    Kind::Run,
    Kind::SetState,
    Kind::Every,
];

/// Adds the hint for a place, if there is one: for the word that is there, for one sign or word that is missing or too much, or
/// for what is around the place.
pub(crate) fn put_hint(
    alloc: Global,
    seen: Seen<'_, '_>,
    draft: &mut Draft,
) -> Result<(), AllocError> {
    put_word(alloc, seen, draft)?;
    if draft.report.hint.is_empty() {
        put_around(alloc, seen, draft)?;
    }
    if draft.report.hint.is_empty() {
        put_mended(alloc, seen, draft)?;
    }
    if draft.report.hint.is_empty() {
        put_rest(alloc, seen, draft)?;
    }
    Ok(())
}

/// Adds the hint for the word at the place, if it is one that people write for another.
fn put_word(alloc: Global, seen: Seen<'_, '_>, draft: &mut Draft) -> Result<(), AllocError> {
    if let Some(found) = macro_behind_dot(seen) {
        return put_definition(alloc, found, draft);
    }
    draft.hint(hint_of_word(seen));
    if draft.report.hint.is_empty() {
        put_near(alloc, seen, draft)?;
    }
    Ok(())
}

/// Adds the hint for a quote, a macro, a link or a period around the place.
fn put_around(alloc: Global, seen: Seen<'_, '_>, draft: &mut Draft) -> Result<(), AllocError> {
    put_long_before(seen, draft);
    if draft.report.hint.is_empty() {
        put_definition_before(seen, draft);
    }
    if draft.report.hint.is_empty() {
        put_early_value(seen, draft);
    }
    if draft.report.hint.is_empty() {
        put_link(alloc, seen, draft)?;
    }
    if draft.report.hint.is_empty() {
        put_period(seen, draft);
    }
    Ok(())
}

/// Adds the hint for a place at which no single sign or word is missing or too much.
fn put_rest(alloc: Global, seen: Seen<'_, '_>, draft: &mut Draft) -> Result<(), AllocError> {
    put_equals(seen, draft);
    if draft.report.hint.is_empty() && has(seen.kinds, Kind::Dot) {
        put_operand(alloc, seen, draft)?;
    }
    if draft.report.hint.is_empty() {
        put_neighbour(alloc, seen, draft);
    }
    if draft.report.hint.is_empty() {
        put_open(alloc, seen, draft)?;
    }
    Ok(())
}

/// The token before the place, and the one at it.
fn tokens_at<'p>(seen: Seen<'p, '_>) -> Option<(&'p Token, &'p Token)> {
    let from = seen.index.checked_sub(1)?;
    match seen.policy.tokens.get(from..) {
        Some([before, token, ..]) => Some((before, token)),
        _ => None,
    }
}

/// The macro whose definition follows a dot, as in `NAME.NAME = VALUE`.
fn macro_behind_dot<'p, 'a>(seen: Seen<'p, 'a>) -> Option<&'p Macro<'a>> {
    let (before, token) = tokens_at(seen)?;
    let What::Dot = before.what else {
        return None;
    };
    let (from, to) = (part_of(before.span).end, part_of(token.span).start);
    macro_between(seen.policy.macros.as_slice(), from, to)
}

/// The first macro that the text defines between two offsets.
fn macro_between<'m, 'a>(macros: &'m [Macro<'a>], from: usize, to: usize) -> Option<&'m Macro<'a>> {
    for found in macros {
        if found.line != 0 && from <= found.at && found.at < to {
            return Some(found);
        }
    }
    None
}

/// `NAME = VALUE` in a condition is the definition of a macro.
fn put_definition(alloc: Global, found: &Macro<'_>, draft: &mut Draft) -> Result<(), AllocError> {
    let value = found.text(alloc)?;
    let (line, name, value) = (found.line, found.name, value.as_str());
    write!(
        draft.report.hint,
        "`{name} = {value}` on line {line} defines a macro: write `.link.up`"
    )
}

/// Words that other languages have, each with what is written in its place.
const OTHERS: [(&str, &str); 21] = [
    ("else", "there is no `else`: write a second `if` with `!`"),
    ("elsif", "there is no `elsif`: write a second `if` with `!`"),
    (
        "elseif",
        "there is no `else if`: write a second `if` with `!`",
    ),
    (
        "elif",
        "there is no `else if`: write a second `if` with `!`",
    ),
    ("include", "a policy is one file, and includes no other"),
    (
        "loglevel",
        "there is no `loglevel`: leave the line out, `ifsvm serve --notes` has one",
    ),
    ("and", "write `&&`"),
    ("or", "write `||`"),
    ("not", "write `!`"),
    ("set", "write `set-state`"),
    ("setstate", "write `set-state`"),
    ("set_state", "write `set-state`"),
    ("goto", "write `set-state`"),
    (
        "then",
        "the actions follow the condition without a word between them",
    ),
    (
        "do",
        "the actions follow the condition without a word between them",
    ),
    ("init_state", "write `init-state`"),
    ("initstate", "write `init-state`"),
    ("exec", "write `run`"),
    ("system", "write `run`"),
    ("when", "write `if`"),
    ("unless", "write `if !`"),
];

/// The hint for a word that other languages have. It is empty for others.
fn hint_of_other(words: &[(&'static str, &'static str)], word: &str) -> &'static str {
    for (known, hint) in words {
        if *known == word {
            return hint;
        }
    }
    ""
}

/// The hint for a word that other languages have. It is empty if there is none.
fn hint_of_word(seen: Seen<'_, '_>) -> &'static str {
    let hint = hint_of_other(&OTHERS, seen.word);
    if !hint.is_empty() {
        return hint;
    }
    match seen.word {
        word if word.starts_with("//") || word.starts_with("/*") => "a comment begins with `#`",
        _ => "",
    }
}

/// Adds the word of the grammar that could be there and is nearly the one that is.
fn put_near(alloc: Global, seen: Seen<'_, '_>, draft: &mut Draft) -> Result<(), AllocError> {
    if word_of(seen.policy.what(seen.index)).is_empty() {
        return Ok(());
    }
    for kind in &WORDS {
        let word = spelling(*kind);
        if has(seen.kinds, *kind) && is_nearly(alloc, seen.word, word)? {
            draft.hint_of("did you mean `", word, "`?");
            return Ok(());
        }
    }
    Ok(())
}

/// Whether a word is nearly another one, or has other capitals.
pub(crate) fn is_nearly(alloc: Global, word: &str, known: &str) -> Result<bool, AllocError> {
    if word != known && word.eq_ignore_ascii_case(known) {
        return Ok(true);
    }
    is_near(alloc, word, known)
}

/// Adds the hint for a token by the ones before it.
fn put_neighbour(alloc: Global, seen: Seen<'_, '_>, draft: &mut Draft) {
    let Some((before, token)) = tokens_at(seen) else {
        return;
    };
    draft.hint(hint_behind(seen, before, token));
    let word = word_of(Some(&before.what));
    if draft.report.hint.is_empty() && !word.is_empty() {
        put_missing(alloc, seen, word, draft);
    }
}

/// The hint for a token by the one before it. It is empty if there is none.
fn hint_behind(seen: Seen<'_, '_>, before: &Token, token: &Token) -> &'static str {
    let word = word_of(Some(&before.what));
    if word == "init" && seen.word == "state" {
        return "did you mean `init-state`?";
    }
    if is_quoted(&before.what) && before.span.end == token.span.start {
        return "the quote before it ends the command: inside of one write `\\\"`";
    }
    if begins_operand(&token.what) && has(seen.kinds, Kind::And) {
        return "conditions are joined by `&&` or `||`, and actions begin with `if`, `run` or `set-state`";
    }
    ""
}

/// Whether a condition can begin with a token.
fn begins_operand(what: &What) -> bool {
    match what {
        What::Quoted(_) | What::Bang | What::ParenOpen => true,
        What::Word(word) => !is_reserved(word.as_str()),
        _ => false,
    }
}

/// Adds the hint for what needs a name or a command behind it, or for a command of several words.
fn put_missing(alloc: Global, seen: Seen<'_, '_>, word: &str, draft: &mut Draft) {
    let last = seen.index.saturating_sub(1);
    if has(seen.kinds, Kind::Text) && !has(seen.kinds, Kind::Bang) {
        draft.hint_of("the `", word, "` ");
        put_line(alloc, seen, draft);
        draft.hint(if word == "run" {
            " has no command"
        } else {
            " has no name"
        });
    } else if word_of(seen.policy.what_before(last)) == "run" {
        draft.hint("a command of several words needs quotes");
    }
}

/// Adds the line of the token before the place in words. Line 0 is that of definitions on the command line.
pub(crate) fn put_line(alloc: Global, seen: Seen<'_, '_>, draft: &mut Draft) {
    let added = match seen.policy.line(alloc, seen.index.saturating_sub(1)) {
        Ok(0) => draft.report.hint.push_str("of `-D`"),
        Ok(line) => write!(draft.report.hint, "on line {line}"),
        Err(AllocError) => Err(AllocError),
    };
    draft.keep(added);
}

/// Whether a token is a quoted text.
fn is_quoted(what: &What) -> bool {
    matches!(what, What::Quoted(_))
}

//! Words for the kinds of tokens.

use crate::names::{Role, role_behind, word_of};
use ifs_expected_tokens::Kind;
use ifs_lex::What;
use ifs_report::Draft;

/// Adds the words for kinds that can come behind a token, with what is wanted most first.
pub(crate) fn put_words(draft: &mut Draft, kinds: &[Kind], before: Option<&What>) {
    if has(kinds, Kind::Text) {
        draft.expect(text_behind(before));
    } else if has(kinds, Kind::Number) {
        draft.expect("a number of seconds, from 1 to 604800");
    }
    put_each(draft, kinds, &ORDER);
}

/// The kinds that are no names and no numbers, with what is wanted most first.
const ORDER: [Kind; 20] = [
    Kind::Dot,
    Kind::Every,
    Kind::Link,
    Kind::Up,
    Kind::Down,
    Kind::Unknown,
    Kind::State,
    Kind::InitState,
    Kind::Init,
    Kind::If,
    Kind::Run,
    Kind::SetState,
    Kind::BraceOpen,
    Kind::BraceClose,
    Kind::And,
    Kind::Or,
    Kind::Bang,
    Kind::ParenOpen,
    Kind::ParenClose,
    Kind::End,
];

/// Adds the words of those kinds that are in the list.
fn put_each(draft: &mut Draft, kinds: &[Kind], order: &[Kind]) {
    for kind in order {
        let text = if has(kinds, *kind) {
            words_of(kinds, *kind)
        } else {
            ""
        };
        if !text.is_empty() {
            draft.expect(text);
        }
    }
}

/// Whether a list has a kind.
pub(crate) fn has(kinds: &[Kind], wanted: Kind) -> bool {
    for kind in kinds {
        if *kind == wanted {
            return true;
        }
    }
    false
}

/// What a name or a command is behind a token.
fn text_behind(before: Option<&What>) -> &'static str {
    match role_behind(word_of(before)) {
        Some(Role::Command) => "a command",
        Some(_) => "the name of a state",
        None => "an interface or a command in quotes",
    }
}

/// The words of a kind in a list. They are empty if others say it.
fn words_of(kinds: &[Kind], kind: Kind) -> &'static str {
    match kind {
        Kind::Dot if has(kinds, Kind::Every) => "`.` behind an interface",
        Kind::Every if has(kinds, Kind::Dot) => "`every` behind a command",
        // where a name can be, these words are names
        Kind::Link | Kind::Up | Kind::Down | Kind::Unknown if has(kinds, Kind::Text) => "",
        Kind::If if is_action(kinds) => "an action (`if`, `run` or `set-state`)",
        Kind::Run | Kind::SetState if is_action(kinds) => "",
        _ => word(kind),
    }
}

/// Whether each action is in a list.
fn is_action(kinds: &[Kind]) -> bool {
    has(kinds, Kind::If) && has(kinds, Kind::Run) && has(kinds, Kind::SetState)
}

/// A kind in words.
fn word(kind: Kind) -> &'static str {
    match kind {
        Kind::State => "`state`",
        Kind::InitState => "`init-state`",
        Kind::Init => "`init`",
        Kind::If => "`if`",
        Kind::Run => "`run`",
        Kind::SetState => "`set-state`",
        Kind::Every => "`every`",
        Kind::Link => "`link`",
        Kind::Up => "`up`",
        Kind::Down => "`down`",
        Kind::Unknown => "`unknown`",
        Kind::BraceOpen => "`{`",
        Kind::BraceClose => "`}`",
        Kind::ParenOpen => "`(`",
        Kind::ParenClose => "`)`",
        Kind::Dot => "`.`",
        Kind::Bang => "`!`",
        Kind::And => "`&&`",
        Kind::Or => "`||`",
        Kind::End => "the end of the text",
        Kind::Text | Kind::Number => "",
    }
}

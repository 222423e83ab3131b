//! Reports on tokens that cannot be where they are.

use crate::fault::{Why, Wrong};
use crate::keyword::{STATE, Wanted, keyword_of_word, name_in, words_of};
use crate::nearest::{near_entry, near_values, near_word};
use crate::saying::{End, Hint, NOTHING, Said};
use crate::seen::Seen;
use crate::stopping::{Stop, first_unknown, seconds_of, stop_in};
use ifs_base::Text;
use ifs_expected_tokens::Kind;
use ifs_lex::is_reserved;
use ifs_policy::{Table, Tables};
use ifs_report::Report;
use std::alloc::AllocError;

/// The report on what is wrong with a token of a line.
pub(crate) fn misplaced(seen: &Seen<'_>, wrong: Wrong) -> Result<Report, AllocError> {
    let Wrong { index, why } = wrong;
    match why {
        Why::Wanted(wanted) => unwanted(seen, index, wanted),
        Why::State | Why::Command | Why::Interface => no_name(seen, index, why),
        Why::Test => no_test(seen, index),
        Why::NoCondition => no_condition(seen, index),
        _ => other(seen, index, why),
    }
}

/// The report on a token that no other function here has.
fn other(seen: &Seen<'_>, index: usize, why: Why) -> Result<Report, AllocError> {
    let alloc = seen.context.alloc;
    match why {
        Why::SameState => same_state(seen, index).report_with(alloc, &["another state"]),
        Why::NoTest => untested(seen, index).report_with(alloc, &[]),
        Why::TooGreat => too_great(seen, index).report_with(alloc, &words_of(Wanted::Number)),
        _ => too_many(seen, index).report_with(alloc, &[]),
    }
}

/// What is said of a state that a claim is already about.
fn same_state<'s>(seen: &'s Seen<'_>, index: usize) -> Said<'s> {
    Said {
        place: seen.place(index),
        before: "`",
        word: Some(seen.text(index)),
        behind: " is already a state before `to`",
        hint: Hint::Words("no step leads from a state to itself"),
        ..NOTHING
    }
}

/// What is said of a word that asks for the values of tests, before a condition that has none.
fn untested<'s>(seen: &'s Seen<'_>, index: usize) -> Said<'s> {
    Said {
        code: "Q3",
        place: seen.place(index),
        before: "`",
        word: Some(seen.text(index)),
        behind: " asks for the values of tests, and this condition has no test",
        hint: Hint::Words(match seen.word(index) {
            "unknown" => "of a link, write `NAME.link.unknown`",
            _ => "leave `known` out",
        }),
        ..NOTHING
    }
}

/// What is said of a number that is too great.
fn too_great<'s>(seen: &'s Seen<'_>, index: usize) -> Said<'s> {
    Said {
        code: "Q4",
        place: seen.place(index),
        before: "`",
        word: Some(seen.written(index)),
        behind: " is beyond 65535",
        ..NOTHING
    }
}

/// What is said of a claim too many.
fn too_many(seen: &Seen<'_>, index: usize) -> Said<'static> {
    Said {
        code: "Q4",
        place: seen.place(index),
        before: "this is claim 1025",
        rule: "a claims file has at most 1024 claims",
        hint: Hint::Words("put some of the claims into another file"),
        ..NOTHING
    }
}

/// What is said of a token that cannot be there, or of the end of a line in these words.
fn cannot<'s>(seen: &'s Seen<'_>, index: usize, end: &'static str) -> Said<'s> {
    if index < seen.tokens.len() {
        cannot_stand(seen, index)
    } else {
        cannot_end(seen, index, end)
    }
}

/// What is said of a token that cannot be there.
fn cannot_stand<'s>(seen: &'s Seen<'_>, index: usize) -> Said<'s> {
    Said {
        place: seen.place(index),
        before: "`",
        word: Some(seen.written(index)),
        behind: " cannot stand here",
        ..NOTHING
    }
}

/// What is said of the end of a line in these words.
fn cannot_end(seen: &Seen<'_>, index: usize, end: &'static str) -> Said<'static> {
    Said {
        place: seen.place(index),
        before: end,
        ..NOTHING
    }
}

/// The report on a token in the place of something else.
fn unwanted(seen: &Seen<'_>, index: usize, wanted: Wanted) -> Result<Report, AllocError> {
    let alloc = seen.context.alloc;
    let word = seen.word(index);
    let near = near_word(alloc, word, wanted)?;
    let mut said = cannot(seen, index, "the claim cannot end here");
    said.hint = hint_for(word, near, wanted);
    said.report_with(alloc, &words_of(wanted))
}

/// What to write in place of a word, which is nearly another one.
fn hint_for<'s>(word: &'s str, near: &'s str, wanted: Wanted) -> Hint<'s> {
    if !near.is_empty() {
        return meant(near);
    }
    let takes_state = matches!(
        wanted,
        Wanted::State
            | Wanted::StateOrTo
            | Wanted::StateOrWhile
            | Wanted::StateOrEnd
            | Wanted::StateWhileOrEnd
    );
    if takes_state && (keyword_of_word(word).is_some() || is_reserved(word)) {
        return Hint::Word("a state of this name needs quotes: `\"", word, "\"`");
    }
    Hint::Words("")
}

/// Asks whether another word is meant, unless it is empty.
fn meant(word: &str) -> Hint<'_> {
    if word.is_empty() {
        Hint::Words("")
    } else {
        Hint::Word("did you mean `", word, "`?")
    }
}

/// A table of names that a policy has, and the words for what it lacks.
#[derive(Clone, Copy)]
struct Names<'t> {
    table: &'t Table<Text>,
    before: &'static str,
    behind: &'static str,
    expected: &'static str,
}

/// The names among which one is missing.
fn names_of(tables: &Tables, why: Why) -> Names<'_> {
    match why {
        Why::State => Names {
            table: &tables.states,
            before: "`",
            behind: " is no state of the policy",
            expected: STATE,
        },
        Why::Command => Names {
            table: &tables.commands,
            before: "the policy runs no command `",
            behind: "",
            expected: "a command as a `run` of the policy has it",
        },
        _ => Names {
            table: &tables.interfaces,
            before: "`",
            behind: " is no interface of the policy",
            expected: "an interface of the policy",
        },
    }
}

/// The report on a name that the policy does not have.
fn no_name(seen: &Seen<'_>, index: usize, why: Why) -> Result<Report, AllocError> {
    let alloc = seen.context.alloc;
    let names = names_of(seen.context.tables, why);
    let name = seen.text(index);
    let said = Said {
        code: "Q2",
        place: seen.place(index),
        before: names.before,
        word: Some(name),
        behind: names.behind,
        hint: meant(near_name(seen, index, names.table)?),
        ..NOTHING
    };
    said.report_with(alloc, &[names.expected])
}

/// What is nearly the name at a token: a name of a table, or else the word that may follow a name before it. It is empty if nothing is.
fn near_name<'s>(
    seen: &'s Seen<'_>,
    index: usize,
    table: &'s Table<Text>,
) -> Result<&'s str, AllocError> {
    let alloc = seen.context.alloc;
    let name = seen.text(index);
    let near = near_entry(alloc, name, table)?;
    let is_first = match seen.what(index.saturating_sub(1)) {
        Some(what) => name_in(what).is_none(),
        None => true,
    };
    if is_first || !near.is_empty() {
        return Ok(near);
    }
    near_word(alloc, name, word_behind(seen))
}

/// What can come behind a name of a list.
fn word_behind(seen: &Seen<'_>) -> Wanted {
    if seen.word(1) == "from" {
        Wanted::StateOrTo
    } else {
        Wanted::StateOrWhile
    }
}

/// The report on a command and a period that are no test of the policy.
fn no_test(seen: &Seen<'_>, index: usize) -> Result<Report, AllocError> {
    let alloc = seen.context.alloc;
    let command = seen.text(index);
    let said = Said {
        code: "Q2",
        place: seen.place(index),
        before: "the policy has no test `",
        word: Some(command),
        behind: " every ",
        last: End::Words(seen.text(index.saturating_add(2))),
        hint: match seconds_of(seen.context.tables, command, None) {
            Some(seconds) => Hint::Period(seconds),
            None => Hint::Words(""),
        },
        ..NOTHING
    };
    said.report_with(alloc, &["a test of the policy"])
}

/// The report on tokens that are no condition, from this one on.
fn no_condition(seen: &Seen<'_>, first: usize) -> Result<Report, AllocError> {
    let stop = stop_in(seen, first)?;
    stopped(seen, first, &stop)
}

/// The report on a condition that stops there, or on a name before that.
fn stopped(seen: &Seen<'_>, first: usize, stop: &Stop) -> Result<Report, AllocError> {
    match first_unknown(seen, first, stop.index) {
        Some(
            Wrong {
                index,
                why: Why::Test,
            },
        ) => no_test(seen, index),
        Some(Wrong { index, why }) => no_name(seen, index, why),
        None if stop.is_nesting => too_deep(seen, stop.index),
        None => no_operand(seen, first, stop),
    }
}

/// The report on a token of a condition at which too much is open.
fn too_deep(seen: &Seen<'_>, index: usize) -> Result<Report, AllocError> {
    let said = Said {
        code: "Q4",
        place: seen.place(index),
        before: "`",
        word: Some(seen.written(index)),
        behind: " is the 32nd of `!` and `(` that are open",
        rule: "at most 31 of `!` and `(` are open at the same time",
        hint: Hint::Words("leave out needless parentheses"),
        ..NOTHING
    };
    let alloc = seen.context.alloc;
    said.report(alloc, Vec::new(alloc))
}

/// The report on a token of a condition in the place of others. The condition begins at the first one.
fn no_operand(seen: &Seen<'_>, first: usize, stop: &Stop) -> Result<Report, AllocError> {
    let alloc = seen.context.alloc;
    let mut said = cannot(seen, stop.index, "the condition cannot end here");
    said.code = "Q3";
    said.hint = hint_at(seen, first, stop)?;
    let mut expected: Vec<&'static str> = Vec::new(alloc);
    stop.put_expected(&mut expected)?;
    said.report(alloc, expected)
}

/// What to write where a condition stops. Behind `while` a word may be meant that asks for the values of tests.
fn hint_at<'s>(seen: &'s Seen<'_>, first: usize, stop: &Stop) -> Result<Hint<'s>, AllocError> {
    let word = seen.word(stop.index);
    if stop.takes_values {
        return Ok(meant(near_values(seen.context.alloc, word)?));
    }
    if stop.index > first && asks_late(seen, stop) {
        return Ok(Hint::Words(LATE));
    }
    Ok(Hint::Words(sign_for(word, stop.kinds.as_slice())))
}

/// The place of the words that ask for the values of tests.
const LATE: &str = "`known` and `unknown` stand directly behind `while`";

/// Whether a condition stops at or behind a word that asks for the values of tests. Behind a dot this is a link state.
fn asks_late(seen: &Seen<'_>, stop: &Stop) -> bool {
    let before = stop.index.saturating_sub(1);
    let is_state = seen.is_dot(before.saturating_sub(1));
    (seen.asks_for_values(before) && !is_state)
        || (seen.asks_for_values(stop.index) && stop.kinds.contains(&Kind::And))
}

/// The sign that stands for a word, where that sign can be.
fn sign_for(word: &str, kinds: &[Kind]) -> &'static str {
    match word {
        "and" if kinds.contains(&Kind::And) => "write `&&`",
        "or" if kinds.contains(&Kind::Or) => "write `||`",
        "not" => "write `!`",
        _ => "",
    }
}

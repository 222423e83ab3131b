//! The words of findings.

ghost use Rattle.std.specs.Prelude.{◌≡◌, option_map};
ghost use Rattle.ifs_lint.specs.Kinds.{answer_word, state_severity, state_word};

use crate::marks::Kind;
use ifs_lex::{Token, What};
use ifs_report::{Draft, Place, Severity, position};
use ifs_solver::Answer;
use std::alloc::AllocError;

/// The most characters of a condition in a message.
const MOST_CHARACTERS: usize = 60;

/// The most conditions that a message names.
const MOST_CAUSES: usize = 3;

/// The most states of a round that a message names.
const MOST_STATES: usize = 8;

/// A condition that makes a finding so, as a message names it.
#[derive(Drop)]
pub(crate) struct Named {
    pub words: String,
    pub place: Place,
    pub holds: bool,
}

/// The kind of a finding on a place, for programs. None if the answer names no defect.
pub(crate) fn code_of(answer: Answer) -> Option<&'static str>
    ensures { option_map (λ code. code.now) result ≡ answer_word answer }
{
    match answer {
        Answer::Never => Some("never"),
        Answer::Always => Some("always"),
        Answer::Unreached => Some("unreached"),
        Answer::Overruled => Some("overruled"),
        Answer::Skipped | Answer::Used | Answer::Undecided => None,
    }
}

/// What a message on a place names.
#[derive(Clone, Copy)]
pub(crate) struct Subject<'a> {
    /// The text of the policy.
    pub text: &'a str,
    /// What the place is.
    pub kind: Kind,
    /// What is written there.
    pub words: &'a str,
    /// The conditions that make its answer so.
    pub causes: &'a [Named],
    /// If nothing that leads there does, the operands that show why its answer is so.
    pub shown: &'a [Named],
    /// Where a later `set-state` is that overrules it.
    pub later: Option<Place>,
}

/// Says of a place what its answer says.
pub(crate) fn put_answer(draft: &mut Draft, answer: Answer, subject: Subject<'_>) {
    match answer {
        Answer::Unreached => put_unreached(draft, subject),
        Answer::Overruled => put_overruled(draft, subject),
        _ => put_condition(draft, answer, subject),
    }
}

/// What is said of a state.
#[derive(Clone, Copy)]
pub(crate) enum StateKind {
    /// No list of steps enters it.
    NeverEntered,
    /// No facts leave it.
    NeverLeft,
}

impl StateKind {
    /// The kind for programs.
    pub fn code(self) -> &'static str
        ensures { result.now ≡ state_word self }
    {
        match self {
            StateKind::NeverEntered => "never-entered",
            StateKind::NeverLeft => "never-left",
        }
    }

    /// How grave it is.
    pub fn severity(self) -> Severity
        ensures { result ≡ state_severity self }
    {
        match self {
            StateKind::NeverEntered => Severity::Warning,
            StateKind::NeverLeft => Severity::Note,
        }
    }

    /// The words behind the name of the state.
    fn words(self) -> &'static str {
        match self {
            StateKind::NeverEntered => " is never entered",
            StateKind::NeverLeft => " is never left",
        }
    }
}

/// Says of a condition that it is never or always true, here or at all.
fn put_condition(draft: &mut Draft, answer: Answer, subject: Subject<'_>) {
    put_words(draft, subject.words);
    draft.say(match answer {
        Answer::Never => " is never true",
        _ => " is always true",
    });
    for (index, cause) in subject.causes.iter().enumerate() {
        if index < MOST_CAUSES {
            draft.say(if index == 0 { " here, since " } else { " and " });
            put_words(draft, cause.words.as_str());
            draft.say(if cause.holds {
                " holds"
            } else {
                " does not hold"
            });
            put_place(draft, subject.text, cause.place);
        }
    }
    put_others(draft, subject.causes.len());
    put_shown(draft, answer, subject);
}

/// Says which operands exclude each other, or which of them always hold between them.
fn put_shown(draft: &mut Draft, answer: Answer, subject: Subject<'_>) {
    let Some((last, before)) = subject.shown.split_last() else {
        return;
    };
    let is_never = matches!(answer, Answer::Never);
    draft.say(if is_never { ": " } else { ": one of " });
    for (index, operand) in before.iter().enumerate() {
        draft.say(if index == 0 { "" } else { ", " });
        put_operand(draft, subject.text, operand);
    }
    draft.say(" and ");
    put_operand(draft, subject.text, last);
    draft.say(if is_never {
        " exclude each other"
    } else {
        " always holds"
    });
}

/// Adds an operand with its place.
fn put_operand(draft: &mut Draft, text: &str, operand: &Named) {
    put_words(draft, operand.words.as_str());
    put_place(draft, text, operand.place);
}

/// Says of a `run` or a `set-state` that no facts reach it.
fn put_unreached(draft: &mut Draft, subject: Subject<'_>) {
    draft.say(match subject.kind {
        Kind::Command => "this `run` is never reached",
        _ => "this `set-state` is never reached",
    });
    for (index, cause) in subject.causes.iter().enumerate() {
        if index < MOST_CAUSES {
            draft.say(if index == 0 { ": it needs " } else { " and " });
            draft.say(if cause.holds { "" } else { "not " });
            put_words(draft, cause.words.as_str());
            put_place(draft, subject.text, cause.place);
        }
    }
    put_others(draft, subject.causes.len());
}

/// Says of a `set-state` that a later one overrules it, with the place of that if it is known.
fn put_overruled(draft: &mut Draft, subject: Subject<'_>) {
    draft.say("this `set-state` has no effect, since a later one is always reached too");
    if let Some(place) = subject.later {
        put_place(draft, subject.text, place);
    }
}

/// Says something of a state.
pub(crate) fn put_state(draft: &mut Draft, name: &str, kind: StateKind) {
    draft.say("state ");
    put_words(draft, name);
    draft.say(kind.words());
}

/// Says of states that they follow each other for ever.
pub(crate) fn put_round(draft: &mut Draft, names: &[&str]) {
    for (index, name) in names.iter().enumerate() {
        if index < MOST_STATES {
            draft.say(if index == 0 { "" } else { ", " });
            put_words(draft, name);
        }
    }
    if names.len() > MOST_STATES {
        draft.say(", ..");
    }
    draft.say(" follow each other for ever");
}

/// Says by which `set-state`s the states of a round follow each other, and names the place of each.
pub(crate) fn put_leads(draft: &mut Draft, text: &str, leads: &[Named]) {
    for (index, lead) in leads.iter().enumerate() {
        if index < MOST_STATES {
            draft.say(if index == 0 { ": " } else { ", " });
            put_words(draft, lead.words.as_str());
            put_place(draft, text, lead.place);
        }
        draft.label(lead.place, "leads on here");
    }
    if leads.len() > MOST_STATES {
        draft.say(", ..");
    }
}

/// Adds how many conditions a message does not name.
fn put_others(draft: &mut Draft, count: usize) {
    let others = count.saturating_sub(MOST_CAUSES);
    if others > 0 {
        let added = write!(draft.report.message, " and {others} more");
        draft.keep(added);
    }
}

/// Adds a place in parentheses.
fn put_place(draft: &mut Draft, text: &str, place: Place) {
    if let Place::Text(part) = place {
        let at = position(text.as_bytes(), part.start);
        let added = write!(draft.report.message, " ({}:{})", at.line, at.column);
        draft.keep(added);
    }
}

/// Adds tokens as they are written, with a blank between two but around dots.
pub(crate) fn put_tokens(text: &mut String, tokens: &[Token]) -> Result<(), AllocError> {
    let mut is_tight = true;
    for token in tokens {
        let is_dot = matches!(token.what, What::Dot);
        text.push_str(if is_tight || is_dot { "" } else { " " })?;
        put_token(text, &token.what)?;
        is_tight = is_dot;
    }
    Ok(())
}

/// Adds a token.
fn put_token(text: &mut String, what: &What) -> Result<(), AllocError> {
    match what {
        What::Word(word) => text.push_str(word.as_str()),
        What::Quoted(value) => put_between_quotes(text, value.as_str()),
        _ => text.push_str(sign_of(what)),
    }
}

/// Adds a text between quotes.
fn put_between_quotes(text: &mut String, value: &str) -> Result<(), AllocError> {
    text.push('"')?;
    text.push_str(value)?;
    text.push('"')
}

/// How a sign of a condition is written. It is empty for other tokens.
pub(crate) fn sign_of(what: &What) -> &'static str {
    match what {
        What::ParenOpen => "(",
        What::ParenClose => ")",
        What::Dot => ".",
        What::Bang => "!",
        What::And => "&&",
        What::Or => "||",
        _ => "",
    }
}

/// Adds words of the text between backquotes, on one line and cut.
fn put_words(draft: &mut Draft, words: &str) {
    draft.say("`");
    let added = put_cut(&mut draft.report.message, words);
    draft.keep(added);
    draft.say("`");
}

/// Adds the first characters of words, on one line.
fn put_cut(message: &mut String, words: &str) -> Result<(), AllocError> {
    let mut count = 0usize;
    let mut is_blank = false;
    for character in words.chars() {
        let blank = matches!(character, ' ' | '\t' | '\n' | '\r');
        if count >= MOST_CHARACTERS {
            return message.push_str("..");
        }
        if !blank || !is_blank {
            message.push(if blank { ' ' } else { character })?;
            count = count.saturating_add(1);
        }
        is_blank = blank;
    }
    Ok(())
}

//! Reports on names that break a rule.

use crate::scans::{ByteKind, contains, is_all};
use crate::token_places::NamesTokens;
use ifs_base::limits;
use ifs_lex::{Token, What, is_reserved};
use ifs_policy::ResolveFault;
use ifs_policy_text::TokenizedPolicy as Policy;
use ifs_report::{Draft, Part, Place, Report, Severity, is_near};
use std::alloc::{AllocError, Global};

/// What a name is of.
#[derive(Clone, Copy, PartialEq, Eq)]
pub(crate) enum Role {
    Interface,
    Test,
    Command,
    Defined,
    Target,
}

/// A policy, and its tokens that define states, by their numbers.
#[derive(Clone, Copy)]
struct Names<'p, 'a, 's> {
    policy: &'p Policy<'a>,
    states: &'s [usize],
}

/// The text of a token that can be a name or a command.
fn text_of(what: &What) -> Option<&str> {
    match what {
        What::Word(word) if !is_reserved(word.as_str()) => Some(word.as_str()),
        What::Quoted(text) => Some(text.as_str()),
        _ => None,
    }
}

/// The word that a token is. It is empty if the token is none.
pub(crate) fn word_of(what: Option<&What>) -> &str {
    match what {
        Some(What::Word(word)) => word.as_str(),
        _ => "",
    }
}

/// What a name behind this word is of.
pub(crate) fn role_behind(word: &str) -> Option<Role> {
    match word {
        "state" => Some(Role::Defined),
        "set-state" | "init-state" => Some(Role::Target),
        "run" => Some(Role::Command),
        _ => None,
    }
}

/// Whether a token can be a name or a command.
fn is_name(what: Option<&What>) -> bool {
    match what {
        Some(What::Word(word)) => !is_reserved(word.as_str()),
        Some(What::Quoted(_)) => true,
        _ => false,
    }
}

/// What the token with this number is the name of, if it is one.
fn role_at(policy: &Policy<'_>, index: usize) -> Option<Role> {
    if !is_name(policy.what(index)) {
        return None;
    }
    let role = role_behind(word_of(policy.what_before(index)));
    if role.is_some() {
        return role;
    }
    match policy.what(index.saturating_add(1)) {
        Some(What::Dot) => Some(Role::Interface),
        next if word_of(next) == "every" => Some(Role::Test),
        _ => None,
    }
}

/// Whether the token with this number is a name of a role.
pub(crate) fn has_role(policy: &Policy<'_>, index: usize, role: Role) -> bool {
    role_at(policy, index) == Some(role)
}

/// The text of the token with this number.
pub(crate) fn text_at<'p>(policy: &'p Policy<'_>, index: Option<usize>) -> &'p str {
    match policy.what_at(index) {
        Some(what) => text_of(what).unwrap_or(""),
        None => "",
    }
}

/// The report on a policy whose names break a rule.
pub(crate) fn no_policy(
    alloc: Global,
    policy: &Policy<'_>,
    fault: ResolveFault,
) -> Result<Report, AllocError> {
    let states = states_of(alloc, policy)?;
    let names = Names {
        policy,
        states: states.as_slice(),
    };
    let mut draft = Draft::new(alloc, Severity::Error);
    put_fault(alloc, names, fault, &mut draft)?;
    draft.finish()
}

/// The tokens that define states, by their numbers.
fn states_of(alloc: Global, policy: &Policy<'_>) -> Result<Vec<usize>, AllocError> {
    let mut states = Vec::new(alloc);
    for (index, _token) in policy.tokens.iter().enumerate() {
        if has_role(policy, index, Role::Defined) {
            states.push(index)?;
        }
    }
    Ok(states)
}

fn put_fault(
    alloc: Global,
    names: Names<'_, '_, '_>,
    fault: ResolveFault,
    draft: &mut Draft,
) -> Result<(), AllocError> {
    let policy = names.policy;
    match fault {
        ResolveFault::NoState { .. } => no_state(policy.text, draft),
        ResolveFault::StateTwice(place) => state_twice(alloc, names, place.number, draft),
        ResolveFault::SecondInit(place) => second_init(alloc, policy, place.number, draft),
        ResolveFault::SetStateInInit(place) => set_state_in_init(
            alloc,
            policy,
            place.number,
            draft,
        ),
        ResolveFault::TestInInit(place) => test_in_init(alloc, policy, place.number, draft),
        ResolveFault::TableFull(place) => return table_full(alloc, policy, place.number, draft),
        ResolveFault::BadText(place) => bad_text(alloc, policy, place.number, draft),
        ResolveFault::UnknownState(place) => {
            return unknown_state(alloc, names, place.number, draft);
        }
        ResolveFault::Memory => return Err(AllocError),
    }
    Ok(())
}

fn no_state(text: &str, draft: &mut Draft) {
    draft.at(Place::Text(Part { start: 0, end: 0 }));
    draft.say("the text has no state");
    draft.expect("`state`");
    draft.hint(hint_without_state(text));
}

fn hint_without_state(text: &str) -> &'static str {
    if is_all(text, ByteKind::Space) {
        return "the text is empty: is this the right file?";
    }
    if !contains(text, "\n") && contains(text, "\r") {
        return "all of it is a comment: its lines end in carriage returns, without newlines";
    }
    "write one: state NAME { }"
}

/// The first token that defines the state whose name a token has.
fn state_of(names: Names<'_, '_, '_>, index: usize) -> Option<usize> {
    let name = text_at(names.policy, Some(index));
    for state in names.states {
        if text_at(names.policy, Some(*state)) == name {
            return Some(*state);
        }
    }
    None
}

/// The same, if it comes before the token.
fn first_of(names: Names<'_, '_, '_>, index: usize) -> Option<usize> {
    let first = state_of(names, index)?;
    if first < index { Some(first) } else { None }
}

fn state_twice(alloc: Global, names: Names<'_, '_, '_>, index: usize, draft: &mut Draft) {
    let policy = names.policy;
    let second = Some(index);
    draft.say_quoted("the state ", text_at(policy, second), " is defined twice");
    draft.put_token(alloc, policy, second, "the name");
    if let Some(first) = first_of(names, index) {
        draft.label_token(alloc, policy, first, "first defined here");
    }
    draft.hint("join the two, or rename one");
}

fn unknown_state(
    alloc: Global,
    names: Names<'_, '_, '_>,
    index: usize,
    draft: &mut Draft,
) -> Result<(), AllocError> {
    let found = Some(index);
    let name = text_at(names.policy, found);
    draft.say_quoted("no state has the name ", name, "");
    draft.put_token(alloc, names.policy, found, "the name");
    draft.expect("the name of a state");
    match near_state(alloc, names, name)? {
        Some(near) => {
            draft.label_token(alloc, names.policy, near, "the nearest name");
            draft.hint_of("did you mean `", text_at(names.policy, Some(near)), "`?");
        }
        None => draft.hint_of("define it: state ", name, " { .. }"),
    }
    Ok(())
}

/// The first state whose name is nearly this one, by the number of its token.
fn near_state(
    alloc: Global,
    names: Names<'_, '_, '_>,
    name: &str,
) -> Result<Option<usize>, AllocError> {
    for index in names.states {
        if is_near(alloc, name, text_at(names.policy, Some(*index)))? {
            return Ok(Some(*index));
        }
    }
    Ok(None)
}

/// The words `init` and `init-state` that count at a place.
#[derive(Clone, Copy)]
struct Inits {
    depth: usize,
    always: Option<usize>,
    state: Option<usize>,
    initial: Option<usize>,
}

impl Inits {
    /// Takes one more token. Returns the earlier word if the token is a second one.
    fn take(&mut self, index: usize, token: &Token) -> Option<usize> {
        match &token.what {
            What::BraceOpen => self.depth = self.depth.saturating_add(1),
            What::BraceClose => self.depth = self.depth.saturating_sub(1),
            What::Word(word) => return self.word(index, word.as_str()),
            _ => {}
        }
        None
    }

    fn word(&mut self, index: usize, word: &str) -> Option<usize> {
        let place = match word {
            "state" => {
                self.state = None;
                return None;
            }
            "init-state" => &mut self.initial,
            "init" if self.depth == 0 => &mut self.always,
            "init" => &mut self.state,
            _ => return None,
        };
        let earlier = *place;
        if earlier.is_none() {
            *place = Some(index);
        }
        earlier
    }
}

/// The `init` or `init-state` before the token with this number, which is a second one.
fn earlier_word(policy: &Policy<'_>, number: usize) -> Option<usize> {
    let mut inits = Inits {
        depth: 0,
        always: None,
        state: None,
        initial: None,
    };
    for (index, token) in policy.tokens.iter().enumerate() {
        let earlier = inits.take(index, token);
        if index == number {
            return earlier;
        }
    }
    None
}

fn second_init(alloc: Global, policy: &Policy<'_>, index: usize, draft: &mut Draft) {
    draft.put_token(alloc, policy, Some(index), "in this value");
    if let Some(earlier) = earlier_word(policy, index) {
        draft.label_token(alloc, policy, earlier, "the first one");
    }
    if word_of(policy.what(index)) == "init-state" {
        draft.say("a second `init-state`");
        draft.hint("keep one of them");
    } else {
        draft.say("a second `init` of one part");
        draft.hint("join their blocks");
    }
}

fn set_state_in_init(alloc: Global, policy: &Policy<'_>, index: usize, draft: &mut Draft) {
    draft.say("`set-state` cannot stand in an `init`");
    draft.put_use(alloc, policy, Some(index), "in this value");
    draft.expect("`if`");
    draft.expect("`run`");
    draft.hint("write it into the body of the state: the next tick evaluates that");
}

fn test_in_init(alloc: Global, policy: &Policy<'_>, index: usize, draft: &mut Draft) {
    draft.say("a test cannot stand in an `init`");
    draft.put_use(alloc, policy, Some(index), "the test");
    draft.expect("a link");
    draft.hint("ask it in the body, or in a script that `run` starts");
}

/// The names of a role, and the most of them.
fn table_of(role: Role) -> (&'static str, u16) {
    match role {
        Role::Interface => ("interfaces", limits::INTERFACES),
        Role::Test => ("tests", limits::TESTS),
        Role::Command => ("commands", limits::COMMANDS),
        Role::Defined | Role::Target => ("states", limits::STATES),
    }
}

fn table_full(
    alloc: Global,
    policy: &Policy<'_>,
    index: usize,
    draft: &mut Draft,
) -> Result<(), AllocError> {
    let (names, most) = table_of(role_at(policy, index).unwrap_or(Role::Interface));
    draft.put_token(alloc, policy, Some(index), "one of them");
    draft.hint("use a script with arguments, or one command for several hosts");
    write!(draft.report.message, "a policy has at most {most} {names}")
}

fn bad_text(alloc: Global, policy: &Policy<'_>, index: usize, draft: &mut Draft) {
    let found = Some(index);
    draft.put_token(alloc, policy, found, "the text");
    let text = text_at(policy, found);
    let is_command = matches!(role_at(policy, index), Some(Role::Command | Role::Test));
    if text.is_empty() {
        put_empty(is_command, draft);
    } else {
        put_unfit(text.len(), is_command, draft);
    }
}

/// Says of an empty text what it has to be.
fn put_empty(is_command: bool, draft: &mut Draft) {
    draft.say("`\"\"` cannot stand here");
    if is_command {
        draft.expect("a command of 1 to 1024 bytes");
        draft.hint("leave out the `run` that runs nothing");
    } else {
        draft.expect("a name of 1 to 1024 bytes");
        draft.hint("write the name");
    }
}

/// Says what is wrong with a text of this length.
fn put_unfit(bytes: usize, is_command: bool, draft: &mut Draft) {
    if is_command {
        draft.say("this command has ");
        draft.hint("put it into a script, and run that");
    } else {
        draft.say("this name has ");
        draft.hint("choose a shorter name, without a byte 0");
    }
    if bytes <= 1024 {
        draft.say("a byte 0");
        return;
    }
    draft.expect("1 to 1024 bytes");
    let added = write!(draft.report.message, "{bytes} bytes");
    draft.keep(added);
}

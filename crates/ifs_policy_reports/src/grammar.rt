//! Reports on tokens that do not follow the grammar.

use crate::hints::put_hint;
use crate::open_signs::put_unclosed_value;
use crate::token_places::NamesTokens;
use crate::wording::{has, put_words};
use ifs_expected_tokens::{Kind, Stop, stop_of};
use ifs_lex::What;
use ifs_parse::ParseFault;
use ifs_policy_text::TokenizedPolicy;
use ifs_policy_text::macros::last_named;
use ifs_report::{Draft, Report, Severity};
use std::alloc::{AllocError, Global};

/// What is seen of the place where the grammar stops.
#[derive(Clone, Copy)]
pub(crate) struct Seen<'p, 'a> {
    pub policy: &'p TokenizedPolicy<'a>,
    pub definitions: &'a [(&'a str, &'a str)],
    /// The number of the token.
    pub index: usize,
    /// What could be there.
    pub kinds: &'p [Kind],
    /// What is there.
    pub word: &'p str,
}

/// The report on tokens that are no policy.
pub(crate) fn no_tree<'a>(
    alloc: Global,
    policy: &mut TokenizedPolicy<'a>,
    definitions: &'a [(&'a str, &'a str)],
    fault: ParseFault,
) -> Result<Report, AllocError> {
    let stop = stop_of(alloc, &mut policy.tokens, fault)?;
    let mut draft = Draft::new(alloc, Severity::Error);
    put_stop(alloc, policy, definitions, fault, &stop, &mut draft)?;
    draft.finish()
}

/// Says what is wrong at the place where the grammar stops.
fn put_stop<'a>(
    alloc: Global,
    policy: &TokenizedPolicy<'a>,
    definitions: &'a [(&'a str, &'a str)],
    fault: ParseFault,
    stop: &Option<Stop>,
    draft: &mut Draft,
) -> Result<(), AllocError> {
    let Some(stop) = stop else {
        draft.say("the text does not follow the grammar");
        return Ok(());
    };
    let spot = policy.spot(alloc, stop.index)?;
    let seen = Seen {
        policy,
        definitions,
        index: stop.index,
        kinds: stop.kinds.as_slice(),
        word: policy.word(spot.place, definitions),
    };
    if put_unclosed_value(alloc, seen, draft)? {
        return Ok(());
    }
    put_words(draft, seen.kinds, policy.what_before(seen.index));
    draft.put_spot(spot, "its value begins here");
    if let ParseFault::Nesting(_) = fault {
        put_nesting(seen.word, draft);
        return Ok(());
    }
    put_message(seen, draft);
    put_mending(alloc, seen, draft)
}

/// Says that too much is open.
fn put_nesting(word: &str, draft: &mut Draft) {
    draft.say_quoted("", word, " is the 33rd of `if`, `!` and `(` that are open");
    draft.rule("at most 32 of `if`, `!` and `(` are open at the same time");
    draft.hint("put parts of the condition into states of their own");
}

/// Says what cannot be here.
fn put_message(seen: Seen<'_, '_>, draft: &mut Draft) {
    match seen.policy.what(seen.index) {
        Some(What::End) => draft.say("the text cannot end here"),
        _ => draft.say_quoted("", seen.word, " cannot stand here"),
    }
}

/// Adds what would mend the text, with the places that this speaks of.
fn put_mending(alloc: Global, seen: Seen<'_, '_>, draft: &mut Draft) -> Result<(), AllocError> {
    if has(seen.kinds, Kind::Every) {
        put_name(alloc, seen, draft);
    }
    put_hint(alloc, seen, draft)
}

/// Names the name or the command behind which a condition cannot go on.
fn put_name(alloc: Global, seen: Seen<'_, '_>, draft: &mut Draft) {
    match seen.policy.what_before(seen.index) {
        Some(What::Quoted(_)) => {
            let last = seen.index.saturating_sub(1);
            draft.label_token(alloc, seen.policy, last, "without a period");
        }
        Some(What::Word(name)) => put_macro(seen.policy, name.as_str(), draft),
        _ => {}
    }
}

/// Names the last macro of a name, if there is one.
fn put_macro(policy: &TokenizedPolicy<'_>, name: &str, draft: &mut Draft) {
    if let Some(found) = last_named(policy.macros.as_slice(), name) {
        draft.label(found.name_place(), "the macro of this name");
    }
}

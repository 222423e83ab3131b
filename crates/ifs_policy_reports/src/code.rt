//! Reports on policies with too much code for an image.

use crate::names::{Role, has_role, text_at};
use crate::token_places::NamesTokens;
use ifs_base::RoutineId;
use ifs_gen::GenFault;
use ifs_policy_text::TokenizedPolicy;
use ifs_report::{Draft, Report, Severity};
use std::alloc::{AllocError, Global};

/// The report on a policy that is too large.
pub(crate) fn no_image(
    alloc: Global,
    policy: &TokenizedPolicy<'_>,
    fault: GenFault,
) -> Result<Report, AllocError> {
    let limit = limit_of(fault)?;
    let mut draft = Draft::new(alloc, Severity::Error);
    put_limit(alloc, policy, limit, &mut draft);
    draft.finish()
}

/// A limit that a routine or the whole policy passes.
#[derive(Clone, Copy)]
struct Limit {
    routine: Option<RoutineId>,
    words: &'static str,
    rule: &'static str,
    hint: &'static str,
}

fn limit_of(fault: GenFault) -> Result<Limit, AllocError> {
    match fault {
        GenFault::RoutineTooLong(routine) => Ok(Limit {
            routine: Some(routine),
            words: "has over 1024 instructions",
            rule: "`run` and `set-state` count as two instructions; `if`, a link, a test, `!`, `&&` and `||` as one",
            hint: "let one script do several commands, or put one `if` around actions of the same condition",
        }),
        GenFault::StackTooHigh(routine) => Ok(Limit {
            routine: Some(routine),
            words: "keeps over 32 truths of one condition at a time",
            rule: "each `(` on the right of `&&` or `||` keeps one more truth",
            hint: "write the parentheses first: `( a || b ) && c` keeps two",
        }),
        GenFault::CodeTooLong => Ok(Limit {
            routine: None,
            words: "the policy has over 8192 instructions",
            rule: "",
            hint: "move actions that states share out of the states",
        }),
        GenFault::TooManyCommands => Ok(Limit {
            routine: None,
            words: "one event may run over 64 commands",
            rule: "",
            hint: "let one script do several commands",
        }),
        GenFault::Memory => Err(AllocError),
    }
}

fn put_limit(alloc: Global, policy: &TokenizedPolicy<'_>, limit: Limit, draft: &mut Draft) {
    draft.rule(limit.rule);
    draft.hint(limit.hint);
    if let Some(routine) = limit.routine {
        put_routine(alloc, policy, routine, draft);
    }
    draft.say(limit.words);
}

/// Names a routine: the `init` or the body of a state, or of what is outside of states.
fn put_routine(alloc: Global, policy: &TokenizedPolicy<'_>, routine: RoutineId, draft: &mut Draft) {
    let number = usize::from(routine.0);
    draft.say(if number % 2 == 0 {
        "the `init`"
    } else {
        "the body"
    });
    match (number / 2).checked_sub(1) {
        Some(state) => put_state(alloc, policy, state_at(policy, state), draft),
        None => draft.say(" outside of states "),
    }
}

/// Names a state by the number of its token.
fn put_state(alloc: Global, policy: &TokenizedPolicy<'_>, index: Option<usize>, draft: &mut Draft) {
    if index.is_some() {
        draft.put_token(alloc, policy, index, "its name");
        draft.say_of(" of state `", text_at(policy, index), "` ");
    } else {
        draft.say(" of a state ");
    }
}

/// The number of the token that names the state with this number.
fn state_at(policy: &TokenizedPolicy<'_>, state: usize) -> Option<usize> {
    let mut left = state;
    for (index, _token) in policy.tokens.iter().enumerate() {
        if has_role(policy, index, Role::Defined) {
            if left == 0 {
                return Some(index);
            }
            left -= 1;
        }
    }
    None
}

//! What the opening of a policy would run.

use crate::evaluating::{Evaluated, Moment, outcome_of};
use crate::sides::Side;
use ifs_base::LinkState;
use ifs_policy::Policy;
use ifs_solver::{Domain, FactSet};
use std::alloc::{AllocError, Global};

/// The texts of the commands that the opening of a policy queues, in order, if these link states are known by the names of
/// their interfaces, as after a reload. Other links are unknown, names of no interface are left out, and no test has a value.
/// Returns an error if an allocation fails.
pub fn opening_under(
    alloc: Global,
    new: &Policy,
    links: &[(&str, LinkState)],
) -> Result<Vec<String>, AllocError> {
    let side = Side {
        initial: new.initial(),
        always: new.always(),
        states: new.states(),
    };
    let facts = facts_under(alloc, new, links)?;
    let mut texts = Vec::new(alloc);
    if let Evaluated::Known(outcome) = outcome_of(alloc, side, Moment::Opening, &facts)? {
        for command in outcome.commands.iter() {
            if let Some(text) = new.command(*command) {
                let mut copy = String::new(alloc);
                copy.push_str(text.as_str())?;
                texts.push(copy)?;
            }
        }
    }
    Ok(texts)
}

/// The facts that are known at an opening.
fn facts_under(
    alloc: Global,
    policy: &Policy,
    links: &[(&str, LinkState)],
) -> Result<FactSet, AllocError> {
    let unknown = Domain::ANY.only(LinkState::Unknown);
    let counts = policy.counts();
    let mut known = Vec::new(alloc);
    for index in 0..usize::from(counts.interfaces) {
        known.push(choice_under(policy, index, links))?;
    }
    let tests = vec![in alloc; unknown; usize::from(counts.tests)]?;
    Ok(FactSet {
        links: known,
        tests,
    })
}

/// The state of a link, which is unknown if no name is that of its interface.
fn choice_under(policy: &Policy, index: usize, links: &[(&str, LinkState)]) -> Domain {
    let mut state = LinkState::Unknown;
    if let Some(name) = policy.tables().interfaces.get(index) {
        for (other, known) in links {
            if *other == name.as_str() {
                state = *known;
            }
        }
    }
    Domain::ANY.only(state)
}

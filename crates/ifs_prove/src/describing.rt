//! The requests that break a claim, and what is so then.

use crate::fronts::{Front, front_of};
use crate::laps::StateSet;
use crate::trial::{Ending, Trial};
use crate::wording::situation_of;
use ifs_base::LinkState;
use ifs_claim_parse::Claim;
use ifs_core::{Core, Step};
use ifs_play::{make_steps, opened_knowing, requests_of};
use ifs_policy::Policy;
use std::alloc::{AllocError, Global};

/// The words on steps that break a claim.
#[derive(Drop)]
pub(crate) struct Words {
    pub requests: String,
    pub situation: String,
}

/// A trial that breaks a claim.
#[derive(Clone, Copy)]
pub(crate) struct Showing<'a> {
    pub policy: &'a Policy,
    pub image: &'a [u8],
    pub claim: &'a Claim,
    pub trial: &'a Trial,
    /// The links that a reload knows, if it knows any.
    pub links: &'a [LinkState],
}

/// The request lines of a trial that breaks a claim, and what is so then. Of steps in a world, as many as show it. `meant` has the
/// states of each `may flap` line.
pub(crate) fn described(
    alloc: Global,
    meant: &[StateSet],
    showing: Showing<'_>,
) -> Result<Words, AllocError> {
    let front = front_in(alloc, meant, showing)?;
    match opened_knowing(alloc, showing.image, showing.links)? {
        Some(core) => {
            let mut core = core;
            described_by(alloc, &mut core, front, showing)
        }
        None => Ok(Words {
            requests: String::new(alloc),
            situation: String::new(alloc),
        }),
    }
}

/// The steps of a trial that are printed. None of an opening, and if rounds go on behind them.
pub(crate) fn steps_of(
    alloc: Global,
    meant: &[StateSet],
    showing: Showing<'_>,
) -> Result<Option<Vec<Step>>, AllocError> {
    let front = front_in(alloc, meant, showing)?;
    if front.is_round || matches!(showing.trial.ending, Ending::Opening) {
        return Ok(None);
    }
    let mut steps = Vec::new(alloc);
    put_steps(&mut steps, showing.trial, 0, front)?;
    Ok(Some(steps))
}

/// The front of the steps in a world that is printed.
fn front_in(alloc: Global, meant: &[StateSet], showing: Showing<'_>) -> Result<Front, AllocError> {
    let (Ending::Within(steps, _), Claim::RestsWithin(most)) = (
        &showing.trial.ending,
        showing.claim,
    ) else {
        return Ok(Front::NONE);
    };
    match opened_knowing(alloc, showing.image, showing.links)? {
        Some(core) => {
            let mut core = core;
            make_steps(&mut core, showing.trial.begun.as_slice());
            front_of(alloc, &mut core, steps.as_slice(), meant, *most)
        }
        None => Ok(Front::NONE),
    }
}

/// The same on a core that is just opened.
fn described_by(
    alloc: Global,
    core: &mut Core<'_>,
    front: Front,
    showing: Showing<'_>,
) -> Result<Words, AllocError> {
    let Showing {
        policy,
        claim,
        trial,
        ..
    } = showing;
    let requests = requests_in(alloc, policy, trial, core.queue_len(), front)?;
    let situation = situation_of(alloc, policy, core, claim, trial, front)?;
    Ok(Words {
        requests,
        situation,
    })
}

/// The request lines of all steps of a trial that are printed. Of an opening, as many as take its commands.
fn requests_in(
    alloc: Global,
    policy: &Policy,
    trial: &Trial,
    queued: usize,
    front: Front,
) -> Result<String, AllocError> {
    let mut steps = Vec::new(alloc);
    put_steps(&mut steps, trial, queued, front)?;
    requests_of(alloc, policy, steps.as_slice())
}

/// Adds the steps of a trial that are printed.
fn put_steps(
    steps: &mut Vec<Step>,
    trial: &Trial,
    queued: usize,
    front: Front,
) -> Result<(), AllocError> {
    steps.extend_from_slice(trial.begun.as_slice())?;
    match &trial.ending {
        Ending::There => Ok(()),
        Ending::By(step) => steps.extend_from_slice(&[*step]),
        Ending::Opening => put_takes(steps, queued),
        Ending::Within(further, _) => steps.extend_from_slice(front.of(further.as_slice())),
    }
}

/// Adds steps that take commands.
fn put_takes(steps: &mut Vec<Step>, queued: usize) -> Result<(), AllocError> {
    for _ in 0..queued {
        steps.push(Step::Take)?;
    }
    Ok(())
}

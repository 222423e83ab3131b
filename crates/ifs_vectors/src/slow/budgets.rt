//! The stated budgets against what handlers use.

use crate::slow::bounds::{Bounds, at};
use crate::slow::listing::Listing;
use ifs_base::RoutineId;
use ifs_image::{Budgets, ImageParts};
use ifs_verify::{At, VerifyFault};

/// Checks that no event uses more than the image states.
pub fn check_budgets(
    parts: &ImageParts,
    listing: &Listing,
    bounds: &[Bounds],
) -> Result<(), VerifyFault> {
    let used = evaluation(parts, listing, bounds).or(opening(parts, listing, bounds));
    match used.over(stated(parts.budgets)) {
        Some(check) => Err(check.at(At::Head)),
        None => Ok(()),
    }
}

/// What the image states.
fn stated(budgets: Budgets) -> Bounds {
    Bounds {
        height: u32::from(budgets.stack),
        frames: u32::from(budgets.frames),
        cost: budgets.cost,
        commands: u32::from(budgets.commands),
    }
}

/// What an evaluation uses: the always body, any state's body, and any state's init.
fn evaluation(parts: &ImageParts, listing: &Listing, bounds: &[Bounds]) -> Bounds {
    let mut body = Bounds::default();
    let mut init = Bounds::default();
    for state in parts.states.as_slice() {
        body = body.or(used_by(listing, bounds, state.handlers.body));
        init = init.or(used_by(listing, bounds, state.handlers.init));
    }
    used_by(listing, bounds, parts.always.body)
        .then(body)
        .then(init)
}

/// What the opening uses: the always init, and that of the initial state.
fn opening(parts: &ImageParts, listing: &Listing, bounds: &[Bounds]) -> Bounds {
    let always = used_by(listing, bounds, parts.always.init);
    let states = parts.states.as_slice();
    match states.get(usize::from(parts.initial.0)) {
        Some(state) => always.then(used_by(listing, bounds, state.handlers.init)),
        None => always,
    }
}

/// What a routine uses, with all that it calls.
fn used_by(listing: &Listing, bounds: &[Bounds], routine: RoutineId) -> Bounds {
    at(bounds, listing.first_of(routine))
}

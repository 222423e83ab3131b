//! The steps on each accepted image.

use crate::mismatch::Mismatch;
use ifs_base::{IfaceId, LinkState, TestId};
use ifs_core::{Core, Lists, Outcome, Step};
use ifs_image::Budgets;
use ifs_verify::verify;
use std::alloc::Global;

/// How many steps an image gets.
const STEPS: u64 = 200;

/// Opens an accepted image, and makes the steps. Neither the opening nor an event may exceed the stated budgets.
pub fn check_steps(alloc: Global, bytes: &[u8], stated: Budgets) -> Result<(), Mismatch> {
    let Ok(verified) = verify(alloc, bytes) else {
        return Err(Mismatch::NotOpened);
    };
    let Ok(mut core) = Core::open(alloc, verified) else {
        return Err(Mismatch::NotOpened);
    };
    make_steps(&mut core, stated)
}

/// Makes the steps on a core that was just opened.
fn make_steps(core: &mut Core<'_>, stated: Budgets) -> Result<(), Mismatch> {
    if core.queue_len() > usize::from(stated.commands) {
        return Err(Mismatch::Over { step: 0 });
    }
    let mut lists = Lists::new();
    for number in 0..STEPS {
        let outcome = core.step_into(step_of(number), &mut lists);
        if !keeps(outcome, &lists, stated) {
            return Err(Mismatch::Over { step: number + 1 });
        }
    }
    Ok(())
}

/// Whether a reply, in its two parts, keeps to the stated budgets.
fn keeps(outcome: Outcome, lists: &Lists, stated: Budgets) -> bool {
    match outcome {
        Outcome::Done { cost, .. } | Outcome::Ticked { cost, .. } => {
            cost <= stated.cost && lists.effects.queued.len() <= usize::from(stated.commands)
        }
        _ => true,
    }
}

/// The step of a number. Twelve steps take turns. Interfaces change, time advances by the longest period, and two commands are
/// taken. Tests end too. Their run numbers fit one or two starts at each tick, or at every other tick.
fn step_of(number: u64) -> Step {
    let turn = number / 12;
    let changed = if turn % 2 == 0 {
        LinkState::Up
    } else {
        LinkState::Down
    };
    match number % 12 {
        0 => Step::Link(IfaceId(0), changed),
        1 => Step::Tick(turn.saturating_mul(604_800)),
        2 => Step::Finished(TestId(0), turn.saturating_add(1), turn % 3 != 0),
        3 => Step::Finished(
            TestId(0),
            turn.saturating_mul(2).saturating_add(1),
            turn % 4 != 0,
        ),
        4 => Step::Finished(
            TestId(1),
            turn.saturating_mul(2).saturating_add(2),
            turn % 3 != 0,
        ),
        5 => Step::Finished(TestId(0), (turn / 2).saturating_add(1), true),
        6 => Step::Link(IfaceId(1), changed),
        7 => Step::Link(IfaceId(2), LinkState::Up),
        8 => Step::Link(IfaceId(0), LinkState::Unknown),
        9 => Step::Link(IfaceId(0), changed),
        _ => Step::Take,
    }
}

//! What is seen of two yields within a range.

ghost use Rattle.std.specs.Bool.{OnFalse, OnTrue};
ghost use Rattle.std.specs.Prelude.{◌≡◌, ◌≢◌};
ghost use Rattle.ifs_compare.specs.inner.Comparing.{IsLookOf};
ghost use Rattle.ifs_solver.specs.Reaching.{effects_of};

use ifs_base::{CommandId, StateId};
use ifs_solver::{Branch, Reached, Yielded};

/// What is seen of two yields within a range.
#[derive(Clone, Copy)]
pub(crate) enum Look {
    /// They are the same under all facts.
    Same,
    /// They differ under all facts.
    Different,
    /// One of them depends on this fact. Their commands differ before that.
    Apart(Branch),
    /// One of them depends on this fact.
    Open(Branch),
}

/// Whether two lists of commands are the same.
pub(crate) fn same_commands(one: &[CommandId], other: &[CommandId]) -> bool
    ensures same { OnTrue result (one.now ≡ other.now) }
    ensures different { OnFalse result (one.now ≢ other.now) }
{
    if one.len() != other.len() {
        return false;
    }
    for index in 0..one.len() {
        if one[index].0 != other[index].0 {
            return false;
        }
    }
    true
}

/// Whether two wishes are the same.
pub(crate) fn same_wish(one: Option<StateId>, other: Option<StateId>) -> bool
    ensures same { OnTrue result (one ≡ other) }
    ensures different { OnFalse result (one ≢ other) }
{
    match (one, other) {
        (None, None) => true,
        (Some(one), Some(other)) => one.0 == other.0,
        _ => false,
    }
}

/// Whether the same commands and the same wish are reached.
fn same_effects(one: &Reached, other: &Reached) -> bool
    ensures same { OnTrue result (effects_of one.now ≡ effects_of other.now) }
    ensures different { OnFalse result (effects_of one.now ≢ effects_of other.now) }
{
    same_commands(one.commands.as_slice(), other.commands.as_slice())
        && same_wish(one.wish, other.wish)
}

/// Whether two lists of commands differ, whatever comes after each.
fn are_apart(one: &[CommandId], other: &[CommandId]) -> bool {
    for (first, second) in one.iter().zip(other.iter()) {
        if first.0 != second.0 {
            return true;
        }
    }
    false
}

/// What two yields say.
pub(crate) fn look_of(old: &Yielded, new: &Yielded) -> Look
    ensures { IsLookOf old.now new.now result }
{
    match (old.pending, new.pending) {
        (None, None) => {
            if same_effects(&old.reached, &new.reached) {
                Look::Same
            } else {
                Look::Different
            }
        }
        (Some(ask), _) | (None, Some(ask)) => {
            let (one, other) = (&old.reached.commands, &new.reached.commands);
            if are_apart(one.as_slice(), other.as_slice()) {
                Look::Apart(ask)
            } else {
                Look::Open(ask)
            }
        }
    }
}

//! Laws about every policy and every list of steps.

ghost use Rattle.ifs_solver.specs.Places.{NoneIsMissed, OneAnswer};
ghost use Rattle.ifs_solver.specs.Situations.{ClosedHolds, EnteredByWishes, HoldsOfImages, RestsStay};

use ifs_gen::laws::image_means_policy;

/// A set of situations that has the openings, and with each situation all that an evaluation makes of its state under any
/// facts, has every situation that steps lead to.
pub fn closed_holds()
    ensures { ClosedHolds }
{}

/// Where nothing is owed, an evaluation under the facts as they are leads to no other state.
pub fn rests_stay()
    ensures { RestsStay }
{}

/// A set of states that has the initial one, and with each state those that an evaluation in it leads to under any facts,
/// has every state that steps enter.
pub fn entered_by_wishes()
    ensures { EnteredByWishes }
{}

/// What holds after any steps of a policy holds after any steps of every core that is opened on its image.
pub fn holds_of_images()
    ensures { HoldsOfImages }
{
    image_means_policy();
}

/// At most one answer for a place is right, apart from `Undecided`.
pub fn one_answer()
    ensures { OneAnswer }
{}

/// What is true of a place is its answer in the list of answers, unless that is `Undecided`. So if an answer does not occur
/// in the list, and all are decided, it is true of no place.
pub fn none_is_missed()
    ensures { NoneIsMissed }
{}

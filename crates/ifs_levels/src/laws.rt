//! Laws about every policy, every set of situations with levels, and every list of steps.

ghost use Rattle.ifs_levels.specs.Levels.{LevelsCarryOver, LevelsClosed, LevelsClosedFromOpenings, LevelsRestWithin, LevelsStayWithin, RunsInOrder};

use ifs_claims::laws::{cores_are_in_situations, steps_evaluate_once};

/// What was run, and then what is in the queue, is what was queued.
pub fn runs_in_order()
    ensures { RunsInOrder }
{}

/// A set of situations with levels that has the openings, and with each of them all that an evaluation makes of its state and
/// its level under any facts, has every situation and level that steps lead to.
pub fn levels_closed()
    ensures { LevelsClosed }
{
    steps_evaluate_once();
}

/// The same from each opening, also at the levels that reloads find, if the set has an opening at each of its levels.
pub fn levels_closed_from_openings()
    ensures { LevelsClosedFromOpenings }
{
    steps_evaluate_once();
}

/// If each rest of such a set in a state has a level in a range while a guard is met, the policy rests so.
pub fn levels_rest_within()
    ensures { LevelsRestWithin }
{
    steps_evaluate_once();
}

/// If no command of an opening or of an evaluation leads out of a range from such a set, the level by what was run stays in the
/// range after any steps.
pub fn levels_stay_within()
    ensures { LevelsStayWithin }
{
    steps_evaluate_once();
}

/// A core that is opened on the image of a policy has queued what the policy has, so each level is the same.
pub fn levels_carry_over()
    ensures { LevelsCarryOver }
{
    cores_are_in_situations();
}

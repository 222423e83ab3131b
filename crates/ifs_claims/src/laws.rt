//! Laws about every policy and every list of steps.

ghost use Rattle.ifs_claims.specs.Claims.{ClaimsCarryOver, CoresAreInSituations};
ghost use Rattle.ifs_claims.specs.Changes.{ChangesCarryOver};
ghost use Rattle.ifs_claims.specs.Moves.{FactsStay, OwedAreFresh, StatesStay, StepsEvaluate, StepsEvaluateOnce};

use ifs_gen::laws::image_means_policy;

/// After any steps a policy has facts for each of its links and tests.
pub fn facts_stay()
    ensures { FactsStay }
{}

/// After any steps the current state is one of those of the policy.
pub fn states_stay()
    ensures { StatesStay }
{}

/// A step leaves the state as it is, or leads where an evaluation leads under the facts that the step sees. It queues
/// nothing, or the commands of that evaluation.
pub fn steps_evaluate()
    ensures { StepsEvaluate }
{}

/// A step evaluates nothing: it leaves the situation as it is and queues nothing. Or it makes one evaluation under the facts that it
/// sees: it leads where that leads, and queues the commands of that.
pub fn steps_evaluate_once()
    ensures { StepsEvaluateOnce }
{}

/// Where an evaluation is owed, the state is the initial one, or an evaluation has just led there. The facts are as they were, but
/// tests that are not active outside of states have lost their values.
pub fn owed_are_fresh()
    ensures { OwedAreFresh }
{}

/// After any steps a core that is opened on the image of a policy is in the situation that the policy is in, and has
/// queued the same commands.
pub fn cores_are_in_situations()
    ensures { CoresAreInSituations }
{
    image_means_policy();
}

/// A claim that holds of a policy holds of each core that is opened on its image.
pub fn claims_carry_over()
    ensures { ClaimsCarryOver }
{
    image_means_policy();
}

/// If the state of a policy never changes more often than so while no fact does, neither does that of a core that is
/// opened on its image.
pub fn changes_carry_over()
    ensures { ChangesCarryOver }
{
    image_means_policy();
}

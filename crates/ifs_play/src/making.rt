//! Steps of a core.

ghost use Rattle.std.specs.Prelude.{◌++◌, ◌∷◌, [], List};
ghost use Rattle.std.specs.Bool.{OnTrue};
ghost use Rattle.ifs_core.specs.Gateway.{Known};
ghost use Rattle.ifs_core.specs.Steps.{ChangesNothing};
ghost use Rattle.ifs_core.specs.declared.step.Step.{Step as StepOfCore};
ghost use Rattle.ifs_gen.specs.Trees.{Policy};
ghost use Rattle.ifs_play.specs.Made.{HasMade};

use ifs_core::{Core, Reply, Step};

/// Makes a step of a core.
pub fn make_step(core: &mut Core<'_>, step: Step)
    ensures { (policy : Policy) (known : Known) (begun : List StepOfCore) → HasMade policy known begun core.old → HasMade policy known (begun ++ step ∷ []) core.new }
{
    core.step(step);
}

/// Makes steps of a core, one after the other.
pub fn make_steps(core: &mut Core<'_>, steps: &[Step])
    ensures { (policy : Policy) (known : Known) (begun : List StepOfCore) → HasMade policy known begun core.old → HasMade policy known (begun ++ steps.now) core.new }
{
    for step in steps {
        make_step(core, *step);
    }
}

/// Whether a reply says that the step changed nothing.
pub(crate) fn changes_nothing(reply: &Reply) -> bool
    ensures { OnTrue result (ChangesNothing reply.now) }
{
    match reply {
        Reply::Empty | Reply::Busy | Reply::Stale | Reply::Backwards | Reply::NoSuch => true,
        Reply::Done { .. } | Reply::Same | Reply::Ticked { .. } | Reply::Taken(_) => false,
    }
}

//! Laws of runs.

ghost use Rattle.std.specs.Prelude.{◌≡◌, ◌≤◌};
ghost use Rattle.ifs_core.specs.Event.{Behaviour};
ghost use Rattle.ifs_core.specs.Machine.{IsBehaviour};
ghost use Rattle.ifs_core.specs.Steps.{cost_told, turn, TraceKeeps256};
ghost use Rattle.ifs_core.specs.Headline.{AcceptedIsKept, Headline};
ghost use Rattle.ifs_core.specs.Carrying.{LinksStand};
ghost use Rattle.ifs_core.specs.UpgradeKeeps.{UpgradeKeeps, UpgradeKeepsBytes};

use crate::gateway::Core;
use crate::step::{Reply, Step};
use ifs_image::laws::one_spelling;
use ifs_machine::laws::{
    handlers_end, runs_are_unique, runs_follow, runs_stay_within, upgrade_keeps_runs,
};
use ifs_verify::laws::upgrade_keeps_acceptance;

/// The headline, for every byte string that `verify` accepts and every list of steps with any values. No step
/// traps. Each step runs at most the image's stated instructions, within its stated stack and frames. It queues at
/// most its stated number of commands, all from its table, and leaves a state of its list. States and replies are
/// those of the machine's table. `Busy` comes only if the queue lacks that stated room, and changes nothing. The
/// opening is included.
pub fn headline()
    ensures { Headline }
{
    accepted_is_kept();
}

/// The headline of every accepted image within its limits, whatever bytes spell it.
pub fn accepted_is_kept()
    ensures { AcceptedIsKept }
{
    handlers_end();
    runs_are_unique();
    runs_follow();
    runs_stay_within();
}

/// The upgrade of an image of version 1 within its limits is within them too. Both are accepted alike, and have the
/// same events and the same budgets, stated and least.
pub fn upgrade_keeps()
    ensures { UpgradeKeeps }
{
    upgrade_keeps_acceptance();
    upgrade_keeps_runs();
}

/// The same of bytes that spell an image of version 1 and of those that spell its upgrade, which exist.
pub fn upgrade_keeps_bytes()
    ensures { UpgradeKeepsBytes }
{
    one_spelling();
    upgrade_keeps();
}

/// An image that is opened with what was carried from a core goes on from that core. Each interface has the link
/// state that the core knew under its name, and is unknown if the core had no such interface. The next run has the
/// number that the core's next run would have had.
pub fn links_stand()
    ensures { LinksStand }
{}

/// A trace of 255 records has room for one more. With 256 records it loses the oldest one.
#[tactic(auto, using(crate::proofs::Traces::trace_keeps_256))]
pub fn trace_keeps_256()
    ensures { TraceKeeps256 }
{}

/// Makes a step of a borrowed core, and returns the number of executed instructions. It is at most the stated cost,
/// whatever was done with the core before. This is an example of a caller that has only the core.
pub fn cost_of_step(core: &mut Core<'_>, step: Step) -> u32
    ensures cost { result ≤ core.old.image.budgets.cost }
    // It is the cost of the reply of the run.
    ensures told { (b : Behaviour) → IsBehaviour core.old.image b
        → result ≡ cost_told (turn b core.old.image.budgets.commands step core.old.state).reply }
    ensures image { core.new.image ≡ core.old.image }
{
    match core.step(step) {
        Reply::Done { cost, .. } | Reply::Ticked { cost, .. } => cost,
        _ => 0,
    }
}

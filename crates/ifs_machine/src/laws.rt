//! Laws of handler runs: each is the contract of an empty function.

ghost use Rattle.ifs_machine.specs.Run.{RunsAreUnique, RunsFollow, RunsStayWithin, HandlersEnd};
ghost use Rattle.ifs_machine.specs.Run.{EmptyQueueHasRoom, UpgradeKeepsRuns};
ghost use Rattle.ifs_machine.specs.Worked.{JumpsAreWorked};

/// A handler run has one cost and one end.
#[tactic(auto, using(crate::proofs::After::runs_are_unique))]
pub fn runs_are_unique()
    ensures { RunsAreUnique }
{}

/// A handler run that ends has the same effects from none and after earlier ones: its commands follow theirs, and
/// its wish replaces theirs if it has one.
#[tactic(auto, using(crate::proofs::Shift::runs_follow))]
pub fn runs_follow()
    ensures { RunsFollow }
{}

/// Each configuration of a run is within the stated stack and frames.
pub fn runs_stay_within()
    ensures { RunsStayWithin }
{}

/// Each handler of an accepted image runs to its end without a trap, whatever the facts, if the commands that are
/// already queued leave room for its own. So it stays within the stated stack and frames.
#[tactic(auto, using(crate::proofs::Ending::handlers_end))]
pub fn handlers_end()
    ensures { HandlersEnd }
{}

/// An empty queue leaves room for each handler of an accepted image.
#[tactic(auto, using(crate::proofs::Ending::empty_queue_has_room))]
pub fn empty_queue_has_room()
    ensures { EmptyQueueHasRoom }
{}

/// An image and its upgrade to version 2 have the same runs, accepted or not.
#[tactic(auto, using(crate::proofs::Upgraded::upgrade_keeps_runs))]
pub fn upgrade_keeps_runs()
    ensures { UpgradeKeepsRuns }
{}

/// The conditional jumps, worked out: `jf` takes a truth and jumps if it is false, and `jt` jumps if it is true.
#[tactic(auto, using(crate::proofs::Worked::jumps_are_worked))]
pub fn jumps_are_worked()
    ensures { JumpsAreWorked }
{}

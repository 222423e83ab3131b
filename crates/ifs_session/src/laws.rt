//! Laws about image lines, replies and connections.

ghost use Rattle.ifs_session.specs.Accounts.{AsksWithRoomFor130};
ghost use Rattle.ifs_session.specs.Hexadecimal.{OneAnswer};
ghost use Rattle.ifs_session.specs.Readings.{NotDoneIsSaid};

/// No first line is both valid and invalid, whatever follows it.
pub fn no_line_is_good_and_broken()
    ensures { OneAnswer }
{}

/// A connection asks the host for ends of tests while its list of steps has room for 130 more.
#[tactic(auto, using(crate::proofs::Accounting::asks_with_room_for_130))]
pub fn asks_with_room_for_130()
    ensures { AsksWithRoomFor130 }
{}

/// A reply says that its request was not done exactly if that is so.
pub fn not_done_is_said()
    ensures { NotDoneIsSaid }
{}

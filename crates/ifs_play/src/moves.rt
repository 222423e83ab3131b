//! Moves: what happens outside.

ghost use Rattle.std.specs.Prelude.{◌≤◌};
ghost use Rattle.ifs_play.specs.Moves.{CanHappen};

use crate::random::Random;
use ifs_base::{IfaceId, LinkState, TestId};
use ifs_sched::Start;

/// As many seconds as a test may wait for its next run.
pub const LONGEST_WAIT: u64 = 604_800;

/// What happens outside.
#[derive(Clone, Copy)]
pub enum Move {
    /// A link is in this state.
    Link(IfaceId, LinkState),
    /// So many seconds pass.
    Wait(u64),
    /// The present run of a test ends with a value.
    End(TestId, bool),
}

/// The number with this index. There are fewer links, tests and states than numbers.
pub fn number_of(index: usize) -> u16
    ensures { result ≤ index }
{
    u16::try_from(index).unwrap_or(u16::MAX)
}

/// Some state of a link.
pub fn some_state(random: &mut Random) -> LinkState {
    match random.below(3) {
        0 => LinkState::Unknown,
        1 => LinkState::Down,
        _ => LinkState::Up,
    }
}

/// Some move, where there are so many links and these tests run.
pub fn some_move(random: &mut Random, links: usize, runs: &[Start]) -> Move
    ensures { CanHappen links runs.now result }
{
    let kind = random.below(10);
    if kind < 4 && links > 0 {
        let state = some_state(random);
        return Move::Link(IfaceId(number_of(random.below(links))), state);
    }
    match runs.get(random.below(runs.len().max(1))) {
        Some(start) if kind < 8 => Move::End(start.test, random.below(2) == 0),
        _ => Move::Wait(if kind == 9 { 60 } else { 1 }),
    }
}

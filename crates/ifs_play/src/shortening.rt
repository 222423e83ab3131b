//! Leaving out moves that are not needed.

ghost use Rattle.std.specs.Prelude.{◌≡◌, ◌+◌, ◌<◌, IfOk, IfSome, List, length};
ghost use Rattle.std.specs.List.{remove};
ghost use Rattle.ifs_play.specs.Shortening.{IsShortened};
ghost use Rattle.ifs_play.specs.declared.moves.Move.{Move as MoveOutside};

use crate::moves::Move;
use std::alloc::{AllocError, Global};

/// A search that makes moves on cores that are just opened. What it looks for is its goal.
pub trait Replay<G> {
    /// What moves show.
    type Found: Drop;

    // Moves show what was found. A search says what that means.
    ghost shows: { G → List MoveOutside → Self.Found → Type 0 } = { λ goal moves found. Unit {0} };

    /// Makes these moves once more, and returns what they show. None if they do not show what is looked for, or if no more moves
    /// may be made.
    fn replay(&mut self, goal: &G, moves: &[Move]) -> Result<Option<Self::Found>, AllocError>
        ensures { IfOk result (λ found. IfSome found (shows goal.now moves.now)) };
}

/// Moves with what they show.
#[derive(Drop)]
pub struct Shown<T> {
    pub moves: Vec<Move>,
    pub found: T,
}

/// Leaves out each move without which the others, made once more, still show what is looked for. Begins with the last move.
pub fn shortened<G, R: Replay<G>>(
    alloc: Global,
    search: &mut R,
    goal: &G,
    shown: Shown<R::Found>,
) -> Result<Shown<R::Found>, AllocError>
    requires { R.shows goal.now shown.moves.items shown.found }
    ensures shows { IfOk result (λ kept. R.shows goal.now kept.moves.items kept.found) }
    ensures shorter { IfOk result (λ kept. IsShortened shown.moves.items kept.moves.items) }
{
    let mut kept = shown;
    let mut place = kept.moves.len();
    while place > 0 {
        place -= 1;
        let fewer = without(alloc, kept.moves.as_slice(), place)?;
        if let Some(found) = search.replay(goal, fewer.as_slice())? {
            kept = Shown {
                moves: fewer,
                found,
            };
        }
    }
    Ok(kept)
}

/// Moves without one of them.
fn without(alloc: Global, moves: &[Move], place: usize) -> Result<Vec<Move>, AllocError>
    requires { place < length moves.now }
    ensures moves { IfOk result (λ fewer. fewer.items ≡ remove moves.now place) }
    ensures fewer { IfOk result (λ fewer. length fewer.items + 1 ≡ length moves.now) }
{
    let mut fewer = Vec::new(alloc);
    fewer.extend_from_slice(moves)?;
    fewer.remove(place);
    Ok(fewer)
}

//! How many moves cores may make.

ghost use Rattle.std.specs.Prelude.{◌≡◌, ◌≤◌, ◌+◌, ◌-◌};
ghost use Rattle.std.specs.Bool.{OnTrue};

/// So many bytes of an image take the time of a move where a core is opened.
const BYTES: usize = 256;

/// How many moves cores may still make.
#[derive(Clone, Copy)]
pub struct Allowance {
    pub left: usize,
}

impl Allowance {
    /// Counts moves that were made.
    pub fn spend(&mut self, moves: usize)
        ensures { self.new.left ≡ self.old.left - moves }
    {
        self.left = self.left.saturating_sub(moves);
    }

    /// Takes so many moves, if as many are left. Returns whether they are.
    pub fn take(&mut self, moves: usize) -> bool
        ensures { OnTrue result (self.new.left + moves ≡ self.old.left) }
    {
        if self.left < moves {
            return false;
        }
        self.left -= moves;
        true
    }

    /// Counts a core that is opened on an image and makes so many moves.
    pub fn spend_opening(&mut self, image: &[u8], moves: usize)
        ensures { self.new.left ≤ self.old.left }
    {
        self.spend(moves.saturating_add(1).saturating_add(image.len() / BYTES));
    }
}

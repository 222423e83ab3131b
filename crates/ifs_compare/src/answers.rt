//! What is said of two policies.

ghost use Rattle.std.specs.Prelude.{◌≡◌, []};
ghost use Rattle.ifs_compare.specs.Alike.{is_same};

use std::alloc::Global;

/// A difference between two policies, or a question on one that is not decided.
#[derive(Drop)]
pub struct Difference {
    /// What differs, in one line of words without a newline. `OLD` and `NEW` stand for the two policies. Of a question: what is
    /// not decided, and why.
    pub report: String,
    /// The name of the state that it is about, or empty.
    pub state: String,
    /// Request lines for `sim` after which the two differ, or empty if none were found.
    pub requests: String,
    /// A line of the new policy that it is about, from 1; 0 if none, or before `place`.
    pub line: u32,
}

/// What is said of two policies.
#[derive(Drop)]
pub struct Compared {
    /// The differences that were found.
    pub differences: Vec<Difference>,
    /// The questions that are not decided. They have no requests.
    pub undecided: Vec<Difference>,
}

impl Compared {
    /// Nothing so far. Does not allocate.
    pub(crate) fn new(alloc: Global) -> Compared
        ensures differences { result.differences.items ≡ [] }
        ensures undecided { result.undecided.items ≡ [] }
    {
        Compared {
            differences: Vec::new(alloc),
            undecided: Vec::new(alloc),
        }
    }

    /// Whether the two policies do the same for every list of steps: no difference was found, and nothing is undecided.
    pub fn is_same(&self) -> bool
        ensures { result ≡ is_same self.now }
    {
        self.differences.len() == 0 && self.undecided.len() == 0
    }
}

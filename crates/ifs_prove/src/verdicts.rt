//! Answers to claims.

/// The answer to a claim.
#[derive(Drop)]
pub enum Verdict {
    /// It holds, whatever is known at an opening and after any steps.
    Holds,
    /// A core made steps that break it.
    Broken(Broken),
    /// Neither was found.
    Undecided(Obstacle),
    /// Of `may flap`, which claims nothing.
    Meant,
}

/// What keeps a claim from being decided.
#[derive(Clone, Copy, Debug, PartialEq, Eq)]
pub enum Obstacle {
    /// The situations that its question may look at are used up.
    Budget,
    /// Some facts of an evaluation would break it, and no steps were found that lead to such facts.
    NoSteps,
}

/// Steps that break a claim, and what is so then.
#[derive(Drop)]
pub struct Broken {
    /// The links that a reload knows, in words as `carp0 up, carp1 down`, if the steps begin at an opening after a reload. That is
    /// so only if none were found that begin at an opening at which nothing is known.
    pub known: Option<String>,
    /// Request lines that `ifsvm sim` replays, one a line, each ending with a newline.
    pub requests: String,
    /// The situation then, in words: "`master`, carp0 down, carp1 down: the tests `ping ..` and `test -e ..` have no value yet",
    /// or what ran: "`broken` is entered, \"carp-demote 0\" runs".
    pub situation: String,
}

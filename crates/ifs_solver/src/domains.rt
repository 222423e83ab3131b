//! The values that a link or a test may have.

ghost use Rattle.std.specs.Prelude.{◌≡◌, true};
ghost use Rattle.ifs_solver.specs.FactSets.{allows, has_one, only, value_of, without};

use ifs_base::{IfaceId, LinkState, TestId};

/// What a question asks of a fact: whether it has this value. A test has the values of links: `Unknown` if it has no
/// value, `Down` if it is false, `Up` if it is true.
#[derive(Clone, Copy)]
pub enum Branch {
    /// Whether an interface has this link state.
    Link(IfaceId, LinkState),
    /// Whether a test has this value.
    Test(TestId, LinkState),
}

impl Branch {
    /// The value that is asked for.
    pub fn value(self) -> LinkState
        ensures { result ≡ value_of self }
    {
        match self {
            Branch::Link(_, value) | Branch::Test(_, value) => value,
        }
    }
}

/// The values that a link or a test may have.
#[derive(Clone, Copy)]
pub struct Domain {
    pub unknown: bool,
    pub down: bool,
    pub up: bool,
}

impl Domain {
    /// Every value.
    pub const ANY: Domain = Domain {
        unknown: true,
        down: true,
        up: true,
    };

    /// Up and down, which for a test is every value.
    pub const RESULT: Domain = Domain {
        unknown: false,
        down: true,
        up: true,
    };

    /// Whether this value is among them.
    pub fn allows(self, value: LinkState) -> bool
        ensures { result ≡ allows value self }
    {
        match value {
            LinkState::Unknown => self.unknown,
            LinkState::Down => self.down,
            LinkState::Up => self.up,
        }
    }

    /// Whether there is any value.
    pub fn has_one(self) -> bool
        ensures { result ≡ has_one self }
    {
        self.unknown || (self.down || self.up)
    }

    /// Its first value: down, or else up, or else unknown.
    pub fn first(self) -> LinkState
        ensures { has_one self ≡ true → allows result self ≡ true }
    {
        if self.down {
            LinkState::Down
        } else if self.up {
            LinkState::Up
        } else {
            LinkState::Unknown
        }
    }

    /// This value alone, if it is among them.
    pub fn only(self, value: LinkState) -> Domain
        ensures { result ≡ only value self }
    {
        match value {
            LinkState::Unknown => Domain {
                down: false,
                up: false,
                ..self
            },
            LinkState::Down => Domain {
                unknown: false,
                up: false,
                ..self
            },
            LinkState::Up => Domain {
                unknown: false,
                down: false,
                ..self
            },
        }
    }

    /// All of them except for this value.
    pub fn without(self, value: LinkState) -> Domain
        ensures { result ≡ without value self }
    {
        match value {
            LinkState::Unknown => Domain {
                unknown: false,
                ..self
            },
            LinkState::Down => Domain {
                down: false,
                ..self
            },
            LinkState::Up => Domain { up: false, ..self },
        }
    }
}

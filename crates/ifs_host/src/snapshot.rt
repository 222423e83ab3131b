//! The state and the facts of a core at a moment, and what its steps change of them.

use ifs_base::{IfaceId, LinkState, StateId, TestId};
use ifs_core::{Core, Step};
use std::mem;

/// The most interfaces or tests of an image.
pub const MOST: usize = 64;

/// The state and the facts of a core at a moment.
#[derive(Clone, Copy)]
pub struct Snapshot {
    /// The state.
    pub state: StateId,
    /// The moment of the last tick.
    pub moment: u64,
    /// The facts.
    pub facts: Facts,
}

/// The links of interfaces and the values of tests, by their numbers.
#[derive(Clone, Copy)]
pub struct Facts {
    links: [LinkState; MOST],
    values: [Option<bool>; MOST],
}

/// What a step changed of the facts.
#[derive(Clone, Copy)]
pub enum Change {
    /// The link of an interface: before and after.
    Link(IfaceId, LinkState, LinkState),
    /// The value of a test: before and after.
    Test(TestId, Option<bool>, bool),
    /// Neither.
    Nothing,
}

impl Snapshot {
    /// What is known before a core is opened: nothing.
    pub fn unknown() -> Self {
        Snapshot {
            state: StateId(0),
            moment: 0,
            facts: Facts::unknown(),
        }
    }

    /// The state and the facts of a core now.
    pub fn of(core: &Core<'_>) -> Self {
        Snapshot {
            state: core.state(),
            moment: core.now(),
            facts: Facts::of(core),
        }
    }

    /// Applies a step, and returns what it changed of the facts. The state that it leads to is not entered.
    pub fn apply(&mut self, step: Step) -> Change {
        match step {
            Step::Link(interface, link) => self.facts.change_link(interface, link),
            Step::Finished(test, _, value) => self.facts.change_value(test, value),
            Step::Tick(moment) => {
                self.moment = moment;
                Change::Nothing
            }
            Step::Take => Change::Nothing,
        }
    }

    /// Enters a state. The values of tests are lost, except those of tests that are in all states.
    pub fn enter(&mut self, core: &Core<'_>, state: StateId) {
        self.state = state;
        self.facts.clear_values(core.image().always().mask);
    }
}

impl Facts {
    /// Nothing is known.
    fn unknown() -> Self {
        Facts {
            links: [LinkState::Unknown; MOST],
            values: [None; MOST],
        }
    }

    /// The facts of a core. What is in no table is unknown.
    fn of(core: &Core<'_>) -> Self {
        let mut facts = Facts::unknown();
        for index in 0..MOST as u16 {
            let link = core.link(IfaceId(index)).unwrap_or(LinkState::Unknown);
            let value = core.test_value(TestId(index)).unwrap_or_default();
            replace(&mut facts.links, index, link);
            replace(&mut facts.values, index, value);
        }
        facts
    }

    /// The link of an interface.
    pub fn link(&self, interface: IfaceId) -> LinkState {
        at(&self.links, interface.0, LinkState::Unknown)
    }

    /// The value of a test.
    pub fn value(&self, test: TestId) -> Option<bool> {
        at(&self.values, test.0, None)
    }

    /// Sets the link of an interface, and returns what that changed.
    fn change_link(&mut self, interface: IfaceId, link: LinkState) -> Change {
        let before = replace(&mut self.links, interface.0, link);
        if before == link {
            Change::Nothing
        } else {
            Change::Link(interface, before, link)
        }
    }

    /// Sets the value of a test, and returns what that changed.
    fn change_value(&mut self, test: TestId, value: bool) -> Change {
        let before = replace(&mut self.values, test.0, Some(value));
        if before == Some(value) {
            Change::Nothing
        } else {
            Change::Test(test, before, value)
        }
    }

    /// Clears the values that are lost when a state is entered: all but those of the tests of this set.
    fn clear_values(&mut self, kept: u64) {
        let mut kept = kept;
        for value in &mut self.values {
            if kept & 1 == 0 {
                *value = None;
            }
            kept >>= 1;
        }
    }
}

/// The value at an index, or this one if the index is in no table.
fn at<T: Copy>(values: &[T; MOST], index: u16, missing: T) -> T {
    match values.get(usize::from(index)) {
        Some(value) => *value,
        None => missing,
    }
}

/// Replaces the value at an index, and returns the one before. It is the new one if the index is in no table.
fn replace<T: Copy>(values: &mut [T; MOST], index: u16, value: T) -> T {
    match values.get_mut(usize::from(index)) {
        Some(place) => mem::replace(place, value),
        None => value,
    }
}

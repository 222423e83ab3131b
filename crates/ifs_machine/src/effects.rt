//! The facts that a handler reads, and its effects.

ghost use Rattle.std.specs.Prelude.{◌≡◌, ◌<◌, length, Some, slice_get};

use arrayvec::ArrayVec;
use ifs_base::{CommandId, IfaceId, LinkState, StateId, TestId};

/// The facts of links and tests, which do not change while a handler runs.
#[derive(Debug, Drop)]
pub struct Facts {
    /// The link state of each interface of the image, in the order of its table.
    pub links: ArrayVec<LinkState, 64>,
    /// The value of each test of the image, if it has one, in the order of its table.
    pub tests: ArrayVec<Option<bool>, 64>,
}

impl Facts {
    /// The link state of an interface.
    pub(crate) fn link(&self, n: IfaceId) -> LinkState
        requires { n.0 < length self.now.links.items }
        ensures { slice_get self.now.links.items n.0 ≡ Some result }
    {
        self.links.as_slice()[usize::from(n.0)]
    }

    /// The value of a test, if it has one.
    pub(crate) fn test(&self, n: TestId) -> Option<bool>
        requires { n.0 < length self.now.tests.items }
        ensures { slice_get self.now.tests.items n.0 ≡ Some result }
    {
        self.tests.as_slice()[usize::from(n.0)]
    }
}

/// The effects of the handlers of an event so far.
#[derive(Debug, Drop)]
pub struct Effects {
    /// The queued commands, in order.
    pub queued: ArrayVec<CommandId, 64>,
    /// The last wish for a state, if there is one.
    pub want: Option<StateId>,
}

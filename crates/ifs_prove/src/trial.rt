//! Steps that may break a claim.

use ifs_core::Step;

/// Steps from an opening on, and what they end with.
pub struct Trial {
    pub begun: Vec<Step>,
    pub ending: Ending,
}

impl Drop for Trial {
    fn drop(self) {
        let Trial {
            begun: _begun,
            ending: _ending,
        } = self;
    }
}

/// In what a claim may be broken.
#[derive(Drop)]
pub enum Ending {
    /// In the situation after the steps.
    There,
    /// In a further step: it moves from one state to another, or queues a command.
    By(Step),
    /// In the opening itself, which queues a command.
    Opening,
    /// In further steps that report of each link the state that it has, and of each test one result.
    Within(Vec<Step>, Vec<bool>),
}

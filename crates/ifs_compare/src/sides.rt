//! The blocks of two policies, with the same numbers.

use ifs_base::{CommandId, StateId, Text};
use ifs_play::CompiledPolicy;
use ifs_policy::{Handlers, Policy, Tables};
use ifs_solver::Scope;
use std::alloc::Global;

/// The blocks of a policy.
#[derive(Clone, Copy)]
pub(crate) struct Side<'a> {
    pub initial: StateId,
    pub always: &'a Handlers,
    /// By the number of the state.
    pub states: &'a [Handlers],
}

/// The blocks of two policies over the same tables.
#[derive(Clone, Copy)]
pub(crate) struct Sides<'a> {
    pub old: Side<'a>,
    pub new: Side<'a>,
}

/// Two policies with their images.
#[derive(Clone, Copy)]
pub(crate) struct Means<'a> {
    pub old: &'a CompiledPolicy,
    pub new: &'a CompiledPolicy,
}

/// Two policies, and their blocks over the same tables.
#[derive(Clone, Copy)]
pub(crate) struct Stage<'a> {
    pub alloc: Global,
    pub old: &'a CompiledPolicy,
    pub new: &'a CompiledPolicy,
    pub tables: &'a Tables,
    pub scope: Scope,
    pub sides: Sides<'a>,
}

impl<'a> Stage<'a> {
    /// The name of a state, or nothing if there is no such state.
    pub fn state_name(&self, state: StateId) -> &'a str {
        match self.tables.states.get(usize::from(state.0)) {
            Some(name) => name.as_str(),
            None => "",
        }
    }

    /// The text of a command, or nothing if there is no such command.
    pub fn command_text(&self, command: CommandId) -> &'a str {
        match self.tables.commands.get(usize::from(command.0)) {
            Some(text) => text.as_str(),
            None => "",
        }
    }

    /// Whether both policies have a state.
    pub fn is_common(&self, state: StateId) -> bool {
        match self.tables.states.get(usize::from(state.0)) {
            Some(name) => has(self.old.policy(), name) && has(self.new.policy(), name),
            None => false,
        }
    }

    /// The greatest number of instructions that an event of each may execute, together.
    pub fn cost(&self) -> u32 {
        cost_of(self.old, self.new)
    }

    /// How many states the tables have.
    pub fn states(&self) -> usize {
        self.tables.states.len()
    }
}

/// The greatest number of instructions that an event of each of two policies may execute, together.
pub(crate) fn cost_of(old: &CompiledPolicy, new: &CompiledPolicy) -> u32 {
    let (old, new) = (old.budgets(), new.budgets());
    old.cost.saturating_add(new.cost)
}

/// Whether a policy has a state of this name.
fn has(policy: &Policy, name: &Text) -> bool {
    policy.tables().states.has(name)
}

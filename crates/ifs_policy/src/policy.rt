//! Policies.

ghost use Rattle.std.specs.Prelude.{◌≡◌, length, slice_get, option_copied};

use crate::tables::{ExternalTest, Tables};
use ifs_base::{CommandId, IfaceId, Items, LinkState, StateId, TestId, Text};
use ifs_parse::Block;
use std::marker::Model;

/// A single test of a condition.
#[derive(Clone, Copy, Debug, PartialEq, Eq)]
pub enum Single {
    /// An interface has this link state.
    LinkIs(IfaceId, LinkState),
    /// An external test has the value true.
    TestIs(TestId),
}

/// A block of a part, with numbers of commands and states.
pub type PolicyBlock = Block<Single, CommandId, StateId>;

/// The two blocks of a part. A part is a state, or what is outside any state.
#[derive(Drop)]
pub struct Handlers {
    /// Runs when the part is entered.
    pub init: PolicyBlock,
    /// Runs at each evaluation.
    pub body: PolicyBlock,
}

/// The content of a policy.
#[derive(Drop)]
pub struct PolicyParts {
    pub tables: Tables,
    /// The initial state.
    pub initial: StateId,
    /// The part outside any state.
    pub always: Handlers,
    /// The parts of the states, in the order of the table of states.
    pub states: Items<Handlers>,
}

/// The number of entries of each table of a policy.
#[derive(Clone, Copy, Debug, PartialEq, Eq)]
pub struct Counts {
    pub interfaces: u16,
    pub tests: u16,
    pub commands: u16,
    pub states: u16,
}

/// A policy. Clauses see its content. It keeps the limits, and its numbers refer to entries of its tables.
pub struct Policy {
    parts: PolicyParts,
}

impl Drop for Policy {
    fn drop(self) {
        let Policy { parts: _parts } = self;
    }
}

impl Model for Policy {
    ghost use Rattle.ifs_policy.specs.declared.policy.PolicyParts.{PolicyParts};
    ghost use Rattle.ifs_policy.specs.Fits.{PolicyFits};
    ghost use Rattle.std.specs.Coded.{codes};
    ghost use Rattle.ifs_policy.specs.contracts.policy.Handlers as handlers;

    ghost Value = { PolicyParts };

    ghost coded = { Prim.hlevel (codes, handlers.the_row.coded) };

    ghost view = { λ a. a.parts };

    ghost invariant = { λ a. PolicyFits a.parts };
}

impl Policy {
    ghost use Rattle.ifs_policy.specs.Fits.{PolicyFits};

    /// The policy with this content. Does not allocate.
    pub fn new(parts: PolicyParts) -> Self
        requires { PolicyFits parts }
        ensures { result ≡ parts }
    {
        Policy { parts }
    }

    /// The number of entries of each table.
    pub fn counts(&self) -> Counts
        ensures interfaces { result.interfaces ≡ length self.now.tables.interfaces }
        ensures tests { result.tests ≡ length self.now.tables.tests }
        ensures commands { result.commands ≡ length self.now.tables.commands }
        ensures states { result.states ≡ length self.now.tables.states }
        ensures fits { PolicyFits self.now }
    {
        let tables = &self.parts.tables;
        Counts {
            interfaces: tables.interfaces.len() as u16,
            tests: tables.tests.len() as u16,
            commands: tables.commands.len() as u16,
            states: tables.states.len() as u16,
        }
    }

    /// The tables.
    pub fn tables(&self) -> &Tables
        ensures { result.now ≡ self.now.tables }
    {
        &self.parts.tables
    }

    /// The name of an interface.
    pub fn interface(&self, interface: IfaceId) -> Option<&Text>
        ensures { option_copied result ≡ slice_get self.now.tables.interfaces interface.0 }
    {
        self.parts.tables.interfaces.get(usize::from(interface.0))
    }

    /// An external test: its command and its period.
    pub fn test(&self, test: TestId) -> Option<&ExternalTest>
        ensures { option_copied result ≡ slice_get self.now.tables.tests test.0 }
    {
        self.parts.tables.tests.get(usize::from(test.0))
    }

    /// The text of a command.
    pub fn command(&self, command: CommandId) -> Option<&Text>
        ensures { option_copied result ≡ slice_get self.now.tables.commands command.0 }
    {
        self.parts.tables.commands.get(usize::from(command.0))
    }

    /// The name of a state.
    pub fn state(&self, state: StateId) -> Option<&Text>
        ensures { option_copied result ≡ slice_get self.now.tables.states state.0 }
    {
        self.parts.tables.states.get(usize::from(state.0))
    }

    /// The initial state.
    pub fn initial(&self) -> StateId
        ensures { result ≡ self.now.initial }
    {
        self.parts.initial
    }

    /// The part outside any state.
    pub fn always(&self) -> &Handlers
        ensures { result.now ≡ self.now.always }
    {
        &self.parts.always
    }

    /// The part of a state.
    pub fn handlers(&self, state: StateId) -> Option<&Handlers>
        ensures { option_copied result ≡ slice_get self.now.states state.0 }
    {
        self.parts.states.as_slice().get(usize::from(state.0))
    }

    /// The parts of the states, in the order of their table.
    pub fn states(&self) -> &[Handlers]
        ensures value { result.now ≡ self.now.states }
        ensures count { length result.now ≡ length self.now.tables.states }
    {
        self.parts.states.as_slice()
    }
}

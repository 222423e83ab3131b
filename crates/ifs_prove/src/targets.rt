//! Facts that would break claims, as targets of walks.

use crate::guards::guard_of;
use ifs_base::{CommandId, StateId};
use ifs_claim_parse::Claim;
use ifs_parse::Statement;
use ifs_play::number_of;
use ifs_policy::{Policy, PolicyBlock};
use ifs_solver::{Aim, Budget, Constraint, Guard};
use ifs_walks::{Target, Ways};
use std::alloc::{AllocError, Global};

/// The most changes of the state that one search for facts demands.
const MOST_CHANGES: usize = 12;

/// A search for targets of claims.
#[derive(Drop)]
pub(crate) struct Finder<'a> {
    ways: Ways<'a>,
}

impl<'a> Finder<'a> {
    /// A search that has found none.
    pub fn new(alloc: Global, policy: &'a Policy, budget: Budget) -> Finder<'a> {
        Finder {
            ways: Ways::new(alloc, policy, budget),
        }
    }

    /// What was found, and how many situations are left. Returns an error if an allocation failed.
    pub fn into_found(self) -> Result<(Vec<Target>, u32), AllocError> {
        let Finder { ways } = self;
        ways.into_found()
    }

    /// Adds the facts under which a policy settles in a state while a guard is met.
    fn settles(&mut self, state: StateId, guard: Guard<'a>) {
        let policy = self.ways.policy;
        let Some(part) = policy.handlers(state) else {
            return;
        };
        let (always, own) = (&policy.always().body, &part.body);
        let to = Aim::To(state);
        let free = [
            Constraint::Free(own),
            Constraint::Free(always),
            Constraint::Met(guard),
        ];
        self.ways.add_both(
            state,
            &free,
            &[Constraint::Silent(own), Constraint::Silent(always)],
        );
        self.ways
            .add_both(state, &free, &[Constraint::Aims(own, to)]);
        self.ways.add_both(
            state,
            &free,
            &[Constraint::Silent(own), Constraint::Aims(always, to)],
        );
    }

    /// Adds the facts that would break a claim.
    pub fn of_claim(&mut self, claim: &'a Claim) {
        match claim {
            Claim::NeverRests(states, premise) => {
                self.rests(states.as_slice(), guard_of(premise));
            }
            Claim::RestsIn(states, premise) => {
                self.elsewhere(states.as_slice(), guard_of(premise));
            }
            Claim::NeverFrom(from, to) => self.moves(from.as_slice(), to.as_slice()),
            Claim::NeverEnters(states) => self.arrivals(states.as_slice()),
            Claim::NeverEntersWhile(states, premise) => {
                self.entries_of(states.as_slice(), guard_of(premise));
            }
            Claim::NeverRuns(commands, premise) => {
                self.runs_of(commands.as_slice(), guard_of(premise));
            }
            Claim::RestsWithin(most) => self.changes(usize::from(*most)),
            Claim::NeverIn(states, premise) => {
                self.moments(states.as_slice(), guard_of(premise));
            }
            Claim::MayFlap(_) => {}
        }
    }

    /// Adds the facts under which a policy settles in one of these states.
    fn rests(&mut self, states: &[StateId], guard: Guard<'a>) {
        for state in states {
            self.settles(*state, guard);
        }
    }

    /// Adds the facts under which a policy settles in another state than these.
    fn elsewhere(&mut self, states: &[StateId], guard: Guard<'a>) {
        for number in 0..self.ways.policy.counts().states {
            let state = StateId(number);
            if !states.contains(&state) {
                self.settles(state, guard);
            }
        }
    }

    /// Adds the ways from one of these states to one of others, until the budget is used up.
    fn moves(&mut self, from: &[StateId], to: &[StateId]) {
        for state in from {
            if self.ways.budget.left == 0 {
                return;
            }
            for next in to {
                self.ways.way(*state, *next, None);
            }
        }
    }

    /// Adds the ways into one of these states, and any facts of the initial one.
    fn arrivals(&mut self, states: &[StateId]) {
        for state in states {
            if state.0 == self.ways.policy.initial().0 {
                self.ways.add_while(*state, None, &[], None);
            }
            self.entries(*state, None);
        }
    }

    /// Adds the ways into one of these states, while a guard is met.
    fn entries_of(&mut self, states: &[StateId], guard: Guard<'a>) {
        for state in states {
            self.entries(*state, Some(guard));
        }
    }

    /// Adds the ways into a state, while a guard is met.
    fn entries(&mut self, next: StateId, guard: Option<Guard<'a>>) {
        for number in 0..self.ways.policy.counts().states {
            self.ways.way(StateId(number), next, guard);
        }
    }

    /// Adds the facts under which a guard may be met in one of these states.
    fn moments(&mut self, states: &[StateId], guard: Guard<'a>) {
        for state in states {
            self.settles(*state, guard);
            self.entries(*state, Some(guard));
            self.ways.add_while(*state, None, &[], Some(guard));
        }
    }

    /// Adds the facts under which one of these commands is run while a guard is met.
    fn runs_of(&mut self, commands: &[CommandId], guard: Guard<'a>) {
        for command in commands {
            self.runs(*command, guard);
        }
    }

    /// Adds the facts under which a command is run while a guard is met.
    fn runs(&mut self, command: CommandId, guard: Guard<'a>) {
        let policy = self.ways.policy;
        let (always, initial) = (policy.always(), policy.initial());
        self.runs_at_once(initial, command, guard, &always.init);
        for (number, part) in policy.states().iter().enumerate() {
            let state = StateId(number_of(number));
            if state.0 == initial.0 {
                self.runs_at_once(initial, command, guard, &part.init);
            }
            if has_command(&part.init, command) {
                self.entries(state, Some(guard));
            }
            self.runs_in(state, command, guard, &part.body);
            self.runs_in(state, command, guard, &always.body);
        }
    }

    /// Adds the facts under which an init runs a command at the opening.
    fn runs_at_once(
        &mut self,
        initial: StateId,
        command: CommandId,
        guard: Guard<'a>,
        init: &'a PolicyBlock,
    ) {
        self.ways.demand_only(&[Constraint::Met(guard)]);
        self.runs_under(initial, command, init);
    }

    /// Adds the facts under which the body of an evaluation in a state runs a command.
    fn runs_in(
        &mut self,
        state: StateId,
        command: CommandId,
        guard: Guard<'a>,
        body: &'a PolicyBlock,
    ) {
        self.ways
            .demand_only(&[Constraint::Met(guard), Constraint::Free(body)]);
        self.runs_under(state, command, body);
    }

    /// The same of a block, where the demands are met.
    fn runs_under(&mut self, state: StateId, command: CommandId, block: &'a PolicyBlock) {
        for statement in block.statements() {
            match statement {
                Statement::Run(other) => {
                    if other.0 == command.0 {
                        self.ways.add(state, None);
                    }
                }
                Statement::SetState(_) => {}
                Statement::If(condition, inner) => {
                    self.ways.demand_truth(condition);
                    self.runs_under(state, command, inner);
                    self.ways.demands.pop();
                }
            }
        }
    }

    /// Adds facts under which the state changes more often than so, or as often as is looked at.
    fn changes(&mut self, most: usize) {
        let wanted = most.saturating_add(1).min(MOST_CHANGES);
        for number in 0..self.ways.policy.counts().states {
            let state = StateId(number);
            self.ways.demands.clear();
            self.changes_from(state, state, wanted);
        }
    }

    /// Adds facts that meet the demands and change a state so often, as a target at the first state. Whether there are any.
    #[cycle(changes_from)]
    fn changes_from(&mut self, first: StateId, state: StateId, wanted: usize) -> bool {
        if wanted == 0 {
            return self.ways.add(first, None);
        }
        if !self.ways.has_facts() {
            return false;
        }
        let policy = self.ways.policy;
        let Some(part) = policy.handlers(state) else {
            return false;
        };
        let left = wanted - 1;
        if self.changes_by(first, state, left, &part.body) {
            return true;
        }
        let depth = self.ways.demands.len();
        self.ways.demand(Constraint::Silent(&part.body));
        let is_found = self.changes_by(first, state, left, &policy.always().body);
        self.ways.demands.truncate(depth);
        is_found
    }

    /// The same where a body makes the first change, with so many after it.
    #[cycle(changes_from)]
    fn changes_by(
        &mut self,
        first: StateId,
        state: StateId,
        left: usize,
        body: &'a PolicyBlock,
    ) -> bool {
        let depth = self.ways.demands.len();
        let mut is_found = false;
        for next in &self.ways.targets_of(body) {
            if !is_found && next.0 != state.0 {
                self.ways.demand(Constraint::Aims(body, Aim::To(*next)));
                is_found = self.changes_from(first, *next, left);
                self.ways.demands.truncate(depth);
            }
        }
        is_found
    }
}

/// Whether a block runs a command anywhere.
fn has_command(block: &PolicyBlock, command: CommandId) -> bool {
    for statement in block.statements() {
        let has = match statement {
            Statement::Run(other) => other.0 == command.0,
            Statement::SetState(_) => false,
            Statement::If(_, inner) => has_command(inner, command),
        };
        if has {
            return true;
        }
    }
    false
}

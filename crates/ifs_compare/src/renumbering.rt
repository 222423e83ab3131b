//! A policy with the numbers of other tables.

ghost use Rattle.std.specs.Prelude.{◌≡◌, ◌<◌, ◌^◌, IfOk, length, map, slice_get, option_copied};
ghost use Rattle.std.specs.Bool.{OnTrue};
ghost use Rattle.ifs_compare.specs.Renumbering.{command_number, interface_number, part_at_name, part_named, place_of};
ghost use Rattle.ifs_compare.specs.Renumbering.{renumbered_block, renumbered_condition, renumbered_if_any, renumbered_part, renumbered_single};
ghost use Rattle.ifs_compare.specs.Renumbering.{state_number, test_number};
ghost use Rattle.ifs_policy.specs.Tables.{text_eq};
ghost use Rattle.ifs_compare.specs.inner.Numbering.{renumbered_statement, HasNumbers, IsRenumbered};

use ifs_base::{CommandId, IfaceId, Items, StateId, TestId, Text};
use ifs_parse::{Condition, Statement};
use ifs_policy::{Handlers, LeafMap, Policy, PolicyBlock, Single, Table, Tables, replace_leaves};
use ifs_solver::PolicyStatement;
use std::alloc::{AllocError, Global};
use std::hash::Hash;

/// The greatest number of entries of a table whose places are 16-bit numbers.
const MOST: usize = 65_535;

/// The tables of a policy, and those whose numbers it is to have.
#[derive(Clone, Copy)]
pub(crate) struct Numbering<'a> {
    pub from: &'a Tables,
    pub to: &'a Tables,
}

/// The blocks of a policy, with the numbers of other tables.
#[derive(Drop)]
pub(crate) struct Renumbered {
    pub initial: StateId,
    pub always: Handlers,
    /// In the order that the states have in these tables.
    pub states: Items<Handlers>,
}

/// Whether each place in these tables is a 16-bit number.
pub(crate) fn has_numbers(tables: &Tables) -> bool
    ensures { OnTrue result (HasNumbers tables.now) }
{
    tables.interfaces.len() <= MOST
        && tables.tests.len() <= MOST
        && tables.commands.len() <= MOST
        && tables.states.len() <= MOST
}

/// The place of an entry in a table; of a missing one, the number of entries.
fn place_of<T: Eq + Hash + Drop>(table: &Table<T>, found: Option<&T>) -> usize
    ensures { result ≡ place_of T.eq table.now (option_copied found.entry) }
{
    match found {
        Some(entry) => table.place_of(entry).unwrap_or(table.len()),
        None => table.len(),
    }
}

/// The place of a text in a table, as a number.
fn number_of(table: &Table<Text>, found: Option<&Text>) -> u16
    requires { length table.now < 2 ^ 16 }
    ensures { result ≡ place_of text_eq table.now (option_copied found.entry) }
{
    place_of(table, found) as u16
}

impl<'a> Numbering<'a> {
    /// The number of an interface, by its name.
    fn interface(self, interface: IfaceId) -> IfaceId
        requires { HasNumbers self.to.now }
        ensures { result.0 ≡ interface_number self.entry.from.now self.entry.to.now interface.0 }
    {
        let entry = self.from.interfaces.get(usize::from(interface.0));
        IfaceId(number_of(&self.to.interfaces, entry))
    }

    /// The number of a test, by its command and its period.
    fn test(self, test: TestId) -> TestId
        requires { HasNumbers self.to.now }
        ensures { result.0 ≡ test_number self.entry.from.now self.entry.to.now test.0 }
    {
        let entry = self.from.tests.get(usize::from(test.0));
        TestId(place_of(&self.to.tests, entry) as u16)
    }

    /// The number of a command, by its text.
    fn command(self, command: CommandId) -> CommandId
        requires { HasNumbers self.to.now }
        ensures { result ≡ command_number self.entry.from.now self.entry.to.now command }
    {
        let entry = self.from.commands.get(usize::from(command.0));
        CommandId(number_of(&self.to.commands, entry))
    }

    /// The number of a state, by its name.
    pub fn state(self, state: StateId) -> StateId
        requires { HasNumbers self.to.now }
        ensures { result ≡ state_number self.entry.from.now self.entry.to.now state }
    {
        let entry = self.from.states.get(usize::from(state.0));
        StateId(number_of(&self.to.states, entry))
    }

    /// A single test.
    fn numbered(self, single: Single) -> Single
        requires { HasNumbers self.to.now }
        ensures { result ≡ renumbered_single self.entry.from.now self.entry.to.now single }
    {
        match single {
            Single::LinkIs(interface, state) => Single::LinkIs(self.interface(interface), state),
            Single::TestIs(test) => Single::TestIs(self.test(test)),
        }
    }
}

impl LeafMap<Single> for Numbering<'_> {
    type Fault = AllocError;

    ghost can = { λ it. HasNumbers it.to.now };

    ghost image = { λ it. renumbered_single it.from.now it.to.now };

    ghost fits = { λ it single. Unit {0} };

    fn single(&self, single: &Single) -> Result<Single, AllocError> {
        let made = self.numbered(*single);
        Ok(made)
    }
}

/// A condition with other numbers.
fn renumber_condition(
    alloc: Global,
    numbering: Numbering<'_>,
    condition: &Condition<Single>,
) -> Result<Condition<Single>, AllocError>
    requires { HasNumbers numbering.to.now }
    ensures { IfOk result (λ made. made ≡ renumbered_condition numbering.entry.from.now numbering.entry.to.now condition.now) }
{
    let made = replace_leaves(alloc, &numbering, condition)?;
    Ok(made)
}

/// A block with other numbers.
#[cycle(renumber_block)]
fn renumber_block(
    alloc: Global,
    numbering: Numbering<'_>,
    block: &PolicyBlock,
) -> Result<PolicyBlock, AllocError>
    requires { HasNumbers numbering.to.now }
    ensures { IfOk result (λ made. made ≡ renumbered_block numbering.entry.from.now numbering.entry.to.now block.now) }
{
    let mut made = Vec::new(alloc);
    for statement in block.statements() {
        made.push(renumber_statement(alloc, numbering, statement)?)?;
    }
    Ok(PolicyBlock::new(made))
}

/// A statement with other numbers.
#[cycle(renumber_block)]
fn renumber_statement(
    alloc: Global,
    numbering: Numbering<'_>,
    statement: &PolicyStatement,
) -> Result<PolicyStatement, AllocError>
    requires { HasNumbers numbering.to.now }
    ensures { IfOk result (λ made. made ≡ renumbered_statement numbering.entry.from.now numbering.entry.to.now statement.now) }
{
    match statement {
        Statement::Run(command) => {
            let command = numbering.command(*command);
            Ok(Statement::Run(command))
        }
        Statement::SetState(state) => {
            let state = numbering.state(*state);
            Ok(Statement::SetState(state))
        }
        Statement::If(condition, block) => {
            let condition = renumber_condition(alloc, numbering, condition)?;
            let block = renumber_block(alloc, numbering, block)?;
            Ok(Statement::If(condition, block))
        }
    }
}

/// A part with other numbers.
fn renumber_part(
    alloc: Global,
    numbering: Numbering<'_>,
    part: &Handlers,
) -> Result<Handlers, AllocError>
    requires { HasNumbers numbering.to.now }
    ensures { IfOk result (λ made. made ≡ renumbered_part numbering.entry.from.now numbering.entry.to.now part.now) }
{
    let init = renumber_block(alloc, numbering, &part.init)?;
    let body = renumber_block(alloc, numbering, &part.body)?;
    Ok(Handlers { init, body })
}

/// A part with other numbers, if there is one; else a part that does nothing.
fn renumber_if_any(
    alloc: Global,
    numbering: Numbering<'_>,
    part: Option<&Handlers>,
) -> Result<Handlers, AllocError>
    requires { HasNumbers numbering.to.now }
    ensures { IfOk result (λ made. made ≡ renumbered_if_any numbering.entry.from.now numbering.entry.to.now (option_copied part.entry)) }
{
    match part {
        Some(part) => {
            let made = renumber_part(alloc, numbering, part)?;
            Ok(made)
        }
        None => Ok(Handlers {
            init: PolicyBlock::new(Vec::new(alloc)),
            body: PolicyBlock::new(Vec::new(alloc)),
        }),
    }
}

/// The part of the state that has this name in a policy.
fn part_named<'a>(policy: &'a Policy, name: &Text) -> Option<&'a Handlers>
    ensures { option_copied result ≡ part_at_name policy.now name.now }
{
    let place = policy.tables().states.place_of(name)?;
    policy.states().get(place)
}

/// The parts of the states with these names, with other numbers.
fn renumber_states(
    alloc: Global,
    policy: &Policy,
    numbering: Numbering<'_>,
) -> Result<Vec<Handlers>, AllocError>
    requires { HasNumbers numbering.to.now }
    ensures { IfOk result (λ made. made.items ≡ map (part_named policy.now numbering.entry.from.now numbering.entry.to.now) numbering.entry.to.now.states) }
{
    let mut made = Vec::new(alloc);
    for index in 0..numbering.to.states.len() {
        match numbering.to.states.get(index) {
            Some(name) => {
                let part = part_named(policy, name);
                made.push(renumber_if_any(alloc, numbering, part)?)?;
            }
            None => unreachable!(),
        }
    }
    Ok(made)
}

/// The blocks of a policy, with other numbers.
pub(crate) fn renumber(
    alloc: Global,
    policy: &Policy,
    numbering: Numbering<'_>,
) -> Result<Renumbered, AllocError>
    requires { HasNumbers numbering.to.now }
    ensures { IfOk result (λ made. IsRenumbered made numbering.entry.from.now numbering.entry.to.now policy.now) }
{
    let initial = numbering.state(policy.initial());
    let always = renumber_part(alloc, numbering, policy.always())?;
    let states = renumber_states(alloc, policy, numbering)?;
    Ok(Renumbered {
        initial,
        always,
        states: Items::new(states),
    })
}

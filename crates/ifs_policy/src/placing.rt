//! Names are replaced by their places in the tables.

ghost use Rattle.std.specs.Prelude.{◌≡◌, ◌≤◌, IfOk, length};
ghost use Rattle.std.specs.List.{position_or_len};
ghost use Rattle.ifs_parse.specs.Views.{block_of, statement_then};
ghost use Rattle.ifs_policy.specs.Resolution.{always_of, body_in, init_in, initial_of, place_block};
ghost use Rattle.ifs_policy.specs.Resolution.{place_condition, place_in, place_part, place_single, place_states};
ghost use Rattle.ifs_policy.specs.inner.Sized.{HasTableSizes, borrowed, place_statement};

use crate::policy::{Handlers, PolicyBlock, Single};
use crate::replacing::{LeafMap, replace_leaves};
use crate::table::Table;
use crate::tables::{Tables, test_of};
use ifs_base::{CommandId, IfaceId, Items, StateId, TestId, Text};
use ifs_parse::{Action, Actions, Condition, Item, Name, Part, Statement, Test};
use std::alloc::{AllocError, Global};
use std::hash::Hash;

/// The place of an entry in a table; of a missing one, the number of entries.
fn place_or_len<T: Eq + Hash + Drop>(table: &Table<T>, entry: &T) -> usize
    ensures { result ≡ position_or_len (T.eq entry.now) table.now }
{
    table.place_of(entry).unwrap_or(table.len())
}

/// The place of a string in a table; of a missing one, the number of entries.
fn place_in(table: &Table<Text>, name: &Name) -> u16
    requires { length table.now ≤ 1024 }
    ensures { result ≡ place_in table.now name.now }
{
    place_or_len(table, &name.text) as u16
}

/// A single test, with the place of its interface or of the test.
fn place_single(tables: &Tables, test: &Test) -> Result<Single, AllocError>
    requires { HasTableSizes tables.now }
    ensures { IfOk result (λ single. single ≡ place_single tables.now test.now) }
{
    match test {
        Test::Link(name, state) => {
            let interface = IfaceId(place_in(&tables.interfaces, name));
            Ok(Single::LinkIs(interface, *state))
        }
        Test::External(command, period) => {
            let entry = test_of(command, *period)?;
            let place = place_or_len(&tables.tests, &entry) as u16;
            Ok(Single::TestIs(TestId(place)))
        }
    }
}

/// Places in tables for the names in tests.
#[derive(Clone, Copy)]
struct PlaceMap<'a> {
    tables: &'a Tables,
}

impl LeafMap<Test> for PlaceMap<'_> {
    type Fault = AllocError;

    ghost can = { λ it. HasTableSizes it.tables.now };

    ghost image = { λ it. place_single it.tables.now };

    ghost fits = { λ it single. Unit {0} };

    fn single(&self, test: &Test) -> Result<Single, AllocError> {
        let single = place_single(self.tables, test)?;
        Ok(single)
    }
}

/// A condition with places for names.
fn place_condition(
    alloc: Global,
    tables: &Tables,
    condition: &Condition<Test>,
) -> Result<Condition<Single>, AllocError>
    requires { HasTableSizes tables.now }
    ensures { IfOk result (λ placed. placed ≡ place_condition tables.now condition.now) }
{
    let placed = replace_leaves(alloc, &PlaceMap { tables }, condition)?;
    Ok(placed)
}

/// Statements with places for names, in order.
#[cycle(place_block)]
fn place_block(alloc: Global, tables: &Tables, block: &Actions) -> Result<PolicyBlock, AllocError>
    requires { HasTableSizes tables.now }
    ensures { IfOk result (λ placed. placed ≡ place_block tables.now block.now) }
{
    let mut placed = Vec::new(alloc);
    for statement in block.statements() {
        placed.push(place_statement(alloc, tables, statement)?)?;
    }
    Ok(PolicyBlock::new(placed))
}

/// A statement with places for names.
#[cycle(place_block)]
fn place_statement(
    alloc: Global,
    tables: &Tables,
    statement: &Action,
) -> Result<Statement<Single, CommandId, StateId>, AllocError>
    requires { HasTableSizes tables.now }
    ensures { IfOk result (λ placed. placed ≡ place_statement tables.now statement.now) }
{
    match statement {
        Statement::Run(command) => {
            let command = CommandId(place_in(&tables.commands, command));
            Ok(Statement::Run(command))
        }
        Statement::SetState(target) => {
            let state = StateId(place_in(&tables.states, &target.state));
            Ok(Statement::SetState(state))
        }
        Statement::If(condition, block) => {
            let condition = place_condition(alloc, tables, condition)?;
            let block = place_block(alloc, tables, block)?;
            Ok(Statement::If(condition, block))
        }
    }
}

/// The block of a part's `init`, with places for names.
fn place_init(alloc: Global, tables: &Tables, parts: &[&Part]) -> Result<PolicyBlock, AllocError>
    requires { HasTableSizes tables.now }
    ensures { IfOk result (λ placed. placed ≡ place_block tables.now (init_in (borrowed parts.now))) }
{
    for part in parts {
        if let Part::Init(_, block) = part {
            return place_block(alloc, tables, block);
        }
    }
    Ok(PolicyBlock::new(Vec::new(alloc)))
}

/// The statements of a part, with places for names.
fn place_body(alloc: Global, tables: &Tables, parts: &[&Part]) -> Result<PolicyBlock, AllocError>
    requires { HasTableSizes tables.now }
    ensures { IfOk result (λ placed. placed ≡ place_block tables.now (body_in (borrowed parts.now))) }
{
    let mut placed = Vec::new(alloc);
    for part in parts {
        if let Part::Do(statement) = part {
            placed.push(place_statement(alloc, tables, statement)?)?;
        }
    }
    Ok(PolicyBlock::new(placed))
}

/// The two blocks of a part, with places for names.
fn place_part(alloc: Global, tables: &Tables, parts: &[&Part]) -> Result<Handlers, AllocError>
    requires { HasTableSizes tables.now }
    ensures { IfOk result (λ placed. placed ≡ place_part tables.now (borrowed parts.now)) }
{
    let init = place_init(alloc, tables, parts)?;
    let body = place_body(alloc, tables, parts)?;
    Ok(Handlers { init, body })
}

/// The parts of a state, each borrowed.
fn borrow_all<'a>(alloc: Global, parts: &'a [Part]) -> Result<Vec<&'a Part>, AllocError>
    ensures { IfOk result (λ made. borrowed made.items ≡ parts.now) }
{
    let mut made = Vec::new(alloc);
    for part in parts {
        made.push(part)?;
    }
    Ok(made)
}

/// The parts outside any state.
fn always_of<'a>(alloc: Global, items: &'a [Item]) -> Result<Vec<&'a Part>, AllocError>
    ensures { IfOk result (λ made. borrowed made.items ≡ always_of items.now) }
{
    let mut made = Vec::new(alloc);
    for item in items {
        if let Item::Always(part) = item {
            made.push(part)?;
        }
    }
    Ok(made)
}

/// The blocks of the states, with places for names, in the order of their definitions.
fn place_states(alloc: Global, tables: &Tables, items: &[Item]) -> Result<Vec<Handlers>, AllocError>
    requires { HasTableSizes tables.now }
    ensures { IfOk result (λ placed. placed.items ≡ place_states tables.now items.now) }
{
    let mut placed = Vec::new(alloc);
    for item in items {
        if let Item::State(_, parts) = item {
            let parts = borrow_all(alloc, parts.as_slice())?;
            placed.push(place_part(alloc, tables, parts.as_slice())?)?;
        }
    }
    Ok(placed)
}

/// The state that `init-state` names; without one, the first.
fn initial_of(tables: &Tables, items: &[Item]) -> StateId
    requires { HasTableSizes tables.now }
    ensures { result ≡ initial_of tables.now items.now }
{
    for item in items {
        if let Item::InitState(_, name) = item {
            return StateId(place_in(&tables.states, name));
        }
    }
    StateId(0)
}

/// The blocks of a policy, with places for names.
#[derive(Drop)]
pub struct PolicyTrees {
    /// The initial state.
    pub initial: StateId,
    /// The part outside any state.
    pub always: Handlers,
    /// The states, in the order of their definitions.
    pub states: Items<Handlers>,
}

/// The blocks of items, with places in the tables of their names.
pub fn place_items(
    alloc: Global,
    tables: &Tables,
    items: &[Item],
) -> Result<PolicyTrees, AllocError>
    requires { HasTableSizes tables.now }
    ensures initial { IfOk result (λ placed. placed.initial ≡ initial_of tables.now items.now) }
    ensures always { IfOk result (λ placed. placed.always ≡ place_part tables.now (always_of items.now)) }
    ensures states { IfOk result (λ placed. placed.states ≡ place_states tables.now items.now) }
{
    let initial = initial_of(tables, items);
    let always = always_of(alloc, items)?;
    let always = place_part(alloc, tables, always.as_slice())?;
    let states = Items::new(place_states(alloc, tables, items)?);
    Ok(PolicyTrees {
        initial,
        always,
        states,
    })
}

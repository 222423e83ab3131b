//! Where the places of a policy are among its tokens. Names in its tree have the numbers of their tokens.

ghost use Rattle.std.specs.Prelude.{◌≡◌, ◌++◌, ◌∷◌, [], IfOk, OnOk, map};
ghost use Rattle.std.specs.List.{flat_map};
ghost use Rattle.ifs_policy.specs.Resolution.{always_of, init_in, Resolves};
ghost use Rattle.ifs_policy.specs.declared.policy.PolicyParts.{PolicyParts};
ghost use Rattle.ifs_solver.specs.Places.{places_of};
ghost use Rattle.ifs_lint.specs.inner.Marking.{always_kinds, block_kinds, body_kinds, is_chain, joins, kind_of_place, kinds_in, operand_kinds, own_kinds, state_kinds, statement_kinds, tree_kinds};

use ifs_lex::{Token, What};
use ifs_parse::{Action, Actions, Condition, Item, Node, Part, Statement, Test, Tree};
use std::alloc::{AllocError, Global};

/// What a place is.
#[derive(Clone, Copy, Debug, PartialEq, Eq)]
pub(crate) enum Kind {
    /// The condition of an `if`, or an operand of `&&` or `||`.
    Test,
    /// A `run`.
    Command,
    /// A `set-state`.
    Wish,
}

/// A place, with the numbers of its first and its last token.
#[derive(Clone, Copy, Debug)]
pub(crate) struct Mark {
    pub kind: Kind,
    pub first: usize,
    pub last: usize,
}

/// The places of a policy in the order of `places_of`, and the tokens that name its states, in order.
#[derive(Drop)]
pub(crate) struct Marks {
    pub places: Vec<Mark>,
    pub states: Vec<usize>,
}

/// Tokens from the one with the first number to the one with the last.
#[derive(Clone, Copy)]
struct TokenRange {
    first: usize,
    last: usize,
}

impl TokenRange {
    /// So many tokens from the one with this number on, and one.
    fn from(first: usize, more: usize) -> TokenRange {
        TokenRange {
            first,
            last: first.saturating_add(more),
        }
    }

    /// The range with each `!` before it and the parentheses around it.
    fn widened(self, tokens: &[Token]) -> TokenRange {
        let mut range = self;
        for before in (0..self.first).rev() {
            let behind = range.last.saturating_add(1);
            match (what_at(tokens, before), what_at(tokens, behind)) {
                (Some(What::Bang), _) => {}
                (Some(What::ParenOpen), Some(What::ParenClose)) => range.last = behind,
                _ => break,
            }
            range.first = before;
        }
        range
    }
}

/// The token with a number.
fn what_at(tokens: &[Token], index: usize) -> Option<&What> {
    match tokens.get(index) {
        Some(token) => Some(&token.what),
        None => None,
    }
}

/// The tokens of a test: `NAME.link.STATE`, or `COMMAND every SECONDS`.
fn range_of(test: &Test) -> TokenRange {
    match test {
        Test::Link(name, _) => TokenRange::from(name.place.number, 4),
        Test::External(command, _) => TokenRange::from(command.place.number, 2),
    }
}

/// Adds the mark of a place.
fn put(kind: Kind, range: TokenRange, marks: &mut Vec<Mark>) -> Result<(), AllocError>
    ensures { OnOk result (kinds_in marks.new.items ≡ kinds_in marks.old.items ++ kind ∷ []) }
{
    let TokenRange { first, last } = range;
    marks.push(Mark { kind, first, last })?;
    Ok(())
}

/// Sets the tokens of the mark with a number.
fn set(place: usize, range: TokenRange, marks: &mut Vec<Mark>)
    ensures { kinds_in marks.new.items ≡ kinds_in marks.old.items }
{
    if let Some(mark) = marks.get_mut(place) {
        mark.first = range.first;
        mark.last = range.last;
    }
}

/// Adds the marks of an operand and of the operands in it. Several first operands of a chain have no mark of their own.
#[cycle(operands)]
fn put_operand(
    tokens: &[Token],
    several: bool,
    operand: &Condition<Test>,
    marks: &mut Vec<Mark>,
) -> Result<TokenRange, AllocError>
    ensures { OnOk result (kinds_in marks.new.items ≡ kinds_in marks.old.items ++ (own_kinds several ++ operand_kinds operand.now)) }
{
    if several {
        let range = put_operands(tokens, operand, marks)?;
        return Ok(range);
    }
    let place = marks.len();
    put(Kind::Test, TokenRange::from(0, 0), marks)?;
    let range = put_operands(tokens, operand, marks)?;
    set(place, range, marks);
    Ok(range)
}

/// Adds the marks of the operands in a condition. Returns its tokens.
#[cycle(operands)]
fn put_operands(
    tokens: &[Token],
    condition: &Condition<Test>,
    marks: &mut Vec<Mark>,
) -> Result<TokenRange, AllocError>
    ensures { OnOk result (kinds_in marks.new.items ≡ kinds_in marks.old.items ++ operand_kinds condition.now) }
{
    let node = condition.node();
    match node {
        Node::Leaf(test) => Ok(range_of(test).widened(tokens)),
        Node::Not(operand) => {
            let range = put_operands(tokens, operand, marks)?;
            Ok(range.widened(tokens))
        }
        Node::All(first, second, rest) | Node::Any(first, second, rest) => {
            let deciding = joins(node);
            let begin = put_operand(tokens, is_chain(deciding, first), first, marks)?;
            let mut end = put_operand(tokens, false, second, marks)?;
            for operand in rest {
                end = put_operand(tokens, false, operand, marks)?;
            }
            let range = TokenRange {
                first: begin.first,
                last: end.last,
            };
            Ok(range.widened(tokens))
        }
    }
}

/// Whether one true operand decides a node: it does for `||`.
pub(crate) fn joins<L>(node: &Node<L>) -> bool
    ensures { result ≡ joins node.now }
{
    matches!(node, Node::Any(..))
}

/// Whether a condition is a chain of the operator that one operand of the value `deciding` decides.
pub(crate) fn is_chain<L>(deciding: bool, condition: &Condition<L>) -> bool
    ensures { result ≡ is_chain deciding condition.now }
{
    match condition.node() {
        Node::All(..) => !deciding,
        Node::Any(..) => deciding,
        _ => false,
    }
}

/// Adds the marks of a block.
#[cycle(block)]
fn put_block(tokens: &[Token], block: &Actions, marks: &mut Vec<Mark>) -> Result<(), AllocError>
    ensures { OnOk result (kinds_in marks.new.items ≡ kinds_in marks.old.items ++ block_kinds block.now) }
{
    for statement in block.statements() {
        put_statement(tokens, statement, marks)?;
    }
    Ok(())
}

/// Adds the marks of a statement.
#[cycle(block)]
fn put_statement(
    tokens: &[Token],
    statement: &Action,
    marks: &mut Vec<Mark>,
) -> Result<(), AllocError>
    ensures { OnOk result (kinds_in marks.new.items ≡ kinds_in marks.old.items ++ statement_kinds statement.now) }
{
    match statement {
        Statement::Run(command) => {
            let first = command.place.number.saturating_sub(1);
            put(Kind::Command, TokenRange::from(first, 1), marks)?;
            Ok(())
        }
        Statement::SetState(wish) => {
            put(Kind::Wish, TokenRange::from(wish.place.number, 1), marks)?;
            Ok(())
        }
        Statement::If(condition, inner) => {
            put_operand(tokens, false, condition, marks)?;
            put_block(tokens, inner, marks)?;
            Ok(())
        }
    }
}

/// Adds the marks of the `init` of a state, if it has one.
fn put_init(tokens: &[Token], parts: &[Part], marks: &mut Vec<Mark>) -> Result<(), AllocError>
    ensures { OnOk result (kinds_in marks.new.items ≡ kinds_in marks.old.items ++ block_kinds (init_in parts.now)) }
{
    let mut left = parts;
    'parts: while let [part, rest @ ..] = left {
        if let Part::Init(_, block) = part {
            put_block(tokens, block, marks)?;
            return Ok(());
        }
        left = rest;
    }
    Ok(())
}

/// Adds the marks of the body of a state.
fn put_body(tokens: &[Token], parts: &[Part], marks: &mut Vec<Mark>) -> Result<(), AllocError>
    ensures { OnOk result (kinds_in marks.new.items ≡ kinds_in marks.old.items ++ flat_map body_kinds parts.now) }
{
    for part in parts {
        put_statement_of(tokens, part, marks)?;
    }
    Ok(())
}

/// Adds the marks of a part if it is a statement.
fn put_statement_of(tokens: &[Token], part: &Part, marks: &mut Vec<Mark>) -> Result<(), AllocError>
    ensures { OnOk result (kinds_in marks.new.items ≡ kinds_in marks.old.items ++ body_kinds part.now) }
{
    if let Part::Do(statement) = part {
        put_statement(tokens, statement, marks)?;
    }
    Ok(())
}

/// Adds the marks of the `init` outside of states, if there is one.
fn put_always_init(
    tokens: &[Token],
    items: &[Item],
    marks: &mut Vec<Mark>,
) -> Result<(), AllocError>
    ensures { OnOk result (kinds_in marks.new.items ≡ kinds_in marks.old.items ++ block_kinds (init_in (always_of items.now))) }
{
    let mut left = items;
    'items: while let [item, rest @ ..] = left {
        if let Item::Always(Part::Init(_, block)) = item {
            put_block(tokens, block, marks)?;
            return Ok(());
        }
        left = rest;
    }
    Ok(())
}

/// Adds the marks of the body outside of states.
fn put_always_body(
    tokens: &[Token],
    items: &[Item],
    marks: &mut Vec<Mark>,
) -> Result<(), AllocError>
    ensures { OnOk result (kinds_in marks.new.items ≡ kinds_in marks.old.items ++ flat_map always_kinds items.now) }
{
    for item in items {
        if let Item::Always(part) = item {
            put_statement_of(tokens, part, marks)?;
        }
    }
    Ok(())
}

/// Adds the marks of a state, if an item defines one.
fn put_state(tokens: &[Token], item: &Item, marks: &mut Vec<Mark>) -> Result<(), AllocError>
    ensures { OnOk result (kinds_in marks.new.items ≡ kinds_in marks.old.items ++ state_kinds item.now) }
{
    if let Item::State(_, parts) = item {
        let parts = parts.as_slice();
        put_init(tokens, parts, marks)?;
        put_body(tokens, parts, marks)?;
    }
    Ok(())
}

/// The marks of the places of a policy, in the order of `judge_places`.
fn marks_in(alloc: Global, items: &[Item], tokens: &[Token]) -> Result<Vec<Mark>, AllocError>
    ensures { IfOk result (λ marks. kinds_in marks.items ≡ tree_kinds items.now) }
{
    let mut marks = Vec::new(alloc);
    put_always_init(tokens, items, &mut marks)?;
    put_always_body(tokens, items, &mut marks)?;
    for item in items {
        put_state(tokens, item, &mut marks)?;
    }
    Ok(marks)
}

/// The tokens that name the states, by their numbers.
fn states_of(alloc: Global, items: &[Item]) -> Result<Vec<usize>, AllocError> {
    let mut states = Vec::new(alloc);
    for item in items {
        if let Item::State(name, _) = item {
            states.push(name.place.number)?;
        }
    }
    Ok(states)
}

/// The marks of the places of a policy, and the tokens that name its states. The tokens say the tree.
pub(crate) fn marks_of(alloc: Global, tree: &Tree, tokens: &[Token]) -> Result<Marks, AllocError>
    // The places are those of the policy that the tree has, in order.
    ensures { IfOk result (λ marks. (policy : PolicyParts) → Resolves tree.now.items policy → kinds_in marks.places.items ≡ map kind_of_place (places_of policy)) }
{
    let items = tree.items();
    Ok(Marks {
        places: marks_in(alloc, items, tokens)?,
        states: states_of(alloc, items)?,
    })
}

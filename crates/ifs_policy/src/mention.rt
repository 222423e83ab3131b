//! The mentions of names in a tree, in text order.

ghost use Rattle.std.specs.Prelude.{◌≡◌, ◌++◌, map, OnOk};
ghost use Rattle.std.specs.List.{flat_map};
ghost use Rattle.ifs_policy.specs.Mentions.{block_mentions, condition_mentions};
ghost use Rattle.ifs_policy.specs.Mentions.{item_mentions, part_mentions, statement_mentions};
ghost use Rattle.ifs_policy.specs.inner.Seen.{seen};

use ifs_lex::TokenPlace;
use ifs_parse::{Action, Actions, Condition, Item, Name, Node, Part, Period, Statement, Test};
use std::alloc::AllocError;

/// One half of a part: its `init` or its body.
#[derive(Clone, Copy, Debug, PartialEq, Eq)]
pub enum Half {
    Init,
    Body,
}

/// The owner of a part.
#[derive(Clone, Copy, Debug, PartialEq, Eq)]
pub enum Owner {
    /// The part outside any state.
    Always,
    /// The state that was defined last.
    State,
}

/// A mention of a name or of a word. The text has one for each string, `init`, `init-state` and `set-state`.
/// `N` is a string, `P` a period.
#[derive(Debug, Drop)]
pub enum Mention<N, P> {
    /// The interface of a link test.
    Interface(N),
    /// The command of an external test, and its period.
    External(Half, N, P),
    /// A command that is run.
    Command(N),
    /// The name in the definition of a state.
    Defined(N),
    /// The name of a state after `set-state` or `init-state`.
    Target(N),
    /// The word `init`.
    Init(Owner, TokenPlace),
    /// The word `init-state`.
    InitState(TokenPlace),
    /// The word `set-state`.
    SetState(Half, TokenPlace),
}

/// The mentions found so far.
pub type Mentions<'a> = Vec<Mention<&'a Name, &'a Period>>;

/// Adds the mentions of an item.
pub fn mention_item<'a>(item: &'a Item, mentions: &mut Mentions<'a>) -> Result<(), AllocError>
    ensures { OnOk result (map seen mentions.new.items ≡ map seen mentions.old.items ++ item_mentions item.now) }
{
    match item {
        Item::InitState(place, name) => {
            mentions.push(Mention::InitState(*place))?;
            mentions.push(Mention::Target(name))?;
            Ok(())
        }
        Item::State(name, parts) => {
            mentions.push(Mention::Defined(name))?;
            for part in parts.as_slice() {
                mention_part(Owner::State, part, mentions)?;
            }
            Ok(())
        }
        Item::Always(part) => {
            mention_part(Owner::Always, part, mentions)?;
            Ok(())
        }
    }
}

/// Adds the mentions of a part.
fn mention_part<'a>(
    owner: Owner,
    part: &'a Part,
    mentions: &mut Mentions<'a>,
) -> Result<(), AllocError>
    ensures { OnOk result (map seen mentions.new.items ≡ map seen mentions.old.items ++ part_mentions owner part.now) }
{
    match part {
        Part::Init(place, block) => {
            mentions.push(Mention::Init(owner, *place))?;
            mention_block(Half::Init, block, mentions)?;
            Ok(())
        }
        Part::Do(statement) => {
            mention_statement(Half::Body, statement, mentions)?;
            Ok(())
        }
    }
}

/// Adds the mentions of statements, in order.
#[cycle(mention_block)]
fn mention_block<'a>(
    half: Half,
    block: &'a Actions,
    mentions: &mut Mentions<'a>,
) -> Result<(), AllocError>
    ensures { OnOk result (map seen mentions.new.items ≡ map seen mentions.old.items ++ block_mentions half block.now) }
{
    for statement in block.statements() {
        mention_statement(half, statement, mentions)?;
    }
    Ok(())
}

/// Adds the mentions of a statement.
#[cycle(mention_block)]
fn mention_statement<'a>(
    half: Half,
    statement: &'a Action,
    mentions: &mut Mentions<'a>,
) -> Result<(), AllocError>
    ensures { OnOk result (map seen mentions.new.items ≡ map seen mentions.old.items ++ statement_mentions half statement.now) }
{
    match statement {
        Statement::Run(command) => {
            mentions.push(Mention::Command(command))?;
            Ok(())
        }
        Statement::SetState(target) => {
            mentions.push(Mention::SetState(half, target.place))?;
            mentions.push(Mention::Target(&target.state))?;
            Ok(())
        }
        Statement::If(condition, block) => {
            mention_condition(half, condition, mentions)?;
            mention_block(half, block, mentions)?;
            Ok(())
        }
    }
}

/// Adds the mentions of a condition.
fn mention_condition<'a>(
    half: Half,
    condition: &'a Condition<Test>,
    mentions: &mut Mentions<'a>,
) -> Result<(), AllocError>
    ensures { OnOk result (map seen mentions.new.items ≡ map seen mentions.old.items ++ condition_mentions half condition.now) }
{
    match condition.node() {
        Node::Leaf(Test::Link(name, _)) => {
            mentions.push(Mention::Interface(name))?;
            Ok(())
        }
        Node::Leaf(Test::External(command, period)) => {
            mentions.push(Mention::External(half, command, period))?;
            Ok(())
        }
        Node::Not(operand) => {
            mention_condition(half, operand, mentions)?;
            Ok(())
        }
        Node::All(first, second, rest) | Node::Any(first, second, rest) => {
            mention_condition(half, first, mentions)?;
            mention_condition(half, second, mentions)?;
            for operand in rest {
                mention_condition(half, operand, mentions)?;
            }
            Ok(())
        }
    }
}

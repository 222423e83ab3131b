//! The condition of a claim.

ghost use Rattle.std.specs.Prelude.{◌≡◌, ◌∷◌, ◌++◌, [], codes, IfOk, IfSome, IsTrue};
ghost use Rattle.ifs_parse.specs.Trees as tree;
ghost use Rattle.ifs_claim_parse.specs.Conditions.{IsCondition, SaysAround, only, whats};

use crate::copying::{NOWHERE, behind_if, put};
use crate::fault::{LineFault, Why};
use crate::next::Line;
use crate::placing::place_condition;
use ifs_expected_tokens::is_front;
use ifs_lex::{Token, TokenPlace, What};
use ifs_parse::{Actions, Condition, Item, ParseFault, Part, Statement, Test, Tree, parse};
use ifs_policy::Single;
use std::alloc::{AllocError, Global};

/// `if`, copies of tokens, `{` and `}`.
fn policy_around(alloc: Global, tokens: &[Token]) -> Result<Vec<Token>, AllocError>
    ensures { IfOk result (λ made. whats made.items ≡ What.Word (codes "if") ∷ (whats tokens.now ++ (What.BraceOpen ∷ What.BraceClose ∷ []))) }
{
    let mut made = behind_if(alloc, tokens)?;
    put(&mut made, What::BraceOpen)?;
    put(&mut made, What::BraceClose)?;
    Ok(made)
}

/// The first token behind `if`.
const FIRST: TokenPlace = TokenPlace {
    span: NOWHERE,
    number: 1,
};

/// The tree of `if`, these tokens, `{` and `}`, or the fault. The tokens have the numbers from 1 on.
pub fn tree_around(alloc: Global, tokens: &[Token]) -> Result<Result<Tree, ParseFault>, AllocError>
    ensures { IfOk result (λ read. IfOk read (λ tree. SaysAround tokens.now tree)) }
{
    let mut policy = policy_around(alloc, tokens)?;
    if !is_front(policy.as_slice()) {
        return Ok(Err(ParseFault::Unexpected(FIRST)));
    }
    let number = policy.len();
    policy.push(Token {
        what: What::End,
        span: NOWHERE,
        number,
    })?;
    match parse(alloc, policy.as_slice()) {
        Ok(tree) => Ok(Ok(tree)),
        Err(ParseFault::Memory) => Err(AllocError),
        Err(fault) => Ok(Err(fault)),
    }
}

/// Whether a block has no statement.
fn is_empty(block: &Actions) -> bool
    ensures { IsTrue result → block.now ≡ tree.Done }
{
    block.statements().is_empty()
}

/// The condition of the statement that is all of a policy.
fn condition_in(tree: &Tree) -> Option<&Condition<Test>>
    ensures { IfSome result (λ condition. tree.now.items ≡ only condition.now) }
{
    match tree.items() {
        [Item::Always(Part::Do(Statement::If(condition, block)))] if is_empty(block) => Some(
            condition,
        ),
        _ => None,
    }
}

/// The condition that tokens say, with places for names.
pub fn read_condition(line: Line<'_>, tokens: &[Token]) -> Result<Condition<Single>, LineFault>
    ensures { IfOk result (λ condition. IsCondition line.entry.tables.now tokens.now condition) }
{
    let none = line.wrong(tokens, Why::NoCondition);
    let Ok(tree) = tree_around(line.alloc, tokens)? else {
        return Err(none);
    };
    match condition_in(&tree) {
        Some(condition) => match place_condition(line.alloc, line.tables, condition) {
            Ok(placed) => Ok(placed),
            Err(fault) => Err(fault.behind(line.index(tokens))),
        },
        None => Err(none),
    }
}

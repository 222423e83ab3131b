//! Conditions and blocks which say of the facts before an entry what others say of the facts after it. An entry takes the value of each
//! test that the body outside any state does not ask for. Such a test is replaced by one that no policy has: neither has a value.

ghost use Rattle.std.specs.Prelude.{◌≡◌, IfOk};
ghost use Rattle.ifs_claims.specs.inner.Kept.{kept_block, kept_condition, kept_single, kept_statement};

use ifs_base::TestId;
use ifs_parse::{Condition, Statement};
use ifs_policy::{LeafMap, PolicyBlock, Single, mentions, replace_leaves};
use ifs_solver::PolicyStatement;
use std::alloc::{AllocError, Global};

/// A test that no policy has.
const NO_TEST: TestId = TestId(u16::MAX);

/// An entry of a state.
#[derive(Clone, Copy)]
pub(crate) struct Entry<'a> {
    /// The body outside any state.
    pub always: &'a PolicyBlock,
}

impl Entry<'_> {
    /// A single test, or one of a test that no policy has if the entry takes its value.
    fn kept_single(self, single: Single) -> Single
        ensures { result ≡ kept_single self.entry.always.now single }
    {
        match single {
            Single::LinkIs(interface, state) => Single::LinkIs(interface, state),
            Single::TestIs(test) => {
                if mentions(test, self.always) {
                    Single::TestIs(test)
                } else {
                    Single::TestIs(NO_TEST)
                }
            }
        }
    }
}

impl LeafMap<Single> for Entry<'_> {
    type Fault = AllocError;

    ghost can = { λ it. Unit {0} };

    ghost image = { λ it. kept_single it.always.now };

    ghost fits = { λ it single. Unit {0} };

    fn single(&self, single: &Single) -> Result<Single, AllocError> {
        let made = self.kept_single(*single);
        Ok(made)
    }
}

/// The condition that is true before an entry where this one is true after it.
pub(crate) fn kept_condition(
    alloc: Global,
    at: Entry<'_>,
    condition: &Condition<Single>,
) -> Result<Condition<Single>, AllocError>
    ensures { IfOk result (λ made. made ≡ kept_condition at.entry.always.now condition.now) }
{
    let made = replace_leaves(alloc, &at, condition)?;
    Ok(made)
}

/// The block that reaches before an entry what this one reaches after it.
#[cycle(kept_block)]
pub(crate) fn kept_block(
    alloc: Global,
    at: Entry<'_>,
    block: &PolicyBlock,
) -> Result<PolicyBlock, AllocError>
    ensures { IfOk result (λ made. made ≡ kept_block at.entry.always.now block.now) }
{
    let mut made = Vec::new(alloc);
    for statement in block.statements() {
        made.push(kept_statement(alloc, at, statement)?)?;
    }
    Ok(PolicyBlock::new(made))
}

/// The same of a statement.
#[cycle(kept_block)]
fn kept_statement(
    alloc: Global,
    at: Entry<'_>,
    statement: &PolicyStatement,
) -> Result<PolicyStatement, AllocError>
    ensures { IfOk result (λ made. made ≡ kept_statement at.entry.always.now statement.now) }
{
    match statement {
        Statement::Run(command) => Ok(Statement::Run(*command)),
        Statement::SetState(state) => Ok(Statement::SetState(*state)),
        Statement::If(condition, block) => {
            let condition = kept_condition(alloc, at, condition)?;
            let block = kept_block(alloc, at, block)?;
            Ok(Statement::If(condition, block))
        }
    }
}

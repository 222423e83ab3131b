//! The choice of the shared conditions of a policy.

ghost use Rattle.std.specs.Prelude.{◌≡◌, ◌≤◌, false, fold, length, IfOk, OnOk};
ghost use Rattle.std.specs.List.{list_any};
ghost use Rattle.ifs_gen.specs.PlainCode.{condition_code};
ghost use Rattle.ifs_gen.specs.PolicyImage.{shared_of};
ghost use Rattle.ifs_gen.specs.Sharing.{conditions_in, conditions_of, most_shared, same_code};
ghost use Rattle.ifs_gen.specs.inner.Meetings.{chosen, meet, statement_conditions, with_chosen, AreApart};

use crate::emission::put_condition;
use crate::keys::ConditionCode;
use ifs_base::{CommandId, StateId};
use ifs_parse::{Condition, Statement};
use ifs_policy::{Handlers, Policy, PolicyBlock, Single, Table};
use std::alloc::{AllocError, Global};

/// The least number of instructions of a shared condition.
const LEAST: usize = 5;

/// The greatest number of shared conditions.
const MOST: usize = 510;

/// The codes of the conditions so far that are long enough to be shared.
#[derive(Drop)]
struct Met {
    /// The codes that occurred, in the order of their first occurrence.
    once: Table<ConditionCode>,
    /// The codes that occurred again.
    again: Table<ConditionCode>,
}

/// The codes of a policy's shared conditions, by number.
pub(crate) fn shared_of(alloc: Global, policy: &Policy) -> Result<Table<ConditionCode>, AllocError>
    ensures shared { IfOk result (λ shared. shared ≡ shared_of policy.now) }
    ensures few { IfOk result (λ shared. length shared ≤ most_shared) }
{
    let mut met = Met {
        once: Table::new(alloc),
        again: Table::new(alloc),
    };
    meet_part(alloc, policy.always(), &mut met)?;
    meet_parts(alloc, policy.states(), &mut met)?;
    chosen_of(alloc, &met)
}

/// Notes the conditions of parts, in order.
fn meet_parts(alloc: Global, parts: &[Handlers], met: &mut Met) -> Result<(), AllocError>
    ensures { OnOk result (met.new ≡ fold meet met.old (conditions_in parts.now)) }
{
    for part in parts {
        meet_part(alloc, part, met)?;
    }
    Ok(())
}

/// Notes the conditions of a part: those of its init, then those of its body.
fn meet_part(alloc: Global, part: &Handlers, met: &mut Met) -> Result<(), AllocError>
    ensures { OnOk result (met.new ≡ fold meet (fold meet met.old (conditions_of part.now.init)) (conditions_of part.now.body)) }
{
    meet_block(alloc, &part.init, met)?;
    meet_block(alloc, &part.body, met)?;
    Ok(())
}

/// Notes the conditions of a block, from the top.
#[cycle(meet_block)]
fn meet_block(alloc: Global, block: &PolicyBlock, met: &mut Met) -> Result<(), AllocError>
    ensures { OnOk result (met.new ≡ fold meet met.old (conditions_of block.now)) }
{
    for statement in block.statements() {
        meet_statement(alloc, statement, met)?;
    }
    Ok(())
}

/// Notes the conditions of a statement.
#[cycle(meet_block)]
fn meet_statement(
    alloc: Global,
    statement: &Statement<Single, CommandId, StateId>,
    met: &mut Met,
) -> Result<(), AllocError>
    ensures { OnOk result (met.new ≡ fold meet met.old (statement_conditions statement.now)) }
{
    match statement {
        Statement::Run(_) | Statement::SetState(_) => Ok(()),
        Statement::If(condition, inner) => {
            meet_condition(alloc, condition, met)?;
            meet_block(alloc, inner, met)?;
            Ok(())
        }
    }
}

/// Notes a condition.
fn meet_condition(
    alloc: Global,
    condition: &Condition<Single>,
    met: &mut Met,
) -> Result<(), AllocError>
    ensures { OnOk result (met.new ≡ meet met.old (condition_code condition.now)) }
{
    let mut code = Vec::new(alloc);
    put_condition(condition, &mut code)?;
    if code.len() < LEAST {
        return Ok(());
    }
    let code = ConditionCode::new(code);
    if met.once.has(&code) {
        met.again.insert(code)?;
    } else {
        met.once.insert(code)?;
    }
    Ok(())
}

/// The first of the codes that occurred again, in the order of their first occurrence.
fn chosen_of(alloc: Global, met: &Met) -> Result<Table<ConditionCode>, AllocError>
    requires { AreApart same_code met.now.once }
    ensures { IfOk result (λ shared. shared ≡ chosen met.now) }
{
    let mut shared = Table::new(alloc);
    for index in 0..met.once.len() {
        match met.once.get(index) {
            Some(code) => put_chosen(code, &met.again, &mut shared)?,
            None => unreachable!(),
        }
    }
    Ok(shared)
}

/// Appends a code, if it occurred again and there is room.
fn put_chosen(
    code: &ConditionCode,
    again: &Table<ConditionCode>,
    shared: &mut Table<ConditionCode>,
) -> Result<(), AllocError>
    requires { list_any (same_code code.now) shared.old ≡ false }
    ensures { OnOk result (shared.new ≡ with_chosen again.now shared.old code.now) }
{
    if again.has(code) && shared.len() < MOST {
        shared.insert(code.clone()?)?;
    }
    Ok(())
}

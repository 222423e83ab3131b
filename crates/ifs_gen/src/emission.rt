//! The code of conditions and blocks.

ghost use Rattle.std.specs.Prelude.{◌≡◌, ◌+◌, ◌<◌, ◌^◌, ◌++◌, length, slice_set, OnOk};
ghost use Rattle.ifs_base.specs.declared.op.Op.TheVariants.{JumpFalse};
ghost use Rattle.ifs_gen.specs.PlainCode.{block_code, code_size, condition_code, single_op as op_of};
ghost use Rattle.ifs_gen.specs.Sharing.{shared_coder};
ghost use Rattle.ifs_gen.specs.inner.Emission.{joining_op, statement_code, statement_size, test_code};

use crate::keys::ConditionCode;
use ifs_base::{CommandId, Op, RoutineId, StateId};
use ifs_parse::{Condition, Node, Statement};
use ifs_policy::{PolicyBlock, Single, Table};
use std::alloc::{AllocError, Global};

/// The instruction of a single test.
fn single_op(single: &Single) -> Op
    ensures { result ≡ op_of single.now }
{
    match single {
        Single::LinkIs(interface, state) => Op::Link(*interface, *state),
        Single::TestIs(test) => Op::Test(*test),
    }
}

/// The instruction that joins the operands of a node: `or` for `||`, else `and`.
fn joining_op(node: &Node<Single>) -> Op
    ensures { result ≡ joining_op node.now }
{
    match node {
        Node::Any(_, _, _) => Op::Either,
        _ => Op::Both,
    }
}

/// Appends the code of a condition: that of each operand, then the instruction of the sign.
pub(crate) fn put_condition(
    condition: &Condition<Single>,
    code: &mut Vec<Op>,
) -> Result<(), AllocError>
    ensures { OnOk result (code.new.items ≡ code.old.items ++ condition_code condition.now) }
{
    let node = condition.node();
    match node {
        Node::Leaf(single) => {
            code.push(single_op(single))?;
            Ok(())
        }
        Node::Not(operand) => {
            put_condition(operand, code)?;
            code.push(Op::Negate)?;
            Ok(())
        }
        Node::All(first, second, rest) | Node::Any(first, second, rest) => {
            let op = joining_op(node);
            put_condition(first, code)?;
            put_condition(second, code)?;
            code.push(op)?;
            for operand in rest {
                put_condition(operand, code)?;
                code.push(op)?;
            }
            Ok(())
        }
    }
}

/// Appends the code of the condition of an `if`, which is a call if the condition is shared.
fn put_test(
    alloc: Global,
    condition: &Condition<Single>,
    shared: &Table<ConditionCode>,
    code: &mut Vec<Op>,
) -> Result<(), AllocError>
    requires { length shared.now < 2 ^ 16 }
    ensures { OnOk result (code.new.items
        ≡ code.old.items ++ test_code shared.now condition.now) }
{
    let mut plain = Vec::new(alloc);
    put_condition(condition, &mut plain)?;
    let plain = ConditionCode::new(plain);
    match shared.place_of(&plain) {
        Some(place) => {
            code.push(Op::Call(RoutineId(place as u16)))?;
            Ok(())
        }
        None => {
            code.extend_from_slice(plain.as_slice())?;
            Ok(())
        }
    }
}

/// Appends the code of a block, which calls shared conditions. Jump targets count from the start of `code`.
#[cycle(put_block)]
pub(crate) fn put_block(
    alloc: Global,
    block: &PolicyBlock,
    shared: &Table<ConditionCode>,
    code: &mut Vec<Op>,
) -> Result<(), AllocError>
    requires few { length shared.now < 2 ^ 16 }
    requires room { length code.old.items + code_size (shared_coder shared.now) block.now < 2 ^ 16 }
    ensures { OnOk result (code.new.items
        ≡ code.old.items ++ block_code (shared_coder shared.now) (length code.old.items) block.now) }
{
    for statement in block.statements() {
        put_statement(alloc, statement, shared, code)?;
    }
    Ok(())
}

/// Appends the code of a statement. The jump over a block is set once the end of the block is known.
#[cycle(put_block)]
fn put_statement(
    alloc: Global,
    statement: &Statement<Single, CommandId, StateId>,
    shared: &Table<ConditionCode>,
    code: &mut Vec<Op>,
) -> Result<(), AllocError>
    requires few { length shared.now < 2 ^ 16 }
    requires room { length code.old.items + statement_size (shared_coder shared.now) statement.now < 2 ^ 16 }
    ensures { OnOk result (code.new.items
        ≡ code.old.items ++ statement_code (shared_coder shared.now) (length code.old.items) statement.now) }
{
    match statement {
        Statement::Run(command) => {
            code.push(Op::PushCommand(*command))?;
            code.push(Op::Queue)?;
            Ok(())
        }
        Statement::SetState(state) => {
            code.push(Op::PushState(*state))?;
            code.push(Op::Want)?;
            Ok(())
        }
        Statement::If(condition, inner) => {
            put_test(alloc, condition, shared, code)?;
            let jump = code.len();
            code.push(Op::JumpFalse(0))?;
            put_block(alloc, inner, shared, code)?;
            set_jump(jump, code);
            Ok(())
        }
    }
}

/// Makes the jump at a place lead to the end of the code.
pub(crate) fn set_jump(jump: usize, code: &mut Vec<Op>)
    requires place { jump < length code.old.items }
    requires room { length code.old.items < 2 ^ 16 }
    ensures { code.new.items ≡ slice_set code.old.items jump (JumpFalse (length code.old.items)) }
{
    code[jump] = Op::JumpFalse(code.len() as u16);
}

//! The size of plain code, before it is written. Each number saturates at the maximum of a `u64`.

ghost use Rattle.std.specs.Prelude.{◌≡◌, ◌+◌, max};
ghost use Rattle.ifs_gen.specs.inner.Measures.{capped, statement_height, statement_runs};
ghost use Rattle.ifs_gen.specs.inner.Emission.{statement_size};
ghost use Rattle.ifs_parse.specs.Trees.{condition_size};
ghost use Rattle.ifs_gen.specs.PlainCode.{block_height, block_runs, code_size, condition_height, plain_coder};

use ifs_base::{CommandId, StateId};
use ifs_parse::{Condition, Node, Statement};
use ifs_policy::{PolicyBlock, Single};

/// The measures of a condition's code.
#[derive(Clone, Copy)]
pub(crate) struct ConditionMeasure {
    /// The number of instructions.
    pub size: u64,
    /// The greatest number of values on the stack.
    pub height: u64,
}

impl ConditionMeasure {
    /// The measure of two operands and the sign that joins them.
    fn joined(self, right: ConditionMeasure) -> ConditionMeasure
        ensures size { result.size ≡ capped (self.size + right.size + 1) }
        ensures height { result.height ≡ max self.height (capped (right.height + 1)) }
    {
        ConditionMeasure {
            size: self.size.saturating_add(right.size).saturating_add(1),
            height: self.height.max(right.height.saturating_add(1)),
        }
    }
}

/// Measures a condition.
pub(crate) fn measure_condition(condition: &Condition<Single>) -> ConditionMeasure
    ensures size { result.size ≡ capped (condition_size condition.now) }
    ensures height { result.height ≡ capped (condition_height condition.now) }
{
    match condition.node() {
        Node::Leaf(_) => ConditionMeasure { size: 1, height: 1 },
        Node::Not(operand) => {
            let measure = measure_condition(operand);
            ConditionMeasure {
                size: measure.size.saturating_add(1),
                height: measure.height,
            }
        }
        Node::All(first, second, rest) | Node::Any(first, second, rest) => {
            let mut measure = measure_condition(first).joined(measure_condition(second));
            for operand in rest {
                measure = measure.joined(measure_condition(operand));
            }
            measure
        }
    }
}

/// The measures of a block's code.
#[derive(Clone, Copy)]
pub(crate) struct BlockMeasure {
    /// The number of instructions.
    pub size: u64,
    /// The greatest number of values on the stack.
    pub height: u64,
    /// The greatest number of commands that run.
    pub runs: u64,
}

impl BlockMeasure {
    /// The measure of two blocks in sequence.
    fn followed(self, next: BlockMeasure) -> BlockMeasure
        ensures size { result.size ≡ capped (self.size + next.size) }
        ensures height { result.height ≡ max self.height next.height }
        ensures runs { result.runs ≡ capped (self.runs + next.runs) }
    {
        BlockMeasure {
            size: self.size.saturating_add(next.size),
            height: self.height.max(next.height),
            runs: self.runs.saturating_add(next.runs),
        }
    }
}

/// Measures a block.
#[cycle(measure_block)]
pub(crate) fn measure_block(block: &PolicyBlock) -> BlockMeasure
    ensures size { result.size ≡ capped (code_size plain_coder block.now) }
    ensures height { result.height ≡ capped (block_height plain_coder block.now) }
    ensures runs { result.runs ≡ capped (block_runs block.now) }
{
    let mut measure = BlockMeasure {
        size: 0,
        height: 0,
        runs: 0,
    };
    for statement in block.statements() {
        measure = measure.followed(measure_statement(statement));
    }
    measure
}

/// Measures a statement.
#[cycle(measure_block)]
fn measure_statement(statement: &Statement<Single, CommandId, StateId>) -> BlockMeasure
    ensures size { result.size ≡ capped (statement_size plain_coder statement.now) }
    ensures height { result.height ≡ capped (statement_height statement.now) }
    ensures runs { result.runs ≡ capped (statement_runs statement.now) }
{
    match statement {
        Statement::Run(_) => BlockMeasure {
            size: 2,
            height: 1,
            runs: 1,
        },
        Statement::SetState(_) => BlockMeasure {
            size: 2,
            height: 1,
            runs: 0,
        },
        Statement::If(condition, inner) => {
            let test = measure_condition(condition);
            let done = measure_block(inner);
            BlockMeasure {
                size: test.size.saturating_add(1).saturating_add(done.size),
                height: test.height.max(done.height),
                runs: done.runs,
            }
        }
    }
}

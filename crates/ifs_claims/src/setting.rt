//! Which states a block sets. No facts make it wish for another one.

ghost use Rattle.std.specs.Bool.{OnFalse};
ghost use Rattle.std.specs.Prelude.{◌≡◌, Some, false, slice_get, slice_set, true};
ghost use Rattle.ifs_parse.specs.Trees.{Done};
ghost use Rattle.ifs_parse.specs.Views.{statement_then};
ghost use Rattle.ifs_claims.specs.inner.Setting.{marked, sets};

use ifs_base::StateId;
use ifs_parse::Statement;
use ifs_policy::PolicyBlock;
use ifs_solver::PolicyStatement;

/// Whether a block sets a state, itself or in a block inside it.
#[cycle(sets)]
pub(crate) fn sets(block: &PolicyBlock, state: StateId) -> bool
    ensures { result ≡ sets state.0 block.now }
{
    let mut is_found = false;
    for statement in block.statements() {
        let is_set = sets_in(statement, state);
        is_found = is_found || is_set;
    }
    is_found
}

/// Whether a statement does.
#[cycle(sets)]
fn sets_in(statement: &PolicyStatement, state: StateId) -> bool
    ensures { result ≡ sets state.0 (statement_then statement.now Done) }
{
    match statement {
        Statement::Run(_) => false,
        Statement::SetState(other) => other.0 == state.0,
        Statement::If(_, inner) => sets(inner, state),
    }
}

/// Marks the states that a block sets.
#[cycle(mark)]
pub(crate) fn mark(marks: &mut Vec<bool>, block: &PolicyBlock)
    ensures { marks.new.items ≡ marked marks.old.items block.now }
{
    for statement in block.statements() {
        mark_in(marks, statement);
    }
}

/// Marks the states that a statement sets.
#[cycle(mark)]
fn mark_in(marks: &mut Vec<bool>, statement: &PolicyStatement)
    ensures { marks.new.items ≡ marked marks.old.items (statement_then statement.now Done) }
{
    match statement {
        Statement::Run(_) => {}
        Statement::SetState(state) => mark_state(marks, *state),
        Statement::If(_, inner) => mark(marks, inner),
    }
}

/// Marks a state, if there is one of this number.
fn mark_state(marks: &mut Vec<bool>, state: StateId)
    ensures { marks.new.items ≡ slice_set marks.old.items state.0 true }
{
    let index = usize::from(state.0);
    if index < marks.len() {
        marks[index] = true;
    }
}

/// Whether a state is marked, or there is none of this number.
pub(crate) fn is_marked(marks: &[bool], state: u16) -> bool
    ensures { OnFalse result (slice_get marks.now state ≡ Some false) }
{
    let index = usize::from(state);
    index >= marks.len() || marks[index]
}

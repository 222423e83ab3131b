//! The routines of shared conditions and of parts.

ghost use Rattle.std.specs.Prelude.{◌≡◌, ◌+◌, ◌*◌, ◌<◌, ◌≤◌, ◌^◌, ◌++◌, List, [], ◌∷◌, length, IfOk};
ghost use Rattle.ifs_base.specs.declared.ids.TestId.{TestId};
ghost use Rattle.ifs_base.specs.declared.op.Kind.TheVariants.{Truth};
ghost use Rattle.ifs_base.specs.declared.op.Op.{Op};
ghost use Rattle.ifs_base.specs.declared.op.Op.TheVariants.{Ret};
ghost use Rattle.ifs_gen.specs.PlainCode.{block_code, code_size, held_code, init_code};
ghost use Rattle.ifs_gen.specs.PolicyImage.{routine_leaving, routine_of_code, shared_routine};
ghost use Rattle.ifs_gen.specs.Sharing.{shared_coder};

use crate::emission::{put_block, set_jump};
use crate::keys::ConditionCode;
use ifs_base::{Items, Kind, Op, TestId};
use ifs_image::{Kinds, Routine};
use ifs_policy::{PolicyBlock, Table};
use std::alloc::{AllocError, Global};

/// The routine of a shared condition, whose result is the truth of the condition.
pub(crate) fn shared_routine(alloc: Global, code: &ConditionCode) -> Result<Routine, AllocError>
    ensures { IfOk result (λ routine. routine ≡ shared_routine code.now) }
{
    let mut ops = Vec::new(alloc);
    ops.extend_from_slice(code.as_slice())?;
    ops.push(Op::Ret)?;
    Ok(routine_leaving(one_truth(), ops))
}

/// A routine without parameters, with these results.
fn routine_leaving(results: Kinds, code: Vec<Op>) -> Routine
    ensures { result ≡ routine_leaving results.items code.items }
{
    Routine {
        params: Kinds::new(),
        results,
        code: Items::new(code),
    }
}

/// The results of a condition.
fn one_truth() -> Kinds
    ensures { result.items ≡ Truth ∷ [] }
{
    let mut kinds = Kinds::new();
    kinds.push(Kind::Truth);
    kinds
}

/// The routine of an init, which is never held back.
pub(crate) fn init_routine(
    alloc: Global,
    init: &PolicyBlock,
    shared: &Table<ConditionCode>,
) -> Result<Routine, AllocError>
    requires few { length shared.now < 2 ^ 16 }
    requires room { code_size (shared_coder shared.now) init.now < 1024 }
    ensures { IfOk result (λ routine. routine ≡ routine_of_code (init_code (shared_coder shared.now) init.now)) }
{
    let mut code = Vec::new(alloc);
    put_block(alloc, init, shared, &mut code)?;
    code.push(Op::Ret)?;
    Ok(routine_leaving(Kinds::new(), code))
}

/// The routine of a body, which is held back while one of these tests has no value. The jumps over the body are
/// set once its end is known.
pub(crate) fn body_routine(
    alloc: Global,
    body: &PolicyBlock,
    tests: &[TestId],
    shared: &Table<ConditionCode>,
) -> Result<Routine, AllocError>
    requires few { length shared.now < 2 ^ 16 }
    requires room { 2 * length tests.now + code_size (shared_coder shared.now) body.now < 1024 }
    ensures { IfOk result (λ routine. routine ≡ routine_of_code
        (held_code (2 * length tests.now + code_size (shared_coder shared.now) body.now) tests.now
        ++ (block_code (shared_coder shared.now) (2 * length tests.now) body.now ++ Ret ∷ []))) }
{
    let mut code = Vec::new(alloc);
    for test in tests {
        code.push(Op::Known(*test))?;
        code.push(Op::JumpFalse(0))?;
    }
    put_block(alloc, body, shared, &mut code)?;
    set_held(tests.len(), &mut code);
    code.push(Op::Ret)?;
    Ok(routine_leaving(Kinds::new(), code))
}

/// Makes the jumps of the first `count` tests lead to the end of the code.
fn set_held(count: usize, code: &mut Vec<Op>)
    requires held { 2 * count ≤ length code.old.items }
    requires room { length code.old.items < 2 ^ 16 }
    ensures { (tests : List TestId) (rest : List Op) → count ≡ length tests
        → code.old.items ≡ held_code 0 tests ++ rest
        → code.new.items ≡ held_code (length code.old.items) tests ++ rest }
{
    for index in 0..count {
        set_jump(2 * index + 1, code);
    }
}

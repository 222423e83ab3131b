//! The plain checks, of each instruction and each handler by itself.

ghost use Rattle.std.specs.Prelude.{ℕ, ◌≡◌, ◌<◌, ◌≤◌, ◌↔◌, length, IsTrue, OnOk, IfErr, Some, slice_get};
ghost use Rattle.ifs_base.specs.declared.ids.RoutineId.{RoutineId};
ghost use Rattle.ifs_base.specs.declared.op.Op.{Op};
ghost use Rattle.ifs_base.specs.declared.op.Op.TheVariants.{Call};
ghost use Rattle.ifs_image.specs.declared.parts.StateSpec.{StateSpec};
ghost use Rattle.ifs_image.specs.Code.{op_at, code_of, target_of};
ghost use Rattle.std.specs.Bool.{OnTrue, OnFalse};
ghost use Rattle.ifs_verify.specs.declared.fault.At.TheVariants.{Code};
ghost use Rattle.ifs_verify.specs.declared.rules.OpRule.{OpRule};
ghost use Rattle.ifs_verify.specs.Rules.{IsRoutine, AreRoutines, IsMask, HasOperand, StandsAlone, BothStandAlone, IndexesFit};
ghost use Rattle.ifs_verify.specs.Rules.{HandlersStandAlone, JumpsLeadOn, RoutinesEnd, CallsGoDown, PlacesAreReached};
ghost use Rattle.ifs_verify.specs.Refused.{Fails};
ghost use Rattle.ifs_verify.specs.inner.Passes.{IsSized, Keeps, KeepAll, fault_of};

use crate::fault::{At, VerifyFault};
use crate::places::{at, at_state, code, handlers_of, op_at, target};
use ifs_base::{Op, RoutineId};
use ifs_image::{Handlers, ImageView};

/// A rule of each instruction by itself.
#[derive(Clone, Copy)]
pub enum OpRule {
    /// The operand is an index of its table.
    Operand,
    /// The target of a jump is a later place of its routine.
    Target,
    /// The callee of a call has a lower number.
    Callee,
}

/// V2: each index is in its table, and each mask has only tests of the table.
pub fn check_indexes(image: &ImageView<'_>, plain: bool) -> Result<(), VerifyFault>
    requires sized { IsSized image.now }
    requires plain { OnTrue plain (KeepAll image.now) }
    ensures kept { OnOk result (IndexesFit image.now) }
    ensures refused { IfErr result (λ fault. Fails fault image.now) }
{
    check_head(image)?;
    check_states(image)?;
    check_ops(image, OpRule::Operand, plain)?;
    Ok(())
}

/// V3: each jump leads to a later place of its routine.
pub fn check_jumps(image: &ImageView<'_>, plain: bool) -> Result<(), VerifyFault>
    requires sized { IsSized image.now }
    requires plain { OnTrue plain (KeepAll image.now) }
    ensures kept { OnOk result (JumpsLeadOn image.now) }
    ensures refused { IfErr result (λ fault. Fails fault image.now) }
{
    check_ops(image, OpRule::Target, plain)?;
    Ok(())
}

/// V8: the callee of each call has a lower number.
pub fn check_calls(image: &ImageView<'_>, plain: bool) -> Result<(), VerifyFault>
    requires sized { IsSized image.now }
    requires plain { OnTrue plain (KeepAll image.now) }
    ensures kept { OnOk result (CallsGoDown image.now) }
    ensures refused { IfErr result (λ fault. Fails fault image.now) }
{
    check_ops(image, OpRule::Callee, plain)?;
    Ok(())
}

/// V2 of the initial state and the always part.
fn check_head(image: &ImageView<'_>) -> Result<(), VerifyFault>
    requires { IsSized image.now }
    ensures initial { OnOk result (image.now.initial.0 < length image.now.states) }
    ensures always { OnOk result (AreRoutines image.now image.now.always × IsMask image.now image.now.always.mask) }
    ensures refused { IfErr result (λ fault. Fails fault image.now) }
{
    if usize::from(image.initial().0) >= image.states() {
        return Err(VerifyFault::NoEntry(At::Head));
    }
    if !are_indexes(image, image.always()) {
        return Err(VerifyFault::NoEntry(At::Head));
    }
    Ok(())
}

/// V2 of the states.
fn check_states(image: &ImageView<'_>) -> Result<(), VerifyFault>
    requires { IsSized image.now }
    ensures kept { OnOk result ((k : ℕ) (state : StateSpec) → slice_get image.now.states k ≡ Some state → AreRoutines image.now state.handlers × IsMask image.now state.handlers.mask) }
    ensures refused { IfErr result (λ fault. Fails fault image.now) }
{
    for state in 0..image.states() {
        if !are_indexes(image, handlers_of(image, state)) {
            return Err(VerifyFault::NoEntry(at_state(state)));
        }
    }
    Ok(())
}

/// Whether init and body are routines, and the mask has only tests of the table.
fn are_indexes(image: &ImageView<'_>, handlers: Handlers) -> bool
    requires { IsSized image.now }
    ensures { IsTrue result ↔ (AreRoutines image.now handlers × IsMask image.now handlers.mask) }
{
    let routines = image.routines();
    usize::from(handlers.init.0) < routines
        && usize::from(handlers.body.0) < routines
        && is_mask(image, handlers.mask)
}

/// Whether a mask has no bit at or over the number of tests.
fn is_mask(image: &ImageView<'_>, mask: u64) -> bool
    requires { IsSized image.now }
    ensures { IsTrue result ↔ IsMask image.now mask }
{
    let tests = image.tests();
    64 <= tests || mask < 1 << tests
}

/// V14: no handler has parameters or results.
pub fn check_handlers(image: &ImageView<'_>) -> Result<(), VerifyFault>
    requires sized { IsSized image.now }
    requires indexes { IndexesFit image.now }
    ensures kept { OnOk result (HandlersStandAlone image.now) }
    ensures refused { IfErr result (λ fault. Fails fault image.now) }
{
    if !both_stand_alone(image, image.always()) {
        return Err(VerifyFault::HandlerLeaves(At::Head));
    }
    for state in 0..image.states() {
        if !both_stand_alone(image, handlers_of(image, state)) {
            return Err(VerifyFault::HandlerLeaves(at_state(state)));
        }
    }
    Ok(())
}

/// Whether neither handler has parameters or results.
fn both_stand_alone(image: &ImageView<'_>, handlers: Handlers) -> bool
    requires { AreRoutines image.now handlers }
    ensures { IsTrue result ↔ BothStandAlone image.now handlers }
{
    stands_alone(image, usize::from(handlers.init.0))
        && stands_alone(image, usize::from(handlers.body.0))
}

/// Whether a routine has no parameters and no results.
fn stands_alone(image: &ImageView<'_>, routine: usize) -> bool
    requires { IsRoutine image.now routine }
    ensures { IsTrue result ↔ StandsAlone image.now routine }
{
    image.params(routine).is_empty() && image.results(routine).is_empty()
}

/// V4: each routine has instructions, and the last one is `ret`.
pub fn check_ends(image: &ImageView<'_>) -> Result<(), VerifyFault>
    requires { IsSized image.now }
    ensures kept { OnOk result (RoutinesEnd image.now) }
    ensures refused { IfErr result (λ fault. Fails fault image.now) }
{
    for routine in 0..image.routines() {
        let code = code(image, routine);
        let last = code.len().saturating_sub(1);
        if code.is_empty() || op_at(&code, last) != Op::Ret {
            return Err(VerifyFault::LeftAtEnd(at(routine, last)));
        }
    }
    Ok(())
}

/// Whether each instruction keeps every rule: one pass over an accepted image in place of one for each rule. The
/// checks find which rule is broken first, and where.
pub fn all_keep(image: &ImageView<'_>) -> bool
    requires { IsSized image.now }
    ensures { OnTrue result (KeepAll image.now) }
{
    for routine in 0..image.routines() {
        if !all_keep_in(image, routine) {
            return false;
        }
    }
    true
}

/// Whether each instruction of a routine keeps every rule.
fn all_keep_in(image: &ImageView<'_>, routine: usize) -> bool
    requires sized { IsSized image.now }
    requires routine { IsRoutine image.now routine }
    ensures { OnTrue result ((rule : OpRule) (place : ℕ) (op : Op) → op_at image.now routine place ≡ Some op → Keeps rule image.now routine place op) }
{
    let code = code(image, routine);
    for place in 0..code.len() {
        let op = op_at(&code, place);
        if !keeps_each(image, routine, place, op, code.len()) {
            return false;
        }
    }
    true
}

/// Whether an instruction keeps every rule, in a routine of `count` instructions.
fn keeps_each(image: &ImageView<'_>, routine: usize, place: usize, op: Op, count: usize) -> bool
    requires routine { IsRoutine image.now routine }
    requires long { count ≡ length (code_of image.now routine) }
    ensures { OnTrue result ((rule : OpRule) → Keeps rule image.now routine place op) }
{
    match op {
        Op::Link(iface, _) => usize::from(iface.0) < image.interfaces(),
        Op::Test(test) | Op::Known(test) => usize::from(test.0) < image.tests(),
        Op::PushCommand(command) => usize::from(command.0) < image.commands(),
        Op::PushState(state) => usize::from(state.0) < image.states(),
        Op::Jump(target) | Op::JumpFalse(target) | Op::JumpTrue(target) => {
            place < usize::from(target) && usize::from(target) < count
        }
        Op::Call(RoutineId(callee)) => usize::from(callee) < routine,
        _ => true,
    }
}

/// Checks that each instruction keeps a rule. If `plain`, it is known that all do.
fn check_ops(image: &ImageView<'_>, rule: OpRule, plain: bool) -> Result<(), VerifyFault>
    requires sized { IsSized image.now }
    requires plain { OnTrue plain (KeepAll image.now) }
    ensures kept { OnOk result ((routine place : ℕ) (op : Op) → op_at image.now routine place ≡ Some op → Keeps rule image.now routine place op) }
    ensures refused { IfErr result (λ fault. Fails fault image.now) }
{
    if plain {
        return Ok(());
    }
    for routine in 0..image.routines() {
        check_ops_of(image, routine, rule)?;
    }
    Ok(())
}

/// Checks that each instruction of a routine keeps a rule.
fn check_ops_of(image: &ImageView<'_>, routine: usize, rule: OpRule) -> Result<(), VerifyFault>
    requires sized { IsSized image.now }
    requires routine { IsRoutine image.now routine }
    ensures kept { OnOk result ((place : ℕ) (op : Op) → op_at image.now routine place ≡ Some op → Keeps rule image.now routine place op) }
    ensures refused { IfErr result (λ fault. Fails fault image.now) }
{
    let code = code(image, routine);
    for place in 0..code.len() {
        let op = op_at(&code, place);
        if !keeps(image, routine, place, op, rule) {
            return Err(broken(rule, at(routine, place)));
        }
    }
    Ok(())
}

/// Whether an instruction keeps a rule.
fn keeps(image: &ImageView<'_>, routine: usize, place: usize, op: Op, rule: OpRule) -> bool
    requires routine { IsRoutine image.now routine }
    requires op { op_at image.now routine place ≡ Some op }
    ensures kept { OnTrue result (Keeps rule image.now routine place op) }
    ensures broken { OnFalse result (Fails (fault_of rule (Code (record { 0 = routine }) place)) image.now) }
{
    match rule {
        OpRule::Operand => has_operand(image, op),
        OpRule::Target => leads_on(op, place, code(image, routine).len()),
        OpRule::Callee => is_lower(op, routine),
    }
}

/// The fault of a broken rule.
fn broken(rule: OpRule, at: At) -> VerifyFault
    ensures { result ≡ fault_of rule at }
{
    match rule {
        OpRule::Operand => VerifyFault::NoEntry(at),
        OpRule::Target => VerifyFault::JumpTarget(at),
        OpRule::Callee => VerifyFault::CallNotLower(at),
    }
}

/// Whether an operand is an index of its table.
fn has_operand(image: &ImageView<'_>, op: Op) -> bool
    ensures { IsTrue result ↔ HasOperand image.now op }
{
    match op {
        Op::Link(iface, _) => usize::from(iface.0) < image.interfaces(),
        Op::Test(test) | Op::Known(test) => usize::from(test.0) < image.tests(),
        Op::PushCommand(command) => usize::from(command.0) < image.commands(),
        Op::PushState(state) => usize::from(state.0) < image.states(),
        Op::Call(callee) => usize::from(callee.0) < image.routines(),
        _ => true,
    }
}

/// Whether the target of a jump is a later place, below the number of instructions.
fn leads_on(op: Op, place: usize, length: usize) -> bool
    ensures { IsTrue result ↔ ((target : ℕ) → target_of op ≡ Some target → (place < target) × (target < length)) }
{
    match target(op) {
        Some(target) => place < target && target < length,
        None => true,
    }
}

/// Whether the callee of a call has a lower number.
fn is_lower(op: Op, routine: usize) -> bool
    ensures { IsTrue result ↔ ((callee : RoutineId) → op ≡ Call callee → callee.0 < routine) }
{
    match op {
        Op::Call(callee) => usize::from(callee.0) < routine,
        _ => true,
    }
}

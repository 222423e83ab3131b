//! Places of an image: their instructions, their successors, and their names in faults.

ghost use Rattle.std.specs.Prelude.{◌≡◌, ◌<◌, ◌≤◌, ◌+◌, ◌^◌, length, slice_get};
ghost use Rattle.ifs_image.specs.Code.{code_of, target_of};
ghost use Rattle.ifs_image.specs.declared.parts.StateSpec.{StateSpec};
ghost use Rattle.ifs_verify.specs.declared.fault.At.TheVariants.{State, Code};
ghost use Rattle.ifs_verify.specs.Rules.{IsRoutine};
ghost use Rattle.ifs_verify.specs.inner.Passes.{IsSized, RoutinesAreShorter, next_of};

use crate::fault::At;
use ifs_base::{Op, RoutineId, StateId};
use ifs_image::{Handlers, ImageView, LentCode};

/// The instructions of a routine.
pub fn code<'a>(image: &ImageView<'a>, routine: usize) -> LentCode<'a>
    requires { IsRoutine image.now routine }
    ensures { result ≡ code_of image.now routine }
{
    image.code(routine)
}

/// The number of places of the longest routine, and one more.
pub fn room(image: &ImageView<'_>) -> usize
    requires { IsSized image.now }
    ensures { RoutinesAreShorter image.now result }
{
    let mut longest = 0;
    for routine in 0..image.routines() {
        longest = longest.max(code(image, routine).len());
    }
    longest + 1
}

/// The instruction at a place.
pub fn op_at(code: &LentCode<'_>, place: usize) -> Op
    requires { place < length code.now }
    ensures { slice_get code.now place ≡ Some result }
{
    code.op(place)
}

/// The handlers of a state.
pub fn handlers_of(image: &ImageView<'_>, state: usize) -> Handlers
    requires { state < length image.now.states }
    ensures { (found : StateSpec) × (slice_get image.now.states state ≡ Some found) × (found.handlers ≡ result) }
{
    image.state_handlers(state)
}

/// The name of a place of a routine in a fault.
pub fn at(routine: usize, place: usize) -> At
    requires routine { routine < 2 ^ 16 }
    requires place { place < 2 ^ 16 }
    ensures { result ≡ Code (record { 0 = routine }) place }
{
    At::Code(RoutineId(routine as u16), place as u16)
}

/// The name of a state in a fault.
pub fn at_state(state: usize) -> At
    requires { state < 2 ^ 16 }
    ensures { result ≡ State (record { 0 = state }) }
{
    At::State(StateId(state as u16))
}

/// The target of a jump.
pub fn target(op: Op) -> Option<usize>
    ensures { result ≡ target_of op }
{
    match op {
        Op::Jump(target) | Op::JumpFalse(target) | Op::JumpTrue(target) => Some(usize::from(
            target,
        )),
        _ => None,
    }
}

/// The next place, if control may go on there.
pub fn next(op: Op, place: usize) -> Option<usize>
    requires { place < 2 ^ 16 }
    ensures { result ≡ next_of op place }
{
    match op {
        Op::Ret | Op::Jump(_) => None,
        _ => Some(place + 1),
    }
}

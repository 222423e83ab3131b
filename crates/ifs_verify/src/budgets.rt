//! The stated budgets, compared with the bounds of the handlers.

ghost use Rattle.std.specs.Prelude.{ℕ, ◌≡◌, ◌+◌, ◌<◌, ◌≤◌, ◌↔◌, Some, IsTrue};
ghost use Rattle.std.specs.Prelude.{OnOk, IfErr, length, slice_get, slice_index};
ghost use Rattle.ifs_image.specs.declared.parts.StateSpec.{StateSpec};
ghost use Rattle.ifs_verify.specs.Bounds.{FitsEvents, FitsHandlers};
ghost use Rattle.std.specs.Bool.{OnTrue, OnFalse};
ghost use Rattle.ifs_verify.specs.declared.fault.At.TheVariants.{Head};
ghost use Rattle.ifs_verify.specs.Rules.{IsRoutine, AreRoutines, IndexesFit};
ghost use Rattle.ifs_verify.specs.Refused.{StackIsOver, FramesAreOver};
ghost use Rattle.ifs_verify.specs.inner.Passes.{PlainRulesHold, IsImageRefused};
ghost use Rattle.ifs_verify.specs.inner.Passes.{LeastHeights, LeastDepths, LeastAmounts};
ghost use Rattle.ifs_verify.specs.inner.Passes.{AmountIsOver, Reaches, handler_in, weight_of, limit_of, stated_of};
ghost use Rattle.ifs_verify.specs.inner.Found.{AreFound};

use crate::amounts::Weight;
use crate::bounds::Bounds;
use crate::fault::{At, VerifyFault};
use crate::places::handlers_of;
use crate::tables::{entry, greater};
use ifs_base::RoutineId;
use ifs_image::{Handlers, ImageView};

/// The role of a handler of a part.
#[derive(Clone, Copy)]
pub enum Role {
    /// Runs when the part is entered.
    Init,
    /// Runs at each evaluation.
    Body,
}

/// V10 to V13 at the head.
pub fn check_budgets(
    image: &ImageView<'_>,
    heights: &Vec<u32>,
    bounds: &Bounds,
) -> Result<(), VerifyFault>
    requires plain { PlainRulesHold image.now }
    requires heights { LeastHeights image.now heights.now.items (length image.now.routines) }
    requires found { AreFound image.now heights.now.items bounds.now (length image.now.routines) }
    ensures stack { OnOk result (FitsHandlers image.now (slice_index heights.now.items) image.now.budgets.stack) }
    ensures frames { OnOk result (FitsHandlers image.now (slice_index bounds.now.depths.items) image.now.budgets.frames) }
    ensures cost { OnOk result (FitsEvents image.now (slice_index bounds.now.costs.items) image.now.budgets.cost) }
    ensures commands { OnOk result (FitsEvents image.now (slice_index bounds.now.commands.items) image.now.budgets.commands) }
    ensures refused { IfErr result (IsImageRefused image.now) }
{
    if !stack_fits(image, heights) {
        return Err(VerifyFault::StackOver(At::Head));
    }
    if !frames_fit(image, &bounds.depths) {
        return Err(VerifyFault::FramesOver(At::Head));
    }
    if !amounts_fit(image, Weight::Cost, &bounds.costs) {
        return Err(VerifyFault::CostOver(At::Head));
    }
    if !amounts_fit(image, Weight::Commands, &bounds.commands) {
        return Err(VerifyFault::CommandsOver(At::Head));
    }
    Ok(())
}

/// V10: whether the heights of the handlers are within the stated stack.
fn stack_fits(image: &ImageView<'_>, heights: &Vec<u32>) -> bool
    requires plain { PlainRulesHold image.now }
    requires heights { LeastHeights image.now heights.now.items (length image.now.routines) }
    requires low { (routine : ℕ) → IsRoutine image.now routine → slice_index heights.now.items routine ≤ 32 }
    ensures fits { OnTrue result (FitsHandlers image.now (slice_index heights.now.items) image.now.budgets.stack) }
    ensures over { OnFalse result (StackIsOver image.now Head) }
{
    fit_handlers(image, heights, image.budgets().stack)
}

/// V11: whether the frames of the handlers are within the stated frames.
fn frames_fit(image: &ImageView<'_>, depths: &Vec<u32>) -> bool
    requires plain { PlainRulesHold image.now }
    requires depths { LeastDepths image.now depths.now.items (length image.now.routines) }
    ensures fits { OnTrue result (FitsHandlers image.now (slice_index depths.now.items) image.now.budgets.frames) }
    ensures over { OnFalse result (FramesAreOver image.now Head) }
{
    fit_handlers(image, depths, image.budgets().frames)
}

/// V12 or V13: whether the amounts of each event are within the stated cost or commands.
fn amounts_fit(image: &ImageView<'_>, weight: Weight, amounts: &Vec<u32>) -> bool
    requires plain { PlainRulesHold image.now }
    requires amounts { LeastAmounts (weight_of weight) image.now (limit_of weight) amounts.now.items (length image.now.routines) }
    ensures fits { OnTrue result (FitsEvents image.now (slice_index amounts.now.items) (stated_of weight image.now)) }
    ensures over { OnFalse result (AmountIsOver weight image.now Head) }
{
    fit_events(image, amounts, stated(image, weight))
}

/// The stated amount of one event.
fn stated(image: &ImageView<'_>, weight: Weight) -> u32
    ensures { result ≡ stated_of weight image.now }
{
    match weight {
        Weight::Cost => image.budgets().cost,
        Weight::Commands => u32::from(image.budgets().commands),
    }
}

/// Whether the bound of each handler is within the stated one.
fn fit_handlers(image: &ImageView<'_>, reach: &Vec<u32>, stated: u16) -> bool
    requires indexes { IndexesFit image.now }
    requires long { length reach.now.items ≡ length image.now.routines }
    ensures { IsTrue result ↔ FitsHandlers image.now (slice_index reach.now.items) stated }
{
    fit_part(reach, image.always(), stated) && fit_states(image, reach, stated)
}

/// Whether the bounds of the handlers of each state are within the stated one.
fn fit_states(image: &ImageView<'_>, reach: &Vec<u32>, stated: u16) -> bool
    requires indexes { IndexesFit image.now }
    requires long { length reach.now.items ≡ length image.now.routines }
    ensures { IsTrue result ↔ ((k : ℕ) (state : StateSpec) → slice_get image.now.states k ≡ Some state → (slice_index reach.now.items state.handlers.init.0 ≤ stated) × (slice_index reach.now.items state.handlers.body.0 ≤ stated)) }
{
    for state in 0..image.states() {
        if !fit_part(reach, handlers_of(image, state), stated) {
            return false;
        }
    }
    true
}

/// Whether the bounds of both handlers of a part are within the stated one.
fn fit_part(reach: &Vec<u32>, handlers: Handlers, stated: u16) -> bool
    requires init { handlers.init.0 < length reach.now.items }
    requires body { handlers.body.0 < length reach.now.items }
    ensures { IsTrue result ↔ ((slice_index reach.now.items handlers.init.0 ≤ stated) × (slice_index reach.now.items handlers.body.0 ≤ stated)) }
{
    let stated = u32::from(stated);
    bound_of(reach, handlers.init) <= stated && bound_of(reach, handlers.body) <= stated
}

/// Whether the amounts of each event are within the stated one.
fn fit_events(image: &ImageView<'_>, amounts: &Vec<u32>, stated: u32) -> bool
    requires indexes { IndexesFit image.now }
    requires long { length amounts.now.items ≡ length image.now.routines }
    requires low { (k : ℕ) → slice_index amounts.now.items k ≤ 100000 }
    ensures { IsTrue result ↔ FitsEvents image.now (slice_index amounts.now.items) stated }
{
    let opening = opening(image, amounts);
    let bodies = greatest(image, amounts, Role::Body);
    let inits = greatest(image, amounts, Role::Init);
    let always = bound_of(amounts, image.always().body);
    opening <= stated && always + bodies + inits <= stated
}

/// The amount of the opening: of the always init and the initial state's init.
fn opening(image: &ImageView<'_>, amounts: &Vec<u32>) -> u32
    requires indexes { IndexesFit image.now }
    requires long { length amounts.now.items ≡ length image.now.routines }
    requires low { (k : ℕ) → slice_index amounts.now.items k ≤ 100000 }
    ensures value { (first : StateSpec) × (slice_get image.now.states image.now.initial.0 ≡ Some first) × (result ≡ slice_index amounts.now.items image.now.always.init.0 + slice_index amounts.now.items first.handlers.init.0) }
    ensures low { result ≤ 200000 }
{
    let first = handlers_of(image, usize::from(image.initial().0));
    bound_of(amounts, image.always().init) + bound_of(amounts, first.init)
}

/// The greatest amount of the handlers of a role, over all states.
fn greatest(image: &ImageView<'_>, amounts: &Vec<u32>, role: Role) -> u32
    requires indexes { IndexesFit image.now }
    requires long { length amounts.now.items ≡ length image.now.routines }
    requires low { (k : ℕ) → slice_index amounts.now.items k ≤ 100000 }
    ensures bound { Reaches role image.now (slice_index amounts.now.items) result }
    ensures least { (bound : ℕ) → Reaches role image.now (slice_index amounts.now.items) bound → result ≤ bound }
    ensures low { result ≤ 100000 }
{
    let mut most = 0;
    for state in 0..image.states() {
        let routine = handler(handlers_of(image, state), role);
        let here = bound_of(amounts, routine);
        most = greater(most, here);
    }
    most
}

/// The handler of a part with a role.
fn handler(handlers: Handlers, role: Role) -> RoutineId
    ensures { result ≡ handler_in role handlers }
{
    match role {
        Role::Init => handlers.init,
        Role::Body => handlers.body,
    }
}

/// The bound of a handler's routine.
fn bound_of(table: &Vec<u32>, routine: RoutineId) -> u32
    requires { routine.0 < length table.now.items }
    ensures { result ≡ slice_index table.now.items routine.0 }
{
    entry(table, usize::from(routine.0))
}

//! The bounds of each routine, within the limits.

ghost use Rattle.std.specs.Prelude.{◌≡◌, ◌+◌, ◌<◌, slice_index, [], length, OnOk, IfOk, IfErr};
ghost use Rattle.ifs_verify.specs.declared.fault.At.TheVariants.{Code};
ghost use Rattle.ifs_verify.specs.Rules.{IsRoutine};
ghost use Rattle.ifs_verify.specs.Refused.{StackIsOver};
ghost use Rattle.ifs_verify.specs.Bounds.{cost_of, commands_of};
ghost use Rattle.ifs_verify.specs.inner.Passes.{PlainRulesHold, IsImageRefused, LeastHeights};
ghost use Rattle.ifs_verify.specs.inner.Found.{AreFound, HaveRoom};

use crate::amounts::{AmountsByPlace, amounts_of};
use crate::depths::depth_of;
use crate::fault::VerifyFault;
use crate::places::at;
use crate::tables::entry;
use ifs_image::{ImageView, limits};
use std::alloc::Global;

/// Instructions that a run of one routine may execute.
pub const ROUTINE_COST: u32 = 100_000;

/// The most that each routine uses.
pub struct Bounds {
    /// Frames at one time.
    pub depths: Vec<u32>,
    /// Executed instructions.
    pub costs: Vec<u32>,
    /// Queued commands.
    pub commands: Vec<u32>,
}

impl Drop for Bounds {
    fn drop(self) {
        let Bounds {
            depths: _depths,
            costs: _costs,
            commands: _commands,
        } = self;
    }
}

/// V10 to V13 at each routine.
pub fn check_bounds(
    alloc: Global,
    image: &ImageView<'_>,
    heights: &Vec<u32>,
) -> Result<Bounds, VerifyFault>
    requires plain { PlainRulesHold image.now }
    requires heights { LeastHeights image.now heights.now.items (length image.now.routines) }
    ensures found { IfOk result (λ bounds. AreFound image.now heights.now.items bounds (length image.now.routines)) }
    ensures refused { IfErr result (IsImageRefused image.now) }
{
    let mut bounds = Bounds {
        depths: Vec::new(alloc),
        costs: Vec::new(alloc),
        commands: Vec::new(alloc),
    };
    let mut by_place = AmountsByPlace::new(alloc, image)?;
    for routine in 0..image.routines() {
        find_bounds(image, routine, heights, &mut by_place, &mut bounds)?;
    }
    Ok(bounds)
}

/// Adds the bounds of one routine to those of the lower ones.
fn find_bounds(
    image: &ImageView<'_>,
    routine: usize,
    heights: &Vec<u32>,
    by_place: &mut AmountsByPlace,
    bounds: &mut Bounds,
) -> Result<(), VerifyFault>
    requires plain { PlainRulesHold image.now }
    requires heights { LeastHeights image.now heights.now.items (length image.now.routines) }
    requires routine { IsRoutine image.now routine }
    requires lower { AreFound image.now heights.now.items bounds.old routine }
    requires room { HaveRoom image.now by_place.old }
    ensures room { HaveRoom image.now by_place.new }
    ensures found { OnOk result (AreFound image.now heights.now.items bounds.new (routine + 1)) }
    ensures refused { IfErr result (IsImageRefused image.now) }
{
    let height = height_found(image, routine, heights);
    if height > u32::from(limits::STACK) {
        return Err(VerifyFault::StackOver(at(routine, 0)));
    }
    let depth = depth_of(image, routine, bounds.depths.as_slice());
    if depth > u32::from(limits::FRAMES) {
        return Err(VerifyFault::FramesOver(at(routine, 0)));
    }
    let amounts = amounts_of(
        image,
        routine,
        bounds.costs.as_slice(),
        bounds.commands.as_slice(),
        by_place,
    );
    if amounts.cost > ROUTINE_COST {
        return Err(VerifyFault::CostOver(at(routine, 0)));
    }
    if amounts.commands > u32::from(limits::COMMANDS_OF_EVENT) {
        return Err(VerifyFault::CommandsOver(at(routine, 0)));
    }
    bounds.depths.push(depth)?;
    bounds.costs.push(amounts.cost)?;
    bounds.commands.push(amounts.commands)?;
    Ok(())
}

/// The height of a routine.
fn height_found(image: &ImageView<'_>, routine: usize, heights: &Vec<u32>) -> u32
    requires heights { LeastHeights image.now heights.now.items (length image.now.routines) }
    requires routine { IsRoutine image.now routine }
    ensures value { result ≡ slice_index heights.now.items routine }
    ensures over { 32 < result → StackIsOver image.now (Code (record { 0 = routine }) 0) }
{
    entry(heights, routine)
}

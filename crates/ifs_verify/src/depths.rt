//! Frames at one time in a run of a routine.

ghost use Rattle.std.specs.Prelude.{ℕ, ◌≡◌, ◌+◌, ◌<◌, ◌≤◌, length, slice_index};
ghost use Rattle.ifs_base.specs.declared.ids.RoutineId.{RoutineId};
ghost use Rattle.ifs_base.specs.declared.op.Op.TheVariants.{Call};
ghost use Rattle.ifs_verify.specs.declared.fault.At.TheVariants.{Code};
ghost use Rattle.ifs_verify.specs.Rules.{IsRoutine};
ghost use Rattle.ifs_verify.specs.Refused.{FramesAreOver};
ghost use Rattle.ifs_verify.specs.inner.Passes.{PlainRulesHold, HoldsDepth, LeastDepths};

use crate::places::{code, op_at};
use crate::tables::greater;
use ifs_base::Op;
use ifs_image::ImageView;

/// One frame, or one more than the greatest number of a callee.
pub fn depth_of(image: &ImageView<'_>, routine: usize, depths: &[u32]) -> u32
    requires plain { PlainRulesHold image.now }
    requires routine { IsRoutine image.now routine }
    requires lower { LeastDepths image.now depths.now routine }
    ensures holds { HoldsDepth image.now (slice_index depths.now) routine result }
    ensures least { (bound : ℕ) → HoldsDepth image.now (slice_index depths.now) routine bound → result ≤ bound }
    ensures over { 32 < result → FramesAreOver image.now (Code (record { 0 = routine }) 0) }
{
    let code = code(image, routine);
    let mut depth = 1;
    for place in 0..code.len() {
        depth = deepened(depth, op_at(&code, place), depths);
    }
    depth
}

/// The greater of a number of frames and the number that an instruction needs.
fn deepened(depth: u32, op: Op, depths: &[u32]) -> u32
    requires callee { (callee : RoutineId) → op ≡ Call callee → callee.0 < length depths.now }
    requires low { (k : ℕ) → slice_index depths.now k ≤ 32 }
    ensures more { depth ≤ result }
    ensures call { (callee : RoutineId) → op ≡ Call callee → slice_index depths.now callee.0 + 1 ≤ result }
    ensures least { (bound : ℕ) → depth ≤ bound → ((callee : RoutineId) → op ≡ Call callee → slice_index depths.now callee.0 + 1 ≤ bound) → result ≤ bound }
{
    match op {
        Op::Call(callee) => greater(depth, depths[usize::from(callee.0)] + 1),
        _ => depth,
    }
}

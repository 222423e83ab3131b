//! The height of the stack in a routine.

ghost use Rattle.std.specs.Prelude.{ℕ, ◌≡◌, ◌≤◌, ◌<◌, ◌+◌, ◌-◌, length, slice_index, IfOk, OnOk, IfErr};
ghost use Rattle.ifs_base.specs.declared.ids.RoutineId.{RoutineId};
ghost use Rattle.ifs_base.specs.declared.op.Op.TheVariants.{Call};
ghost use Rattle.ifs_image.specs.Code.{code_of, params_of};
ghost use Rattle.ifs_verify.specs.Rules.{IsRoutine};
ghost use Rattle.ifs_verify.specs.inner.Passes.{PlainRulesHold, IsImageRefused, IsTypable};
ghost use Rattle.ifs_verify.specs.inner.Passes.{AllHold, IsHighEnough, AreLow, AreClear};

use crate::effects::put_params;
use crate::fault::VerifyFault;
use crate::places::{code, op_at};
use crate::stack::Stack;
use crate::tables::greater;
use crate::typing::{Here, pass};
use ifs_base::Op;
use ifs_image::ImageView;

/// The height of a routine, if it has a typing: V6, V7, V9, and V10 at an instruction. The height is the greatest
/// length of a list before or after an instruction. At a call it also counts the callee's height above what the
/// parameters leave.
///
/// `brought` is room for lists. It has no list before, and none after an `Ok`.
pub fn height_of(
    image: &ImageView<'_>,
    routine: usize,
    heights: &[u32],
    brought: &mut Vec<Option<Stack>>,
) -> Result<u32, VerifyFault>
    requires plain { PlainRulesHold image.now }
    requires routine { IsRoutine image.now routine }
    requires long { length heights.now ≡ routine }
    requires low { AreLow heights.now }
    requires clear { AreClear image.now brought.old.items }
    ensures clear { OnOk result (AreClear image.now brought.new.items) }
    ensures typed { IfOk result (λ height. IsTypable image.now routine) }
    ensures holds { IfOk result (λ height. AllHold image.now routine (slice_index heights.now) (length (code_of image.now routine)) height) }
    ensures least { IfOk result (λ height. (bound : ℕ) → AllHold image.now routine (slice_index heights.now) (length (code_of image.now routine)) bound → height ≤ bound) }
    ensures refused { IfErr result (IsImageRefused image.now) }
{
    let mut kinds = Stack::new();
    put_params(image, routine, &mut kinds);
    let mut height = 0;
    let code = code(image, routine);
    for place in 0..code.len() {
        let here = Here {
            image,
            routine,
            place,
            op: op_at(&code, place),
        };
        let needed = pass(&here, heights, &mut kinds, brought)?;
        height = greater(height, needed);
    }
    Ok(height)
}

/// The height that an instruction needs, from the number of kinds before and after it.
pub fn height_at(image: &ImageView<'_>, op: Op, before: usize, after: usize, heights: &[u32]) -> u32
    requires callee { (callee : RoutineId) → op ≡ Call callee → callee.0 < length heights.now }
    requires routines { length heights.now ≤ length image.now.routines }
    requires before { before ≤ 32 }
    requires after { after ≤ 32 }
    requires low { (routine : ℕ) → slice_index heights.now routine ≤ 32800 }
    ensures holds { IsHighEnough image.now (slice_index heights.now) op before after result }
    ensures least { (bound : ℕ) → IsHighEnough image.now (slice_index heights.now) op before after bound → result ≤ bound }
{
    let called = match op {
        Op::Call(callee) => below(image, usize::from(callee.0), before)
            + heights[usize::from(callee.0)],
        _ => 0,
    };
    greater(greater(before as u32, after as u32), called)
}

/// How many of `kinds` kinds are below a routine's parameters.
fn below(image: &ImageView<'_>, routine: usize, kinds: usize) -> u32
    requires routine { IsRoutine image.now routine }
    requires kinds { kinds ≤ 32 }
    ensures { result ≡ kinds - length (params_of image.now routine) }
{
    kinds.saturating_sub(image.params(routine).len()) as u32
}

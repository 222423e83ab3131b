//! The effects of instructions on the stack.

ghost use Rattle.std.specs.Prelude.{◌≡◌, ◌≤◌, ◌↔◌, IsTrue, [], length, Some, None, MatchOption};
ghost use Rattle.ifs_base.specs.declared.op.Op.TheVariants.{Ret};
ghost use Rattle.ifs_image.specs.Code.{effect, called, params_of, results_of};
ghost use Rattle.ifs_verify.specs.Rules.{IsRoutine, HasOperand};

use crate::stack::Stack;
use ifs_base::{Kind, Op};
use ifs_image::ImageView;

/// Applies an instruction to a list of kinds; `None` if an operand is missing or of the wrong kind. The list is
/// unspecified then.
pub fn apply(image: &ImageView<'_>, op: Op, stack: &mut Stack) -> Option<()>
    requires operand { HasOperand image.now op }
    requires within { length stack.old ≤ 32 }
    ensures { MatchOption result (effect image.now op stack.old ≡ None) (λ _. effect image.now op stack.old ≡ Some stack.new) }
{
    match op {
        Op::Ret | Op::Jump(_) => Some(()),
        Op::Yes | Op::No | Op::Link(_, _) | Op::Test(_) | Op::Known(_) => {
            stack.push(Kind::Truth);
            Some(())
        }
        Op::Negate => {
            stack.take(Kind::Truth)?;
            stack.push(Kind::Truth);
            Some(())
        }
        Op::Both | Op::Either => {
            stack.take(Kind::Truth)?;
            stack.take(Kind::Truth)?;
            stack.push(Kind::Truth);
            Some(())
        }
        Op::PushCommand(_) => {
            stack.push(Kind::Command);
            Some(())
        }
        Op::PushState(_) => {
            stack.push(Kind::StateName);
            Some(())
        }
        Op::Queue => stack.take(Kind::Command),
        Op::Want => stack.take(Kind::StateName),
        Op::JumpFalse(_) | Op::JumpTrue(_) => stack.take(Kind::Truth),
        Op::Call(callee) => call(image, usize::from(callee.0), stack),
        Op::Pop => {
            stack.pop()?;
            Some(())
        }
        Op::Dup => {
            let top = stack.pop()?;
            stack.push(top);
            stack.push(top);
            Some(())
        }
    }
}

/// Applies a call of a routine to a list of kinds: its results replace its parameters. `None` if a parameter is
/// missing or of another kind.
fn call(image: &ImageView<'_>, routine: usize, stack: &mut Stack) -> Option<()>
    requires routine { IsRoutine image.now routine }
    requires within { length stack.old ≤ 32 }
    ensures { MatchOption result (called image.now routine stack.old ≡ None) (λ _. called image.now routine stack.old ≡ Some stack.new) }
{
    let params = image.params(routine);
    if !params.is_empty() {
        stack.take_all(params)?;
    }
    stack.push_all(image.results(routine));
    Some(())
}

/// Whether a list is a routine's results, if the instruction is `ret`.
pub fn keeps_results(image: &ImageView<'_>, routine: usize, op: Op, stack: &Stack) -> bool
    requires { IsRoutine image.now routine }
    ensures { IsTrue result ↔ (op ≡ Ret → stack.now ≡ results_of image.now routine) }
{
    op != Op::Ret || are_results(image, routine, stack)
}

/// Whether a list is a routine's results.
fn are_results(image: &ImageView<'_>, routine: usize, stack: &Stack) -> bool
    requires { IsRoutine image.now routine }
    ensures { IsTrue result ↔ (stack.now ≡ results_of image.now routine) }
{
    stack.is_of(image.results(routine))
}

/// Puts a routine's parameters on the empty list.
pub fn put_params(image: &ImageView<'_>, routine: usize, stack: &mut Stack)
    requires routine { IsRoutine image.now routine }
    requires empty { stack.old ≡ [] }
    ensures value { stack.new ≡ params_of image.now routine }
    ensures few { length (params_of image.now routine) ≤ 4 }
{
    stack.push_all(image.params(routine));
}

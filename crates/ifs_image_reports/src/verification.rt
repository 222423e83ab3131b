//! Reports on images that are not accepted.

ghost use Rattle.std.specs.Prelude.{◌≡◌, ◌<◌, IfOk, length};
ghost use Rattle.ifs_verify.specs.FaultWords.{verify_fault_words};
ghost use Rattle.ifs_report.specs.Codes.{first_word};

use crate::causes::cause_of;
use crate::handlers::{put_routine, put_state};
use crate::image_bytes::{code_of as image_code, of_image};
use crate::instruction::{taken_by, target_of};
use crate::pieces::{Piece, put};
use crate::refusal::refusal;
use ifs_base::{Kind, Op, RoutineId};
use ifs_image::{Budgets, Handlers, ImageFault, ImageView, view};
use ifs_report::{Place, Report, Severity};
use ifs_verify::{At, VerifyFault};
use std::alloc::{AllocError, Global};

/// The report on an image that is not accepted. Its place is the file. The message begins with the record, as
/// `state 3 "backup", body routine 7, place 4: jump target 2 is not later`. V1 is reported by `of_image`. The only error
/// is a failed allocation.
pub fn of_verification(
    alloc: Global,
    image: &[u8],
    fault: VerifyFault,
) -> Result<Report, AllocError>
    ensures error { IfOk result (λ report. report.severity ≡ Severity.Error) }
    ensures code { IfOk result (λ report. report.code.now ≡ first_word (verify_fault_words fault)) }
    ensures place { IfOk result (λ report. report.place ≡ Place.File) }
{
    if let VerifyFault::NoImage(fault) = fault {
        return of_image(alloc, image, fault);
    }
    let message = message_of(alloc, image, fault)?;
    Ok(refusal(alloc, code_of(fault), message, rule_of(fault)))
}

/// The code of a fault.
fn code_of(fault: VerifyFault) -> &'static str
    ensures { result.now ≡ first_word (verify_fault_words fault) }
{
    match fault {
        VerifyFault::NoImage(fault) => image_code(fault),
        VerifyFault::NoEntry(_) => "V2",
        VerifyFault::JumpTarget(_) => "V3",
        VerifyFault::LeftAtEnd(_) => "V4",
        VerifyFault::Unreached(_) => "V5",
        VerifyFault::WrongOperand(_) => "V6",
        VerifyFault::WaysDisagree(_) => "V7",
        VerifyFault::CallNotLower(_) => "V8",
        VerifyFault::WrongResults(_) => "V9",
        VerifyFault::StackOver(_) => "V10",
        VerifyFault::FramesOver(_) => "V11",
        VerifyFault::CostOver(_) => "V12",
        VerifyFault::CommandsOver(_) => "V13",
        VerifyFault::HandlerLeaves(_) => "V14",
        VerifyFault::OutOfMemory => "V0",
    }
}

/// The rule that is broken.
fn rule_of(fault: VerifyFault) -> &'static str {
    let cause = cause_of(code_of(fault));
    match place_of(fault) {
        Some(At::Head) => cause.rule_of_head,
        _ => cause.rule,
    }
}

/// What is wrong, if nothing is known of the place.
fn general(fault: VerifyFault) -> &'static str {
    cause_of(code_of(fault)).general
}

/// The place of a fault.
fn place_of(fault: VerifyFault) -> Option<At> {
    match fault {
        VerifyFault::NoEntry(at)
        | VerifyFault::JumpTarget(at)
        | VerifyFault::LeftAtEnd(at)
        | VerifyFault::Unreached(at)
        | VerifyFault::WrongOperand(at)
        | VerifyFault::WaysDisagree(at)
        | VerifyFault::CallNotLower(at)
        | VerifyFault::WrongResults(at)
        | VerifyFault::StackOver(at)
        | VerifyFault::FramesOver(at)
        | VerifyFault::CostOver(at)
        | VerifyFault::CommandsOver(at)
        | VerifyFault::HandlerLeaves(at) => Some(at),
        VerifyFault::NoImage(_) | VerifyFault::OutOfMemory => None,
    }
}

fn message_of(alloc: Global, image: &[u8], fault: VerifyFault) -> Result<String, AllocError> {
    let Some(at) = place_of(fault) else {
        return String::from_str(alloc, general(fault));
    };
    match view(alloc, image) {
        Ok(image) => refused(alloc, &image, fault, at),
        Err(ImageFault::Memory) => Err(AllocError),
        Err(_) => String::from_str(alloc, general(fault)),
    }
}

/// The record of a place, and what is wrong with it.
fn refused(
    alloc: Global,
    image: &ImageView<'_>,
    fault: VerifyFault,
    at: At,
) -> Result<String, AllocError> {
    let mut message = String::new(alloc);
    put_refused(&mut message, image, fault, at)?;
    Ok(message)
}

/// Adds the record, and what is wrong with it.
fn put_refused(
    out: &mut String,
    image: &ImageView<'_>,
    fault: VerifyFault,
    at: At,
) -> Result<(), AllocError> {
    put_record(out, image, at)?;
    match at {
        At::Head => put_at_head(out, image, fault),
        At::State(state) => put_in_state(out, image, fault, usize::from(state.0)),
        At::Code(routine, place) => put_in_routine(out, image, fault, routine, place),
    }
}

/// Adds the head, a state or a routine.
fn put_record(out: &mut String, image: &ImageView<'_>, at: At) -> Result<(), AllocError> {
    match at {
        At::Head => out.push_str("head"),
        At::State(state) => put_state(out, image, usize::from(state.0)),
        At::Code(routine, _) => put_routine(out, image, routine),
    }
}

/// Adds what is wrong with the head.
fn put_at_head(
    out: &mut String,
    image: &ImageView<'_>,
    fault: VerifyFault,
) -> Result<(), AllocError> {
    match fault {
        VerifyFault::NoEntry(_) => put_no_entry_of_head(out, image),
        VerifyFault::HandlerLeaves(_) => put_kinds_of(out, image, ": always ", image.always()),
        _ => put_over(out, image.budgets(), fault),
    }
}

/// Adds which budget is not kept to.
fn put_over(out: &mut String, stated: Budgets, fault: VerifyFault) -> Result<(), AllocError> {
    let Budgets {
        stack,
        frames,
        cost,
        commands,
    } = stated;
    match fault {
        VerifyFault::StackOver(_) => {
            put_stated(out, "stack is ", u64::from(stack), "a handler has more")
        }
        VerifyFault::FramesOver(_) => {
            put_stated(out, "frames are ", u64::from(frames), "a handler has more")
        }
        VerifyFault::CostOver(_) => {
            put_stated(out, "cost is ", u64::from(cost), "an event costs more")
        }
        VerifyFault::CommandsOver(_) => {
            put_stated(
                out,
                "commands are ",
                u64::from(commands),
                "an event queues more",
            )
        }
        _ => put_general(out, fault),
    }
}

/// Adds a stated budget, and what takes more.
fn put_stated(
    out: &mut String,
    budget: &'static str,
    number: u64,
    more: &'static str,
) -> Result<(), AllocError> {
    put(
        out,
        &[
            Piece::Words(": the stated "),
            Piece::Words(budget),
            Piece::Number(number),
            Piece::Words(", and "),
            Piece::Words(more),
        ],
    )
}

/// Adds what is wrong with a record, where nothing else is known of it.
fn put_general(out: &mut String, fault: VerifyFault) -> Result<(), AllocError> {
    put(out, &[Piece::Words(": "), Piece::Words(general(fault))])
}

/// Adds what is wrong with a state.
fn put_in_state(
    out: &mut String,
    image: &ImageView<'_>,
    fault: VerifyFault,
    state: usize,
) -> Result<(), AllocError> {
    if state >= image.states() {
        return put_general(out, fault);
    }
    let handlers = image.state_handlers(state);
    match fault {
        VerifyFault::NoEntry(_) => put_no_entry(out, image, ": ", handlers),
        VerifyFault::HandlerLeaves(_) => put_kinds_of(out, image, ": ", handlers),
        _ => put_general(out, fault),
    }
}

/// Adds which index of the head is in no table.
fn put_no_entry_of_head(out: &mut String, image: &ImageView<'_>) -> Result<(), AllocError> {
    let initial = image.initial().0;
    if usize::from(initial) < image.states() {
        put_no_entry(out, image, ": always ", image.always())
    } else {
        put_index(
            out,
            ": ",
            "initial state ",
            initial,
            image.states(),
            "state",
        )
    }
}

/// Adds which index of handlers is in no table. `owner` comes before it.
fn put_no_entry(
    out: &mut String,
    image: &ImageView<'_>,
    owner: &'static str,
    handlers: Handlers,
) -> Result<(), AllocError> {
    let Handlers { init, body, mask } = handlers;
    let routines = image.routines();
    if usize::from(init.0) >= routines {
        put_index(out, owner, "init routine ", init.0, routines, "routine")
    } else if usize::from(body.0) >= routines {
        put_index(out, owner, "body routine ", body.0, routines, "routine")
    } else {
        let tests = image.tests();
        put_index(
            out,
            owner,
            "test ",
            first_test_from(mask, tests),
            tests,
            "test",
        )
    }
}

/// Adds an index, and the size of its table.
fn put_index(
    out: &mut String,
    owner: &'static str,
    what: &'static str,
    index: u16,
    size: usize,
    table: &'static str,
) -> Result<(), AllocError> {
    put(
        out,
        &[
            Piece::Words(owner),
            Piece::Words(what),
            Piece::Number(u64::from(index)),
            Piece::Words(", and "),
            Piece::There(size, table),
        ],
    )
}

/// The first test of a mask from a test on, or 64 if there is none.
fn first_test_from(mask: u64, first: usize) -> u16 {
    for test in 0..64u16 {
        if usize::from(test) >= first && mask >> test & 1 == 1 {
            return test;
        }
    }
    64
}

/// Adds which handler has parameters or results. `owner` comes before it.
fn put_kinds_of(
    out: &mut String,
    image: &ImageView<'_>,
    owner: &'static str,
    handlers: Handlers,
) -> Result<(), AllocError> {
    let Handlers { init, body, .. } = handlers;
    if has_kinds(image, init) {
        put_kinds(out, image, owner, "init routine ", init)
    } else {
        put_kinds(out, image, owner, "body routine ", body)
    }
}

/// Whether a routine has parameters or results.
fn has_kinds(image: &ImageView<'_>, routine: RoutineId) -> bool {
    let routine = usize::from(routine.0);
    routine < image.routines()
        && !(image.params(routine).is_empty() && image.results(routine).is_empty())
}

/// Adds the routine of a handler, and its parameters and results.
fn put_kinds(
    out: &mut String,
    image: &ImageView<'_>,
    owner: &'static str,
    role: &'static str,
    routine: RoutineId,
) -> Result<(), AllocError> {
    put_handler(out, owner, role, routine)?;
    let index = usize::from(routine.0);
    if index >= image.routines() {
        return Ok(());
    }
    put(
        out,
        &[
            Piece::Words(" has parameters "),
            Piece::Kinds(image.params(index)),
            Piece::Words(" and results "),
            Piece::Kinds(image.results(index)),
        ],
    )
}

fn put_handler(
    out: &mut String,
    owner: &'static str,
    role: &'static str,
    routine: RoutineId,
) -> Result<(), AllocError> {
    put(
        out,
        &[
            Piece::Words(owner),
            Piece::Words(role),
            Piece::Number(u64::from(routine.0)),
        ],
    )
}

/// Adds the place in a routine, and what is wrong there. Bounds are those of the whole routine.
fn put_in_routine(
    out: &mut String,
    image: &ImageView<'_>,
    fault: VerifyFault,
    routine: RoutineId,
    place: u16,
) -> Result<(), AllocError> {
    match fault {
        VerifyFault::FramesOver(_) | VerifyFault::CostOver(_) | VerifyFault::CommandsOver(_) => {
            put_whole(out, fault, ", callees counted")
        }
        VerifyFault::StackOver(_) if place == 0 => {
            put_whole(out, fault, ", those of callees counted")
        }
        _ => put_at_place(
            out,
            image,
            fault,
            usize::from(routine.0),
            usize::from(place),
        ),
    }
}

/// Adds what is wrong with a whole routine.
fn put_whole(
    out: &mut String,
    fault: VerifyFault,
    counted: &'static str,
) -> Result<(), AllocError> {
    put(
        out,
        &[
            Piece::Words(": "),
            Piece::Words(general(fault)),
            Piece::Words(counted),
        ],
    )
}

/// Adds a place of a routine, and what is wrong there.
fn put_at_place(
    out: &mut String,
    image: &ImageView<'_>,
    fault: VerifyFault,
    routine: usize,
    place: usize,
) -> Result<(), AllocError> {
    put(
        out,
        &[
            Piece::Words(", place "),
            Piece::Number(place as u64),
            Piece::Words(": "),
        ],
    )?;
    if routine >= image.routines() || place >= image.code_len(routine) {
        return out.push_str(general(fault));
    }
    put_op(out, image, fault, routine, image.op(routine, place), place)
}

/// Adds what is wrong with an instruction.
fn put_op(
    out: &mut String,
    image: &ImageView<'_>,
    fault: VerifyFault,
    routine: usize,
    op: Op,
    place: usize,
) -> Result<(), AllocError>
    requires { routine < length image.now.routines }
{
    match fault {
        VerifyFault::NoEntry(_) => put_operand(out, image, op),
        VerifyFault::JumpTarget(_) => put_target(out, op, place, image.code_len(routine)),
        VerifyFault::WrongOperand(_) => put_taken(out, image, op),
        VerifyFault::WaysDisagree(_) => put_ways(out, op, place),
        VerifyFault::WrongResults(_) => put_results(out, image.results(routine)),
        _ => put_words(out, fault, op, routine),
    }
}

/// Adds what is wrong with an instruction that is shown as it is.
fn put_words(
    out: &mut String,
    fault: VerifyFault,
    op: Op,
    routine: usize,
) -> Result<(), AllocError> {
    let op = Piece::Op(op);
    match fault {
        VerifyFault::LeftAtEnd(_) => put(out, &[Piece::Words("the last instruction is "), op]),
        VerifyFault::Unreached(_) => put(out, &[Piece::Words("no earlier place leads to "), op]),
        VerifyFault::CallNotLower(_) => put(
            out,
            &[
                op,
                Piece::Words(" calls no lower routine than "),
                Piece::Number(routine as u64),
            ],
        ),
        VerifyFault::StackOver(_) => put(out, &[op, Piece::Words(" leaves over 32 values")]),
        _ => out.push_str(general(fault)),
    }
}

/// Adds an instruction whose operand is in no table, and the size of that table.
fn put_operand(out: &mut String, image: &ImageView<'_>, op: Op) -> Result<(), AllocError> {
    let table = match op {
        Op::Link(_, _) => Piece::There(image.interfaces(), "interface"),
        Op::Test(_) | Op::Known(_) => Piece::There(image.tests(), "test"),
        Op::PushCommand(_) => Piece::There(image.commands(), "command"),
        Op::PushState(_) => Piece::There(image.states(), "state"),
        _ => Piece::There(image.routines(), "routine"),
    };
    put(out, &[Piece::Op(op), Piece::Words(", and "), table])
}

/// Adds why a target is no later place of a routine of this many instructions.
fn put_target(out: &mut String, op: Op, place: usize, count: usize) -> Result<(), AllocError> {
    match target_of(op) {
        Some(target) if usize::from(target) <= place => put(
            out,
            &[
                Piece::Words("jump target "),
                Piece::Number(u64::from(target)),
                Piece::Words(" is not later"),
            ],
        ),
        Some(target) => put(
            out,
            &[
                Piece::Words("jump target "),
                Piece::Number(u64::from(target)),
                Piece::Words(" is outside of the routine, which has "),
                Piece::Counted(count, "instruction"),
            ],
        ),
        None => put(out, &[Piece::Op(op), Piece::Words(" is no jump")]),
    }
}

/// Adds the operands that an instruction takes off the stack.
fn put_taken(out: &mut String, image: &ImageView<'_>, op: Op) -> Result<(), AllocError> {
    if let Op::Call(callee) = op {
        return put_parameters(out, image, op, usize::from(callee.0));
    }
    let taken = taken_by(op);
    if taken.is_empty() {
        return put(out, &[Piece::Op(op), Piece::Words(" takes nothing")]);
    }
    put(
        out,
        &[
            Piece::Op(op),
            Piece::Words(" does not find "),
            Piece::Words(taken),
            Piece::Words(" on the stack"),
        ],
    )
}

/// Adds the parameters that a call takes off the stack.
fn put_parameters(
    out: &mut String,
    image: &ImageView<'_>,
    op: Op,
    callee: usize,
) -> Result<(), AllocError> {
    let (blank, kinds) = if callee < image.routines() {
        (" ", Piece::Kinds(image.params(callee)))
    } else {
        ("", Piece::Words(""))
    };
    put(
        out,
        &[
            Piece::Op(op),
            Piece::Words(" does not find its parameters"),
            Piece::Words(blank),
            kinds,
            Piece::Words(" on the stack"),
        ],
    )
}

/// Adds the places that an instruction leads to.
fn put_ways(out: &mut String, op: Op, place: usize) -> Result<(), AllocError> {
    let next = place.saturating_add(1);
    match (op, target_of(op)) {
        (Op::Jump(_), Some(target)) => put_way(out, op, usize::from(target)),
        (_, Some(target)) if usize::from(target) != next => {
            put_two_ways(out, op, next, usize::from(target))
        }
        _ => put_way(out, op, next),
    }
}

fn put_way(out: &mut String, op: Op, place: usize) -> Result<(), AllocError> {
    put(
        out,
        &[
            Piece::Op(op),
            Piece::Words(" leads to place "),
            Piece::Number(place as u64),
            Piece::Words(", where another way leads with another stack"),
        ],
    )
}

fn put_two_ways(out: &mut String, op: Op, next: usize, target: usize) -> Result<(), AllocError> {
    put(
        out,
        &[
            Piece::Op(op),
            Piece::Words(" leads to places "),
            Piece::Number(next as u64),
            Piece::Words(" and "),
            Piece::Number(target as u64),
            Piece::Words(", where another way leads with another stack"),
        ],
    )
}

/// Adds that a stack is not the results of its routine.
fn put_results(out: &mut String, results: &[Kind]) -> Result<(), AllocError> {
    if results.is_empty() {
        return out.push_str("the stack at `ret` is not empty, and the routine has no results");
    }
    put(
        out,
        &[
            Piece::Words("the stack at `ret` is not the routine's results, "),
            Piece::Kinds(results),
        ],
    )
}

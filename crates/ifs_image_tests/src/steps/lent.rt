//! Callers that have only a borrowed core, or only bytes.

ghost use Rattle.std.specs.Prelude.{◌≡◌, All, IfOk};
ghost use Rattle.ifs_machine.specs.Run.{IsCommand};
ghost use Rattle.ifs_core.specs.Gateway.{IsListed};
ghost use Rattle.ifs_core.specs.Machine.{KeepsBudgets};
ghost use Rattle.ifs_core.specs.Steps.{cost_told, commands_told};
ghost use Rattle.ifs_core.specs.Headline.{IsVerified, IsKept};

use super::*;
use crate::checks::{holds, same};
use ifs_core::laws::headline;
use ifs_core::{Lists, OpenFault, Outcome};
use ifs_verify::{Verified, VerifyFault};

/// Makes a step. Its reply keeps to the budgets of the core's image.
fn reply(core: &mut Core<'_>, step: Step) -> Reply
    ensures image { core.new.image ≡ core.old.image }
    ensures budgets { KeepsBudgets core.old.image (commands_told result) (cost_told result) }
{
    core.step(step)
}

/// Makes steps, one after the other. Each reply keeps to the budgets.
fn replies(alloc: Global, core: &mut Core<'_>, steps: &[Step]) -> Result<Vec<Reply>, AllocError>
    ensures { IfOk result (λ replies. All (λ reply. KeepsBudgets core.old.image (commands_told reply) (cost_told reply)) replies.items) }
{
    let mut replies = Vec::new(alloc);
    for step in steps {
        replies.push(reply(core, *step))?;
    }
    Ok(replies)
}

/// Verifies bytes. The result is the image that they spell, and it keeps what the headline promises.
fn verified<'a>(alloc: Global, bytes: &'a [u8]) -> Result<Verified<'a>, VerifyFault>
    ensures verified { IfOk result (IsVerified bytes.now) }
    ensures kept { IfOk result IsKept }
{
    headline();
    let image = verify(alloc, bytes)?;
    Ok(image)
}

/// The name of a state of the image's list.
fn listed_name<'a>(core: &Core<'a>, state: StateId) -> &'a str
    requires { IsListed core.now.image state }
{
    let Some(name) = core.state_name(state) else {
        unreachable!()
    };
    name
}

/// The text of a command of the image's table.
fn known_text<'a>(core: &Core<'a>, command: CommandId) -> &'a str
    requires { IsCommand core.now.image command }
{
    let Some(text) = core.command_text(command) else {
        unreachable!()
    };
    text
}

/// What a step names: the state in its reply, or the command that it takes.
fn named<'a>(core: &mut Core<'a>, step: Step) -> Option<&'a str> {
    match core.step(step) {
        Reply::Done { state, .. } | Reply::Ticked { state, .. } => Some(listed_name(core, state)),
        Reply::Taken(command) => Some(known_text(core, command)),
        _ => None,
    }
}

/// The name of a core's current state.
fn current_name<'a>(core: &Core<'a>) -> &'a str {
    listed_name(core, core.state())
}

/// The names of the states in the trace, one after the other.
fn traced_names(alloc: Global, core: &Core<'_>) -> Result<String, AllocError> {
    let mut names = String::new(alloc);
    for index in 0..core.trace_len() {
        let Some(record) = core.trace_at(index) else {
            unreachable!()
        };
        names.push_str(listed_name(core, record.state))?;
    }
    Ok(names)
}

fn check_names(rt: &impl Abort, core: &mut Core<'_>) {
    same(rt, current_name(core), "a");
    same(rt, named(core, LINK_UP), Some("a"));
    same(rt, named(core, LINK_UP), None);
    same(rt, named(core, Step::Take), Some("echo m"));
}

fn check_traced(rt: &impl Abort, alloc: Global, core: &Core<'_>) -> Result<(), AllocError> {
    same(rt, traced_names(alloc, core)?.as_str(), "aaa");
    Ok(())
}

#[test]
fn names_of_a_lent_core(rt: HostRuntime) -> Result<(), Fail> {
    let image = bytes_in(&rt, rt.alloc(), images::FIRST_RUN);
    let mut core = opened(&rt, rt.alloc(), image.as_slice());
    check_names(&rt, &mut core);
    check_traced(&rt, rt.alloc(), &core)?;
    Ok(())
}

/// Asserts the outcomes of the first four requests of the row *First run*, with one place for all their lists.
fn check_lists(rt: &impl Abort, core: &mut Core<'_>, lists: &mut Lists) {
    let done = Outcome::Done {
        state: StateId(0),
        cost: 6,
    };
    same(rt, core.step_into(LINK_UP, lists), done);
    assert_eq!(rt; lists.effects.queued.as_slice(), [CommandId(0)].as_slice());
    same(rt, core.step_into(LINK_UP, lists), Outcome::Same);
    same(rt, core.take(), Some(CommandId(0)));
    same(rt, core.step_into(Step::Take, lists), Outcome::Empty);
    same(rt, core.trace_len(), 3);
}

#[test]
fn lent_lists(rt: HostRuntime) {
    let image = bytes_in(&rt, rt.alloc(), images::FIRST_RUN);
    let mut core = opened(&rt, rt.alloc(), image.as_slice());
    check_lists(&rt, &mut core, &mut Lists::new());
}

/// Asserts the replies to the first four requests of that row.
fn check_replies(rt: &impl Abort, alloc: Global, core: &mut Core<'_>) -> Result<(), AllocError> {
    let steps = [LINK_UP, LINK_UP, Step::Take, Step::Take];
    let replies = replies(alloc, core, steps.as_slice())?;
    holds(
        rt,
        matches!(
            replies.as_slice(),
            [
                Reply::Done { cost: 6, .. },
                Reply::Same,
                Reply::Taken(CommandId(0)),
                Reply::Empty
            ]
        ),
    );
    Ok(())
}

fn check_budgets(rt: &impl Abort, core: &Core<'_>) {
    let budgets = core.image().budgets();
    same(rt, budgets.cost, 7);
    same(rt, budgets.commands, 1);
}

/// The texts that a link's change and a `Take` name. They live as long as the image's bytes.
fn texts_of_a_core<'a>(rt: &impl Abort, alloc: Global, image: &'a [u8]) -> [Option<&'a str>; 2] {
    let mut core = opened(rt, alloc, image);
    [named(&mut core, LINK_UP), named(&mut core, Step::Take)]
}

#[test]
fn texts_outlive_their_core(rt: HostRuntime) {
    let image = bytes_in(&rt, rt.alloc(), images::FIRST_RUN);
    let texts = texts_of_a_core(&rt, rt.alloc(), image.as_slice());
    assert_eq!(rt; texts, [Some("a"), Some("echo m")]);
}

#[test]
fn lent_core(rt: HostRuntime) -> Result<(), Fail> {
    let image = bytes_in(&rt, rt.alloc(), images::FIRST_RUN);
    let mut core = opened(&rt, rt.alloc(), image.as_slice());
    check_replies(&rt, rt.alloc(), &mut core)?;
    check_budgets(&rt, &core);
    Ok(())
}

#[test]
fn fault_of_the_opening(rt: HostRuntime) -> Result<(), Fail> {
    let bytes = bytes_of(rt.alloc(), images::FIRST_RUN)?;
    match verified(rt.alloc(), bytes.as_slice()) {
        Err(fault) => panic!(rt; "not accepted: {fault}"),
        Ok(verified) => {
            let fault = OpenFault { verified };
            let told = format!(in rt.alloc(); "{fault}")?;
            same(&rt, told.as_str(), "V0");
        }
    }
    Ok(())
}

//! Policies of texts and their refusals, by the rules of names.

use crate::checks::{holds, same};
use crate::trees::parsed;
use ifs_base::{CommandId, IfaceId, LinkState, StateId, TestId, Text};
use ifs_parse::{Condition, Node, Statement};
use ifs_policy::{Counts, Policy, PolicyBlock, ResolveFault, Single, resolve};
use std::alloc::{AllocError, Global};
use std::process::Abort;
use std::test::Fail;

/// The policy of a text that has a tree, or its refusal.
fn resolved(
    alloc: Global,
    text: &str,
    defs: &[(&str, &str)],
) -> Result<Result<Policy, ResolveFault>, Fail> {
    let tree = parsed(alloc, text, defs)??;
    Ok(resolve(alloc, &tree))
}

/// What `say` returns for the policy of a text that has a tree, or for its refusal. Only this function drops that result, so the
/// drop is proved once.
fn said_of<T, F: FnOnce(&Result<Policy, ResolveFault>) -> T>(
    alloc: Global,
    text: &str,
    defs: &[(&str, &str)],
    say: F,
) -> Result<T, Fail>
    requires { F.IsAlwaysCallable say }
{
    let found = resolved(alloc, text, defs)?;
    Ok(say(&found))
}

/// The counts of a text that has a policy, or its refusal.
pub(crate) fn counted(
    alloc: Global,
    text: &str,
    defs: &[(&str, &str)],
) -> Result<Result<Counts, ResolveFault>, Fail> {
    said_of(alloc, text, defs, |found| match found {
        Ok(policy) => Ok(policy.counts()),
        Err(fault) => Err(*fault),
    })
}

/// The policy that a text is expected to have.
fn policy_in<'a>(rt: &impl Abort, found: &'a Result<Policy, ResolveFault>) -> &'a Policy {
    match found {
        Ok(policy) => policy,
        Err(fault) => panic!(rt; "refused {fault}"),
    }
}

fn shown(text: Option<&Text>) -> &str {
    match text {
        Some(text) => text.as_str(),
        None => "none",
    }
}

/// Puts the entries of each number, a line, and the test of that number, a line.
fn put_numbers(text: &mut String, policy: &Policy) -> Result<(), AllocError> {
    for index in 0..4 {
        let interface = shown(policy.interface(IfaceId(index)));
        let command = shown(policy.command(CommandId(index)));
        let state = shown(policy.state(StateId(index)));
        writeln!(text, "{interface} {command} {state}")?;
        match policy.test(TestId(index)) {
            Some(test) => writeln!(text, "{} {}", test.command.as_str(), test.period.seconds())?,
            None => text.push_str("none\n")?,
        }
    }
    write!(text, "initial {}", policy.initial().0)
}

fn check_numbers(rt: &impl Abort, alloc: Global, policy: &Policy) {
    let mut text = String::new(alloc);
    holds(rt, put_numbers(&mut text, policy).is_ok());
    let lines = "em1 y b\nt 7\nem0 x a\nu 7\nem2 z c\nt 8\nnone none none\nnone\ninitial 0";
    same(rt, text.as_str(), lines);
}

#[test]
fn numbers_by_first_use(rt: HostRuntime) -> Result<(), Fail> {
    let text =
        "state b { if em1.link.up && em0.link.down || em1.link.unknown run \"y\" set-state c }\n\
         if \"t\" every 007 && \"u\" every 7 && \"t\" every 8 || \"t\" every 7 run \"x\"\n\
         state a { run \"y\" if em2.link.up run \"z\" set-state b }\n\
         state c { }";
    said_of(rt.alloc(), text, &[], |found| {
        check_numbers(&rt, rt.alloc(), policy_in(&rt, found));
    })
}

fn check_interface(rt: &impl Abort, policy: &Policy) {
    same(rt, shown(policy.interface(IfaceId(0))), "em1");
    same(rt, policy.counts().interfaces, 1);
}

/// Row *outside definitions*: a definition beside the text comes before the text's own.
fn check_outside(rt: &impl Abort, alloc: Global, defs: &[(&str, &str)]) -> Result<(), Fail> {
    let text = "x = \"em0\" state a { if $x.link.up run \"r\" }";
    said_of(
        alloc,
        text,
        defs,
        |found| check_interface(rt, policy_in(rt, found)),
    )
}

#[test]
fn outside_definitions(rt: HostRuntime) -> Result<(), Fail> {
    check_outside(&rt, rt.alloc(), &[("x", "em1")])?;
    check_outside(&rt, rt.alloc(), &[("x", "em1"), ("x", "em2")])?;
    Ok(())
}

fn check_command(rt: &impl Abort, policy: &Policy) {
    same(rt, shown(policy.command(CommandId(0))), "echo ab");
}

#[test]
fn a_command_over_two_lines(rt: HostRuntime) -> Result<(), Fail> {
    let text = "state a { # note \\\nif em0.link.up run \"x\"\ninit run \"echo a\nb\" }";
    said_of(rt.alloc(), text, &[], |found| {
        check_command(&rt, policy_in(&rt, found));
    })
}

/// Puts the commands that a block runs.
fn put_runs(text: &mut String, block: &PolicyBlock) -> Result<(), AllocError> {
    for statement in block.statements() {
        match statement {
            Statement::Run(command) => write!(text, " {}", command.0)?,
            _ => text.push_str(" something else")?,
        }
    }
    text.push_str(";")
}

/// Puts the commands that the init and the body of each part run.
fn put_parts(text: &mut String, policy: &Policy) -> Result<(), AllocError> {
    put_runs(text, &policy.always().init)?;
    put_runs(text, &policy.always().body)?;
    for state in 0..3 {
        match policy.handlers(StateId(state)) {
            Some(handlers) => {
                put_runs(text, &handlers.init)?;
                put_runs(text, &handlers.body)?;
            }
            None => text.push_str(" none")?,
        }
    }
    write!(text, ", initial {}", policy.initial().0)
}

fn check_parts(rt: &impl Abort, alloc: Global, policy: &Policy) {
    let mut text = String::new(alloc);
    holds(rt, put_parts(&mut text, policy).is_ok());
    same(rt, text.as_str(), " 5; 0 6; 2 3; 1 4;;; none, initial 1");
}

#[test]
fn parts_in_text_order(rt: HostRuntime) -> Result<(), Fail> {
    let text = "run \"0\" state a { run \"1\" init { run \"2\" run \"3\" } run \"4\" }\n\
         init run \"5\" state b { } run \"6\" init-state b";
    said_of(rt.alloc(), text, &[], |found| {
        check_parts(&rt, rt.alloc(), policy_in(&rt, found));
    })
}

/// What a condition asks, as a test's row writes it.
fn write_single(line: &mut String, single: &Single) -> Result<(), AllocError> {
    match single {
        Single::LinkIs(interface, LinkState::Up) => write!(line, "up {}", interface.0),
        Single::LinkIs(interface, LinkState::Down) => write!(line, "down {}", interface.0),
        Single::LinkIs(interface, LinkState::Unknown) => write!(line, "unknown {}", interface.0),
        Single::TestIs(test) => write!(line, "test {}", test.0),
    }
}

/// A condition as a test's row writes it.
fn write_condition(line: &mut String, condition: &Condition<Single>) -> Result<(), AllocError> {
    match condition.node() {
        Node::Leaf(single) => write_single(line, single)?,
        Node::Not(operand) => {
            line.push_str("not ")?;
            write_condition(line, operand)?;
        }
        Node::All(first, second, rest) | Node::Any(first, second, rest) => {
            line.push_str(if matches!(condition.node(), Node::All(..)) {
                "all("
            } else {
                "any("
            })?;
            write_condition(line, first)?;
            line.push_str(", ")?;
            write_condition(line, second)?;
            for operand in rest {
                line.push_str(", ")?;
                write_condition(line, operand)?;
            }
            line.push_str(")")?;
        }
    }
    Ok(())
}

fn check_condition(rt: &impl Abort, alloc: Global, condition: &Condition<Single>, wanted: &str) {
    let mut line = String::new(alloc);
    write_condition(&mut line, condition).expect(rt, "no line");
    same(rt, line.as_str(), wanted);
}

fn check_block(rt: &impl Abort, block: &PolicyBlock) {
    match block.statements() {
        [Statement::SetState(state), Statement::Run(command)] => {
            same(rt, *state, StateId(1));
            same(rt, *command, CommandId(0));
        }
        _ => panic!(rt; "another block"),
    }
}

fn check_conditions(rt: &impl Abort, alloc: Global, policy: &Policy) {
    let [Statement::If(condition, block)] = policy.always().body.statements() else {
        panic!(rt; "another body")
    };
    let wanted = "all(up 0, not down 1, any(test 0, unknown 0))";
    check_condition(rt, alloc, condition, wanted);
    check_block(rt, block);
}

#[test]
fn conditions_by_places(rt: HostRuntime) -> Result<(), Fail> {
    let text =
        "if b.link.up && ! a.link.down && ( \"t\" every 5 || b.link.unknown ) { set-state y run \"r\" }\n\
         state x { } state y { }";
    said_of(rt.alloc(), text, &[], |found| {
        check_conditions(&rt, rt.alloc(), policy_in(&rt, found));
    })
}

//! Texts with their trees, notes and faults, by the rules of the grammar.

use crate::cases::check_cases;
use crate::checks::{holds, holds_in, same_in};
use ifs_base::LinkState;
use ifs_lex::{LexFault, tokens};
use ifs_parse::{
    Action, Actions, Condition, Item, Name, Node, ParseFault, Part, Statement, Test, Tree, Wish,
    parse,
};
use std::alloc::{AllocError, Global};
use std::process::Abort;
use std::test::Fail;

/// A leaf as a test's row writes it: `a.up`, or a command and its period as `a/5`.
fn show_test(out: &mut String, test: &Test) -> Result<(), AllocError> {
    match test {
        Test::Link(name, LinkState::Unknown) => write!(out, "{}.unknown", name.text.as_str()),
        Test::Link(name, LinkState::Down) => write!(out, "{}.down", name.text.as_str()),
        Test::Link(name, LinkState::Up) => write!(out, "{}.up", name.text.as_str()),
        Test::External(name, period) => {
            write!(out, "{}/{}", name.text.as_str(), period.seconds())
        }
    }
}

/// A condition with parentheses round each chain.
fn show_condition(out: &mut String, c: &Condition<Test>) -> Result<(), AllocError> {
    match c.node() {
        Node::Leaf(test) => show_test(out, test),
        Node::Not(inner) => {
            out.push_str("!")?;
            show_condition(out, inner)
        }
        Node::All(first, second, rest) | Node::Any(first, second, rest) => {
            let sign = sign_of(c);
            out.push_str("(")?;
            show_condition(out, first)?;
            out.push_str(sign)?;
            show_condition(out, second)?;
            for next in rest {
                out.push_str(sign)?;
                show_condition(out, next)?;
            }
            out.push_str(")")
        }
    }
}

/// The sign between the operands of a chain.
fn sign_of(chain: &Condition<Test>) -> &'static str {
    match chain.node() {
        Node::All(..) => " & ",
        _ => " | ",
    }
}

fn show_run(out: &mut String, command: &Name) -> Result<(), AllocError> {
    write!(out, "run {} ", command.text.as_str())
}

fn show_wish(out: &mut String, wish: &Wish) -> Result<(), AllocError> {
    let (at, name) = (wish.place.span.start, wish.state.text.as_str());
    write!(out, "set {name} at {at} ")
}

/// Puts what opens the block of an `if`.
fn show_if(out: &mut String, condition: &Condition<Test>) -> Result<(), AllocError> {
    out.push_str("if ")?;
    show_condition(out, condition)?;
    out.push_str(" { ")
}

fn show_block(out: &mut String, block: &Actions) -> Result<(), AllocError> {
    for action in block.statements() {
        match action {
            Statement::Run(command) => show_run(out, command)?,
            Statement::SetState(wish) => show_wish(out, wish)?,
            Statement::If(condition, inner) => {
                show_if(out, condition)?;
                show_block(out, inner)?;
                out.push_str("} ")?;
            }
        }
    }
    Ok(())
}

fn show_action(out: &mut String, action: &Action) -> Result<(), AllocError> {
    match action {
        Statement::Run(command) => show_run(out, command),
        Statement::SetState(wish) => show_wish(out, wish),
        Statement::If(condition, inner) => {
            show_if(out, condition)?;
            show_block(out, inner)?;
            out.push_str("} ")
        }
    }
}

fn show_part(out: &mut String, part: &Part) -> Result<(), AllocError> {
    match part {
        Part::Init(place, block) => {
            write!(out, "init at {} {{ ", place.span.start)?;
            show_block(out, block)?;
            out.push_str("} ")
        }
        Part::Do(action) => show_action(out, action),
    }
}

fn show_item(out: &mut String, item: &Item) -> Result<(), AllocError> {
    match item {
        Item::InitState(place, name) => {
            let (at, name) = (place.span.start, name.text.as_str());
            write!(out, "init-state {name} at {at} ")
        }
        Item::State(name, parts) => {
            let (at, name) = (name.place.span.start, name.text.as_str());
            write!(out, "state {name} at {at} {{ ")?;
            for part in parts.as_slice() {
                show_part(out, part)?;
            }
            out.push_str("} ")
        }
        Item::Always(part) => show_part(out, part),
    }
}

/// The tree of a text that has tokens, or its refusal.
pub(crate) fn parsed(
    alloc: Global,
    text: &str,
    definitions: &[(&str, &str)],
) -> Result<Result<Tree, ParseFault>, Fail> {
    let tokens = tokens(alloc, text, definitions)?;
    Ok(parse(alloc, tokens.as_slice()))
}

/// The items of a tree and then the lines of its notes.
fn show_tree(alloc: Global, tree: &Tree) -> Result<String, AllocError> {
    let mut out = String::new(alloc);
    for item in tree.items() {
        show_item(&mut out, item)?;
    }
    for line in tree.notes() {
        write!(out, "note {line} ")?;
    }
    Ok(out)
}

/// The tree of a text, or its fault.
fn told(alloc: Global, text: &str) -> Result<String, Fail> {
    match parsed(alloc, text, &[])? {
        Ok(tree) => Ok(show_tree(alloc, &tree)?),
        Err(fault) => Ok(format!(in alloc; "{fault}")?),
    }
}

const BINDING: &str = r#"
-- binding
state s { if a.link.up || b.link.up && c.link.up run "echo y" }
=> state s at 6 { if (a.up | (b.up & c.up)) { run echo y } } note 1
-- binding with parentheses
state s { if ( a.link.up || b.link.up ) && c.link.up run "echo y" }
=> state s at 6 { if ((a.up | b.up) & c.up) { run echo y } }
-- chain in parentheses
if a.link.up || (b.link.up && c.link.up) run x
=> if (a.up | (b.up & c.up)) { run x }
-- chains of three
if a.link.up && b.link.down && c.link.unknown run x
=> if (a.up & b.down & c.unknown) { run x }
-- alternatives of four
if a.link.up || b.link.up || c.link.up || d.link.up run x
=> if (a.up | b.up | c.up | d.up) { run x }
-- bang binds one
if ! a.link.up && ! ! "t" every 007 run x
=> if (!a.up & !!t/7) { run x }
-- two that have to hold
if em0.link.up && em1.link.up run x
=> if (em0.up & em1.up) { run x }
-- two of which one has to hold
if em0.link.up || em1.link.up run x
=> if (em0.up | em1.up) { run x }
-- a link that is neither up nor down
if em0.link.unknown run x
=> if em0.unknown { run x }
-- the first operand is a chain
if a.link.up && b.link.up || c.link.up run x
=> if ((a.up & b.up) | c.up) { run x } note 1
-- notes in the order of their first sign
if a.link.up && ( b.link.up
|| c.link.up && d.link.up )
|| e.link.up || ( f.link.up
|| g.link.up && h.link.up ) run x
=> if ((a.up & (b.up | (c.up & d.up))) | e.up | (f.up | (g.up & h.up))) { run x } note 2 note 3 note 4
-- a note before one within
if a.link.up && b.link.up
|| ( c.link.up
|| d.link.up && e.link.up ) run x
=> if ((a.up & b.up) | (c.up | (d.up & e.up))) { run x } note 2 note 3
"#;

const PLACES: &str = r#"
-- empty
=>
-- every item
init-state a state a { init run x if b.link.up set-state a } init { } run y
=> init-state a at 0 state a at 19 { init at 23 { run x } if b.up { set a at 47 } } init at 61 { } run y
-- one action in an init
state a { init run "x" }
=> state a at 6 { init at 10 { run x } }
-- two actions in an init
state a { init { run "x" run "y" } }
=> state a at 6 { init at 10 { run x run y } }
-- an initial state
init-state b state a { } state b { }
=> init-state b at 0 state a at 19 { } state b at 31 { }
-- a command of three words
run "ifconfig carp0 advskew 10"
=> run ifconfig carp0 advskew 10
-- two actions of an if
if em0.link.up { run "x" set-state b }
=> if em0.up { run x set b at 25 }
-- words read by place are names
state link { if up.link.up run down set-state unknown }
=> state link at 6 { if up.up { run down } set unknown at 36 }
-- a quoted reserved word is a name
run "if"
=> run if
-- a block of blocks
if a.link.up { if b.link.up if c.link.up { } run x }
=> if a.up { if b.up { if c.up { } } run x }
-- longest period
if t every 604800 run x if t every 1 run x
=> if t/604800 { run x } if t/1 { run x }
"#;

#[test]
fn conditions_bind_by_rule(rt: HostRuntime) -> Result<(), Fail> {
    check_cases(&rt, BINDING, |text| told(rt.alloc(), text))
}

#[test]
fn parts_stand_in_their_places(rt: HostRuntime) -> Result<(), Fail> {
    check_cases(&rt, PLACES, |text| told(rt.alloc(), text))
}

fn repeat(out: &mut String, part: &str, times: u32) -> Result<(), AllocError> {
    for _time in 0..times {
        out.push_str(part)?;
    }
    Ok(())
}

/// In which order `!` and `(` open.
#[derive(Clone, Copy, Debug)]
enum Order {
    BangsFirst,
    GroupsFirst,
    /// One of each in turn, while there are both.
    InTurn,
    /// The same, a `(` before each `!`.
    GroupsInTurn,
}

const ORDERS: [Order; 4] = [
    Order::BangsFirst,
    Order::GroupsFirst,
    Order::InTurn,
    Order::GroupsInTurn,
];

/// Puts two texts in turn, and then the rest of the one that has more.
fn in_turn(
    out: &mut String,
    one: &str,
    other: &str,
    times: u32,
    others: u32,
) -> Result<(), AllocError> {
    for time in 0..times.max(others) {
        if time < times {
            out.push_str(one)?;
        }
        if time < others {
            out.push_str(other)?;
        }
    }
    Ok(())
}

/// `bangs` times `!` and `groups` times `(` in an order, each on a line of its own.
fn openings(alloc: Global, order: Order, bangs: u32, groups: u32) -> Result<String, Fail> {
    let mut out = String::new(alloc);
    match order {
        Order::BangsFirst => {
            repeat(&mut out, "\n!", bangs)?;
            repeat(&mut out, "\n(", groups)?;
        }
        Order::GroupsFirst => {
            repeat(&mut out, "\n(", groups)?;
            repeat(&mut out, "\n!", bangs)?;
        }
        Order::InTurn => in_turn(&mut out, "\n!", "\n(", bangs, groups)?,
        Order::GroupsInTurn => in_turn(&mut out, "\n(", "\n!", groups, bangs)?,
    }
    Ok(out)
}

/// How many are open at once: all `if`s except the last, and the `!` and `(` in the last one's condition.
#[derive(Clone, Copy, Debug)]
struct Mixture {
    outer_ifs: u32,
    bangs: u32,
    groups: u32,
}

impl Mixture {
    /// A text with these open, each on a line of its own.
    fn text(&self, alloc: Global, order: Order) -> Result<String, Fail> {
        let mut out = String::new(alloc);
        repeat(&mut out, "if a.link.up\n", self.outer_ifs)?;
        out.push_str("if")?;
        out.push_str(openings(alloc, order, self.bangs, self.groups)?.as_str())?;
        out.push_str(" a.link.up ")?;
        repeat(&mut out, ") ", self.groups)?;
        out.push_str("run x")?;
        Ok(out)
    }

    /// The text of its tree. Parentheses leave nothing there.
    fn tree(&self, alloc: Global) -> Result<String, Fail> {
        let mut out = String::new(alloc);
        repeat(&mut out, "if a.up { ", self.outer_ifs)?;
        out.push_str("if ")?;
        repeat(&mut out, "!", self.bangs)?;
        out.push_str("a.up { run x } ")?;
        repeat(&mut out, "} ", self.outer_ifs)?;
        Ok(out)
    }
}

/// Asserts the tree of a mixture or its fault, in each order.
fn check_orders(
    rt: &impl Abort,
    alloc: Global,
    mixture: &Mixture,
    expected: &str,
) -> Result<(), Fail> {
    for order in ORDERS {
        let line = told(alloc, mixture.text(alloc, order)?.as_str())?;
        assert_eq!(rt; line.as_str(), expected, "{mixture:?} {order:?}");
    }
    Ok(())
}

/// Checks every mixture of `others` open `!` and `(`, within `outer_ifs` open `if`s.
fn check_conditions(
    rt: &impl Abort,
    alloc: Global,
    outer_ifs: u32,
    others: u32,
    is_good: bool,
) -> Result<(), Fail> {
    for bangs in 0..=others {
        let mixture = Mixture {
            outer_ifs,
            bangs,
            groups: others - bangs,
        };
        let expected = if is_good {
            mixture.tree(alloc)?
        } else {
            format!(in alloc; "P8 line 33")?
        };
        check_orders(rt, alloc, &mixture, expected.as_str())?;
    }
    Ok(())
}

/// Checks every mixture of `open` open at once. Each has its tree, or is refused at the line of the 33rd.
fn check_mixtures(rt: &impl Abort, alloc: Global, open: u32, is_good: bool) -> Result<(), Fail> {
    for outer_ifs in 0..open {
        check_conditions(rt, alloc, outer_ifs, open - 1 - outer_ifs, is_good)?;
    }
    Ok(())
}

#[test]
fn thirty_two_may_be_open_at_once(rt: HostRuntime) -> Result<(), Fail> {
    check_mixtures(&rt, rt.alloc(), 32, true)
}

#[test]
fn the_thirty_third_is_one_too_many(rt: HostRuntime) -> Result<(), Fail> {
    check_mixtures(&rt, rt.alloc(), 33, false)
}

/// The fault is at the first that is one too many, however many there are.
#[test]
fn more_are_told_at_the_thirty_third(rt: HostRuntime) -> Result<(), Fail> {
    check_mixtures(&rt, rt.alloc(), 40, false)
}

/// What opens and closes again.
const CLOSED: [&str; 4] = [
    "! ! a.link.up && ",
    "( ! a.link.up ) || ",
    "a.link.up { if a.link.up run x } if ",
    "a.link.up if a.link.up run x if ",
];

/// A condition after this text, which is repeated 40 times.
fn repeated(alloc: Global, part: &str) -> Result<String, Fail> {
    let mut text = String::new(alloc);
    text.push_str("if ")?;
    repeat(&mut text, part, 40)?;
    text.push_str("a.link.up run x")?;
    Ok(text)
}

/// A `!` is open to the end of its operand, a `(` to its `)` and an `if` to the end of its block.
#[test]
fn what_is_closed_is_open_no_more(rt: HostRuntime) -> Result<(), Fail> {
    for part in CLOSED {
        let text = repeated(rt.alloc(), part)?;
        let has_tree = parsed(rt.alloc(), text.as_str(), &[])?.is_ok();
        holds_in(&rt, part, has_tree);
    }
    Ok(())
}

/// As many tokens as a text may have are one tree.
#[test]
fn a_tree_of_16384_tokens(rt: HostRuntime) -> Result<(), Fail> {
    let mut text = String::new(rt.alloc());
    repeat(&mut text, "run x ", 8_192)?;
    let has_tree = parsed(rt.alloc(), text.as_str(), &[])?.is_ok();
    holds(&rt, has_tree);
    Ok(())
}

#[test]
fn want_of_memory_has_no_line(rt: HostRuntime) -> Result<(), Fail> {
    let of_lexer = format!(in rt.alloc(); "{}", LexFault::Memory)?;
    same_in(&rt, "lexer", of_lexer.as_str(), "P0");
    let of_parser = format!(in rt.alloc(); "{}", ParseFault::Memory)?;
    same_in(&rt, "parser", of_parser.as_str(), "P0");
    Ok(())
}

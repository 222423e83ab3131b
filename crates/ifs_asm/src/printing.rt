//! Image to text, line by line.

ghost use Rattle.std.specs.Prelude.{◌≡◌, ◌+◌, ◌++◌, ◌<◌, ◌≤◌, ◌^◌, ◌==◌, length, string_bytes, OnOk};
ghost use Rattle.std.specs.Prelude.{IfOk, [], ◌∷◌, decimal, map, codes, All, IsUtf8};
ghost use Rattle.std.specs.Int.{bit_at};
ghost use Rattle.std.specs.List.{flat_map};
ghost use Rattle.ifs_base.specs.Spelling.{HasSpelling};
ghost use Rattle.ifs_base.specs.Words.{link_word, listed, quoted};
ghost use Rattle.ifs_image.specs.Limits.{HandlersInRange, StateInRange, RoutineInRange, RoutineFits};
ghost use Rattle.ifs_asm.specs.declared.line.Line.TheVariants as lines;
ghost use Rattle.ifs_asm.specs.declared.line.Head.TheVariants.{Plain, Signature};
ghost use Rattle.ifs_base.specs.declared.op.Op.TheVariants.{Link};
ghost use Rattle.ifs_asm.specs.inner.Lists.{before_item, left_at, kinds_left};
ghost use Rattle.ifs_asm.specs.Spellings.{TextSpells};
ghost use Rattle.ifs_asm.specs.Texts.{canonical, line_text, tests_of, written, handlers_words};
ghost use Rattle.ifs_asm.specs.Texts.{op_words, spaced, routine_lines, front_lines, version_in, head_with, is_some_kind, truths};
ghost use Rattle.ifs_asm.specs.Texts.{version_word, kind_word, kinds_word};

use crate::line::Version;
use crate::quoting::put_quoted;
use crate::tables::{Table, put_each};
use ifs_base::{IfaceId, Kind, LinkState, Op, StateId, Text};
use ifs_image::{Handlers, Image, ImageParts, Routine, StateSpec, TestSpec};
use itoa::Buffer;
use std::alloc::{AllocError, Global};

/// Returns the canonical text of an image: a line for each part, one space between words, decimal numbers. It spells
/// the image.
pub fn disassemble(alloc: Global, image: &Image) -> Result<String, AllocError>
    ensures canonical { IfOk result (λ text. string_bytes text ≡ canonical image.now) }
    ensures spelled { IfOk result (λ text. TextSpells (string_bytes text) image.now) }
{
    let parts = image.parts();
    let mut out = String::new(alloc);
    put_front(&mut out, parts)?;
    put_each(&mut out, &Interfaces, parts.interfaces.as_slice())?;
    put_each(&mut out, &Tests, parts.tests.as_slice())?;
    put_each(&mut out, &Commands, parts.commands.as_slice())?;
    put_each(&mut out, &States, parts.states.as_slice())?;
    let version = Version::of(parts.version);
    put_each(&mut out, &Routines(version), parts.routines.as_slice())?;
    Ok(out)
}

/// Writes words and a number.
#[inline(always)]
fn put_number(out: &mut String, words: &str, number: u64) -> Result<(), AllocError>
    ensures { OnOk result (string_bytes out.new ≡ string_bytes out.old ++ words.now ++ decimal number) }
{
    out.push_str(words)?;
    put_decimal(out, number)
}

/// Writes a number. Most are a single digit.
#[inline(never)]
fn put_decimal(out: &mut String, number: u64) -> Result<(), AllocError>
    ensures { OnOk result (string_bytes out.new ≡ string_bytes out.old ++ decimal number) }
{
    if number < 10 {
        out.push(char::from(b'0' + number as u8))?;
    } else {
        out.push_str(Buffer::new().format(number))?;
    }
    Ok(())
}

/// Writes the lines before the tables.
fn put_front(out: &mut String, parts: &ImageParts) -> Result<(), AllocError>
    ensures bytes { OnOk result (string_bytes out.new ≡ string_bytes out.old ++ flat_map line_text (front_lines parts.now)) }
    ensures initial { OnOk result (parts.now.initial.0 < 2 ^ 16) }
    ensures always { OnOk result (HandlersInRange parts.now.always) }
{
    let budgets = parts.budgets;
    put_version(out, Version::of(parts.version))?;
    put_number_line(out, "stack", u64::from(budgets.stack))?;
    put_number_line(out, "frames", u64::from(budgets.frames))?;
    put_number_line(out, "cost", u64::from(budgets.cost))?;
    put_number_line(out, "commands", u64::from(budgets.commands))?;
    put_start(out, parts.initial)?;
    put_always(out, parts.always)?;
    Ok(())
}

/// Writes the line of the version.
fn put_version(out: &mut String, version: Version) -> Result<(), AllocError>
    ensures { OnOk result (string_bytes out.new ≡ string_bytes out.old ++ line_text (lines.Version version)) }
{
    match version {
        Version::One => out.push_str("ifsv 1\n"),
        Version::Two => out.push_str("ifsv 2\n"),
    }
}

/// Writes a line of a word and a number.
fn put_number_line(out: &mut String, word: &str, number: u64) -> Result<(), AllocError>
    ensures { OnOk result (string_bytes out.new ≡ string_bytes out.old ++ (spaced (word.now ∷ decimal number ∷ []) ++ codes "\n")) }
{
    out.push_str(word)?;
    put_number(out, " ", number)?;
    out.push_str("\n")?;
    Ok(())
}

/// Writes the line of the initial state.
fn put_start(out: &mut String, initial: StateId) -> Result<(), AllocError>
    ensures bytes { OnOk result (string_bytes out.new ≡ string_bytes out.old ++ line_text (lines.Start initial)) }
    ensures in_range { initial.0 < 2 ^ 16 }
{
    put_number_line(out, "start", u64::from(initial.0))?;
    Ok(())
}

/// Writes the line of the always part.
fn put_always(out: &mut String, handlers: Handlers) -> Result<(), AllocError>
    ensures bytes { OnOk result (string_bytes out.new ≡ string_bytes out.old ++ line_text (lines.Always handlers)) }
    ensures in_range { HandlersInRange handlers }
{
    out.push_str("always")?;
    put_handlers(out, handlers)?;
    Ok(())
}

/// Writes the words of handlers, each after a space, and the end of the line.
fn put_handlers(out: &mut String, handlers: Handlers) -> Result<(), AllocError>
    ensures bytes { OnOk result (string_bytes out.new ≡ string_bytes out.old ++ flat_map (λ word. codes " " ++ word) (map written (handlers_words handlers)) ++ codes "\n") }
    ensures in_range { HandlersInRange handlers }
{
    put_number(out, " init ", u64::from(handlers.init.0))?;
    put_number(out, " body ", u64::from(handlers.body.0))?;
    out.push_str(" tests ")?;
    put_list(out, handlers.mask)?;
    out.push_str("\n")?;
    Ok(())
}

/// Writes the tests of a mask in ascending order, with commas between them, or a dash if there is none.
fn put_list(out: &mut String, mask: u64) -> Result<(), AllocError>
    ensures { OnOk result (string_bytes out.new ≡ string_bytes out.old ++ listed (map decimal (tests_of mask))) }
{
    let mut is_first = true;
    for test in 0..64 {
        is_first = put_test_in(out, is_first, mask, test)?;
    }
    if is_first {
        out.push_str("-")?;
    }
    Ok(())
}

/// Writes a test if the mask has it. Returns whether the next item is still the first.
fn put_test_in(out: &mut String, is_first: bool, mask: u64, test: u8) -> Result<bool, AllocError>
    requires { test < 64 }
    ensures { IfOk result (λ next. string_bytes out.new ++ left_at next mask (test + 1) ≡ string_bytes out.old ++ left_at is_first mask test) }
{
    if !has_test(mask, test) {
        return Ok(is_first);
    }
    put_item(out, is_first, test)?;
    Ok(false)
}

/// Whether a mask has the bit of a test.
fn has_test(mask: u64, test: u8) -> bool
    requires { test < 64 }
    ensures { result ≡ (bit_at mask test == 1) }
{
    mask >> test & 1 == 1
}

/// Writes a number of a list, after a comma unless it is the first.
fn put_item(out: &mut String, is_first: bool, number: u8) -> Result<(), AllocError>
    ensures { OnOk result (string_bytes out.new ≡ string_bytes out.old ++ (before_item is_first ++ decimal number)) }
{
    put_comma(out, is_first)?;
    put_number(out, "", u64::from(number))
}

/// Writes a comma before an item of a list, unless the item is the first.
fn put_comma(out: &mut String, is_first: bool) -> Result<(), AllocError>
    ensures { OnOk result (string_bytes out.new ≡ string_bytes out.old ++ before_item is_first) }
{
    if !is_first {
        out.push_str(",")?;
    }
    Ok(())
}

/// The table of interfaces.
#[derive(Clone, Copy)]
struct Interfaces;

impl Table<Text> for Interfaces {
    ghost text = { λ _ name. line_text (lines.Interface name) };

    ghost InRange = { IsUtf8 };

    fn put(&self, out: &mut String, name: &Text) -> Result<(), AllocError> {
        put_named(out, "iface ", name)?;
        Ok(())
    }
}

/// Writes words, a quoted text, and the end of the line.
fn put_named(out: &mut String, words: &str, text: &Text) -> Result<(), AllocError>
    ensures bytes { OnOk result (string_bytes out.new ≡ string_bytes out.old ++ words.now ++ quoted text.now ++ codes "\n") }
    ensures in_range { OnOk result (IsUtf8 text.now) }
{
    out.push_str(words)?;
    put_quoted(out, text)?;
    out.push_str("\n")?;
    Ok(())
}

/// The table of commands.
#[derive(Clone, Copy)]
struct Commands;

impl Table<Text> for Commands {
    ghost text = { λ _ text. line_text (lines.Command text) };

    ghost InRange = { IsUtf8 };

    fn put(&self, out: &mut String, text: &Text) -> Result<(), AllocError> {
        put_named(out, "command ", text)?;
        Ok(())
    }
}

/// The table of tests.
#[derive(Clone, Copy)]
struct Tests;

impl Table<TestSpec> for Tests {
    ghost text = { λ _ test. line_text (lines.Test test) };

    ghost InRange = { λ test. IsUtf8 test.text };

    fn put(&self, out: &mut String, test: &TestSpec) -> Result<(), AllocError> {
        put_number(out, "test ", u64::from(test.period))?;
        put_named(out, " ", &test.text)?;
        Ok(())
    }
}

/// The table of states.
#[derive(Clone, Copy)]
struct States;

impl Table<StateSpec> for States {
    ghost text = { λ _ state. line_text (lines.State state) };

    ghost InRange = { StateInRange };

    fn put(&self, out: &mut String, state: &StateSpec) -> Result<(), AllocError> {
        out.push_str("state ")?;
        put_quoted(out, &state.name)?;
        put_handlers(out, state.handlers)?;
        Ok(())
    }
}

/// The table of routines of a version.
#[derive(Clone, Copy)]
struct Routines(Version);

impl Table<Routine> for Routines {
    ghost text = { λ table routine. flat_map line_text (routine_lines table.0 routine) };

    ghost InRange = { RoutineInRange };

    fn put(&self, out: &mut String, routine: &Routine) -> Result<(), AllocError> {
        put_routine(out, self.0, routine)
    }
}

fn put_routine(out: &mut String, version: Version, routine: &Routine) -> Result<(), AllocError>
    ensures bytes { OnOk result (string_bytes out.new ≡ string_bytes out.old ++ flat_map line_text (routine_lines version routine.now)) }
    ensures in_range { OnOk result (RoutineInRange routine.now) }
{
    put_head(
        out,
        version,
        routine.params.as_slice(),
        routine.results.as_slice(),
    )?;
    put_each(out, &Code, routine.code.as_slice())?;
    Ok(())
}

/// Writes the line that begins a routine.
fn put_head(
    out: &mut String,
    version: Version,
    params: &[Kind],
    results: &[Kind],
) -> Result<(), AllocError>
    ensures { OnOk result (string_bytes out.new ≡ string_bytes out.old ++ line_text (lines.Routine (head_with version params.now results.now))) }
{
    match version {
        Version::One => put_plain(out, has_kinds(results)),
        Version::Two => put_signature(out, params, results),
    }
}

/// Whether there is a kind.
fn has_kinds(kinds: &[Kind]) -> bool
    ensures { result ≡ is_some_kind kinds.now }
{
    match kinds {
        [] => false,
        _ => true,
    }
}

/// Writes the line that begins a routine in version 1.
fn put_plain(out: &mut String, truth: bool) -> Result<(), AllocError>
    ensures { OnOk result (string_bytes out.new ≡ string_bytes out.old ++ line_text (lines.Routine (Plain truth))) }
{
    put_number(out, "routine results ", truths(truth))?;
    out.push_str("\n")?;
    Ok(())
}

/// The number of truths that a routine of version 1 leaves.
fn truths(truth: bool) -> u64
    ensures { result ≡ truths truth }
{
    if truth { 1 } else { 0 }
}

/// Writes the line that begins a routine in version 2.
fn put_signature(out: &mut String, params: &[Kind], results: &[Kind]) -> Result<(), AllocError>
    ensures { OnOk result (string_bytes out.new ≡ string_bytes out.old ++ line_text (lines.Routine (Signature (record { items = params.now }) (record { items = results.now })))) }
{
    out.push_str("routine params ")?;
    put_kinds(out, params)?;
    out.push_str(" results ")?;
    put_kinds(out, results)?;
    out.push_str("\n")?;
    Ok(())
}

/// Writes kinds with commas between them, or a dash if there is none.
fn put_kinds(out: &mut String, kinds: &[Kind]) -> Result<(), AllocError>
    ensures { OnOk result (string_bytes out.new ≡ string_bytes out.old ++ kinds_word kinds.now) }
{
    let mut is_first = true;
    for kind in kinds {
        put_kind(out, is_first, *kind)?;
        is_first = false;
    }
    if is_first {
        out.push_str("-")?;
    }
    Ok(())
}

/// Writes a kind of a list, after a comma unless it is the first.
fn put_kind(out: &mut String, is_first: bool, kind: Kind) -> Result<(), AllocError>
    ensures { OnOk result (string_bytes out.new ≡ string_bytes out.old ++ (before_item is_first ++ kind_word kind)) }
{
    put_comma(out, is_first)?;
    out.push_str(kind_word(kind))?;
    Ok(())
}

/// The word of a kind.
fn kind_word(kind: Kind) -> &'static str
    ensures { result.now ≡ kind_word kind }
{
    match kind {
        Kind::Truth => "truth",
        Kind::Command => "command",
        Kind::StateName => "state",
    }
}

/// The instructions of a routine.
#[derive(Clone, Copy)]
struct Code;

impl Table<Op> for Code {
    ghost text = { λ _ op. line_text (lines.Instruction op) };

    ghost InRange = { HasSpelling };

    fn put(&self, out: &mut String, op: &Op) -> Result<(), AllocError> {
        put_op(out, *op)
    }
}

/// Writes the line of an instruction.
fn put_op(out: &mut String, op: Op) -> Result<(), AllocError>
    ensures bytes { OnOk result (string_bytes out.new ≡ string_bytes out.old ++ line_text (lines.Instruction op)) }
    ensures in_range { HasSpelling op }
{
    match op {
        Op::Ret => out.push_str("ret\n"),
        Op::Yes => out.push_str("true\n"),
        Op::No => out.push_str("false\n"),
        Op::Link(iface, state) => put_link(out, iface, state),
        Op::Test(test) => put_operand(out, "test ", test.0),
        Op::Known(test) => put_operand(out, "known ", test.0),
        Op::Negate => out.push_str("not\n"),
        Op::Both => out.push_str("and\n"),
        Op::Either => out.push_str("or\n"),
        Op::PushCommand(command) => put_operand(out, "cmd ", command.0),
        Op::PushState(state) => put_operand(out, "state ", state.0),
        Op::Queue => out.push_str("queue\n"),
        Op::Want => out.push_str("want\n"),
        Op::Jump(place) => put_operand(out, "jump ", place),
        Op::JumpFalse(place) => put_operand(out, "jf ", place),
        Op::JumpTrue(place) => put_operand(out, "jt ", place),
        Op::Call(routine) => put_operand(out, "call ", routine.0),
        Op::Pop => out.push_str("pop\n"),
        Op::Dup => out.push_str("dup\n"),
    }
}

/// Writes the line of an instruction: the words before its operand, and the operand.
fn put_operand(out: &mut String, words: &str, operand: u16) -> Result<(), AllocError>
    ensures { OnOk result (string_bytes out.new ≡ string_bytes out.old ++ (words.now ++ decimal operand ++ codes "\n")) }
{
    put_number(out, words, u64::from(operand))?;
    out.push('\n')
}

/// Writes the line of the instruction on a link.
fn put_link(out: &mut String, iface: IfaceId, state: LinkState) -> Result<(), AllocError>
    ensures { OnOk result (string_bytes out.new ≡ string_bytes out.old ++ line_text (lines.Instruction (Link iface state))) }
{
    put_number(out, "link ", u64::from(iface.0))?;
    out.push_str(link_ending(state))
}

/// A space, the word of a link state, and the end of the line.
fn link_ending(state: LinkState) -> &'static str
    ensures { result.now ≡ codes " " ++ link_word state ++ codes "\n" }
{
    match state {
        LinkState::Unknown => " unknown\n",
        LinkState::Down => " down\n",
        LinkState::Up => " up\n",
    }
}

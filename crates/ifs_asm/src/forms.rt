//! The forms of lines: their words, and whether their numbers and texts are in range.

ghost use Rattle.std.specs.Prelude.{◌≡◌, ◌≤◌, ◌&&◌, ℕ, IfOk, IfSome, codes, length, map, nat_lt, option_map};
ghost use Rattle.std.specs.Str.{bytes_eq};
ghost use Rattle.ifs_asm.specs.declared.line.Line.TheVariants as lines;
ghost use Rattle.ifs_asm.specs.inner.Forms.{plain_op, indexed_op, link_state_in, number_up_to, sized_text, period_in};
ghost use Rattle.ifs_asm.specs.inner.Forms.{version, indexed_line, number_line, two_words, routine_line, link_line};
ghost use Rattle.ifs_asm.specs.inner.Forms.{field_in, most_of, field_line, signed_line, signature_line};
ghost use Rattle.ifs_asm.specs.inner.Forms.{test_line, three_words, handlers_in, numbered_handlers, long_line};
ghost use Rattle.ifs_asm.specs.inner.Forms.{state_line, line_of, formed, bounded, sized_by, handlers_by};

use crate::kinds::{KindsForm, kinds_of};
use crate::line::{Head, Line, Version};
use crate::lists::{ListForm, list_of};
use crate::quoting::text_of;
use crate::words::{is, value_of};
use ifs_base::{
    CommandId, IfaceId, LinkState, Number, Op, RoutineId, StateId, TestId, Text, parse_number,
};
use ifs_image::{Handlers, StateSpec, TestSpec, limits};
use std::alloc::{AllocError, Global};

/// The greatest number of an entry, a routine or a place.
const INDEX: u32 = 65_535;

/// A line that fits a form.
#[derive(Drop)]
pub(crate) struct Formed {
    /// The line. A number out of its range is replaced by another one.
    pub line: Line,
    /// Whether all numbers and texts are in range.
    pub fits: bool,
}

/// A number.
#[derive(Clone, Copy)]
pub(crate) struct Bounded {
    /// Its value, or 0 if it is out of its range.
    value: u32,
    fits: bool,
}

/// A text.
#[derive(Drop)]
pub(crate) struct SizedText {
    text: Text,
    /// Whether it has from 1 to 1,024 bytes.
    fits: bool,
}

/// Handlers.
#[derive(Clone, Copy)]
pub(crate) struct HandlersForm {
    handlers: Handlers,
    fits: bool,
}

/// The line that words say, and `None` if they have no form.
pub(crate) fn form_of(alloc: Global, words: &[&[u8]]) -> Result<Option<Formed>, AllocError>
    ensures { IfOk result (λ form. formed form ≡ line_of (map (λ word. word.now) words.now)) }
{
    match words {
        [] => Ok(None),
        [name] => Ok(one_word(name)),
        [name, word] => two_words(alloc, name, word),
        [name, first, second] => three_words(alloc, name, first, second),
        _ => long_line(alloc, words[0], &words[1..]),
    }
}

/// An instruction without operand.
fn one_word(name: &[u8]) -> Option<Formed>
    ensures { formed result ≡ option_map lines.Instruction (plain_op name.now) }
{
    let line = Line::Instruction(plain_op(name)?);
    Some(Formed { line, fits: true })
}

fn plain_op(name: &[u8]) -> Option<Op>
    ensures { result ≡ plain_op name.now }
{
    value_of!(name;
        b"ret" => Op::Ret,
        b"true" => Op::Yes,
        b"false" => Op::No,
        b"not" => Op::Negate,
        b"and" => Op::Both,
        b"or" => Op::Either,
        b"queue" => Op::Queue,
        b"want" => Op::Want,
        b"pop" => Op::Pop,
        b"dup" => Op::Dup,
    )
}

/// An instruction with an operand.
fn indexed_op(name: &[u8], operand: u16) -> Option<Op>
    ensures { result ≡ indexed_op name.now operand }
{
    value_of!(name;
        b"test" => Op::Test(TestId(operand)),
        b"known" => Op::Known(TestId(operand)),
        b"cmd" => Op::PushCommand(CommandId(operand)),
        b"state" => Op::PushState(StateId(operand)),
        b"jump" => Op::Jump(operand),
        b"jf" => Op::JumpFalse(operand),
        b"jt" => Op::JumpTrue(operand),
        b"call" => Op::Call(RoutineId(operand)),
    )
}

/// Reads a number up to a limit. Returns `None` if the word is no number.
fn number_up_to(word: &[u8], most: u32) -> Option<Bounded>
    ensures value { bounded result ≡ number_up_to most word.now }
    ensures within { IfSome result (λ b. b.value ≤ most) }
{
    match parse_number(word)? {
        Number::Within(value) if value <= u64::from(most) => Some(Bounded {
            value: value as u32,
            fits: true,
        }),
        _ => Some(Bounded {
            value: 0,
            fits: false,
        }),
    }
}

/// Reads a period.
fn period_in(word: &[u8]) -> Option<Bounded>
    ensures { bounded result ≡ period_in word.now }
{
    let number = number_up_to(word, limits::PERIOD)?;
    Some(Bounded {
        value: number.value,
        fits: number.fits && limits::period_fits(number.value),
    })
}

/// Reads a quoted text.
fn sized_text(alloc: Global, word: &[u8]) -> Result<Option<SizedText>, AllocError>
    ensures { IfOk result (λ text. sized_by text ≡ sized_text word.now) }
{
    let Some(text) = text_of(alloc, word)? else {
        return Ok(None);
    };
    let fits = is_sized(&text);
    Ok(Some(SizedText { text, fits }))
}

/// Whether a text has from 1 to 1,024 bytes.
fn is_sized(text: &Text) -> bool
    ensures { result ≡ (nat_lt 0 (length text.now) && nat_lt (length text.now) 1025) }
{
    let length = text.as_bytes().len();
    0 < length && length <= usize::from(limits::TEXT)
}

fn version(word: &[u8]) -> Option<Formed>
    ensures { formed result ≡ version word.now }
{
    let version = if is(word, b"1") {
        Version::One
    } else if is(word, b"2") {
        Version::Two
    } else {
        return None;
    };
    let line = Line::Version(version);
    Some(Formed { line, fits: true })
}

/// An instruction with an operand.
fn indexed_line(name: &[u8], word: &[u8]) -> Option<Formed>
    ensures { formed result ≡ indexed_line name.now word.now }
{
    let number = number_up_to(word, INDEX)?;
    let line = Line::Instruction(indexed_op(name, number.value as u16)?);
    Some(Formed {
        line,
        fits: number.fits,
    })
}

/// A line of a name and a number.
fn number_line(name: &[u8], word: &[u8]) -> Option<Formed>
    ensures { formed result ≡ number_line name.now word.now }
{
    let Some(field) = Field::of(name) else {
        return indexed_line(name, word);
    };
    let number = number_up_to(word, field.most())?;
    Some(number.says(field.line(number.value)))
}

/// A number that a line before the tables states.
#[derive(Clone, Copy)]
pub(crate) enum Field {
    Stack,
    Frames,
    Cost,
    Commands,
    Start,
}

impl Field {
    /// The field that a name begins the line of.
    fn of(name: &[u8]) -> Option<Field>
        ensures { result ≡ field_in name.now }
    {
        value_of!(name;
            b"stack" => Field::Stack,
            b"frames" => Field::Frames,
            b"cost" => Field::Cost,
            b"commands" => Field::Commands,
            b"start" => Field::Start,
        )
    }

    /// Its greatest number.
    fn most(self) -> u32
        ensures { result ≡ most_of self }
    {
        match self {
            Field::Stack => u32::from(limits::STACK),
            Field::Frames => u32::from(limits::FRAMES),
            Field::Cost => limits::EVENT_COST,
            Field::Commands => u32::from(limits::COMMANDS_OF_EVENT),
            Field::Start => INDEX,
        }
    }

    /// Its line with a number in its range.
    fn line(self, number: u32) -> Line
        requires { number ≤ most_of self }
        ensures { result ≡ field_line self number }
    {
        match self {
            Field::Stack => Line::Stack(number as u16),
            Field::Frames => Line::Frames(number as u16),
            Field::Cost => Line::Cost(number),
            Field::Commands => Line::Commands(number as u16),
            Field::Start => Line::Start(StateId(number as u16)),
        }
    }
}

impl Bounded {
    /// A line with this number.
    fn says(self, line: Line) -> Formed
        ensures line { result.line ≡ line }
        ensures fits { result.fits ≡ self.fits }
    {
        Formed {
            line,
            fits: self.fits,
        }
    }
}

/// A line of a name and a word.
fn two_words(alloc: Global, name: &[u8], word: &[u8]) -> Result<Option<Formed>, AllocError>
    ensures { IfOk result (λ form. formed form ≡ two_words name.now word.now) }
{
    if is(name, b"ifsv") {
        Ok(version(word))
    } else if is(name, b"iface") {
        interface_line(alloc, word)
    } else if is(name, b"command") {
        command_line(alloc, word)
    } else {
        Ok(number_line(name, word))
    }
}

fn interface_line(alloc: Global, word: &[u8]) -> Result<Option<Formed>, AllocError>
    ensures { IfOk result (λ form. formed form ≡ option_map lines.Interface (sized_text word.now)) }
{
    let Some(SizedText { text, fits }) = sized_text(alloc, word)? else {
        return Ok(None);
    };
    let line = Line::Interface(text);
    Ok(Some(Formed { line, fits }))
}

fn command_line(alloc: Global, word: &[u8]) -> Result<Option<Formed>, AllocError>
    ensures { IfOk result (λ form. formed form ≡ option_map lines.Command (sized_text word.now)) }
{
    let Some(SizedText { text, fits }) = sized_text(alloc, word)? else {
        return Ok(None);
    };
    let line = Line::Command(text);
    Ok(Some(Formed { line, fits }))
}

/// A line of a name and two words.
fn three_words(
    alloc: Global,
    name: &[u8],
    first: &[u8],
    second: &[u8],
) -> Result<Option<Formed>, AllocError>
    ensures { IfOk result (λ form. formed form ≡ three_words name.now first.now second.now) }
{
    if is(name, b"routine") {
        Ok(routine_line(first, second))
    } else if is(name, b"link") {
        Ok(link_line(first, second))
    } else if is(name, b"test") {
        test_line(alloc, first, second)
    } else {
        Ok(None)
    }
}

/// The line that begins a routine in version 1.
fn routine_line(word: &[u8], results: &[u8]) -> Option<Formed>
    ensures { formed result ≡ routine_line word.now results.now }
{
    if !is(word, b"results") {
        return None;
    }
    let number = number_up_to(results, u32::from(limits::TRUTHS))?;
    Some(number.says(Line::Routine(Head::Plain(number.value == 1))))
}

/// A line of a name and more than two words.
fn long_line(alloc: Global, name: &[u8], words: &[&[u8]]) -> Result<Option<Formed>, AllocError>
    ensures { IfOk result (λ form. formed form ≡ long_line name.now (map (λ word. word.now) words.now)) }
{
    if is(name, b"routine") {
        Ok(signature_line(words))
    } else if is(name, b"always") {
        Ok(always_line(words))
    } else if is(name, b"state") {
        state_line(alloc, words)
    } else {
        Ok(None)
    }
}

/// The line that begins a routine in version 2, from the words after its name.
fn signature_line(words: &[&[u8]]) -> Option<Formed>
    ensures { formed result ≡ signature_line (map (λ word. word.now) words.now) }
{
    let [a, params, b, results] = words else {
        return None;
    };
    if !is(a, b"params") {
        return None;
    }
    if !is(b, b"results") {
        return None;
    }
    signed_line(params, results)
}

/// The same, given its two lists of kinds.
fn signed_line(params: &[u8], results: &[u8]) -> Option<Formed>
    ensures { formed result ≡ signed_line params.now results.now }
{
    let taken = kinds_of(params)?;
    let left = kinds_of(results)?;
    let fits = taken.fits && left.fits;
    let line = Line::Routine(Head::Signature {
        params: taken.kinds,
        results: left.kinds,
    });
    Some(Formed { line, fits })
}

/// The line of the instruction on a link.
fn link_line(number: &[u8], state: &[u8]) -> Option<Formed>
    ensures { formed result ≡ link_line number.now state.now }
{
    let number = number_up_to(number, INDEX)?;
    let op = Op::Link(IfaceId(number.value as u16), link_state(state)?);
    Some(number.says(Line::Instruction(op)))
}

fn link_state(word: &[u8]) -> Option<LinkState>
    ensures { result ≡ link_state_in word.now }
{
    value_of!(word;
        b"unknown" => LinkState::Unknown,
        b"down" => LinkState::Down,
        b"up" => LinkState::Up,
    )
}

/// The line of an external test.
fn test_line(alloc: Global, number: &[u8], text: &[u8]) -> Result<Option<Formed>, AllocError>
    ensures { IfOk result (λ form. formed form ≡ test_line number.now text.now) }
{
    let Some(period) = period_in(number) else {
        return Ok(None);
    };
    let Some(SizedText { text, fits }) = sized_text(alloc, text)? else {
        return Ok(None);
    };
    let line = Line::Test(TestSpec {
        period: period.value,
        text,
    });
    let fits = period.fits && fits;
    Ok(Some(Formed { line, fits }))
}

/// Reads handlers from their words. It is inlined, since the words of each line are copied if a call takes their address.
#[inline(always)]
fn handlers_in(words: &[&[u8]]) -> Option<HandlersForm>
    ensures { handlers_by result ≡ handlers_in (map (λ word. word.now) words.now) }
{
    let [a, init, b, body, c, tests] = words else {
        return None;
    };
    if are_keys(a, b, c) {
        handlers_of(init, body, tests)
    } else {
        None
    }
}

/// Whether these are the fixed words of handlers.
fn are_keys(a: &[u8], b: &[u8], c: &[u8]) -> bool
    ensures { result ≡ (bytes_eq a.now (codes "init") && (bytes_eq b.now (codes "body") && bytes_eq c.now (codes "tests"))) }
{
    is(a, b"init") && is(b, b"body") && is(c, b"tests")
}

/// Reads handlers from two numbers and a list.
fn handlers_of(init: &[u8], body: &[u8], tests: &[u8]) -> Option<HandlersForm>
    ensures { handlers_by result ≡ numbered_handlers init.now body.now tests.now }
{
    let init = number_up_to(init, INDEX)?;
    let body = number_up_to(body, INDEX)?;
    let (mask, ascend) = match list_of(tests)? {
        ListForm::Mask(mask) => (mask, true),
        ListForm::OutOfRange => (0, false),
    };
    Some(HandlersForm {
        handlers: Handlers {
            init: RoutineId(init.value as u16),
            body: RoutineId(body.value as u16),
            mask,
        },
        fits: init.fits && body.fits && ascend,
    })
}

/// The line of the always part, from the words after its name.
fn always_line(words: &[&[u8]]) -> Option<Formed>
    ensures { formed result ≡ option_map lines.Always (handlers_in (map (λ word. word.now) words.now)) }
{
    let HandlersForm { handlers, fits } = handlers_in(words)?;
    let line = Line::Always(handlers);
    Some(Formed { line, fits })
}

/// The line of a state, from the words after its name.
fn state_line(alloc: Global, words: &[&[u8]]) -> Result<Option<Formed>, AllocError>
    ensures { IfOk result (λ form. formed form ≡ state_line (map (λ word. word.now) words.now)) }
{
    let [text, others @ ..] = words else {
        return Ok(None);
    };
    let Some(form) = handlers_in(others) else {
        return Ok(None);
    };
    let Some(SizedText { text: name, fits }) = sized_text(alloc, text)? else {
        return Ok(None);
    };
    let line = Line::State(StateSpec {
        name,
        handlers: form.handlers,
    });
    let fits = fits && form.fits;
    Ok(Some(Formed { line, fits }))
}

//! Bytes to an image in place, field by field in the order of the format.

ghost use Rattle.std.specs.Prelude.{◌≡◌, ◌≢◌, ◌≤◌, length, [], Err, IfOk, IfErr};
ghost use Rattle.std.specs.Int.{w16};
ghost use Rattle.ifs_image.specs.declared.parts.ImageParts.{ImageParts};
ghost use Rattle.ifs_image.specs.declared.fault.ImageFault.TheVariants.{Memory};
ghost use Rattle.ifs_image.specs.Spelling.{Spells};
ghost use Rattle.ifs_image.specs.Faults.{IsFirstFault};
ghost use Rattle.ifs_image.specs.Reading.{magic_at, version_at, budgets_at, counts_at, handlers_at};
ghost use Rattle.ifs_image.specs.Reading.{name_at, test_at, state_at, text_at, instruction_at};
ghost use Rattle.ifs_image.specs.Reading.{kind_at, kinds_at, truths_at, params_at, results_at, routine_at, routine_after};
ghost use Rattle.ifs_image.specs.Reading.{items_at, parts_at, head_at, image_of, cursor};
ghost use Rattle.ifs_image.specs.Reading.{stands_in};
ghost use Rattle.ifs_image.specs.Limits.{names_of};
ghost use Rattle.std.specs.List.{list_any};
ghost use Rattle.std.specs.Str.{bytes_eq};
ghost use Rattle.ifs_image.specs.Answers.{Gives, GivesAtOnce, GivesAtOnceBy, Answers, RefusesHead};

use crate::fault::ImageFault;
use crate::fields::Reader;
use crate::image_view::ImageView;
use crate::lent::{LentCode, LentParts, LentRoutine, LentState, LentTest, LentText};
use crate::limits;
use crate::parts::{Budgets, Counts, Handlers, Head, Kinds};
use ifs_base::{Items, Kind, RoutineId, StateId};
use std::alloc::Global;

/// Sees the image that the bytes spell, all of them, in place: it borrows texts and instructions. An error keeps nothing.
///
/// I1 to I8 report the first fault, with the offset of the first byte of its field. I0 reports a failed allocation;
/// a fault of a field before the tables is reported even then.
#[tactic(auto, unfolding(crate::specs::Reading::image_of))]
pub fn view<'a>(alloc: Global, bytes: &'a [u8]) -> Result<ImageView<'a>, ImageFault>
    // The bytes spell the image, all of them.
    ensures found { IfOk result (λ image. Spells bytes.now image) }
    // What the bytes spell is seen, unless an allocation fails.
    ensures only { (image : ImageParts) → Spells bytes.now image → result ≢ Err Memory → result ≡ Ok image }
    // Any other error is the first fault.
    ensures first_fault { Answers result (image_of bytes.now) }
    ensures why { IfErr result (λ fault. fault ≢ Memory → IsFirstFault bytes.now fault) }
    // A fault before the tables is reported even if an allocation fails.
    ensures at_once { RefusesHead result (cursor 0 bytes.now) }
{
    let mut reader = Reader::new(bytes);
    let parts = parts_of(alloc, &mut reader)?;
    if !reader.is_at_end() {
        return Err(ImageFault::Trailing { at: reader.at() });
    }
    Ok(ImageView::new(parts))
}

#[tactic(auto, unfolding(crate::specs::Reading::parts_at))]
fn parts_of<'a>(alloc: Global, reader: &mut Reader<'a>) -> Result<LentParts<'a>, ImageFault>
    ensures given { Gives result reader.new (parts_at reader.old) }
    ensures at_once { RefusesHead result reader.old }
{
    let head = head_of(reader)?;
    let interfaces = interfaces_of(alloc, reader, head.counts.interfaces)?;
    let tests = tests_of(alloc, reader, head.counts.tests)?;
    let commands = commands_of(alloc, reader, head.counts.commands)?;
    let states = states_of(alloc, reader, head.counts.states)?;
    let routines = routines_of(alloc, reader, head.version, head.counts.routines)?;
    Ok(LentParts {
        version: head.version,
        budgets: head.budgets,
        initial: head.initial,
        always: head.always,
        interfaces,
        tests,
        commands,
        states,
        routines,
    })
}

#[tactic(auto, unfolding(crate::specs::Reading::head_at))]
fn head_of(reader: &mut Reader<'_>) -> Result<Head, ImageFault>
    ensures { GivesAtOnce result reader.new (head_at reader.old) }
{
    magic_of(reader)?;
    let version = version_of(reader)?;
    let budgets = budgets_of(reader)?;
    let counts = counts_of(reader)?;
    let initial = StateId(reader.u16()?);
    let always = handlers_of(reader)?;
    Ok(Head {
        version,
        budgets,
        counts,
        initial,
        always,
    })
}

#[tactic(auto, unfolding(crate::specs::Reading::magic_at))]
fn magic_of(reader: &mut Reader<'_>) -> Result<(), ImageFault>
    ensures { GivesAtOnce result reader.new (magic_at reader.old) }
{
    let at = reader.at();
    if reader.take(4)? != b"IFSV".as_slice() {
        return Err(ImageFault::WrongMagic { at });
    }
    Ok(())
}

#[tactic(auto, unfolding(crate::specs::Reading::version_at))]
fn version_of(reader: &mut Reader<'_>) -> Result<u8, ImageFault>
    ensures { GivesAtOnce result reader.new (version_at reader.old) }
{
    let at = reader.at();
    let version = reader.u8()?;
    if version != 1 && version != limits::VERSIONS {
        return Err(ImageFault::WrongVersion { at });
    }
    Ok(version)
}

#[tactic(auto, unfolding(crate::specs::Reading::budgets_at))]
fn budgets_of(reader: &mut Reader<'_>) -> Result<Budgets, ImageFault>
    ensures { GivesAtOnce result reader.new (budgets_at reader.old) }
{
    let stack = reader.u16_within(0, limits::STACK)?;
    let frames = reader.u16_within(0, limits::FRAMES)?;
    let cost = reader.u32_within(0, limits::EVENT_COST)?;
    let commands = reader.u16_within(0, limits::COMMANDS_OF_EVENT)?;
    Ok(Budgets {
        stack,
        frames,
        cost,
        commands,
    })
}

#[tactic(auto, unfolding(crate::specs::Reading::counts_at))]
fn counts_of(reader: &mut Reader<'_>) -> Result<Counts, ImageFault>
    ensures { GivesAtOnce result reader.new (counts_at reader.old) }
{
    let interfaces = reader.u16_within(0, limits::INTERFACES)?;
    let tests = reader.u16_within(0, limits::TESTS)?;
    let commands = reader.u16_within(0, limits::COMMANDS)?;
    let states = reader.u16_within(1, limits::STATES)?;
    let routines = reader.u16_within(0, limits::ROUTINES)?;
    Ok(Counts {
        interfaces,
        tests,
        commands,
        states,
        routines,
    })
}

#[tactic(auto, unfolding(crate::specs::Reading::handlers_at))]
fn handlers_of(reader: &mut Reader<'_>) -> Result<Handlers, ImageFault>
    ensures { GivesAtOnce result reader.new (handlers_at reader.old) }
{
    let init = RoutineId(reader.u16()?);
    let body = RoutineId(reader.u16()?);
    let mask = reader.u64()?;
    Ok(Handlers { init, body, mask })
}

/// An interface's name; I6 at the text if an earlier interface has it.
#[tactic(auto, unfolding(crate::specs::Reading::name_at))]
fn interface_of<'a>(
    reader: &mut Reader<'a>,
    before: &[LentText<'a>],
) -> Result<LentText<'a>, ImageFault>
    ensures { Gives result reader.new (name_at before.now reader.old) }
{
    let length = reader.text_length()?;
    let at = reader.at();
    let name = reader.text_sized(length)?;
    if is_among(before, name.as_bytes()) {
        return Err(ImageFault::RepeatedName { at });
    }
    Ok(name)
}

#[tactic(auto, using(crate::proofs::Loops::goes_on, crate::proofs::Loops::is_done))]
fn interfaces_of<'a>(
    alloc: Global,
    reader: &mut Reader<'a>,
    count: u16,
) -> Result<Items<LentText<'a>>, ImageFault>
    ensures { Gives result reader.new (items_at name_at count [] reader.old) }
{
    let mut interfaces: Vec<LentText<'a>> = Vec::new(alloc);
    'entries: for _ in 0..count {
        let name = interface_of(reader, interfaces.as_slice())?;
        interfaces.push(name)?;
    }
    Ok(Items::new(interfaces))
}

#[tactic(auto, unfolding(crate::specs::Reading::test_at))]
fn test_of<'a>(reader: &mut Reader<'a>) -> Result<LentTest<'a>, ImageFault>
    ensures { Gives result reader.new (test_at reader.old) }
{
    let period = reader.u32_within(1, limits::PERIOD)?;
    let text = reader.text()?;
    Ok(LentTest { period, text })
}

#[tactic(auto, using(crate::proofs::Loops::goes_on, crate::proofs::Loops::is_done))]
fn tests_of<'a>(
    alloc: Global,
    reader: &mut Reader<'a>,
    count: u16,
) -> Result<Items<LentTest<'a>>, ImageFault>
    ensures { Gives result reader.new (items_at (λ _. test_at) count [] reader.old) }
{
    let mut tests = Vec::new(alloc);
    'entries: for _ in 0..count {
        let test = test_of(reader)?;
        tests.push(test)?;
    }
    Ok(Items::new(tests))
}

#[tactic(auto, using(crate::proofs::Loops::goes_on, crate::proofs::Loops::is_done))]
fn commands_of<'a>(
    alloc: Global,
    reader: &mut Reader<'a>,
    count: u16,
) -> Result<Items<LentText<'a>>, ImageFault>
    ensures { Gives result reader.new (items_at (λ _. text_at) count [] reader.old) }
{
    let mut commands = Vec::new(alloc);
    'entries: for _ in 0..count {
        let text = reader.text()?;
        commands.push(text)?;
    }
    Ok(Items::new(commands))
}

/// A state; I6 at its name if an earlier state has it.
#[tactic(auto, unfolding(crate::specs::Reading::state_at, crate::specs::Reading::name_at))]
fn state_of<'a>(
    reader: &mut Reader<'a>,
    before: &[LentState<'a>],
) -> Result<LentState<'a>, ImageFault>
    ensures { Gives result reader.new (state_at before.now reader.old) }
{
    let length = reader.text_length()?;
    let at = reader.at();
    let name = reader.text_sized(length)?;
    if is_name_among(before, name.as_bytes()) {
        return Err(ImageFault::RepeatedName { at });
    }
    let handlers = handlers_of(reader)?;
    Ok(LentState { name, handlers })
}

#[tactic(auto, using(crate::proofs::Loops::goes_on, crate::proofs::Loops::is_done))]
fn states_of<'a>(
    alloc: Global,
    reader: &mut Reader<'a>,
    count: u16,
) -> Result<Items<LentState<'a>>, ImageFault>
    ensures { Gives result reader.new (items_at state_at count [] reader.old) }
{
    let mut states: Vec<LentState<'a>> = Vec::new(alloc);
    'entries: for _ in 0..count {
        let state = state_of(reader, states.as_slice())?;
        states.push(state)?;
    }
    Ok(Items::new(states))
}

/// A routine of at most `room` instructions.
#[tactic(auto, unfolding(crate::specs::Reading::routine_at))]
fn routine_of<'a>(
    reader: &mut Reader<'a>,
    version: u8,
    room: u16,
) -> Result<LentRoutine<'a>, ImageFault>
    ensures given { Gives result reader.new (routine_at version room reader.old) }
    ensures room { IfOk result (λ routine. length routine.code ≤ room) }
{
    let params = params_of(reader, version)?;
    let results = results_of(reader, version)?;
    let length = reader.u16_within(0, room.min(limits::CODE_OF_ROUTINE))?;
    let code = code_of(reader, length)?;
    Ok(LentRoutine {
        params,
        results,
        code,
    })
}

fn routines_of<'a>(
    alloc: Global,
    reader: &mut Reader<'a>,
    version: u8,
    count: u16,
) -> Result<Items<LentRoutine<'a>>, ImageFault>
    ensures { Gives result reader.new (items_at (routine_after version) count [] reader.old) }
{
    let mut routines = Vec::new(alloc);
    let mut room = limits::code_of_image(version);
    'entries: for _ in 0..count {
        let routine = routine_of(reader, version, room)?;
        room -= routine.code.len() as u16;
        routines.push(routine)?;
    }
    Ok(Items::new(routines))
}

/// The parameters of a routine.
#[tactic(auto, unfolding(crate::specs::Reading::params_at))]
fn params_of(reader: &mut Reader<'_>, version: u8) -> Result<Kinds, ImageFault>
    ensures { GivesAtOnceBy (λ kinds. kinds.items) result reader.new (params_at version reader.old) }
{
    if version == 1 {
        return Ok(Kinds::new());
    }
    kinds_of(reader)
}

/// The results of a routine.
#[tactic(auto, unfolding(crate::specs::Reading::results_at))]
fn results_of(reader: &mut Reader<'_>, version: u8) -> Result<Kinds, ImageFault>
    ensures { GivesAtOnceBy (λ kinds. kinds.items) result reader.new (results_at version reader.old) }
{
    if version == 1 {
        return truths_of(reader);
    }
    kinds_of(reader)
}

/// A number of truths, at most one.
#[tactic(auto, unfolding(crate::specs::Reading::truths_at))]
fn truths_of(reader: &mut Reader<'_>) -> Result<Kinds, ImageFault>
    ensures { GivesAtOnceBy (λ kinds. kinds.items) result reader.new (truths_at reader.old) }
{
    let mut truths = Kinds::new();
    if reader.u8_within(limits::TRUTHS)? == 1 {
        truths.push(Kind::Truth);
    }
    Ok(truths)
}

/// A number of kinds, at most four, and the kinds.
#[tactic(auto, unfolding(crate::specs::Reading::kinds_at))]
fn kinds_of(reader: &mut Reader<'_>) -> Result<Kinds, ImageFault>
    ensures { GivesAtOnceBy (λ kinds. kinds.items) result reader.new (kinds_at reader.old) }
{
    let count = reader.u8_within(limits::KINDS)?;
    so_many_kinds(reader, count)
}

fn so_many_kinds(reader: &mut Reader<'_>, count: u8) -> Result<Kinds, ImageFault>
    requires { count ≤ 4 }
    ensures { GivesAtOnceBy (λ kinds. kinds.items) result reader.new (items_at (λ _. kind_at) count [] reader.old) }
{
    let mut kinds = Kinds::new();
    'entries: for _ in 0..count {
        kinds.push(reader.kind()?);
    }
    Ok(kinds)
}

fn code_of<'a>(reader: &mut Reader<'a>, count: u16) -> Result<LentCode<'a>, ImageFault>
    ensures given { Gives result reader.new (items_at (λ _. instruction_at) count [] reader.old) }
    ensures count { IfOk result (λ code. length code ≡ count) }
{
    let words = reader.words();
    let mut here = reader.again();
    'entries: for _ in 0..count {
        here.op()?;
    }
    *reader = here;
    Ok(LentCode::new(&words[..usize::from(count)]))
}

/// Whether a table has a name.
fn is_among(names: &[LentText<'_>], name: &[u8]) -> bool
    ensures { result ≡ stands_in name.now names.now }
{
    names.iter().any(|other| other.as_bytes() == name)
}

/// Whether a state of a table has a name.
fn is_name_among(states: &[LentState<'_>], name: &[u8]) -> bool
    ensures { result ≡ stands_in name.now (names_of states.now) }
{
    have_name(states, name)
}

fn have_name(states: &[LentState<'_>], name: &[u8]) -> bool
    ensures { result ≡ list_any (λ s. bytes_eq s.name name.now) states.now }
{
    states.iter().any(|other| other.name.as_bytes() == name)
}

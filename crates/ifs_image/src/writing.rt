//! An image to bytes, field by field in the order of the format.

ghost use Rattle.std.specs.Prelude.{◌≡◌, ◌++◌, ◌^◌, ◌<◌, ◌≤◌, length, map, All, OnOk, IfOk, IsUtf8};
ghost use Rattle.std.specs.Int.{w16, to_be_bytes};
ghost use Rattle.std.specs.List.{flat_map};
ghost use Rattle.ifs_base.specs.Spelling.{spelling, HasSpelling, code_of_kind};
ghost use Rattle.ifs_base.specs.Sizes.{TextFits};
ghost use Rattle.ifs_image.specs.Limits.{CountsFit, TestFits, RoutineFits, HandlersInRange, StateInRange, RoutineInRange};
ghost use Rattle.ifs_image.specs.Spelling.{Spells, front_bytes, budgets_bytes, counts_bytes, counts, handlers_bytes};
ghost use Rattle.ifs_image.specs.Spelling.{text_bytes, test_bytes, state_bytes, image_bytes};
ghost use Rattle.ifs_image.specs.Spelling.{kinds_bytes, params_bytes, results_bytes, routine_bytes};

use crate::image::Image;
use crate::parts::{Budgets, Handlers, ImageParts, Routine, StateSpec, TestSpec};
use ifs_base::{Kind, Op, Text, encode_kind, encode_op};
use std::alloc::{AllocError, Global};

/// Writes the one spelling of an image. Reports only a failed allocation.
pub fn write(alloc: Global, image: &Image) -> Result<Vec<u8>, AllocError>
    ensures { IfOk result (λ bytes. Spells bytes.items image.now) }
{
    let parts = image.parts();
    let mut out = Vec::new(alloc);
    put_front(&mut out, parts.version)?;
    put_budgets(&mut out, parts.budgets)?;
    put_counts(&mut out, parts)?;
    put_u16(&mut out, parts.initial.0)?;
    put_handlers(&mut out, parts.always)?;
    put_texts(&mut out, parts.interfaces.as_slice())?;
    put_tests(&mut out, parts.tests.as_slice())?;
    put_texts(&mut out, parts.commands.as_slice())?;
    put_states(&mut out, parts.states.as_slice())?;
    put_routines(&mut out, parts.version, parts.routines.as_slice())?;
    Ok(out)
}

fn put_u16(out: &mut Vec<u8>, number: u16) -> Result<(), AllocError>
    ensures bytes { OnOk result (out.new.items ≡ out.old.items ++ to_be_bytes w16 number) }
    ensures in_range { number < 2 ^ 16 }
{
    out.extend_from_slice(&number.to_be_bytes())?;
    Ok(())
}

#[tactic(auto, unfolding(crate::specs::Spelling::front_bytes))]
fn put_front(out: &mut Vec<u8>, version: u8) -> Result<(), AllocError>
    ensures { OnOk result (out.new.items ≡ out.old.items ++ front_bytes version) }
{
    out.extend_from_slice(b"IFSV")?;
    out.push(version)?;
    Ok(())
}

#[tactic(auto, unfolding(crate::specs::Spelling::budgets_bytes))]
fn put_budgets(out: &mut Vec<u8>, budgets: Budgets) -> Result<(), AllocError>
    ensures { OnOk result (out.new.items ≡ out.old.items ++ budgets_bytes budgets) }
{
    put_u16(out, budgets.stack)?;
    put_u16(out, budgets.frames)?;
    out.extend_from_slice(&budgets.cost.to_be_bytes())?;
    put_u16(out, budgets.commands)?;
    Ok(())
}

#[tactic(auto, unfolding(crate::specs::Spelling::counts_bytes))]
fn put_counts(out: &mut Vec<u8>, parts: &ImageParts) -> Result<(), AllocError>
    requires { CountsFit parts.now }
    ensures { OnOk result (out.new.items ≡ out.old.items ++ counts_bytes (counts parts.now)) }
{
    put_u16(out, parts.interfaces.len() as u16)?;
    put_u16(out, parts.tests.len() as u16)?;
    put_u16(out, parts.commands.len() as u16)?;
    put_u16(out, parts.states.len() as u16)?;
    put_u16(out, parts.routines.len() as u16)?;
    Ok(())
}

#[tactic(auto, unfolding(crate::specs::Spelling::handlers_bytes))]
fn put_handlers(out: &mut Vec<u8>, handlers: Handlers) -> Result<(), AllocError>
    ensures bytes { OnOk result (out.new.items ≡ out.old.items ++ handlers_bytes handlers) }
    ensures in_range { HandlersInRange handlers }
{
    put_u16(out, handlers.init.0)?;
    put_u16(out, handlers.body.0)?;
    out.extend_from_slice(&handlers.mask.to_be_bytes())?;
    Ok(())
}

#[tactic(auto, unfolding(crate::specs::Spelling::text_bytes))]
fn put_text(out: &mut Vec<u8>, text: &Text) -> Result<(), AllocError>
    requires { TextFits text.now }
    ensures bytes { OnOk result (out.new.items ≡ out.old.items ++ text_bytes text.now) }
    ensures in_range { IsUtf8 text.now }
{
    let bytes = text.as_str().as_bytes();
    put_u16(out, bytes.len() as u16)?;
    out.extend_from_slice(bytes)?;
    Ok(())
}

fn put_texts(out: &mut Vec<u8>, texts: &[Text]) -> Result<(), AllocError>
    requires { All TextFits texts.now }
    ensures bytes { OnOk result (out.new.items ≡ out.old.items ++ flat_map text_bytes texts.now) }
    ensures in_range { OnOk result (All IsUtf8 texts.now) }
{
    for text in texts {
        put_text(out, text)?;
    }
    Ok(())
}

#[tactic(auto, unfolding(crate::specs::Spelling::test_bytes))]
fn put_test(out: &mut Vec<u8>, test: &TestSpec) -> Result<(), AllocError>
    requires { TestFits test.now }
    ensures bytes { OnOk result (out.new.items ≡ out.old.items ++ test_bytes test.now) }
    ensures in_range { OnOk result (IsUtf8 test.now.text) }
{
    out.extend_from_slice(&test.period.to_be_bytes())?;
    put_text(out, &test.text)?;
    Ok(())
}

fn put_tests(out: &mut Vec<u8>, tests: &[TestSpec]) -> Result<(), AllocError>
    requires { All TestFits tests.now }
    ensures bytes { OnOk result (out.new.items ≡ out.old.items ++ flat_map test_bytes tests.now) }
    ensures in_range { OnOk result (All (λ t. IsUtf8 t.text) tests.now) }
{
    for test in tests {
        put_test(out, test)?;
    }
    Ok(())
}

#[tactic(auto, unfolding(crate::specs::Spelling::state_bytes))]
fn put_state(out: &mut Vec<u8>, state: &StateSpec) -> Result<(), AllocError>
    requires { TextFits state.now.name }
    ensures bytes { OnOk result (out.new.items ≡ out.old.items ++ state_bytes state.now) }
    ensures in_range { OnOk result (StateInRange state.now) }
{
    put_text(out, &state.name)?;
    put_handlers(out, state.handlers)?;
    Ok(())
}

fn put_states(out: &mut Vec<u8>, states: &[StateSpec]) -> Result<(), AllocError>
    requires { All (λ s. TextFits s.name) states.now }
    ensures bytes { OnOk result (out.new.items ≡ out.old.items ++ flat_map state_bytes states.now) }
    ensures in_range { OnOk result (All StateInRange states.now) }
{
    for state in states {
        put_state(out, state)?;
    }
    Ok(())
}

fn put_op(out: &mut Vec<u8>, op: Op) -> Result<(), AllocError>
    ensures bytes { OnOk result (out.new.items ≡ out.old.items ++ spelling op) }
    ensures in_range { HasSpelling op }
{
    out.extend_from_slice(&encode_op(op))?;
    Ok(())
}

fn put_code(out: &mut Vec<u8>, code: &[Op]) -> Result<(), AllocError>
    ensures bytes { OnOk result (out.new.items ≡ out.old.items ++ flat_map spelling code.now) }
    ensures in_range { OnOk result (All HasSpelling code.now) }
{
    for op in code {
        put_op(out, *op)?;
    }
    Ok(())
}

/// The parameters of a routine.
#[tactic(auto, unfolding(crate::specs::Spelling::params_bytes))]
fn put_params(out: &mut Vec<u8>, version: u8, params: &[Kind]) -> Result<(), AllocError>
    requires { length params.now ≤ 4 }
    ensures { OnOk result (out.new.items ≡ out.old.items ++ params_bytes version params.now) }
{
    if version == 1 {
        return Ok(());
    }
    put_kinds(out, params)
}

/// The results of a routine.
#[tactic(auto, unfolding(crate::specs::Spelling::results_bytes))]
fn put_results(out: &mut Vec<u8>, version: u8, results: &[Kind]) -> Result<(), AllocError>
    requires { length results.now ≤ 4 }
    ensures { OnOk result (out.new.items ≡ out.old.items ++ results_bytes version results.now) }
{
    if version == 1 {
        out.push(results.len() as u8)?;
        return Ok(());
    }
    put_kinds(out, results)
}

#[tactic(auto, unfolding(crate::specs::Spelling::kinds_bytes))]
fn put_kinds(out: &mut Vec<u8>, kinds: &[Kind]) -> Result<(), AllocError>
    requires { length kinds.now ≤ 4 }
    ensures { OnOk result (out.new.items ≡ out.old.items ++ kinds_bytes kinds.now) }
{
    out.push(kinds.len() as u8)?;
    put_codes(out, kinds)?;
    Ok(())
}

fn put_codes(out: &mut Vec<u8>, kinds: &[Kind]) -> Result<(), AllocError>
    ensures { OnOk result (out.new.items ≡ out.old.items ++ map code_of_kind kinds.now) }
{
    for kind in kinds {
        out.push(encode_kind(*kind))?;
    }
    Ok(())
}

#[tactic(auto, unfolding(crate::specs::Spelling::routine_bytes))]
fn put_routine(out: &mut Vec<u8>, version: u8, routine: &Routine) -> Result<(), AllocError>
    requires { RoutineFits version routine.now }
    ensures bytes { OnOk result (out.new.items ≡ out.old.items ++ routine_bytes version routine.now) }
    ensures in_range { OnOk result (RoutineInRange routine.now) }
{
    put_params(out, version, routine.params.as_slice())?;
    put_results(out, version, routine.results.as_slice())?;
    put_u16(out, routine.code.len() as u16)?;
    put_code(out, routine.code.as_slice())?;
    Ok(())
}

fn put_routines(out: &mut Vec<u8>, version: u8, routines: &[Routine]) -> Result<(), AllocError>
    requires { All (RoutineFits version) routines.now }
    ensures bytes { OnOk result (out.new.items ≡ out.old.items ++ flat_map (routine_bytes version) routines.now) }
    ensures in_range { OnOk result (All RoutineInRange routines.now) }
{
    for routine in routines {
        put_routine(out, version, routine)?;
    }
    Ok(())
}

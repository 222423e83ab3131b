//! Bytes to an image in memory of its own.

ghost use Rattle.std.specs.Prelude.{◌≡◌, ◌≢◌, Err, IfOk, IfErr};
ghost use Rattle.ifs_image.specs.declared.parts.ImageParts.{ImageParts};
ghost use Rattle.ifs_image.specs.declared.fault.ImageFault.TheVariants.{Memory};
ghost use Rattle.ifs_image.specs.Spelling.{Spells};
ghost use Rattle.ifs_image.specs.Faults.{IsFirstFault};
ghost use Rattle.ifs_image.specs.Reading.{image_of, cursor};
ghost use Rattle.ifs_image.specs.Answers.{Answers, RefusesHead};

use crate::fault::ImageFault;
use crate::image::Image;
use crate::image_view::ImageView;
use crate::lent::{LentCode, LentRoutine, LentState, LentTest, LentText};
use crate::parts::{ImageParts, Routine, StateSpec, TestSpec};
use crate::reading::view;
use ifs_base::{Items, Op, Text};
use std::alloc::{AllocError, Global};

/// Reads the image that the bytes spell, all of them, into memory of its own. An error keeps nothing.
///
/// I1 to I8 report the first fault, with the offset of the first byte of its field. I0 reports a failed allocation;
/// a fault of a field before the tables is reported even then.
pub fn read(alloc: Global, bytes: &[u8]) -> Result<Image, ImageFault>
    // The bytes spell the image, all of them.
    ensures found { IfOk result (λ image. Spells bytes.now image) }
    // What the bytes spell is read, unless an allocation fails.
    ensures only { (image : ImageParts) → Spells bytes.now image → result ≢ Err Memory → result ≡ Ok image }
    // Any other error is the first fault.
    ensures first_fault { Answers result (image_of bytes.now) }
    ensures why { IfErr result (λ fault. fault ≢ Memory → IsFirstFault bytes.now fault) }
    // A fault before the tables is reported even if an allocation fails.
    ensures at_once { RefusesHead result (cursor 0 bytes.now) }
{
    let lent = view(alloc, bytes)?;
    let image = image_copied(alloc, &lent)?;
    Ok(image)
}

fn image_copied(alloc: Global, lent: &ImageView<'_>) -> Result<Image, AllocError>
    ensures { IfOk result (λ image. image ≡ lent.now) }
{
    let parts = lent.parts();
    Ok(Image::new(ImageParts {
        version: parts.version,
        budgets: parts.budgets,
        initial: parts.initial,
        always: parts.always,
        interfaces: texts_copied(alloc, parts.interfaces.as_slice())?,
        tests: tests_copied(alloc, parts.tests.as_slice())?,
        commands: texts_copied(alloc, parts.commands.as_slice())?,
        states: states_copied(alloc, parts.states.as_slice())?,
        routines: routines_copied(alloc, parts.routines.as_slice())?,
    }))
}

fn text_copied(alloc: Global, text: &LentText<'_>) -> Result<Text, AllocError>
    ensures { IfOk result (λ copied. copied ≡ text.now) }
{
    Ok(Text::new(String::from_str(alloc, text.as_str())?))
}

fn texts_copied(alloc: Global, texts: &[LentText<'_>]) -> Result<Items<Text>, AllocError>
    ensures { IfOk result (λ copied. copied ≡ texts.now) }
{
    let mut copied = Vec::new(alloc);
    for text in texts {
        copied.push(text_copied(alloc, text)?)?;
    }
    Ok(Items::new(copied))
}

fn test_copied(alloc: Global, test: &LentTest<'_>) -> Result<TestSpec, AllocError>
    ensures { IfOk result (λ copied. copied ≡ test.now) }
{
    Ok(TestSpec {
        period: test.period,
        text: text_copied(alloc, &test.text)?,
    })
}

fn tests_copied(alloc: Global, tests: &[LentTest<'_>]) -> Result<Items<TestSpec>, AllocError>
    ensures { IfOk result (λ copied. copied ≡ tests.now) }
{
    let mut copied = Vec::new(alloc);
    for test in tests {
        copied.push(test_copied(alloc, test)?)?;
    }
    Ok(Items::new(copied))
}

fn state_copied(alloc: Global, state: &LentState<'_>) -> Result<StateSpec, AllocError>
    ensures { IfOk result (λ copied. copied ≡ state.now) }
{
    Ok(StateSpec {
        name: text_copied(alloc, &state.name)?,
        handlers: state.handlers,
    })
}

fn states_copied(alloc: Global, states: &[LentState<'_>]) -> Result<Items<StateSpec>, AllocError>
    ensures { IfOk result (λ copied. copied ≡ states.now) }
{
    let mut copied = Vec::new(alloc);
    for state in states {
        copied.push(state_copied(alloc, state)?)?;
    }
    Ok(Items::new(copied))
}

fn code_copied(alloc: Global, code: &LentCode<'_>) -> Result<Items<Op>, AllocError>
    ensures { IfOk result (λ copied. copied ≡ code.now) }
{
    let mut copied = Vec::new(alloc);
    for place in 0..code.len() {
        copied.push(code.op(place))?;
    }
    Ok(Items::new(copied))
}

fn routine_copied(alloc: Global, routine: &LentRoutine<'_>) -> Result<Routine, AllocError>
    ensures { IfOk result (λ copied. copied ≡ routine.now) }
{
    Ok(Routine {
        params: routine.params.clone()?,
        results: routine.results.clone()?,
        code: code_copied(alloc, &routine.code)?,
    })
}

fn routines_copied(
    alloc: Global,
    routines: &[LentRoutine<'_>],
) -> Result<Items<Routine>, AllocError>
    ensures { IfOk result (λ copied. copied ≡ routines.now) }
{
    let mut copied = Vec::new(alloc);
    for routine in routines {
        copied.push(routine_copied(alloc, routine)?)?;
    }
    Ok(Items::new(copied))
}

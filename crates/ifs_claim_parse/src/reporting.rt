//! Reports on claims files that are refused.

ghost use Rattle.std.specs.Prelude.{◌≡◌, None, IfOk};
ghost use Rattle.ifs_expected_tokens.specs.Places.{IsPlaced};

use crate::context::Context;
use crate::fault::{Why, Wrong};
use crate::lexical::untokened;
use crate::misplaced::misplaced;
use crate::saying::{End, Hint, NOTHING, Said};
use crate::seen::Seen;
use ifs_expected_tokens::placed;
use ifs_report::{Part, Place, Report};
use std::alloc::{AllocError, Global};

/// The report on a file that is too large.
pub fn too_large(alloc: Global, bytes: usize) -> Result<Report, AllocError>
    ensures { IfOk result (λ report. report.place ≡ Place.File) }
{
    let said = Said {
        code: "Q4",
        before: "the file has ",
        last: End::Size(bytes),
        rule: "a claims file has at most 65536 bytes",
        hint: Hint::Words("put some of the claims into another file"),
        ..NOTHING
    };
    let report = said.report(alloc, Vec::new(alloc))?;
    Ok(report)
}

/// The report on bytes that are no text, from the first byte that belongs to no character.
pub fn no_text(alloc: Global, bytes: &[u8], valid: usize) -> Result<Report, AllocError> {
    let byte = bytes.get(valid).copied().unwrap_or(0);
    let said = Said {
        place: Place::Text(Part {
            start: valid,
            end: valid.saturating_add(1),
        }),
        last: End::Byte(byte),
        hint: Hint::Words("from Latin-1, `iconv -f latin1 -t utf8` makes UTF-8"),
        ..NOTHING
    };
    said.report_with(alloc, &["UTF-8"])
}

/// The report on a policy that has no macros, since its text is too long.
pub fn no_macros(alloc: Global) -> Result<Report, AllocError>
    ensures { IfOk result (λ report. report.place ≡ Place.File) }
{
    let said = Said {
        code: "Q4",
        before: "the policy is too long for claims",
        rule: "a policy has at most 1048576 bytes",
        ..NOTHING
    };
    let report = said.report(alloc, Vec::new(alloc))?;
    Ok(report)
}

/// The report on what is wrong with a line, which is this part of the text.
pub fn report_on(
    context: Context<'_>,
    text: &str,
    line: Part,
    wrong: Wrong,
) -> Result<Report, AllocError>
    ensures { IfOk result (λ report. IsPlaced text.now context.entry.definitions.now None report.place) }
{
    let report = drafted(context, text, line, wrong)?;
    checked(context, text, report)
}

/// A report whose place is checked: it names a place in the text or in the value of a definition.
fn checked(context: Context<'_>, text: &str, mut report: Report) -> Result<Report, AllocError>
    ensures { IfOk result (λ report. IsPlaced text.now context.entry.definitions.now None report.place) }
{
    report.place = placed(context.alloc, text, context.definitions, None, report.place)?;
    Ok(report)
}

/// The report before its place is checked.
fn drafted(
    context: Context<'_>,
    text: &str,
    line: Part,
    wrong: Wrong,
) -> Result<Report, AllocError> {
    let words = text.get(line.start..line.end).unwrap_or("");
    if let Why::Equals | Why::Tokens(_) = wrong.why {
        return untokened(context, words, line, wrong.why);
    }
    let seen = Seen::read(context, words, line.start)?;
    misplaced(&seen, wrong)
}

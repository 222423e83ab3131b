//! The reports on a policy.

ghost use Rattle.std.specs.Prelude.{◌≡◌, ◌≢◌, IfOk, IfSome, IsSomeAnd, None};
ghost use Rattle.std.specs.Str.{IsUtf8};
ghost use Rattle.ifs_lex.specs.Expansion.{defined_by};
ghost use Rattle.ifs_gen.specs.Compiled.{IsCompileRefusal};
ghost use Rattle.ifs_gen.specs.FaultWords.{compile_fault_words};
ghost use Rattle.ifs_expected_tokens.specs.Places.{IsPlaced};
ghost use Rattle.ifs_report.specs.Codes.{first_word};
ghost use Rattle.ifs_policy_reports.specs.Refusals.{IsAccepted, IsReportOf, IsReportOn, line_of_fault};

use crate::code::no_image;
use crate::faults::{code_of, line_of};
use crate::grammar::no_tree;
use crate::names::no_policy;
use crate::noting::notes_of;
use crate::texts::{no_text, no_tokens};
use ifs_expected_tokens::placed;
use ifs_gen::{CompileFault, CompiledText, compile_with_notes};
use ifs_policy::{PolicyFault, PolicyText, policy_of};
use ifs_policy_text::TokenizedPolicy;
use ifs_report::Report;
use std::alloc::{AllocError, Global};
use std::str::from_utf8;

/// How far a policy is read.
#[derive(Clone, Copy, Debug, PartialEq, Eq)]
pub enum Until {
    /// To its names, as `check` and `graph` do.
    Policy,
    /// To its image, as `compile` does.
    Image,
}

/// The report on a policy that is refused, if it is. The only error is a failed allocation.
pub fn refusal<'a>(
    alloc: Global,
    bytes: &'a [u8],
    definitions: &'a [(&'a str, &'a str)],
    until: Until,
) -> Result<Option<Report>, AllocError>
    // Without a report the policy is accepted.
    ensures accepted { IfOk result (λ found. found ≡ None → IsAccepted until bytes.now (defined_by definitions.now)) }
    // A report is on the fault of the text, and names a place that the line of this fault allows.
    ensures refused { IsUtf8 bytes.now → IfOk result (λ found. IfSome found (λ report. IsReportOn bytes.now definitions.now report)) }
{
    let text = match from_utf8(bytes) {
        Ok(text) => text,
        Err(error) => return Ok(Some(on_bytes(alloc, bytes, error.valid_up_to())?)),
    };
    match fault_of(alloc, text, definitions, until)? {
        Some(fault) => Ok(Some(report_on(alloc, text, definitions, fault)?)),
        None => Ok(None),
    }
}

/// The report on bytes that are refused, as a text with this fault, or as no text. The only error is a failed allocation.
pub fn report_of<'a>(
    alloc: Global,
    bytes: &'a [u8],
    definitions: &'a [(&'a str, &'a str)],
    fault: Option<CompileFault>,
) -> Result<Option<Report>, AllocError>
    // The report on a fault has its code, and names a place that its line allows.
    ensures told { IsUtf8 bytes.now → IfSome fault (λ fault. IfOk result (λ found. IsSomeAnd found (IsReportOf bytes.now definitions.now fault))) }
{
    let text = match from_utf8(bytes) {
        Ok(text) => text,
        Err(error) => return Ok(Some(on_bytes(alloc, bytes, error.valid_up_to())?)),
    };
    match fault {
        Some(fault) => Ok(Some(report_on(alloc, text, definitions, fault)?)),
        None => Ok(None),
    }
}

/// The notes on a policy that is accepted. The only error is a failed allocation.
pub fn notes<'a>(
    alloc: Global,
    bytes: &'a [u8],
    definitions: &'a [(&'a str, &'a str)],
) -> Result<Vec<Report>, AllocError> {
    match from_utf8(bytes) {
        Ok(text) => notes_of(alloc, text, definitions),
        Err(_error) => Ok(Vec::new(alloc)),
    }
}

/// Why a text is refused, if it is.
fn fault_of<'a>(
    alloc: Global,
    text: &'a str,
    definitions: &'a [(&'a str, &'a str)],
    until: Until,
) -> Result<Option<CompileFault>, AllocError>
    ensures accepted { IfOk result (λ found. found ≡ None → IsAccepted until text.now (defined_by definitions.now)) }
    ensures refused { IfOk result (λ found. IfSome found (λ fault. IsCompileRefusal text.now (defined_by definitions.now) fault)) }
    ensures certain { IfOk result (λ found. IfSome found (λ fault. fault ≢ CompileFault.Memory)) }
{
    match until {
        Until::Policy => match policy_of(alloc, text, definitions) {
            Ok(PolicyText { .. }) => Ok(None),
            Err(PolicyFault::Memory) => Err(AllocError),
            Err(fault) => Ok(Some(CompileFault::Text(fault))),
        },
        Until::Image => match compile_with_notes(alloc, text, definitions) {
            Ok(CompiledText { .. }) => Ok(None),
            Err(CompileFault::Memory) => Err(AllocError),
            Err(fault) => Ok(Some(fault)),
        },
    }
}

/// The report on a fault of a text.
fn report_on<'a>(
    alloc: Global,
    text: &'a str,
    definitions: &'a [(&'a str, &'a str)],
    fault: CompileFault,
) -> Result<Report, AllocError>
    ensures placed { IfOk result (λ report. IsPlaced text.now definitions.now (line_of_fault fault) report.place) }
    ensures code { IfOk result (λ report. report.code.now ≡ first_word (compile_fault_words fault)) }
{
    let mut report = drafted(alloc, text, definitions, fault)?;
    report.code = code_of(fault);
    report.place = placed(alloc, text, definitions, line_of(fault), report.place)?;
    Ok(report)
}

/// The report on bytes that are no text, from the first byte that belongs to no character.
fn on_bytes(alloc: Global, bytes: &[u8], valid: usize) -> Result<Report, AllocError> {
    let mut report = no_text(alloc, bytes, valid)?;
    report.code = "P1";
    Ok(report)
}

/// The report on a fault of a text, before its code, and before its place was looked at once more.
fn drafted<'a>(
    alloc: Global,
    text: &'a str,
    definitions: &'a [(&'a str, &'a str)],
    fault: CompileFault,
) -> Result<Report, AllocError> {
    let mut policy = TokenizedPolicy::read(alloc, text, definitions)?;
    match fault {
        CompileFault::Text(PolicyFault::Text(fault)) => no_tokens(
            alloc,
            &policy,
            definitions,
            fault,
        ),
        CompileFault::Text(PolicyFault::Tokens(fault)) => no_tree(
            alloc,
            &mut policy,
            definitions,
            fault,
        ),
        CompileFault::Text(PolicyFault::Names(fault)) => no_policy(alloc, &policy, fault),
        CompileFault::Code(fault) => no_image(alloc, &policy, fault),
        CompileFault::Text(PolicyFault::Memory) | CompileFault::Memory => Err(AllocError),
    }
}

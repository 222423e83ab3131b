//! Reports on assembly texts that spell no image.

ghost use Rattle.std.specs.Prelude.{ℕ, ◌≡◌, ◌≤◌, IfOk, Some, length};
ghost use Rattle.ifs_asm.specs.FaultWords.{asm_fault_words};
ghost use Rattle.ifs_report.specs.Codes.{first_word};
ghost use Rattle.ifs_image_reports.specs.Places.{LiesOn, line_of};

use crate::before::Before;
use crate::finding::Finding;
use crate::misplaced::{out_of_order, out_of_range};
use crate::places::{cut, line_in};
use crate::refusal::refusal;
use crate::unformed::unformed;
use ifs_asm::AsmFault;
use ifs_report::{Place, Report, Severity};
use std::alloc::{AllocError, Global};

/// The report on an assembly text that spells no image. Its place is the word that is wrong, or the first word of the line
/// if no other is known to be wrong. If a part is missing at the end, it is the end of the text. The only error is a failed
/// allocation.
pub fn of_assembly(alloc: Global, text: &[u8], fault: AsmFault) -> Result<Report, AllocError>
    ensures error { IfOk result (λ report. report.severity ≡ Severity.Error) }
    ensures code { IfOk result (λ report. report.code.now ≡ first_word (asm_fault_words fault)) }
    // The place lies within the text, on the line of the fault.
    ensures place { (line : ℕ) → line_of fault ≡ Some line → IfOk result
        (λ report. (start : ℕ) × (end : ℕ) × (report.place ≡ Place.Text (record { start = start; end = end })) × LiesOn text.now line start end) }
{
    match line_of(fault) {
        Some(number) => on_line(alloc, text, fault, number),
        None => {
            let message = String::from_str(alloc, "memory ran out")?;
            Ok(refusal(
                alloc,
                code_of(fault),
                message,
                "assembling a text takes memory",
            ))
        }
    }
}

/// The report on a line.
fn on_line(alloc: Global, text: &[u8], fault: AsmFault, number: u64) -> Result<Report, AllocError>
    ensures error { IfOk result (λ report. report.severity ≡ Severity.Error) }
    ensures code { IfOk result (λ report. report.code.now ≡ first_word (asm_fault_words fault)) }
    ensures place { IfOk result
        (λ report. (start : ℕ) × (end : ℕ) × (report.place ≡ Place.Text (record { start = start; end = end })) × LiesOn text.now number start end) }
{
    let line = line_in(text, number);
    let (lines, rest) = text.split_at(line.start);
    let (bytes, _) = rest.split_at(line.end - line.start);
    let before = Before::of(lines);
    let finding = found(alloc, &before, lines, bytes, fault)?;
    let part = cut(line, finding.word.from, finding.word.to());
    finding.report(alloc, &before, code_of(fault), part)
}

/// The code of a fault.
fn code_of(fault: AsmFault) -> &'static str
    ensures { result.now ≡ first_word (asm_fault_words fault) }
{
    match fault {
        AsmFault::Unknown { .. } => "A1",
        AsmFault::OutOfRange { .. } => "A2",
        AsmFault::OutOfOrder { .. } => "A3",
        AsmFault::Memory => "A0",
    }
}

/// The line that a fault names.
fn line_of(fault: AsmFault) -> Option<u64>
    ensures { result ≡ line_of fault }
{
    match fault {
        AsmFault::Unknown { line }
        | AsmFault::OutOfRange { line }
        | AsmFault::OutOfOrder { line } => Some(line),
        AsmFault::Memory => None,
    }
}

/// What is wrong with a line, after these lines.
fn found<'a>(
    alloc: Global,
    before: &Before,
    lines: &[u8],
    line: &'a [u8],
    fault: AsmFault,
) -> Result<Finding<'a>, AllocError> {
    match fault {
        AsmFault::Unknown { .. } => unformed(alloc, before, lines, line),
        AsmFault::OutOfRange { .. } => Ok(out_of_range(before, line)),
        AsmFault::OutOfOrder { .. } | AsmFault::Memory => Ok(out_of_order(before, line)),
    }
}

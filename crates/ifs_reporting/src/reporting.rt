//! Reports on the file of a task: what is wrong with it, or looks wrong in it.

use crate::unused::unused_definitions;
use ifs_asm::{AsmFault, assemble};
use ifs_file_commands::{Answer, NotText, answer, text_of};
use ifs_gen::CompileFault;
use ifs_image::{ImageFault, read};
use ifs_image_reports::{of_assembly, of_image, of_verification};
use ifs_options::Task;
use ifs_policy_reports::{notes, report_of};
use ifs_report::{Report, Source, json};
use ifs_verify::{VerifyFault, verify};
use std::alloc::{AllocError, Global};

/// The reports on a source, to which the task has this answer. They are the error of a refused source, and the warnings and notes
/// on an accepted policy. Nothing is computed for other accepted sources.
pub fn reports_on(
    alloc: Global,
    task: Task,
    source: Source<'_>,
    answer: &Answer,
) -> Result<Vec<Report>, AllocError> {
    let (input, definitions) = (source.text, source.definitions);
    let is_accepted = answer.status == 0;
    match task {
        Task::Check | Task::Graph | Task::Compile if is_accepted => accepted_reports(alloc, source),
        _ if is_accepted => Ok(Vec::new(alloc)),
        Task::Check | Task::Graph | Task::Compile => policy_reports(
            alloc,
            input,
            definitions,
            answer.fault,
        ),
        Task::Verify => verify_reports(alloc, input),
        Task::Disasm | Task::Upgrade => read_reports(alloc, input),
        Task::Asm => assemble_reports(alloc, input),
    }
}

/// The reports on a source, as JSON objects, one on a line.
pub fn reports_in_json(
    alloc: Global,
    task: Task,
    source: Source<'_>,
) -> Result<String, AllocError> {
    let answer = answer(alloc, task, source.text, source.definitions)?;
    let mut lines = String::new(alloc);
    for report in reports_on(alloc, task, source, &answer)? {
        lines.push_str(json(alloc, &report, source)?.as_str())?;
    }
    Ok(lines)
}

/// The warnings and the notes on an accepted policy.
fn accepted_reports(alloc: Global, source: Source<'_>) -> Result<Vec<Report>, AllocError> {
    let mut reports = unused_definitions(alloc, source)?;
    for note in notes(alloc, source.text, source.definitions)? {
        reports.push(note)?;
    }
    Ok(reports)
}

/// The report on a policy that is refused with this fault.
fn policy_reports(
    alloc: Global,
    bytes: &[u8],
    definitions: &[(&str, &str)],
    fault: Option<CompileFault>,
) -> Result<Vec<Report>, AllocError> {
    let mut reports = Vec::new(alloc);
    if let Some(report) = report_of(alloc, bytes, definitions, fault)? {
        reports.push(report)?;
    }
    Ok(reports)
}

/// The report on a refused image of `verify`.
fn verify_reports(alloc: Global, image: &[u8]) -> Result<Vec<Report>, AllocError> {
    match verify(alloc, image) {
        Ok(_verified) => Ok(Vec::new(alloc)),
        Err(VerifyFault::OutOfMemory) => Err(AllocError),
        Err(fault) => one(alloc, of_verification(alloc, image, fault)),
    }
}

/// The report on bytes that are no image, of `disasm` and `upgrade`.
fn read_reports(alloc: Global, bytes: &[u8]) -> Result<Vec<Report>, AllocError> {
    match read(alloc, bytes) {
        Ok(_image) => Ok(Vec::new(alloc)),
        Err(ImageFault::Memory) => Err(AllocError),
        Err(fault) => one(alloc, of_image(alloc, bytes, fault)),
    }
}

/// The report on a refused text of `asm`.
fn assemble_reports(alloc: Global, bytes: &[u8]) -> Result<Vec<Report>, AllocError> {
    match assembly_fault(alloc, bytes) {
        None => Ok(Vec::new(alloc)),
        Some(AsmFault::Memory) => Err(AllocError),
        Some(fault) => one(alloc, of_assembly(alloc, bytes, fault)),
    }
}

/// The fault of an assembly text. A line with a byte that is not UTF-8 has an unknown form.
fn assembly_fault(alloc: Global, bytes: &[u8]) -> Option<AsmFault> {
    match text_of(bytes) {
        Ok(text) => assemble(alloc, text).err(),
        Err(NotText { line }) => Some(AsmFault::Unknown { line: line as u64 }),
    }
}

/// A list of one report.
fn one(alloc: Global, report: Result<Report, AllocError>) -> Result<Vec<Report>, AllocError> {
    let mut reports = Vec::new(alloc);
    reports.push(report?)?;
    Ok(reports)
}

//! Commands on files: read a file, write the image of its answer, print the answer, and write reports on the file.

use ifs_file_commands::{Answer, answer, memory_code};
use ifs_host::failure::Failure;
use ifs_host::files::{FileFault, read_file, read_whole};
use ifs_host::images::write_image;
use ifs_host::reporting::write_report;
use ifs_host::standard_output::StandardOutput;
use ifs_options::{Reports, Task};
use ifs_report::Source;
use ifs_reporting::reports_on;
use std::io::Write;

/// The operand that is standard input.
const INPUT: &str = "-";

/// A task on a file.
#[derive(Clone, Copy)]
pub struct Job<'a> {
    pub task: Task,
    /// The path of the file, or `-` for standard input.
    pub file: &'a str,
    /// The path of the image to write, if any.
    pub image: Option<&'a str>,
}

/// What a command takes besides its files.
#[derive(Clone, Copy)]
pub struct Beside<'a> {
    /// The definitions of macros.
    pub definitions: &'a [(&'a str, &'a str)],
    /// How reports are written.
    pub reports: Reports,
}

impl<'a> Beside<'a> {
    /// A file with this name and these bytes.
    pub fn source(self, name: &'a str, text: &'a [u8]) -> Source<'a> {
        Source {
            name,
            text,
            lines_before: 0,
            definitions: self.definitions,
        }
    }
}

impl<'a> Job<'a> {
    /// A task that writes no image.
    pub fn reading(task: Task, file: &'a str) -> Job<'a> {
        Job {
            task,
            file,
            image: None,
        }
    }

    /// Does the task: reads the file, writes the image of the answer, if any, prints the answer, and then writes the reports.
    pub fn run(self, rt: &HostRuntime, beside: Beside<'_>) -> Result<(), Failure<'a>> {
        let input = self.read(rt)?;
        self.run_on(rt, input.as_slice(), beside)
    }

    /// Reads the bytes of the file. If an allocation fails, prints the line that says so.
    fn read(self, rt: &HostRuntime) -> Result<Vec<u8>, Failure<'a>> {
        match self.bytes(rt) {
            Ok(input) => Ok(input),
            Err(fault) => Err(Failure::of_file(rt, memory_code(self.task), self.name(), fault)),
        }
    }

    /// Reads the bytes of the file.
    pub fn bytes(self, rt: &HostRuntime) -> Result<Vec<u8>, FileFault> {
        if self.file == INPUT {
            read_whole(rt.alloc(), rt.stdin())
        } else {
            read_file(rt, self.file)
        }
    }

    /// The name of the file in messages.
    pub fn name(self) -> &'a str {
        if self.file == INPUT {
            "standard input"
        } else {
            self.file
        }
    }

    /// Does the task on these bytes of the file.
    fn run_on(self, rt: &HostRuntime, input: &[u8], beside: Beside<'_>) -> Result<(), Failure<'a>> {
        match answer(rt.alloc(), self.task, input, beside.definitions) {
            Ok(answer) => self.finish(rt, &answer, input, beside),
            Err(_) => Err(Failure::out_of_memory(rt, memory_code(self.task))),
        }
    }

    /// Prints the refusal of these bytes of the file, writes the reports on them, and returns the failure.
    pub fn refuse(self, rt: &HostRuntime, input: &[u8], beside: Beside<'_>) -> Failure<'a> {
        match self.run_on(rt, input, beside) {
            Ok(()) => Failure::Refused,
            Err(failure) => failure,
        }
    }

    /// Prints an answer, and writes the reports on the bytes of the file.
    fn finish(
        self,
        rt: &HostRuntime,
        answer: &Answer,
        input: &[u8],
        beside: Beside<'_>,
    ) -> Result<(), Failure<'a>> {
        self.print_answer(rt, answer)?;
        let is_accepted = answer.status == 0;
        if beside.reports != Reports::Quiet {
            self.write_reports(rt, answer, input, beside);
        }
        if is_accepted {
            Ok(())
        } else {
            Err(Failure::Refused)
        }
    }

    /// Writes the image of an answer, and prints it.
    fn print_answer(self, rt: &HostRuntime, answer: &Answer) -> Result<(), Failure<'a>> {
        if let (Some(path), Some(image)) = (self.image, &answer.file) {
            self.write_image(rt, path, image.as_slice())?;
        }
        StandardOutput::new(rt).write_all(answer.text.as_bytes())?;
        Ok(())
    }

    /// Writes the reports on the file. None is written if an allocation fails.
    fn write_reports(self, rt: &HostRuntime, answer: &Answer, input: &[u8], beside: Beside<'_>) {
        let source = beside.source(self.file, input);
        let Ok(found) = reports_on(rt.alloc(), self.task, source, answer) else {
            return;
        };
        for report in found.as_slice() {
            write_report(rt, beside.reports, report, source);
        }
    }

    /// Writes an image.
    fn write_image(self, rt: &HostRuntime, path: &'a str, image: &[u8]) -> Result<(), Failure<'a>> {
        match write_image(rt, path, image) {
            Ok(()) => Ok(()),
            Err(error) => Err(Failure::of_file(rt, memory_code(self.task), path, error.into())),
        }
    }
}

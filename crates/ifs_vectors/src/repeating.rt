//! The text of a section: its lines, with repetitions and escapes expanded.

use crate::cases::Section;
use crate::escapes::put_unescaped;
use std::alloc::{AllocError, Global};

/// How the lines of a section are read.
#[derive(Clone, Copy)]
struct Form {
    is_escaped: bool,
    is_numbered: bool,
}

/// The lines of a repetition that is open, and how often they appear.
#[derive(Drop)]
struct Block<'a> {
    times: Option<u32>,
    lines: Vec<&'a str>,
}

/// The text of a section: that of its lines, without the last newline if it is cut.
pub fn text_of(alloc: Global, section: Section<'_>) -> Result<Vec<u8>, AllocError> {
    let mut text = lines_of(alloc, section)?;
    if section.has_flag("cut") {
        let _newline = text.pop();
    }
    Ok(text)
}

/// The lines of a section, each with a newline after it.
pub fn lines_of(alloc: Global, section: Section<'_>) -> Result<Vec<u8>, AllocError> {
    let mut text = Vec::new(alloc);
    let form = Form {
        is_escaped: section.has_flag("escaped"),
        is_numbered: section.has_flag("numbered"),
    };
    match section.lines {
        Some(lines) if section.has_flag("repeated") || form.is_numbered => {
            put_repeated(alloc, &mut text, form, lines)?;
        }
        Some(lines) => put_lines(&mut text, form, lines)?,
        None => {}
    }
    Ok(text)
}

/// Puts lines as they are.
fn put_lines(text: &mut Vec<u8>, form: Form, lines: &str) -> Result<(), AllocError> {
    for line in lines.split('\n') {
        put_line(text, form, line)?;
    }
    Ok(())
}

/// Puts a line and a newline.
fn put_line(text: &mut Vec<u8>, form: Form, line: &str) -> Result<(), AllocError> {
    if form.is_escaped {
        put_unescaped(text, line)?;
    } else {
        text.extend_from_slice(line.as_bytes())?;
    }
    Ok(text.push(b'\n')?)
}

/// Puts lines. Those between `*N` and `*` appear N times.
fn put_repeated(
    alloc: Global,
    text: &mut Vec<u8>,
    form: Form,
    lines: &str,
) -> Result<(), AllocError> {
    let mut block = Block {
        times: None,
        lines: Vec::new(alloc),
    };
    for line in lines.split('\n') {
        take_line(alloc, &mut block, text, form, line)?;
    }
    Ok(())
}

/// Takes a line. It belongs to the open repetition, begins or ends one, or is put as it is.
fn take_line<'a>(
    alloc: Global,
    block: &mut Block<'a>,
    text: &mut Vec<u8>,
    form: Form,
    line: &'a str,
) -> Result<(), AllocError> {
    match block.times {
        Some(times) if line == "*" => {
            put_block(alloc, text, form, block.lines.as_slice(), times)?;
            block.lines.clear();
            block.times = None;
        }
        Some(_) => block.lines.push(line)?,
        None => match times_of(line) {
            Some(times) => block.times = Some(times),
            None => put_line(text, form, line)?,
        },
    }
    Ok(())
}

/// The number of a line `*N`.
fn times_of(line: &str) -> Option<u32> {
    line.strip_prefix('*')?.parse::<u32>().ok()
}

/// Puts lines `times` times.
fn put_block(
    alloc: Global,
    text: &mut Vec<u8>,
    form: Form,
    lines: &[&str],
    times: u32,
) -> Result<(), AllocError> {
    for time in 0..times {
        for line in lines {
            put_time(alloc, text, form, line, time)?;
        }
    }
    Ok(())
}

/// Puts a line of a repetition. If lines are numbered, the number of this time replaces each `#`.
fn put_time(
    alloc: Global,
    text: &mut Vec<u8>,
    form: Form,
    line: &str,
    time: u32,
) -> Result<(), AllocError> {
    if !form.is_numbered || !line.contains('#') {
        return put_line(text, form, line);
    }
    let numbered = with_number(alloc, line, time)?;
    put_line(text, form, numbered.as_str())
}

/// A line with a number in place of each `#`.
fn with_number(alloc: Global, line: &str, number: u32) -> Result<String, AllocError> {
    let mut text = String::new(alloc);
    let mut is_first = true;
    for piece in line.split('#') {
        if !is_first {
            write!(text, "{number}")?;
        }
        text.push_str(piece)?;
        is_first = false;
    }
    Ok(text)
}

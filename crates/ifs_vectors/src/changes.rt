//! Changes of the lines of a text.

use anyhow::{Result, ensure};
use std::alloc::{AllocError, Global};

/// A change of a line: its number, and the line that replaces it, if there is one.
#[derive(Clone, Copy)]
struct Change<'a> {
    number: usize,
    line: Option<&'a str>,
}

/// The change that a line states: `line N: TEXT`, `line N:` or `no line N`.
fn change_of(line: &str) -> Option<Change<'_>> {
    if let Some(number) = line.strip_prefix("no line ") {
        let number = number.parse::<usize>().ok()?;
        return Some(Change { number, line: None });
    }
    let (number, rest) = line.strip_prefix("line ")?.split_once(':')?;
    let number = number.parse::<usize>().ok()?;
    let rest = if rest.is_empty() {
        rest
    } else {
        rest.strip_prefix(' ')?
    };
    Some(Change {
        number,
        line: Some(rest),
    })
}

/// A text without its last newline.
fn lines_in(text: &str) -> &str {
    text.strip_suffix('\n').unwrap_or(text)
}

/// How many lines there are.
fn count_of(text: &str) -> usize {
    if text.is_empty() {
        0
    } else {
        count_lines(lines_in(text))
    }
}

/// How many lines there are between newlines.
pub fn count_lines(text: &str) -> usize {
    let mut count: usize = 0;
    for _line in text.split('\n') {
        count = count.saturating_add(1);
    }
    count
}

/// Applies changes to a text. Each change is a line.
pub fn changed(alloc: Global, text: &str, changes: &str) -> Result<Vec<u8>> {
    let count = count_of(text);
    for line in lines_in(changes).split('\n').take(count_of(changes)) {
        ensure!(is_within(line, count), "no change: {line}");
    }
    Ok(put_changed(alloc, text, changes, count)?)
}

/// Whether a line changes one of the first `count` lines or adds the next one.
fn is_within(line: &str, count: usize) -> bool {
    match change_of(line) {
        Some(change) => 0 < change.number && change.number <= count.saturating_add(1),
        None => false,
    }
}

fn put_changed(
    alloc: Global,
    text: &str,
    changes: &str,
    count: usize,
) -> Result<Vec<u8>, AllocError> {
    let mut out = Vec::new(alloc);
    let mut number: usize = 0;
    for line in lines_in(text).split('\n').take(count) {
        number = number.saturating_add(1);
        if !put_changes(&mut out, changes, number)? {
            put_line(&mut out, line)?;
        }
    }
    let _is_longer = put_changes(&mut out, changes, count.saturating_add(1))?;
    Ok(out)
}

/// Puts the replacement of a line. Returns whether the line has a change.
fn put_changes(out: &mut Vec<u8>, changes: &str, number: usize) -> Result<bool, AllocError> {
    let mut is_changed = false;
    for line in lines_in(changes).split('\n') {
        if let Some(change) = change_of(line)
            && change.number == number
        {
            is_changed = true;
            put_change(out, change)?;
        }
    }
    Ok(is_changed)
}

fn put_change(out: &mut Vec<u8>, change: Change<'_>) -> Result<(), AllocError> {
    match change.line {
        Some(line) => put_line(out, line),
        None => Ok(()),
    }
}

fn put_line(out: &mut Vec<u8>, line: &str) -> Result<(), AllocError> {
    out.extend_from_slice(line.as_bytes())?;
    Ok(out.push(b'\n')?)
}

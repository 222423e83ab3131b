//! Escapes: `\xHH` is a byte, and `\xHH*N;` is that byte N times.

use ifs_base::digit_value;
use std::alloc::AllocError;
use std::str;

/// A byte, how often it occurs, and the rest after the escape.
#[derive(Clone, Copy)]
struct Escape<'a> {
    byte: u8,
    times: u32,
    rest: &'a [u8],
}

/// Puts a line with bytes in place of its escapes.
pub fn put_unescaped(text: &mut Vec<u8>, line: &str) -> Result<(), AllocError> {
    let mut is_first = true;
    for piece in line.split("\\x") {
        if is_first {
            text.extend_from_slice(piece.as_bytes())?;
        } else {
            put_escape(text, piece.as_bytes())?;
        }
        is_first = false;
    }
    Ok(())
}

/// Puts the text after `\x`. If it begins no escape, these two characters stay.
fn put_escape(text: &mut Vec<u8>, piece: &[u8]) -> Result<(), AllocError> {
    match escape_of(piece) {
        Some(escape) => put_bytes(text, escape),
        None => {
            text.extend_from_slice(b"\\x")?;
            text.extend_from_slice(piece)?;
            Ok(())
        }
    }
}

fn put_bytes(text: &mut Vec<u8>, escape: Escape<'_>) -> Result<(), AllocError> {
    for _time in 0..escape.times {
        text.push(escape.byte)?;
    }
    text.extend_from_slice(escape.rest)?;
    Ok(())
}

/// The escape whose digits begin these bytes.
fn escape_of(piece: &[u8]) -> Option<Escape<'_>> {
    let [high, low, rest @ ..] = piece else {
        return None;
    };
    let byte = digit_value(*high)? * 16 + digit_value(*low)?;
    let (times, rest) = times_of(rest).unwrap_or((1, rest));
    Some(Escape { byte, times, rest })
}

/// The number of `*N;` and the rest after it, if these bytes begin so.
fn times_of(bytes: &[u8]) -> Option<(u32, &[u8])> {
    let text = str::from_utf8(bytes).ok()?;
    let (times, rest) = text.strip_prefix('*')?.split_once(';')?;
    let times = times.parse::<u32>().ok()?;
    Some((times, rest.as_bytes()))
}

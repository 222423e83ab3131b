//! Quoted texts.

ghost use Rattle.std.specs.Prelude.{◌≡◌, ◌++◌, ◌<◌, ◌≤◌, ◌∷◌, List, ℕ, None, length, take};
ghost use Rattle.std.specs.Prelude.{string_bytes, MatchOption, IfSome, IfOk, IsTrue, IsUtf8, OnOk};
ghost use Rattle.std.specs.Option.{option_map};
ghost use Rattle.std.specs.List.{flat_map, prefix_len};
ghost use Rattle.ifs_asm.specs.Spellings.{is_plain};
ghost use Rattle.ifs_asm.specs.inner.Words.{Start, Within, Backslash, High, text_in, text_from};
ghost use Rattle.ifs_asm.specs.inner.Words.{in_utf8, quote_turn, after_turn, given, hex_value, onto, ending, TakesRun};
ghost use Rattle.ifs_base.specs.Words.{quoted_byte, quoted};

use crate::plain::{far_plain, near_end, plain_run};
use crate::words::is;
use ifs_base::{QuotedByte, Text, digit_value, limits, quote_byte};
use std::alloc::{AllocError, Global};

/// Writes a text in quotes.
pub(crate) fn put_quoted(out: &mut String, text: &Text) -> Result<(), AllocError>
    ensures bytes { OnOk result (string_bytes out.new ≡ string_bytes out.old ++ quoted text.now) }
    ensures in_range { OnOk result (IsUtf8 text.now) }
{
    out.push_str("\"")?;
    put_inside(out, text.as_str())?;
    out.push_str("\"")?;
    Ok(())
}

/// Writes the text between the quotes: plain bytes in runs, the others one by one.
fn put_inside(out: &mut String, text: &str) -> Result<(), AllocError>
    ensures { OnOk result (string_bytes out.new ≡ string_bytes out.old ++ flat_map quoted_byte text.now) }
{
    let mut left = text;
    while let Some(parts) = split_plain(left) {
        put_run(out, parts.run)?;
        put_escape(out, parts.byte)?;
        left = parts.rest;
    }
    put_run(out, left)
}

/// Writes a run of plain bytes. It is often empty.
#[inline(always)]
fn put_run(out: &mut String, run: &str) -> Result<(), AllocError>
    ensures { OnOk result (string_bytes out.new ≡ string_bytes out.old ++ run.now) }
{
    if run.is_empty() {
        return Ok(());
    }
    out.push_str(run)
}

/// Writes a byte as it is quoted.
fn put_escape(out: &mut String, byte: u8) -> Result<(), AllocError>
    requires { byte < 128 }
    ensures { OnOk result (string_bytes out.new ≡ string_bytes out.old ++ quoted_byte byte) }
{
    match quote_byte(byte) {
        QuotedByte::Plain(byte) => out.push(char::from(byte))?,
        QuotedByte::Escaped(byte) => {
            out.push_str("\\")?;
            out.push(char::from(byte))?;
        }
        QuotedByte::Hexadecimal(high, low) => {
            out.push_str("\\x")?;
            out.push(char::from(high))?;
            out.push(char::from(low))?;
        }
    }
    Ok(())
}

/// A text up to its first byte that is not plain, that byte, and the rest.
#[derive(Clone, Copy)]
struct Parts<'a> {
    run: &'a str,
    byte: u8,
    rest: &'a str,
}

/// Splits a text at its first byte that is not plain. Returns `None` if all bytes are plain.
fn split_plain(text: &str) -> Option<Parts<'_>>
    ensures value { MatchOption
        result
        (flat_map quoted_byte text.now ≡ text.now)
        (λ parts. flat_map quoted_byte text.now ≡ parts.run.now ++ quoted_byte parts.byte ++ flat_map quoted_byte parts.rest.now) }
    ensures ascii { IfSome result (λ parts. parts.byte < 128) }
    ensures shorter { IfSome result (λ parts. length parts.rest.now < length text.now) }
{
    let bytes = text.as_bytes();
    let len = plain_run(bytes);
    if len == bytes.len() {
        return None;
    }
    let byte = bytes[len];
    let (run, others) = text.split_at(len);
    Some(Parts {
        run,
        byte,
        rest: others.split_at(1).1,
    })
}

/// Reads a quoted text. Returns `None` if the word is not one.
pub(crate) fn text_of(alloc: Global, word: &[u8]) -> Result<Option<Text>, AllocError>
    ensures { IfOk result (λ text. text ≡ text_in word.now) }
{
    let Some(bytes) = unquoted(alloc, word)? else {
        return Ok(None);
    };
    Ok(in_utf8(bytes))
}

/// The text of bytes, and `None` if they are not in UTF-8.
fn in_utf8(bytes: Vec<u8>) -> Option<Text>
    ensures { result ≡ in_utf8 bytes.items }
{
    match String::from_utf8(bytes) {
        Ok(text) => Some(Text::new(text)),
        Err(_) => None,
    }
}

/// The bytes of a quoted text, and `None` if the word is not one.
fn unquoted(alloc: Global, word: &[u8]) -> Result<Option<Vec<u8>>, AllocError>
    ensures { IfOk result (λ bytes. option_map (λ vec. vec.items) bytes ≡ text_from word.now Start) }
{
    match word {
        [b'"', inside @ ..] => unquoted_inside(alloc, inside),
        _ => Ok(None),
    }
}

/// The bytes of a quoted text, from the byte after its first quote on.
fn unquoted_inside(alloc: Global, inside: &[u8]) -> Result<Option<Vec<u8>>, AllocError>
    ensures { IfOk result (λ bytes. option_map (λ vec. vec.items) bytes ≡ text_from inside.now Within) }
{
    let most = usize::from(limits::TEXT);
    let mut bytes = Vec::with_capacity(alloc, inside.len().min(most))?;
    let mut left = take_run(&mut bytes, inside)?;
    while let Some(escape) = escape_at(left) {
        bytes.push(escape.byte)?;
        left = take_run(&mut bytes, escape.rest)?;
    }
    if is(left, b"\"") {
        Ok(Some(bytes))
    } else {
        Ok(None)
    }
}

/// Takes the plain bytes at the front, and returns the rest.
#[inline(always)]
fn take_run<'a>(bytes: &mut Vec<u8>, left: &'a [u8]) -> Result<&'a [u8], AllocError>
    ensures { IfOk result (λ rest. TakesRun bytes.old.items bytes.new.items left.now rest.now) }
{
    if begins_escape(left) {
        return Ok(left);
    }
    match near_end(left) {
        Some(run) => take_front::<16>(bytes, left, run),
        None => take_some(bytes, left),
    }
}

/// Whether the first byte is a backslash.
fn begins_escape(bytes: &[u8]) -> bool
    ensures { IsTrue result → prefix_len is_plain bytes.now ≡ 0 }
{
    match bytes {
        [b'\\', ..] => true,
        _ => false,
    }
}

/// Takes the plain bytes if no escape is near, or if few bytes are left.
#[inline(never)]
fn take_some<'a>(bytes: &mut Vec<u8>, left: &'a [u8]) -> Result<&'a [u8], AllocError>
    ensures { IfOk result (λ rest. TakesRun bytes.old.items bytes.new.items left.now rest.now) }
{
    take_front::<32>(bytes, left, far_plain(left))
}

/// Takes the plain bytes at the front, given their number, and returns the rest.
#[inline(always)]
fn take_front<'a, const N: usize>(
    bytes: &mut Vec<u8>,
    left: &'a [u8],
    run: usize,
) -> Result<&'a [u8], AllocError>
    requires few { N ≤ 32 }
    requires within { run ≤ length left.now }
    requires plain { run ≡ prefix_len is_plain left.now }
    ensures { IfOk result (λ rest. TakesRun bytes.old.items bytes.new.items left.now rest.now) }
{
    put_front::<N>(bytes, left, run)?;
    Ok(left.split_at(run).1)
}

/// Adds this number of bytes from the front. If there is room it adds a whole block and cuts it, which is faster than
/// a copy of a few bytes.
#[inline(always)]
fn put_front<const N: usize>(bytes: &mut Vec<u8>, left: &[u8], run: usize) -> Result<(), AllocError>
    requires few { N ≤ 32 }
    requires within { run ≤ length left.now }
    ensures { OnOk result (bytes.new.items ≡ bytes.old.items ++ take run left.now) }
{
    let len = bytes.len();
    match left.split_first_chunk::<N>() {
        Some((block, _)) if run <= N && N <= bytes.capacity() - len => {
            bytes.extend_from_slice(block.as_slice())?;
            bytes.truncate(len + run);
            Ok(())
        }
        _ => bytes.extend_from_slice(left.split_at(run).0),
    }
}

/// The byte that an escape means, and the bytes after the escape.
#[derive(Clone, Copy)]
struct Escape<'a> {
    byte: u8,
    rest: &'a [u8],
}

/// The escape at the front, and `None` if there is none.
fn escape_at(bytes: &[u8]) -> Option<Escape<'_>>
    ensures text { prefix_len is_plain bytes.now ≡ 0 → MatchOption
        result
        (text_from bytes.now Within ≡ ending bytes.now)
        (λ escape. text_from bytes.now Within ≡ onto escape.byte (text_from escape.rest.now Within)) }
    ensures shorter { IfSome result (λ escape. length escape.rest.now < length bytes.now) }
{
    let [first, kind, rest @ ..] = bytes else {
        return None;
    };
    if *first == b'\\' {
        escape_by(*kind, rest)
    } else {
        None
    }
}

/// The escape that a byte and those after it make after a backslash, and `None` if they make none.
fn escape_by(kind: u8, rest: &[u8]) -> Option<Escape<'_>>
    ensures text { MatchOption
        result
        (after_turn (text_from rest.now) (quote_turn Backslash kind) ≡ None)
        (λ escape. after_turn (text_from rest.now) (quote_turn Backslash kind) ≡ onto escape.byte (text_from escape.rest.now Within)) }
    ensures shorter { IfSome result (λ escape. length escape.rest.now ≤ length rest.now) }
{
    if kind == b'x' {
        hexadecimal(rest)
    } else if kind == b'"' || kind == b'\\' {
        Some(Escape { byte: kind, rest })
    } else {
        None
    }
}

/// The escape that two hexadecimal digits at the front make, and `None` if they are not a character from 1 to 127.
fn hexadecimal(bytes: &[u8]) -> Option<Escape<'_>>
    ensures text { MatchOption
        result
        (text_from bytes.now High ≡ None)
        (λ escape. text_from bytes.now High ≡ onto escape.byte (text_from escape.rest.now Within)) }
    ensures shorter { IfSome result (λ escape. length escape.rest.now ≤ length bytes.now) }
{
    match bytes {
        [high, low, rest @ ..] => {
            let byte = character(*high, *low)?;
            Some(Escape { byte, rest })
        }
        _ => None,
    }
}

/// The character from 1 to 127 with these two hexadecimal digits in lower case.
fn character(high: u8, low: u8) -> Option<u8>
    ensures { (rest : List ℕ) → text_from (high ∷ low ∷ rest) High ≡ after_turn (text_from rest) (given result) }
{
    match (hex_value(high), hex_value(low)) {
        (Some(high), Some(low)) if high < 8 && 0 < high + low => Some(16 * high + low),
        _ => None,
    }
}

/// The value of a hexadecimal digit in lower case.
fn hex_value(byte: u8) -> Option<u8>
    ensures value { result ≡ hex_value byte }
    ensures small { IfSome result (λ value. value < 16) }
{
    digit_value(byte)
}

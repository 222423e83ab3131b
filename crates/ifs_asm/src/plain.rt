//! Runs of plain bytes. A byte is plain if it needs no escape in quotes.

ghost use Rattle.std.specs.Prelude.{◌≡◌, ◌≤◌, not, IfSome, length, map, nat_lt};
ghost use lib.Lanes.{mask_l};
ghost use Rattle.std.specs.List.{prefix_len};
ghost use Rattle.ifs_asm.specs.Spellings.{is_plain};
ghost use Rattle.ifs_asm.specs.inner.Words.{goes_on};

use memchr::memchr2;
use std::simd::prelude::*;

/// The number of bytes that are compared at once at the front, where most runs end.
const BLOCK: usize = 16;

/// The number of bytes that are compared at once after the front.
const LARGE: usize = 32;

/// The number of bytes before the first quote or backslash.
#[inline(always)]
pub(crate) fn run_in_quotes(bytes: &[u8]) -> usize
    ensures value { result ≡ prefix_len goes_on bytes.now }
    ensures within { result ≤ length bytes.now }
{
    match near_quote::<BLOCK>(bytes) {
        Some(run) => run,
        None => far_run(bytes),
    }
}

/// The same for a run that may be long: compares a large block, and then searches.
#[inline(never)]
fn far_run(bytes: &[u8]) -> usize
    ensures value { result ≡ prefix_len goes_on bytes.now }
    ensures within { result ≤ length bytes.now }
{
    match near_quote::<LARGE>(bytes) {
        Some(run) => run,
        None => memchr2(b'"', b'\\', bytes).unwrap_or(bytes.len()),
    }
}

/// The same if the run ends in the first block, and `None` otherwise.
#[inline(always)]
fn near_quote<const N: usize>(bytes: &[u8]) -> Option<usize>
    requires { N ≤ 64 }
    ensures value { IfSome result (λ run. run ≡ prefix_len goes_on bytes.now) }
    ensures within { IfSome result (λ run. run ≤ length bytes.now) }
{
    let (block, _) = bytes.split_first_chunk::<N>()?;
    let ends = quotes_in(block);
    if ends == 0 {
        None
    } else {
        Some(ends.trailing_zeros() as usize)
    }
}

/// The quotes and backslashes of a block, one bit for each byte.
#[inline(always)]
fn quotes_in<const N: usize>(block: &[u8; N]) -> u64
    requires { N ≤ 64 }
    ensures { result ≡ mask_l (map (λ byte. not (goes_on byte)) block.now) }
{
    let bytes = Simd::from_array(*block);
    let ends = bytes.simd_eq(Simd::splat(b'"')) | bytes.simd_eq(Simd::splat(b'\\'));
    ends.to_bitmask()
}

/// The number of plain bytes at the front of a text.
#[inline(always)]
pub(crate) fn plain_run(bytes: &[u8]) -> usize
    ensures value { result ≡ prefix_len is_plain bytes.now }
    ensures within { result ≤ length bytes.now }
{
    if !begins_plain(bytes) {
        return 0;
    }
    match near_end(bytes) {
        Some(run) => run,
        None => far_plain(bytes),
    }
}

/// The same if the run ends in the first block, and `None` otherwise.
#[inline(always)]
pub(crate) fn near_end(bytes: &[u8]) -> Option<usize>
    ensures value { IfSome result (λ run. run ≡ prefix_len is_plain bytes.now) }
    ensures within { IfSome result (λ run. run ≤ length bytes.now) }
{
    let (block, _) = bytes.split_first_chunk::<BLOCK>()?;
    let ends = others_in(block);
    if ends == 0 {
        None
    } else {
        Some(ends.trailing_zeros() as usize)
    }
}

/// The same for a run that may be long.
#[inline(always)]
pub(crate) fn far_plain(bytes: &[u8]) -> usize
    ensures value { result ≡ prefix_len is_plain bytes.now }
    ensures within { result ≤ length bytes.now }
{
    let mut left = bytes;
    while let Some((block, rest)) = left.split_first_chunk::<LARGE>() {
        let ends = others_in(block);
        if ends != 0 {
            return bytes.len() - left.len() + ends.trailing_zeros() as usize;
        }
        left = rest;
    }
    bytes.len() - left.len() + last_plain(left)
}

/// The same for the few bytes at the end.
fn last_plain(bytes: &[u8]) -> usize
    ensures value { result ≡ prefix_len is_plain bytes.now }
    ensures within { result ≤ length bytes.now }
{
    match near_end(bytes) {
        Some(run) => run,
        None => bytes.iter().take_while(|byte| is_plain(**byte)).count(),
    }
}

/// The bytes of a block that are not plain, one bit for each byte.
#[inline(always)]
fn others_in<const N: usize>(block: &[u8; N]) -> u64
    requires { N ≤ 64 }
    ensures { result ≡ mask_l (map (λ byte. not (is_plain byte)) block.now) }
{
    let bytes = Simd::from_array(*block);
    let ends = bytes.simd_lt(Simd::splat(32))
        | bytes.simd_eq(Simd::splat(127))
        | bytes.simd_eq(Simd::splat(b'"'))
        | bytes.simd_eq(Simd::splat(b'\\'));
    ends.to_bitmask()
}

/// Whether the first byte is plain. Often it is not, since escapes follow one another.
fn begins_plain(bytes: &[u8]) -> bool
    ensures { result ≡ nat_lt 0 (prefix_len is_plain bytes.now) }
{
    match bytes {
        [first, ..] => is_plain(*first),
        [] => false,
    }
}

/// Whether a byte is plain.
fn is_plain(byte: u8) -> bool
    ensures { result ≡ is_plain byte }
{
    byte >= 32 && byte != 127 && byte != b'"' && byte != b'\\'
}

//! Bytes before and after an offset, and the lines at their ends.

ghost use Rattle.std.specs.Prelude.{◌≡◌, take};
ghost use Rattle.std.specs.List.{after_last};
ghost use Rattle.ifs_report.specs.Positions.{is_newline};

/// Returns the bytes before an offset, and those from it on. An offset past the end is the end.
pub(crate) fn split(bytes: &[u8], offset: usize) -> (&[u8], &[u8])
    ensures { result.0.now ≡ take offset bytes.now }
{
    bytes.split_at_checked(offset).unwrap_or((bytes, &[]))
}

/// Returns what follows the last newline, or all bytes if there is none.
pub(crate) fn last_line(bytes: &[u8]) -> &[u8]
    ensures { result.now ≡ after_last is_newline bytes.now }
{
    let mut start = bytes.len();
    while start > 0 && bytes[start - 1] != b'\n' {
        start -= 1;
    }
    &bytes[start..]
}

/// Returns what precedes the first newline, without a carriage return before that newline. Returns all bytes if there is no
/// newline.
pub(crate) fn first_line(bytes: &[u8]) -> &[u8] {
    match bytes.iter().position(|byte| *byte == b'\n') {
        Some(len) => without_return(split(bytes, len).0),
        None => bytes,
    }
}

/// Returns bytes without a carriage return at their end.
pub(crate) fn without_return(bytes: &[u8]) -> &[u8] {
    match bytes {
        [front @ .., b'\r'] => front,
        _ => bytes,
    }
}

/// Returns the first bytes, at most this number.
pub(crate) fn first_bytes(bytes: &[u8], most: usize) -> &[u8] {
    split(bytes, most).0
}

/// Returns the last bytes, at most this number.
pub(crate) fn last_bytes(bytes: &[u8], most: usize) -> &[u8] {
    split(bytes, bytes.len().saturating_sub(most)).1
}

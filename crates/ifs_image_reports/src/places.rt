//! Lines of a text, and parts of them.

ghost use Rattle.std.specs.Prelude.{◌≡◌, ◌==◌, ◌+◌, ◌≤◌, ◌<◌, length, not, drop};
ghost use Rattle.std.specs.List.{prefix_len};
ghost use Rattle.ifs_image_reports.specs.Places.{HasLine, last_line, line_at};
ghost use Rattle.ifs_image_reports.specs.inner.Lines.{IsLine};

use ifs_report::Part;

/// The line of a number, counted from 1, without its newline. If the text has fewer lines, it is the end of the text.
pub(crate) fn line_in(text: &[u8], number: u64) -> Part
    ensures { IsLine text.now number result.start result.end }
{
    let start = start_of(text, number);
    let (_, rest) = text.split_at(start);
    Part {
        start,
        end: start + length_of_line(rest),
    }
}

/// The offset at which a line begins.
fn start_of(text: &[u8], number: u64) -> usize
    ensures inside { result ≤ length text.now }
    ensures begins { HasLine text.now number → line_at text.now result ≡ number }
    ensures after_last { last_line text.now < number → result ≡ length text.now }
{
    let mut line = 1u64;
    for (place, byte) in text.iter().enumerate() {
        if number <= line {
            return place;
        }
        if *byte == b'\n' {
            line += 1;
        }
    }
    text.len()
}

/// The number of bytes before the first newline.
fn length_of_line(bytes: &[u8]) -> usize
    ensures value { result ≡ prefix_len (λ byte. not (byte == 10)) bytes.now }
    ensures inside { result ≤ length bytes.now }
{
    bytes.iter().take_while(|byte| **byte != b'\n').count()
}

/// A part of a line: from one of its bytes up to another. What is outside of the line is cut off.
pub(crate) fn cut(line: Part, from: usize, to: usize) -> Part
    requires { line.start ≤ line.end }
    ensures begins { line.start ≤ result.start }
    ensures forward { result.start ≤ result.end }
    ensures ends { result.end ≤ line.end }
{
    let length = line.end - line.start;
    let from = from.min(length);
    let to = to.min(length).max(from);
    Part {
        start: line.start + from,
        end: line.start + to,
    }
}

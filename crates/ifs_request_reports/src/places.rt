//! Parts of a line.

ghost use Rattle.ifs_request_reports.specs.Places.{LiesWithin};
ghost use Rattle.std.specs.Prelude.{length};

use ifs_report::Part;

/// The part of a line from one offset to another, cut to the line.
pub(crate) fn part_of(line: &[u8], start: usize, end: usize) -> Part
    ensures { LiesWithin (length line.now) result.start result.end }
{
    let end = end.min(line.len());
    Part {
        start: start.min(end),
        end,
    }
}

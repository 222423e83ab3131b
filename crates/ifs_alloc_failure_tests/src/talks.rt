//! Sessions on the image of the first run: their requests, steps and replies.

use crate::allocations::Code;
use crate::readings::readings_after;
use ifs_base::{IfaceId, LinkState};
use ifs_core::Step;
use ifs_session::Served;
use std::alloc::Global;

const UP: Step = Step::Link(IfaceId(0), LinkState::Up);

const DOWN: Step = Step::Link(IfaceId(0), LinkState::Down);

/// The requests of a session.
pub const REQUESTS: &[u8] = b"link carp0 up\nlink carp0 up\ntake\ntake\nstop\n";

/// Its replies, one for each.
pub const REPLIES: &[u8] = b"done \"a\" cost 6 queue 0\nsame\ntaken 0 \"echo m\"\nempty\nbye\n";

/// Its steps: one for each request except `stop`.
pub const STEPS: [Step; 4] = [UP, UP, Step::Take, Step::Take];

/// The requests of a connection.
pub const SERVED: &[u8] = b"link carp0 up\nlink carp0 up\nlink carp0 down\nlink carp0 up\nstop\n";

/// Their replies, one for each.
pub const SERVED_REPLIES: &[u8] =
    b"done \"a\" cost 6 queue 0\nsame\ndone \"a\" cost 6 queue 0\ndone \"a\" cost 6 queue 0\nbye\n";

/// Their steps. If a link changes, its command is taken at once.
pub const SERVED_STEPS: [Step; 7] = [UP, Step::Take, UP, DOWN, Step::Take, UP, Step::Take];

/// How many steps are made after each number of lines.
pub const SERVED_ENDS: [usize; 6] = [0, 2, 3, 5, 7, 7];

/// The first `lines` lines.
pub fn head(text: &[u8], lines: usize) -> &[u8] {
    let mut left = lines;
    for (place, byte) in text.iter().enumerate() {
        if left == 0 {
            return text.get(..place).unwrap_or(text);
        }
        if *byte == b'\n' {
            left = left.saturating_sub(1);
        }
    }
    text
}

/// How many lines are complete.
pub fn lines_of(text: &[u8]) -> usize {
    text.iter().filter(|byte| **byte == b'\n').count()
}

/// The first `count` steps, or all if there are fewer.
pub fn first(steps: &[Step], count: usize) -> &[Step] {
    steps.get(..count).unwrap_or(steps)
}

/// Whether a session was cut off at a write. The output is then a prefix of the replies. The core is as after the steps of some of
/// the lines, at least of those that have a reply.
pub fn is_cut_session(
    alloc: Global,
    image: &[u8],
    reading: &[u8],
    written: &[u8],
) -> Result<bool, Code> {
    let answered = lines_of(written).min(STEPS.len());
    for count in answered..=STEPS.len() {
        let after = readings_after(alloc, image, first(&STEPS, count))?;
        if after.as_slice() == reading {
            return Ok(REPLIES.starts_with(written));
        }
    }
    Ok(false)
}

/// Whether a connection kept its promises. The steps begin those of the lines, the core is as after them, and the output is a
/// prefix of the replies.
pub fn is_served_session(
    alloc: Global,
    image: &[u8],
    served: &Served,
    reading: &[u8],
    written: &[u8],
) -> Result<bool, Code> {
    let steps = served.steps.as_slice();
    let after = readings_after(alloc, image, steps)?;
    Ok(
        SERVED_STEPS.starts_with(steps)
            && after.as_slice() == reading
            && SERVED_REPLIES.starts_with(written),
    )
}

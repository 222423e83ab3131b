//! Where the places of a policy are in its text.

use crate::marks::Mark;
use ifs_policy_text::{Level, Other, Spot, TokenizedPolicy};
use ifs_report::{Part, Place};
use std::alloc::{AllocError, Global};

/// Where something is. If it is within the value of a macro, the use of that in the text is the other place.
#[derive(Clone, Copy)]
pub(crate) struct Where {
    pub place: Place,
    pub used: Option<Place>,
    /// Whether nothing else is there, as if a macro begins before it.
    pub is_exact: bool,
}

/// Where a mark is: from its first token to its last one. A mark that begins in a macro and ends outside of it is from the
/// use of the macro on.
pub(crate) fn where_is(
    alloc: Global,
    text: &TokenizedPolicy<'_>,
    mark: Mark,
) -> Result<Where, AllocError> {
    let first = text.spot(alloc, mark.first)?;
    let last = text.spot(alloc, mark.last)?;
    let (begin, end) = (in_text(first), in_text(last));
    if begin != end || first.other.is_none() || is_whole(text, first, mark.last) {
        return Ok(Where {
            place: from_to(begin, end),
            used: None,
            is_exact: begins_use(first) && text.ends_use(mark.last),
        });
    }
    let first = text.levels(alloc, mark.first)?;
    let last = text.levels(alloc, mark.last)?;
    Ok(where_within(first.as_slice(), last.as_slice(), begin))
}

/// Where a mark is that does not leave a use of a macro, by the levels of its first and its last token: in the innermost value that
/// brings both.
fn where_within(first: &[Level], last: &[Level], used: Place) -> Where {
    let depth = common_depth(first, last);
    let (begin, end) = (level_at(first, depth), level_at(last, depth));
    match (begin, end) {
        (Some(begin), Some(end)) => Where {
            place: from_to(begin.place, end.place),
            used: Some(used),
            is_exact: begin.begins && end.ends,
        },
        _ => Where {
            place: used,
            used: None,
            is_exact: false,
        },
    }
}

/// At how many levels two tokens are brought by one lexeme.
fn common_depth(first: &[Level], last: &[Level]) -> usize {
    let mut depth = 0usize;
    for (begin, end) in first.iter().zip(last) {
        if begin.place != end.place {
            break;
        }
        depth = depth.saturating_add(1);
    }
    depth
}

/// The level at a depth, or else the innermost one.
fn level_at(levels: &[Level], depth: usize) -> Option<&Level> {
    levels.get(depth).or(levels.last())
}

/// Whether a token is the first one of a use of a macro, or none of a use.
fn begins_use(first: Spot) -> bool {
    !matches!(first.other, Some(Other::Use(_)))
}

/// Whether a use of a macro has no other tokens than those from one place to this one.
fn is_whole(text: &TokenizedPolicy<'_>, first: Spot, last: usize) -> bool {
    matches!(first.other, Some(Other::Value(_))) && text.ends_use(last)
}

/// The place of a token, or of the use of the macro that brought it there.
fn in_text(spot: Spot) -> Place {
    match spot.other {
        Some(Other::Use(used)) => used,
        _ => spot.place,
    }
}

/// From the start of a place to the end of another one, if both are in the same text.
fn from_to(begin: Place, end: Place) -> Place {
    match (begin, end) {
        (Place::Text(first), Place::Text(last)) => Place::Text(joined(first, last)),
        (Place::Definition(number, first), Place::Definition(other, last)) if number == other => {
            Place::Definition(number, joined(first, last))
        }
        _ => begin,
    }
}

/// From the start of a part to the end of a later one.
fn joined(first: Part, last: Part) -> Part {
    Part {
        start: first.start,
        end: last.end.max(first.end),
    }
}

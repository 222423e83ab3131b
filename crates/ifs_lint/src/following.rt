//! Which findings on places follow from others, so that one slip is one warning.

use crate::marks::{Kind, Mark};
use crate::reasons::Reason;
use ifs_solver::Answer;
use std::alloc::{AllocError, Global};

/// The most causes that a message names beside the operand that they exclude.
const MOST_CAUSES: usize = 3;

/// The reasons of all findings on places.
pub(crate) struct Slips<'a> {
    reasons: &'a [Reason],
    places: &'a [Mark],
    /// For each reason, whether its condition only repeats one that leads there.
    repeats: Vec<bool>,
    /// For each place the number of its reason, if it has one.
    numbers: Vec<Option<usize>>,
    /// For each reason, the number of the outermost one on a condition that it is in.
    around: Vec<Option<usize>>,
}

impl Drop for Slips<'_> {
    fn drop(self) {
        let Slips {
            reasons: _reasons,
            places: _places,
            repeats: _repeats,
            numbers: _numbers,
            around: _around,
        } = self;
    }
}

impl<'a> Slips<'a> {
    /// Reasons, at places that have these marks, and whether each only repeats a condition. Returns an error if an allocation fails.
    pub fn of(
        alloc: Global,
        reasons: &'a [Reason],
        places: &'a [Mark],
        repeats: Vec<bool>,
    ) -> Result<Slips<'a>, AllocError> {
        let mut numbers = vec![in alloc; None; places.len()]?;
        for (number, reason) in reasons.iter().enumerate() {
            if let Some(entry) = numbers.get_mut(reason.place) {
                *entry = Some(number);
            }
        }
        Ok(Slips {
            reasons,
            places,
            repeats,
            numbers,
            around: around_each(alloc, reasons, places)?,
        })
    }

    /// The number of the reason at a place.
    pub fn number(&self, place: usize) -> Option<usize> {
        *self.numbers.get(place)?
    }

    /// The reason with a number.
    pub fn reason(&self, number: usize) -> Option<&'a Reason> {
        self.reasons.get(number)
    }

    /// Whether the finding with a number is a note: it only repeats a condition, or it follows from a warning. An action does that
    /// needs what is never true, and so does an operand of a condition that has a finding, if nothing else makes it so.
    pub fn is_note(&self, number: usize) -> bool {
        let Some(reason) = self.reason(number) else {
            return false;
        };
        let follows = match reason.answer {
            Answer::Unreached => self.needs_never(reason),
            Answer::Never | Answer::Always => match self.outer(number) {
                Some(outer) => self.is_from(reason, outer),
                None => false,
            },
            _ => false,
        };
        follows || self.repeats(number)
    }

    /// Whether the condition of a reason only repeats one that leads there.
    fn repeats(&self, number: usize) -> bool {
        self.repeats.get(number).copied().unwrap_or(false)
    }

    /// The number of the first finding on an operand that shows why a condition is never or always true whatever leads there.
    pub fn shown_by(&self, number: usize) -> Option<usize> {
        let reason = self.reason(number)?;
        if !reason.causes.is_empty() {
            return None;
        }
        let behind = number.saturating_add(1);
        for (index, other) in self.reasons.get(behind..)?.iter().enumerate() {
            if !is_within(self.places, other.place, reason.place) {
                return None;
            }
            if self.shows(reason, other) {
                return Some(behind.saturating_add(index));
            }
        }
        None
    }

    /// Whether a finding on an operand shows why that on its condition is so: some operands before it exclude it, or one of them or it
    /// always holds.
    fn shows(&self, reason: &Reason, other: &Reason) -> bool {
        let holds = match reason.answer {
            Answer::Never => true,
            Answer::Always => false,
            _ => return false,
        };
        let causes = other.causes.as_slice();
        let count = causes.len();
        other.answer == reason.answer
            && (1..=MOST_CAUSES).contains(&count)
            && causes.iter().all(|cause| cause.holds == holds
                && is_within(self.places, cause.place, reason.place))
    }

    /// The reason of the warning on the outermost condition around that with a number.
    fn outer(&self, number: usize) -> Option<&'a Reason> {
        let outer = (*self.around.get(number)?)?;
        if self.repeats(outer) {
            return None;
        }
        self.reason(outer)
    }

    /// Whether an action needs a condition that is never true by a warning.
    fn needs_never(&self, reason: &Reason) -> bool {
        for cause in &reason.causes {
            if cause.holds && self.is_never(cause.place) {
                return true;
            }
        }
        false
    }

    /// Whether a condition is never true, and does not only repeat one that leads there.
    fn is_never(&self, place: usize) -> bool {
        match self.numbers.get(place) {
            Some(Some(number)) if !self.repeats(*number) => self
                .reason(*number)
                .is_some_and(|reason| reason.answer == Answer::Never),
            _ => false,
        }
    }

    /// Whether each cause of a finding on an operand is an operand of its condition, or a cause of the finding on that.
    fn is_from(&self, reason: &Reason, outer: &Reason) -> bool {
        reason.causes.iter().all(|cause| {
            is_within(self.places, cause.place, outer.place) || outer.causes.contains(cause)
        })
    }
}

/// For each reason, the number of the outermost one on a condition that it is in.
fn around_each(
    alloc: Global,
    reasons: &[Reason],
    places: &[Mark],
) -> Result<Vec<Option<usize>>, AllocError> {
    let mut around = Vec::new(alloc);
    let mut outer = 0usize;
    for (number, reason) in reasons.iter().enumerate() {
        let inside = match reasons.get(outer) {
            Some(other) => is_within(places, reason.place, other.place),
            None => false,
        };
        if inside {
            around.push(Some(outer))?;
        } else {
            around.push(None)?;
            outer = number;
        }
    }
    Ok(around)
}

/// Whether a place lies within the condition at another one.
fn is_within(places: &[Mark], inner: usize, outer: usize) -> bool {
    match (places.get(inner), places.get(outer)) {
        (Some(inner_mark), Some(outer_mark)) => {
            inner > outer && outer_mark.kind == Kind::Test && inner_mark.last <= outer_mark.last
        }
        _ => false,
    }
}

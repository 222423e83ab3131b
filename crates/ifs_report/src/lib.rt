//! Reports on a file: what is wrong with it, where, and what would mend it. A reader gets lines with carets, a program JSON.
//!
//! Contract: the line and the column of each offset. Both texts are made safely, whatever a report says: a part outside of
//! its text is cut to the text. What they print is tested, not proved.
#![tactic(auto)]

mod cells;
mod draft;
mod excerpts;
mod lines;
mod nearest;
mod objects;
mod page;
mod places;
mod reports;
mod showing;
mod spots;
mod window;

pub use draft::Draft;
pub use nearest::is_near;
pub use objects::{json, json_with_requests};
pub use places::position;
pub use reports::{Label, Part, Place, Position, Report, Severity, Source};
pub use showing::{shown, shown_line};

//! The status of a daemon: in words, as JSON, for Nagios and for Prometheus. Times are shown as a clock on the wall shows them, in
//! the time zone of the system.
//!
//! Contract: the status for Nagios; the date and the time of day of a second, by the rules of the zone. The texts are tested, not
//! proved.
#![tactic(auto)]

mod ages;
mod answering;
mod changes;
mod clock;
mod nagios;
mod prometheus;
mod service;
mod spans;
mod staleness;
mod texts;
mod words;
mod zone;

pub use ages::clock_at;
pub use answering::{Answer, Query, answer_to};
pub use clock::{Clock, ClockTime};
pub use nagios::unknown;
pub use service::Service;
pub use zone::Zone;

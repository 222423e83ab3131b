//! The status of a daemon as a service.

ghost use Rattle.std.specs.Prelude.{◌≡◌};
ghost use Rattle.ifs_status.specs.Services.{service};

use crate::staleness::Staleness;

/// A status for Nagios.
#[derive(Clone, Copy)]
pub enum Service {
    Good,
    Warning,
    Critical,
    Unknown,
}

impl Service {
    /// The exit status.
    pub fn status(self) -> u8 {
        match self {
            Service::Good => 0,
            Service::Warning => 1,
            Service::Critical => 2,
            Service::Unknown => 3,
        }
    }

    /// The word of Nagios.
    pub(crate) fn word(self) -> &'static str {
        match self {
            Service::Good => "OK",
            Service::Warning => "WARNING",
            Service::Critical => "CRITICAL",
            Service::Unknown => "UNKNOWN",
        }
    }
}

/// The status of a daemon by its staleness, and whether a state that is asked about is missing in its image. The daemon's state is
/// a warning, or it is critical, or neither.
pub(crate) fn service_of(
    staleness: Staleness,
    is_missing: bool,
    is_warning: bool,
    is_critical: bool,
) -> Service
    ensures { result ≡ service is_missing staleness.written staleness.tick is_warning is_critical }
{
    if is_missing || staleness.is_stale() {
        Service::Unknown
    } else if is_critical {
        Service::Critical
    } else if is_warning {
        Service::Warning
    } else {
        Service::Good
    }
}

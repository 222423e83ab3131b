//! Links that are reported again and again: most of their steps are left out, so that others stay in sight.

use ifs_base::IfaceId;
use ifs_core::Step;
use ifs_session::TraceLine;

/// The most interfaces of an image.
const INTERFACES: usize = 64;

/// So many first and last reports of a link are never left out.
const SHOWN: u16 = 4;

/// How often each link is reported, and was so far.
pub(crate) struct Flaps {
    totals: [u16; INTERFACES],
    seen: [u16; INTERFACES],
    /// Whether the last step that is no taking of a command was left out.
    is_left_out: bool,
}

impl Drop for Flaps {
    fn drop(self) {
        let Flaps {
            totals: _totals,
            seen: _seen,
            is_left_out: _is_left_out,
        } = self;
    }
}

/// What becomes of a step.
#[derive(Clone, Copy)]
pub(crate) enum Flap {
    /// It is shown.
    Shown,
    /// It is the first that is left out of so many reports of an interface.
    First(IfaceId, u16),
    /// It is left out too.
    Further,
}

impl Flaps {
    /// Counts the reports of each link among these steps.
    pub(crate) fn of(steps: &[TraceLine<'_>]) -> Flaps {
        let mut totals = [0; INTERFACES];
        for line in steps {
            if let Step::Link(interface, _) = line.step {
                count(&mut totals, interface);
            }
        }
        Flaps {
            totals,
            seen: [0; INTERFACES],
            is_left_out: false,
        }
    }

    /// What becomes of the next step. The taking of a command goes with the step before.
    pub(crate) fn next(&mut self, step: Step) -> Flap {
        let flap = match step {
            Step::Take if self.is_left_out => Flap::Further,
            Step::Link(interface, _) => self.next_report(interface),
            Step::Take | Step::Tick(_) | Step::Finished(..) => Flap::Shown,
        };
        self.is_left_out = !matches!(flap, Flap::Shown);
        flap
    }

    /// What becomes of the next report of a link.
    fn next_report(&mut self, interface: IfaceId) -> Flap {
        let seen = count(&mut self.seen, interface);
        let total = match self.totals.get(usize::from(interface.0)) {
            Some(total) => *total,
            None => 0,
        };
        if seen <= SHOWN || seen > total.saturating_sub(SHOWN) {
            Flap::Shown
        } else if seen == SHOWN + 1 {
            Flap::First(interface, total)
        } else {
            Flap::Further
        }
    }
}

/// Counts one more report of an interface, and returns how many there are.
fn count(reports: &mut [u16; INTERFACES], interface: IfaceId) -> u16 {
    match reports.get_mut(usize::from(interface.0)) {
        Some(reports) => {
            *reports = reports.saturating_add(1);
            *reports
        }
        None => 0,
    }
}

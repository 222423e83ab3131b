//! Findings, and how many questions were asked.

ghost use Rattle.std.specs.Prelude.{◌≡◌, [], count_by};
ghost use Rattle.ifs_lint.specs.Clean.{is_clean, is_defect};

use ifs_base::StateId;
use ifs_report::{Report, Severity};
use std::alloc::Global;

/// What is said of one place, state or round of a policy.
pub struct Finding {
    /// A warning on a defect, or a note. Its code is the kind of the finding.
    pub report: Report,
    /// The number of the place or of the state that it is on, in the order of `judge_places` or of the states. None for other findings.
    pub number: Option<usize>,
    /// The states of a round, each with the one after it, and the last one with the first. There are none for other findings.
    pub states: Vec<StateId>,
    /// The request lines of a round. There are none for other findings.
    pub requests: String,
}

impl Drop for Finding {
    fn drop(self) {
        let Finding {
            report: _report,
            number: _number,
            states: _states,
            requests: _requests,
        } = self;
    }
}

impl Finding {
    /// A finding that is on no round, but maybe on the place or the state of a number.
    pub(crate) fn plain(alloc: Global, report: Report, number: Option<usize>) -> Finding
        ensures report { result.report ≡ report }
        ensures number { result.number ≡ number }
        ensures states { result.states.items ≡ [] }
    {
        Finding {
            report,
            number,
            states: Vec::new(alloc),
            requests: String::new(alloc),
        }
    }

    /// Whether it is a defect. A note is none.
    fn is_defect(&self) -> bool
        ensures { result ≡ is_defect self.now }
    {
        match self.report.severity {
            Severity::Error | Severity::Warning => true,
            Severity::Note => false,
        }
    }
}

/// What is said of all places, of all states, or of rounds.
#[derive(Drop)]
pub struct Said {
    pub findings: Vec<Finding>,
    /// How many questions were asked.
    pub asked: usize,
    /// How many of them are not decided.
    pub undecided: usize,
}

impl Said {
    /// Whether all is decided, and no finding is a defect.
    pub fn is_clean(&self) -> bool
        ensures { result ≡ is_clean self.now }
    {
        count_defects(self.findings.as_slice()) == 0 && self.undecided == 0
    }
}

/// How many findings are defects.
fn count_defects(findings: &[Finding]) -> usize
    ensures { result ≡ count_by is_defect findings.now }
{
    let mut count = 0;
    for finding in findings {
        count += usize::from(finding.is_defect());
    }
    count
}

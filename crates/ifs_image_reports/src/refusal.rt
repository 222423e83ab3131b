//! Reports of refusals.

ghost use Rattle.std.specs.Prelude.{◌≡◌};

use ifs_report::{Place, Report, Severity};
use std::alloc::Global;

/// The report of a refusal, without other places, without what could be there, and without a hint.
pub(crate) fn refusal(
    alloc: Global,
    code: &'static str,
    message: String,
    rule: &'static str,
) -> Report
    ensures error { result.severity ≡ Severity.Error }
    ensures code { result.code.now ≡ code.now }
    ensures place { result.place ≡ Place.File }
{
    let mut report = Report::new(alloc, Severity::Error, code, Place::File, message);
    report.rule = rule;
    report
}

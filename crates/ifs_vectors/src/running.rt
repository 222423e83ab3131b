//! The cases of a file, in turn.

use crate::cases::{CASE, Case, cases_named};
use crate::comparing::{Trial, hexadecimal};
use crate::given::{Given, Kind, given_of};
use crate::images::is_image;
use crate::policies::{is_assembly, is_policy};
use crate::rules::check_sections;
use anyhow::{Result, ensure};
use std::io;

/// How many cases there are, and how many fail.
#[derive(Clone, Copy, Default)]
pub struct Tally {
    pub cases: u32,
    pub failed: u32,
}

impl Tally {
    /// The sum of both.
    pub fn and(self, other: Tally) -> Tally {
        Tally {
            cases: self.cases.saturating_add(other.cases),
            failed: self.failed.saturating_add(other.failed),
        }
    }
}

/// Runs the cases of a file's text, and prints what fails.
pub fn run_cases(rt: &HostRuntime, file: &str, text: &str) -> Result<Tally> {
    let mut tally = Tally::default();
    for piece in text.split(CASE).skip(1) {
        let case = Case::new(piece);
        tally = tally.and(run_case(Trial { rt, file, case }, text)?);
    }
    Ok(tally)
}

fn run_case(trial: Trial<'_>, text: &str) -> io::Result<Tally> {
    let is_good = match is_case(trial, text) {
        Ok(is_good) => is_good,
        Err(error) => {
            println!(trial.rt; "{}: {}: {error}", trial.file, trial.case.name)?;
            false
        }
    };
    Ok(Tally {
        cases: 1,
        failed: u32::from(!is_good),
    })
}

/// Whether a case of a file's text is as expected.
fn is_case(trial: Trial<'_>, text: &str) -> Result<bool> {
    ensure!(
        cases_named(text, trial.case.name) == 1,
        "the name appears twice"
    );
    let given = given_of(trial.alloc(), text, trial.case)?;
    is_given(trial, &given)
}

/// Whether a given text is as expected.
fn is_given(trial: Trial<'_>, given: &Given) -> Result<bool> {
    check_sections(trial.case, given.kind)?;
    match given.kind {
        Kind::Policy => is_policy(trial, given),
        Kind::Assembly => is_assembly(trial, given),
        Kind::Image => is_bytes(trial, given),
    }
}

/// Whether bytes that are given in hexadecimal digits are as expected.
fn is_bytes(trial: Trial<'_>, given: &Given) -> Result<bool> {
    let image = hexadecimal(trial.alloc(), given.text.as_slice())?;
    is_image(trial, image.as_slice())
}

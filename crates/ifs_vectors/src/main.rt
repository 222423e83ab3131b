//! Runs the worked cases of `data/` over the libraries, and tries the verifier on changed bytes. `data/README.md` describes the
//! files, and says what holds for each case.
//!
//! It prints a line with the number of cases for each file, and then a line for each image whose bytes it changes. Before these
//! lines it names each case that fails and each wrong answer. If there is one, the exit status is 1.
#![tactic(auto)]

mod cases;
mod changes;
mod comparing;
mod escapes;
mod fault;
mod given;
mod hostile;
mod images;
mod mismatch;
mod policies;
mod repeating;
mod rules;
mod running;
mod sessions;
mod slow;
mod steps;
mod verdict;

use anyhow::{Result, ensure};
use running::Tally;
use std::fs;

/// The files, in the order in which they are run.
const FILES: [&str; 13] = [
    "policies.txt",
    "refused_policies.txt",
    "compiled_policies.txt",
    "shared_conditions.txt",
    "limits_of_policies.txt",
    "pictures.txt",
    "sessions.txt",
    "version_two.txt",
    "refused_images.txt",
    "assembly.txt",
    "limits_of_images.txt",
    "order_of_checks.txt",
    "limits_of_checks.txt",
];

fn main(rt: HostRuntime) -> Result<()> {
    let total = run(&rt)?;
    ensure!(total.failed == 0, "{} cases failed", total.failed);
    let wrong = hostile::try_images(&rt)?;
    ensure!(wrong == 0, "{wrong} wrong answers");
    Ok(())
}

fn run(rt: &HostRuntime) -> Result<Tally> {
    let mut total = Tally::default();
    for file in FILES {
        total = total.and(run_file(rt, file)?);
    }
    println!(rt; "all: {} cases", total.cases)?;
    Ok(total)
}

fn run_file(rt: &HostRuntime, file: &str) -> Result<Tally> {
    let text = fs::read_to_string(rt, file)?;
    let tally = running::run_cases(rt, file, text.as_str())?;
    println!(rt; "{file}: {} cases", tally.cases)?;
    Ok(tally)
}

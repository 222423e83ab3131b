//! Names of external tests.

use ifs_policy::{ExternalTest, Table};

/// The period in seconds of the test with an index, if another test has the same command. Then only both together name it.
pub fn telling_period(tests: &Table<ExternalTest>, index: usize) -> Option<u32> {
    let test = tests.get(index)?;
    for other in 0..tests.len() {
        if other != index && has_command(tests, other, test) {
            return Some(test.period.seconds());
        }
    }
    None
}

/// Whether the test with an index has the command of another one.
fn has_command(tests: &Table<ExternalTest>, index: usize, test: &ExternalTest) -> bool {
    match tests.get(index) {
        Some(other) => other.command.as_str() == test.command.as_str(),
        None => false,
    }
}

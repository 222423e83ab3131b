//! Runs of tests that have not ended.

ghost use Rattle.std.specs.Prelude.{◌≡◌, ◌<◌, Contains, IfSome, length, slice_index_or};
ghost use Rattle.ifs_sched.specs.declared.start.Start.{Start as StartOfRun};

use ifs_base::TestId;
use ifs_sched::Start;

/// Ends the first run of a test among those that have not ended, and returns its number. None if the test does not run.
pub fn end_run(runs: &mut Vec<Start>, test: TestId) -> Option<u64>
    ensures { IfSome result (λ run. Contains runs.old.items (record { test = test; run = run })) }
{
    let place = place_of(runs.as_slice(), test)?;
    let start = runs.remove(place);
    Some(start.run)
}

/// Whether a test runs.
pub fn is_running(runs: &[Start], test: TestId) -> bool {
    place_of(runs, test).is_some()
}

/// Where the first run of a test is.
fn place_of(runs: &[Start], test: TestId) -> Option<usize>
    ensures within { IfSome result (λ place. place < length runs.now) }
    ensures test { IfSome result (λ place. (d : StartOfRun) → (slice_index_or runs.now place d).test ≡ test) }
{
    for place in 0..runs.len() {
        if runs[place].test.0 == test.0 {
            return Some(place);
        }
    }
    None
}

//! The entries of the idle tests, ordered by due moment and then by index.

ghost use Rattle.std.specs.Prelude.{◌≡◌, ◌≢◌, ◌<◌, ◌≤◌, ◌↔◌, ◌+◌, ◌⊎◌, ℕ, All, IsTrue, false, drop, length, nat_le, ◌==◌};
ghost use Rattle.std.specs.List.{AllPairs, Contains, list_any, prefix_len};
ghost use Rattle.ifs_base.specs.declared.ids.TestId.{TestId};
ghost use Rattle.ifs_sched.specs.Schedule.{has_test as is_in_mask};
ghost use Rattle.ifs_sched.specs.Idle.{AreIdle, comes_before as is_before};

use crate::start::MAX_TESTS;
use crate::timer::{Status, Timer};
use arrayvec::ArrayVec;
use ifs_base::TestId;

/// Whether an entry comes before another: at an earlier moment, or at the same one with a lower index.
fn comes_before(one: &(u64, TestId), other: &(u64, TestId)) -> bool
    ensures { result ≡ is_before one.now other.now }
{
    one.0 < other.0 || one.0 == other.0 && one.1.0 < other.1.0
}

/// The place of an entry among others: after those that come before it.
fn place_of(entries: &[(u64, TestId)], entry: &(u64, TestId)) -> usize
    ensures value { result ≡ prefix_len (λ other. is_before other entry.now) entries.now }
    ensures within { result ≤ length entries.now }
{
    for (place, other) in entries.iter().enumerate() {
        if !comes_before(other, entry) {
            return place;
        }
    }
    entries.len()
}

/// Puts the entry of a test that has none in its place.
pub fn put(entries: &mut ArrayVec<(u64, TestId), MAX_TESTS>, due: u64, test: TestId)
    requires room { length entries.old.items < MAX_TESTS }
    requires ascending { AllPairs (λ one other. IsTrue (is_before one other)) entries.old.items }
    requires other { All (λ entry. entry.1.0 ≢ test.0) entries.old.items }
    ensures ascending { AllPairs (λ one other. IsTrue (is_before one other)) entries.new.items }
    ensures added { (entry : ℕ × TestId) → Contains entries.new.items entry
        ↔ ((entry ≡ (due, test)) ⊎ Contains entries.old.items entry) }
    ensures one_more { length entries.new.items ≡ length entries.old.items + 1 }
{
    let entry = (due, test);
    let place = place_of(entries.as_slice(), &entry);
    entries.insert(place, entry);
}

/// Makes the entries of the idle tests again, in order.
pub fn put_all(tests: &[Timer], entries: &mut ArrayVec<(u64, TestId), MAX_TESTS>)
    requires { length tests.now ≤ MAX_TESTS }
    ensures { AreIdle tests.now entries.new.items }
{
    entries.clear();
    for (index, timer) in tests.iter().enumerate() {
        if let Status::Idle { due } = timer.status {
            put(entries, due, TestId(index as u16));
        }
    }
}

/// The number of entries that are due at a moment; they are at the front.
pub fn due_count(entries: &[(u64, TestId)], now: u64) -> usize
    ensures value { result ≡ prefix_len (λ entry. nat_le entry.0 now) entries.now }
    ensures within { result ≤ length entries.now }
{
    for (count, entry) in entries.iter().enumerate() {
        if entry.0 > now {
            return count;
        }
    }
    entries.len()
}

/// The tests of some entries as a mask.
pub fn set_of(entries: &[(u64, TestId)]) -> u64
    requires { All (λ entry. entry.1.0 < MAX_TESTS) entries.now }
    ensures { (test : ℕ) → test < MAX_TESTS
        → is_in_mask result test ≡ list_any (λ entry. entry.1.0 == test) entries.now }
{
    let mut mask = 0;
    for (_, test) in entries {
        mask |= 1 << test.0;
    }
    mask
}

/// Drops `count` entries at the front.
fn drop_front(entries: &mut ArrayVec<(u64, TestId), MAX_TESTS>, count: usize)
    requires { count ≤ length entries.old.items }
    ensures { entries.new.items ≡ drop count entries.old.items }
{
    let left = entries.len() - count;
    entries.as_mut_slice().rotate_left(count);
    entries.truncate(left);
}

/// Updates the entries after a tick: the `count` entries at the front were due and run, unless one of them was left.
pub fn settle(
    entries: &mut ArrayVec<(u64, TestId), MAX_TESTS>,
    tests: &[Timer],
    count: usize,
    exhausted: bool,
)
    requires tests { length tests.now ≤ MAX_TESTS }
    requires within { count ≤ length entries.old.items }
    ensures left { IsTrue exhausted → AreIdle tests.now entries.new.items }
    ensures started { exhausted ≡ false → entries.new.items ≡ drop count entries.old.items }
{
    if exhausted {
        put_all(tests, entries);
    } else {
        drop_front(entries, count);
    }
}

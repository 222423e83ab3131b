//! The parts of two blocks between what is the same at the front and at the back.

ghost use Rattle.std.specs.Prelude.{◌≡◌, ◌≤◌, ◌-◌, drop, length, take};
ghost use Rattle.ifs_compare.specs.inner.Middles.{AreMiddles};

use crate::identity::same_statement;
use ifs_solver::PolicyStatement;

/// Parts of two lists of statements.
#[derive(Clone, Copy)]
pub(crate) struct Middles<'a> {
    pub old: &'a [PolicyStatement],
    pub new: &'a [PolicyStatement],
}

/// How many statements are the same at the front.
fn same_front(one: &[PolicyStatement], other: &[PolicyStatement]) -> usize
    ensures same { take result one.now ≡ take result other.now }
    ensures within { result ≤ length one.now }
    ensures also { result ≤ length other.now }
{
    let most = one.len().min(other.len());
    for index in 0..most {
        if !same_statement(&one[index], &other[index]) {
            return index;
        }
    }
    most
}

/// How many statements are the same at the back.
fn same_back(one: &[PolicyStatement], other: &[PolicyStatement]) -> usize
    ensures same { drop (length one.now - result) one.now ≡ drop (length other.now - result) other.now }
    ensures within { result ≤ length one.now }
    ensures also { result ≤ length other.now }
{
    let most = one.len().min(other.len());
    for index in 0..most {
        if !same_statement(&one[one.len() - 1 - index], &other[other.len() - 1 - index]) {
            return index;
        }
    }
    most
}

/// The statements between what is the same at the front and at the back. Where they reach the same, so do the lists.
pub(crate) fn middles_of<'a>(
    one: &'a [PolicyStatement],
    other: &'a [PolicyStatement],
) -> Middles<'a>
    ensures { AreMiddles one.now other.now result.old.now result.new.now }
{
    let front = same_front(one, other);
    behind(&one[front..], &other[front..])
}

/// The same behind the front.
fn behind<'a>(one: &'a [PolicyStatement], other: &'a [PolicyStatement]) -> Middles<'a>
    ensures { AreMiddles one.now other.now result.old.now result.new.now }
{
    let back = same_back(one, other);
    Middles {
        old: &one[..one.len() - back],
        new: &other[..other.len() - back],
    }
}

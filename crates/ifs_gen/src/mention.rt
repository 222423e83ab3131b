//! The tests that a body mentions.

ghost use Rattle.std.specs.Prelude.{◌≡◌, ◌<◌, ◌≤◌, ◌^◌, ◌++◌, true, false, replicate, slice_set, IfOk, OnOk};
ghost use Rattle.ifs_policy.specs.Meaning.{mentioned, mentioned_here};
ghost use Rattle.ifs_gen.specs.inner.Marks.{with_marks, test_where};
ghost use Rattle.ifs_gen.specs.PlainCode.{holding};

use ifs_base::{TestId, limits};
use ifs_policy::{PolicyBlock, Single, SingleVisitor, visit_block};
use std::alloc::{AllocError, Global};

/// The number of marks: one for each test that a policy may have.
const MARKS: usize = limits::TESTS as usize;

/// Marks of tests, by index.
#[derive(Clone, Copy)]
struct Marks {
    are_set: [bool; MARKS],
}

impl SingleVisitor for Marks {
    ghost after = { λ marks single. record { are_set = with_marks marks.are_set (mentioned_here single) } };

    fn visit(&mut self, single: Single) {
        if let Single::TestIs(test) = single {
            mark(test, &mut self.are_set);
        }
    }
}

/// The tests that a body mentions at any depth, by index. The policy has `count` tests.
pub(crate) fn tests_of(
    alloc: Global,
    body: &PolicyBlock,
    count: usize,
) -> Result<Vec<TestId>, AllocError>
    requires { count ≤ 64 }
    ensures { IfOk result (λ tests. tests.items ≡ holding count body.now) }
{
    let marks = marks_of(body);
    let mut tests = Vec::new(alloc);
    for index in 0..count {
        put_test(index, marks[index], &mut tests)?;
    }
    Ok(tests)
}

/// The marks of the tests that a body mentions.
fn marks_of(body: &PolicyBlock) -> [bool; MARKS]
    ensures { result ≡ with_marks (replicate 64 false) (mentioned body.now) }
{
    let mut marks = Marks {
        are_set: [false; MARKS],
    };
    visit_block(&mut marks, body);
    marks.are_set
}

/// Appends a test if it is marked.
fn put_test(index: usize, is_marked: bool, tests: &mut Vec<TestId>) -> Result<(), AllocError>
    requires { index < 2 ^ 16 }
    ensures { OnOk result (tests.new.items ≡ tests.old.items ++ test_where is_marked index) }
{
    if is_marked {
        tests.push(TestId(index as u16))?;
    }
    Ok(())
}

/// Marks a test, if it has a place.
fn mark(test: TestId, marks: &mut [bool])
    ensures { marks.new ≡ slice_set marks.old test.0 true }
{
    let index = usize::from(test.0);
    if index < marks.len() {
        marks[index] = true;
    }
}

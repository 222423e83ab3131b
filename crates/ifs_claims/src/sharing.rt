//! Tests that bodies share.

ghost use Rattle.std.specs.Prelude.{◌≡◌, ◌||◌, not, true};
ghost use Rattle.ifs_policy.specs.Visits.{has_test};
ghost use Rattle.ifs_claims.specs.Asked.{any_test, is_unshared, shares, untested};

use ifs_policy::{PolicyBlock, Single, SingleVisitor, mentions, visit_block};

/// A search for an external test.
#[derive(Clone, Copy)]
struct AnyTest {
    is_found: bool,
}

impl SingleVisitor for AnyTest {
    ghost after = { λ s single. record { is_found = s.is_found || has_test any_test single } };

    fn visit(&mut self, single: Single) {
        if let Single::TestIs(_) = single {
            self.is_found = true;
        }
    }
}

/// A search for an external test that a block does not ask for.
#[derive(Clone, Copy)]
struct Unshared<'a> {
    always: &'a PolicyBlock,
    is_found: bool,
}

impl<'a> SingleVisitor for Unshared<'a> {
    ghost after = { λ s single. record { always = s.always; is_found = s.is_found || has_test (is_unshared s.always.now) single } };

    fn visit(&mut self, single: Single) {
        let is_unshared = is_unshared(single, self.always);
        self.is_found = self.is_found || is_unshared;
    }
}

/// Whether a single test is an external one that a block does not ask for.
fn is_unshared(single: Single, always: &PolicyBlock) -> bool
    ensures { result ≡ has_test (is_unshared always.now) single }
{
    match single {
        Single::LinkIs(_, _) => false,
        Single::TestIs(test) => !mentions(test, always),
    }
}

/// Whether a block asks for no external test.
pub fn is_untested(block: &PolicyBlock) -> bool
    ensures { result ≡ untested block.now }
{
    let mut search = AnyTest { is_found: false };
    visit_block(&mut search, block);
    !search.is_found
}

/// Whether a block asks for no external test but those that another block asks for too.
pub(crate) fn shares(block: &PolicyBlock, always: &PolicyBlock) -> bool
    ensures { result ≡ shares always.now block.now }
{
    let mut search = Unshared {
        always,
        is_found: false,
    };
    visit_block(&mut search, block);
    !search.is_found
}

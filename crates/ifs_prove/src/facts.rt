//! What is true under the facts of a core.

ghost use Rattle.std.specs.Prelude.{◌≡◌, ◌||◌, ◌&&◌, not, slice_get};
ghost use Rattle.ifs_base.specs.Facts.{is_link};
ghost use Rattle.ifs_claims.specs.Moves.{seen};
ghost use Rattle.ifs_policy.specs.Meaning.{has_a_value, has_true, holds, is_held, link_is, truth};
ghost use Rattle.ifs_policy.specs.Meaning.{is_open};
ghost use Rattle.ifs_prove.specs.Claiming.{guard_in};
ghost use Rattle.ifs_solver.specs.Asking.{is_met, lacks_value};
ghost use Rattle.ifs_policy.specs.Visits.{has_test};
ghost use Rattle.ifs_prove.specs.inner.Facts.{decides, joined_truth, link_over, value_over};

use ifs_base::{IfaceId, LinkState, TestId};
use ifs_claim_parse::{Premise, Values};
use ifs_core::{Core, Step};
use ifs_parse::{Condition, Node};
use ifs_policy::{PolicyBlock, Single, SingleVisitor, visit_block, visit_condition};

/// The link state of an interface as a step sees it: that of the step, or else that of the core.
pub(crate) fn link_seen(core: &Core<'_>, step: Step, interface: IfaceId) -> Option<LinkState>
    ensures { result ≡ slice_get (seen step core.now.state.position.facts).links interface.0 }
{
    link_over(step, interface, core.link(interface))
}

/// The value of a test as a step sees it, if it has one.
pub(crate) fn test_seen(core: &Core<'_>, step: Step, test: TestId) -> Option<Option<bool>>
    ensures { result ≡ slice_get (seen step core.now.state.position.facts).tests test.0 }
{
    value_over(step, test, core.test_value(test))
}

/// The link state that a step reports of an interface, or else the one before.
fn link_over(step: Step, interface: IfaceId, before: Option<LinkState>) -> Option<LinkState>
    ensures { result ≡ link_over step interface.0 before }
{
    match step {
        Step::Link(other, link) => {
            if other.0 == interface.0 && before.is_some() {
                Some(link)
            } else {
                before
            }
        }
        Step::Finished(_, _, _) | Step::Tick(_) | Step::Take => before,
    }
}

/// The value that a step reports of a test, or else the one before.
fn value_over(step: Step, test: TestId, before: Option<Option<bool>>) -> Option<Option<bool>>
    ensures { result ≡ value_over step test.0 before }
{
    match step {
        Step::Finished(other, _, value) => {
            if other.0 == test.0 && before.is_some() {
                Some(Some(value))
            } else {
                before
            }
        }
        Step::Link(_, _) | Step::Tick(_) | Step::Take => before,
    }
}

/// Whether a known interface has this link state.
fn is_in(state: LinkState, now: Option<LinkState>) -> bool
    ensures { result ≡ link_is state now }
{
    match now {
        None => false,
        Some(now) => is_same(now, state),
    }
}

/// Whether two link states are the same.
fn is_same(one: LinkState, other: LinkState) -> bool
    ensures { result ≡ is_link one other }
{
    one == other
}

/// Whether a test has the value true.
fn has_true(value: Option<Option<bool>>) -> bool
    ensures { result ≡ has_true value }
{
    matches!(value, Some(Some(true)))
}

/// Whether a single test holds under the facts that a step sees.
fn holds_seen(core: &Core<'_>, step: Step, single: Single) -> bool
    ensures { result ≡ holds (seen step core.now.state.position.facts) single }
{
    match single {
        Single::LinkIs(interface, state) => is_in(state, link_seen(core, step, interface)),
        Single::TestIs(test) => has_true(test_seen(core, step, test)),
    }
}

/// Whether one true operand decides a node: it does for `||`.
fn decides(node: &Node<Single>) -> bool
    ensures { result ≡ decides node.now }
{
    matches!(node, Node::Any(_, _, _))
}

/// Two truths joined by `||` if one true operand decides, or else by `&&`.
fn joined(deciding: bool, left: bool, right: bool) -> bool
    ensures { result ≡ joined_truth deciding left right }
{
    if deciding {
        left || right
    } else {
        left && right
    }
}

/// Whether a condition is true under the facts that a step sees.
fn truth_seen(core: &Core<'_>, step: Step, condition: &Condition<Single>) -> bool
    ensures { result ≡ truth (seen step core.now.state.position.facts) condition.now }
{
    let node = condition.node();
    match node {
        Node::Leaf(single) => holds_seen(core, step, *single),
        Node::Not(operand) => !truth_seen(core, step, operand),
        Node::All(first, second, rest) | Node::Any(first, second, rest) => {
            let deciding = decides(node);
            let mut is_true = joined(
                deciding,
                truth_seen(core, step, first),
                truth_seen(core, step, second),
            );
            for operand in rest {
                is_true = joined(deciding, is_true, truth_seen(core, step, operand));
            }
            is_true
        }
    }
}

/// A search for a test that has no value under the facts that a step sees.
#[derive(Clone, Copy)]
struct OpenTest<'a, 'b> {
    core: &'a Core<'b>,
    step: Step,
    is_found: bool,
}

impl<'a, 'b> SingleVisitor for OpenTest<'a, 'b> {
    ghost after = { λ s single. record { core = s.core; step = s.step; is_found = s.is_found || has_test (is_open (seen s.step s.core.now.state.position.facts)) single } };

    fn visit(&mut self, single: Single) {
        let is_open = is_open_single(self.core, self.step, single);
        self.is_found = self.is_found || is_open;
    }
}

/// Whether the test of a single test has no value under the facts that a step sees.
fn is_open_single(core: &Core<'_>, step: Step, single: Single) -> bool
    ensures { result ≡ has_test (is_open (seen step core.now.state.position.facts)) single }
{
    match single {
        Single::LinkIs(_, _) => false,
        Single::TestIs(test) => lacks_value(test_seen(core, step, test)),
    }
}

/// Whether there is no value.
fn lacks_value(value: Option<Option<bool>>) -> bool
    ensures { result ≡ not (has_a_value value) }
{
    !matches!(value, Some(Some(_)))
}

/// Whether a test has no value.
pub(crate) fn is_open(core: &Core<'_>, test: TestId) -> bool
    ensures { result ≡ is_open core.now.state.position.facts test }
{
    lacks_value(core.test_value(test))
}

/// Whether a test in a condition has no value under the facts that a step sees.
fn lacks_value_seen(core: &Core<'_>, step: Step, condition: &Condition<Single>) -> bool
    ensures { result ≡ lacks_value (seen step core.now.state.position.facts) condition.now }
{
    let mut search = OpenTest {
        core,
        step,
        is_found: false,
    };
    visit_condition(&mut search, condition);
    search.is_found
}

/// Whether one is so, and the other is not.
fn and_not(one: bool, other: bool) -> bool
    ensures { result ≡ (one && not other) }
{
    one && !other
}

/// Whether the facts that a step sees meet a premise. A tick and the taking of a command change none.
pub(crate) fn is_met_seen(core: &Core<'_>, step: Step, premise: &Premise) -> bool
    ensures { result ≡ is_met (seen step core.now.state.position.facts) (guard_in premise.now) }
{
    let condition = &premise.condition;
    match premise.values {
        Values::Any => truth_seen(core, step, condition),
        Values::Known => and_not(
            truth_seen(core, step, condition),
            lacks_value_seen(core, step, condition),
        ),
        Values::Unknown => lacks_value_seen(core, step, condition),
    }
}

/// Whether the facts of a core meet a premise.
pub(crate) fn is_met(core: &Core<'_>, premise: &Premise) -> bool
    ensures { result ≡ is_met core.now.state.position.facts (guard_in premise.now) }
{
    is_met_seen(core, Step::Take, premise)
}

/// Whether a body is held back.
pub(crate) fn is_held(core: &Core<'_>, body: &PolicyBlock) -> bool
    ensures { result ≡ is_held core.now.state.position.facts body.now }
{
    let mut search = OpenTest {
        core,
        step: Step::Take,
        is_found: false,
    };
    visit_block(&mut search, body);
    search.is_found
}

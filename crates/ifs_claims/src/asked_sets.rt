//! For each state, the facts that steps may lead to there: an external test that no body asks for has no value.

ghost use Rattle.std.specs.Prelude.{◌≡◌, IfOk};
ghost use Rattle.ifs_solver.specs.FactSets.{fact_set_of, scope_of};
ghost use Rattle.ifs_claims.specs.inner.AskedSets.{asked_domain, asked_fact_set, either_asks, AreAskedSets};

use ifs_base::TestId;
use ifs_policy::{Policy, PolicyBlock, mentions};
use ifs_solver::{Domain, FactSet, Scope};
use std::alloc::{AllocError, Global};

/// What a test may be that has no value.
pub(crate) const NO_VALUE: Domain = Domain {
    unknown: true,
    down: false,
    up: false,
};

/// For each state of a policy, the facts in which only tests have a value that the body outside any state asks for, or its own.
pub(crate) fn asked_sets(alloc: Global, policy: &Policy) -> Result<Vec<FactSet>, AllocError>
    ensures { IfOk result (λ sets. AreAskedSets policy.now policy.now.states sets.items) }
{
    let mut sets = Vec::new(alloc);
    for part in policy.states() {
        let set = asked_set(alloc, policy, &part.body)?;
        sets.push(set)?;
    }
    Ok(sets)
}

/// The same of a state with this body.
fn asked_set(alloc: Global, policy: &Policy, own: &PolicyBlock) -> Result<FactSet, AllocError>
    ensures { IfOk result (λ set. fact_set_of set ≡ asked_fact_set (scope_of policy.now) policy.now.always.body own.now) }
{
    let always = &policy.always().body;
    let scope = Scope::of(policy);
    let count = policy.counts().tests;
    let links = vec![in alloc; Domain::ANY; scope.links]?;
    let mut tests = Vec::new(alloc);
    for test in 0..count {
        let domain = domain_of(TestId(test), always, own);
        tests.push(domain)?;
    }
    Ok(FactSet { links, tests })
}

/// What a test may be.
fn domain_of(test: TestId, always: &PolicyBlock, own: &PolicyBlock) -> Domain
    ensures { result ≡ asked_domain (either_asks always.now own.now test.0) }
{
    if mentions(test, always) || mentions(test, own) {
        Domain::ANY
    } else {
        NO_VALUE
    }
}

//! Sets of facts.

ghost use Rattle.std.specs.Bool.{OnTrue};
ghost use Rattle.std.specs.List.{list_all};
ghost use Rattle.std.specs.Prelude.{◌≡◌, slice_get, slice_set, IfOk};
ghost use Rattle.ifs_solver.specs.FactSets.{domain_at, full_fact_set, has_one, fact_set_of, scope_of, with_domain, HasFacts};

use crate::domains::{Branch, Domain};
use ifs_policy::Policy;
use std::alloc::{AllocError, Global};

/// How many links and tests the facts of a policy are about.
#[derive(Clone, Copy)]
pub struct Scope {
    pub links: usize,
    pub tests: usize,
}

impl Scope {
    /// The links and tests of a policy.
    pub fn of(policy: &Policy) -> Scope
        ensures { result ≡ scope_of policy.now }
    {
        let counts = policy.counts();
        Scope {
            links: usize::from(counts.interfaces),
            tests: usize::from(counts.tests),
        }
    }
}

/// For each link and each test, the values that it may have.
pub struct FactSet {
    /// By the index of the interface.
    pub links: Vec<Domain>,
    /// By the index of the test.
    pub tests: Vec<Domain>,
}

impl Drop for FactSet {
    fn drop(self) {
        let FactSet {
            links: _links,
            tests: _tests,
        } = self;
    }
}

impl FactSet {
    /// The set of all facts of so many links and tests. Returns an error if an allocation fails.
    pub fn full(alloc: Global, scope: Scope) -> Result<FactSet, AllocError>
        ensures { IfOk result (λ set. fact_set_of set ≡ full_fact_set scope) }
    {
        let links = vec![in alloc; Domain::ANY; scope.links]?;
        let tests = vec![in alloc; Domain::ANY; scope.tests]?;
        Ok(FactSet { links, tests })
    }

    /// The set of all facts of so many links and tests in which each test has a value. Returns an error if an allocation
    /// fails.
    pub fn worlds(alloc: Global, scope: Scope) -> Result<FactSet, AllocError>
        ensures { IfOk result (λ set. HasFacts (fact_set_of set)) }
    {
        let links = vec![in alloc; Domain::ANY; scope.links]?;
        let tests = vec![in alloc; Domain::RESULT; scope.tests]?;
        Ok(FactSet { links, tests })
    }

    /// The same set. Returns an error if an allocation fails.
    pub fn copied(&self, alloc: Global) -> Result<FactSet, AllocError>
        ensures { IfOk result (λ set. fact_set_of set ≡ fact_set_of self.now) }
    {
        let mut links = Vec::new(alloc);
        links.extend_from_slice(self.links.as_slice())?;
        let mut tests = Vec::new(alloc);
        tests.extend_from_slice(self.tests.as_slice())?;
        Ok(FactSet { links, tests })
    }

    /// Whether some facts are within the set.
    pub fn has_facts(&self) -> bool
        ensures { OnTrue result (HasFacts (fact_set_of self.now)) }
    {
        have_values(self.links.as_slice()) && have_values(self.tests.as_slice())
    }

    /// The domain at a place. None if there is no such link or test.
    pub fn domain(&self, branch: Branch) -> Option<Domain>
        ensures { result ≡ domain_at branch (fact_set_of self.now) }
    {
        match branch {
            Branch::Link(interface, _) => domain_in(
                self.links.as_slice(),
                usize::from(interface.0),
            ),
            Branch::Test(test, _) => domain_in(self.tests.as_slice(), usize::from(test.0)),
        }
    }

    /// Sets the domain at a place, if there is one.
    pub fn put(&mut self, branch: Branch, domain: Domain)
        ensures { fact_set_of self.new ≡ with_domain branch domain (fact_set_of self.old) }
    {
        match branch {
            Branch::Link(interface, _) => set_domain(
                self.links.as_mut_slice(),
                usize::from(interface.0),
                domain,
            ),
            Branch::Test(test, _) => set_domain(
                self.tests.as_mut_slice(),
                usize::from(test.0),
                domain,
            ),
        }
    }
}

/// Whether each domain has a value.
fn have_values(domains: &[Domain]) -> bool
    ensures { result ≡ list_all has_one domains.now }
{
    for domain in domains {
        if !domain.has_one() {
            return false;
        }
    }
    true
}

/// A member, if there is one.
fn domain_in(domains: &[Domain], index: usize) -> Option<Domain>
    ensures { result ≡ slice_get domains.now index }
{
    if index < domains.len() {
        Some(domains[index])
    } else {
        None
    }
}

/// Sets a member, if there is one.
fn set_domain(domains: &mut [Domain], index: usize, domain: Domain)
    ensures { domains.new ≡ slice_set domains.old index domain }
{
    if index < domains.len() {
        domains[index] = domain;
    }
}

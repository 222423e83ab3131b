//! What runs at a moment, and what comes of it within a set of facts.

ghost use Rattle.std.specs.Prelude.{◌≡◌, slice_get, IfNone, IfOk, IfSome, None};
ghost use Rattle.ifs_solver.specs.FactSets.{fact_set_of};
ghost use Rattle.ifs_solver.specs.Reaching.{effects_of};
ghost use Rattle.ifs_levels.specs.Outcomes.{have_no_tests, IsMissing};
ghost use Rattle.ifs_levels.specs.inner.Courses.{entering, IsBegun, IsCourseOf, IsEvaluated, IsFinished, IsInitReached};

use crate::moments::{Moment, Outcome};
use ifs_base::StateId;
use ifs_claims::is_untested;
use ifs_policy::{Handlers, Policy};
use ifs_solver::{Bodies, Branch, FactSet, Handler, Reached, Yielded, reach};
use std::alloc::{AllocError, Global};

/// What runs at a moment: a handler, and then the init of the state that is entered.
#[derive(Clone, Copy)]
pub(crate) struct Course<'a> {
    /// Runs first.
    pub first: Handler<'a>,
    /// The state that is entered whatever the first handler wishes for.
    pub initial: Option<StateId>,
    /// The parts of all states.
    pub states: &'a [Handlers],
}

impl<'a> Course<'a> {
    /// What runs at a moment of a policy. None if there is no such state.
    pub fn of(policy: &'a Policy, moment: Moment) -> Option<Course<'a>>
        ensures there { IfSome result (IsCourseOf policy.now moment) }
        ensures none { IfNone result (IsMissing policy.now moment) }
    {
        match moment {
            Moment::Opening => Some(opening(policy)),
            Moment::In(state) => evaluation(policy, state),
        }
    }
}

/// What runs at an opening: the init outside any state, and that of the initial state.
fn opening(policy: &Policy) -> Course<'_>
    ensures { IsCourseOf policy.now Moment.Opening result }
{
    Course {
        first: Handler::Init(&policy.always().init),
        initial: Some(policy.initial()),
        states: policy.states(),
    }
}

/// What runs at an evaluation in a state. None if there is no such state.
fn evaluation(policy: &Policy, state: StateId) -> Option<Course<'_>>
    ensures there { IfSome result (IsCourseOf policy.now (Moment.In state)) }
    ensures none { IfNone result (slice_get policy.now.states state.0 ≡ None) }
{
    let part = policy.handlers(state)?;
    let bodies = Bodies {
        state,
        always: &policy.always().body,
        own: &part.body,
    };
    Some(Course {
        first: Handler::Evaluation(bodies),
        initial: None,
        states: policy.states(),
    })
}

/// Whether no init of these parts has an external test.
pub(crate) fn have_no_tests(states: &[Handlers]) -> bool
    ensures { result ≡ have_no_tests states.now }
{
    for part in states {
        if !is_untested(&part.init) {
            return false;
        }
    }
    true
}

/// What is known of a course within a set.
#[derive(Drop)]
pub(crate) enum Evaluated {
    /// It is the same under all facts.
    Known(Outcome),
    /// It depends on this fact.
    Open(Branch),
}

/// What comes of a course within a set.
pub(crate) fn evaluate(
    alloc: Global,
    course: Course<'_>,
    set: &FactSet,
) -> Result<Evaluated, AllocError>
    ensures { IfOk result (λ it. IsEvaluated course.entry (fact_set_of set.now) it) }
{
    let Yielded { reached, pending } = begin(alloc, course, set)?;
    match pending {
        Some(branch) => Ok(Evaluated::Open(branch)),
        None => {
            let it = finish(course, set, reached)?;
            Ok(it)
        }
    }
}

/// What the first handler yields, with the state that is entered.
fn begin(alloc: Global, course: Course<'_>, set: &FactSet) -> Result<Yielded, AllocError>
    ensures { IfOk result (λ it. IsBegun course.entry (fact_set_of set.now) it) }
{
    let it = course.first.yielded(alloc, set)?;
    Ok(enter(it, course.initial))
}

/// What is yielded, with a wish for a state that is entered whatever was wished for.
fn enter(yielded: Yielded, initial: Option<StateId>) -> Yielded
    ensures reached { effects_of result.reached ≡ entering initial (effects_of yielded.reached) }
    ensures pending { result.pending ≡ yielded.pending }
{
    let mut yielded = yielded;
    if let Some(state) = initial {
        yielded.reached.wish = Some(state);
    }
    yielded
}

/// Adds the commands of the init of a state that is entered, to what is known to be yielded before it.
fn finish(course: Course<'_>, set: &FactSet, reached: Reached) -> Result<Evaluated, AllocError>
    ensures { IfOk result (λ it. IsFinished course.entry (fact_set_of set.now) (effects_of reached) it) }
{
    let mut reached = reached;
    let next = reached.wish;
    match reach_init(course.states, next, set, &mut reached)? {
        Some(branch) => Ok(Evaluated::Open(branch)),
        None => {
            let Reached {
                commands,
                wish: _wish,
            } = reached;
            Ok(Evaluated::Known(Outcome { commands, next }))
        }
    }
}

/// Adds what the init of a state reaches: nothing without one.
fn reach_init(
    states: &[Handlers],
    next: Option<StateId>,
    set: &FactSet,
    reached: &mut Reached,
) -> Result<Option<Branch>, AllocError>
    ensures { IfOk result (λ pending. IsInitReached states.now next (fact_set_of set.now) (effects_of reached.old) (effects_of reached.new) pending) }
{
    let Some(state) = next else {
        return Ok(None);
    };
    let Some(part) = states.get(usize::from(state.0)) else {
        return Ok(None);
    };
    let pending = reach(set, &part.init, reached)?;
    Ok(pending)
}

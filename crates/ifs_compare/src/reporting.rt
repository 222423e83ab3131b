//! The differences between two policies over the same tables.

ghost use Rattle.std.specs.Prelude.{◌≡◌, ◌<◌, ◌^◌, false, slice_get, Some, IsSome, IfOk, OnOk};
ghost use Rattle.ifs_compare.specs.Differing.{HaveOtherTests};
ghost use Rattle.ifs_compare.specs.inner.Comparing.{is_same, IsJudged};
ghost use Rattle.ifs_compare.specs.inner.Evaluating.{DoMomentsDiffer};
ghost use Rattle.ifs_compare.specs.inner.Reporting.{Differ, IsLeft, IsMore, IsTold};

use crate::answering::Answer;
use crate::answers::{Compared, Difference};
use crate::choosing::{Witness, witness_in};
use crate::effort::Effort;
use crate::entering::{entering_witness, parts_of, silent_witness};
use crate::evaluating::Moment;
use crate::exploring::explored_witness;
use crate::parts::{Judged, StateAnswer, same_state};
use crate::sides::Stage;
use crate::walking::Walks;
use crate::wording::{
    Question, Reason, active_words, initial_words, open_words, put_difference, witness_words,
};
use ifs_base::{StateId, TestId};
use ifs_play::number_of;
use ifs_policy::{Handlers, mentions};
use ifs_solver::FactSet;
use ifs_terminal::Draft;
use std::alloc::{AllocError, Global};

/// What a report ends with if no walk has shown the difference.
const NOT_SHOWN: &str = "; no requests were found that show it";

/// Whether a difference is reported already.
fn is_known(differences: &[Difference], report: &str) -> bool {
    for difference in differences {
        let known = difference.report.as_str();
        if known.strip_suffix(NOT_SHOWN).unwrap_or(known) == report {
            return true;
        }
    }
    false
}

/// Adds a difference that requests may show.
fn put_shown(
    alloc: Global,
    report: Draft,
    state: &str,
    requests: String,
    differences: &mut Vec<Difference>,
) -> Result<(), AllocError> {
    let mut report = report;
    report.put(if requests.is_empty() { NOT_SHOWN } else { "" });
    put_difference(alloc, report, state, requests, differences)
}

/// Two policies, and what is said of them.
#[derive(Clone, Copy)]
pub(crate) struct Case<'a> {
    pub stage: Stage<'a>,
    pub judged: &'a Judged,
}

/// What looks for facts and requests that show differences.
#[derive(Drop)]
struct Finder<'a> {
    walks: Walks<'a>,
    /// The situations that searches for facts may still look at.
    effort: Effort,
    /// Whether the bodies outside any state differ, and that is reported.
    told_always: bool,
}

impl Finder<'_> {
    /// Request lines after which the policies differ, mostly towards a state if there is one.
    fn any_requests(&mut self, state: Option<StateId>) -> Result<String, AllocError> {
        self.walks.any_requests(&mut self.effort, state)
    }
}

/// Reports what was found, and names what is not decided.
pub(crate) fn report(
    case: &Case<'_>,
    effort: Effort,
    found: &mut Compared,
) -> Result<(), AllocError>
    requires tests { case.now.stage.scope.tests < 2 ^ 16 }
    requires judged { IsJudged case.now.stage.scope case.now.stage.sides case.now.judged.now }
    ensures { OnOk result (IsTold case.now found.old found.new) }
{
    let mut finder = Finder {
        walks: Walks::new(&case.stage),
        effort,
        told_always: false,
    };
    report_initial(case, &mut finder, &mut found.differences)?;
    report_always(case, &mut finder, found)?;
    report_states(case, &mut finder, found)?;
    Ok(())
}

/// Reports another initial state.
fn report_initial(
    case: &Case<'_>,
    finder: &mut Finder<'_>,
    differences: &mut Vec<Difference>,
) -> Result<(), AllocError>
    ensures { OnOk result (IsMore (Differ case.now) differences.old.items differences.new.items) }
{
    let stage = &case.stage;
    if same_state(stage.sides.old.initial, stage.sides.new.initial) {
        return Ok(());
    }
    let requests = finder.any_requests(None)?;
    put_shown(stage.alloc, initial_words(stage), "", requests, differences)?;
    Ok(())
}

/// Reports what differs outside any state.
fn report_always(
    case: &Case<'_>,
    finder: &mut Finder<'_>,
    found: &mut Compared,
) -> Result<(), AllocError>
    requires tests { case.now.stage.scope.tests < 2 ^ 16 }
    requires judged { IsJudged case.now.stage.scope case.now.stage.sides case.now.judged.now }
    ensures { OnOk result (IsTold case.now found.old found.new) }
{
    let sides = case.stage.sides;
    let differences = &mut found.differences;
    report_active(
        case,
        finder,
        None,
        sides.old.always,
        sides.new.always,
        differences,
    )?;
    report_answer(
        case,
        finder,
        Question::Opening,
        &case.judged.always.init,
        found,
    )?;
    report_always_bodies(case, finder, found)?;
    Ok(())
}

/// Reports that the bodies outside any state make a difference, in the first state in which they do.
fn report_always_bodies(
    case: &Case<'_>,
    finder: &mut Finder<'_>,
    found: &mut Compared,
) -> Result<(), AllocError>
    ensures { OnOk result (IsTold case.now found.old found.new) }
{
    match &case.judged.always.body {
        Answer::Same => Ok(()),
        Answer::Undecided => {
            finder.told_always = true;
            leave(case, Question::Always, Reason::Budget, &mut found.undecided)?;
            Ok(())
        }
        Answer::Different(range) => {
            report_always_range(case, finder, range, &mut found.differences)?;
            Ok(())
        }
    }
}

/// The same where they differ within a range.
fn report_always_range(
    case: &Case<'_>,
    finder: &mut Finder<'_>,
    range: &FactSet,
    differences: &mut Vec<Difference>,
) -> Result<(), AllocError>
    ensures { OnOk result (IsMore (Differ case.now) differences.old.items differences.new.items) }
{
    match always_witness(case, finder, range)? {
        Some(witness) => {
            finder.told_always = true;
            note(&case.stage, finder, &witness, differences)?;
            Ok(())
        }
        None => Ok(()),
    }
}

/// Facts of a range, and a state, under which the bodies outside any state make a difference.
fn always_witness(
    case: &Case<'_>,
    finder: &mut Finder<'_>,
    range: &FactSet,
) -> Result<Option<Witness>, AllocError>
    ensures { IfOk result (λ found. IsSome found → DoMomentsDiffer case.now.stage.scope case.now.stage.sides) }
{
    for (index, answer) in case.judged.states.iter().enumerate() {
        let state = StateId(number_of(index));
        if case.stage.is_common(state) && !answer.evaluation.is_same() {
            let witness = silent_witness(&case.stage, &mut finder.effort, state, range)?;
            if witness.is_some() {
                return Ok(witness);
            }
        }
    }
    Ok(None)
}

/// Reports what differs in each state that both policies have.
fn report_states(
    case: &Case<'_>,
    finder: &mut Finder<'_>,
    found: &mut Compared,
) -> Result<(), AllocError>
    requires tests { case.now.stage.scope.tests < 2 ^ 16 }
    requires judged { IsJudged case.now.stage.scope case.now.stage.sides case.now.judged.now }
    ensures { OnOk result (IsTold case.now found.old found.new) }
{
    for index in 0..case.judged.states.len() {
        let state = StateId(index as u16);
        let answer = &case.judged.states[index];
        if case.stage.is_common(state) {
            report_state(case, finder, state, answer, found)?;
        }
    }
    Ok(())
}

/// Reports what differs in a state.
fn report_state(
    case: &Case<'_>,
    finder: &mut Finder<'_>,
    state: StateId,
    answer: &StateAnswer,
    found: &mut Compared,
) -> Result<(), AllocError>
    requires tests { case.now.stage.scope.tests < 2 ^ 16 }
    requires judged { IsJudged case.now.stage.scope case.now.stage.sides case.now.judged.now }
    requires state { slice_get case.now.judged.now.states.items state.0 ≡ Some answer.now }
    ensures { OnOk result (IsTold case.now found.old found.new) }
{
    let Some((old, new)) = parts_of(&case.stage, state) else {
        return Ok(());
    };
    report_active(case, finder, Some(state), old, new, &mut found.differences)?;
    report_answer(
        case,
        finder,
        Question::Init(state),
        &answer.part.init,
        found,
    )?;
    if !answer.part.body.is_same() || !finder.told_always {
        report_evaluation(case, finder, state, answer, found)?;
    }
    Ok(())
}

/// Reports what differs in evaluations in a state, mostly under facts under which its bodies differ.
fn report_evaluation(
    case: &Case<'_>,
    finder: &mut Finder<'_>,
    state: StateId,
    answer: &StateAnswer,
    found: &mut Compared,
) -> Result<(), AllocError>
    requires { is_same answer.now.evaluation ≡ false → IsLeft case.now }
    ensures { OnOk result (IsTold case.now found.old found.new) }
{
    match body_witness(case, state, answer)? {
        Some(witness) => {
            note(&case.stage, finder, &witness, &mut found.differences)?;
            Ok(())
        }
        None => {
            report_answer(
                case,
                finder,
                Question::Body(state),
                &answer.evaluation,
                found,
            )?;
            Ok(())
        }
    }
}

/// Facts under which the bodies of a state differ and evaluations do, if the latter are not the same.
fn body_witness(
    case: &Case<'_>,
    state: StateId,
    answer: &StateAnswer,
) -> Result<Option<Witness>, AllocError>
    ensures { IfOk result (λ found. IsSome found → DoMomentsDiffer case.now.stage.scope case.now.stage.sides) }
{
    match (&answer.part.body, answer.evaluation.is_same()) {
        (Answer::Different(range), false) => {
            let witness = witness_in(&case.stage, Moment::In(state), range)?;
            Ok(witness)
        }
        _ => Ok(None),
    }
}

/// Reports what was found for a question.
fn report_answer(
    case: &Case<'_>,
    finder: &mut Finder<'_>,
    question: Question,
    answer: &Answer,
    found: &mut Compared,
) -> Result<(), AllocError>
    requires { is_same answer.now ≡ false → IsLeft case.now }
    ensures { OnOk result (IsTold case.now found.old found.new) }
{
    match answer {
        Answer::Same => Ok(()),
        Answer::Undecided => {
            leave(case, question, Reason::Budget, &mut found.undecided)?;
            Ok(())
        }
        Answer::Different(range) => {
            show(case, finder, question, range, found)?;
            Ok(())
        }
    }
}

/// Reports a difference within a range. Without facts that show it, the question is not decided.
fn show(
    case: &Case<'_>,
    finder: &mut Finder<'_>,
    question: Question,
    range: &FactSet,
    found: &mut Compared,
) -> Result<(), AllocError>
    requires { IsLeft case.now }
    ensures { OnOk result (IsTold case.now found.old found.new) }
{
    match witness(&case.stage, finder, question, range)? {
        Some(witness) => {
            note(&case.stage, finder, &witness, &mut found.differences)?;
            Ok(())
        }
        None => {
            leave(case, question, Reason::NoFacts, &mut found.undecided)?;
            Ok(())
        }
    }
}

/// Names a question that is not decided.
fn leave(
    case: &Case<'_>,
    question: Question,
    reason: Reason,
    undecided: &mut Vec<Difference>,
) -> Result<(), AllocError> {
    let stage = &case.stage;
    let name = match question {
        Question::Init(state) | Question::Body(state) => stage.state_name(state),
        Question::Opening | Question::Always => "",
    };
    let words = open_words(stage, question, reason);
    let none = String::new(stage.alloc);
    put_difference(stage.alloc, words, name, none, undecided)
}

/// Facts that show a difference within a range.
fn witness(
    stage: &Stage<'_>,
    finder: &mut Finder<'_>,
    question: Question,
    range: &FactSet,
) -> Result<Option<Witness>, AllocError>
    ensures { IfOk result (λ found. IsSome found → DoMomentsDiffer stage.now.scope stage.now.sides) }
{
    match question {
        Question::Opening => {
            let witness = moment_witness(stage, finder, Moment::Opening, range)?;
            Ok(witness)
        }
        Question::Always => Ok(None),
        Question::Init(state) => {
            let witness = init_witness(stage, finder, state, range)?;
            Ok(witness)
        }
        Question::Body(state) => {
            let witness = moment_witness(stage, finder, Moment::In(state), range)?;
            Ok(witness)
        }
    }
}

/// Facts of a range, or others, under which the policies differ at a moment.
fn moment_witness(
    stage: &Stage<'_>,
    finder: &mut Finder<'_>,
    moment: Moment,
    range: &FactSet,
) -> Result<Option<Witness>, AllocError>
    ensures { IfOk result (λ found. IsSome found → DoMomentsDiffer stage.now.scope stage.now.sides) }
{
    let witness = witness_in(stage, moment, range)?;
    if witness.is_some() {
        return Ok(witness);
    }
    let witness = explored_witness(stage, &mut finder.effort, moment, None)?;
    Ok(witness)
}

/// Facts of a range, or others, under which the policies differ where a state is entered.
fn init_witness(
    stage: &Stage<'_>,
    finder: &mut Finder<'_>,
    entered: StateId,
    range: &FactSet,
) -> Result<Option<Witness>, AllocError>
    ensures { IfOk result (λ found. IsSome found → DoMomentsDiffer stage.now.scope stage.now.sides) }
{
    let witness = entering_witness(stage, &mut finder.effort, entered, range)?;
    if witness.is_some() {
        return Ok(witness);
    }
    for index in 0..stage.states() {
        let state = StateId(number_of(index));
        if stage.is_common(state) {
            let moment = Moment::In(state);
            let witness = explored_witness(stage, &mut finder.effort, moment, Some(entered))?;
            if witness.is_some() {
                return Ok(witness);
            }
        }
    }
    Ok(None)
}

/// Reports a difference with the facts that show it, unless that is reported already.
fn note(
    stage: &Stage<'_>,
    finder: &mut Finder<'_>,
    witness: &Witness,
    differences: &mut Vec<Difference>,
) -> Result<(), AllocError> {
    let report = witness_words(stage, witness);
    if is_known(differences.as_slice(), report.as_str()) {
        return Ok(());
    }
    let requests = finder.walks.requests(&mut finder.effort, witness)?;
    let name = match witness.moment {
        Moment::In(state) => stage.state_name(state),
        Moment::Opening => "",
    };
    put_shown(stage.alloc, report, name, requests, differences)
}

/// Reports the tests that are active in one policy alone.
fn report_active(
    case: &Case<'_>,
    finder: &mut Finder<'_>,
    state: Option<StateId>,
    old: &Handlers,
    new: &Handlers,
    differences: &mut Vec<Difference>,
) -> Result<(), AllocError>
    requires tests { case.now.stage.scope.tests < 2 ^ 16 }
    requires other { HaveOtherTests case.now.stage.scope old.now new.now → Differ case.now }
    ensures { OnOk result (IsMore (Differ case.now) differences.old.items differences.new.items) }
{
    for index in 0..case.stage.scope.tests {
        let test = TestId(index as u16);
        report_active_test(case, finder, state, test, old, new, differences)?;
    }
    Ok(())
}

/// Reports whether a test is active in one policy alone.
fn report_active_test(
    case: &Case<'_>,
    finder: &mut Finder<'_>,
    state: Option<StateId>,
    test: TestId,
    old: &Handlers,
    new: &Handlers,
    differences: &mut Vec<Difference>,
) -> Result<(), AllocError>
    requires there { test.0 < case.now.stage.scope.tests }
    requires other { HaveOtherTests case.now.stage.scope old.now new.now → Differ case.now }
    ensures { OnOk result (IsMore (Differ case.now) differences.old.items differences.new.items) }
{
    let in_old = mentions(test, &old.body);
    if in_old == mentions(test, &new.body) {
        return Ok(());
    }
    put_active(&case.stage, finder, state, test, in_old, differences)?;
    Ok(())
}

/// Adds that a test is active in one policy alone.
fn put_active(
    stage: &Stage<'_>,
    finder: &mut Finder<'_>,
    state: Option<StateId>,
    test: TestId,
    in_old: bool,
    differences: &mut Vec<Difference>,
) -> Result<(), AllocError> {
    let requests = finder.any_requests(state)?;
    let name = match state {
        Some(state) => stage.state_name(state),
        None => "",
    };
    let report = active_words(stage, state, test, in_old);
    put_shown(stage.alloc, report, name, requests, differences)
}

//! What is said of a policy.

ghost use Rattle.std.specs.Prelude.{◌≡◌, ◌++◌, false, length, IfOk, IfSome, OnOk, count_by};
ghost use Rattle.std.specs.Bool.{OnFalse};
ghost use Rattle.ifs_lint.specs.Clean.{are_clean};
ghost use Rattle.ifs_lint.specs.Kinds.{is_nowhere, is_open, is_open_extent, is_open_state};
ghost use Rattle.ifs_lint.specs.Naming.{on_places, on_states, places_named, states_named, states_named_at};
ghost use Rattle.ifs_claims.specs.Changes.{RestsWithin};
ghost use Rattle.ifs_gen.specs.Compiled.{IsWritten};
ghost use Rattle.ifs_gen.specs.Trees.{Policy as PolicyOfCore};
ghost use Rattle.ifs_play.specs.Compiling.{IsImageOf};
ghost use Rattle.ifs_lint.specs.Told.{AreOnRounds, IsQuietOf, MeansNone, SaysAll, SaysPlaces, SaysStates, Tells, TellsRounds};
ghost use Rattle.ifs_lint.specs.inner.Going.{AreRounds, IsCompiled};
ghost use Rattle.ifs_lint.specs.inner.Seen.{SayLess, SaysLess, SaysLessOfStates};

use crate::finding::{Finding, Said};
use crate::flaps::{Flap, flaps_of};
use crate::following::Slips;
use crate::going::Compiled;
use crate::marked::Marked;
use crate::meant::{Remark, remarks_of};
use crate::reasons::reasons_of;
use crate::wording::{StateKind, code_of};
use ifs_base::StateId;
use ifs_claims::{ReachableStates, rests_within};
use ifs_parse::Tree;
use ifs_play::{PARTS, PolicyImage, image_of, situations_of};
use ifs_policy::Policy;
use ifs_solver::{Answer, Budget, Extent, StateAnswer, judge_places, judge_states};
use ifs_walks::Visits;
use memchr::memmem;
use std::alloc::{AllocError, Global};

/// The situations that may be looked at where no round was found.
const REST: Budget = Budget {
    each: 20_000,
    left: 100_000,
    questions: 0,
    undecided: 0,
};

/// The situations that the search for ways from state to state may look at.
const WAYS: Budget = Budget {
    each: 1_000,
    left: 50_000,
    questions: 0,
    undecided: 0,
};

/// What is said of a policy.
#[derive(Drop)]
pub struct Linted {
    /// Of conditions, operands, `run`s and `set-state`s. Each is a question.
    pub places: Said,
    /// Of states. Two questions are asked of each: whether it is entered, and whether it is left. Those that are not decided of
    /// one state count once.
    pub states: Said,
    /// Of rounds. Each state that is entered is a question: whether a round begins there.
    pub rounds: Said,
}

impl Linted {
    /// How many questions were asked.
    pub fn asked(&self) -> usize {
        let (places, states, rounds) = (&self.places, &self.states, &self.rounds);
        places
            .asked
            .saturating_add(states.asked)
            .saturating_add(rounds.asked)
    }

    /// How many of them are not decided.
    pub fn undecided(&self) -> usize {
        let (places, states, rounds) = (&self.places, &self.states, &self.rounds);
        places
            .undecided
            .saturating_add(states.undecided)
            .saturating_add(rounds.undecided)
    }

    /// Whether all is decided, and no finding is a defect.
    pub fn is_clean(&self) -> bool
        ensures { result ≡ are_clean self.now }
    {
        self.places.is_clean() && self.states.is_clean() && self.rounds.is_clean()
    }
}

/// Appends the finding on a place, if its answer names a defect.
fn put_place(
    alloc: Global,
    findings: &mut Vec<Finding>,
    marked: &Marked<'_>,
    slips: &Slips<'_>,
    place: usize,
    answer: &Answer,
) -> Result<(), AllocError>
    ensures { OnOk result (on_places findings.new.items ≡ on_places findings.old.items ++ places_named place answer.now) }
{
    if let Some(code) = code_of(*answer) {
        let finding = marked.finding(alloc, code, slips, place)?;
        findings.push(finding)?;
    }
    Ok(())
}

/// The findings on places, by their answers.
fn said_of_places(
    alloc: Global,
    marked: &Marked<'_>,
    policy: &Policy,
    answers: &[Answer],
) -> Result<Said, AllocError>
    ensures { IfOk result (SaysPlaces answers.now) }
{
    let reasons = reasons_of(alloc, policy, answers)?;
    let slips = marked.slips(alloc, reasons.as_slice())?;
    let mut findings = Vec::new(alloc);
    for (place, answer) in answers.iter().enumerate() {
        put_place(alloc, &mut findings, marked, &slips, place, answer)?;
    }
    Ok(Said {
        findings,
        asked: answers.len(),
        undecided: open_answers(answers),
    })
}

/// How many answers are not decided.
fn open_answers(answers: &[Answer]) -> usize
    ensures { result ≡ count_by is_open answers.now }
{
    let mut count = 0;
    for answer in answers {
        count += usize::from(matches!(answer, Answer::Undecided));
    }
    count
}

/// Appends the findings on a state.
fn put_state(
    alloc: Global,
    findings: &mut Vec<Finding>,
    marked: &Marked<'_>,
    number: usize,
    answer: &StateAnswer,
) -> Result<(), AllocError>
    ensures { OnOk result (on_states findings.new.items ≡ on_states findings.old.items ++ states_named number answer.now) }
{
    let StateAnswer { entered, left } = *answer;
    put_at(
        alloc,
        findings,
        marked,
        number,
        entered,
        StateKind::NeverEntered,
    )?;
    put_at(alloc, findings, marked, number, left, StateKind::NeverLeft)?;
    Ok(())
}

/// Appends the finding on whether a state is entered, or left.
fn put_at(
    alloc: Global,
    findings: &mut Vec<Finding>,
    marked: &Marked<'_>,
    number: usize,
    extent: Extent,
    kind: StateKind,
) -> Result<(), AllocError>
    ensures { OnOk result (on_states findings.new.items ≡ on_states findings.old.items ++ states_named_at kind number extent) }
{
    if is_nowhere(extent) {
        let finding = marked.state_finding(alloc, number, kind)?;
        findings.push(finding)?;
    }
    Ok(())
}

/// Whether no facts do.
fn is_nowhere(extent: Extent) -> bool
    ensures { result ≡ is_nowhere extent }
{
    match extent {
        Extent::Nowhere => true,
        Extent::Somewhere | Extent::Undecided => false,
    }
}

/// The findings on states, by their answers.
fn said_of_states(
    alloc: Global,
    marked: &Marked<'_>,
    answers: &[StateAnswer],
) -> Result<Said, AllocError>
    ensures { IfOk result (SaysStates answers.now) }
{
    let mut findings = Vec::new(alloc);
    for (number, answer) in answers.iter().enumerate() {
        put_state(alloc, &mut findings, marked, number, answer)?;
    }
    Ok(Said {
        findings,
        asked: answers.len().saturating_mul(2),
        undecided: open_states(answers),
    })
}

/// How many states have an answer that is not decided.
fn open_states(answers: &[StateAnswer]) -> usize
    ensures { result ≡ count_by is_open_state answers.now }
{
    let mut count = 0;
    for answer in answers {
        count += usize::from(is_open(answer.entered) || is_open(answer.left));
    }
    count
}

/// Whether an answer is not decided.
fn is_open(extent: Extent) -> bool
    ensures { result ≡ is_open_extent extent }
{
    match extent {
        Extent::Undecided => true,
        Extent::Somewhere | Extent::Nowhere => false,
    }
}

/// The findings on rounds that no comment says to be meant, and on comments that say nothing.
fn said_of_rounds(
    alloc: Global,
    marked: &Marked<'_>,
    compiled: Compiled<'_, '_>,
    visits: &Visits<'_, '_>,
    answers: &[StateAnswer],
) -> Result<Said, AllocError>
    requires { IsCompiled compiled }
    ensures { IfOk result (TellsRounds compiled.entry.policy.now) }
{
    let remarks = remarks_of(alloc, marked.text(), marked.lexemes())?;
    let flaps = flaps_of(alloc, compiled, visits, answers, remarks.as_slice())?;
    let mut findings = Vec::new(alloc);
    let found = flaps.found.as_slice();
    put_rounds(alloc, marked, compiled.policy, found, &mut findings)?;
    put_wrong(alloc, compiled.policy, remarks.as_slice(), &mut findings)?;
    Ok(Said {
        findings,
        asked: flaps.asked,
        undecided: flaps.undecided,
    })
}

/// Appends the findings on rounds.
fn put_rounds(
    alloc: Global,
    marked: &Marked<'_>,
    policy: &Policy,
    found: &[Flap],
    findings: &mut Vec<Finding>,
) -> Result<(), AllocError>
    requires found { AreRounds policy.now found.now }
    requires findings { AreOnRounds policy.now findings.old.items }
    ensures { OnOk result (AreOnRounds policy.now findings.new.items) }
{
    for flap in found {
        let finding = marked.round(alloc, policy, flap)?;
        findings.push(finding)?;
    }
    Ok(())
}

/// Appends the findings on comments that say nothing that `lint` knows, or name no state.
fn put_wrong(
    alloc: Global,
    policy: &Policy,
    remarks: &[Remark<'_>],
    findings: &mut Vec<Finding>,
) -> Result<(), AllocError>
    requires { AreOnRounds policy.now findings.old.items }
    ensures { OnOk result (AreOnRounds policy.now findings.new.items) }
{
    for remark in remarks {
        put_if_wrong(alloc, policy, remark, findings)?;
    }
    Ok(())
}

/// Appends the finding on a comment, if it says nothing that `lint` knows, or names no state.
fn put_if_wrong(
    alloc: Global,
    policy: &Policy,
    remark: &Remark<'_>,
    findings: &mut Vec<Finding>,
) -> Result<(), AllocError>
    requires { AreOnRounds policy.now findings.old.items }
    ensures { OnOk result (AreOnRounds policy.now findings.new.items) }
{
    if let Some(report) = remark.wrong(alloc, policy)? {
        findings.push(Finding::plain(alloc, report, None))?;
    }
    Ok(())
}

/// Judges the places and the states of a policy, and looks for rounds. The tree and the policy are those of the text with these
/// definitions. Returns an error if an allocation fails.
pub fn lint<'a>(
    alloc: Global,
    text: &'a str,
    definitions: &'a [(&'a str, &'a str)],
    tree: &Tree,
    policy: &Policy,
) -> Result<Linted, AllocError>
    // The findings on places and states are those that right answers name, in order: their kinds, and which places and states.
    ensures tells { IfOk result (Tells policy.now) }
    // The policy goes each reported round.
    ensures rounds { IfOk result (λ linted. TellsRounds policy.now linted.rounds) }
    // If none is on a round and all is decided of rounds, there is none.
    ensures rests { IfOk result (λ linted. IsQuietOf text.now policy.now linted.rounds) }
{
    let mut budget = Budget::POLICY.within(situations_of(policy, PARTS));
    let answers = judge_places(alloc, policy, &mut budget)?;
    let states = judge_states(alloc, policy, &mut budget)?;
    let marked = Marked::read(alloc, text, definitions, tree)?;
    let (answers, states) = (answers.as_slice(), states.as_slice());
    let found = image_of(alloc, policy)?;
    let image = bytes_of(&found);
    let compiled = Compiled { policy, image };
    let linted = linted_on(alloc, text, &marked, compiled, answers, states)?;
    Ok(linted)
}

/// The bytes of an image, if there is one.
fn bytes_of(image: &Option<PolicyImage>) -> Option<&[u8]>
    ensures { (policy : PolicyOfCore) → IfSome image.now (λ image. IsImageOf policy image.bytes.items image.budgets) → IfSome result (λ bytes. IsWritten policy bytes.now) }
{
    match image {
        Some(image) => Some(image.bytes.as_slice()),
        None => None,
    }
}

/// What is said by these answers, and by cores on the image of the policy, if it has one.
fn linted_on(
    alloc: Global,
    text: &str,
    marked: &Marked<'_>,
    compiled: Compiled<'_, '_>,
    answers: &[Answer],
    states: &[StateAnswer],
) -> Result<Linted, AllocError>
    requires { IsCompiled compiled }
    ensures says { IfOk result (SaysLessOfStates answers.now states.now) }
    ensures rounds { IfOk result (λ linted. TellsRounds compiled.entry.policy.now linted.rounds) }
    ensures rests { IfOk result (λ linted. IsQuietOf text.now compiled.entry.policy.now linted.rounds) }
{
    let policy = compiled.policy;
    let visits = Visits::of(
        alloc,
        policy,
        compiled.image.unwrap_or(&[]),
        WAYS.within(situations_of(policy, PARTS)),
    )?;
    let told = said_of_rounds(alloc, marked, compiled, &visits, states)?;
    let rounds = with_rest(alloc, text, policy, told)?;
    let seen = answers_seen(alloc, states, &visits)?;
    let linted = said_of(alloc, marked, policy, answers, seen.as_slice(), rounds)?;
    Ok(linted)
}

/// The findings on rounds. If there is none and the text has no comment that leaves out a round, it is asked whether there can be a round,
/// and not decided unless there is none.
fn with_rest(alloc: Global, text: &str, policy: &Policy, rounds: Said) -> Result<Said, AllocError>
    ensures rests { IfOk result (IsQuietOf text.now policy.now) }
    ensures findings { IfOk result (λ said. said.findings ≡ rounds.findings) }
{
    if may_mean(text) || !rounds.findings.is_empty() || rounds.undecided != 0 {
        return Ok(rounds);
    }
    let goes_on = may_go_on(alloc, policy)?;
    Ok(Said {
        findings: rounds.findings,
        asked: rounds.asked,
        undecided: usize::from(goes_on),
    })
}

/// Whether a text has the words of a comment that leaves out a round.
fn may_mean(text: &str) -> bool
    ensures { MeansNone text.now → result ≡ false }
{
    memmem::find(text.as_bytes(), b"may flap").is_some()
}

/// Whether the state may change more often than there are states while no fact does, as in a round. Returns true if that is not decided.
fn may_go_on(alloc: Global, policy: &Policy) -> Result<bool, AllocError>
    ensures { IfOk result (λ goes_on. OnFalse goes_on (RestsWithin policy.now (length policy.now.tables.states))) }
{
    let mut budget = REST.within(situations_of(policy, PARTS));
    let reachable = ReachableStates::of(alloc, policy, &mut budget)?;
    let told = rests_within(&reachable, policy.counts().states, &mut budget)?;
    match told {
        Extent::Nowhere => Ok(false),
        Extent::Somewhere | Extent::Undecided => Ok(true),
    }
}

/// The answers for states. It is open whether a state is entered if facts lead there, but no walk of a core.
fn answers_seen(
    alloc: Global,
    answers: &[StateAnswer],
    visits: &Visits<'_, '_>,
) -> Result<Vec<StateAnswer>, AllocError>
    ensures { IfOk result (λ seen. SayLess answers.now seen.items) }
{
    let mut seen = Vec::new(alloc);
    let mut number = 0u16;
    for answer in answers {
        let is_missed = visits.misses(StateId(number));
        seen.push(answer_seen(*answer, is_missed))?;
        number = number.saturating_add(1);
    }
    Ok(seen)
}

/// The answer for a state, which walks may have missed.
fn answer_seen(answer: StateAnswer, is_missed: bool) -> StateAnswer
    ensures { SaysLess answer result }
{
    let entered = match answer.entered {
        Extent::Somewhere if is_missed => Extent::Undecided,
        entered => entered,
    };
    StateAnswer {
        entered,
        left: answer.left,
    }
}

/// What is said by these answers.
fn said_of(
    alloc: Global,
    marked: &Marked<'_>,
    policy: &Policy,
    answers: &[Answer],
    states: &[StateAnswer],
    rounds: Said,
) -> Result<Linted, AllocError>
    ensures says { IfOk result (SaysAll answers.now states.now) }
    ensures rounds { IfOk result (λ linted. linted.rounds ≡ rounds) }
{
    let states = said_of_states(alloc, marked, states)?;
    let places = said_of_places(alloc, marked, policy, answers)?;
    Ok(Linted {
        places,
        states,
        rounds,
    })
}

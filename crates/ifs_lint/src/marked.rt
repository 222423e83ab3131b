//! A policy as it is written, with the places of what is judged, and what is said of these.

ghost use Rattle.std.specs.Prelude.{◌≡◌, true, IfOk, codes};
ghost use Rattle.ifs_lint.specs.Clean.{is_defect};
ghost use Rattle.ifs_lint.specs.Kinds.{kind_of};
ghost use Rattle.ifs_lint.specs.Naming.{on_place, on_state, place_named, state_named};

use crate::finding::Finding;
use crate::flaps::Flap;
use crate::following::Slips;
use crate::likeness::said_of;
use crate::marks::{Kind, Mark, Marks, marks_of};
use crate::meant::hint_comment;
use crate::placing::{Where, where_is};
use crate::reasons::{Cause, Reason};
use crate::wording::{
    Named, StateKind, Subject, put_answer, put_leads, put_round, put_state, put_tokens,
};
use crate::worlds::put_worlds;
use ifs_base::StateId;
use ifs_lex::Lexeme;
use ifs_parse::Tree;
use ifs_policy::Policy;
use ifs_policy_text::TokenizedPolicy;
use ifs_report::{Draft, Place, Report, Severity};
use ifs_solver::Answer;
use std::alloc::{AllocError, Global};

/// A policy with the places of its conditions, actions and states.
pub(crate) struct Marked<'a> {
    text: TokenizedPolicy<'a>,
    definitions: &'a [(&'a str, &'a str)],
    marks: Marks,
}

impl Drop for Marked<'_> {
    fn drop(self) {
        let Marked {
            text: _text,
            definitions: _definitions,
            marks: _marks,
        } = self;
    }
}

/// The place of an operand or an action that is not there.
const NOWHERE: Mark = Mark {
    kind: Kind::Test,
    first: 0,
    last: 0,
};

impl<'a> Marked<'a> {
    /// Reads a text that has this tree, and marks its places.
    pub fn read(
        alloc: Global,
        text: &'a str,
        definitions: &'a [(&'a str, &'a str)],
        tree: &Tree,
    ) -> Result<Marked<'a>, AllocError> {
        let text = TokenizedPolicy::read(alloc, text, definitions)?;
        let marks = marks_of(alloc, tree, text.tokens.as_slice())?;
        Ok(Marked {
            text,
            definitions,
            marks,
        })
    }

    /// The text of the policy.
    pub fn text(&self) -> &'a str {
        self.text.text
    }

    /// The lexemes of the text.
    pub fn lexemes(&self) -> &[Lexeme<'a>] {
        self.text.lexemes.as_slice()
    }

    /// The reasons of findings, with what follows from what.
    pub fn slips<'b>(
        &'b self,
        alloc: Global,
        reasons: &'b [Reason],
    ) -> Result<Slips<'b>, AllocError> {
        let mut repeats = Vec::new(alloc);
        for reason in reasons {
            repeats.push(self.repeats(reason))?;
        }
        Slips::of(alloc, reasons, self.marks.places.as_slice(), repeats)
    }

    /// The mark of a place.
    fn mark(&self, place: usize) -> Mark {
        match self.marks.places.get(place) {
            Some(mark) => *mark,
            None => NOWHERE,
        }
    }

    /// Where a place is.
    fn place(&self, alloc: Global, place: usize) -> Result<Where, AllocError> {
        where_is(alloc, &self.text, self.mark(place))
    }

    /// The words of a place: what is there in the text, or its tokens if a macro has others beside them.
    fn words(&self, alloc: Global, place: usize) -> Result<String, AllocError> {
        let mark = self.mark(place);
        let found = where_is(alloc, &self.text, mark)?;
        let mut words = String::new(alloc);
        if found.is_exact {
            words.push_str(self.text.word(found.place, self.definitions))?;
        } else {
            let tokens = self.text.tokens.as_slice();
            let part = tokens.get(mark.first..mark.last.saturating_add(1));
            put_tokens(&mut words, part.unwrap_or(tokens))?;
        }
        Ok(words)
    }

    /// The causes of a reason, with their places and words.
    fn named(&self, alloc: Global, causes: &[Cause]) -> Result<Vec<Named>, AllocError> {
        let mut named = Vec::new(alloc);
        for cause in causes {
            named.push(self.named_at(alloc, cause.place, cause.holds)?)?;
        }
        Ok(named)
    }

    /// What is at a place, with its words.
    fn named_at(&self, alloc: Global, place: usize, holds: bool) -> Result<Named, AllocError> {
        Ok(Named {
            words: self.words(alloc, place)?,
            place: self.place(alloc, place)?.place,
            holds,
        })
    }

    /// Whether a finding says only that a condition repeats the one that makes it so.
    fn repeats(&self, reason: &Reason) -> bool {
        let [cause] = reason.causes.as_slice() else {
            return false;
        };
        let said = said_of(
            self.text.tokens.as_slice(),
            self.mark(reason.place),
            self.mark(cause.place),
            cause.holds,
        );
        match reason.answer {
            Answer::Always => said == Some(true),
            Answer::Never => said == Some(false),
            _ => false,
        }
    }

    /// Where the `set-state` is that overrules this one.
    fn later(&self, alloc: Global, reason: &Reason) -> Result<Option<Place>, AllocError> {
        match reason.later {
            Some(place) => Ok(Some(self.place(alloc, place)?.place)),
            None => Ok(None),
        }
    }

    /// The finding of a kind on a place whose answer names a defect.
    pub fn finding(
        &self,
        alloc: Global,
        code: &'static str,
        slips: &Slips<'_>,
        place: usize,
    ) -> Result<Finding, AllocError>
        ensures { IfOk result (λ finding. on_place finding ≡ place_named place code.now) }
    {
        let mut report = self.report(alloc, slips, place)?;
        report.code = code;
        Ok(Finding::plain(alloc, report, Some(place)))
    }

    /// The report on a place.
    fn report(&self, alloc: Global, slips: &Slips<'_>, place: usize) -> Result<Report, AllocError> {
        // each such place has a reason
        let Some(number) = slips.number(place) else {
            return Draft::new(alloc, Severity::Warning).finish();
        };
        let Some(reason) = slips.reason(number) else {
            return Draft::new(alloc, Severity::Warning).finish();
        };
        let severity = if slips.is_note(number) {
            Severity::Note
        } else {
            Severity::Warning
        };
        let mut draft = Draft::new(alloc, severity);
        let shown = self.shown(alloc, slips, number)?;
        self.put_all(alloc, reason, shown.as_slice(), &mut draft)?;
        draft.finish()
    }

    /// The operands that show why a condition is never or always true whatever leads there.
    fn shown(
        &self,
        alloc: Global,
        slips: &Slips<'_>,
        number: usize,
    ) -> Result<Vec<Named>, AllocError> {
        let found = slips.shown_by(number);
        let Some(other) = found.and_then(|other| slips.reason(other)) else {
            return Ok(Vec::new(alloc));
        };
        let mut shown = self.named(alloc, other.causes.as_slice())?;
        shown.push(self.named_at(alloc, other.place, true)?)?;
        Ok(shown)
    }

    /// Says of a place what its answer says, and names the places that make it so.
    fn put_all(
        &self,
        alloc: Global,
        reason: &Reason,
        shown: &[Named],
        draft: &mut Draft,
    ) -> Result<(), AllocError> {
        let found = self.place(alloc, reason.place)?;
        let later = self.later(alloc, reason)?;
        let words = self.words(alloc, reason.place)?;
        let causes = self.named(alloc, reason.causes.as_slice())?;
        let subject = Subject {
            text: self.text.text,
            kind: self.mark(reason.place).kind,
            words: words.as_str(),
            causes: causes.as_slice(),
            shown,
            later,
        };
        draft.at(found.place);
        put_answer(draft, reason.answer, subject);
        put_labels(draft, found.used, subject);
        Ok(())
    }

    /// Where a state has its name.
    fn state_place(&self, alloc: Global, number: usize) -> Result<Place, AllocError> {
        match self.marks.states.get(number) {
            Some(token) => Ok(self.text.spot(alloc, *token)?.place),
            None => Ok(Place::File),
        }
    }

    /// The finding on a state: that it is never entered, or never left.
    pub fn state_finding(
        &self,
        alloc: Global,
        number: usize,
        kind: StateKind,
    ) -> Result<Finding, AllocError>
        ensures { IfOk result (λ finding. on_state finding ≡ state_named number kind) }
    {
        let mut report = self.state_report(alloc, number, kind)?;
        report.code = kind.code();
        report.severity = kind.severity();
        Ok(Finding::plain(alloc, report, Some(number)))
    }

    /// The report on a state.
    fn state_report(
        &self,
        alloc: Global,
        number: usize,
        kind: StateKind,
    ) -> Result<Report, AllocError> {
        let place = self.state_place(alloc, number)?;
        let mut draft = Draft::new(alloc, kind.severity());
        draft.at(place);
        put_state(&mut draft, self.text.word(place, self.definitions), kind);
        draft.finish()
    }

    /// The finding on a round.
    pub fn round(&self, alloc: Global, policy: &Policy, flap: &Flap) -> Result<Finding, AllocError>
        ensures kind { IfOk result (λ finding. kind_of finding ≡ codes "round") }
        ensures defect { IfOk result (λ finding. is_defect finding ≡ true) }
        ensures states { IfOk result (λ finding. finding.states.items ≡ flap.now.states.items) }
    {
        let names = names_of(alloc, policy, flap.states.as_slice())?;
        let mut report = self.round_report(alloc, policy, names.as_slice(), flap)?;
        report.code = "round";
        report.severity = Severity::Warning;
        Ok(Finding {
            report,
            number: None,
            states: Vec::from_slice(alloc, flap.states.as_slice())?,
            requests: String::from_str(alloc, flap.requests.as_str())?,
        })
    }

    /// The report on a round of states with these names.
    fn round_report(
        &self,
        alloc: Global,
        policy: &Policy,
        names: &[&str],
        flap: &Flap,
    ) -> Result<Report, AllocError> {
        let place = match flap.states.first() {
            Some(state) => self.state_place(alloc, usize::from(state.0))?,
            None => Place::File,
        };
        let leads = self.leads(alloc, flap.leads.as_slice())?;
        let mut draft = Draft::new(alloc, Severity::Warning);
        draft.at(place);
        put_round(&mut draft, names);
        put_worlds(&mut draft, policy, &flap.worlds);
        put_leads(&mut draft, self.text.text, leads.as_slice());
        hint_comment(&mut draft, names);
        draft.finish()
    }

    /// The `set-state`s at some places, with their words.
    fn leads(&self, alloc: Global, places: &[usize]) -> Result<Vec<Named>, AllocError> {
        let mut leads = Vec::new(alloc);
        for place in places {
            leads.push(self.named_at(alloc, *place, true)?)?;
        }
        Ok(leads)
    }
}

/// Names the use of a macro that a place is in, the conditions that make its answer so, and what overrules it.
fn put_labels(draft: &mut Draft, used: Option<Place>, subject: Subject<'_>) {
    if let Some(used) = used {
        draft.label(used, "used here");
    }
    for cause in subject.causes {
        draft.label(cause.place, words_of(cause.holds));
    }
    for operand in subject.shown {
        draft.label(operand.place, "this operand");
    }
    if let Some(later) = subject.later {
        draft.label(later, "overruled here");
    }
}

/// What a label says of a cause.
fn words_of(holds: bool) -> &'static str {
    if holds {
        "this holds"
    } else {
        "this does not hold"
    }
}

/// The names of states.
fn names_of<'p>(
    alloc: Global,
    policy: &'p Policy,
    states: &[StateId],
) -> Result<Vec<&'p str>, AllocError> {
    let mut names = Vec::new(alloc);
    for state in states {
        if let Some(name) = policy.state(*state) {
            names.push(name.as_str())?;
        }
    }
    Ok(names)
}

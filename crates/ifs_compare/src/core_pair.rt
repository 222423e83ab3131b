//! The same requests on the images of two policies, side by side.

use crate::choosing::Witness;
use crate::evaluating::Outcome;
use crate::sides::Stage;
use ifs_base::{CommandId, IfaceId, LinkState, StateId, TestId};
use ifs_core::{Core, Reply, Step};
use ifs_play::{Move, PLACES, end_run, line_fits, number_of, open};
use ifs_policy::Tables;
use ifs_sched::Start;
use ifs_solver::{Domain, FactSet};
use std::alloc::AllocError;

/// The greatest number of commands that an event of one of two policies may queue.
fn room_of(stage: &Stage<'_>) -> u16 {
    let (old, new) = (stage.old.budgets(), stage.new.budgets());
    old.commands.max(new.commands)
}

/// Whether each test has the same command under its number in both tables.
fn have_same_tests(old: &Tables, new: &Tables) -> bool {
    if old.tests.len() != new.tests.len() {
        return false;
    }
    for index in 0..old.tests.len() {
        match (old.tests.get(index), new.tests.get(index)) {
            (Some(one), Some(other)) if one.command.as_str() == other.command.as_str() => {}
            _ => return false,
        }
    }
    true
}

/// Keeps the commands that an event queued.
fn note_queued(queued: &mut Vec<CommandId>, reply: &Reply) -> Result<(), AllocError> {
    if let Reply::Done { queued: some, .. } | Reply::Ticked { queued: some, .. } = reply {
        queued.clear();
        queued.extend_from_slice(some.as_slice())?;
    }
    Ok(())
}

/// The value of each of so many tests of a core.
fn values_of(
    core: &Core<'_>,
    count: usize,
    values: &mut Vec<Option<bool>>,
) -> Result<(), AllocError> {
    values.clear();
    for index in 0..count {
        values.push(core.test_value(TestId(number_of(index))).unwrap_or(None))?;
    }
    Ok(())
}

/// The values that an event sees: those before it, and the result that it brings in place of the old one.
fn note_values(
    core: &Core<'_>,
    count: usize,
    step: Step,
    values: &mut Vec<Option<bool>>,
) -> Result<(), AllocError> {
    values_of(core, count, values)?;
    if let Step::Finished(test, _, value) = step {
        if let Some(seen) = values.get_mut(usize::from(test.0)) {
            *seen = Some(value);
        }
    }
    Ok(())
}

/// The value of a test, as that of a link.
fn seen_in(values: &[Option<bool>], index: usize) -> LinkState {
    match values.get(index) {
        Some(Some(true)) => LinkState::Up,
        Some(Some(false)) => LinkState::Down,
        _ => LinkState::Unknown,
    }
}

/// Whether a link of a core is as a range allows. A link that a policy does not name is.
fn has_link(core: &Core<'_>, name: &[u8], choice: Domain) -> bool {
    match core.iface_of(name) {
        Some(interface) => choice.allows(core.link(interface).unwrap_or(LinkState::Unknown)),
        None => true,
    }
}

/// Whether a core has come to the state of an outcome from another one, and has queued its commands.
fn is_outcome(
    stage: &Stage<'_>,
    core: &Core<'_>,
    queued: &[CommandId],
    outcome: &Outcome,
    before: StateId,
) -> bool {
    let next = outcome.next.unwrap_or(before);
    if core.state_name(core.state()) != Some(stage.state_name(next)) {
        return false;
    }
    if queued.len() != outcome.commands.len() {
        return false;
    }
    for (one, other) in queued.iter().zip(outcome.commands.iter()) {
        if core.command_text(*one) != Some(stage.command_text(*other)) {
            return false;
        }
    }
    true
}

/// How the replies of two cores differ.
#[derive(Clone, Copy)]
pub(crate) enum Replies {
    /// Not at all.
    Same,
    /// In another state, another number of commands or other tests that start.
    Apart,
    /// Only in the texts of commands, which show when they are taken.
    OtherTexts,
}

impl Replies {
    /// Whether they do.
    pub fn differ(self) -> bool {
        !matches!(self, Replies::Same)
    }

    /// Whether that shows before commands are taken.
    pub fn are_apart(self) -> bool {
        matches!(self, Replies::Apart)
    }
}

/// Replies that differ or not.
fn apart_if(differ: bool) -> Replies {
    if differ {
        Replies::Apart
    } else {
        Replies::Same
    }
}

/// Two cores that are given the same requests.
pub(crate) struct CorePair<'i> {
    old: Core<'i>,
    new: Core<'i>,
    room: usize,
    same_tests: bool,
    /// How many tests the old policy has.
    tests: usize,
    /// Runs of tests that have not ended.
    runs: Vec<Start>,
    /// The steps of the old policy so far.
    steps: Vec<Step>,
    /// The commands that the last events queued.
    old_queued: Vec<CommandId>,
    new_queued: Vec<CommandId>,
    /// The values of tests that the last events saw.
    old_values: Vec<Option<bool>>,
    new_values: Vec<Option<bool>>,
}

impl Drop for CorePair<'_> {
    fn drop(self) {
        let CorePair {
            old: _old,
            new: _new,
            room: _room,
            same_tests: _same_tests,
            tests: _tests,
            runs: _runs,
            steps: _steps,
            old_queued: _old_queued,
            new_queued: _new_queued,
            old_values: _old_values,
            new_values: _new_values,
        } = self;
    }
}

impl<'i> CorePair<'i> {
    /// Opens a core on the image of each policy. There are none if one is not accepted.
    pub fn open(stage: &Stage<'i>) -> Result<Option<CorePair<'i>>, AllocError> {
        match open(stage.alloc, stage.old.bytes())? {
            Some(old) => CorePair::open_beside(stage, old),
            None => Ok(None),
        }
    }

    /// The same beside the core of the old policy.
    fn open_beside(stage: &Stage<'i>, old: Core<'i>) -> Result<Option<CorePair<'i>>, AllocError> {
        let found = open(stage.alloc, stage.new.bytes())?;
        Ok(match found {
            Some(new) => Some(CorePair::of(stage, old, new)),
            None => None,
        })
    }

    /// Two cores that are just opened.
    fn of(stage: &Stage<'i>, old: Core<'i>, new: Core<'i>) -> CorePair<'i> {
        CorePair {
            old,
            new,
            room: usize::from(room_of(stage)),
            same_tests: have_same_tests(stage.old.policy().tables(), stage.new.policy().tables()),
            tests: stage.old.policy().tables().tests.len(),
            runs: Vec::new(stage.alloc),
            steps: Vec::new(stage.alloc),
            old_queued: Vec::new(stage.alloc),
            new_queued: Vec::new(stage.alloc),
            old_values: Vec::new(stage.alloc),
            new_values: Vec::new(stage.alloc),
        }
    }

    /// The present state of the old policy.
    pub fn state(&self) -> StateId {
        self.old.state()
    }

    /// The runs of tests that have not ended.
    pub fn runs(&self) -> &[Start] {
        self.runs.as_slice()
    }

    /// The steps of the old policy. It ends.
    pub fn into_steps(self) -> Vec<Step> {
        let CorePair {
            old: _old,
            new: _new,
            room: _room,
            same_tests: _same_tests,
            tests: _tests,
            runs: _runs,
            steps,
            old_queued: _old_queued,
            new_queued: _new_queued,
            old_values: _old_values,
            new_values: _new_values,
        } = self;
        steps
    }

    /// The same, if the cores differ.
    pub fn into_steps_if(self, differ: bool) -> Option<Vec<Step>> {
        let steps = self.into_steps();
        if differ { Some(steps) } else { None }
    }

    /// Makes the step of a move, whose link is that of an interface of the tables. Returns whether the cores answer differently:
    /// with another state, other commands or other tests that start.
    pub fn make(&mut self, stage: &Stage<'_>, happens: Move) -> Result<bool, AllocError> {
        match happens {
            Move::Link(interface, state) => self.link(stage, interface, state),
            Move::Wait(seconds) => self.wait(seconds),
            Move::End(test, value) => self.finish(test, value),
        }
    }

    fn link(
        &mut self,
        stage: &Stage<'_>,
        interface: IfaceId,
        state: LinkState,
    ) -> Result<bool, AllocError> {
        let Some(name) = stage.tables.interfaces.get(usize::from(interface.0)) else {
            return Ok(false);
        };
        if !line_fits(name.as_str(), state) {
            return Ok(false);
        }
        let (first, second) = (
            self.old.iface_of(name.as_bytes()),
            self.new.iface_of(name.as_bytes()),
        );
        let (Some(old), Some(new)) = (first, second) else {
            return Ok(false);
        };
        self.make_both(Step::Link(old, state), Step::Link(new, state))
    }

    fn wait(&mut self, seconds: u64) -> Result<bool, AllocError> {
        let moment = self.old.now().saturating_add(seconds);
        self.make_both(Step::Tick(moment), Step::Tick(moment))
    }

    fn finish(&mut self, test: TestId, value: bool) -> Result<bool, AllocError> {
        let Some(run) = end_run(&mut self.runs, test) else {
            return Ok(false);
        };
        let step = Step::Finished(test, run, value);
        self.make_both(step, step)
    }

    /// Makes a step of the old core, and that of the same names of the new one.
    pub fn make_step(&mut self, stage: &Stage<'_>, old: Step) -> Result<Replies, AllocError> {
        self.note_seen(old)?;
        let new = match old {
            Step::Link(interface, state) => match self.other_iface(stage, interface) {
                Some(other) => Step::Link(other, state),
                None => return Ok(Replies::Same),
            },
            step => step,
        };
        self.both(old, new)
    }

    /// The number of an interface of the old policy in the new one.
    fn other_iface(&self, stage: &Stage<'_>, interface: IfaceId) -> Option<IfaceId> {
        let name = stage.old.policy().interface(interface)?;
        self.new.iface_of(name.as_bytes())
    }

    /// Makes a step of each core that has room for it. Returns whether they answer differently.
    fn make_both(&mut self, old: Step, new: Step) -> Result<bool, AllocError> {
        self.make_room()?;
        self.note_seen(old)?;
        match self.both(old, new)? {
            Replies::Same => Ok(false),
            Replies::Apart => Ok(true),
            Replies::OtherTexts => {
                self.take_apart()?;
                Ok(true)
            }
        }
    }

    /// Notes the values of tests that a step sees.
    fn note_seen(&mut self, step: Step) -> Result<(), AllocError> {
        note_values(&self.old, self.tests, step, &mut self.old_values)?;
        note_values(&self.new, self.tests, step, &mut self.new_values)
    }

    /// Makes a step of each core, and compares the replies.
    fn both(&mut self, old: Step, new: Step) -> Result<Replies, AllocError> {
        let first = self.old.step(old);
        let second = self.new.step(new);
        self.steps.push(old)?;
        self.note_starts(&first)?;
        note_queued(&mut self.old_queued, &first)?;
        note_queued(&mut self.new_queued, &second)?;
        Ok(self.replies_of(&first, &second))
    }

    /// Whether the events that the cores have just made in a state are those of a witness: under its facts they lead to the states
    /// and queue the commands that it names.
    pub fn shows(&self, stage: &Stage<'_>, witness: &Witness, state: StateId) -> bool {
        let outcomes = &witness.outcomes;
        is_outcome(
            stage,
            &self.old,
            self.old_queued.as_slice(),
            &outcomes.old,
            state,
        ) && is_outcome(
            stage,
            &self.new,
            self.new_queued.as_slice(),
            &outcomes.new,
            state,
        ) && self.has_facts(stage, &witness.range)
    }

    /// Whether each link and each test of both cores is as a range allows.
    fn has_facts(&self, stage: &Stage<'_>, range: &FactSet) -> bool {
        self.has_links(stage, range) && self.has_values(range)
    }

    /// The same of links.
    fn has_links(&self, stage: &Stage<'_>, range: &FactSet) -> bool {
        for (index, choice) in range.links.iter().enumerate() {
            if let Some(name) = stage.tables.interfaces.get(index) {
                let name = name.as_bytes();
                if !has_link(&self.old, name, *choice) || !has_link(&self.new, name, *choice) {
                    return false;
                }
            }
        }
        true
    }

    /// The same of tests. If the policies do not have the same ones, no test has got a result.
    fn has_values(&self, range: &FactSet) -> bool {
        for (index, choice) in range.tests.iter().enumerate() {
            let old = seen_in(self.old_values.as_slice(), index);
            let new = seen_in(self.new_values.as_slice(), index);
            if !choice.allows(old) || !choice.allows(new) {
                return false;
            }
        }
        true
    }

    /// Notes the runs that begin.
    fn note_starts(&mut self, reply: &Reply) -> Result<(), AllocError> {
        if let Reply::Ticked { starts, .. } = reply {
            if self.same_tests {
                self.runs.extend_from_slice(starts.as_slice())?;
            }
        }
        Ok(())
    }

    /// How two replies differ.
    fn replies_of(&self, first: &Reply, second: &Reply) -> Replies {
        match (first, second) {
            (
                Reply::Done {
                    state: one,
                    queued: some,
                    ..
                },
                Reply::Done {
                    state: other,
                    queued: others,
                    ..
                },
            ) => self.events_of(*one, some.as_slice(), *other, others.as_slice()),
            (
                Reply::Ticked {
                    state: one,
                    queued: some,
                    starts: begun,
                    ..
                },
                Reply::Ticked {
                    state: other,
                    queued: others,
                    starts: also,
                    ..
                },
            ) => {
                if self.same_tests && begun.as_slice() != also.as_slice() {
                    Replies::Apart
                } else {
                    self.events_of(*one, some.as_slice(), *other, others.as_slice())
                }
            }
            (Reply::Taken(one), Reply::Taken(other)) => apart_if(self.texts_differ(*one, *other)),
            (Reply::Same, Reply::Same) => Replies::Same,
            (Reply::Stale, Reply::Stale) => Replies::Same,
            (Reply::Empty, Reply::Empty) => Replies::Same,
            (Reply::Busy, Reply::Busy) => Replies::Same,
            _ => Replies::Apart,
        }
    }

    /// How two events differ.
    fn events_of(
        &self,
        one: StateId,
        some: &[CommandId],
        other: StateId,
        others: &[CommandId],
    ) -> Replies {
        if self.old.state_name(one) != self.new.state_name(other) || some.len() != others.len() {
            return Replies::Apart;
        }
        for (first, second) in some.iter().zip(others.iter()) {
            if self.texts_differ(*first, *second) {
                return Replies::OtherTexts;
            }
        }
        Replies::Same
    }

    /// Whether two commands have other texts.
    fn texts_differ(&self, one: CommandId, other: CommandId) -> bool {
        self.old.command_text(one) != self.new.command_text(other)
    }

    /// Takes as many commands as an event needs places.
    fn make_room(&mut self) -> Result<(), AllocError> {
        for _ in 0..PLACES {
            let most = self.old.queue_len().max(self.new.queue_len());
            if PLACES.saturating_sub(most) >= self.room {
                break;
            }
            self.both(Step::Take, Step::Take)?;
        }
        Ok(())
    }

    /// Takes commands until they differ. Returns whether they do.
    pub fn take_apart(&mut self) -> Result<bool, AllocError> {
        for _ in 0..PLACES {
            if self.old.queue_len() == 0 && self.new.queue_len() == 0 {
                break;
            }
            if self.both(Step::Take, Step::Take)?.differ() {
                return Ok(true);
            }
        }
        Ok(false)
    }
}

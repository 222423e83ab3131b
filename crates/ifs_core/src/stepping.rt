//! Steps.

ghost use Rattle.std.specs.Prelude.{◌≡◌, ◌≤◌, ◌+◌, ◌++◌, length};
ghost use Rattle.ifs_base.specs.Facts.{is_link};
ghost use Rattle.ifs_core.specs.Steps.{has_value as is_value};

use crate::event::evaluate;
use crate::gateway::Core;
use crate::step::{Answer, Lists, Outcome, Record, Reply, Step};
use arrayvec::ArrayVec;
use ifs_base::{CommandId, IfaceId, LinkState, TestId};
use ifs_machine::Effects;

impl<'a> Core<'a> {
    ghost use Rattle.std.specs.Prelude.{◌≡◌, ◌≤◌, ◌<◌, ◌+◌, [], false, All, length};
    ghost use Rattle.ifs_sched.specs.Schedule.{is_running};
    ghost use Rattle.ifs_machine.specs.Run.{IsCommand};
    ghost use Rattle.ifs_core.specs.Event.{Behaviour, IsEvent, event_with, evaluation};
    ghost use Rattle.ifs_core.specs.Machine.{IsBehaviour};
    ghost use Rattle.ifs_core.specs.Headline.{StepKeeps};
    ghost use Rattle.ifs_core.specs.Steps.{Makes, turn, take_turn, reply_of, taken_reply, settled, ticked_after};
    ghost use Rattle.ifs_core.specs.Steps.{same as nothing_new, at_position, with_link, with_value};
    ghost use Rattle.ifs_core.specs.Steps.{with_run_over, lacks_room as is_without_room, done as comes_to};

    /// Makes a step. It allocates nothing, and cannot fail.
    ///
    /// The reply is the first of these that applies: `NoSuch` for an index that is not in its table; `Stale` for a run
    /// under whose number the test does not run; `Backwards` for a moment before the present one; `Empty` or `Taken`
    /// for the taking of a command; `Same` if no fact would change; `Busy` if an evaluation is due and the queue has
    /// fewer free places than the image's stated commands; otherwise `Done` or `Ticked`.
    pub fn step(&mut self, step: Step) -> Reply
        ensures image { self.new.image ≡ self.old.image }
        // The reply and the next state are those of the run, whose handlers run on the machine.
        ensures run { (b : Behaviour) → IsBehaviour self.old.image b
            → Makes (turn b self.old.image.budgets.commands step self.old.state) result self.new.state }
        // They keep the headline.
        ensures kept { StepKeeps self.old.image self.old.state step (record { reply = result; next = self.new.state }) }
    {
        let mut lists = Lists::new();
        let outcome = self.step_into(step, &mut lists);
        outcome.with_lists(lists)
    }

    /// Makes the same step, with a reply in two parts: it puts the lists into a borrowed place, and returns the rest.
    /// A caller that makes many steps can pass the same place to each of them, and moves no list.
    pub fn step_into(&mut self, step: Step, lists: &mut Lists) -> Outcome
        ensures image { self.new.image ≡ self.old.image }
        ensures run { (b : Behaviour) → IsBehaviour self.old.image b
            → Makes (turn b self.old.image.budgets.commands step self.old.state) (reply_of result lists.new) self.new.state }
        ensures kept { StepKeeps self.old.image self.old.state step (record { reply = reply_of result lists.new; next = self.new.state }) }
    {
        self.image();
        match step {
            Step::Link(interface, link) => self.link_changes(interface, link, lists),
            Step::Finished(test, run, value) => self.test_finishes(test, run, value, lists),
            Step::Tick(now) => self.tick(now, lists),
            Step::Take => match self.take() {
                Some(command) => Outcome::Taken(command),
                None => Outcome::Empty,
            },
        }
    }

    /// The step `Take`: removes and returns the first command of the queue; `None` if there is none.
    pub fn take(&mut self) -> Option<CommandId>
        ensures image { self.new.image ≡ self.old.image }
        ensures run { Makes (take_turn self.old.state.queue self.old.state) (taken_reply result) self.new.state }
        ensures kept { StepKeeps self.old.image self.old.state Step.Take (record { reply = taken_reply result; next = self.new.state }) }
    {
        self.image();
        self.first_taken()
    }

    /// Removes and returns the first command of the queue.
    fn first_taken(&mut self) -> Option<CommandId>
        ensures image { self.new.image ≡ self.old.image }
        ensures run { Makes (take_turn self.old.state.queue self.old.state) (taken_reply result) self.new.state }
    {
        if self.queue.is_empty() {
            return None;
        }
        let command = self.queue.remove(0);
        self.settle_alone(Step::Take, Answer::Taken);
        Some(command)
    }

    /// The step `Link`.
    fn link_changes(&mut self, interface: IfaceId, link: LinkState, lists: &mut Lists) -> Outcome
        ensures image { self.new.image ≡ self.old.image }
        ensures run { (b : Behaviour) → IsBehaviour self.old.image b
            → Makes (turn b self.old.image.budgets.commands (Step.Link interface link) self.old.state) (reply_of result lists.new) self.new.state }
    {
        let step = Step::Link(interface, link);
        let Some(before) = self.link(interface) else {
            return Outcome::NoSuch;
        };
        if is_same_link(before, link) {
            return self.same(step);
        }
        if self.lacks_room() {
            return Outcome::Busy;
        }
        self.set_link(interface, link);
        self.done(step, lists)
    }

    /// The step `Finished`.
    fn test_finishes(&mut self, test: TestId, run: u64, value: bool, lists: &mut Lists) -> Outcome
        ensures image { self.new.image ≡ self.old.image }
        ensures run { (b : Behaviour) → IsBehaviour self.old.image b
            → Makes (turn b self.old.image.budgets.commands (Step.Finished test run value) self.old.state) (reply_of result lists.new) self.new.state }
    {
        let step = Step::Finished(test, run, value);
        let Some(before) = self.test_value(test) else {
            return Outcome::NoSuch;
        };
        if !self.runs(test, run) {
            return Outcome::Stale;
        }
        if has_value(value, before) {
            self.end_run(test, run);
            return self.same(step);
        }
        if self.lacks_room() {
            return Outcome::Busy;
        }
        self.end_run(test, run);
        self.set_value(test, value);
        self.done(step, lists)
    }

    /// The step `Tick`.
    fn tick(&mut self, now: u64, lists: &mut Lists) -> Outcome
        ensures image { self.new.image ≡ self.old.image }
        ensures run { (b : Behaviour) → IsBehaviour self.old.image b
            → Makes (turn b self.old.image.budgets.commands (Step.Tick now) self.old.state) (reply_of result lists.new) self.new.state }
    {
        if now < self.now() {
            return Outcome::Backwards;
        }
        if !self.owed() {
            lists.effects.queued.clear();
            prove!(self.queue.len() <= 64);
            return self.ticked(now, false, 0, lists);
        }
        if self.lacks_room() {
            return Outcome::Busy;
        }
        let cost = self.evaluated(&mut lists.effects);
        self.ticked(now, true, cost, lists)
    }

    /// A step without a change of a fact.
    fn same(&mut self, step: Step) -> Outcome
        ensures outcome { result ≡ Outcome.Same }
        ensures image { self.new.image ≡ self.old.image }
        ensures state { self.new.state ≡ (nothing_new step self.old.state).next }
    {
        self.settle_alone(step, Answer::Same);
        Outcome::Same
    }

    /// A step after a change of a fact: the evaluation and its reply.
    fn done(&mut self, step: Step, lists: &mut Lists) -> Outcome
        requires { is_without_room self.old.image.budgets.commands self.old.state ≡ false }
        ensures image { self.new.image ≡ self.old.image }
        ensures run { (b : Behaviour) → IsBehaviour self.old.image b
            → Makes (comes_to step (evaluation b self.old.state.position) self.old.state) (reply_of result lists.new) self.new.state }
    {
        let cost = self.evaluated(&mut lists.effects);
        self.settle(step, Answer::Done, lists.effects.queued.as_slice(), cost);
        Outcome::Done {
            state: self.state(),
            cost,
        }
    }

    /// Evaluates, and returns the cost. The commands are in the effects, and not yet in the queue, which has room for
    /// them.
    fn evaluated(&mut self, effects: &mut Effects) -> u32
        requires { is_without_room self.old.image.budgets.commands self.old.state ≡ false }
        ensures image { self.new.image ≡ self.old.image }
        ensures event { (b : Behaviour) → IsBehaviour self.old.image b
            → IsEvent (evaluation b self.old.state.position) self.new.state.position effects.new.queued.items result }
        ensures others { self.new.state ≡ at_position self.new.state.position self.old.state }
        ensures moment { self.new.state.position.schedule.present ≡ self.old.state.position.schedule.present }
        ensures room { length self.new.state.queue + length effects.new.queued.items ≤ 64 }
        ensures known { All (IsCommand self.new.image) effects.new.queued.items }
    {
        let cost = evaluate(&self.verified, &mut self.position, effects);
        cost
    }

    /// Starts the due tests, and replies to the tick.
    fn ticked(&mut self, now: u64, evaluated: bool, cost: u32, lists: &mut Lists) -> Outcome
        requires moment { self.old.state.position.schedule.present ≤ now }
        requires room { length self.old.state.queue + length lists.old.effects.queued.items ≤ 64 }
        requires known { All (IsCommand self.old.image) lists.old.effects.queued.items }
        ensures image { self.new.image ≡ self.old.image }
        ensures run { Makes (ticked_after now evaluated (event_with self.old.state.position lists.old.effects.queued.items cost) self.old.state) (reply_of result lists.new) self.new.state }
    {
        let Ok(exhausted) = self.position.schedule.tick_into(now, &mut lists.starts) else {
            unreachable!()
        };
        self.settle(
            Step::Tick(now),
            Answer::Ticked,
            lists.effects.queued.as_slice(),
            cost,
        );
        Outcome::Ticked {
            evaluated,
            state: self.state(),
            cost,
            exhausted,
        }
    }

    /// Sets the link state of an interface.
    fn set_link(&mut self, interface: IfaceId, link: LinkState)
        requires { interface.0 < length self.old.state.position.facts.links }
        ensures image { self.new.image ≡ self.old.image }
        ensures state { self.new.state ≡ at_position (with_link interface.0 link self.old.state.position) self.old.state }
    {
        self.position.facts.links[usize::from(interface.0)] = link;
    }

    /// Sets the value of a test.
    fn set_value(&mut self, test: TestId, value: bool)
        requires { test.0 < length self.old.state.position.facts.tests }
        ensures image { self.new.image ≡ self.old.image }
        ensures state { self.new.state ≡ at_position (with_value test.0 value self.old.state.position) self.old.state }
    {
        self.position.facts.tests[usize::from(test.0)] = Some(value);
    }

    /// Ends a run of a test.
    fn end_run(&mut self, test: TestId, run: u64)
        ensures image { self.new.image ≡ self.old.image }
        ensures state { self.new.state ≡ at_position (with_run_over test.0 run self.old.state.position) self.old.state }
    {
        let _ = self.position.schedule.finish(test, run);
    }

    /// Whether a test runs under a number.
    fn runs(&self, test: TestId, run: u64) -> bool
        ensures { result ≡ is_running test.0 run self.now.state.position.schedule }
    {
        self.position.schedule.is_running(test, run)
    }

    /// Records a step that queues nothing in the trace.
    fn settle_alone(&mut self, step: Step, answer: Answer)
        ensures image { self.new.image ≡ self.old.image }
        ensures state { self.new.state ≡ settled step answer [] 0 self.old.state }
    {
        prove!(self.queue.len() <= 64);
        self.settle(step, answer, &[], 0);
    }

    /// Appends the commands of a step to the queue, and records the step in the trace.
    fn settle(&mut self, step: Step, answer: Answer, commands: &[CommandId], cost: u32)
        requires room { length self.old.state.queue + length commands.now ≤ 64 }
        requires known { All (IsCommand self.old.image) commands.now }
        ensures image { self.new.image ≡ self.old.image }
        ensures state { self.new.state ≡ settled step answer commands.now cost self.old.state }
    {
        append(&mut self.queue, commands);
        self.trace.push_back(Record {
            step,
            answer,
            state: self.position.current,
            queued: commands.len() as u16,
            cost,
        });
    }

    /// Whether the queue has fewer free places than the stated commands of an event.
    fn lacks_room(&self) -> bool
        ensures { result ≡ is_without_room self.now.image.budgets.commands self.now.state }
    {
        64 - self.queue.len() < usize::from(self.verified.budgets().commands)
    }
}

/// Appends commands to a queue, which has room for them.
fn append(queue: &mut ArrayVec<CommandId, 64>, commands: &[CommandId])
    requires { length queue.old.items + length commands.now ≤ 64 }
    ensures { queue.new.items ≡ queue.old.items ++ commands.now }
{
    for command in commands {
        queue.push(*command);
    }
}

/// Whether two link states are the same.
fn is_same_link(before: LinkState, link: LinkState) -> bool
    ensures { result ≡ is_link before link }
{
    before == link
}

/// Whether a test has this value.
fn has_value(value: bool, before: Option<bool>) -> bool
    ensures { result ≡ is_value value before }
{
    match before {
        None => false,
        Some(before) => before == value,
    }
}

//! A core at work, with the steps that it has made.

use crate::making::changes_nothing;
use crate::moves::Move;
use crate::opening::{PLACES, open};
use crate::requests::has_request;
use crate::runs::end_run;
use ifs_base::{CommandId, IfaceId, LinkState, StateId, TestId};
use ifs_core::{Core, Reply, Step};
use ifs_sched::Start;
use std::alloc::{AllocError, Global};
use std::marker::Model;

/// A core that makes moves.
pub struct Simulation<'i> {
    core: Core<'i>,
    /// Runs of tests that have not ended.
    runs: Vec<Start>,
    /// The states from the initial one on, each after the one before.
    entered: Vec<StateId>,
    /// The steps so far, without those that changed nothing.
    steps: Vec<Step>,
    /// The commands that the last step queued.
    queued: Vec<CommandId>,
}

impl Drop for Simulation<'_> {
    fn drop(self) {
        let Simulation {
            core: _core,
            runs: _runs,
            entered: _entered,
            steps: _steps,
            queued: _queued,
        } = self;
    }
}

impl<'i> Model for Simulation<'i> {
    ghost use Rattle.ifs_play.specs.Played.{Played};

    ghost Value = { Played };

    ghost view = { λ it. record { core = it.core; steps = it.steps.items } };
}

impl<'i> Simulation<'i> {
    ghost use Rattle.std.specs.Prelude.{◌≡◌, [], IfOk, IfSome, OnOk};
    ghost use Rattle.ifs_core.specs.Gateway.{nothing_known};
    ghost use Rattle.ifs_gen.specs.Compiled.{IsWritten};
    ghost use Rattle.ifs_gen.specs.PolicyImage.{image_of};
    ghost use Rattle.ifs_gen.specs.Trees.{Policy};
    ghost use Rattle.ifs_play.specs.Played.{GoesOn, HasPlayed};
    ghost use Rattle.ifs_policy.specs.Fits.{PolicyFits};

    /// Opens a core on an image. There is none if the image is not accepted.
    pub fn open(alloc: Global, image: &'i [u8]) -> Result<Option<Simulation<'i>>, AllocError>
        ensures { (policy : Policy) → PolicyFits policy → IsWritten policy image.now
            → IfOk result (λ found. IfSome found (HasPlayed policy (nothing_known (image_of policy)))) }
    {
        match open(alloc, image)? {
            Some(core) => Ok(Some(Simulation::new(alloc, core)?)),
            None => Ok(None),
        }
    }

    /// The simulation of a core that is just opened.
    pub fn new(alloc: Global, core: Core<'i>) -> Result<Simulation<'i>, AllocError>
        ensures core { IfOk result (λ it. it.core ≡ core.entry) }
        ensures steps { IfOk result (λ it. it.steps ≡ []) }
    {
        let mut entered = Vec::new(alloc);
        entered.push(core.state())?;
        Ok(Simulation {
            core,
            runs: Vec::new(alloc),
            entered,
            steps: Vec::new(alloc),
            queued: Vec::new(alloc),
        })
    }

    /// The core.
    pub fn core(&self) -> &Core<'i>
        ensures { result.now ≡ self.now.core }
    {
        &self.core
    }

    /// The present state.
    pub fn state(&self) -> StateId
        ensures { result ≡ self.now.core.state.position.current }
    {
        self.core.state()
    }

    /// The present moment.
    pub fn now(&self) -> u64 {
        self.core.now()
    }

    /// The states so far.
    pub fn entered(&self) -> &[StateId] {
        self.entered.as_slice()
    }

    /// The runs of tests that have not ended.
    pub fn runs(&self) -> &[Start] {
        self.runs.as_slice()
    }

    /// The steps so far, without those that changed nothing.
    pub fn steps(&self) -> &[Step]
        ensures { result.now ≡ self.now.steps }
    {
        self.steps.as_slice()
    }

    /// The commands that the last step queued.
    pub fn queued(&self) -> &[CommandId] {
        self.queued.as_slice()
    }

    /// Ends it.
    pub fn end(self) {}

    /// Makes the step of a move. There is none if a link is in its state already, or if its name is too long for a request, or if a
    /// test does not run.
    pub fn make(&mut self, happens: Move) -> Result<(), AllocError>
        ensures { OnOk result (GoesOn self.old self.new) }
    {
        match happens {
            Move::Link(interface, state) => self.link(interface, state),
            Move::Wait(seconds) => self.wait(seconds),
            Move::End(test, value) => self.finish(test, value),
        }
    }

    fn link(&mut self, interface: IfaceId, state: LinkState) -> Result<(), AllocError>
        ensures { OnOk result (GoesOn self.old self.new) }
    {
        if self.core.link(interface) == Some(state) || !has_request(&self.core, interface, state) {
            return Ok(());
        }
        self.step(Step::Link(interface, state))?;
        Ok(())
    }

    fn wait(&mut self, seconds: u64) -> Result<(), AllocError>
        ensures { OnOk result (GoesOn self.old self.new) }
    {
        let moment = self.core.now().saturating_add(seconds);
        let reply = self.step(Step::Tick(moment))?;
        self.keep_starts(&reply)
    }

    fn finish(&mut self, test: TestId, value: bool) -> Result<(), AllocError>
        ensures { OnOk result (GoesOn self.old self.new) }
    {
        let Some(run) = end_run(&mut self.runs, test) else {
            return Ok(());
        };
        self.step(Step::Finished(test, run, value))?;
        Ok(())
    }

    /// Makes a step, and keeps what it queued and the state afterwards.
    fn step(&mut self, step: Step) -> Result<Reply, AllocError>
        ensures { OnOk result (GoesOn self.old self.new) }
    {
        let reply = self.make_with_room(step)?;
        self.keep_queued(&reply)?;
        self.keep_state()?;
        Ok(reply)
    }

    /// Makes a step. If the queue has too few places, its commands are taken before.
    fn make_with_room(&mut self, step: Step) -> Result<Reply, AllocError>
        ensures { OnOk result (GoesOn self.old self.new) }
    {
        let reply = self.make_step(step)?;
        if !matches!(reply, Reply::Busy) {
            return Ok(reply);
        }
        self.take_all()?;
        let reply = self.make_step(step)?;
        Ok(reply)
    }

    /// Takes all commands of the queue.
    fn take_all(&mut self) -> Result<(), AllocError>
        ensures { OnOk result (GoesOn self.old self.new) }
    {
        for _ in 0..PLACES {
            if !self.take_one()? {
                break;
            }
        }
        Ok(())
    }

    /// Takes a command of the queue. Returns whether there was one.
    fn take_one(&mut self) -> Result<bool, AllocError>
        ensures { OnOk result (GoesOn self.old self.new) }
    {
        let reply = self.make_step(Step::Take)?;
        Ok(matches!(reply, Reply::Taken(_)))
    }

    /// Makes a step of the core, and keeps it unless it changed nothing.
    fn make_step(&mut self, step: Step) -> Result<Reply, AllocError>
        ensures { OnOk result (GoesOn self.old self.new) }
    {
        let reply = self.core.step(step);
        if changes_nothing(&reply) {
            return Ok(reply);
        }
        self.steps.push(step)?;
        Ok(reply)
    }

    /// Keeps the runs that a reply reports as begun.
    fn keep_starts(&mut self, reply: &Reply) -> Result<(), AllocError>
        ensures { OnOk result (self.new ≡ self.old) }
    {
        if let Reply::Ticked { starts, .. } = reply {
            self.runs.extend_from_slice(starts.as_slice())?;
        }
        Ok(())
    }

    /// Keeps the commands that a reply reports as queued.
    fn keep_queued(&mut self, reply: &Reply) -> Result<(), AllocError>
        ensures { OnOk result (self.new ≡ self.old) }
    {
        self.queued.clear();
        if let Reply::Done { queued, .. } | Reply::Ticked { queued, .. } = reply {
            self.queued.extend_from_slice(queued.as_slice())?;
        }
        Ok(())
    }

    /// Keeps the present state, if it is another one than before.
    fn keep_state(&mut self) -> Result<(), AllocError>
        ensures { OnOk result (self.new ≡ self.old) }
    {
        let state = self.core.state();
        if !matches!(self.entered.last(), Some(last) if *last == state) {
            self.entered.push(state)?;
        }
        Ok(())
    }
}

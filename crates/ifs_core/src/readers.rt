//! Readers of a core.

use crate::gateway::Core;
use crate::laws::accepted_is_kept;
use crate::step::Record;
use ifs_base::{CommandId, IfaceId, LinkState, StateId, TestId};
use ifs_image::ImageView;

impl<'a> Core<'a> {
    ghost use Rattle.std.specs.Prelude.{◌≡◌, ◌<◌, ◌↔◌, IsSome, IfSome, length, option_map, slice_get};
    ghost use Rattle.ifs_sched.specs.Idle.{IsNextDue};
    ghost use Rattle.ifs_sched.specs.Schedule.{running_count};
    ghost use Rattle.ifs_image.specs.Limits.{Fits};
    ghost use Rattle.ifs_verify.specs.Accepted.{IsAccepted};
    ghost use Rattle.ifs_machine.specs.Run.{IsCommand};
    ghost use Rattle.ifs_core.specs.Gateway.{IsListed, IsStateOf, interface_of};
    ghost use Rattle.ifs_core.specs.Headline.{IsKept};

    /// The running image. It is accepted and within its limits, so it keeps the headline. The state of the core is one
    /// of its run.
    pub fn image(&self) -> &ImageView<'a>
        ensures value { result.now ≡ self.now.image }
        ensures accepted { IsAccepted self.now.image }
        ensures fits { Fits self.now.image }
        ensures kept { IsKept self.now.image }
        ensures stands { IsStateOf self.now.image self.now.state }
    {
        accepted_is_kept();
        self.verified.image()
    }

    /// The current state.
    pub fn state(&self) -> StateId
        ensures value { result ≡ self.now.state.position.current }
        ensures listed { IsListed self.now.image result }
    {
        self.position.current
    }

    /// Whether the next tick evaluates.
    pub fn owed(&self) -> bool
        ensures { result ≡ self.now.state.position.owed }
    {
        self.position.owed
    }

    /// The number of commands in the queue, from 0 to 64.
    pub fn queue_len(&self) -> usize
        ensures { result ≡ length self.now.state.queue }
    {
        self.queue.len()
    }

    /// A command of the queue, the next one at 0; `None` if there is none.
    pub fn queued_at(&self, index: usize) -> Option<CommandId>
        ensures { result ≡ slice_get self.now.state.queue index }
    {
        self.queue.as_slice().get(index).copied()
    }

    /// The number of running tests, from 0 to 64.
    pub fn running(&self) -> u16
        ensures { result ≡ running_count self.now.state.position.schedule }
    {
        self.position.schedule.running()
    }

    /// The present moment, in seconds: that of the last tick.
    pub fn now(&self) -> u64
        ensures { result ≡ self.now.state.position.schedule.present }
    {
        self.position.schedule.now()
    }

    /// The least due moment of the idle tests, in seconds; `None` if no test is idle. It may be before the present
    /// moment, as after the late end of a run.
    pub fn next_due(&self) -> Option<u64>
        ensures { IsNextDue self.now.state.position.schedule.tests result }
    {
        self.position.schedule.next_due()
    }

    /// The link state of an interface; `None` if it is not in the table.
    pub fn link(&self, interface: IfaceId) -> Option<LinkState>
        ensures value { result ≡ slice_get self.now.state.position.facts.links interface.0 }
        ensures known { IsSome result ↔ (interface.0 < length self.now.image.interfaces) }
    {
        self.position
            .facts
            .links
            .get(usize::from(interface.0))
            .copied()
    }

    /// The value of a test, if it has one; `None` if it is not in the table.
    pub fn test_value(&self, test: TestId) -> Option<Option<bool>>
        ensures value { result ≡ slice_get self.now.state.position.facts.tests test.0 }
        ensures known { IsSome result ↔ (test.0 < length self.now.image.tests) }
    {
        self.position.facts.tests.get(usize::from(test.0)).copied()
    }

    /// The name of a state; `None` if it is not in the table.
    pub fn state_name(&self, state: StateId) -> Option<&'a str>
        ensures value { option_map (λ name. name.now) result ≡ option_map (λ s. s.name) (slice_get self.now.image.states state.0) }
        ensures known { IsSome result ↔ IsListed self.now.image state }
    {
        let image = self.verified.image();
        let index = usize::from(state.0);
        if index < image.states() {
            Some(image.state_name(index))
        } else {
            None
        }
    }

    /// The text of a command; `None` if it is not in the table.
    pub fn command_text(&self, command: CommandId) -> Option<&'a str>
        ensures value { option_map (λ text. text.now) result ≡ slice_get self.now.image.commands command.0 }
        ensures known { IsSome result ↔ IsCommand self.now.image command }
    {
        let image = self.verified.image();
        let index = usize::from(command.0);
        if index < image.commands() {
            Some(image.command(index))
        } else {
            None
        }
    }

    /// The command of a test; `None` if it is not in the table.
    pub fn test_text(&self, test: TestId) -> Option<&'a str>
        ensures value { option_map (λ text. text.now) result ≡ option_map (λ t. t.text) (slice_get self.now.image.tests test.0) }
        ensures known { IsSome result ↔ (test.0 < length self.now.image.tests) }
    {
        let image = self.verified.image();
        let index = usize::from(test.0);
        if index < image.tests() {
            Some(image.test_text(index))
        } else {
            None
        }
    }

    /// The interface of a name, compared byte by byte; `None` if it is not in the table.
    pub fn iface_of(&self, name: &[u8]) -> Option<IfaceId>
        ensures { result ≡ interface_of self.now.image.interfaces name.now }
    {
        match self.verified.image().interface_index(name) {
            Some(index) => Some(IfaceId(index as u16)),
            None => None,
        }
    }

    /// The number of records of the trace, from 0 to 256.
    pub fn trace_len(&self) -> usize
        ensures { result ≡ length self.now.state.trace }
    {
        self.trace.len()
    }

    /// A record of the trace, the oldest at 0; `None` if there is none.
    pub fn trace_at(&self, index: usize) -> Option<Record>
        ensures value { result ≡ slice_get self.now.state.trace index }
        ensures known { IsSome result ↔ (index < length self.now.state.trace) }
        ensures listed { IfSome result (λ r. IsListed self.now.image r.state) }
    {
        self.trace.get(index).copied()
    }
}

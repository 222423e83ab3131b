//! Making a step, with all that it asks of the host.

ghost use Rattle.std.specs.Prelude.{◌≡◌, ◌+◌, ◌<◌, ◌≤◌, [], length, map, Some};
ghost use Rattle.ifs_core.specs.Event.{Behaviour};
ghost use Rattle.ifs_core.specs.Machine.{IsBehaviour};
ghost use Rattle.ifs_core.specs.Gateway.{IsReplyOf};
ghost use Rattle.ifs_core.specs.Steps.{turn, reply_of};
ghost use Rattle.ifs_session.specs.Hosts.{Adds, launched};
ghost use Rattle.ifs_session.specs.Accounts.{launch_of, launches_told, acted};
ghost use Rattle.ifs_session.specs.inner.Connections.{Carries, HasFollowed};

use crate::host::Host;
use crate::queue::empty_queue;
use crate::replies::Answerable;
use crate::service::STEPS;
use arrayvec::ArrayVec;
use ifs_core::{Core, Lists, Outcome, Step};
use ifs_sched::Start;

/// A step that was made, whose tests were started, and whose commands were run. Only `make` makes a value, and it writes
/// no reply.
#[derive(Drop)]
pub(crate) struct Made {
    outcome: Outcome,
}

impl Answerable for Made {
    ghost outcome = { λ made. made.outcome };

    fn outcome(&self) -> Outcome
        ensures { result ≡ self.now.outcome }
    {
        self.outcome
    }
}

/// Makes a step, shows it to the host, starts its tests there, and empties the queue.
pub(crate) fn make<H: Host>(
    core: &mut Core<'_>,
    host: &mut H,
    lists: &mut Lists,
    steps: &mut ArrayVec<Step, STEPS>,
    step: Step,
) -> Made
    requires { length steps.old.items + 65 ≤ 512 }
    ensures image { core.new.image ≡ core.old.image }
    ensures reply { (b : Behaviour) → IsBehaviour core.old.image b → reply_of result.outcome lists.new ≡ (turn b core.old.image.budgets.commands step core.old.state).reply }
    ensures carries { (b : Behaviour) → IsBehaviour core.old.image b → Carries (acted b core.old.image (Some step))
        (record { state = core.old.state; steps = steps.old.items; told = H.told host.old })
        (record { state = core.new.state; steps = steps.new.items; told = H.told host.new }) }
    ensures named { IsReplyOf core.old.image (reply_of result.outcome lists.new) }
    ensures follows { HasFollowed core.new.image (reply_of result.outcome lists.new) (H.told host.new) }
    ensures empty { core.new.state.queue ≡ [] }
    ensures more { length steps.old.items < length steps.new.items }
    ensures few { length steps.new.items ≤ length steps.old.items + 65 }
{
    let outcome = core.step_into(step, lists);
    steps.push(step);
    tell_host(core, host, step, outcome, lists);
    empty_queue(core, host, steps);
    Made { outcome }
}

/// Shows a step to the host, and starts its tests there.
fn tell_host<H: Host>(core: &Core<'_>, host: &mut H, step: Step, outcome: Outcome, lists: &Lists)
    ensures { Adds (launched (launches_told core.now.image (reply_of outcome lists.now))) (H.told host.old) (H.told host.new) }
{
    host.observe(core, step, outcome, lists);
    tell_starts(core, host, outcome, lists);
}

/// Starts the tests of a step at the host.
fn tell_starts<H: Host>(core: &Core<'_>, host: &mut H, outcome: Outcome, lists: &Lists)
    ensures { Adds (launched (launches_told core.now.image (reply_of outcome lists.now))) (H.told host.old) (H.told host.new) }
{
    if let Outcome::Ticked { .. } = outcome {
        start_tests(core, host, lists.starts.as_slice());
    }
}

/// Starts tests at the host.
fn start_tests<H: Host>(core: &Core<'_>, host: &mut H, starts: &[Start])
    ensures { Adds (launched (map (launch_of core.now.image) starts.now)) (H.told host.old) (H.told host.new) }
{
    for start in starts {
        let text = core.test_text(start.test).unwrap_or("");
        host.start(start.test, start.run, text);
    }
}

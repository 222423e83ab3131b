//! Running the commands of the queue in order.

ghost use Rattle.std.specs.Prelude.{◌≡◌, ◌+◌, ◌≤◌, ◌++◌, [], map, length};
ghost use Rattle.ifs_core.specs.Event.{Behaviour};
ghost use Rattle.ifs_core.specs.Steps.{after_steps};
ghost use Rattle.ifs_session.specs.Hosts.{Adds, ran};
ghost use Rattle.ifs_session.specs.Accounts.{takes_of, texts_of};

use crate::host::Host;
use arrayvec::ArrayVec;
use ifs_core::{Core, Step};

/// Takes each command of the queue in order, and runs its text. The host's results change nothing. Returns the steps,
/// which are all `Take`.
pub fn run_queue<H: Host>(core: &mut Core<'_>, host: &mut H) -> ArrayVec<Step, 64>
    ensures image { core.new.image ≡ core.old.image }
    ensures steps { result.items ≡ takes_of core.old.state.queue }
    // The core has made exactly these steps.
    ensures state { (b : Behaviour) → core.new.state ≡ after_steps b core.old.image.budgets.commands result.items core.old.state }
    ensures empty { core.new.state.queue ≡ [] }
    // The host has run exactly the texts of the commands, in order.
    ensures told { Adds (ran (texts_of core.old.image core.old.state.queue)) (H.told host.old) (H.told host.new) }
{
    let mut steps = ArrayVec::new();
    empty_queue(core, host, &mut steps);
    steps
}

/// Takes each command of the queue, runs its text, and appends the steps.
pub(crate) fn empty_queue<H: Host, const N: usize>(
    core: &mut Core<'_>,
    host: &mut H,
    steps: &mut ArrayVec<Step, N>,
)
    requires { length steps.old.items + 64 ≤ N }
    ensures image { core.new.image ≡ core.old.image }
    ensures steps { steps.new.items ≡ steps.old.items ++ takes_of core.old.state.queue }
    ensures state { (b : Behaviour) → core.new.state ≡ after_steps b core.old.image.budgets.commands (takes_of core.old.state.queue) core.old.state }
    ensures empty { core.new.state.queue ≡ [] }
    ensures told { Adds (ran (texts_of core.old.image core.old.state.queue)) (H.told host.old) (H.told host.new) }
    ensures few { length steps.new.items ≤ length steps.old.items + 64 }
    ensures more { length steps.old.items ≤ length steps.new.items }
{
    core.image();
    empty_rest(core, host, steps);
}

/// The same, with room for exactly the commands of the queue.
fn empty_rest<H: Host, const N: usize>(
    core: &mut Core<'_>,
    host: &mut H,
    steps: &mut ArrayVec<Step, N>,
)
    requires { length steps.old.items + length core.old.state.queue ≤ N }
    ensures image { core.new.image ≡ core.old.image }
    ensures steps { steps.new.items ≡ steps.old.items ++ takes_of core.old.state.queue }
    ensures state { (b : Behaviour) → core.new.state ≡ after_steps b core.old.image.budgets.commands (takes_of core.old.state.queue) core.old.state }
    ensures empty { core.new.state.queue ≡ [] }
    ensures told { Adds (ran (texts_of core.old.image core.old.state.queue)) (H.told host.old) (H.told host.new) }
{
    'commands: while let Some(command) = core.take() {
        let Some(text) = core.command_text(command) else {
            unreachable!()
        };
        let _ = host.run(text);
        steps.push(Step::Take);
    }
}

//! What steps of a core change and queue.

ghost use Rattle.std.specs.Prelude.{◌≡◌, ◌++◌, ◌∷◌, [], Contains, List};
ghost use Rattle.std.specs.Bool.{OnTrue};
ghost use Rattle.ifs_claims.specs.Changes.{changes};
ghost use Rattle.ifs_claims.specs.Claims.{queues};
ghost use Rattle.ifs_core.specs.Gateway.{Known};
ghost use Rattle.ifs_core.specs.Steps.{commands_told};
ghost use Rattle.ifs_core.specs.declared.step.Step.{Step as StepOfCore};
ghost use Rattle.ifs_gen.specs.Trees.{Policy};
ghost use Rattle.ifs_play.specs.Made.{HasMade};
ghost use Rattle.ifs_prove.specs.Breaking.{IsOneQueued};

use ifs_base::CommandId;
use ifs_claims::laws::cores_are_in_situations;
use ifs_core::{Core, Reply, Step};
use ifs_play::make_step;

/// Makes steps of a core, and counts how often they change its state.
pub(crate) fn count_changes(core: &mut Core<'_>, steps: &[Step]) -> usize
    ensures { (policy : Policy) (known : Known) (begun : List StepOfCore) → HasMade policy known begun core.old → result ≡ changes policy known begun steps.now }
{
    cores_are_in_situations();
    let mut count = 0;
    for step in steps {
        let before = core.state();
        make_step(core, *step);
        if core.state().0 != before.0 {
            count += 1;
        }
    }
    count
}

/// Whether a reply reports that a command was queued.
pub(crate) fn tells(reply: &Reply, command: CommandId) -> bool
    ensures { result ≡ queues command (commands_told reply.now) }
{
    match reply {
        Reply::Done { queued, .. } | Reply::Ticked { queued, .. } => {
            has(queued.as_slice(), command)
        }
        _ => false,
    }
}

/// Whether a command is among some.
fn has(commands: &[CommandId], command: CommandId) -> bool
    ensures { result ≡ queues command commands.now }
{
    for other in commands {
        if other.0 == command.0 {
            return true;
        }
    }
    false
}

/// Whether a reply reports that one of some commands was queued.
pub(crate) fn tells_one(reply: &Reply, commands: &[CommandId]) -> bool
    ensures { OnTrue result (IsOneQueued commands.now (commands_told reply.now)) }
{
    for command in commands {
        if tells(reply, *command) {
            return true;
        }
    }
    false
}

/// Whether a command is one of some.
fn is_one_of(commands: &[CommandId], command: CommandId) -> bool
    ensures { OnTrue result (Contains commands.now command) }
{
    commands.contains(&command)
}

/// Whether one of some commands waits in the queue of a core. Takes the commands before it, and it.
pub(crate) fn has_queued(core: &mut Core<'_>, commands: &[CommandId]) -> bool
    ensures { OnTrue result (IsOneQueued commands.now core.old.state.queue) }
{
    for _ in 0..64 {
        match core.take() {
            None => return false,
            Some(other) => {
                if is_one_of(commands, other) {
                    return true;
                }
            }
        }
    }
    false
}

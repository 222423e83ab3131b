//! What commands make of a level.

ghost use Rattle.std.specs.Prelude.{◌≡◌, IfSome};
ghost use Rattle.ifs_levels.specs.Metering.{changed, level_by, meter_of};

use ifs_base::CommandId;

/// What a command does to a level.
#[derive(Clone, Copy, Debug, PartialEq, Eq)]
pub enum Change {
    /// Nothing.
    Keeps,
    /// It adds a number, which may be below 0.
    Adds(i64),
    /// It sets this value.
    Sets(i64),
}

/// The level after a change. None if it does not fit.
fn level_changed(change: Change, level: i64) -> Option<i64>
    ensures { IfSome result (λ after. after ≡ changed change level) }
{
    match change {
        Change::Keeps => Some(level),
        Change::Adds(number) => level.checked_add(number),
        Change::Sets(value) => Some(value),
    }
}

/// The level after one command. None if it does not fit.
pub(crate) fn level_after(meter: &[Change], level: i64, command: CommandId) -> Option<i64>
    ensures { IfSome result (λ after. after ≡ changed (meter_of meter.now command) level) }
{
    match meter.get(usize::from(command.0)) {
        None => Some(level),
        Some(change) => level_changed(*change, level),
    }
}

/// The level after some commands, in order. The meter has what each command does by its number: nothing if it is not there. None
/// if a level on the way does not fit.
pub fn level_by(meter: &[Change], level: i64, commands: &[CommandId]) -> Option<i64>
    ensures { IfSome result (λ after. after ≡ level_by (meter_of meter.now) level commands.now) }
{
    let mut now_at = level;
    for command in commands {
        match level_after(meter, now_at, *command) {
            None => return None,
            Some(after) => now_at = after,
        }
    }
    Some(now_at)
}

/// Whether no command sets the level.
pub fn only_adds(meter: &[Change], commands: &[CommandId]) -> bool {
    for command in commands {
        if let Some(Change::Sets(_)) = meter.get(usize::from(command.0)) {
            return false;
        }
    }
    true
}

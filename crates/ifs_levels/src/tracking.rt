//! A level on its way.

ghost use Rattle.std.specs.Prelude.{◌≡◌, ◌&&◌, IfSome};
ghost use Rattle.ifs_levels.specs.Metering.{level_by, meter_of};
ghost use Rattle.ifs_levels.specs.Levels.{stays_on};
ghost use Rattle.ifs_levels.specs.Ranges.{is_within};

use crate::metering::{Change, level_after};
use crate::ranges::LevelRange;
use ifs_base::CommandId;

/// A level on its way, and whether it was in a range so far.
#[derive(Clone, Copy)]
pub struct TrackedLevel {
    pub level: i64,
    pub has_stayed: bool,
}

impl TrackedLevel {
    /// A level that begins its way.
    pub fn begin(range: &LevelRange, first: i64) -> TrackedLevel
        ensures level { result.level ≡ first }
        ensures stayed { result.has_stayed ≡ is_within range.now first }
    {
        TrackedLevel {
            level: first,
            has_stayed: range.has(first),
        }
    }

    /// The level after some commands. None if it does not fit on the way.
    pub fn after(
        self,
        meter: &[Change],
        range: &LevelRange,
        commands: &[CommandId],
    ) -> Option<TrackedLevel>
        ensures level { IfSome result (λ it. it.level ≡ level_by (meter_of meter.now) self.level commands.now) }
        ensures stayed { IfSome result (λ it. it.has_stayed ≡ (self.has_stayed && stays_on (meter_of meter.now) (is_within range.now) self.level commands.now)) }
    {
        let mut level = self.level;
        let mut has_stayed = self.has_stayed;
        for command in commands {
            match level_after(meter, level, *command) {
                None => return None,
                Some(after) => level = after,
            }
            has_stayed &= range.has(level);
        }
        Some(TrackedLevel { level, has_stayed })
    }
}

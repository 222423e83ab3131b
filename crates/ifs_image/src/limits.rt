//! The limits of an image, and those that it shares with policy texts.

ghost use Rattle.std.specs.Prelude.{◌≡◌};
ghost use Rattle.ifs_image.specs.Limits.{code_limit};

pub use ifs_base::limits::{
    COMMANDS, INTERFACES, PERIOD, STATES, TESTS, TEXT, period_fits, text_fits,
};

/// Values on the stack at one time, over all frames.
pub const STACK: u16 = 32;

/// Frames at one time.
pub const FRAMES: u16 = 32;

/// Instructions that one event may execute.
pub const EVENT_COST: u32 = 300_000;

/// Commands that one event may queue.
pub const COMMANDS_OF_EVENT: u16 = 64;

/// Routines of an image.
pub const ROUTINES: u16 = 1_024;

/// Instructions of one routine.
pub const CODE_OF_ROUTINE: u16 = 1_024;

/// The latest version of the format; the first one is 1.
pub const VERSIONS: u8 = 2;

/// Results of a routine in version 1: none, or one truth.
pub const TRUTHS: u8 = 1;

/// Parameters of a routine in version 2, and also its results.
pub const KINDS: u8 = 4;

/// Instructions of all routines together, by the version of the format.
pub fn code_of_image(version: u8) -> u16
    ensures { result ≡ code_limit version }
{
    if version == 1 { 8_192 } else { 65_535 }
}

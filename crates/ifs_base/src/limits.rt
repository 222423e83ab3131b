//! Limits that texts and images share: of tables, names and periods.

ghost use Rattle.std.specs.Prelude.{◌↔◌, IsTrue};
ghost use Rattle.ifs_base.specs.Sizes.{TextFits, PeriodFits};

/// The most interfaces.
pub const INTERFACES: u16 = 64;

/// The most external tests.
pub const TESTS: u16 = 64;

/// The most commands.
pub const COMMANDS: u16 = 1_024;

/// The most states. There is at least one.
pub const STATES: u16 = 256;

/// The most bytes of a name or a command. It has at least one.
pub const TEXT: u16 = 1_024;

/// The most seconds from one start of a test to the next. The least is one.
pub const PERIOD: u32 = 604_800;

/// Returns whether bytes are a name or a command: from 1 to 1,024 bytes, and no NUL.
pub fn text_fits(bytes: &[u8]) -> bool
    ensures { IsTrue result ↔ TextFits bytes.now }
{
    1 <= bytes.len() && bytes.len() <= usize::from(TEXT) && bytes.iter().all(|byte| *byte != 0)
}

/// Returns whether a number of seconds is a period: from 1 to 604,800.
pub fn period_fits(seconds: u32) -> bool
    ensures { IsTrue result ↔ PeriodFits seconds }
{
    1 <= seconds && seconds <= PERIOD
}

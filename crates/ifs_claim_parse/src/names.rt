//! Names that a policy has.

ghost use Rattle.std.specs.Prelude.{◌≡◌, ◌<◌, Some, IfSome, length, slice_get};
ghost use Rattle.std.specs.List.{position_or_len};
ghost use Rattle.ifs_policy.specs.Tables.{test_eq, text_eq};

use ifs_base::{CommandId, IfaceId, StateId, TestId, Text};
use ifs_policy::{ExternalTest, Tables};

/// A place in a table as a number of 16 bits. A policy has no greater places.
fn number_of(place: usize) -> Option<u16>
    ensures { IfSome result (λ number. number ≡ place) }
{
    match u16::try_from(place) {
        Ok(number) => Some(number),
        Err(_) => None,
    }
}

/// The state of this name, if the policy has it.
pub fn state_named(tables: &Tables, name: &Text) -> Option<StateId>
    ensures { IfSome result (λ state. slice_get tables.now.states state.0 ≡ Some name.now) }
{
    let place = tables.states.place_of(name)?;
    let number = number_of(place)?;
    Some(StateId(number))
}

/// The command of this text, if the policy runs it.
pub fn command_named(tables: &Tables, text: &Text) -> Option<CommandId>
    ensures { IfSome result (λ command. slice_get tables.now.commands command.0 ≡ Some text.now) }
{
    let place = tables.commands.place_of(text)?;
    let number = number_of(place)?;
    Some(CommandId(number))
}

/// The interface of this name, if the policy has it.
pub fn interface_named(tables: &Tables, name: &Text) -> Option<IfaceId>
    ensures place { IfSome result (λ interface. interface.0 ≡ position_or_len (text_eq name.now) tables.now.interfaces) }
    ensures within { IfSome result (λ interface. interface.0 < length tables.now.interfaces) }
{
    let place = tables.interfaces.place_of(name)?;
    let number = number_of(place)?;
    Some(IfaceId(number))
}

/// The number of a test, if the policy has it.
pub fn test_named(tables: &Tables, test: &ExternalTest) -> Option<TestId>
    ensures place { IfSome result (λ number. number.0 ≡ position_or_len (test_eq test.now) tables.now.tests) }
    ensures within { IfSome result (λ number. number.0 < length tables.now.tests) }
{
    let place = tables.tests.place_of(test)?;
    let number = number_of(place)?;
    Some(TestId(number))
}

//! Events: what the handlers of an image do to a position.

ghost use Rattle.std.specs.Prelude.{◌≡◌, ◌+◌, ◌<◌, ◌≤◌, ◌++◌, All, None, Some, length, map, slice_get};
ghost use Rattle.ifs_image.specs.declared.parts.StateSpec.{StateSpec};
ghost use Rattle.ifs_base.specs.Effects.{nothing_yet, followed};
ghost use Rattle.ifs_machine.specs.Run.{IsCommand};
ghost use Rattle.ifs_machine.specs.Views.{facts_of, effects_of};
ghost use Rattle.ifs_core.specs.Event.{Behaviour, AlwaysInit, AlwaysBody, Init, Body, change_of as change_by};
ghost use Rattle.ifs_core.specs.Event.{kept_value, kept_values, entering, evaluation, IsEvent, opening_position};
ghost use Rattle.ifs_core.specs.Machine.{IsBehaviour, all_unknown, periods_in, KeepsBudgets};
ghost use Rattle.ifs_core.specs.inner.Within.{HasInitRoom, RanBodies, RanInit};
ghost use Rattle.ifs_verify.specs.Accepted.{IsAccepted};
ghost use Rattle.ifs_core.specs.Gateway.{IsPositionOf, position_of};

use crate::position::Position;
use arrayvec::ArrayVec;
use ifs_base::{CommandId, LinkState, StateId};
use ifs_image::{Handlers, ImageView};
use ifs_machine::{Effects, Facts, run_handler};
use ifs_sched::Schedule;
use ifs_verify::Verified;

/// The handlers of a state of the image.
fn handlers_of(verified: &Verified<'_>, state: StateId) -> Handlers
    requires { state.0 < length verified.now.states }
    ensures { (found : StateSpec) × (slice_get verified.now.states state.0 ≡ Some found) × (found.handlers ≡ result) }
{
    verified.image().state_handlers(usize::from(state.0))
}

/// The handlers of the image's always part.
fn always_of(verified: &Verified<'_>) -> Handlers
    ensures { result ≡ verified.now.always }
{
    verified.image().always()
}

/// Runs the always body and then the current state's, and returns the cost of both.
fn run_bodies(verified: &Verified<'_>, position: &Position, effects: &mut Effects) -> u32
    requires position { IsPositionOf verified.now (position_of position.now) }
    requires first { effects_of effects.old ≡ nothing_yet }
    ensures exact { (b : Behaviour) → IsBehaviour verified.now b
        → let always = b.answer AlwaysBody (facts_of position.now.facts) in
        let own = b.answer (Body position.now.current.0) (facts_of position.now.facts) in
        (effects_of effects.new ≡ followed (followed nothing_yet always) own)
        × (result ≡ b.cost AlwaysBody (facts_of position.now.facts) + b.cost (Body position.now.current.0) (facts_of position.now.facts)) }
    ensures within { RanBodies verified.now position.now.current.0 (effects_of effects.new) result }
    ensures accepted { IsAccepted verified.now }
    ensures limit { verified.now.budgets.cost ≤ 300000 }
{
    verified.image();
    let part = always_of(verified);
    let own = handlers_of(verified, position.current);
    let always = run_handler(verified, part.body, &position.facts, effects);
    let body = run_handler(verified, own.body, &position.facts, effects);
    always + body
}

/// The state that a wish leads to, if it is not the current one.
fn change_of(current: StateId, wish: Option<StateId>) -> Option<StateId>
    ensures { result ≡ change_by current wish }
{
    let next = wish?;
    if next.0 == current.0 {
        None
    } else {
        Some(next)
    }
}

/// The value of a test after an entry: it is lost if the test is outside the always set.
fn value_after_entry(value: Option<bool>, always: u64, test: usize) -> Option<bool>
    requires { test < 64 }
    ensures { result ≡ kept_value always test value }
{
    if always >> test & 1 == 1 { value } else { None }
}

/// The values of all tests after an entry.
fn values_after_entry(values: &[Option<bool>], always: u64) -> ArrayVec<Option<bool>, 64>
    requires { length values.now ≤ 64 }
    ensures { result.items ≡ kept_values always values.now }
{
    let mut kept = ArrayVec::new();
    for (test, value) in values.iter().enumerate() {
        kept.push(value_after_entry(*value, always, test));
    }
    kept
}

/// Enters a state at the present moment: its tests are reset, and an evaluation is owed.
fn enter(verified: &Verified<'_>, position: &mut Position, next: StateId)
    requires position { IsPositionOf verified.now (position_of position.old) }
    requires next { next.0 < length verified.now.states }
    ensures exact { (b : Behaviour) → IsBehaviour verified.now b → position_of position.new ≡ entering b next (position_of position.old) }
    ensures position { IsPositionOf verified.now (position_of position.new) }
    ensures current { position.new.current ≡ next }
    ensures moment { position.new.schedule.present ≡ position.old.schedule.present }
{
    let always = always_of(verified).mask;
    let own = handlers_of(verified, next).mask;
    position.facts.tests = values_after_entry(position.facts.tests.as_slice(), always);
    let now = position.schedule.now();
    position.schedule.enter(always, own, now);
    position.current = next;
    position.owed = true;
}

/// Runs the init of the state that was entered.
fn run_init(verified: &Verified<'_>, position: &Position, effects: &mut Effects) -> u32
    requires position { IsPositionOf verified.now (position_of position.now) }
    requires room { HasInitRoom verified.now position.now.current.0 (effects_of effects.old) }
    ensures exact { (b : Behaviour) → IsBehaviour verified.now b
        → (effects_of effects.new ≡ followed (effects_of effects.old) (b.answer (Init position.now.current.0) (facts_of position.now.facts)))
        × (result ≡ b.cost (Init position.now.current.0) (facts_of position.now.facts)) }
    ensures within { RanInit verified.now position.now.current.0 (effects_of effects.old) (effects_of effects.new) result }
{
    verified.image();
    let own = handlers_of(verified, position.current);
    run_handler(verified, own.init, &position.facts, effects)
}

/// Runs the always body and the current state's body. Enters the state that the last wish of both leads to, and
/// runs its init. The effects are those of these handlers alone. Returns the number of executed instructions.
pub fn evaluate(verified: &Verified<'_>, position: &mut Position, effects: &mut Effects) -> u32
    requires { IsPositionOf verified.now (position_of position.old) }
    ensures exact { (b : Behaviour) → IsBehaviour verified.now b
        → IsEvent (evaluation b (position_of position.old)) (position_of position.new) effects.new.queued.items result }
    ensures position { IsPositionOf verified.now (position_of position.new) }
    ensures moment { position.new.schedule.present ≡ position.old.schedule.present }
    // Its commands and its cost are within the stated budgets.
    ensures budgets { KeepsBudgets verified.now effects.new.queued.items result }
{
    effects.queued.clear();
    effects.want = None;
    position.owed = false;
    let cost = run_bodies(verified, position, effects);
    match change_of(position.current, effects.want) {
        None => cost,
        Some(next) => {
            enter(verified, position, next);
            let init = run_init(verified, position, effects);
            cost + init
        }
    }
}

/// Unknown link states for the interfaces of an image.
pub fn unknown_links(image: &ImageView<'_>) -> ArrayVec<LinkState, 64>
    requires { length image.now.interfaces ≤ 64 }
    ensures value { result.items ≡ all_unknown image.now }
    ensures known { length result.items ≡ length image.now.interfaces }
{
    let mut links = ArrayVec::new();
    for _interface in 0..image.interfaces() {
        links.push(LinkState::Unknown);
    }
    links
}

/// No values for the tests of an image.
fn no_values(image: &ImageView<'_>) -> ArrayVec<Option<bool>, 64>
    requires { length image.now.tests ≤ 64 }
    ensures { result.items ≡ map (λ _. None) (periods_in image.now) }
{
    let mut values = ArrayVec::new();
    for _test in 0..image.tests() {
        values.push(None);
    }
    values
}

/// The periods of an image's tests, in seconds.
fn periods_of(image: &ImageView<'_>) -> ArrayVec<u32, 64>
    requires { length image.now.tests ≤ 64 }
    ensures { result.items ≡ periods_in image.now }
{
    let mut periods = ArrayVec::new();
    for test in 0..image.tests() {
        periods.push(image.test_period(test));
    }
    periods
}

/// The position before the inits: the initial state is entered at moment 0, with these link states. The first run
/// has the number `first_run`; 0 says that no number is left.
pub fn open_position(
    verified: &Verified<'_>,
    links: ArrayVec<LinkState, 64>,
    first_run: u64,
) -> Position
    requires { length links.items ≡ length verified.now.interfaces }
    ensures exact { (b : Behaviour) → IsBehaviour verified.now b → position_of result
        ≡ opening_position b links.items (periods_in verified.now) first_run verified.now.initial }
    ensures position { IsPositionOf verified.now (position_of result) }
    ensures current { result.current ≡ verified.now.initial }
{
    let image = verified.image();
    let current = image.initial();
    let always = always_of(verified).mask;
    let own = handlers_of(verified, current).mask;
    let mut schedule = Schedule::new(periods_of(image), first_run);
    schedule.enter(always, own, 0);
    Position {
        facts: Facts {
            links,
            tests: no_values(image),
        },
        current,
        owed: true,
        schedule,
    }
}

/// Runs the always init and the initial state's; their wishes are dropped.
pub fn run_inits(verified: &Verified<'_>, position: &Position) -> ArrayVec<CommandId, 64>
    requires position { IsPositionOf verified.now (position_of position.now) }
    requires initial { position.now.current ≡ verified.now.initial }
    ensures exact { (b : Behaviour) → IsBehaviour verified.now b
        → let always = b.answer AlwaysInit (facts_of position.now.facts) in
        let own = b.answer (Init position.now.current.0) (facts_of position.now.facts) in
        result.items ≡ always.commands ++ own.commands }
    ensures known { All (IsCommand verified.now) result.items }
{
    let mut effects = Effects {
        queued: ArrayVec::new(),
        want: None,
    };
    verified.image();
    let part = always_of(verified);
    let own = handlers_of(verified, position.current);
    let _always = run_handler(verified, part.init, &position.facts, &mut effects);
    let _own = run_handler(verified, own.init, &position.facts, &mut effects);
    effects.queued
}

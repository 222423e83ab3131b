//! Whether a core breaks a claim.

ghost use Rattle.std.specs.Prelude.{◌≡◌, ◌≢◌, ◌<◌, ◌&&◌, ◌++◌, ◌∷◌, [], true, Contains, List, MatchBool};
ghost use Rattle.std.specs.Bool.{OnTrue};
ghost use Rattle.ifs_claims.specs.Claims.{IsSettled};
ghost use Rattle.ifs_claims.specs.Moves.{queued_by, seen};
ghost use Rattle.ifs_core.specs.Gateway.{Known};
ghost use Rattle.ifs_core.specs.declared.step.Step.{Step as StepOfCore};
ghost use Rattle.ifs_gen.specs.Events.{policy_opened};
ghost use Rattle.ifs_gen.specs.Trees.{Policy as PolicyOfCore};
ghost use Rattle.ifs_solver.specs.Situations.{situation_after, situation_of};
ghost use Rattle.ifs_play.specs.Made.{HasMade};
ghost use Rattle.ifs_solver.specs.Asking.{is_met};
ghost use Rattle.ifs_prove.specs.Claiming.{guard_in};
ghost use Rattle.ifs_prove.specs.Breaking.{IsBrokenAcross, IsBrokenAtOnce, IsBrokenBy, IsBrokenIn, IsBrokenWithin, IsOneQueued};

use crate::facts::{is_held, is_met, is_met_seen};
use crate::making::{count_changes, has_queued, tells_one};
use crate::trial::{Ending, Trial};
use crate::worlds::{agrees, keep};
use ifs_base::{CommandId, StateId};
use ifs_claim_parse::{Claim, Premise};
use ifs_claims::laws::{cores_are_in_situations, facts_stay};
use ifs_core::{Core, Step};
use ifs_play::make_steps;
use ifs_policy::Policy;
use ifs_policy::laws::held_by_an_open_test;

/// Both are so.
fn both(one: bool, other: bool) -> bool
    ensures { result ≡ (one && other) }
{
    one && other
}

/// Whether a state is among some.
fn is_among(states: &[StateId], state: StateId) -> bool
    ensures { MatchBool result (Contains states.now state) (¬ Contains states.now state) }
{
    states.contains(&state)
}

/// Whether a state is one of some.
fn is_one_of(states: &[StateId], state: StateId) -> bool
    ensures { OnTrue result (Contains states.now state) }
{
    is_among(states, state)
}

/// Whether two states differ.
fn differ(one: StateId, other: StateId) -> bool
    ensures { OnTrue result (one ≢ other) }
{
    one.0 != other.0
}

/// Whether nothing is owed, and neither the body outside any state nor that of the current state is held back.
fn is_settled(core: &Core<'_>, policy: &Policy) -> bool
    ensures { OnTrue result (IsSettled policy.now (situation_of core.now.state.position)) }
{
    held_by_an_open_test();
    if core.owed() {
        return false;
    }
    if is_held(core, &policy.always().body) {
        return false;
    }
    match policy.handlers(core.state()) {
        Some(part) => !is_held(core, &part.body),
        None => false,
    }
}

/// Whether a core is settled in one of some states while a premise is met.
fn settles_in(core: &Core<'_>, policy: &Policy, states: &[StateId], premise: &Premise) -> bool
    ensures { OnTrue result (IsSettled policy.now (situation_of core.now.state.position) × Contains states.now core.now.state.position.current × (is_met core.now.state.position.facts (guard_in premise.now) ≡ true)) }
{
    if !is_among(states, core.state()) {
        return false;
    }
    if !is_settled(core, policy) {
        return false;
    }
    is_met(core, premise)
}

/// Whether a core is settled in another state than these while a premise is met.
fn settles_elsewhere(
    core: &Core<'_>,
    policy: &Policy,
    states: &[StateId],
    premise: &Premise,
) -> bool
    ensures { OnTrue result (IsSettled policy.now (situation_of core.now.state.position) × (¬ Contains states.now core.now.state.position.current) × (is_met core.now.state.position.facts (guard_in premise.now) ≡ true)) }
{
    if is_among(states, core.state()) {
        return false;
    }
    if !is_settled(core, policy) {
        return false;
    }
    is_met(core, premise)
}

/// Whether a core is in one of some states while a premise is met.
fn is_in(core: &Core<'_>, states: &[StateId], premise: &Premise) -> bool
    ensures { OnTrue result (Contains states.now core.now.state.position.current × (is_met core.now.state.position.facts (guard_in premise.now) ≡ true)) }
{
    if !is_among(states, core.state()) {
        return false;
    }
    is_met(core, premise)
}

/// Whether the situation of a core breaks a claim.
pub(crate) fn breaks_in(core: &Core<'_>, policy: &Policy, claim: &Claim) -> bool
    ensures { OnTrue result (IsBrokenIn policy.now claim.now (situation_of core.now.state.position)) }
{
    match claim {
        Claim::NeverRests(states, premise) => {
            settles_in(core, policy, states.as_slice(), premise)
        }
        Claim::RestsIn(states, premise) => {
            settles_elsewhere(core, policy, states.as_slice(), premise)
        }
        Claim::NeverIn(states, premise) => is_in(core, states.as_slice(), premise),
        Claim::NeverEnters(states) => is_one_of(states.as_slice(), core.state()),
        Claim::NeverFrom(_, _)
        | Claim::NeverEntersWhile(_, _)
        | Claim::NeverRuns(_, _)
        | Claim::RestsWithin(_)
        | Claim::MayFlap(_) => false,
    }
}

/// The same of a core that has made steps since it was opened.
fn breaks_there(core: &Core<'_>, policy: &Policy, claim: &Claim) -> bool
    ensures { (known : Known) (begun : List StepOfCore) → HasMade policy.now known begun core.now → OnTrue result (IsBrokenIn policy.now claim.now (situation_after policy.now known begun)) }
{
    cores_are_in_situations();
    breaks_in(core, policy, claim)
}

/// Makes a step, and returns whether it leads from one of some states to one of others.
fn moves(core: &mut Core<'_>, from: &[StateId], to: &[StateId], step: Step) -> bool
    ensures { (policy : PolicyOfCore) (known : Known) (begun : List StepOfCore) → HasMade policy known begun core.old
        → OnTrue result (Contains from.now (situation_after policy known begun).current × Contains to.now (situation_after policy known (begun ++ step ∷ [])).current) }
{
    cores_are_in_situations();
    let before = core.state();
    make_steps(core, &[step]);
    let after = core.state();
    both(is_one_of(from, before), is_one_of(to, after))
}

/// Makes a step, and returns whether it enters one of some states while a premise is met under the facts that it sees.
fn enters(core: &mut Core<'_>, states: &[StateId], premise: &Premise, step: Step) -> bool
    ensures { (policy : PolicyOfCore) (known : Known) (begun : List StepOfCore) → HasMade policy known begun core.old
        → OnTrue result (((situation_after policy known begun).current ≢ (situation_after policy known (begun ++ step ∷ [])).current)
        × Contains states.now (situation_after policy known (begun ++ step ∷ [])).current × (is_met (seen step (situation_after policy known begun).facts) (guard_in premise.now) ≡ true)) }
{
    cores_are_in_situations();
    let was_met = is_met_seen(core, step, premise);
    let before = core.state();
    make_steps(core, &[step]);
    let after = core.state();
    let is_there = both(is_one_of(states, after), was_met);
    both(differ(before, after), is_there)
}

/// Makes a step, and returns whether it queues one of some commands while a premise is met under the facts that it sees.
fn runs(core: &mut Core<'_>, commands: &[CommandId], premise: &Premise, step: Step) -> bool
    ensures { (policy : PolicyOfCore) (known : Known) (begun : List StepOfCore) → HasMade policy known begun core.old
        → OnTrue result (IsOneQueued commands.now (queued_by policy known begun step) × (is_met (seen step (situation_after policy known begun).facts) (guard_in premise.now) ≡ true)) }
{
    cores_are_in_situations();
    let is_met = is_met_seen(core, step, premise);
    let reply = core.step(step);
    both(tells_one(&reply, commands), is_met)
}

/// Makes a step, and returns whether it breaks a claim.
fn breaks_by(core: &mut Core<'_>, claim: &Claim, step: Step) -> bool
    ensures { (policy : PolicyOfCore) (known : Known) (begun : List StepOfCore) → HasMade policy known begun core.old
        → OnTrue result (IsBrokenAcross claim.now step (situation_after policy known begun) (situation_after policy known (begun ++ step ∷ [])) (queued_by policy known begun step)) }
{
    match claim {
        Claim::NeverFrom(from, to) => moves(core, from.as_slice(), to.as_slice(), step),
        Claim::NeverEntersWhile(states, premise) => {
            enters(core, states.as_slice(), premise, step)
        }
        Claim::NeverRuns(commands, premise) => { runs(core, commands.as_slice(), premise, step) }
        Claim::NeverRests(_, _)
        | Claim::RestsIn(_, _)
        | Claim::NeverEnters(_)
        | Claim::RestsWithin(_)
        | Claim::NeverIn(_, _)
        | Claim::MayFlap(_) => false,
    }
}

/// Whether the opening of a core queued one of some commands while a premise was met. Takes commands from its queue.
fn runs_at_once(core: &mut Core<'_>, commands: &[CommandId], premise: &Premise) -> bool
    ensures { (policy : PolicyOfCore) (known : Known) → HasMade policy known [] core.old
        → OnTrue result (IsOneQueued commands.now (policy_opened policy known).queue × (is_met (situation_after policy known []).facts (guard_in premise.now) ≡ true)) }
{
    cores_are_in_situations();
    let is_met = is_met(core, premise);
    both(has_queued(core, commands), is_met)
}

/// Whether the opening of a core breaks a claim. Takes commands from its queue.
pub(crate) fn breaks_at_once(core: &mut Core<'_>, claim: &Claim) -> bool
    ensures { (policy : PolicyOfCore) (known : Known) → HasMade policy known [] core.old
        → OnTrue result (IsBrokenAtOnce claim.now (situation_after policy known []) (policy_opened policy known).queue) }
{
    match claim {
        Claim::NeverRuns(commands, premise) => { runs_at_once(core, commands.as_slice(), premise) }
        Claim::NeverRests(_, _)
        | Claim::RestsIn(_, _)
        | Claim::NeverFrom(_, _)
        | Claim::NeverEnters(_)
        | Claim::NeverEntersWhile(_, _)
        | Claim::RestsWithin(_)
        | Claim::NeverIn(_, _)
        | Claim::MayFlap(_) => false,
    }
}

/// Whether there are more changes than so.
fn is_more(most: u16, changes: usize) -> bool
    ensures { OnTrue result (most < changes) }
{
    usize::from(most) < changes
}

/// Makes steps in a world with these results, and returns whether they change the state so often that a claim is broken.
fn breaks_within(
    core: &mut Core<'_>,
    policy: &Policy,
    claim: &Claim,
    steps: &[Step],
    results: &[bool],
) -> bool
    ensures { (known : Known) (begun : List StepOfCore) → HasMade policy.now known begun core.old → OnTrue result (IsBrokenWithin policy.now known begun steps.now results.now claim.now) }
{
    cores_are_in_situations();
    facts_stay();
    let Claim::RestsWithin(most) = claim else {
        return false;
    };
    let count = policy.counts().tests;
    if results.len() != usize::from(count) {
        return false;
    }
    if !agrees(core, results, count) {
        return false;
    }
    if !keep(results, steps) {
        return false;
    }
    is_more(*most, count_changes(core, steps))
}

/// Whether a core that was just opened breaks a claim by a trial.
pub(crate) fn breaks_on(core: &mut Core<'_>, policy: &Policy, claim: &Claim, trial: &Trial) -> bool
    ensures { (known : Known) → HasMade policy.now known [] core.old → OnTrue result (IsBrokenBy policy.now known trial.now.begun.items trial.now.ending claim.now) }
{
    match &trial.ending {
        Ending::There => {
            make_steps(core, trial.begun.as_slice());
            breaks_there(core, policy, claim)
        }
        Ending::By(step) => {
            make_steps(core, trial.begun.as_slice());
            breaks_by(core, claim, *step)
        }
        Ending::Opening => breaks_at_once(core, claim),
        Ending::Within(steps, results) => {
            make_steps(core, trial.begun.as_slice());
            breaks_within(core, policy, claim, steps.as_slice(), results.as_slice())
        }
    }
}

//! The answers to the claims of a file.

ghost use Rattle.std.specs.Prelude.{◌≡◌, IfOk};
ghost use Rattle.ifs_gen.specs.Compiled.{IsWritten};
ghost use Rattle.ifs_claim_parse.specs.declared.claim.Claim.TheVariants.{RestsWithin};
ghost use Rattle.ifs_prove.specs.Claiming.{WouldBreak};
ghost use Rattle.ifs_prove.specs.Verdicts.{AreVerdicts, IsBroken, IsVerdictOf};
ghost use Rattle.ifs_prove.specs.inner.Keeping.{IsKept, IsLongest};

use crate::describing::{Showing, Words, described};
use crate::judging::judge;
use crate::opening::{breaks, breaks_knowing};
use crate::searching::{Found, Stage};
use crate::trial::Trial;
use crate::verdicts::{Broken, Obstacle, Verdict};
use crate::wording::links_in_words;
use ifs_base::LinkState;
use ifs_claim_parse::{Claim, Stated};
use ifs_claims::{KnownChanges, ReachableStates};
use ifs_play::{CompiledPolicy, PARTS, carried_with, situations_of};
use ifs_policy::Policy;
use ifs_solver::{Budget, Extent};
use std::alloc::{AllocError, Global};

/// Answers each claim of a file, in order.
///
/// A claim that facts of one evaluation would break is broken only if a core makes steps that break it. Otherwise it is not
/// decided. Neither is it if the budget ran out, and the verdict says which of the two it is. A claim holds, or is broken, of every
/// core of the policy's image; `text` and `definitions` are those of the policy, and what is said follows from the policy alone.
///
/// A round of just the states of a `may flap` line is meant. Its changes are not counted where steps are looked for that break
/// `rest within N changes`, so if only they are too many, this claim is not decided. That it holds is said only if all changes
/// together are never more than N.
///
/// Together this takes less than a second. Returns an error if an allocation fails.
pub fn verdicts_of(
    alloc: Global,
    text: &str,
    definitions: &[(&str, &str)],
    compiled: &CompiledPolicy,
    claims: &[Stated],
) -> Result<Vec<Verdict>, AllocError>
    ensures { IfOk result (λ verdicts. AreVerdicts compiled.now claims.now verdicts.items) }
{
    let policy = compiled.policy();
    let mut budget = Budget::POLICY.within(situations_of(policy, PARTS));
    let entered = ReachableStates::of(alloc, policy, &mut budget)?;
    let mut kept = Kept {
        budget,
        changes: KnownChanges::nothing(),
        longest: None,
    };
    answer_all(alloc, &entered, compiled.bytes(), claims, &mut kept)
}

/// What is kept from one claim to the next.
#[derive(Drop)]
struct Kept {
    budget: Budget,
    changes: KnownChanges,
    longest: Option<Longest>,
}

/// Steps in a world in which the state changes more often than a number.
#[derive(Drop)]
struct Longest {
    most: u16,
    trial: Trial,
    /// The links that a reload knows, if it knows any.
    links: Vec<LinkState>,
    /// The same in words.
    named: Option<String>,
}

/// Answers each claim on a policy that is judged, given its image.
fn answer_all(
    alloc: Global,
    entered: &ReachableStates<'_>,
    image: &[u8],
    claims: &[Stated],
    kept: &mut Kept,
) -> Result<Vec<Verdict>, AllocError>
    requires image { IsWritten entered.now image.now }
    requires kept { IsKept entered.now kept.old }
    ensures { IfOk result (λ verdicts. AreVerdicts entered.now claims.now verdicts.items) }
{
    let mut stage = Stage::new(alloc, entered.policy(), image, claims)?;
    answer_each(alloc, &mut stage, entered, image, claims, kept)
}

/// Answers one claim after the other.
fn answer_each(
    alloc: Global,
    stage: &mut Stage<'_, '_, '_>,
    entered: &ReachableStates<'_>,
    image: &[u8],
    claims: &[Stated],
    kept: &mut Kept,
) -> Result<Vec<Verdict>, AllocError>
    requires image { IsWritten entered.now image.now }
    requires kept { IsKept entered.now kept.old }
    ensures { IfOk result (λ verdicts. AreVerdicts entered.now claims.now verdicts.items) }
{
    let mut verdicts = Vec::new(alloc);
    for stated in claims {
        stage.turn_to(stated.line);
        let verdict = answer(alloc, stage, entered, image, &stated.claim, kept)?;
        verdicts.push(verdict)?;
    }
    Ok(verdicts)
}

/// Answers a claim.
fn answer(
    alloc: Global,
    stage: &mut Stage<'_, '_, '_>,
    entered: &ReachableStates<'_>,
    image: &[u8],
    claim: &Claim,
    kept: &mut Kept,
) -> Result<Verdict, AllocError>
    requires image { IsWritten entered.now image.now }
    requires kept { IsKept entered.now kept.old }
    ensures verdict { IfOk result (IsVerdictOf entered.now claim.now) }
    ensures kept { IsKept entered.now kept.new }
{
    if let Claim::MayFlap(_) = claim {
        return Ok(Verdict::Meant);
    }
    match judge(entered, claim, &mut kept.changes, &mut kept.budget)? {
        Extent::Nowhere => Ok(Verdict::Holds),
        Extent::Undecided => Ok(Verdict::Undecided(Obstacle::Budget)),
        Extent::Somewhere => look(
            alloc,
            stage,
            entered.policy(),
            image,
            claim,
            &mut kept.longest,
        ),
    }
}

/// Looks for steps that break a claim.
fn look(
    alloc: Global,
    stage: &mut Stage<'_, '_, '_>,
    policy: &Policy,
    image: &[u8],
    claim: &Claim,
    longest: &mut Option<Longest>,
) -> Result<Verdict, AllocError>
    requires image { IsWritten policy.now image.now }
    requires facts { WouldBreak policy.now claim.now }
    requires longest { IsLongest policy.now longest.old }
    ensures verdict { IfOk result (IsVerdictOf policy.now claim.now) }
    ensures longest { IsLongest policy.now longest.new }
{
    if let Claim::RestsWithin(most) = claim {
        look_longer(alloc, stage, policy, image, claim, *most, longest)?;
        return show_longest(alloc, stage, policy, image, claim, *most, longest);
    }
    match stage.look(claim)? {
        Some(found) => show(alloc, stage, policy, image, claim, &found),
        None => Ok(Verdict::Undecided(Obstacle::NoSteps)),
    }
}

/// Looks for steps that change the state more often than so, unless those before do.
fn look_longer(
    alloc: Global,
    stage: &mut Stage<'_, '_, '_>,
    policy: &Policy,
    image: &[u8],
    claim: &Claim,
    most: u16,
    longest: &mut Option<Longest>,
) -> Result<(), AllocError>
    requires image { IsWritten policy.now image.now }
    requires longest { IsLongest policy.now longest.old }
    ensures { IsLongest policy.now longest.new }
{
    if let Some(before) = longest
        && most <= before.most
    {
        return Ok(());
    }
    if let Some(found) = stage.look(claim)? {
        keep(alloc, policy, image, found, longest)?;
    }
    Ok(())
}

/// Keeps steps in a world, if a core shows that they change the state so often.
fn keep(
    alloc: Global,
    policy: &Policy,
    image: &[u8],
    found: Found,
    longest: &mut Option<Longest>,
) -> Result<(), AllocError>
    requires image { IsWritten policy.now image.now }
    requires longest { IsLongest policy.now longest.old }
    ensures { IsLongest policy.now longest.new }
{
    let Found { trial, links, most } = found;
    let claim = Claim::RestsWithin(most);
    if links.is_empty() {
        if breaks(alloc, policy, image, &claim, &trial)? {
            *longest = Some(Longest {
                most,
                trial,
                links,
                named: None,
            });
        }
        return Ok(());
    }
    let words = links_in_words(alloc, policy, links.as_slice())?;
    let Some(carried) = carried_with(alloc, image, links.as_slice())? else {
        return Ok(());
    };
    if breaks_knowing(alloc, policy, image, carried, &claim, &trial)? {
        *longest = Some(Longest {
            most,
            trial,
            links,
            named: Some(words),
        });
    }
    Ok(())
}

/// Answers that the longest steps in a world break a claim, if they change the state more often than so.
fn show_longest(
    alloc: Global,
    stage: &mut Stage<'_, '_, '_>,
    policy: &Policy,
    image: &[u8],
    claim: &Claim,
    most: u16,
    longest: &Option<Longest>,
) -> Result<Verdict, AllocError>
    requires claim { claim.now ≡ RestsWithin most }
    requires facts { WouldBreak policy.now claim.now }
    requires longest { IsLongest policy.now longest.now }
    ensures { IfOk result (IsVerdictOf policy.now claim.now) }
{
    match longest {
        Some(longest) if most <= longest.most => tell_longest(
            alloc, stage, policy, image, claim, longest,
        ),
        _ => Ok(Verdict::Undecided(Obstacle::NoSteps)),
    }
}

/// Answers that the longest steps in a world break a claim.
fn tell_longest(
    alloc: Global,
    stage: &mut Stage<'_, '_, '_>,
    policy: &Policy,
    image: &[u8],
    claim: &Claim,
    longest: &Longest,
) -> Result<Verdict, AllocError>
    requires { IsBroken policy.now longest.now.named claim.now }
    ensures { IfOk result (IsVerdictOf policy.now claim.now) }
{
    let told = describe_longest(alloc, stage, policy, image, claim, longest)?;
    match &longest.named {
        None => Ok(Verdict::Broken(Broken {
            known: None,
            requests: told.requests,
            situation: told.situation,
        })),
        Some(words) => {
            let known = String::from_str(alloc, words.as_str())?;
            Ok(Verdict::Broken(Broken {
                known: Some(known),
                requests: told.requests,
                situation: told.situation,
            }))
        }
    }
}

/// The words on the longest steps in a world, without those that the claim does not need.
fn describe_longest(
    alloc: Global,
    stage: &mut Stage<'_, '_, '_>,
    policy: &Policy,
    image: &[u8],
    claim: &Claim,
    longest: &Longest,
) -> Result<Words, AllocError> {
    let whole = Showing {
        policy,
        image,
        claim,
        trial: &longest.trial,
        links: longest.links.as_slice(),
    };
    match stage.needed(whole)? {
        Some(trial) => {
            let showing = Showing {
                trial: &trial,
                ..whole
            };
            described(alloc, stage.meant(), showing)
        }
        None => described(alloc, stage.meant(), whole),
    }
}

/// Makes steps on a core that is just opened, and answers that they break a claim if they do. Leaves out those that the claim does not
/// need.
fn show(
    alloc: Global,
    stage: &mut Stage<'_, '_, '_>,
    policy: &Policy,
    image: &[u8],
    claim: &Claim,
    found: &Found,
) -> Result<Verdict, AllocError>
    requires image { IsWritten policy.now image.now }
    requires facts { WouldBreak policy.now claim.now }
    ensures { IfOk result (IsVerdictOf policy.now claim.now) }
{
    let links = found.links.as_slice();
    let whole = Showing {
        policy,
        image,
        claim,
        trial: &found.trial,
        links,
    };
    let needed = stage.needed(whole)?;
    let trial = needed.as_ref().unwrap_or(&found.trial);
    let told = described(alloc, stage.meant(), Showing { trial, ..whole })?;
    if links.is_empty() {
        return show_plain(alloc, policy, image, claim, trial, told);
    }
    show_knowing(alloc, policy, image, claim, trial, links, told)
}

/// The same from an opening at which nothing is known.
fn show_plain(
    alloc: Global,
    policy: &Policy,
    image: &[u8],
    claim: &Claim,
    trial: &Trial,
    told: Words,
) -> Result<Verdict, AllocError>
    requires image { IsWritten policy.now image.now }
    requires facts { WouldBreak policy.now claim.now }
    ensures { IfOk result (IsVerdictOf policy.now claim.now) }
{
    if !breaks(alloc, policy, image, claim, trial)? {
        return Ok(Verdict::Undecided(Obstacle::NoSteps));
    }
    Ok(Verdict::Broken(Broken {
        known: None,
        requests: told.requests,
        situation: told.situation,
    }))
}

/// The same from an opening after a reload that knows these links.
fn show_knowing(
    alloc: Global,
    policy: &Policy,
    image: &[u8],
    claim: &Claim,
    trial: &Trial,
    links: &[LinkState],
    told: Words,
) -> Result<Verdict, AllocError>
    requires image { IsWritten policy.now image.now }
    requires facts { WouldBreak policy.now claim.now }
    ensures { IfOk result (IsVerdictOf policy.now claim.now) }
{
    let words = links_in_words(alloc, policy, links)?;
    let Some(carried) = carried_with(alloc, image, links)? else {
        return Ok(Verdict::Undecided(Obstacle::NoSteps));
    };
    if !breaks_knowing(alloc, policy, image, carried, claim, trial)? {
        return Ok(Verdict::Undecided(Obstacle::NoSteps));
    }
    Ok(Verdict::Broken(Broken {
        known: Some(words),
        requests: told.requests,
        situation: told.situation,
    }))
}

//! From a policy to its image.

ghost use Rattle.std.specs.Prelude.{◌≡◌, ◌≢◌, ◌+◌, ◌≤◌, ◌^◌, ◌<◌, ◌*◌, ◌++◌, []};
ghost use Rattle.std.specs.Prelude.{◌∷◌, length, map, All, IfOk, IfErr, OnOk};
ghost use Rattle.ifs_verify.specs.Accepted.{IsAccepted};
ghost use Rattle.ifs_gen.specs.declared.fault.GenFault.TheVariants.{Memory};
ghost use Rattle.ifs_gen.specs.PlainSizes.{mask_of_part, mask_of};
ghost use Rattle.ifs_gen.specs.PlainSizes.{CodeFits, PartCodeFits};
ghost use Rattle.ifs_gen.specs.PolicyImage.{image_of, routines_of, shared_of, shared_routine, states_from, test_spec};
ghost use Rattle.ifs_gen.specs.Sharing.{frames_for, most_shared, shared_coder};
ghost use Rattle.ifs_gen.specs.inner.Amounts.{plain_bounds};
ghost use Rattle.ifs_policy.specs.Fits.{PolicyFits};
ghost use Rattle.ifs_gen.specs.Refused.{PassesFirst};

use crate::amounts::{Bounds, bounds_in, measure_part, measure_parts};
use crate::costs::event_cost;
use crate::fault::GenFault;
use crate::keys::ConditionCode;
use crate::laws::plain_is_accepted;
use crate::mention::tests_of;
use crate::routines::{body_routine, init_routine, shared_routine};
use crate::sharing::shared_of;
use ifs_base::{Items, RoutineId, TestId, Text};
use ifs_image::{Budgets, Handlers, Image, ImageParts, Routine, StateSpec, TestSpec};
use ifs_policy::{ExternalTest, Handlers as Part, Policy, Table};
use std::alloc::{AllocError, Global};

/// The version of generated images.
pub(crate) const VERSION: u8 = 1;

/// The image of a policy, with the least budgets that the verifier accepts for its code. An error other than P0
/// is the first limit that the policy's plain code exceeds: G1 over all routines, G2, G3 over all routines, G4.
pub fn generate(alloc: Global, policy: &Policy) -> Result<Image, GenFault>
    // The result is the image of the policy.
    ensures image { IfOk result (λ image. image ≡ image_of policy.now) }
    // There is a result only if plain code keeps the limits.
    ensures fits { OnOk result (CodeFits policy.now) }
    // The rules of the verifier accept the image.
    ensures accepted { IfOk result (λ image. IsAccepted image) }
    // An error other than P0 is the first limit that is exceeded.
    ensures refused { IfErr result (λ fault. fault ≢ Memory → PassesFirst policy.now fault) }
{
    let bounds = bounds_of(alloc, policy)?;
    let shared = shared_of(alloc, policy)?;
    let parts = image_of(alloc, policy, bounds, &shared)?;
    plain_is_accepted();
    Ok(Image::new(parts))
}

/// The budgets that follow from plain code, or the first limit that it exceeds.
fn bounds_of(alloc: Global, policy: &Policy) -> Result<Bounds, GenFault>
    ensures bounds { IfOk result (λ bounds. bounds ≡ plain_bounds policy.now) }
    ensures fits { OnOk result (CodeFits policy.now) }
    ensures refused { IfErr result (λ fault. fault ≢ Memory → PassesFirst policy.now fault) }
{
    let count = usize::from(policy.counts().tests);
    let mut measures = Vec::new(alloc);
    measures.push(measure_part(alloc, policy.always(), count)?)?;
    measure_parts(alloc, policy.states(), count, &mut measures)?;
    bounds_in(measures.as_slice(), policy.initial())
}

/// The content of a policy's image.
fn image_of(
    alloc: Global,
    policy: &Policy,
    bounds: Bounds,
    shared: &Table<ConditionCode>,
) -> Result<ImageParts, AllocError>
    requires code { CodeFits policy.now }
    requires bounds { bounds ≡ plain_bounds policy.now }
    requires shared { shared.now ≡ shared_of policy.now }
    requires few { length shared.now ≤ most_shared }
    ensures image { IfOk result (λ image. image ≡ image_of policy.now) }
    ensures policy { OnOk result (PolicyFits policy.now) }
{
    let tables = policy.tables();
    let count = usize::from(policy.counts().tests);
    let mut routines = Vec::new(alloc);
    put_shared(alloc, shared, &mut routines)?;
    let mask = put_routines(alloc, policy.always(), count, shared, &mut routines)?;
    let states = put_states(
        alloc,
        &tables.states,
        policy.states(),
        count,
        shared,
        &mut routines,
    )?;
    let handlers = &routines.as_slice()[shared.len()..];
    let cost = event_cost(handlers, policy.initial(), shared);
    Ok(ImageParts {
        version: VERSION,
        budgets: budgets_with(bounds, cost, shared),
        initial: policy.initial(),
        always: handlers_of(shared.len() as u16, 0, mask),
        interfaces: texts_of(alloc, &tables.interfaces)?,
        tests: specs_of(alloc, &tables.tests)?,
        commands: texts_of(alloc, &tables.commands)?,
        states,
        routines: Items::new(routines),
    })
}

/// The budgets. A second frame is needed if there is a routine to call.
fn budgets_with(bounds: Bounds, cost: u64, shared: &Table<ConditionCode>) -> Budgets
    requires { cost < 2 ^ 32 }
    ensures { result ≡ (record { stack = bounds.stack; frames = frames_for shared.now; cost = cost; commands = bounds.commands }) }
{
    Budgets {
        stack: bounds.stack,
        frames: if shared.len() == 0 { 1 } else { 2 },
        cost: cost as u32,
        commands: bounds.commands,
    }
}

/// The texts of a table.
fn texts_of(alloc: Global, table: &Table<Text>) -> Result<Items<Text>, AllocError>
    ensures { IfOk result (λ texts. texts ≡ table.now) }
{
    let mut texts = Vec::new(alloc);
    for index in 0..table.len() {
        match table.get(index) {
            Some(text) => texts.push(text.clone()?)?,
            None => unreachable!(),
        }
    }
    Ok(Items::new(texts))
}

/// The tests of a table.
fn specs_of(alloc: Global, table: &Table<ExternalTest>) -> Result<Items<TestSpec>, AllocError>
    ensures { IfOk result (λ tests. tests ≡ map test_spec table.now) }
{
    let mut specs = Vec::new(alloc);
    for index in 0..table.len() {
        match table.get(index) {
            Some(test) => specs.push(TestSpec {
                period: test.period.seconds(),
                text: test.command.clone()?,
            })?,
            None => unreachable!(),
        }
    }
    Ok(Items::new(specs))
}

/// The set of these tests, as a mask. The bit of weight 2^t is test t.
fn mask_of(tests: &[TestId]) -> u64
    requires known { All (λ test. test.0 < 64) tests.now }
    requires set { mask_of tests.now < 2 ^ 64 }
    ensures { result ≡ mask_of tests.now }
{
    let mut mask = 0;
    let mut left = tests;
    while let [test, rest @ ..] = left {
        mask += 1 << test.0;
        left = rest;
    }
    mask
}

/// The handlers of a part, by its number: 0 is the always part, then the states follow. `shared` routines come
/// before them.
fn handlers_of(shared: u16, part: u16, mask: u64) -> Handlers
    requires shared { shared ≤ most_shared }
    requires part { part ≤ 256 }
    ensures { result ≡ (record { init = record { 0 = shared + 2 * part }; body = record { 0 = shared + (2 * part + 1) }; mask = mask }) }
{
    Handlers {
        init: RoutineId(shared + 2 * part),
        body: RoutineId(shared + (2 * part + 1)),
        mask,
    }
}

/// Appends the routines of the shared conditions, in order.
fn put_shared(
    alloc: Global,
    shared: &Table<ConditionCode>,
    routines: &mut Vec<Routine>,
) -> Result<(), AllocError>
    ensures { OnOk result (routines.new.items ≡ routines.old.items ++ map shared_routine shared.now) }
{
    for index in 0..shared.len() {
        match shared.get(index) {
            Some(code) => routines.push(shared_routine(alloc, code)?)?,
            None => unreachable!(),
        }
    }
    Ok(())
}

/// Appends the routines of a part. Returns the set of tests that its body mentions.
#[tactic(auto, using(crate::proofs::Copying::below_64, crate::proofs::Copying::set_64, crate::proofs::Copying::init_short, crate::proofs::Copying::body_short))]
fn put_routines(
    alloc: Global,
    part: &Part,
    count: usize,
    shared: &Table<ConditionCode>,
    routines: &mut Vec<Routine>,
) -> Result<u64, AllocError>
    requires few { count ≤ 64 }
    requires few_shared { length shared.now ≤ most_shared }
    requires fits { PartCodeFits count part.now }
    ensures mask { IfOk result (λ mask. mask ≡ mask_of_part count part.now) }
    ensures routines { OnOk result (routines.new.items ≡ routines.old.items ++ routines_of (shared_coder shared.now) count (part.now ∷ [])) }
{
    let tests = tests_of(alloc, &part.body, count)?;
    routines.push(init_routine(alloc, &part.init, shared)?)?;
    routines.push(body_routine(alloc, &part.body, tests.as_slice(), shared)?)?;
    Ok(mask_of(tests.as_slice()))
}

/// Appends the routines of the states. Returns the states with their names.
fn put_states(
    alloc: Global,
    names: &Table<Text>,
    parts: &[Part],
    count: usize,
    shared: &Table<ConditionCode>,
    routines: &mut Vec<Routine>,
) -> Result<Items<StateSpec>, AllocError>
    requires few { count ≤ 64 }
    requires few_states { length parts.now ≤ 256 }
    requires few_shared { length shared.now ≤ most_shared }
    requires named { length parts.now ≡ length names.now }
    requires fits { All (PartCodeFits count) parts.now }
    ensures states { IfOk result (λ states. states ≡ states_from (length shared.now) count 1 names.now parts.now) }
    ensures routines { OnOk result (routines.new.items ≡ routines.old.items ++ routines_of (shared_coder shared.now) count parts.now) }
{
    let mut states = Vec::new(alloc);
    for index in 0..parts.len() {
        let mask = put_routines(alloc, &parts[index], count, shared, routines)?;
        match names.get(index) {
            Some(name) => states.push(StateSpec {
                name: name.clone()?,
                handlers: handlers_of(shared.len() as u16, index as u16 + 1, mask),
            })?,
            None => unreachable!(),
        }
    }
    Ok(Items::new(states))
}

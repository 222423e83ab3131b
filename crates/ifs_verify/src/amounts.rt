//! The backward pass: the most that may be executed from each place of a routine on.

ghost use Rattle.std.specs.Prelude.{ℕ, ◌≡◌, ◌+◌, ◌<◌, ◌≤◌, Some, IfOk, length, slice_index, slice_set};
ghost use Rattle.ifs_base.specs.declared.ids.RoutineId.{RoutineId};
ghost use Rattle.ifs_base.specs.declared.op.Op.TheVariants.{Call};
ghost use Rattle.ifs_image.specs.Code.{op_at, IsSuccessor};
ghost use Rattle.ifs_verify.specs.declared.amounts.Weight.TheVariants.{Cost, Commands};
ghost use Rattle.ifs_verify.specs.Bounds.{callee_amount, cost_of, commands_of};
ghost use Rattle.ifs_verify.specs.Rules.{IsRoutine};
ghost use Rattle.ifs_verify.specs.inner.Passes.{IsSized, PlainRulesHold, HoldsAmount, IsCountedFrom};
ghost use Rattle.ifs_verify.specs.inner.Passes.{LeastAmounts, weight_of, limit_of};
ghost use Rattle.ifs_verify.specs.inner.Found.{IsAmount, HaveRoom};

use crate::places::{code, op_at, room};
use crate::tables::{entry, greater};
use ifs_base::Op;
use ifs_image::ImageView;
use std::alloc::{AllocError, Global};

/// What an amount counts.
#[derive(Clone, Copy)]
pub enum Weight {
    /// Executed instructions.
    Cost,
    /// Queued commands.
    Commands,
}

/// The greatest amounts of a run of one routine.
#[derive(Clone, Copy)]
pub struct Amounts {
    /// Executed instructions.
    pub cost: u32,
    /// Queued commands.
    pub commands: u32,
}

/// The amounts from each place of a routine on.
pub struct AmountsByPlace {
    /// Executed instructions.
    pub costs: Vec<u32>,
    /// Queued commands.
    pub commands: Vec<u32>,
}

impl Drop for AmountsByPlace {
    fn drop(self) {
        let AmountsByPlace {
            costs: _costs,
            commands: _commands,
        } = self;
    }
}

impl AmountsByPlace {
    /// Zeros, as many as the longest routine of an image needs.
    pub fn new(alloc: Global, image: &ImageView<'_>) -> Result<Self, AllocError>
        requires { IsSized image.now }
        ensures { IfOk result (HaveRoom image.now) }
    {
        let places = room(image);
        let costs = zeros(alloc, places)?;
        let commands = zeros(alloc, places)?;
        Ok(AmountsByPlace { costs, commands })
    }
}

/// `count` zeros.
fn zeros(alloc: Global, count: usize) -> Result<Vec<u32>, AllocError>
    ensures long { IfOk result (λ amounts. length amounts.items ≡ count) }
    ensures zero { IfOk result (λ amounts. (k : ℕ) → slice_index amounts.items k ≡ 0) }
{
    let mut amounts: Vec<u32> = Vec::new(alloc);
    amounts.resize(count, 0)?;
    Ok(amounts)
}

/// The greatest amounts of a run of a routine. `costs` and `commands` are those of the lower routines, and
/// `by_place` is room, whatever is in it.
pub fn amounts_of(
    image: &ImageView<'_>,
    routine: usize,
    costs: &[u32],
    commands: &[u32],
    by_place: &mut AmountsByPlace,
) -> Amounts
    requires plain { PlainRulesHold image.now }
    requires routine { IsRoutine image.now routine }
    requires costs { LeastAmounts cost_of image.now 100000 costs.now routine }
    requires commands { LeastAmounts commands_of image.now 64 commands.now routine }
    requires room { HaveRoom image.now by_place.old }
    ensures cost { IsAmount Cost image.now costs.now routine result.cost }
    ensures commands { IsAmount Commands image.now commands.now routine result.commands }
    ensures room { HaveRoom image.now by_place.new }
{
    let code = code(image, routine);
    let count = code.len();
    for done in 0..count {
        let place = count - 1 - done;
        let op = op_at(&code, place);
        count_at(
            image,
            routine,
            place,
            op,
            Weight::Cost,
            costs,
            &mut by_place.costs,
        );
        count_at(
            image,
            routine,
            place,
            op,
            Weight::Commands,
            commands,
            &mut by_place.commands,
        );
    }
    Amounts {
        cost: first(&by_place.costs),
        commands: first(&by_place.commands),
    }
}

/// Writes the amount from a place on. Those of all later places are known.
#[inline(always)]
fn count_at(
    image: &ImageView<'_>,
    routine: usize,
    place: usize,
    op: Op,
    weight: Weight,
    lower: &[u32],
    amounts: &mut Vec<u32>,
)
    requires plain { PlainRulesHold image.now }
    requires routine { IsRoutine image.now routine }
    requires op { op_at image.now routine place ≡ Some op }
    requires lower { LeastAmounts (weight_of weight) image.now (limit_of weight) lower.now routine }
    requires counted { IsCountedFrom (weight_of weight) image.now (slice_index lower.now) routine amounts.old.items (place + 1) }
    ensures { IsCountedFrom (weight_of weight) image.now (slice_index lower.now) routine amounts.new.items place }
{
    let amount = amount_at(op, place, weight, lower, amounts);
    put(amounts, place, amount);
}

/// The amount of the first place.
fn first(amounts: &Vec<u32>) -> u32
    requires { 0 < length amounts.now.items }
    ensures { result ≡ slice_index amounts.now.items 0 }
{
    amounts[0]
}

/// Writes an amount.
fn put(amounts: &mut Vec<u32>, place: usize, amount: u32)
    requires { place < length amounts.old.items }
    ensures { amounts.new.items ≡ slice_set amounts.old.items place amount }
{
    amounts[place] = amount;
}

/// The amount from a place on. Those of its successors are known.
#[inline(always)]
fn amount_at(op: Op, place: usize, weight: Weight, lower: &[u32], amounts: &Vec<u32>) -> u32
    requires place { place < 1024 }
    requires callee { (callee : RoutineId) → op ≡ Call callee → callee.0 < length lower.now }
    requires within { (to : ℕ) → IsSuccessor op place to → to < length amounts.now.items }
    requires low { (k : ℕ) → slice_index lower.now k ≤ 100000 }
    requires room { (k : ℕ) → slice_index amounts.now.items k ≤ 200000000 }
    ensures holds { HoldsAmount (weight_of weight) (slice_index lower.now) (slice_index amounts.now.items) op place result }
    ensures least { (bound : ℕ) → HoldsAmount (weight_of weight) (slice_index lower.now) (slice_index amounts.now.items) op place bound → result ≤ bound }
    ensures more { (bound : ℕ) → ((to : ℕ) → IsSuccessor op place to → slice_index amounts.now.items to ≤ bound) → result ≤ 100001 + bound }
{
    let own = weigh(weight, op) + called(op, lower);
    own + onward(op, place, amounts)
}

/// The amount of an instruction by itself.
fn weigh(weight: Weight, op: Op) -> u32
    ensures value { result ≡ weight_of weight op }
    ensures low { result ≤ 1 }
{
    match weight {
        Weight::Cost => 1,
        Weight::Commands => match op {
            Op::Queue => 1,
            _ => 0,
        },
    }
}

/// The amount of the callee of a call; 0 for another instruction.
fn called(op: Op, lower: &[u32]) -> u32
    requires callee { (callee : RoutineId) → op ≡ Call callee → callee.0 < length lower.now }
    requires low { (k : ℕ) → slice_index lower.now k ≤ 100000 }
    ensures value { result ≡ callee_amount (λ routine place. slice_index lower.now routine) op }
    ensures low { result ≤ 100000 }
{
    match op {
        Op::Call(callee) => lower[usize::from(callee.0)],
        _ => 0,
    }
}

/// The greatest amount from a successor on; 0 if there is none.
#[inline(always)]
fn onward(op: Op, place: usize, amounts: &Vec<u32>) -> u32
    requires place { place < 1024 }
    requires within { (to : ℕ) → IsSuccessor op place to → to < length amounts.now.items }
    ensures holds { (to : ℕ) → IsSuccessor op place to → slice_index amounts.now.items to ≤ result }
    ensures least { (bound : ℕ) → ((to : ℕ) → IsSuccessor op place to → slice_index amounts.now.items to ≤ bound) → result ≤ bound }
{
    match op {
        Op::Ret => 0,
        Op::Jump(target) => entry(amounts, usize::from(target)),
        Op::JumpFalse(target) | Op::JumpTrue(target) => {
            greater(
                entry(amounts, usize::from(target)),
                entry(amounts, place + 1),
            )
        }
        _ => entry(amounts, place + 1),
    }
}

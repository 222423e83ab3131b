//! The forward pass: the kinds on the stack at each place of a routine.
//!
//! The pass carries one list, and each instruction changes it in place. Jumps bring lists to later places.
//! If control also falls through to such a place, both lists must be the same.

ghost use Rattle.std.specs.Prelude.{ℕ, ◌≡◌, ◌≢◌, ◌+◌, ◌^◌, ◌<◌, ◌≤◌, List, Option};
ghost use Rattle.std.specs.Prelude.{Some, None, length, slice_index, IfOk, OnOk, IfErr};
ghost use Rattle.std.specs.Bool.{OnTrue, OnFalse};
ghost use Rattle.ifs_base.specs.declared.op.Kind.{Kind};
ghost use Rattle.ifs_base.specs.declared.op.Op.TheVariants.{Ret};
ghost use Rattle.ifs_image.specs.Code.{op_at, code_of, results_of, target_of, effect, IsSuccessor};
ghost use Rattle.ifs_verify.specs.Rules.{IsRoutine, HasOperand};
ghost use Rattle.ifs_verify.specs.Ways.{Leads};
ghost use Rattle.ifs_verify.specs.Refused.{ReturnsOthers, LacksOperand, LeavesList, LeavesMany, Disagrees};
ghost use Rattle.ifs_verify.specs.inner.Passes.{IsSized, PlainRulesHold, IsImageRefused, Yields, Stands};
ghost use Rattle.ifs_verify.specs.inner.Passes.{IsLeft, IsCleared, AreClear, NeedsHeight, AreLow, kinds_at};

use crate::effects::{apply, keeps_results};
use crate::fault::VerifyFault;
use crate::heights::height_at;
use crate::places::{at, next, room, target};
use crate::stack::Stack;
use ifs_base::Op;
use ifs_image::{ImageView, limits};
use std::alloc::{AllocError, Global};

/// An instruction at a place of a routine.
#[derive(Drop)]
pub struct Here<'i, 'a> {
    pub image: &'i ImageView<'a>,
    pub routine: usize,
    pub place: usize,
    pub op: Op,
}

/// Room for a list at each place of a routine, and at the one after its last; no place has a list.
pub fn no_lists(alloc: Global, image: &ImageView<'_>) -> Result<Vec<Option<Stack>>, AllocError>
    requires { IsSized image.now }
    ensures { IfOk result (λ brought. AreClear image.now brought.items) }
{
    let places = room(image);
    let mut brought: Vec<Option<Stack>> = Vec::with_capacity(alloc, places)?;
    for _place in 0..places {
        brought.push(None)?;
    }
    Ok(brought)
}

/// Passes a place, and returns the height that its instruction needs. `kinds` is the list at this place,
/// and then at the next one.
pub fn pass(
    here: &Here<'_, '_>,
    heights: &[u32],
    kinds: &mut Stack,
    brought: &mut Vec<Option<Stack>>,
) -> Result<u32, VerifyFault>
    requires plain { PlainRulesHold here.now.image.now }
    requires routine { IsRoutine here.now.image.now here.now.routine }
    requires op { op_at here.now.image.now here.now.routine here.now.place ≡ Some here.now.op }
    requires place { here.now.place < length (code_of here.now.image.now here.now.routine) }
    requires long { length heights.now ≡ here.now.routine }
    requires low { AreLow heights.now }
    requires stands { Stands here.now.image.now here.now.routine here.now.place kinds.old brought.old.items }
    ensures stands { OnOk result (Stands here.now.image.now here.now.routine (here.now.place + 1) kinds.new brought.new.items) }
    ensures needs { IfOk result (λ needed. NeedsHeight here.now.image.now here.now.routine (slice_index heights.now) here.now.place needed) }
    ensures refused { IfErr result (IsImageRefused here.now.image.now) }
{
    let before = kinds.len();
    leave(here, kinds)?;
    let needed = height_at(here.image, here.op, before, kinds.len(), heights);
    if !move_on(here, kinds, brought) {
        return Err(VerifyFault::WaysDisagree(at(here.routine, here.place)));
    }
    Ok(needed)
}

/// Changes the list at a place to what its instruction leaves: V6, V9 or V10.
fn leave(here: &Here<'_, '_>, kinds: &mut Stack) -> Result<(), VerifyFault>
    requires sized { IsSized here.now.image.now }
    requires routine { IsRoutine here.now.image.now here.now.routine }
    requires operand { HasOperand here.now.image.now here.now.op }
    requires place { here.now.place < 2 ^ 16 }
    requires op { op_at here.now.image.now here.now.routine here.now.place ≡ Some here.now.op }
    requires leads { Leads here.now.image.now here.now.routine here.now.place here.now.place kinds.old }
    requires within { length kinds.old ≤ 32 }
    ensures yields { OnOk result (Yields here.now.image.now here.now.routine here.now.op kinds.old kinds.new) }
    ensures refused { IfErr result (IsImageRefused here.now.image.now) }
{
    if returns_others(here, kinds) {
        return Err(VerifyFault::WrongResults(at(here.routine, here.place)));
    }
    if !applies(here, kinds) {
        return Err(VerifyFault::WrongOperand(at(here.routine, here.place)));
    }
    if leaves_many(here, kinds) {
        return Err(VerifyFault::StackOver(at(here.routine, here.place)));
    }
    Ok(())
}

/// V9: whether a way leads to a `ret` with another list than the routine's results.
fn returns_others(here: &Here<'_, '_>, before: &Stack) -> bool
    requires routine { IsRoutine here.now.image.now here.now.routine }
    requires op { op_at here.now.image.now here.now.routine here.now.place ≡ Some here.now.op }
    requires leads { Leads here.now.image.now here.now.routine here.now.place here.now.place before.now }
    ensures others { OnTrue result (ReturnsOthers here.now.image.now here.now.routine here.now.place) }
    ensures kept { OnFalse result (here.now.op ≡ Ret → before.now ≡ results_of here.now.image.now here.now.routine) }
{
    !keeps_results(here.image, here.routine, here.op, before)
}

/// V6: changes the list at the end of a way to what an instruction leaves, and returns whether no operand is
/// missing or of the wrong kind.
fn applies(here: &Here<'_, '_>, kinds: &mut Stack) -> bool
    requires operand { HasOperand here.now.image.now here.now.op }
    requires op { op_at here.now.image.now here.now.routine here.now.place ≡ Some here.now.op }
    requires leads { Leads here.now.image.now here.now.routine here.now.place here.now.place kinds.old }
    requires within { length kinds.old ≤ 32 }
    ensures effect { OnTrue result (effect here.now.image.now here.now.op kinds.old ≡ Some kinds.new) }
    ensures lacks { OnFalse result (LacksOperand here.now.image.now here.now.routine here.now.place) }
{
    apply(here.image, here.op, kinds).is_some()
}

/// V10: whether the list that an instruction leaves at the end of a way is longer than the limit.
fn leaves_many(here: &Here<'_, '_>, after: &Stack) -> bool
    requires { LeavesList here.now.image.now here.now.routine here.now.place here.now.op after.now }
    ensures many { OnTrue result (LeavesMany here.now.image.now here.now.routine here.now.place) }
    ensures within { OnFalse result (length after.now ≤ 32) }
{
    after.len() > usize::from(limits::STACK)
}

/// V7: brings what an instruction leaves to its successors, and returns whether none of them has another list.
fn move_on(here: &Here<'_, '_>, kinds: &mut Stack, brought: &mut Vec<Option<Stack>>) -> bool
    requires plain { PlainRulesHold here.now.image.now }
    requires routine { IsRoutine here.now.image.now here.now.routine }
    requires op { op_at here.now.image.now here.now.routine here.now.place ≡ Some here.now.op }
    requires left { IsLeft here.now.image.now here.now.routine here.now.place here.now.op kinds.old brought.old.items }
    ensures stands { OnTrue result (Stands here.now.image.now here.now.routine (here.now.place + 1) kinds.new brought.new.items) }
    ensures disagree { OnFalse result (Disagrees here.now.image.now here.now.routine here.now.place) }
{
    if !bring(here, kinds, brought) {
        return false;
    }
    go_on(here, kinds, brought)
}

/// Brings what an instruction leaves to its target, and returns whether that has no list or the same one.
fn bring(here: &Here<'_, '_>, after: &Stack, brought: &mut Vec<Option<Stack>>) -> bool
    requires plain { PlainRulesHold here.now.image.now }
    requires routine { IsRoutine here.now.image.now here.now.routine }
    requires op { op_at here.now.image.now here.now.routine here.now.place ≡ Some here.now.op }
    requires left { IsLeft here.now.image.now here.now.routine here.now.place here.now.op after.now brought.old.items }
    ensures left { OnTrue result (IsLeft here.now.image.now here.now.routine here.now.place here.now.op after.now brought.new.items) }
    ensures met { OnTrue result ((to : ℕ) → target_of here.now.op ≡ Some to → kinds_at brought.new.items to ≡ Some after.now) }
    ensures disagree { OnFalse result (Disagrees here.now.image.now here.now.routine here.now.place) }
{
    match target(here.op) {
        Some(to) => brings(here, to, after, brought),
        None => true,
    }
}

/// Brings it to a later successor, and returns whether that has no list or the same one.
fn brings(here: &Here<'_, '_>, to: usize, after: &Stack, brought: &mut Vec<Option<Stack>>) -> bool
    requires op { op_at here.now.image.now here.now.routine here.now.place ≡ Some here.now.op }
    requires left { IsLeft here.now.image.now here.now.routine here.now.place here.now.op after.now brought.old.items }
    requires successor { IsSuccessor here.now.op here.now.place to }
    requires later { here.now.place < to }
    requires within { to < length (code_of here.now.image.now here.now.routine) }
    ensures left { OnTrue result (IsLeft here.now.image.now here.now.routine here.now.place here.now.op after.now brought.new.items) }
    ensures met { OnTrue result (kinds_at brought.new.items to ≡ Some after.now) }
    ensures disagree { OnFalse result (Disagrees here.now.image.now here.now.routine here.now.place) }
{
    if !agrees(here, to, after, brought) {
        return false;
    }
    brought[to] = Some(after.copied());
    true
}

/// V7: whether a later successor has no list, or the one that an instruction leaves.
fn agrees(here: &Here<'_, '_>, to: usize, after: &Stack, brought: &Vec<Option<Stack>>) -> bool
    requires op { op_at here.now.image.now here.now.routine here.now.place ≡ Some here.now.op }
    requires left { IsLeft here.now.image.now here.now.routine here.now.place here.now.op after.now brought.now.items }
    requires successor { IsSuccessor here.now.op here.now.place to }
    requires later { here.now.place < to }
    requires within { to < length (code_of here.now.image.now here.now.routine) }
    ensures same { OnTrue result ((other : List Kind) → kinds_at brought.now.items to ≡ Some other → other ≡ after.now) }
    ensures disagree { OnFalse result (Disagrees here.now.image.now here.now.routine here.now.place) }
{
    is_free_for(brought, to, after)
}

/// Whether a place has no list, or this one.
fn is_free_for(brought: &Vec<Option<Stack>>, place: usize, kinds: &Stack) -> bool
    requires { place < length brought.now.items }
    ensures same { OnTrue result ((other : List Kind) → kinds_at brought.now.items place ≡ Some other → other ≡ kinds.now) }
    ensures other { OnFalse result ((other : List Kind) × (kinds_at brought.now.items place ≡ Some other) × (other ≢ kinds.now)) }
{
    match &brought[place] {
        Some(other) => other.is_same(kinds),
        None => true,
    }
}

/// Goes on to the next place. If control falls through, the list stays, and the result is whether the next place
/// has no list or the same one. Otherwise the list becomes the one that was brought to the next place.
fn go_on(here: &Here<'_, '_>, kinds: &mut Stack, brought: &mut Vec<Option<Stack>>) -> bool
    requires plain { PlainRulesHold here.now.image.now }
    requires routine { IsRoutine here.now.image.now here.now.routine }
    requires op { op_at here.now.image.now here.now.routine here.now.place ≡ Some here.now.op }
    requires left { IsLeft here.now.image.now here.now.routine here.now.place here.now.op kinds.old brought.old.items }
    requires met { (to : ℕ) → target_of here.now.op ≡ Some to → kinds_at brought.old.items to ≡ Some kinds.old }
    ensures stands { OnTrue result (Stands here.now.image.now here.now.routine (here.now.place + 1) kinds.new brought.new.items) }
    ensures disagree { OnFalse result (Disagrees here.now.image.now here.now.routine here.now.place) }
{
    match next(here.op, here.place) {
        Some(to) => {
            let agree = agrees(here, to, kinds, brought);
            clear(brought, to);
            agree
        }
        None => {
            take_up(kinds, brought, here.place + 1);
            true
        }
    }
}

/// Drops the list that was brought to a place.
fn clear(brought: &mut Vec<Option<Stack>>, place: usize)
    requires { place < length brought.old.items }
    ensures { IsCleared brought.old.items brought.new.items place }
{
    if brought[place].is_some() {
        brought[place] = None;
    }
}

/// Takes the list that was brought to a place, if there is one.
fn take_up(kinds: &mut Stack, brought: &mut Vec<Option<Stack>>, place: usize)
    requires { place < length brought.old.items }
    ensures taken { (found : List Kind) → kinds_at brought.old.items place ≡ Some found → kinds.new ≡ found }
    ensures cleared { IsCleared brought.old.items brought.new.items place }
{
    if brought[place].is_none() {
        return;
    }
    if let Some(found) = brought[place].take() {
        *kinds = found;
    }
}

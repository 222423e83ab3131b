//! Reached places.

ghost use Rattle.std.specs.Prelude.{ℕ, ◌≡◌, ◌<◌, ◌+◌, ◌^◌, ◌⊎◌, ◌↔◌, IsTrue, length, OnOk, IfErr, IfOk};
ghost use Rattle.ifs_image.specs.Code.{code_of, IsSuccessor};
ghost use Rattle.ifs_verify.specs.Rules.{IsRoutine, IsReached, PlacesAreReached};
ghost use Rattle.ifs_verify.specs.inner.Passes.{IsSized, IsImageRefused, IsMarked};

use crate::fault::VerifyFault;
use crate::places::{at, code, op_at};
use ifs_base::Op;
use ifs_image::ImageView;
use std::alloc::{AllocError, Global};

/// V5: each place of a routine, except the first, follows an earlier one.
pub fn check_reached(alloc: Global, image: &ImageView<'_>) -> Result<(), VerifyFault>
    requires { IsSized image.now }
    ensures kept { OnOk result (PlacesAreReached image.now) }
    ensures refused { IfErr result (IsImageRefused image.now) }
{
    for routine in 0..image.routines() {
        check_reached_in(alloc, image, routine)?;
    }
    Ok(())
}

/// V5 of one routine.
fn check_reached_in(alloc: Global, image: &ImageView<'_>, routine: usize) -> Result<(), VerifyFault>
    requires sized { IsSized image.now }
    requires routine { IsRoutine image.now routine }
    ensures kept { OnOk result ((to : ℕ) → 0 < to → to < length (code_of image.now routine) → IsReached image.now routine to) }
    ensures refused { IfErr result (IsImageRefused image.now) }
{
    let code = code(image, routine);
    let mut marks = no_marks(alloc, code.len())?;
    for place in 0..code.len() {
        if !is_reached(&marks, place) {
            return Err(VerifyFault::Unreached(at(routine, place)));
        }
        let op = op_at(&code, place);
        mark_successors(&mut marks, op, place);
    }
    Ok(())
}

/// `count` places, none of them marked.
fn no_marks(alloc: Global, count: usize) -> Result<Vec<bool>, AllocError>
    ensures long { IfOk result (λ marks. length marks.items ≡ count) }
    ensures none { IfOk result (λ marks. (k : ℕ) → ¬ IsMarked marks.items k) }
{
    let mut marks: Vec<bool> = Vec::new(alloc);
    marks.resize(count, false)?;
    Ok(marks)
}

/// Whether a place is the first, or marked.
fn is_reached(marks: &Vec<bool>, place: usize) -> bool
    requires { place < length marks.now.items }
    ensures { IsTrue result ↔ ((place ≡ 0) ⊎ IsMarked marks.now.items place) }
{
    place == 0 || marks[place]
}

/// Marks the successors of an instruction that are below the number of places.
fn mark_successors(marks: &mut Vec<bool>, op: Op, place: usize)
    requires { place < 2 ^ 16 }
    ensures long { length marks.new.items ≡ length marks.old.items }
    ensures marked { (k : ℕ) → IsMarked marks.new.items k ↔ (IsMarked marks.old.items k ⊎ (IsSuccessor op place k × (k < length marks.old.items))) }
{
    match op {
        Op::Ret => {}
        Op::Jump(target) => mark(marks, usize::from(target)),
        Op::JumpFalse(target) | Op::JumpTrue(target) => {
            mark(marks, usize::from(target));
            mark(marks, place + 1);
        }
        _ => mark(marks, place + 1),
    }
}

/// Marks a place that is below the number of places.
fn mark(marks: &mut Vec<bool>, place: usize)
    ensures long { length marks.new.items ≡ length marks.old.items }
    ensures marked { (k : ℕ) → IsMarked marks.new.items k ↔ (IsMarked marks.old.items k ⊎ ((k ≡ place) × (k < length marks.old.items))) }
{
    if place < marks.len() {
        marks[place] = true;
    }
}

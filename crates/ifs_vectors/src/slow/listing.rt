//! The instructions of an image in one list, and where each may lead.

use crate::slow::kinds::Signature;
use ifs_base::{Op, RoutineId};
use ifs_image::Routine;
use std::alloc::{AllocError, Global};

/// An instruction, and where it is.
#[derive(Clone, Copy)]
pub struct Line {
    /// The routine's index.
    pub routine: usize,
    /// The place in the routine.
    pub place: usize,
    /// How many instructions the routine has.
    pub length: usize,
    pub op: Op,
}

impl Line {
    /// The places of its routine at which the run may continue.
    pub fn successors(&self) -> [Option<usize>; 2] {
        let next = Some(self.place.saturating_add(1));
        match self.op {
            Op::Ret => [None, None],
            Op::Jump(target) => [Some(usize::from(target)), None],
            Op::JumpFalse(target) | Op::JumpTrue(target) => [next, Some(usize::from(target))],
            _ => [next, None],
        }
    }

    /// Whether it comes before another line of its routine and may lead there.
    fn leads_to(&self, other: &Line) -> bool {
        let [first, second] = self.successors();
        let there = Some(other.place);
        self.routine == other.routine
            && self.place < other.place
            && (first == there || second == there)
    }
}

/// All instructions, routines and places ascending.
#[derive(Drop)]
pub struct Listing {
    lines: Vec<Line>,
    /// The index of each routine's first line.
    firsts: Vec<usize>,
    /// What each routine takes and leaves.
    signatures: Vec<Signature>,
    /// The index of the first line that leads to each line.
    origins: Vec<Option<usize>>,
}

impl Listing {
    /// The instructions of routines.
    pub fn of(alloc: Global, routines: &[Routine]) -> Result<Listing, AllocError> {
        let mut listing = Listing {
            lines: Vec::new(alloc),
            firsts: Vec::new(alloc),
            signatures: Vec::new(alloc),
            origins: Vec::new(alloc),
        };
        listing.fill(routines)?;
        Ok(listing)
    }

    fn fill(&mut self, routines: &[Routine]) -> Result<(), AllocError> {
        for (index, routine) in routines.iter().enumerate() {
            self.firsts.push(self.lines.len())?;
            self.signatures.push(Signature::of(routine))?;
            push_lines(&mut self.lines, index, routine)?;
        }
        push_origins(self.lines.as_slice(), &mut self.origins)
    }

    /// All instructions.
    pub fn lines(&self) -> &[Line] {
        self.lines.as_slice()
    }

    /// The index of the first line that leads to each line.
    pub fn origins(&self) -> &[Option<usize>] {
        self.origins.as_slice()
    }

    /// The index of the first line that leads to the line of an index.
    pub fn origin_of(&self, index: usize) -> Option<usize> {
        self.origins.as_slice().get(index).copied().flatten()
    }

    /// The index of the first line of a routine.
    pub fn first_of(&self, routine: RoutineId) -> Option<usize> {
        self.firsts.as_slice().get(usize::from(routine.0)).copied()
    }

    /// What a routine takes and leaves.
    pub fn signature_of(&self, routine: RoutineId) -> Option<Signature> {
        self.signature_at(usize::from(routine.0))
    }

    /// What the routine of an index takes and leaves.
    pub fn signature_at(&self, routine: usize) -> Option<Signature> {
        self.signatures.as_slice().get(routine).copied()
    }

    /// The index of the line at a place of the routine of another line.
    pub fn index_of(&self, line: &Line, place: usize) -> Option<usize> {
        let first = self.firsts.as_slice().get(line.routine)?;
        first.checked_add(place)
    }
}

/// Adds the instructions of a routine.
fn push_lines(lines: &mut Vec<Line>, index: usize, routine: &Routine) -> Result<(), AllocError> {
    let code = routine.code.as_slice();
    for (place, op) in code.iter().enumerate() {
        lines.push(Line {
            routine: index,
            place,
            length: code.len(),
            op: *op,
        })?;
    }
    Ok(())
}

/// Adds for each line the index of the first line that leads to it.
fn push_origins(lines: &[Line], origins: &mut Vec<Option<usize>>) -> Result<(), AllocError> {
    for line in lines {
        origins.push(lines.iter().position(|other| other.leads_to(line)))?;
    }
    Ok(())
}

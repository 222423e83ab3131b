//! The machine's table as a slow program. Each frame has a list of its own, and the program checks for each trap.

use ifs_base::{Kind, LinkState, Op};
use ifs_image::ImageParts;
use std::alloc::{AllocFailed, Global};
use std::mem;

/// A value of the slow program.
#[derive(Clone, Copy, Debug, PartialEq, Eq)]
enum Item {
    Truth(bool),
    Command(u16),
    State(u16),
}

impl Item {
    fn kind(self) -> Kind {
        match self {
            Item::Truth(_) => Kind::Truth,
            Item::Command(_) => Kind::Command,
            Item::State(_) => Kind::StateName,
        }
    }
}

/// A running routine with its own values, the topmost last.
#[derive(Drop)]
struct Frame {
    routine: usize,
    place: usize,
    values: Vec<Item>,
}

/// Why there is no run.
#[derive(Clone, Copy, Debug, PartialEq, Eq)]
pub enum Stop {
    Trap,
    Memory,
}

impl<T: Drop> From<AllocFailed<T>> for Stop {
    fn from(_e: AllocFailed<T>) -> Stop {
        Stop::Memory
    }
}

/// The result of a run.
#[derive(Debug, Drop)]
pub struct Ending {
    pub cost: u32,
    pub commands: Vec<u16>,
    pub wish: Option<u16>,
}

/// The configuration, and what it is run over.
#[derive(Drop)]
struct Plain<'a> {
    parts: &'a ImageParts,
    links: &'a [LinkState],
    tests: &'a [Option<bool>],
    top: Frame,
    callers: Vec<Frame>,
    commands: Vec<u16>,
    wish: Option<u16>,
}

impl Plain<'_> {
    fn op(&self) -> Result<Op, Stop> {
        let Some(routine) = self.parts.routines.as_slice().get(self.top.routine) else {
            return Err(Stop::Trap);
        };
        match routine.code.as_slice().get(self.top.place) {
            Some(op) => Ok(*op),
            None => Err(Stop::Trap),
        }
    }

    fn height(&self) -> usize {
        let mut height = self.top.values.len();
        for frame in &self.callers {
            height = height.saturating_add(frame.values.len());
        }
        height
    }

    /// Adds a value, if the lists together have room for it.
    fn push(&mut self, item: Item) -> Result<(), Stop> {
        if self.height() >= usize::from(self.parts.budgets.stack) {
            return Err(Stop::Trap);
        }
        self.top.values.push(item)?;
        Ok(())
    }

    fn pop(&mut self) -> Result<Item, Stop> {
        match self.top.values.pop() {
            Some(item) => Ok(item),
            None => Err(Stop::Trap),
        }
    }

    fn pop_truth(&mut self) -> Result<bool, Stop> {
        match self.pop()? {
            Item::Truth(truth) => Ok(truth),
            _ => Err(Stop::Trap),
        }
    }

    fn link(&self, n: u16) -> Result<LinkState, Stop> {
        match self.links.get(usize::from(n)) {
            Some(state) => Ok(*state),
            None => Err(Stop::Trap),
        }
    }

    fn test(&self, n: u16) -> Result<Option<bool>, Stop> {
        match self.tests.get(usize::from(n)) {
            Some(value) => Ok(*value),
            None => Err(Stop::Trap),
        }
    }

    fn queue(&mut self) -> Result<(), Stop> {
        let Item::Command(command) = self.pop()? else {
            return Err(Stop::Trap);
        };
        if self.commands.len() >= usize::from(self.parts.budgets.commands) {
            return Err(Stop::Trap);
        }
        self.commands.push(command)?;
        Ok(())
    }

    fn want(&mut self) -> Result<(), Stop> {
        let Item::State(state) = self.pop()? else {
            return Err(Stop::Trap);
        };
        self.wish = Some(state);
        Ok(())
    }

    fn jump_where(&mut self, wanted: bool, target: u16) -> Result<(), Stop> {
        if self.pop_truth()? == wanted {
            self.top.place = usize::from(target);
        }
        Ok(())
    }

    fn call(&mut self, alloc: Global, routine: u16) -> Result<(), Stop> {
        let routine = usize::from(routine);
        let values = self.given(alloc, routine)?;
        if self.callers.len().saturating_add(1) >= usize::from(self.parts.budgets.frames) {
            return Err(Stop::Trap);
        }
        let caller = mem::replace(
            &mut self.top,
            Frame {
                routine,
                place: 0,
                values,
            },
        );
        self.callers.push(caller)?;
        Ok(())
    }

    /// What a routine takes off the list, the topmost last.
    fn given(&mut self, alloc: Global, routine: usize) -> Result<Vec<Item>, Stop> {
        let Some(callee) = self.parts.routines.as_slice().get(routine) else {
            return Err(Stop::Trap);
        };
        let mut values = Vec::new(alloc);
        for kind in callee.params.as_slice().iter().rev() {
            let item = self.pop()?;
            if item.kind() != *kind {
                return Err(Stop::Trap);
            }
            values.insert(0, item)?;
        }
        Ok(values)
    }

    /// Ends a routine. Returns whether the handler ended.
    fn ret(&mut self) -> Result<bool, Stop> {
        let Some(routine) = self.parts.routines.as_slice().get(self.top.routine) else {
            return Err(Stop::Trap);
        };
        let kinds = self.top.values.iter().map(|item| item.kind());
        if !kinds.eq(routine.results.as_slice().iter().copied()) {
            return Err(Stop::Trap);
        }
        let Some(mut caller) = self.callers.pop() else {
            return Ok(true);
        };
        for item in &self.top.values {
            caller.values.push(*item)?;
        }
        self.top = caller;
        Ok(false)
    }

    /// Makes a row of the table. Returns whether the handler ended.
    fn row(&mut self, alloc: Global) -> Result<bool, Stop> {
        let op = self.op()?;
        self.top.place = self.top.place.saturating_add(1);
        match op {
            Op::Ret => return self.ret(),
            Op::Call(routine) => self.call(alloc, routine.0)?,
            Op::Queue => self.queue()?,
            Op::Want => self.want()?,
            Op::Jump(target) => self.top.place = usize::from(target),
            Op::JumpFalse(target) => self.jump_where(false, target)?,
            Op::JumpTrue(target) => self.jump_where(true, target)?,
            Op::Pop => {
                self.pop()?;
            }
            op => {
                let item = self.made(op)?;
                self.push(item)?;
            }
        }
        Ok(false)
    }

    /// The value that an instruction leaves on top.
    fn made(&mut self, op: Op) -> Result<Item, Stop> {
        match op {
            Op::No => Ok(Item::Truth(false)),
            Op::Link(n, state) => Ok(Item::Truth(self.link(n.0)? == state)),
            Op::Test(n) => Ok(Item::Truth(self.test(n.0)? == Some(true))),
            Op::Known(n) => Ok(Item::Truth(self.test(n.0)?.is_some())),
            Op::Negate => Ok(Item::Truth(!self.pop_truth()?)),
            Op::Both => {
                let right = self.pop_truth()?;
                let left = self.pop_truth()?;
                Ok(Item::Truth(left & right))
            }
            Op::Either => {
                let right = self.pop_truth()?;
                let left = self.pop_truth()?;
                Ok(Item::Truth(left | right))
            }
            Op::PushCommand(n) => Ok(Item::Command(n.0)),
            Op::PushState(n) => Ok(Item::State(n.0)),
            Op::Dup => {
                let item = self.pop()?;
                self.push(item)?;
                Ok(item)
            }
            _ => Ok(Item::Truth(true)),
        }
    }
}

/// The run of a handler from no commands and no wish.
pub fn slow_run(
    alloc: Global,
    parts: &ImageParts,
    links: &[LinkState],
    tests: &[Option<bool>],
    handler: u16,
) -> Result<Ending, Stop> {
    let mut plain = Plain {
        parts,
        links,
        tests,
        top: Frame {
            routine: usize::from(handler),
            place: 0,
            values: Vec::new(alloc),
        },
        callers: Vec::new(alloc),
        commands: Vec::new(alloc),
        wish: None,
    };
    for cost in 1..=100_000u32 {
        if plain.row(alloc)? {
            return Ok(Ending {
                cost,
                commands: plain.commands,
                wish: plain.wish,
            });
        }
    }
    Err(Stop::Trap)
}

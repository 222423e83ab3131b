//! Builds an image line by line.

ghost use Rattle.std.specs.Prelude.{◌≡◌, ◌≢◌, ◌++◌, ◌∷◌, [], false, Some, None};
ghost use Rattle.std.specs.Prelude.{MatchResult, OnOk, IfErr, IfOk, option_and_then};
ghost use Rattle.ifs_asm.specs.declared.fault.LineFault.TheVariants as faults;
ghost use Rattle.std.specs.List.{list_any};
ghost use Rattle.std.specs.Str.{bytes_eq};
ghost use Rattle.ifs_image.specs.Limits.{names_of};
ghost use Rattle.ifs_image.specs.Reading.{stands_in};
ghost use Rattle.ifs_base.specs.declared.op.Op.TheVariants.{Ret};
ghost use Rattle.ifs_asm.specs.declared.line.Line.TheVariants as lines;
ghost use Rattle.ifs_asm.specs.inner.Forms.{formed};
ghost use Rattle.ifs_asm.specs.inner.Reading.{Blames};
ghost use Rattle.ifs_asm.specs.inner.Building.{Built, has_no_form, is_of_other, is_full, is_in_order};
ghost use Rattle.ifs_asm.specs.inner.Building.{with_line, one_line_more, nothing, parts_said, begun, current_routine};
ghost use Rattle.ifs_asm.specs.declared.line.Head.TheVariants.{Plain};

use crate::fault::LineFault;
use crate::forms::Formed;
use crate::line::{Head, Line, Version};
use ifs_base::{Items, Kind, Op, RoutineId, StateId, Text};
use ifs_image::{
    Budgets, Handlers, Image, ImageParts, Kinds, Routine, StateSpec, TestSpec, limits,
};
use std::alloc::{AllocError, Global};
use std::marker::Model;

/// The number of lines before the tables.
const FRONT: u8 = 7;

/// What a routine takes and leaves, the topmost last.
#[derive(Drop)]
pub(crate) struct Begun {
    params: Kinds,
    results: Kinds,
}

/// What the lines so far say.
pub(crate) struct Building {
    alloc: Global,
    /// How many lines before the tables were read.
    front: u8,
    /// The version, or version 1 if none was read.
    version: Version,
    budgets: Budgets,
    initial: StateId,
    always: Handlers,
    interfaces: Vec<Text>,
    tests: Vec<TestSpec>,
    commands: Vec<Text>,
    states: Vec<StateSpec>,
    /// The complete routines.
    routines: Vec<Routine>,
    /// How the current routine begins, if there is one. `code` has its instructions.
    current: Option<Begun>,
    code: Vec<Op>,
    /// The number of instructions in all routines, up to 65,535.
    count: u16,
}

impl Drop for Building {
    fn drop(self) {
        let Building {
            alloc: _alloc,
            front: _front,
            version: _version,
            budgets: _budgets,
            initial: _initial,
            always: _always,
            interfaces: _interfaces,
            tests: _tests,
            commands: _commands,
            states: _states,
            routines: _routines,
            current: _current,
            code: _code,
            count: _count,
        } = self;
    }
}

impl Model for Building {
    ghost use Rattle.ifs_asm.specs.inner.Reading.{Blames};
    ghost use Rattle.ifs_asm.specs.inner.Building.{Built, current_routine};

    ghost Value = { Built };

    ghost view = { λ a. record {
      front = a.front;
      version = a.version;
      budgets = a.budgets;
      initial = a.initial;
      always = a.always;
      interfaces = a.interfaces.items;
      tests = a.tests.items;
      commands = a.commands.items;
      states = a.states.items;
      routines = a.routines.items;
      current = current_routine a.current a.code.items;
      count = a.count;
    } };
}

impl Building {
    /// The state before the first line.
    pub(crate) fn new(alloc: Global) -> Self
        ensures { result ≡ nothing }
    {
        Building {
            alloc,
            front: 0,
            version: Version::One,
            budgets: Budgets {
                stack: 0,
                frames: 0,
                cost: 0,
                commands: 0,
            },
            initial: StateId(0),
            always: Handlers {
                init: RoutineId(0),
                body: RoutineId(0),
                mask: 0,
            },
            interfaces: Vec::new(alloc),
            tests: Vec::new(alloc),
            commands: Vec::new(alloc),
            states: Vec::new(alloc),
            routines: Vec::new(alloc),
            current: None,
            code: Vec::new(alloc),
            count: 0,
        }
    }

    /// Adds a line that has a form.
    pub(crate) fn take(&mut self, form: Formed) -> Result<(), LineFault>
        ensures taken { MatchResult result
            (λ _. option_and_then (one_line_more self.old) (formed (Some form)) ≡ Some self.new)
            (λ fault. fault ≢ faults.Memory → option_and_then (one_line_more self.old) (formed (Some form)) ≡ None) }
        ensures blamed { IfErr result (λ fault. Blames self.old (formed (Some form)) fault) }
    {
        self.check(&form)?;
        self.add(form.line)?;
        Ok(())
    }

    /// Checks that a line may come next: its name is new, it is in its range, its table has room, and it is in order.
    fn check(&self, form: &Formed) -> Result<(), LineFault>
        ensures taken { MatchResult result
            (λ _. option_and_then (one_line_more self.now) (formed (Some form.now)) ≡ Some (with_line self.now form.now.line))
            (λ _. option_and_then (one_line_more self.now) (formed (Some form.now)) ≡ None) }
        ensures blamed { IfErr result (λ fault. Blames self.now (formed (Some form.now)) fault) }
    {
        if self.has_no_form(&form.line) {
            return Err(LineFault::Unknown);
        }
        if !form.fits || self.is_full(&form.line) {
            return Err(LineFault::OutOfRange);
        }
        if !self.is_in_order(&form.line) {
            return Err(LineFault::OutOfOrder);
        }
        Ok(())
    }

    /// Whether a line repeats the name of an interface or a state, or begins a routine in the form of the other version.
    fn has_no_form(&self, line: &Line) -> bool
        ensures { result ≡ has_no_form self.now line.now }
    {
        match line {
            Line::Interface(name) => is_among(self.interfaces.as_slice(), name.as_bytes()),
            Line::State(state) => is_name_among(self.states.as_slice(), state.name.as_bytes()),
            Line::Routine(head) => 0 < self.front && is_of_other(self.version, head),
            _ => false,
        }
    }

    /// Whether the table of a line is full.
    fn is_full(&self, line: &Line) -> bool
        ensures { result ≡ is_full self.now line.now }
    {
        match line {
            Line::Interface(_) => self.interfaces.len() >= usize::from(limits::INTERFACES),
            Line::Test(_) => self.tests.len() >= usize::from(limits::TESTS),
            Line::Command(_) => self.commands.len() >= usize::from(limits::COMMANDS),
            Line::State(_) => self.states.len() >= usize::from(limits::STATES),
            Line::Routine(_) => self.has_routines(),
            Line::Instruction(_) => self.has_code(),
            _ => false,
        }
    }

    /// Whether there is the greatest number of routines.
    fn has_routines(&self) -> bool
        ensures { result ≡ is_full self.now (lines.Routine (Plain false)) }
    {
        let one = usize::from(self.current.is_some());
        self.routines.len().saturating_add(one) >= usize::from(limits::ROUTINES)
    }

    /// Whether the current routine or the image has no room for an instruction.
    fn has_code(&self) -> bool
        ensures { result ≡ is_full self.now (lines.Instruction Ret) }
    {
        let length = if self.current.is_some() {
            self.code.len()
        } else {
            0
        };
        length >= usize::from(limits::CODE_OF_ROUTINE)
            || self.count >= limits::code_of_image(self.version.number())
    }

    /// Whether a line may come next: no later line was read, and each line before the tables comes once.
    fn is_in_order(&self, line: &Line) -> bool
        ensures { result ≡ is_in_order self.now line.now }
    {
        match line {
            Line::Version(_) => self.front == 0,
            Line::Stack(_) => self.front == 1,
            Line::Frames(_) => self.front == 2,
            Line::Cost(_) => self.front == 3,
            Line::Commands(_) => self.front == 4,
            Line::Start(_) => self.front == 5,
            Line::Always(_) => self.front == 6,
            Line::Interface(_) => {
                self.front == FRONT
                    && (self.tests.is_empty()
                        && (self.commands.is_empty() && self.states.is_empty()))
            }
            Line::Test(_) => {
                self.front == FRONT && (self.commands.is_empty() && self.states.is_empty())
            }
            Line::Command(_) => self.front == FRONT && self.states.is_empty(),
            Line::State(_) => self.front == FRONT && self.current.is_none(),
            Line::Routine(_) => !self.states.is_empty(),
            Line::Instruction(_) => self.current.is_some(),
        }
    }

    /// Adds what a line says.
    fn add(&mut self, line: Line) -> Result<(), AllocError>
        ensures { OnOk result (self.new ≡ with_line self.old line) }
    {
        match line {
            Line::Interface(name) => add_to(&mut self.interfaces, name),
            Line::Test(test) => add_to(&mut self.tests, test),
            Line::Command(text) => add_to(&mut self.commands, text),
            Line::State(state) => add_to(&mut self.states, state),
            Line::Routine(head) => self.add_routine(head),
            Line::Instruction(op) => self.add_instruction(op),
            Line::Version(version) => {
                self.version = version;
                self.front = 1;
                Ok(())
            }
            Line::Stack(stack) => {
                self.budgets.stack = stack;
                self.front = 2;
                Ok(())
            }
            Line::Frames(frames) => {
                self.budgets.frames = frames;
                self.front = 3;
                Ok(())
            }
            Line::Cost(cost) => {
                self.budgets.cost = cost;
                self.front = 4;
                Ok(())
            }
            Line::Commands(commands) => {
                self.budgets.commands = commands;
                self.front = 5;
                Ok(())
            }
            Line::Start(initial) => {
                self.initial = initial;
                self.front = 6;
                Ok(())
            }
            Line::Always(always) => {
                self.always = always;
                self.front = FRONT;
                Ok(())
            }
        }
    }

    /// Begins a routine, and so completes the one before.
    fn add_routine(&mut self, head: Head) -> Result<(), AllocError>
        ensures { OnOk result (self.new ≡ with_line self.old (lines.Routine head)) }
    {
        let code = std::mem::replace(&mut self.code, Vec::new(self.alloc));
        if let Some(Begun { params, results }) = self.current.replace(start_of(head)) {
            let code = Items::new(code);
            self.routines.push(Routine {
                params,
                results,
                code,
            })?;
        }
        Ok(())
    }

    fn add_instruction(&mut self, op: Op) -> Result<(), AllocError>
        ensures { OnOk result (self.new ≡ with_line self.old (lines.Instruction op)) }
    {
        self.code.push(op)?;
        self.count = self.count.saturating_add(1);
        Ok(())
    }

    /// The parts that the lines say.
    pub(crate) fn finish(self) -> Result<ImageParts, AllocError>
        ensures { IfOk result (λ parts. parts ≡ parts_said self) }
    {
        let Building {
            alloc: _alloc,
            front: _front,
            version,
            budgets,
            initial,
            always,
            interfaces,
            tests,
            commands,
            states,
            mut routines,
            current,
            code,
            count: _count,
        } = self;
        if let Some(Begun { params, results }) = current {
            let code = Items::new(code);
            routines.push(Routine {
                params,
                results,
                code,
            })?;
        }
        Ok(ImageParts {
            version: version.number(),
            budgets,
            initial,
            always,
            interfaces: Items::new(interfaces),
            tests: Items::new(tests),
            commands: Items::new(commands),
            states: Items::new(states),
            routines: Items::new(routines),
        })
    }
}

/// Adds an entry to a table.
fn add_to<T: Drop>(table: &mut Vec<T>, entry: T) -> Result<(), AllocError>
    ensures { OnOk result (table.new.items ≡ table.old.items ++ entry ∷ []) }
{
    table.push(entry)?;
    Ok(())
}

/// The beginning of a routine, from its first line.
fn start_of(head: Head) -> Begun
    ensures { current_routine (Some result) [] ≡ Some (begun head) }
{
    match head {
        Head::Plain(true) => {
            let mut results = Kinds::new();
            results.push(Kind::Truth);
            Begun {
                params: Kinds::new(),
                results,
            }
        }
        Head::Plain(false) => Begun {
            params: Kinds::new(),
            results: Kinds::new(),
        },
        Head::Signature { params, results } => Begun { params, results },
    }
}

/// Whether a routine begins in the form of the other version.
fn is_of_other(version: Version, head: &Head) -> bool
    ensures { result ≡ is_of_other version head.now }
{
    match (version, head) {
        (Version::One, Head::Signature { .. }) | (Version::Two, Head::Plain(_)) => true,
        _ => false,
    }
}

/// Whether a table has a name.
fn is_among(names: &[Text], name: &[u8]) -> bool
    ensures { result ≡ stands_in name.now names.now }
{
    names.iter().any(|other| is_same(other.as_bytes(), name))
}

/// Whether a state of a table has a name.
fn is_name_among(states: &[StateSpec], name: &[u8]) -> bool
    ensures { result ≡ stands_in name.now (names_of states.now) }
{
    have_name(states, name)
}

fn have_name(states: &[StateSpec], name: &[u8]) -> bool
    ensures { result ≡ list_any (λ s. bytes_eq s.name name.now) states.now }
{
    states
        .iter()
        .any(|other| is_same(other.name.as_bytes(), name))
}

/// Whether two names are the same. Most names of the same length differ near the front.
#[inline(always)]
fn is_same(one: &[u8], other: &[u8]) -> bool
    ensures { result ≡ bytes_eq one.now other.now }
{
    one.len() == other.len() && begin_alike(one, other) && one == other
}

/// Whether two names begin alike. Returns `true` if one of them is short.
#[inline(always)]
fn begin_alike(one: &[u8], other: &[u8]) -> bool
    ensures { result ≡ false → bytes_eq one.now other.now ≡ false }
{
    match (one.first_chunk::<16>(), other.first_chunk::<16>()) {
        (Some(front), Some(begin)) => *front == *begin,
        _ => true,
    }
}

//! What the lines before a line say.

use crate::forms::{Form, Kind, form_named, kinds_of_lines, routine_form};
use crate::words::{Front, is_newline};
use ifs_image::limits;

/// The number of lines before the tables.
const FRONT: u8 = 7;

/// How many lines of each kind come before a line, and the version.
#[derive(Clone, Copy)]
pub(crate) struct Before {
    /// The lines before the tables.
    front: u8,
    is_second: bool,
    interfaces: usize,
    tests: usize,
    commands: usize,
    states: usize,
    routines: usize,
    /// The instructions of the last routine.
    code: usize,
    /// The instructions of all routines.
    instructions: usize,
}

/// The form of a line, by its first three words, as `asm` reads it. `None` if the first word begins no line.
pub(crate) fn form_of(front: &Front<'_>) -> Option<&'static Form> {
    form_named(front.first.bytes, !front.has_text())
}

impl Before {
    /// What lines say, which are the first lines of an assembly text.
    pub(crate) fn of(lines: &[u8]) -> Before {
        let mut before = Before {
            front: 0,
            is_second: false,
            interfaces: 0,
            tests: 0,
            commands: 0,
            states: 0,
            routines: 0,
            code: 0,
            instructions: 0,
        };
        for line in lines.split(is_newline) {
            before.add(Front::of(line));
        }
        before
    }

    /// Adds a line.
    fn add(&mut self, line: Front<'_>) {
        if line.is_silent() {
            return;
        }
        if let Some(form) = form_of(&line) {
            self.is_second = self.is_second || is_second(form, &line);
            self.count(form.kind);
        }
    }

    /// Counts a line.
    fn count(&mut self, kind: Kind) {
        match kind {
            Kind::Interface => self.interfaces = self.interfaces.saturating_add(1),
            Kind::Test => self.tests = self.tests.saturating_add(1),
            Kind::Command => self.commands = self.commands.saturating_add(1),
            Kind::State => self.states = self.states.saturating_add(1),
            Kind::Routine => {
                self.routines = self.routines.saturating_add(1);
                self.code = 0;
            }
            Kind::Instruction => {
                self.code = self.code.saturating_add(1);
                self.instructions = self.instructions.saturating_add(1);
            }
            _ => self.front = self.front.saturating_add(1),
        }
    }

    /// Whether a line of this kind may come next.
    pub(crate) fn admits(&self, kind: Kind) -> bool {
        self.has_place(kind) && self.has_room(kind)
    }

    /// What has to come next, if it is one kind of line alone.
    pub(crate) fn only_admitted(&self) -> Option<&'static str> {
        let mut only = None;
        for lines in kinds_of_lines() {
            if self.admits(lines.kind) {
                if only.is_some() {
                    return None;
                }
                only = Some(lines.expected);
            }
        }
        only
    }

    /// Whether a line of this kind may come next in the order of lines.
    pub(crate) fn has_place(&self, kind: Kind) -> bool {
        match kind {
            Kind::Version => self.front == 0,
            Kind::Stack => self.front == 1,
            Kind::Frames => self.front == 2,
            Kind::Cost => self.front == 3,
            Kind::Commands => self.front == 4,
            Kind::Start => self.front == 5,
            Kind::Always => self.front == 6,
            Kind::Interface => {
                self.front == FRONT && self.tests == 0 && self.commands == 0 && self.states == 0
            }
            Kind::Test => self.front == FRONT && self.commands == 0 && self.states == 0,
            Kind::Command => self.front == FRONT && self.states == 0,
            Kind::State => self.front == FRONT && self.routines == 0,
            Kind::Instruction => self.routines > 0,
            Kind::Routine => self.states > 0,
        }
    }

    /// Whether there is room for a line of this kind.
    pub(crate) fn has_room(&self, kind: Kind) -> bool {
        match kind {
            Kind::Interface => self.interfaces < usize::from(limits::INTERFACES),
            Kind::Test => self.tests < usize::from(limits::TESTS),
            Kind::Command => self.commands < usize::from(limits::COMMANDS),
            Kind::State => self.states < usize::from(limits::STATES),
            Kind::Routine => self.routines < usize::from(limits::ROUTINES),
            Kind::Instruction => self.has_room_in_routine() && self.instructions < self.most(),
            _ => true,
        }
    }

    /// Whether the last routine has room for an instruction.
    pub(crate) fn has_room_in_routine(&self) -> bool {
        self.code < usize::from(limits::CODE_OF_ROUTINE)
    }

    /// The most instructions of an image of this version.
    pub(crate) fn most(&self) -> usize {
        usize::from(limits::code_of_image(if self.is_second { 2 } else { 1 }))
    }

    /// Whether the lines before the tables are there.
    pub(crate) fn has_front(&self) -> bool {
        self.front == FRONT
    }

    /// Whether a routine has begun.
    pub(crate) fn has_routine(&self) -> bool {
        self.routines > 0
    }

    /// The form in which a routine begins. If the version is not known, it is the one with this second word.
    pub(crate) fn routine_form(&self, second: &[u8]) -> &'static Form {
        routine_form(if self.front == 0 {
            second == b"params".as_slice()
        } else {
            self.is_second
        })
    }
}

/// Whether a line says version 2.
fn is_second(form: &Form, line: &Front<'_>) -> bool {
    form.kind == Kind::Version && line.second.bytes == b"2".as_slice()
}

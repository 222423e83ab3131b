//! A walk over the fields of an image.

use crate::field::{Field, Role, Row, Section, Table, Times, sections};

/// A field of an image, and its bytes.
#[derive(Clone, Copy)]
pub(crate) struct Found<'a> {
    pub field: Field,
    /// The offset of its first byte.
    pub at: usize,
    /// Its bytes, if they are there, or the first ones of them.
    pub bytes: &'a [u8],
}

/// The number of entries of each table.
#[derive(Clone, Copy)]
struct Counts {
    interfaces: u16,
    tests: u16,
    commands: u16,
    states: u16,
    routines: u16,
}

/// The place of a walk, and what the fields before it say of those after it.
#[derive(Drop)]
struct Walk<'a> {
    rest: &'a [u8],
    at: usize,
    version: u16,
    counts: Counts,
    /// The last length of a text, number of kinds, or number of instructions.
    many: u16,
}

/// What a walk looks for.
#[derive(Clone, Copy)]
enum Wanted<'n> {
    /// The first field at an offset or after it.
    From(usize),
    /// The first field of a name with these bytes.
    Same(&'static str, &'n [u8]),
}

/// The field that begins at an offset, if the bytes before it begin an image.
pub(crate) fn found_at(image: &[u8], at: usize) -> Option<Found<'_>> {
    match first(image, Wanted::From(at)) {
        Some(found) if found.at == at => Some(found),
        _ => None,
    }
}

/// The first field that has this name and these bytes.
pub(crate) fn first_same<'a>(image: &'a [u8], row: &Row, bytes: &[u8]) -> Option<Found<'a>> {
    first(image, Wanted::Same(row.name, bytes))
}

/// The first field that is wanted.
fn first<'a>(image: &'a [u8], wanted: Wanted<'_>) -> Option<Found<'a>> {
    let mut walk = Walk::new(image);
    for section in sections() {
        let found = walk.section(section, wanted);
        if found.is_some() {
            return found;
        }
    }
    None
}

impl Wanted<'_> {
    fn is(self, found: Found<'_>) -> bool {
        match self {
            Wanted::From(at) => found.at >= at,
            Wanted::Same(name, bytes) => found.bytes == bytes && found.field.row.name == name,
        }
    }
}

/// The number that at most two bytes spell, and 0 for any other bytes.
fn short_number(bytes: &[u8]) -> u16 {
    match bytes {
        [byte] => u16::from(*byte),
        [high, low] => u16::from_be_bytes([*high, *low]),
        _ => 0,
    }
}

impl<'a> Walk<'a> {
    fn new(image: &'a [u8]) -> Self {
        Walk {
            rest: image,
            at: 0,
            version: 0,
            counts: Counts {
                interfaces: 0,
                tests: 0,
                commands: 0,
                states: 0,
                routines: 0,
            },
            many: 0,
        }
    }

    /// Goes over fields as often as they are there, up to one that is wanted.
    fn section(&mut self, section: &Section, wanted: Wanted<'_>) -> Option<Found<'a>> {
        for entry in 0..self.times(section.times) {
            let found = self.entry(section.rows, entry, wanted);
            if found.is_some() {
                return found;
            }
        }
        None
    }

    /// The same for the fields of one entry.
    fn entry(&mut self, rows: &'static [Row], entry: u16, wanted: Wanted<'_>) -> Option<Found<'a>> {
        for row in rows {
            let found = self.row(row, entry, wanted);
            if found.is_some() {
                return found;
            }
        }
        None
    }

    /// The same for the fields of one name.
    fn row(&mut self, row: &'static Row, entry: u16, wanted: Wanted<'_>) -> Option<Found<'a>> {
        for place in 0..self.places(row.role) {
            let found = self.step(Field { row, entry, place });
            if wanted.is(found) {
                return Some(found);
            }
        }
        None
    }

    /// Goes over a field.
    fn step(&mut self, field: Field) -> Found<'a> {
        let left = self.rest;
        let width = self.width(field.row);
        let (bytes, rest) = left.split_at(width.min(left.len()));
        let at = self.at;
        self.at = at.saturating_add(bytes.len());
        self.rest = rest;
        self.keep(field.row.role, short_number(bytes));
        Found { field, at, bytes }
    }

    /// How often fields are there.
    fn times(&self, times: Times) -> u16 {
        match times {
            Times::Once => 1,
            Times::Each(table) => self.counts.of(table),
            Times::EachFirst if self.version == 1 => self.counts.routines,
            Times::EachSecond if self.version != 1 => self.counts.routines,
            _ => 0,
        }
    }

    /// How often a field is there in its entry.
    fn places(&self, role: Role) -> u16 {
        match role {
            Role::Kind | Role::Instruction => self.many,
            _ => 1,
        }
    }

    /// The number of bytes of a field.
    fn width(&self, row: &Row) -> usize {
        match row.role {
            Role::Text => usize::from(self.many),
            _ => row.width,
        }
    }

    /// Keeps what a number says of later fields.
    fn keep(&mut self, role: Role, number: u16) {
        match role {
            Role::Version => self.version = number,
            Role::Count(table) => self.counts.set(table, number),
            Role::Many => self.many = number,
            _ => {}
        }
    }
}

impl Counts {
    fn of(&self, table: Table) -> u16 {
        match table {
            Table::Interfaces => self.interfaces,
            Table::Tests => self.tests,
            Table::Commands => self.commands,
            Table::States => self.states,
            Table::Routines => self.routines,
        }
    }

    fn set(&mut self, table: Table, number: u16) {
        match table {
            Table::Interfaces => self.interfaces = number,
            Table::Tests => self.tests = number,
            Table::Commands => self.commands = number,
            Table::States => self.states = number,
            Table::Routines => self.routines = number,
        }
    }
}

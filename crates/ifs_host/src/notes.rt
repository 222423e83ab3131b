//! The notes of the daemon, except for those of commands and tests.

use crate::reasons::reason_of;
use crate::reloading::{FileRead, ReloadFault};
use crate::snapshot::{Change, Facts, MOST, Snapshot};
use crate::standard_error::StandardError;
use ifs_base::{IfaceId, LinkState, TestId};
use ifs_core::{Core, Step};
use ifs_options::Notes;
use ifs_session::{End, SessionFault};
use ifs_terminal::Shown;
use log::{LevelFilter, Log, Logged, info, warn};
use std::alloc::Global;
use std::fmt::{self, Display, Formatter, Write};

/// The log of a daemon's notes.
pub type NoteLog = Logged<HostRuntime, StandardError>;

/// The level up to which notes are written.
pub(crate) fn level_of(wanted: Notes) -> LevelFilter {
    match wanted {
        Notes::All | Notes::Changes => LevelFilter::Info,
        Notes::Faults => LevelFilter::Warn,
        Notes::Off => LevelFilter::Off,
    }
}

/// Notes the end of a connection. If not all notes are wanted, only that one was too long is noted.
pub(crate) fn note_end(notes: &NoteLog, wanted: Notes, end: End) {
    let is_too_long = end == End::Fault(SessionFault::TooMuchInput);
    if !matches!(wanted, Notes::All) && !is_too_long {
        return;
    }
    match end {
        End::Fault(fault) => info!(notes; "fault {fault}"),
        _ => info!(notes; "{}", word_of_end(end)),
    }
}

/// The word for a connection's end.
fn word_of_end(end: End) -> &'static str {
    match end {
        End::Closed => "closed",
        End::Stop => "stop",
        End::Full => "full",
        End::Reload => "reload",
        End::Fault(_) => "fault",
    }
}

/// Notes a reload, and the state that it begins in.
pub fn note_reload(notes: &NoteLog, core: &Core<'_>) {
    let state = Shown(core.state_name(core.state()).unwrap_or_default());
    info!(notes; "image taken over in state {state}");
}

/// Notes a refused reload with its code, and says why in words unless memory runs out for them.
pub fn note_refused_reload(notes: &NoteLog, alloc: Global, fault: ReloadFault, read: &FileRead) {
    match reason_of(alloc, fault, read) {
        Ok(reason) => warn!(notes; "image refused: {fault}: {reason}"),
        Err(_memory) => warn!(notes; "image refused: {fault}"),
    }
}

/// Notes a connection that is closed and not served, since there is no memory for its replies.
pub fn note_no_memory(notes: &NoteLog) {
    warn!(notes; "no connection: out of memory");
}

/// The notes of ticks that go backwards: one for each moment that a tick comes before.
#[derive(Drop)]
pub struct BackwardTicks {
    /// The moment of the last note.
    noted: Option<u64>,
}

impl BackwardTicks {
    /// Without a note so far.
    pub fn new() -> Self {
        BackwardTicks { noted: None }
    }

    /// Notes a tick that was refused, since it is before the moment `now`.
    pub fn note(&mut self, notes: &impl Log, now: u64, moment: u64) {
        if self.noted != Some(now) {
            warn!(notes; "tick {moment} goes backwards: the moment is {now}");
            self.noted = Some(now);
        }
    }
}

/// Notes the link or the test that a step changed.
pub fn note_change(notes: &impl Log, core: &Core<'_>, fact: FactChange) {
    let (kind, name, before, after) = match fact.change {
        Change::Link(interface, before, link) => (
            "link",
            interface_name(core, interface),
            word_of(before),
            word_of(link),
        ),
        Change::Test(test, before, value) => (
            "test",
            core.test_text(test).unwrap_or_default(),
            word_of_value(before),
            word_of_value(Some(value)),
        ),
        Change::Nothing => return,
    };
    let end = AtLimit(fact.limit);
    info!(notes; "{kind} {} {before} -> {after}{end}", Shown(name));
}

/// Notes a change of state with its cause and the tests that are false. `before` has the state before.
pub fn note_state(notes: &impl Log, core: &Core<'_>, before: &Snapshot, cause: Cause<'_>) {
    let from = Shown(core.state_name(before.state).unwrap_or_default());
    let to = Shown(core.state_name(core.state()).unwrap_or_default());
    let falses = FalseTests::of(core, &before.facts);
    info!(notes; "state {from} -> {to} by {cause}{falses}");
}

/// The texts of the tests that are false, by their numbers. The others are empty.
#[derive(Clone, Copy)]
struct FalseTests<'a> {
    texts: [&'a str; MOST],
}

impl<'a> FalseTests<'a> {
    /// The tests that are known to be false.
    fn of(core: &Core<'a>, facts: &Facts) -> Self {
        let mut texts = [""; MOST];
        for index in 0..MOST as u16 {
            let text = text_if_false(core, facts, TestId(index));
            if let Some(place) = texts.get_mut(usize::from(index)) {
                *place = text;
            }
        }
        FalseTests { texts }
    }
}

/// The text of a test if it is known to be false, or else none.
fn text_if_false<'a>(core: &Core<'a>, facts: &Facts, test: TestId) -> &'a str {
    match facts.value(test) {
        Some(false) => core.test_text(test).unwrap_or_default(),
        _ => "",
    }
}

/// The texts after what they are. Nothing if there is none.
impl Display for FalseTests<'_> {
    fn fmt<W: Write>(&self, f: &mut Formatter<W>) -> fmt::Result {
        let mut between = "; false: ";
        for text in &self.texts {
            if !text.is_empty() {
                write!(f, "{between}{}", Shown(text))?;
                between = ", ";
            }
        }
        Ok(())
    }
}

/// A change of a fact.
#[derive(Clone, Copy)]
pub struct FactChange {
    /// What changed.
    pub change: Change,
    /// The limit in seconds at which the test was killed, if it was.
    pub limit: Option<u64>,
}

/// What led to a change of state, with names.
#[derive(Clone, Copy)]
pub struct Cause<'a> {
    /// What changed last.
    changed: Changed<'a>,
    /// The moment of the tick that asked the policy again, if one did.
    tick: Option<u64>,
}

/// A change of a fact, with names.
#[derive(Clone, Copy)]
enum Changed<'a> {
    /// An interface has this link.
    Link(&'a str, LinkState),
    /// A test has this value, with the limit at which it was killed, if it was.
    Test(&'a str, bool, Option<u64>),
    /// Nothing changed since the opening.
    Nothing,
}

impl<'a> Cause<'a> {
    /// The cause of what a step changed: the fact that changed last, which a tick asks the policy about again.
    pub fn of(core: &Core<'a>, latest: FactChange, step: Step) -> Self {
        let changed = match latest.change {
            Change::Link(interface, _before, link) => {
                Changed::Link(interface_name(core, interface), link)
            }
            Change::Test(test, _before, value) => Changed::Test(
                core.test_text(test).unwrap_or_default(),
                value,
                latest.limit,
            ),
            Change::Nothing => Changed::Nothing,
        };
        let tick = match step {
            Step::Tick(moment) => Some(moment),
            Step::Link(..) | Step::Finished(..) | Step::Take => None,
        };
        Cause { changed, tick }
    }
}

impl Display for Cause<'_> {
    fn fmt<W: Write>(&self, f: &mut Formatter<W>) -> fmt::Result {
        match (self.changed, self.tick) {
            (Changed::Nothing, Some(moment)) => return write!(f, "tick {moment}"),
            (Changed::Nothing, None) => return f.write_str("the opening"),
            (Changed::Link(name, link), _) => write!(f, "link {} {}", Shown(name), word_of(link))?,
            (Changed::Test(text, value, limit), _) => {
                write!(f, "test {} {value}{}", Shown(text), AtLimit(limit))?;
            }
        }
        match self.tick {
            Some(_moment) => f.write_str(", at a tick"),
            None => Ok(()),
        }
    }
}

/// Says that a program was killed at this limit in seconds, if it was.
#[derive(Clone, Copy)]
struct AtLimit(pub Option<u64>);

impl Display for AtLimit {
    fn fmt<W: Write>(&self, f: &mut Formatter<W>) -> fmt::Result {
        match self.0 {
            Some(_seconds) => write!(f, ", killed at its limit{}", OfSeconds(self.0)),
            None => Ok(()),
        }
    }
}

/// Says which limit in seconds it was, if that is known.
#[derive(Clone, Copy)]
pub(crate) struct OfSeconds(pub Option<u64>);

impl Display for OfSeconds {
    fn fmt<W: Write>(&self, f: &mut Formatter<W>) -> fmt::Result {
        match self.0 {
            Some(seconds) => write!(f, " of {seconds} s"),
            None => Ok(()),
        }
    }
}

/// The name of an interface. It is empty if the interface is not in the table.
pub(crate) fn interface_name<'a>(core: &Core<'a>, interface: IfaceId) -> &'a str {
    let image = core.image();
    let index = usize::from(interface.0);
    if index < image.interfaces() {
        image.interface(index)
    } else {
        ""
    }
}

/// The word of a link state in requests.
fn word_of(link: LinkState) -> &'static str {
    match link {
        LinkState::Up => "up",
        LinkState::Down => "down",
        LinkState::Unknown => "unknown",
    }
}

/// The word of a test's value.
fn word_of_value(value: Option<bool>) -> &'static str {
    match value {
        Some(true) => "true",
        Some(false) => "false",
        None => "unknown",
    }
}

//! Notes on policies that are accepted, and look as if something else were meant.

use crate::scans::{ByteKind, contains, length_of_front};
use crate::suspects::{Reading, Suspect};
use crate::twins::twins;
use ifs_expected_tokens::Spelled;
use ifs_policy_text::macros::{Macro, macros_of};
use ifs_report::{Draft, Part, Place, Report, Severity};
use memchr::{memchr_iter, memchr2, memchr2_iter};
use std::alloc::{AllocError, Global};
use std::collections::HashMap;

/// The most notes on a policy.
const MOST_NOTES: usize = 64;

/// Programs whose texts have backslashes of their own.
const READERS: [&str; 8] = [
    "printf", "echo -e", "awk", "sed", "tr", "perl", "python", "grep",
];

/// The macros of a policy.
#[derive(Clone, Copy)]
struct Known<'m, 'n> {
    macros: &'m [Macro<'n>],
    /// The number of the last macro of each name.
    names: &'m HashMap<&'n str, usize>,
}

/// The text of a policy, or the value of one of its macros.
#[derive(Clone, Copy)]
struct Run<'m, 'n, 'h> {
    known: Known<'m, 'n>,
    /// The macro whose value it is, if it is one.
    home: Option<&'h Macro<'n>>,
}

/// What looks as if something else were meant.
#[derive(Clone, Copy)]
pub(crate) enum Doubt<'d> {
    /// `NAME.link`, where a macro has this name.
    Interface(&'d str),
    /// `run NAME`, where a macro has this name.
    Command(&'d str),
    /// `$NAME` in quotes, where a macro has this name.
    Variable(&'d str),
    /// A backslash with an `n` behind it, in quotes.
    Newline,
    /// An action that is indented as if it belonged to the `if` at this place.
    Action(Place),
    /// Conditions without parentheses, in the value of the macro of this name.
    Chain(&'d str),
    /// A newline in quotes that joins two words.
    Joined,
    /// `set-state` to the state of this name, in that state.
    Itself(&'d str),
    /// An interface that occurs once, and is one letter from the other one.
    Twin(&'d str, &'d str),
}

/// A doubt with the place that it is about.
#[derive(Clone, Copy)]
pub(crate) struct Doubted<'d> {
    pub place: Place,
    pub doubt: Doubt<'d>,
}

impl<'m, 'n> Known<'m, 'n> {
    fn is_macro(&self, name: &str) -> bool {
        self.names.get(name).is_some()
    }

    /// The last macro of a name.
    fn last_named(&self, name: &str) -> Option<&'m Macro<'n>> {
        self.macros.get(*self.names.get(name)?)
    }
}

impl Run<'_, '_, '_> {
    /// The place of a part of it.
    fn place(&self, part: Part) -> Place {
        match self.home {
            Some(home) => home.place(part),
            None => Place::Text(part),
        }
    }
}

/// The notes on a policy, in the order of its text.
pub(crate) fn notes_of<'a>(
    alloc: Global,
    text: &'a str,
    definitions: &[(&'a str, &'a str)],
) -> Result<Vec<Report>, AllocError> {
    let mut notes = Vec::new(alloc);
    read_and_note(alloc, &mut notes, text, definitions)?;
    Ok(notes)
}

/// Adds the notes on a policy.
fn read_and_note<'a>(
    alloc: Global,
    notes: &mut Vec<Report>,
    text: &'a str,
    definitions: &[(&'a str, &'a str)],
) -> Result<(), AllocError> {
    let mut reading = Reading::of_policy(alloc, text, macros_of(alloc, &[], definitions)?);
    reading.read()?;
    let macros = reading.macros.as_slice();
    let names = names_of(alloc, macros)?;
    let known = Known {
        macros,
        names: &names,
    };
    put_all(alloc, notes, known, reading.suspects.as_slice())?;
    for doubted in twins(alloc, macros, reading.suspects.as_slice())? {
        notes.push(note_on(alloc, known, doubted)?)?;
    }
    Ok(())
}

/// The number of the last macro of each name.
fn names_of<'a>(
    alloc: Global,
    macros: &[Macro<'a>],
) -> Result<HashMap<&'a str, usize>, AllocError> {
    let mut names = HashMap::new(alloc);
    for (index, found) in macros.iter().enumerate() {
        names.insert(found.name, index)?;
    }
    Ok(names)
}

/// Adds the notes on the values of macros, and then those on the text.
fn put_all(
    alloc: Global,
    notes: &mut Vec<Report>,
    known: Known<'_, '_>,
    suspects: &[Suspect<'_>],
) -> Result<(), AllocError> {
    for home in known.macros {
        put_value(alloc, notes, known, home)?;
    }
    put_notes(alloc, notes, Run { known, home: None }, suspects)
}

/// Adds the notes on the value of a macro.
fn put_value<'n>(
    alloc: Global,
    notes: &mut Vec<Report>,
    known: Known<'_, 'n>,
    home: &Macro<'n>,
) -> Result<(), AllocError> {
    match home.value {
        Spelled::Word(word) => put_read_value(alloc, notes, known, home, word),
        Spelled::Quoted(_, inside) if memchr2(b'\n', b'\\', inside.as_bytes()).is_none() => {
            put_read_value(alloc, notes, known, home, inside)
        }
        Spelled::Quoted(..) => {
            let value = home.text(alloc)?;
            put_read_value(alloc, notes, known, home, value.as_str())
        }
    }
}

/// Adds the notes on the value of a macro, which is this text without the bytes that quotes drop.
fn put_read_value<'n>(
    alloc: Global,
    notes: &mut Vec<Report>,
    known: Known<'_, 'n>,
    home: &Macro<'n>,
    value: &str,
) -> Result<(), AllocError> {
    let mut reading = Reading::of_value(alloc, value);
    reading.read()?;
    let run = Run {
        known,
        home: Some(home),
    };
    put_notes(alloc, notes, run, reading.suspects.as_slice())?;
    if reading.is_chain() {
        let doubted = Doubted {
            place: home.whole(),
            doubt: Doubt::Chain(home.name),
        };
        notes.push(note_on(alloc, known, doubted)?)?;
    }
    Ok(())
}

/// Adds the notes on suspects, up to the most.
fn put_notes(
    alloc: Global,
    notes: &mut Vec<Report>,
    run: Run<'_, '_, '_>,
    suspects: &[Suspect<'_>],
) -> Result<(), AllocError> {
    for suspect in suspects {
        if notes.len() >= MOST_NOTES {
            break;
        }
        if let Some(doubted) = doubt_of(run, *suspect) {
            notes.push(note_on(alloc, run.known, doubted)?)?;
        }
    }
    Ok(())
}

/// The note on a doubt.
fn note_on(
    alloc: Global,
    known: Known<'_, '_>,
    doubted: Doubted<'_>,
) -> Result<Report, AllocError> {
    let mut draft = Draft::new(alloc, Severity::Note);
    draft.at(doubted.place);
    put_message(doubted.doubt, &mut draft);
    put_hint(doubted.doubt, &mut draft);
    put_label(known, doubted.doubt, &mut draft);
    draft.finish()
}

/// Adds what is said of a doubt.
fn put_message(doubt: Doubt<'_>, draft: &mut Draft) {
    match doubt {
        Doubt::Interface(name) => draft.say_of(
            "`",
            name,
            "` is an interface here, not the macro of this name",
        ),
        Doubt::Command(name) => draft.say_of(
            "`",
            name,
            "` is a command here, not the macro of this name",
        ),
        Doubt::Variable(name) => draft.say_of(
            "`$",
            name,
            "` in quotes is left to the shell, and is not the macro of this name",
        ),
        Doubt::Newline => draft.say(
            "`\\n` is no newline here: the shell gets a backslash and an n",
        ),
        Doubt::Action(_) => draft.say(
            "this action does not belong to the `if` above it, which has one action",
        ),
        Doubt::Chain(name) => {
            draft.say_of(
                "the value of `",
                name,
                "` joins conditions without parentheses: ",
            );
            draft.say_of("`! $", name, "` negates the first alone");
        }
        Doubt::Joined => draft.say(
            "this newline in quotes is left out, which joins the words around it",
        ),
        Doubt::Itself(name) => draft.say_of(
            "`set-state ",
            name,
            "` in this state changes nothing, and voids the wishes before it",
        ),
        Doubt::Twin(name, other) => {
            draft.say_of("the interface `", name, "` occurs once, and is nearly `");
            draft.say(other);
            draft.say("`");
        }
    }
}

/// Adds how to write what is meant.
fn put_hint(doubt: Doubt<'_>, draft: &mut Draft) {
    match doubt {
        Doubt::Interface(name) => put_spellings(name, "` if the interface is meant", draft),
        Doubt::Command(name) => put_spellings(name, "` if the command is meant", draft),
        Doubt::Variable(name) => draft.hint_of(
            "write the value itself, or `${",
            name,
            "}` if a variable of the shell is meant",
        ),
        Doubt::Newline => draft.hint("let `printf` write lines, or run two commands"),
        Doubt::Action(_) => draft.hint(
            "write `{` and `}` around both actions, or indent this one as the `if`",
        ),
        Doubt::Chain(name) => draft.hint_of("write `", name, " = '( .. )'`"),
        Doubt::Joined => draft.hint(
            "write a blank before the newline, or a backslash if one word is meant",
        ),
        Doubt::Itself(name) => {
            draft.hint_of("write another state, or `\"", name, "\"` if this is meant");
        }
        Doubt::Twin(name, other) => {
            draft.hint_of("write `", other, "`, or `\"");
            draft.hint_of("", name, "\"` if another interface is meant");
        }
    }
}

/// Says how the macro of a name and the name itself are written.
fn put_spellings(name: &str, behind: &str, draft: &mut Draft) {
    draft.hint_of("write `$", name, "`, or `");
    draft.hint_of("\"", name, "\"");
    draft.hint(behind);
}

/// Names the macro or the `if` of a doubt.
fn put_label(known: Known<'_, '_>, doubt: Doubt<'_>, draft: &mut Draft) {
    match doubt {
        Doubt::Interface(name) | Doubt::Command(name) | Doubt::Variable(name) => {
            if let Some(found) = known.last_named(name) {
                draft.label(found.name_place(), "defined here");
            }
        }
        Doubt::Action(first) => draft.label(first, "this `if`"),
        _ => {}
    }
}

/// The doubt about a suspect, if there is one.
fn doubt_of<'t>(run: Run<'_, '_, '_>, suspect: Suspect<'t>) -> Option<Doubted<'t>> {
    let (part, doubt) = match suspect {
        Suspect::Interface(name, part) if run.known.is_macro(name) => (
            part,
            Doubt::Interface(name),
        ),
        Suspect::Command(name, part) if run.known.is_macro(name) => (part, Doubt::Command(name)),
        Suspect::Quoted(from, inside) => doubt_inside(run, from, inside)?,
        Suspect::Lines(from, inside) => (joined_in(from, inside)?, Doubt::Joined),
        Suspect::Itself(name, part) => (part, Doubt::Itself(name)),
        Suspect::If(first, Some(second)) => (second, Doubt::Action(run.place(first))),
        _ => return None,
    };
    Some(Doubted {
        place: run.place(part),
        doubt,
    })
}

/// What looks like a macro, or like a newline, in a text in quotes that begins at an offset, and the part that does.
fn doubt_inside<'t>(
    run: Run<'_, '_, '_>,
    from: usize,
    inside: &'t str,
) -> Option<(Part, Doubt<'t>)> {
    let (offset, length, doubt) = match sign_in(run, inside) {
        Some((offset, Some(name))) => (offset, name.len().saturating_add(1), Doubt::Variable(name)),
        Some((offset, None)) => (offset, 2, Doubt::Newline),
        None => return Some((joined_in(from, inside)?, Doubt::Joined)),
    };
    let start = from.saturating_add(offset);
    let end = start.saturating_add(length);
    Some((Part { start, end }, doubt))
}

/// The newline that joins two words in a text that begins at an offset, if one does.
fn joined_in(from: usize, inside: &str) -> Option<Part> {
    for offset in memchr_iter(b'\n', inside.as_bytes()) {
        if joins(inside.as_bytes(), offset) {
            let start = from.saturating_add(offset);
            return Some(Part {
                start,
                end: start.saturating_add(1),
            });
        }
    }
    None
}

/// Whether words are right before and right behind an offset.
fn joins(bytes: &[u8], offset: usize) -> bool {
    let Some(before) = offset.checked_sub(1) else {
        return false;
    };
    match (bytes.get(before), bytes.get(offset.saturating_add(1))) {
        (Some(first), Some(second)) => is_of_command(*first) && is_of_command(*second),
        _ => false,
    }
}

/// Whether a byte is one of the words of commands.
fn is_of_command(byte: u8) -> bool {
    byte.is_ascii_alphanumeric() || matches!(byte, b'_' | b'-' | b'/' | b'.')
}

/// The first `$NAME` in a text where a macro has that name, with its offset. Else the offset of the first backslash with an `n`
/// behind it, if no program reads it.
fn sign_in<'t>(run: Run<'_, '_, '_>, text: &'t str) -> Option<(usize, Option<&'t str>)> {
    let mut newline = None;
    for offset in memchr2_iter(b'$', b'\\', text.as_bytes()) {
        match text.as_bytes().get(offset..) {
            Some([b'$', ..]) => {
                if let Some(name) = macro_behind(run, text, offset) {
                    return Some((offset, Some(name)));
                }
            }
            Some([b'\\', b'n', ..]) if newline.is_none() => newline = Some(offset),
            _ => {}
        }
    }
    let offset = newline?;
    if has_reader(text) {
        None
    } else {
        Some((offset, None))
    }
}

/// The name behind the `$` at an offset, if a macro has it.
fn macro_behind<'t>(run: Run<'_, '_, '_>, text: &'t str, offset: usize) -> Option<&'t str> {
    let name = name_behind(text, offset)?;
    if run.known.is_macro(name) {
        Some(name)
    } else {
        None
    }
}

/// The name behind the `$` at an offset.
fn name_behind(text: &str, offset: usize) -> Option<&str> {
    let rest = text.get(offset.saturating_add(1)..)?;
    rest.get(..length_of_front(rest, ByteKind::OfName))
}

/// Whether a text has the name of a program that reads backslashes.
fn has_reader(text: &str) -> bool {
    for reader in READERS {
        if contains(text, reader) {
            return true;
        }
    }
    false
}

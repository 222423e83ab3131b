//! Where a text is refused, what could be there, and what a report on it names.

use crate::cases::check_cases;
use crate::checks::{holds_in, same_in};
use ifs_expected_tokens::{lexemes_of, placed, stop_of};
use ifs_lex::tokens;
use ifs_parse::parse;
use ifs_policy_reports::{Until, notes, refusal};
use ifs_report::{Part, Place, Severity};
use std::alloc::Global;
use std::process::Abort;
use std::test::Fail;

/// Texts, each with the number of the token at which it stops, and with what could be there.
const STOPS: &str = "\
-- the end of a block
state a {
=> 3 Init If Run SetState BraceClose
-- a command
state a { run }
=> 4 Link Up Down Unknown Text Number
-- a period
state a { if \"t\" every x { } }
=> 6 Number
-- a block or one more condition
state a { if em0.link.up }
=> 9 If Run SetState BraceOpen And Or
-- a link or a test
state a { if em0 { } }
=> 5 Every Dot
-- a state of a link
state a { if em0.link.x { } }
=> 8 Up Down Unknown
-- a command in a macro
x = '{ run }' state a $x
=> 4 Link Up Down Unknown Text Number
-- a policy
state a { }
=> none
";

/// The number of the token at which a text stops, and what could be there.
fn stopped(alloc: Global, text: &str) -> Result<String, Fail> {
    let mut tokens = tokens(alloc, text, &[])?;
    let Err(fault) = parse(alloc, tokens.as_slice()) else {
        return Ok(format!(in alloc; "none")?);
    };
    let stop = stop_of(alloc, &mut tokens, fault)?.ok_or("a stop")?;
    let mut line = format!(in alloc; "{}", stop.index)?;
    for kind in stop.kinds.as_slice() {
        write!(line, " {kind:?}")?;
    }
    Ok(line)
}

/// Each text stops at its token, and nothing else could be there.
#[test]
fn stops(rt: HostRuntime) -> Result<(), Fail> {
    check_cases(&rt, STOPS, |text| stopped(rt.alloc(), text))
}

fn text_at(start: usize, end: usize) -> Place {
    Place::Text(Part { start, end })
}

/// How far a text is read and the text, and the code and the place of the report on it, if it is refused.
const REFUSALS: &str = "\
-- a policy
policy
state a { }
=> none
-- an image
image
state a { }
=> none
-- a state again
policy
state a { } state a { }
=> P10 Text(Part { start: 18, end: 19 })
-- in a macro of the text
image
n = '{ run }'
state a $n
=> P6 Text(Part { start: 11, end: 12 })
-- in a definition beside the text
policy
state a { if $t run x }
=> P6 Definition(0, Part { start: 10, end: 12 })
-- a sign
policy
state a { if em0.link.up & }
=> P1 Text(Part { start: 25, end: 26 })
";

/// The code and the place of the report on a case's text.
fn refused(alloc: Global, case: &str) -> Result<String, Fail> {
    let (word, text) = case.split_once('\n').ok_or("a text")?;
    let until = if word == "image" {
        Until::Image
    } else {
        Until::Policy
    };
    Ok(
        match refusal(alloc, text.as_bytes(), &[("t", "\"t\" every 5s")], until)? {
            Some(report) => format!(in alloc; "{} {:?}", report.code, report.place)?,
            None => format!(in alloc; "none")?,
        },
    )
}

/// A report has the code of the fault. Its place is the word that is wrong, in the text or in a definition.
#[test]
fn refusals(rt: HostRuntime) -> Result<(), Fail> {
    check_cases(&rt, REFUSALS, |case| refused(rt.alloc(), case))
}

/// A note names the word that looks wrong.
#[test]
fn noted(rt: HostRuntime) -> Result<(), Fail> {
    let text = "halt = off state a { init run halt }";
    let found = notes(rt.alloc(), text.as_bytes(), &[])?;
    match found.as_slice() {
        [note] => {
            same_in(&rt, text, note.severity, Severity::Note);
            same_in(&rt, text, note.place, text_at(30, 34));
        }
        _ => holds_in(&rt, text, false),
    }
    Ok(())
}

/// A place is kept on the line of a fault, or in the value of a macro where that is defined, and between characters.
#[test]
fn places(rt: HostRuntime) -> Result<(), Fail> {
    let text = "n = '\u{e9}'\nstate a";
    let rows = [
        (Some(2), text_at(9, 14), text_at(9, 14)),
        (Some(1), text_at(9, 14), Place::File),
        (None, text_at(9, 14), text_at(9, 14)),
        (Some(2), text_at(5, 7), text_at(5, 7)),
        (Some(2), text_at(0, 1), Place::File),
        (Some(1), text_at(6, 7), Place::File),
        (Some(1), text_at(0, 99), Place::File),
        (
            Some(1),
            Place::Definition(0, Part { start: 0, end: 1 }),
            Place::File,
        ),
        (Some(1), Place::File, Place::File),
    ];
    for (number, (line, place, wanted)) in rows.into_iter().enumerate() {
        same_in(
            &rt,
            number,
            placed(rt.alloc(), text, &[], line, place)?,
            wanted,
        );
    }
    same_in(&rt, text, lexemes_of(rt.alloc(), text)?.len(), 6);
    Ok(())
}

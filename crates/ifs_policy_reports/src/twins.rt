//! Interfaces that occur once, and are one letter from another one.

use crate::noting::{Doubt, Doubted};
use crate::scans::contains;
use crate::suspects::{Reading, Suspect};
use ifs_expected_tokens::Spelled;
use ifs_policy_text::macros::Macro;
use ifs_report::{Part, Place};
use std::alloc::{AllocError, Global};
use std::collections::HashMap;

/// An interface in the text: its first place, and how often it occurs.
#[derive(Clone, Copy)]
struct Named<'t> {
    name: &'t str,
    place: Place,
    count: usize,
}

/// The interfaces of a text that occur once, and are one letter from one that occurs more often.
pub(crate) fn twins<'t>(
    alloc: Global,
    macros: &[Macro<'t>],
    suspects: &[Suspect<'t>],
) -> Result<Vec<Doubted<'t>>, AllocError> {
    let names = names_in(alloc, macros, suspects)?;
    let mut found = Vec::new(alloc);
    for named in names.as_slice() {
        if let Some(other) = twin_of(names.as_slice(), *named) {
            found.push(Doubted {
                place: named.place,
                doubt: Doubt::Twin(named.name, other),
            })?;
        }
    }
    Ok(found)
}

/// The number of each name of an interface.
type Numbers<'t> = HashMap<&'t str, usize>;

/// The interfaces in the values of macros and among suspects, in the order of their first places.
fn names_in<'t>(
    alloc: Global,
    macros: &[Macro<'t>],
    suspects: &[Suspect<'t>],
) -> Result<Vec<Named<'t>>, AllocError> {
    let mut names = Vec::new(alloc);
    let mut numbers = HashMap::new(alloc);
    for home in macros {
        put_value(alloc, &mut names, &mut numbers, home)?;
    }
    put_all(&mut names, &mut numbers, None, suspects)?;
    Ok(names)
}

/// Adds the interfaces in the value of a macro, if the value is its text without quotes.
fn put_value<'t>(
    alloc: Global,
    names: &mut Vec<Named<'t>>,
    numbers: &mut Numbers<'t>,
    home: &Macro<'t>,
) -> Result<(), AllocError> {
    let inside = match home.value {
        Spelled::Word(word) => word,
        Spelled::Quoted(_, inside) => inside,
    };
    if !contains(inside, ".link") || contains(inside, "\n") || contains(inside, "\\") {
        return Ok(());
    }
    let mut reading = Reading::of_value(alloc, inside);
    reading.read()?;
    put_all(names, numbers, Some(home), reading.suspects.as_slice())
}

/// Adds the interfaces among suspects.
fn put_all<'t>(
    names: &mut Vec<Named<'t>>,
    numbers: &mut Numbers<'t>,
    home: Option<&Macro<'t>>,
    suspects: &[Suspect<'t>],
) -> Result<(), AllocError> {
    for suspect in suspects {
        if let Suspect::Interface(name, part) = *suspect {
            count(names, numbers, name, place_of(home, part))?;
        }
    }
    Ok(())
}

/// The place of a part of the text, or of the value of a macro.
fn place_of(home: Option<&Macro<'_>>, part: Part) -> Place {
    match home {
        Some(home) => home.place(part),
        None => Place::Text(part),
    }
}

/// Counts an interface once more.
fn count<'t>(
    names: &mut Vec<Named<'t>>,
    numbers: &mut Numbers<'t>,
    name: &'t str,
    place: Place,
) -> Result<(), AllocError> {
    if let Some(number) = numbers.get(name)
        && let Some(named) = names.get_mut(*number)
    {
        named.count = named.count.saturating_add(1);
        return Ok(());
    }
    numbers.insert(name, names.len())?;
    names.push(Named {
        name,
        place,
        count: 1,
    })?;
    Ok(())
}

/// The name of the interface that occurs more often than this one, which occurs once, and is one letter from it.
fn twin_of<'t>(names: &[Named<'t>], named: Named<'t>) -> Option<&'t str> {
    if named.count != 1 {
        return None;
    }
    for other in names {
        if other.count > 1 && are_twins(named.name, other.name) {
            return Some(other.name);
        }
    }
    None
}

/// Whether two names differ by one letter that is not the first, or by two letters in the other order. Digits are no letters:
/// they number interfaces.
fn are_twins(name: &str, other: &str) -> bool {
    let (name, other) = (name.as_bytes(), other.as_bytes());
    if name.len() < 3 || other.len() < 3 {
        return false;
    }
    let front = length_alike(name, other);
    let (left, others) = (
        name.get(front..).unwrap_or(&[]),
        other.get(front..).unwrap_or(&[]),
    );
    match (left, others) {
        ([a, b, rest @ ..], [c, d, others @ ..]) if a == d && b == c && are_letters(*a, *b) => rest
            == others,
        ([a, rest @ ..], [b, others @ ..]) if rest == others => front > 0 && are_letters(*a, *b),
        ([a, rest @ ..], others) if rest == others && has_digit(others) => front > 0
            && a.is_ascii_alphabetic(),
        (left, [a, rest @ ..]) if left == rest && has_digit(left) => front > 0
            && a.is_ascii_alphabetic(),
        _ => false,
    }
}

/// How many bytes two names have alike at their beginnings.
fn length_alike(name: &[u8], other: &[u8]) -> usize {
    let mut length = 0usize;
    for (one, another) in name.iter().zip(other) {
        if *one != *another {
            break;
        }
        length = length.saturating_add(1);
    }
    length
}

fn are_letters(first: u8, second: u8) -> bool {
    first.is_ascii_alphabetic() && second.is_ascii_alphabetic()
}

fn has_digit(name: &[u8]) -> bool {
    for byte in name {
        if byte.is_ascii_digit() {
            return true;
        }
    }
    false
}

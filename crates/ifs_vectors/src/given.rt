//! What a case gives.

use crate::cases::{Case, Section, case_named};
use crate::changes::changed;
use crate::repeating::{lines_of, text_of};
use anyhow::{Context, Result, ensure};
use std::alloc::Global;
use std::str;

/// The kinds of texts.
#[derive(Clone, Copy, PartialEq, Eq)]
pub enum Kind {
    Policy,
    Assembly,
    Image,
}

/// A text, and lines of definitions beside it.
#[derive(Drop)]
pub struct Given {
    pub kind: Kind,
    pub text: Vec<u8>,
    pub definitions: Vec<u8>,
}

impl Kind {
    /// The word of its section.
    pub fn word(self) -> &'static str {
        match self {
            Kind::Policy => "policy",
            Kind::Assembly => "assembly",
            Kind::Image => "image",
        }
    }
}

/// Which text a case has.
fn kind_of(case: Case<'_>) -> Option<Kind> {
    if case.has_section("policy") {
        Some(Kind::Policy)
    } else if case.has_section("assembly") {
        Some(Kind::Assembly)
    } else if case.has_section("image") {
        Some(Kind::Image)
    } else {
        None
    }
}

/// What a case of a file gives.
pub fn given_of(alloc: Global, file: &str, case: Case<'_>) -> Result<Given> {
    match case.section("like") {
        Some(like) => given_like(alloc, file, case, like),
        None => given_in(alloc, case),
    }
}

/// What the case's own sections give.
fn given_in(alloc: Global, case: Case<'_>) -> Result<Given> {
    let kind = kind_of(case).context("nothing is given")?;
    let section = case.section(kind.word()).context("nothing is given")?;
    let text = text_of(alloc, section)?;
    let definitions = definitions_of(alloc, case)?;
    Ok(Given {
        kind,
        text,
        definitions,
    })
}

/// The lines of a case's definitions.
fn definitions_of(alloc: Global, case: Case<'_>) -> Result<Vec<u8>> {
    match case.section("define") {
        Some(section) => Ok(lines_of(alloc, section)?),
        None => Ok(Vec::new(alloc)),
    }
}

/// The text of a `like` section, which names another case and changes its text.
fn given_like(alloc: Global, file: &str, case: Case<'_>, like: Section<'_>) -> Result<Given> {
    let lines = lines_of(alloc, like)?;
    let lines = str::from_utf8(lines.as_slice())?;
    let (name, changes) = lines.split_once('\n').context("no name")?;
    let other = case_named(file, name).context("no such case")?;
    ensure!(!other.has_section("like"), "the other case has no text");
    let before = given_in(alloc, other)?;
    given_changed(alloc, &before, changes, case, like.has_flag("cut"))
}

/// A text with changes, and the definitions of the case if it has some.
fn given_changed(
    alloc: Global,
    before: &Given,
    changes: &str,
    case: Case<'_>,
    is_cut: bool,
) -> Result<Given> {
    let definitions = if case.has_section("define") {
        definitions_of(alloc, case)?
    } else {
        before.definitions.clone()?
    };
    let mut text = changed(alloc, str::from_utf8(before.text.as_slice())?, changes)?;
    if is_cut {
        let _newline = text.pop();
    }
    Ok(Given {
        kind: before.kind,
        text,
        definitions,
    })
}

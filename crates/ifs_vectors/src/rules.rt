//! What the sections of a case may be.

use crate::cases::{Case, SECTION, Section};
use crate::given::Kind;
use anyhow::{Result, ensure};

/// Checks that each section fits the text, appears once and has known flags. Something has to be expected.
pub fn check_sections(case: Case<'_>, kind: Kind) -> Result<()> {
    let own = if case.has_section("like") {
        "like"
    } else {
        kind.word()
    };
    let wrong = first_wrong(case, kind, own).unwrap_or("");
    ensure!(wrong.is_empty(), "a wrong section: {wrong}");
    ensure!(expects(case, own), "nothing is expected");
    Ok(())
}

/// The word of the first section that does not fit the text, appears twice or has unknown flags.
fn first_wrong<'a>(case: Case<'a>, kind: Kind, own: &str) -> Option<&'a str> {
    for piece in case.text.split(SECTION).skip(1) {
        let section = Section::new(piece);
        if !is_fit(case, section, kind, own) {
            return Some(section.word);
        }
    }
    None
}

/// Whether a section fits the text, appears once and has known flags.
fn is_fit(case: Case<'_>, section: Section<'_>, kind: Kind, own: &str) -> bool {
    let word = section.word;
    let is_known = word == own || is_about(word, kind);
    is_known && case.count_of(word) == 1 && has_known_flags(section)
}

/// Whether a case has a section besides its text and its definitions.
fn expects(case: Case<'_>, own: &str) -> bool {
    for piece in case.text.split(SECTION).skip(1) {
        let section = Section::new(piece);
        if section.word != own && section.word != "define" {
            return true;
        }
    }
    false
}

fn has_known_flags(section: Section<'_>) -> bool {
    section.flags.is_empty() || section.flags.split(' ').all(|flag| is_flag(flag))
}

fn is_flag(flag: &str) -> bool {
    matches!(flag, "cut" | "escaped" | "repeated" | "numbered")
}

/// Whether a section of a word fits a text of this kind.
fn is_about(word: &str, kind: Kind) -> bool {
    match word {
        "define" | "check" | "graph" | "compile" => kind == Kind::Policy,
        "asm" => kind == Kind::Assembly,
        "image" => kind != Kind::Image,
        _ => is_of_image(word),
    }
}

/// Whether a section of a word is about an image.
fn is_of_image(word: &str) -> bool {
    matches!(word, "verify" | "disasm" | "code" | "upgrade" | "session")
}

/// Whether a case of a policy or an assembly text expects something of its image.
pub fn expects_image(case: Case<'_>) -> bool {
    for word in ["image", "verify", "disasm", "code", "upgrade", "session"] {
        if case.has_section(word) {
            return true;
        }
    }
    false
}

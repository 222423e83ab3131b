//! Reports on lines that have no tokens, or a sign `=`.

use crate::context::Context;
use crate::ending::put_ending;
use crate::fault::Why;
use crate::misplaced::misplaced;
use crate::saying::{Hint, NOTHING, Said};
use crate::seen::{Seen, place_at, tokens_in};
use crate::wording::list_of;
use ifs_expected_tokens::{behind, lexemes_of, value_of};
use ifs_lex::{LexFault, Lexeme, Piece};
use ifs_report::{Part, Place, Report, is_near};
use std::alloc::{AllocError, Global};

/// The report on a line that has no tokens or a sign `=`, or on a token before that place.
pub(crate) fn untokened(
    context: Context<'_>,
    words: &str,
    line: Part,
    why: Why,
) -> Result<Report, AllocError> {
    let Some(part) = part_in(context, words, why)? else {
        let said = whole(why, line);
        return said.report(context.alloc, Vec::new(context.alloc));
    };
    let seen = Seen::read(context, words.get(..part.start).unwrap_or(""), line.start)?;
    let word = words.get(part.start..part.end).unwrap_or("");
    stopped_at(&seen, word, place_at(line.start, part), why)
}

/// What is said where no part of a line has the fault: of the line, or of the macros.
fn whole(why: Why, line: Part) -> Said<'static> {
    match why {
        Why::Tokens(LexFault::OverLimit { .. }) => Said {
            code: "Q4",
            place: Place::Text(line),
            before: "this line has too many tokens or bytes",
            rule: "with its macros, a line has at most 16384 tokens; with all macros of the policy, at most 1048576 bytes",
            hint: Hint::Words("make claims on parts of the condition, each on its line"),
            ..NOTHING
        },
        _ => Said {
            before: "the macros of the policy cannot be read",
            hint: Hint::Words("does `ifsvm check` accept the policy with these definitions?"),
            ..NOTHING
        },
    }
}

/// The report on a word that ends the tokens of a line, or on one of the tokens before it.
fn stopped_at(seen: &Seen<'_>, word: &str, place: Place, why: Why) -> Result<Report, AllocError> {
    let alloc = seen.context.alloc;
    let near = match why {
        Why::Tokens(LexFault::UnknownMacro { .. }) => near_macro(seen.context, word)?,
        _ => "",
    };
    let mut expected = list_of(alloc, &[first_expected(why, word)])?;
    let count = expected.len();
    if let Some(wrong) = put_ending(seen, &mut expected)? {
        return misplaced(seen, wrong);
    }
    if let Why::Equals | Why::Tokens(LexFault::Unclosed { .. }) = why {
        expected.truncate(count);
    }
    said_at(word, place, why, near).report(alloc, expected)
}

/// What could be in the place of a word first.
fn first_expected(why: Why, word: &str) -> &'static str {
    match why {
        Why::Tokens(LexFault::Unclosed { .. }) if word == "'" => "another `'`",
        Why::Tokens(LexFault::Unclosed { .. }) => "another `\"`",
        Why::Tokens(LexFault::UnknownMacro { .. }) => "a macro of the policy",
        _ => "",
    }
}

/// What is said of a word that ends the tokens of a line. The name of a macro may be nearly another one.
fn said_at<'a>(word: &'a str, place: Place, why: Why, near: &'a str) -> Said<'a> {
    let cannot = Said {
        place,
        before: "`",
        word: Some(word),
        behind: " cannot stand here",
        ..NOTHING
    };
    match why {
        Why::Equals => Said {
            rule: "a claims file has no sign `=`, and defines no macros",
            hint: Hint::Words("define a macro in the policy, or by `-D NAME=VALUE`"),
            ..cannot
        },
        Why::Tokens(LexFault::Unclosed { .. }) => Said {
            place,
            before: "the text quoted from here on does not end on its line",
            ..NOTHING
        },
        Why::Tokens(LexFault::UnknownMacro { .. }) => Said {
            code: "Q2",
            behind: " is no macro of the policy",
            hint: if near.is_empty() {
                Hint::Words("")
            } else {
                Hint::Word("did you mean `$", near, "`?")
            },
            ..cannot
        },
        _ => Said {
            hint: Hint::Words(hint_among(&STRAYS, word)),
            ..cannot
        },
    }
}

/// Characters that begin no word and no sign, each with what is written in its place.
const STRAYS: [(&str, &str); 10] = [
    ("&", "write `&&`"),
    ("|", "write `||`"),
    (",", "states have blanks between them: leave the `,` out"),
    ("\\", "a claim is on one line: `\\` joins no lines"),
    (
        "$",
        "a macro is used as `$NAME`, and its name begins with a letter or `_`",
    ),
    (
        "\u{feff}",
        "this is a byte order mark: save the text without it",
    ),
    ("\u{a0}", "this is a no-break space: write a space or a tab"),
    ("\u{201c}", "this quote is typographic: write `\"`"),
    ("\u{201d}", "this quote is typographic: write `\"`"),
    ("\u{201e}", "this quote is typographic: write `\"`"),
];

/// What is written in the place of a character.
fn hint_among(strays: &[(&'static str, &'static str)], word: &str) -> &'static str {
    for (character, hint) in strays {
        if *character == word {
            return hint;
        }
    }
    "a name or a command with such characters needs quotes"
}

/// The part of a line that keeps it from having tokens, or its sign `=`. It is `None` if the whole line has a fault, or the macros
/// have.
fn part_in(context: Context<'_>, line: &str, why: Why) -> Result<Option<Part>, AllocError> {
    let lexemes = lexemes_of(context.alloc, line)?;
    part_among(context, line, lexemes.as_slice(), why)
}

/// The same by the lexemes of the line.
fn part_among(
    context: Context<'_>,
    line: &str,
    lexemes: &[Lexeme<'_>],
    why: Why,
) -> Result<Option<Part>, AllocError> {
    match why {
        Why::Equals => Ok(Some(part_of_equals(lexemes))),
        Why::Tokens(LexFault::Stray { .. } | LexFault::Unclosed { .. }) => Ok(Some(part_of_last(
            line, lexemes,
        ))),
        Why::Tokens(LexFault::UnknownMacro { .. }) => part_of_use(context, line, lexemes),
        _ => Ok(None),
    }
}

/// The part of a line that a lexeme is.
fn part_of(found: &Lexeme<'_>) -> Part {
    Part {
        start: found.span.start as usize,
        end: found.span.end as usize,
    }
}

/// The first lexeme of a line that begins a definition or is a sign `=`.
fn part_of_equals(lexemes: &[Lexeme<'_>]) -> Part {
    for (index, found) in lexemes.iter().enumerate() {
        if found.piece.is_equals() || value_of(found, behind(lexemes, index)).is_some() {
            return part_of(found);
        }
    }
    Part { start: 0, end: 0 }
}

/// The last lexeme of a line: a character that begins none, or an open quote. The part is one character long.
fn part_of_last(line: &str, lexemes: &[Lexeme<'_>]) -> Part {
    let start = match lexemes.last() {
        Some(found) => found.span.start as usize,
        None => 0,
    };
    let rest = line.get(start..).unwrap_or("");
    let length = match rest.chars().next() {
        Some(character) => character.len_utf8(),
        None => 0,
    };
    Part {
        start,
        end: start.saturating_add(length),
    }
}

/// The first use of a macro that is not known: the tokens up to it have a fault.
fn part_of_use(
    context: Context<'_>,
    line: &str,
    lexemes: &[Lexeme<'_>],
) -> Result<Option<Part>, AllocError> {
    for found in lexemes {
        let part = part_of(found);
        if let Piece::Use(_) = found.piece
            && tokens_in(context, line.get(..part.end).unwrap_or(line))?.is_none()
        {
            return Ok(Some(part));
        }
    }
    Ok(Some(Part { start: 0, end: 0 }))
}

/// The name of the first macro that is nearly the one of a use, on the command line or in the policy. It is empty if there is none.
fn near_macro<'a>(context: Context<'a>, word: &str) -> Result<&'a str, AllocError> {
    let name = word.strip_prefix('$').unwrap_or(word);
    for (given, _value) in context.definitions {
        if is_near(context.alloc, name, given)? {
            return Ok(given);
        }
    }
    let lexemes = lexemes_of(context.alloc, context.macros)?;
    near_name(context.alloc, name, lexemes.as_slice())
}

/// The first name of a definition among lexemes that is nearly this one.
fn near_name<'a>(alloc: Global, name: &str, lexemes: &[Lexeme<'a>]) -> Result<&'a str, AllocError> {
    for (index, found) in lexemes.iter().enumerate() {
        if let Some(other) = found.piece.name()
            && value_of(found, behind(lexemes, index)).is_some()
            && is_near(alloc, name, other)?
        {
            return Ok(other);
        }
    }
    Ok("")
}

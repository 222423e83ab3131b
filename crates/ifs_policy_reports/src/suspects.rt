//! What in a text, or in the value of a macro, may look as if something else were meant. A text is read once, without its lines.

use crate::scans::{ByteKind, is_all};
use ifs_expected_tokens::Spelled;
use ifs_lex::{Piece, Sign, gap_len, piece_here};
use ifs_policy_text::lines::line_before;
use ifs_policy_text::macros::{Home, Macro};
use ifs_report::Part;
use memchr::{memchr, memchr3};
use std::alloc::{AllocError, Global};

/// What may be meant otherwise.
#[derive(Clone, Copy)]
pub(crate) enum Suspect<'t> {
    /// The name before `.link`, with its place.
    Interface(&'t str, Part),
    /// The name behind `run`, with its place.
    Command(&'t str, Part),
    /// A text in quotes with a `$`, a backslash or a newline, from this offset.
    Quoted(usize, &'t str),
    /// The value of a macro with a newline, from this offset.
    Lines(usize, &'t str),
    /// The name behind a `set-state` in the state of this name, with its place.
    Itself(&'t str, Part),
    /// An `if`, and what is behind the only action that it has, if that is an action which is indented alike.
    If(Part, Option<Part>),
}

/// What a piece is to the pieces around it.
#[derive(Clone, Copy)]
enum Kind {
    If,
    Run,
    SetState,
    State,
    Link,
    Name,
    /// The dot behind a name.
    Dot,
    /// The sign `=` behind a name.
    Equals,
    Brace,
    Other,
}

/// An `if`: its number among the suspects, its place, and the offset of its action.
#[derive(Clone, Copy)]
struct Branch {
    number: usize,
    place: Part,
    action: usize,
}

impl Branch {
    /// The same, with an action at an offset.
    fn with_action(self, action: usize) -> Branch {
        Branch {
            number: self.number,
            place: self.place,
            action,
        }
    }
}

/// How far an `if` without braces was read.
#[derive(Clone, Copy)]
enum Awaited {
    Nothing,
    /// Its action is next.
    Action(Branch),
    /// The operand of its action is next.
    Operand(Branch),
    /// What is behind its action is next.
    Behind(Branch),
}

/// A text while it is read: its suspects in their order, and the macros that it defines.
pub(crate) struct Reading<'t> {
    pub suspects: Vec<Suspect<'t>>,
    pub macros: Vec<Macro<'t>>,
    text: &'t str,
    /// Whether it is the value of a macro. Its lines are not those of the policy.
    is_value: bool,
    /// The last word and its place.
    word: &'t str,
    place: Part,
    /// What the last piece is.
    last: Kind,
    awaited: Awaited,
    /// How many parentheses are open.
    depth: usize,
    /// Whether `&&` or `||` is outside of parentheses.
    joins: bool,
    /// Whether it has a brace or an `if`.
    has_body: bool,
    /// The state that is read, and how many braces are open. The name is empty outside of states.
    state: &'t str,
    braces: usize,
}

impl Drop for Reading<'_> {
    fn drop(self) {
        let Reading {
            suspects: _suspects,
            macros: _macros,
            text: _text,
            is_value: _is_value,
            word: _word,
            place: _place,
            last: _last,
            awaited: _awaited,
            depth: _depth,
            joins: _joins,
            has_body: _has_body,
            state: _state,
            braces: _braces,
        } = self;
    }
}

impl<'t> Reading<'t> {
    /// A policy before it is read, with the macros that are given beside it.
    pub fn of_policy(alloc: Global, text: &'t str, given: Vec<Macro<'t>>) -> Reading<'t> {
        Reading::new(alloc, text, given, false)
    }

    /// The value of a macro before it is read.
    pub fn of_value(alloc: Global, text: &'t str) -> Reading<'t> {
        Reading::new(alloc, text, Vec::new(alloc), true)
    }

    fn new(alloc: Global, text: &'t str, macros: Vec<Macro<'t>>, is_value: bool) -> Reading<'t> {
        Reading {
            suspects: Vec::new(alloc),
            macros,
            text,
            is_value,
            word: "",
            place: Part { start: 0, end: 0 },
            last: Kind::Other,
            awaited: Awaited::Nothing,
            depth: 0,
            joins: false,
            has_body: false,
            state: "",
            braces: 0,
        }
    }

    /// Reads the text.
    pub fn read(&mut self) -> Result<(), AllocError> {
        let text = self.text;
        let mut left = text;
        for _ in 0..=text.len() {
            left = behind(left, gap_len(left.as_bytes()));
            let start = text.len().saturating_sub(left.len());
            let (piece, length) = piece_here(left);
            if piece.is_last() {
                break;
            }
            let end = start.saturating_add(length);
            self.take(piece, Part { start, end })?;
            left = behind(left, length);
        }
        Ok(())
    }

    /// Whether it joins conditions without parentheses, and is nothing but a condition.
    pub fn is_chain(&self) -> bool {
        self.joins && !self.has_body
    }

    /// Reads one more piece.
    fn take(&mut self, piece: Piece<'t>, part: Part) -> Result<(), AllocError> {
        let kind = match piece {
            Piece::Word(word) => self.take_word(word, part)?,
            Piece::Quoted(quote, inside) => self.take_quoted(quote, inside, part)?,
            Piece::Sign(sign) => self.take_sign(sign),
            Piece::Equals if self.is_behind_name() => Kind::Equals,
            Piece::Use(_) if self.braces == 0 => {
                self.state = "";
                Kind::Other
            }
            _ => Kind::Other,
        };
        self.last = kind;
        if self.is_value {
            return Ok(());
        }
        self.follow(kind, part)
    }

    /// Whether the last piece is a name.
    fn is_behind_name(&self) -> bool {
        matches!(self.last, Kind::Name | Kind::Link)
    }

    /// Reads a word, which may be the value of a macro, an interface or a command.
    fn take_word(&mut self, word: &'t str, part: Part) -> Result<Kind, AllocError> {
        let kind = kind_of(word);
        match (self.last, kind) {
            (Kind::Equals, _) => {
                self.define(Spelled::Word(word), part.start)?;
                return Ok(Kind::Other);
            }
            (Kind::Dot, Kind::Link) => {
                self.suspects
                    .push(Suspect::Interface(self.word, self.place))?;
            }
            (Kind::Run, _) => self.suspects.push(Suspect::Command(word, part))?,
            (Kind::State, _) => self.state = word,
            (Kind::SetState, _) if word == self.state => {
                self.suspects.push(Suspect::Itself(word, part))?;
            }
            (_, Kind::If) => self.has_body = true,
            _ => {}
        }
        self.word = word;
        self.place = part;
        Ok(kind)
    }

    /// Reads a text in quotes, which may be the value of a macro.
    fn take_quoted(&mut self, quote: u8, inside: &'t str, part: Part) -> Result<Kind, AllocError> {
        let from = part.start.saturating_add(1);
        if let Kind::Equals = self.last {
            self.define(Spelled::Quoted(quote, inside), from)?;
            if memchr(b'\n', inside.as_bytes()).is_some() {
                self.suspects.push(Suspect::Lines(from, inside))?;
            }
        } else if memchr3(b'$', b'\\', b'\n', inside.as_bytes()).is_some() {
            self.suspects.push(Suspect::Quoted(from, inside))?;
        }
        Ok(Kind::Other)
    }

    /// Reads a sign.
    fn take_sign(&mut self, sign: Sign) -> Kind {
        match sign {
            Sign::BraceOpen | Sign::BraceClose => {
                self.take_brace(sign);
                return Kind::Brace;
            }
            Sign::Dot if self.is_behind_name() => return Kind::Dot,
            Sign::ParenOpen => self.depth = self.depth.saturating_add(1),
            Sign::ParenClose => self.depth = self.depth.saturating_sub(1),
            Sign::And | Sign::Or if self.depth == 0 => self.joins = true,
            _ => {}
        }
        Kind::Other
    }

    /// Reads a brace. The last one that closes ends a state.
    fn take_brace(&mut self, sign: Sign) {
        self.has_body = true;
        if let Sign::BraceOpen = sign {
            self.braces = self.braces.saturating_add(1);
            return;
        }
        self.braces = self.braces.saturating_sub(1);
        if self.braces == 0 {
            self.state = "";
        }
    }

    /// Adds the macro of the last word, with its value from an offset.
    fn define(&mut self, value: Spelled<'t>, from: usize) -> Result<(), AllocError> {
        self.macros.push(Macro {
            name: self.word,
            // no note names it
            line: 1,
            at: self.place.start,
            home: Home::Text(from),
            value,
            count: 0,
        })?;
        Ok(())
    }

    /// Follows the actions of an `if` without braces.
    fn follow(&mut self, kind: Kind, part: Part) -> Result<(), AllocError> {
        match (self.awaited, kind) {
            (Awaited::Operand(branch), _) => self.awaited = Awaited::Behind(branch),
            (Awaited::Behind(branch), _) => {
                self.awaited = Awaited::Nothing;
                self.look_behind(branch, kind, part);
            }
            (Awaited::Action(branch), Kind::Run | Kind::SetState) => {
                self.awaited = Awaited::Operand(branch.with_action(part.start));
            }
            (Awaited::Action(_), Kind::Brace | Kind::State) => self.awaited = Awaited::Nothing,
            _ => {}
        }
        match kind {
            Kind::If => self.begin(part),
            _ => Ok(()),
        }
    }

    /// Adds an `if`, and awaits its action.
    fn begin(&mut self, place: Part) -> Result<(), AllocError> {
        let number = self.suspects.len();
        self.suspects.push(Suspect::If(place, None))?;
        self.awaited = Awaited::Action(Branch {
            number,
            place,
            action: 0,
        });
        Ok(())
    }

    /// Notes what is behind the action of an `if`, if it is an action that is indented alike.
    fn look_behind(&mut self, branch: Branch, kind: Kind, part: Part) {
        if let Kind::Run | Kind::SetState | Kind::If = kind
            && are_indented(self.text, branch, part.start)
            && let Some(suspect) = self.suspects.get_mut(branch.number)
        {
            *suspect = Suspect::If(branch.place, Some(part));
        }
    }
}

/// What a text has behind so many bytes.
fn behind(text: &str, length: usize) -> &str {
    text.get(length..).unwrap_or("")
}

/// What a word is to the pieces around it.
fn kind_of(word: &str) -> Kind {
    match word {
        "if" => Kind::If,
        "run" => Kind::Run,
        "link" => Kind::Link,
        "state" => Kind::State,
        "set-state" => Kind::SetState,
        _ => Kind::Name,
    }
}

/// Whether the action of an `if` and another one begin lines that are indented alike, and deeper than that of the `if`.
fn are_indented(text: &str, branch: Branch, second: usize) -> bool {
    match (
        indent(text, branch.place.start),
        indent(text, branch.action),
        indent(text, second),
    ) {
        (Some(of_if), Some(of_own), Some(of_second)) => of_own == of_second
            && of_own.len() > of_if.len(),
        _ => false,
    }
}

/// The blanks before an offset, if nothing else comes before it on its line.
fn indent(text: &str, offset: usize) -> Option<&str> {
    let blanks = line_before(text, offset)?;
    if is_all(blanks, ByteKind::Blank) {
        Some(blanks)
    } else {
        None
    }
}

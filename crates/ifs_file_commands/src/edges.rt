//! The changes of state in a policy's text, as the edges of a picture.
//!
//! The edges are made from the tokens of the text, so that each condition is shown as it is written, with macros by their
//! names.

use crate::labels::put_label;
use ifs_base::Span;
use ifs_lex::{Token, What};
use ifs_policy::Policy;
use ifs_terminal::Draft;
use std::alloc::{AllocError, Global};
use std::mem;

/// What the next token is.
#[derive(Clone, Copy)]
enum Awaited {
    /// The beginning of a part or of an action, or a brace.
    Part,
    /// The operand of `run` or of `init-state`, which is ignored.
    Operand,
    /// The name of a state whose parts follow.
    State,
    /// A part of a condition, or the first token after it.
    Condition,
    /// The name of the state that is set.
    Target,
}

/// A state, an `init`, or an `if` that has begun and not ended.
#[derive(Drop)]
struct Level {
    /// The condition of an `if`, as it is written.
    condition: Option<String>,
    /// Whether it ends with a brace. Otherwise it ends with its one action.
    braced: bool,
}

/// A text and its policy.
#[derive(Clone, Copy)]
pub(crate) struct Source<'t, 'p> {
    pub text: &'t str,
    pub policy: &'p Policy,
}

/// The edges of a policy, and the levels that the tokens so far have begun.
#[derive(Drop)]
pub(crate) struct Edges {
    alloc: Global,
    /// A line for each edge.
    pub lines: Draft,
    /// Whether one of them is outside any state.
    pub from_any: bool,
    awaited: Awaited,
    /// The number of the state that the tokens are in. It is `None` outside any state.
    state: Option<usize>,
    /// From the outermost.
    levels: Vec<Level>,
    /// The condition so far.
    condition: String,
    /// The span of its last token.
    last: Option<Span>,
}

impl Edges {
    /// The edges of the tokens of a text.
    pub(crate) fn of(
        alloc: Global,
        source: Source<'_, '_>,
        tokens: &[Token],
    ) -> Result<Edges, AllocError> {
        let mut edges = Edges {
            alloc,
            lines: Draft::new(alloc),
            from_any: false,
            awaited: Awaited::Part,
            state: None,
            levels: Vec::new(alloc),
            condition: String::new(alloc),
            last: None,
        };
        for token in tokens {
            edges.take(source, token)?;
        }
        Ok(edges)
    }

    /// Takes a token.
    fn take(&mut self, source: Source<'_, '_>, token: &Token) -> Result<(), AllocError> {
        match self.awaited {
            Awaited::Part => self.begin(&token.what),
            Awaited::Operand => {
                self.end_action();
                Ok(())
            }
            Awaited::State => self.enter(source, &token.what),
            Awaited::Condition => self.go_on(source, token),
            Awaited::Target => {
                self.set(source, &token.what);
                Ok(())
            }
        }
    }

    /// Takes a token that begins or ends something.
    fn begin(&mut self, what: &What) -> Result<(), AllocError> {
        match what {
            What::Word(word) => self.begin_word(word.as_str()),
            What::BraceOpen => {
                self.open_brace();
                Ok(())
            }
            What::BraceClose => {
                self.close_brace();
                Ok(())
            }
            _ => Ok(()),
        }
    }

    fn begin_word(&mut self, word: &str) -> Result<(), AllocError> {
        match word {
            "state" => self.awaited = Awaited::State,
            "run" | "init-state" => self.awaited = Awaited::Operand,
            "set-state" => self.awaited = Awaited::Target,
            "if" => self.awaited = Awaited::Condition,
            "init" => self.open(None)?,
            _ => {}
        }
        Ok(())
    }

    /// Begins a state.
    fn enter(&mut self, source: Source<'_, '_>, name: &What) -> Result<(), AllocError> {
        self.state = Some(number_of(source.policy, name));
        self.open(None)
    }

    fn open(&mut self, condition: Option<String>) -> Result<(), AllocError> {
        self.awaited = Awaited::Part;
        self.levels.push(Level {
            condition,
            braced: false,
        })?;
        Ok(())
    }

    /// Gives the last level a block.
    fn open_brace(&mut self) {
        if let Some(level) = self.levels.last_mut() {
            level.braced = true;
        }
    }

    /// Ends a block and its level.
    fn close_brace(&mut self) {
        let _ended = self.levels.pop();
        self.end_action();
        if self.levels.is_empty() {
            self.state = None;
        }
    }

    /// Ends an action, and each `if` and `init` that has only this action.
    fn end_action(&mut self) {
        self.awaited = Awaited::Part;
        let kept = self
            .levels
            .as_slice()
            .iter()
            .rposition(|level| level.braced)
            .map_or(0, |place| place + 1);
        self.levels.truncate(kept);
    }

    /// Takes a token after `if`: one of the condition, or the first after it.
    fn go_on(&mut self, source: Source<'_, '_>, token: &Token) -> Result<(), AllocError> {
        if begins_actions(&token.what) {
            self.last = None;
            let condition = mem::replace(&mut self.condition, String::new(self.alloc));
            self.open(Some(condition))?;
            return self.begin(&token.what);
        }
        // all tokens of a macro have the span of its use
        if self.last == Some(token.span) {
            return Ok(());
        }
        self.last = Some(token.span);
        self.add(written(source.text, token.span))
    }

    /// Adds a token's text to the condition. Tokens are separated by a space, except at a dot.
    fn add(&mut self, piece: &str) -> Result<(), AllocError> {
        let together = self.condition.is_empty() || piece == "." || self.condition.ends_with('.');
        if !together {
            self.condition.push(' ')?;
        }
        self.condition.push_str(piece)
    }

    /// Writes the edge to a state.
    fn set(&mut self, source: Source<'_, '_>, name: &What) {
        match self.state {
            Some(state) => {
                self.lines.put("\ts");
                self.lines.add(state);
            }
            None => {
                self.from_any = true;
                self.lines.put("\tany");
            }
        }
        self.lines.put(" -> s");
        self.lines.add(number_of(source.policy, name));
        self.put_conditions();
        self.end_action();
    }

    /// Ends the line of an edge with its conditions. Its label has a line for each `if`, the outermost first.
    fn put_conditions(&mut self) {
        let mut before = " [label=\"";
        for level in self.levels.as_slice() {
            if let Some(condition) = &level.condition {
                self.lines.put(before);
                put_label(&mut self.lines, condition.as_str());
                before = "\\n";
            }
        }
        let end = if before == "\\n" { "\"]\n" } else { "\n" };
        self.lines.put(end);
    }
}

/// Whether a token is the first after a condition.
fn begins_actions(what: &What) -> bool {
    match what {
        What::BraceOpen => true,
        What::Word(word) => matches!(word.as_str(), "run" | "set-state" | "if"),
        _ => false,
    }
}

/// The number of the state of this name.
fn number_of(policy: &Policy, name: &What) -> usize {
    let states = &policy.tables().states;
    match name {
        What::Word(text) | What::Quoted(text) => states.place_of(text).unwrap_or(states.len()),
        _ => states.len(),
    }
}

/// The part of a text at this span.
fn written(text: &str, span: Span) -> &str {
    text.get(span.start as usize..span.end as usize)
        .unwrap_or_default()
}

//! Whether the blocks of a policy are as its indentation says.

use crate::names::word_of;
use crate::repairs::{Repair, begins_line};
use crate::scans::{ByteKind, length_of_front};
use ifs_expected_tokens::Kind;
use ifs_lex::{Token, What};
use ifs_policy_text::TokenizedPolicy;
use ifs_policy_text::lines::{line_before, part_of};
use std::alloc::{AllocError, Global};

/// A block that is open.
#[derive(Clone, Copy)]
struct Block {
    /// The line of its brace, and the blanks before that line. What is in no block has none.
    brace: Option<Line>,
    /// The blanks before those of its items that begin lines.
    items: Option<usize>,
}

/// A line: its number, and the blanks before it.
#[derive(Clone, Copy)]
struct Line {
    number: u32,
    blanks: usize,
}

/// Blocks while tokens are read.
struct Blocks<'p, 'a> {
    policy: &'p TokenizedPolicy<'a>,
    open: Vec<Block>,
    /// Whether the block of an `init` or an action of an `if` is next.
    awaits: bool,
    /// Whether the last token is an opening brace.
    is_opened: bool,
    is_true: bool,
    /// Whether an item of a block begins a line.
    is_indented: bool,
}

impl Drop for Blocks<'_, '_> {
    fn drop(self) {
        let Blocks {
            policy: _policy,
            open: _open,
            awaits: _awaits,
            is_opened: _is_opened,
            is_true: _is_true,
            is_indented: _is_indented,
        } = self;
    }
}

/// Whether the tokens from one to another are indented as their blocks are, after a repair: each item begins a line or follows
/// the brace of its block, items of a block have one indentation, which is deeper than that of the brace, and a closing brace is
/// below the line of its opening brace, or on that line. An item of a block has to begin a line.
pub(crate) fn keeps_indentation(
    alloc: Global,
    policy: &TokenizedPolicy<'_>,
    first: usize,
    last: usize,
    repair: Repair,
) -> Result<bool, AllocError> {
    let mut blocks = Blocks::new(alloc, policy)?;
    for (index, token) in policy.tokens.iter().enumerate() {
        if index > last {
            break;
        }
        if first <= index {
            blocks.put(index, token, repair)?;
        }
    }
    Ok(blocks.is_true && blocks.is_indented)
}

impl<'p, 'a> Blocks<'p, 'a> {
    fn new(alloc: Global, policy: &'p TokenizedPolicy<'a>) -> Result<Blocks<'p, 'a>, AllocError> {
        let mut open = Vec::new(alloc);
        open.push(Block {
            brace: None,
            items: None,
        })?;
        Ok(Blocks {
            policy,
            open,
            awaits: false,
            is_opened: false,
            is_true: true,
            is_indented: false,
        })
    }

    /// Takes one more token, with what a repair does there.
    fn put(&mut self, index: usize, token: &Token, repair: Repair) -> Result<(), AllocError> {
        match repair {
            Repair::Without(at) if at == index => return Ok(()),
            Repair::Before(at, Kind::BraceOpen) if at == index => {
                self.open_at(index.saturating_sub(1))?;
                // the first item of the block has to begin a line
                self.is_opened = false;
            }
            Repair::Before(at, Kind::BraceClose) if at == index => self.close_last(),
            _ => {}
        }
        self.take(index, token)
    }

    /// Closes a block by a brace that is missing. The block has to show by an item where its items are.
    fn close_last(&mut self) {
        let shows = match self.open.pop() {
            Some(block) => block.items.is_some(),
            None => false,
        };
        self.is_true = self.is_true && shows;
    }

    /// Takes one more token.
    fn take(&mut self, index: usize, token: &Token) -> Result<(), AllocError> {
        match &token.what {
            What::BraceOpen => return self.open_at(index),
            What::BraceClose => self.close_at(index),
            What::Word(_) => self.take_word(index, word_of(Some(&token.what))),
            _ => {}
        }
        self.is_opened = false;
        Ok(())
    }

    /// Opens a block whose brace is, or would be, on the line of a token.
    fn open_at(&mut self, index: usize) -> Result<(), AllocError> {
        self.open.push(Block {
            brace: line_of(self.policy, index),
            items: None,
        })?;
        self.awaits = false;
        self.is_opened = true;
        Ok(())
    }

    /// Closes a block, by a brace that is a token.
    fn close_at(&mut self, index: usize) {
        let brace = match self.open.pop() {
            Some(block) => block.brace,
            None => None,
        };
        let closes = closes(self.policy, index, brace);
        self.is_true = self.is_true && closes;
        self.awaits = false;
    }

    /// Takes a word, which may begin an item.
    fn take_word(&mut self, index: usize, word: &str) {
        let is_item = match word {
            "state" | "init-state" | "init" => true,
            "if" | "run" | "set-state" => !self.awaits,
            _ => return,
        };
        if is_item {
            self.take_item(index);
        }
        self.awaits = matches!(word, "init" | "if");
    }

    /// Takes the first token of an item.
    fn take_item(&mut self, index: usize) {
        let (is_first, line) = (self.is_opened, line_begun_by(self.policy, index));
        let is_true = match self.open.last_mut() {
            Some(block) => block.take(line, is_first),
            None => false,
        };
        self.is_true = self.is_true && is_true;
        self.is_indented = self.is_indented || (line.is_some() && self.open.len() > 1);
    }
}

impl Block {
    /// Takes an item, behind so many blanks if it begins a line. Whether that is where an item is.
    fn take(&mut self, line: Option<usize>, is_first: bool) -> bool {
        let Some(blanks) = line else {
            return is_first;
        };
        let is_deeper = match self.brace {
            Some(line) => line.blanks < blanks,
            None => true,
        };
        let is_alike = match self.items {
            Some(others) => others == blanks,
            None => true,
        };
        self.items = Some(blanks);
        is_deeper && is_alike
    }
}

/// Whether a closing brace is where it closes a block with its brace on this line.
fn closes(policy: &TokenizedPolicy<'_>, index: usize, brace: Option<Line>) -> bool {
    let (Some(brace), Some(own)) = (brace, line_of(policy, index)) else {
        return false;
    };
    match line_begun_by(policy, index) {
        Some(blanks) => blanks == brace.blanks,
        None => own.number == brace.number,
    }
}

/// The line of a token, and the blanks before the line.
fn line_of(policy: &TokenizedPolicy<'_>, index: usize) -> Option<Line> {
    let token = policy.tokens.get(index)?;
    let line = line_before(policy.text, part_of(token.span).start)?;
    Some(Line {
        number: token.span.line,
        blanks: length_of_front(line, ByteKind::Blank),
    })
}

/// The blanks before a token, if it begins its line.
fn line_begun_by(policy: &TokenizedPolicy<'_>, index: usize) -> Option<usize> {
    let token = policy.tokens.get(index)?;
    if !begins_line(policy.text, part_of(token.span)) {
        return None;
    }
    match line_of(policy, index) {
        Some(line) => Some(line.blanks),
        None => None,
    }
}

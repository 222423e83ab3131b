//! Conditions that repeat others.

use crate::marks::Mark;
use crate::wording::sign_of;
use ifs_lex::{Token, What};

/// What is said of a condition by one that holds or does not hold. It is written alike, or is an operand of that: one of `&&` if
/// it holds, and one of `||` if it does not. `None` if nothing is said.
pub(crate) fn said_of(tokens: &[Token], condition: Mark, cause: Mark, holds: bool) -> Option<bool> {
    let wanted = tokens_of(tokens, condition)?;
    let known = tokens_of(tokens, cause)?;
    if are_alike(wanted, known) {
        return Some(holds);
    }
    match known {
        [bang, open, inner @ .., close]
            if matches!(bang.what, What::Bang) && encloses(open, inner, close) => {
            says(inner, !holds, wanted)
        }
        _ => says(known, holds, wanted),
    }
}

/// What a condition that holds or does not hold says of one of its operands.
fn says(known: &[Token], holds: bool, wanted: &[Token]) -> Option<bool> {
    if are_alike(wanted, known) || has_operand(known, holds, wanted) {
        Some(holds)
    } else {
        None
    }
}

/// The tokens of a place, without parentheses around all of them.
fn tokens_of(tokens: &[Token], mark: Mark) -> Option<&[Token]> {
    let whole = tokens.get(mark.first..mark.last.saturating_add(1))?;
    match whole {
        [open, inner @ .., close] if encloses(open, inner, close) => Some(inner),
        _ => Some(whole),
    }
}

/// Whether the first and the last token are a pair of parentheses.
fn encloses(open: &Token, inner: &[Token], close: &Token) -> bool {
    matches!(open.what, What::ParenOpen)
        && matches!(close.what, What::ParenClose)
        && is_balanced(inner)
}

/// Whether each parenthesis is closed after it was opened.
fn is_balanced(tokens: &[Token]) -> bool {
    let mut depth = 0usize;
    for token in tokens {
        match token.what {
            What::ParenOpen => depth = depth.saturating_add(1),
            What::ParenClose if depth == 0 => return false,
            What::ParenClose => depth = depth.saturating_sub(1),
            _ => {}
        }
    }
    true
}

/// Whether one of the operands in a condition has these tokens. They are joined by `&&` if the condition holds, and by `||` if
/// it does not.
fn has_operand(condition: &[Token], holds: bool, wanted: &[Token]) -> bool {
    let mut depth = 0usize;
    let mut start = 0usize;
    let mut is_there = false;
    for (index, token) in condition.iter().enumerate() {
        match token.what {
            What::ParenOpen => depth = depth.saturating_add(1),
            What::ParenClose => depth = depth.saturating_sub(1),
            What::Or if depth == 0 && holds => return false,
            What::And | What::Or if depth == 0 && joins(&token.what, holds) => {
                is_there = is_there || is_part(condition, start, index, wanted);
                start = index.saturating_add(1);
            }
            _ => {}
        }
    }
    is_there || is_part(condition, start, condition.len(), wanted)
}

/// Whether a sign joins operands of a condition that holds, or of one that does not.
fn joins(sign: &What, holds: bool) -> bool {
    match sign {
        What::And => holds,
        What::Or => !holds,
        _ => false,
    }
}

/// Whether a part of some tokens is the same as others.
fn is_part(tokens: &[Token], start: usize, end: usize, wanted: &[Token]) -> bool {
    match tokens.get(start..end) {
        Some(part) => are_alike(part, wanted),
        None => false,
    }
}

/// Whether tokens are the same.
fn are_alike(ones: &[Token], others: &[Token]) -> bool {
    if ones.len() != others.len() {
        return false;
    }
    for (one, other) in ones.iter().zip(others) {
        if !is_same(&one.what, &other.what) {
            return false;
        }
    }
    true
}

/// Whether two tokens are the same: words, quoted texts, or signs of conditions.
fn is_same(left: &What, right: &What) -> bool {
    match (left, right) {
        (What::Word(one), What::Word(other)) => is_same_text(one.as_str(), other.as_str()),
        (What::Quoted(one), What::Quoted(other)) => is_same_text(one.as_str(), other.as_str()),
        _ => is_same_sign(sign_of(left), sign_of(right)),
    }
}

/// Whether two texts are the same.
fn is_same_text(one: &str, other: &str) -> bool {
    one == other
}

/// Whether two signs are the same. What is no sign is the same as nothing.
fn is_same_sign(one: &str, other: &str) -> bool {
    !one.is_empty() && is_same_text(one, other)
}

//! The one sign or word that a text lacks or has too much, found by trying.

use crate::changes::{Change, mending};
use crate::grammar::Seen;
use crate::indentation::keeps_indentation;
use crate::names::{Role, has_role, text_at, word_of};
use crate::repairs::{Repair, change_of, end_of_row, parts_at, repairs, sign_of, spelling};
use crate::scans::is_one_of;
use crate::wording::has;
use ifs_expected_tokens::Kind;
use ifs_lex::{What, is_reserved};
use std::alloc::{AllocError, Global};

/// The most bytes of texts that are tried.
const MOST_BYTES: usize = 8_388_608;

/// What makes a repair the same as others beside it: what it does, and the end of the row of signs at which it does that.
#[derive(Clone, Copy)]
struct Row {
    kind: Option<Kind>,
    end: usize,
    is_swap: bool,
}

/// No rows.
const NO_ROWS: Rows = Rows {
    count: 0,
    last: None,
};

/// Repairs that are tried, and those that mend the text.
#[derive(Clone, Copy)]
struct Search<'p, 'a> {
    seen: Seen<'p, 'a>,
    is_block: bool,
    /// The first token whose indentation counts.
    first: usize,
    /// How many texts may still be tried.
    left: usize,
    /// The rows that mend the text: how many, and the last of them.
    rows: usize,
    row: Option<Row>,
    found: Option<Repair>,
    earlier: Option<Repair>,
    /// Those that are as the indentation says: signs that are missing, and signs that are too much.
    missing: Rows,
    extra: Rows,
    is_true_row: bool,
}

/// Rows of repairs: how many, and the last of them.
#[derive(Clone, Copy)]
struct Rows {
    count: usize,
    last: Option<Repair>,
}

impl Rows {
    /// Takes a repair, which begins a row or is in the last one.
    fn take(&mut self, repair: Repair, is_new: bool) {
        if is_new {
            self.count = self.count.saturating_add(1);
        }
        self.last = Some(repair);
    }

    /// The repair of the only row.
    fn only(&self) -> Option<Repair> {
        if self.count == 1 { self.last } else { None }
    }
}

/// A repair that mends a text, and how it was found.
#[derive(Clone, Copy)]
pub(crate) enum Mending {
    /// No other repair mends the text.
    Alone(Repair),
    /// Others do, and this one is as the indentation says.
    Indented(Repair),
    /// These two do.
    Either(Repair, Repair),
}

impl<'p, 'a> Search<'p, 'a> {
    /// A search among repairs of blocks, or of conditions.
    fn new(seen: Seen<'p, 'a>, is_block: bool) -> Search<'p, 'a> {
        Search {
            seen,
            is_block,
            first: first_token(seen, is_block),
            left: MOST_BYTES
                .checked_div(seen.policy.text.len())
                .unwrap_or(MOST_BYTES),
            rows: 0,
            row: None,
            found: None,
            earlier: None,
            missing: NO_ROWS,
            extra: NO_ROWS,
            is_true_row: false,
        }
    }

    /// Tries a repair.
    fn try_one(&mut self, alloc: Global, repair: Repair) -> Result<(), AllocError> {
        if self.left == 0 {
            return Ok(());
        }
        self.left = self.left.saturating_sub(1);
        if !repairs(alloc, self.seen, repair)? {
            return Ok(());
        }
        let is_true = keeps_indentation(
            alloc,
            self.seen.policy,
            self.first,
            self.seen.index,
            repair,
        )?;
        self.take(repair, is_true);
        Ok(())
    }

    /// Takes a repair that mends the text.
    fn take(&mut self, repair: Repair, is_true: bool) {
        let row = row_of(self.seen, repair);
        if !is_same_row(self.row, row) {
            self.rows = self.rows.saturating_add(1);
            self.earlier = self.found;
            self.is_true_row = false;
        }
        self.row = Some(row);
        if is_true {
            self.take_true(repair);
        }
        // in one row, the one that is as the indentation says
        if is_true || !self.is_true_row {
            self.found = Some(repair);
        }
    }

    /// Takes a repair that is as the indentation says.
    fn take_true(&mut self, repair: Repair) {
        let is_new = !self.is_true_row;
        match repair {
            Repair::Before(..) => self.missing.take(repair, is_new),
            _ => self.extra.take(repair, is_new),
        }
        self.is_true_row = true;
    }

    /// The repair that the indentation speaks for. Where a brace that is missing and one that is too much both mend a block, that
    /// has one action, and both mean the same.
    fn indented(&self) -> Option<Repair> {
        if self.missing.count > 0 {
            self.missing.only()
        } else {
            self.extra.only()
        }
    }

    /// What was found. It is nothing if not all could be tried.
    fn result(&self) -> Option<Mending> {
        if self.left == 0 {
            return None;
        }
        let repair = self.found?;
        if self.rows == 1 {
            return Some(Mending::Alone(repair));
        }
        if self.is_block
            && let Some(indented) = self.indented()
        {
            return Some(Mending::Indented(indented));
        }
        if self.rows == 2 {
            either(self.earlier, repair)
        } else {
            None
        }
    }
}

/// Two repairs, if both are at hand.
fn either(earlier: Option<Repair>, repair: Repair) -> Option<Mending> {
    Some(Mending::Either(earlier?, repair))
}

fn row_of(seen: Seen<'_, '_>, repair: Repair) -> Row {
    match repair {
        Repair::Without(index) => Row {
            kind: None,
            end: end_of_row(seen.policy, index),
            is_swap: false,
        },
        Repair::Before(index, kind) => Row {
            kind: Some(kind),
            end: end_of_signs(seen, index, kind),
            is_swap: false,
        },
        Repair::Swapped(index) => Row {
            kind: None,
            end: index,
            is_swap: true,
        },
    }
}

/// The number behind the signs of a kind that begin at a token.
fn end_of_signs(seen: Seen<'_, '_>, index: usize, kind: Kind) -> usize {
    match seen.policy.what(index) {
        Some(what) if sign_of(what) == spelling(kind) => end_of_row(seen.policy, index),
        _ => index,
    }
}

fn is_same_row(row: Option<Row>, other: Row) -> bool {
    match row {
        Some(row) => row.kind == other.kind && row.end == other.end && row.is_swap == other.is_swap,
        None => false,
    }
}

/// The repair of one sign or word that mends the text, if there is one. If several do, it is the one that the indentation speaks
/// for, or else two of them.
pub(crate) fn mending_of(alloc: Global, seen: Seen<'_, '_>) -> Result<Option<Mending>, AllocError> {
    let is_block = is_of_block(seen);
    let mut search = Search::new(seen, is_block);
    if is_block {
        try_braces(alloc, &mut search)?;
    } else if is_of_parentheses(seen) {
        try_parentheses(alloc, &mut search)?;
    }
    try_near(alloc, &mut search)?;
    match search.result() {
        Some(found) => sure(alloc, seen, found),
        None => Ok(None),
    }
}

/// A mending, if each of its repairs mends the text when it is tried once more.
fn sure(alloc: Global, seen: Seen<'_, '_>, found: Mending) -> Result<Option<Mending>, AllocError> {
    let (first, second) = match found {
        Mending::Alone(repair) | Mending::Indented(repair) => (repair, repair),
        Mending::Either(first, second) => (first, second),
    };
    if is_sure(alloc, seen, first)? && is_sure(alloc, seen, second)? {
        return Ok(Some(found));
    }
    Ok(None)
}

/// Whether a repair mends the text.
fn is_sure(alloc: Global, seen: Seen<'_, '_>, repair: Repair) -> Result<bool, AllocError> {
    let Some(change) = change_of(alloc, seen.policy, repair)? else {
        return Ok(false);
    };
    let found: Option<Change> = mending(alloc, seen.policy.text, seen.definitions, change)?;
    Ok(found.is_some())
}

/// Whether a brace may be missing, or be too many: an item begins in a block, the text ends in one, or a brace closes none.
fn is_of_block(seen: Seen<'_, '_>) -> bool {
    let may_close = has(seen.kinds, Kind::BraceClose);
    match seen.policy.what(seen.index) {
        Some(What::BraceClose) => has(seen.kinds, Kind::State),
        Some(What::End) => may_close,
        Some(What::Word(word)) => may_close
            && is_one_of(word.as_str(), &["state", "init-state", "init"]),
        _ => false,
    }
}

/// Whether a parenthesis may be missing, or be too many.
fn is_of_parentheses(seen: Seen<'_, '_>) -> bool {
    has(seen.kinds, Kind::ParenClose)
        || matches!(seen.policy.what(seen.index), Some(What::ParenClose))
}

/// The first token that may be to blame: that of the last state or of the last condition before the place.
fn first_token(seen: Seen<'_, '_>, is_block: bool) -> usize {
    let mut first = 0usize;
    for (index, token) in seen.policy.tokens.iter().enumerate() {
        if index >= seen.index {
            break;
        }
        if begins_part(word_of(Some(&token.what)), is_block) {
            first = index;
        }
    }
    first
}

/// Whether a word begins a state, or a condition.
fn begins_part(word: &str, is_block: bool) -> bool {
    if is_block {
        is_one_of(word, &["state", "init-state"])
    } else {
        word == "if"
    }
}

/// Tries each brace too many and each brace that is missing.
fn try_braces(alloc: Global, search: &mut Search<'_, '_>) -> Result<(), AllocError> {
    for index in search.first..search.seen.index.saturating_add(1) {
        try_brace_at(alloc, search, index)?;
    }
    Ok(())
}

/// Tries a brace before a token, and the text without it.
fn try_brace_at(
    alloc: Global,
    search: &mut Search<'_, '_>,
    index: usize,
) -> Result<(), AllocError> {
    let policy = search.seen.policy;
    let (Some(what), before) = (policy.what(index), policy.what_before(index)) else {
        return Ok(());
    };
    if !closes_none(search.seen) {
        return try_closing(alloc, search, index, what);
    }
    if may_begin_block(what, before) {
        search.try_one(alloc, Repair::Before(index, Kind::BraceOpen))?;
    }
    if let What::BraceClose = what {
        search.try_one(alloc, Repair::Without(index))?;
    }
    Ok(())
}

/// Tries a closing brace before a token.
fn try_closing(
    alloc: Global,
    search: &mut Search<'_, '_>,
    index: usize,
    what: &What,
) -> Result<(), AllocError> {
    if may_follow_block(what) {
        return search.try_one(alloc, Repair::Before(index, Kind::BraceClose));
    }
    Ok(())
}

/// Whether the place has a brace that closes none.
fn closes_none(seen: Seen<'_, '_>) -> bool {
    matches!(seen.policy.what(seen.index), Some(What::BraceClose))
}

/// Whether a block may begin between two tokens.
fn may_begin_block(what: &What, before: Option<&What>) -> bool {
    let follows = match before {
        Some(What::Word(word)) => word.as_str() == "init" || !is_reserved(word.as_str()),
        Some(What::Quoted(_) | What::ParenClose) => true,
        _ => false,
    };
    follows && is_one_of(sign_of(what), &["if", "run", "set-state", "init", "}"])
}

/// Whether a token can be behind the end of a block.
fn may_follow_block(what: &What) -> bool {
    match what {
        What::End => true,
        _ => is_one_of(
            sign_of(what),
            &["state", "init-state", "init", "if", "run", "set-state", "}"],
        ),
    }
}

/// Tries each parenthesis too many and each one that is missing.
fn try_parentheses(alloc: Global, search: &mut Search<'_, '_>) -> Result<(), AllocError> {
    for index in search.first..search.seen.index.saturating_add(1) {
        try_parenthesis_at(alloc, search, index)?;
    }
    Ok(())
}

/// Tries a parenthesis before a token, and the text without it.
fn try_parenthesis_at(
    alloc: Global,
    search: &mut Search<'_, '_>,
    index: usize,
) -> Result<(), AllocError> {
    let policy = search.seen.policy;
    let (Some(what), before) = (policy.what(index), policy.what_before(index)) else {
        return Ok(());
    };
    if may_precede_operand(before) {
        search.try_one(alloc, Repair::Before(index, Kind::ParenOpen))?;
    } else {
        search.try_one(alloc, Repair::Before(index, Kind::ParenClose))?;
    }
    if is_one_of(sign_of(what), &["(", ")"]) {
        search.try_one(alloc, Repair::Without(index))?;
    }
    Ok(())
}

/// Whether an operand of a condition can follow a token.
fn may_precede_operand(before: Option<&What>) -> bool {
    match before {
        Some(what) => is_one_of(sign_of(what), &["if", "(", "!", "&&", "||"]),
        None => false,
    }
}

/// Tries repairs at the place itself.
fn try_near(alloc: Global, search: &mut Search<'_, '_>) -> Result<(), AllocError> {
    let seen = search.seen;
    for kind in seen.kinds {
        if may_be_missing(seen, *kind) {
            search.try_one(alloc, Repair::Before(seen.index, *kind))?;
        }
    }
    let before = seen.index.saturating_sub(1);
    try_without(alloc, search, seen.index)?;
    try_swapped(alloc, search, before)?;
    try_swapped(alloc, search, seen.index)
}

/// Whether a token of a kind may be missing before the place. What opens and closes blocks and parentheses is tried elsewhere.
fn may_be_missing(seen: Seen<'_, '_>, kind: Kind) -> bool {
    match kind {
        Kind::State | Kind::Init | Kind::If | Kind::Every | Kind::Dot | Kind::And | Kind::Or =>
            true,
        Kind::Link => !has(seen.kinds, Kind::Text) && !ends_in_link(seen),
        Kind::InitState | Kind::SetState => names_state(seen),
        Kind::Run => is_text(seen),
        Kind::BraceOpen => !is_of_block(seen),
        _ => false,
    }
}

/// Whether the name before the place ends in `link`, as in `em0link.up`.
fn ends_in_link(seen: Seen<'_, '_>) -> bool {
    match seen.index.checked_sub(2) {
        Some(before) => text_at(seen.policy, Some(before)).ends_with("link"),
        None => false,
    }
}

/// Whether the token at the place is a name or a command.
fn is_text(seen: Seen<'_, '_>) -> bool {
    match seen.policy.what(seen.index) {
        Some(What::Word(word)) => !is_reserved(word.as_str()),
        Some(What::Quoted(_)) => true,
        _ => false,
    }
}

/// Whether the token at the place is the name of a state.
fn names_state(seen: Seen<'_, '_>) -> bool {
    if !is_text(seen) {
        return false;
    }
    let name = text_at(seen.policy, Some(seen.index));
    for (index, _token) in seen.policy.tokens.iter().enumerate() {
        if has_role(seen.policy, index, Role::Defined)
            && text_at(seen.policy, Some(index)) == name
        {
            return true;
        }
    }
    false
}

/// Tries the text without a token, if that is a sign other than `!`, or a word of the grammar.
fn try_without(alloc: Global, search: &mut Search<'_, '_>, index: usize) -> Result<(), AllocError> {
    let Some(what) = search.seen.policy.what(index) else {
        return Ok(());
    };
    if has_meaning(what) && !is_brace_of_block(search.seen, what) {
        return search.try_one(alloc, Repair::Without(index));
    }
    Ok(())
}

/// Whether the token is a brace, and braces were tried.
fn is_brace_of_block(seen: Seen<'_, '_>, what: &What) -> bool {
    match sign_of(what) {
        "{" | "}" => is_of_block(seen),
        "(" | ")" => is_of_parentheses(seen) && !is_of_block(seen),
        _ => false,
    }
}

/// The words of the grammar that are no signs.
const WORDS: [&str; 11] = [
    "state",
    "init-state",
    "init",
    "if",
    "run",
    "set-state",
    "every",
    "link",
    "up",
    "down",
    "unknown",
];

/// Whether a token is a sign other than `!`, or a word of the grammar.
fn has_meaning(what: &What) -> bool {
    match what {
        What::Bang | What::Quoted(_) | What::End => false,
        What::Word(word) => is_one_of(word.as_str(), &WORDS),
        _ => true,
    }
}

/// Tries a token and the next one in the other order, if one of them is a sign or a word of the grammar. If that cannot be tried,
/// nothing is found.
fn try_swapped(alloc: Global, search: &mut Search<'_, '_>, index: usize) -> Result<(), AllocError> {
    let policy = search.seen.policy;
    let (Some(first), Some(second)) = (policy.what(index), policy.what(index.saturating_add(1)))
    else {
        return Ok(());
    };
    if is_end(second) || !(is_sign(first) || is_sign(second)) {
        return Ok(());
    }
    if parts_at(alloc, policy, index)?.is_none() {
        search.left = 0;
        return Ok(());
    }
    search.try_one(alloc, Repair::Swapped(index))
}

/// Whether a token is the end of the text.
fn is_end(what: &What) -> bool {
    matches!(what, What::End)
}

/// Whether a token is a sign or a word of the grammar.
fn is_sign(what: &What) -> bool {
    match what {
        What::Bang => true,
        _ => has_meaning(what),
    }
}

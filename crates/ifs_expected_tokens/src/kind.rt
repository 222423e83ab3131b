//! The kinds of tokens, each with one token that is for it.

ghost use Rattle.std.specs.Prelude.{◌≡◌, IfOk};
ghost use Rattle.ifs_expected_tokens.specs.Expected.{what_of};

use ifs_base::Text;
use ifs_lex::What;
use std::alloc::{AllocError, Global};

/// A kind of token.
#[derive(Clone, Copy, Debug, PartialEq, Eq)]
pub enum Kind {
    /// The word `state`, and the like.
    State,
    InitState,
    Init,
    If,
    Run,
    SetState,
    Every,
    Link,
    Up,
    Down,
    Unknown,
    /// A quoted text, or a word that is not reserved.
    Text,
    /// A number.
    Number,
    BraceOpen,
    BraceClose,
    ParenOpen,
    ParenClose,
    Dot,
    Bang,
    And,
    Or,
    /// The end of the text.
    End,
}

/// All kinds.
pub(crate) const KINDS: [Kind; 22] = [
    Kind::State,
    Kind::InitState,
    Kind::Init,
    Kind::If,
    Kind::Run,
    Kind::SetState,
    Kind::Every,
    Kind::Link,
    Kind::Up,
    Kind::Down,
    Kind::Unknown,
    Kind::Text,
    Kind::Number,
    Kind::BraceOpen,
    Kind::BraceClose,
    Kind::ParenOpen,
    Kind::ParenClose,
    Kind::Dot,
    Kind::Bang,
    Kind::And,
    Kind::Or,
    Kind::End,
];

/// A word as a token.
fn word(alloc: Global, text: &str) -> Result<What, AllocError>
    ensures { IfOk result (λ what. what ≡ What.Word text.now) }
{
    Ok(What::Word(Text::new(String::from_str(alloc, text)?)))
}

/// The token that is for a kind.
pub(crate) fn what_of(alloc: Global, kind: Kind) -> Result<What, AllocError>
    ensures { IfOk result (λ what. what ≡ what_of kind) }
{
    match kind {
        Kind::State => word(alloc, "state"),
        Kind::InitState => word(alloc, "init-state"),
        Kind::Init => word(alloc, "init"),
        Kind::If => word(alloc, "if"),
        Kind::Run => word(alloc, "run"),
        Kind::SetState => word(alloc, "set-state"),
        Kind::Every => word(alloc, "every"),
        Kind::Link => word(alloc, "link"),
        Kind::Up => word(alloc, "up"),
        Kind::Down => word(alloc, "down"),
        Kind::Unknown => word(alloc, "unknown"),
        Kind::Text => Ok(What::Quoted(Text::new(String::from_str(alloc, "text")?))),
        Kind::Number => word(alloc, "1"),
        Kind::BraceOpen => Ok(What::BraceOpen),
        Kind::BraceClose => Ok(What::BraceClose),
        Kind::ParenOpen => Ok(What::ParenOpen),
        Kind::ParenClose => Ok(What::ParenClose),
        Kind::Dot => Ok(What::Dot),
        Kind::Bang => Ok(What::Bang),
        Kind::And => Ok(What::And),
        Kind::Or => Ok(What::Or),
        Kind::End => Ok(What::End),
    }
}

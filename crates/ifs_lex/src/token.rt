//! The tokens of a policy.

ghost use Rattle.std.specs.Prelude.{◌≡◌};
ghost use Rattle.ifs_lex.specs.Numbered.{place_of};

use ifs_base::{Span, Text};

/// A token without its place.
#[derive(Debug, Drop)]
pub enum What {
    /// A word without quotes.
    Word(Text),
    /// The value of a quoted text.
    Quoted(Text),
    /// `{`
    BraceOpen,
    /// `}`
    BraceClose,
    /// `(`
    ParenOpen,
    /// `)`
    ParenClose,
    /// `.`
    Dot,
    /// `=`
    Equals,
    /// `!`
    Bang,
    /// `&&`
    And,
    /// `||`
    Or,
    /// The end of the text.
    End,
}

/// Where a token is: its place in the text, and its number in the list of tokens, from 0.
#[derive(Clone, Copy, Debug, PartialEq, Eq)]
pub struct TokenPlace {
    pub span: Span,
    pub number: usize,
}

/// A token, its place in the text, and its number in the list of tokens, from 0. The place of a macro's token is that of the
/// use of the macro.
#[derive(Debug, Drop)]
pub struct Token {
    pub what: What,
    pub span: Span,
    pub number: usize,
}

impl Token {
    /// Returns the line and the number of the token.
    pub fn place(&self) -> TokenPlace
        ensures { result ≡ place_of self.now }
    {
        TokenPlace {
            span: self.span,
            number: self.number,
        }
    }
}

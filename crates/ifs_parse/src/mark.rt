//! The signs and the words of the grammar.

ghost use Rattle.std.specs.Prelude.{◌≡◌};
ghost use Rattle.ifs_parse.specs.AtOnce as at_once;
ghost use Rattle.ifs_parse.specs.Marks as marks;

use ifs_lex::What;

/// A sign or a word of the grammar. A quoted text is neither.
#[derive(Clone, Copy, PartialEq, Eq)]
pub enum Mark {
    BraceOpen,
    BraceClose,
    ParenOpen,
    ParenClose,
    Dot,
    Bang,
    And,
    Or,
    End,
    State,
    InitState,
    Init,
    If,
    Run,
    SetState,
    Every,
    Link,
    Up,
    Down,
    Unknown,
    /// Any other token.
    Other,
}

/// Returns the mark of a word.
fn mark_of_word(word: &str) -> Mark
    ensures { result ≡ marks.mark_of_word word.now }
{
    match word {
        "state" => Mark::State,
        "init-state" => Mark::InitState,
        "init" => Mark::Init,
        "if" => Mark::If,
        "run" => Mark::Run,
        "set-state" => Mark::SetState,
        "every" => Mark::Every,
        "link" => Mark::Link,
        "up" => Mark::Up,
        "down" => Mark::Down,
        "unknown" => Mark::Unknown,
        _ => Mark::Other,
    }
}

/// Returns the mark of a token.
pub fn mark_of(what: &What) -> Mark
    ensures { result ≡ marks.mark_of what.now }
{
    match what {
        What::Word(word) => mark_of_word(word.as_str()),
        What::Quoted(_) => Mark::Other,
        What::BraceOpen => Mark::BraceOpen,
        What::BraceClose => Mark::BraceClose,
        What::ParenOpen => Mark::ParenOpen,
        What::ParenClose => Mark::ParenClose,
        What::Dot => Mark::Dot,
        What::Equals => Mark::Other,
        What::Bang => Mark::Bang,
        What::And => Mark::And,
        What::Or => Mark::Or,
        What::End => Mark::End,
    }
}

impl Mark {
    /// Returns whether two marks are the same.
    #[tactic(auto, unfolding(crate::specs::Marks::is))]
    pub fn is(self, other: Mark) -> bool
        ensures { result ≡ marks.is self other }
    {
        self == other
    }

    /// Returns whether a file can begin with the mark.
    pub fn may_come_first(self) -> bool
        ensures { result ≡ at_once.may_come_first self }
    {
        matches!(
            self,
            Mark::InitState
                | Mark::State
                | Mark::Init
                | Mark::If
                | Mark::Run
                | Mark::SetState
                | Mark::End
        )
    }
}

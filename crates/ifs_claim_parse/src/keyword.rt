//! The words of claims, the tokens that are names, and what can be at a place of a line, in words.

ghost use Rattle.std.specs.Prelude.{◌≡◌, option_map};
ghost use Rattle.ifs_claim_parse.specs.Words as words;

use ifs_base::Text;
use ifs_lex::{What, is_reserved};

/// A word of the language of claims.
#[derive(Clone, Copy, PartialEq, Eq)]
pub enum Keyword {
    Never,
    Rest,
    In,
    While,
    From,
    To,
    Enter,
    Run,
    Within,
    Changes,
    At,
    Any,
    Moment,
    May,
    Flap,
    Known,
    Unknown,
}

/// The word of the language of claims that a text spells.
#[tactic(auto, unfolding(crate::specs::Words::keyword_of_word))]
pub fn keyword_of_word(word: &str) -> Option<Keyword>
    ensures { result ≡ words.keyword_of_word word.now }
{
    match word {
        "never" => Some(Keyword::Never),
        "rest" => Some(Keyword::Rest),
        "in" => Some(Keyword::In),
        "while" => Some(Keyword::While),
        "from" => Some(Keyword::From),
        "to" => Some(Keyword::To),
        "enter" => Some(Keyword::Enter),
        "run" => Some(Keyword::Run),
        "within" => Some(Keyword::Within),
        "changes" => Some(Keyword::Changes),
        "at" => Some(Keyword::At),
        "any" => Some(Keyword::Any),
        "moment" => Some(Keyword::Moment),
        "may" => Some(Keyword::May),
        "flap" => Some(Keyword::Flap),
        "known" => Some(Keyword::Known),
        "unknown" => Some(Keyword::Unknown),
        _ => None,
    }
}

/// The word of the language of claims that a token is. A quoted text is none.
pub fn keyword_of(what: &What) -> Option<Keyword>
    ensures { result ≡ words.keyword_of what.now }
{
    match what {
        What::Word(word) => keyword_of_word(word.as_str()),
        _ => None,
    }
}

/// The name or the command that a token is: a quoted text, or a word that neither the policies' language nor that of claims has.
pub fn name_in(what: &What) -> Option<&Text>
    ensures { option_map (λ name. name.now) result ≡ words.name_in what.now }
{
    match what {
        What::Word(word) => {
            if is_reserved(word.as_str()) || keyword_of_word(word.as_str()).is_some() {
                return None;
            }
            Some(word)
        }
        What::Quoted(text) => Some(text),
        _ => None,
    }
}

/// Whether a token is the word `every`, which each test has.
pub(crate) fn is_every(what: &What) -> bool {
    match what {
        What::Word(word) => word.as_str() == "every",
        _ => false,
    }
}

/// What can be at a place of a line.
#[derive(Clone, Copy)]
pub enum Wanted {
    /// The first word of a claim.
    Claim,
    /// What follows `never` at the start of a line.
    BehindNever,
    /// What follows `rest` at the start of a line.
    BehindRest,
    Word(Keyword),
    State,
    StateOrTo,
    StateOrWhile,
    StateOrEnd,
    StateWhileOrEnd,
    Command,
    CommandOrWhile,
    /// What asks for the values of tests, directly behind `while`.
    Values,
    Number,
    End,
}

/// The name of a state, in words.
pub(crate) const STATE: &str = "the name of a state";

/// A command, in words.
const COMMAND: &str = "a command";

/// The end of a line, in words.
pub(crate) const END: &str = "the end of the line";

/// What can be at a place of a line, most useful first. The last words may be empty.
pub(crate) fn words_of(wanted: Wanted) -> [&'static str; 4] {
    match wanted {
        Wanted::Claim => ["`never`", "`rest`", "`at`", "`may`"],
        Wanted::BehindNever => ["`rest`", "`from`", "`enter`", "`run`"],
        Wanted::BehindRest => ["`in`", "`within`", "", ""],
        Wanted::Word(word) => [quoted(word), "", "", ""],
        Wanted::State => [STATE, "", "", ""],
        Wanted::StateOrTo => [STATE, "`to`", "", ""],
        Wanted::StateOrWhile => [STATE, "`while`", "", ""],
        Wanted::StateOrEnd => [STATE, END, "", ""],
        Wanted::StateWhileOrEnd => [STATE, "`while`", END, ""],
        Wanted::Command => [COMMAND, "", "", ""],
        Wanted::CommandOrWhile => [COMMAND, "`while`", "", ""],
        Wanted::Values => ["`known`", "`unknown`", "", ""],
        Wanted::Number => ["a number from 0 to 65535", "", "", ""],
        Wanted::End => [END, "", "", ""],
    }
}

/// A word of the language of claims, between backquotes.
fn quoted(word: Keyword) -> &'static str {
    match word {
        Keyword::Never => "`never`",
        Keyword::Rest => "`rest`",
        Keyword::In => "`in`",
        Keyword::While => "`while`",
        Keyword::From => "`from`",
        Keyword::To => "`to`",
        Keyword::Enter => "`enter`",
        Keyword::Run => "`run`",
        Keyword::Within => "`within`",
        Keyword::Changes => "`changes`",
        Keyword::At => "`at`",
        Keyword::Any => "`any`",
        Keyword::Moment => "`moment`",
        Keyword::May => "`may`",
        Keyword::Flap => "`flap`",
        Keyword::Known => "`known`",
        Keyword::Unknown => "`unknown`",
    }
}

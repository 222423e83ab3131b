//! The parser: it reads tokens from the left, with one token of look-ahead.

ghost use Rattle.std.specs.Prelude.{◌≡◌, ℕ, option_map, if◌then◌else◌, Ok, Err};
ghost use Rattle.std.specs.Option.{option_map_or};
ghost use Rattle.ifs_parse.specs.inner.Combined as combined;
ghost use Rattle.ifs_parse.specs.inner.Combined.{IsAsRead, accepted, expected, place_of_first, after_token, found};
ghost use Rattle.ifs_parse.specs.inner.Reading as reading;
ghost use Rattle.ifs_parse.specs.Words as words;
ghost use Rattle.ifs_parse.specs.inner.Parsers.{progress_of};
ghost use Rattle.ifs_parse.specs.declared.fault.ParseFault.TheVariants as fault;
ghost use Rattle.ifs_base.specs.Numbers.{sized};

use crate::condition::Condition;
use crate::fault::ParseFault;
use crate::mark::{Mark, mark_of};
use crate::period::Period;
use crate::tree::{Name, Test};
use ifs_base::limits::PERIOD;
use ifs_base::{LinkState, Number, Span, Text, parse_number};
use ifs_lex::{Token, TokenPlace, What, is_reserved};
use std::alloc::Global;

/// The place where no token is.
const NOWHERE: TokenPlace = TokenPlace {
    span: Span {
        line: 0,
        start: 0,
        end: 0,
    },
    number: 0,
};

/// The tokens that are left, and the lines of the notes so far.
#[derive(Drop)]
pub struct Parser<'a> {
    pub alloc: Global,
    pub left: &'a [Token],
    pub notes: Vec<u32>,
}

/// An operand of `||`, and whether it is two or more joined by `&&`.
#[derive(Drop)]
pub struct Operand {
    pub condition: Condition<Test>,
    pub is_chain: bool,
}

impl Operand {
    /// Returns the condition.
    pub fn into_condition(self) -> Condition<Test>
        ensures { result ≡ self.condition }
    {
        let Operand {
            condition,
            is_chain: _is_chain,
        } = self;
        condition
    }
}

/// Returns the text of a string: a word that is not reserved, or a quoted text.
fn text_of(what: &What) -> Option<&Text>
    ensures { option_map (λ text. text.now) result ≡ words.text_of what.now }
{
    match what {
        What::Word(word) => {
            if is_reserved(word.as_str()) {
                return None;
            }
            Some(word)
        }
        What::Quoted(text) => Some(text),
        _ => None,
    }
}

/// Returns the link state that a word names.
fn link_state_of(mark: Mark) -> Option<LinkState>
    ensures { result ≡ words.link_state_of mark }
{
    match mark {
        Mark::Up => Some(LinkState::Up),
        Mark::Down => Some(LinkState::Down),
        Mark::Unknown => Some(LinkState::Unknown),
        _ => None,
    }
}

/// Returns the number that an unquoted word of digits spells.
fn number_of(what: &What) -> Option<Number>
    ensures { result ≡ option_map sized (words.number_of_what what.now) }
{
    match what {
        What::Word(word) => parse_number(word.as_bytes()),
        _ => None,
    }
}

/// Makes a period of the number at a place.
fn period_of(number: Number, place: TokenPlace) -> Result<Period, ParseFault>
    ensures { (n : ℕ) → sized n ≡ number → result ≡ (if words.fits_period n then Ok n else Err (fault.Period place)) }
{
    match number {
        Number::Within(seconds) => {
            if 1 <= seconds && seconds <= u64::from(PERIOD) {
                return Ok(Period::new(seconds as u32));
            }
            Err(ParseFault::Period(place))
        }
        Number::TooGreat => Err(ParseFault::Period(place)),
    }
}

impl<'a> Parser<'a> {
    /// Returns the place of the next token.
    fn place(&self) -> TokenPlace
        ensures { result ≡ place_of_first self.now.left.now }
    {
        match self.left {
            [token, ..] => token.place(),
            [] => NOWHERE,
        }
    }

    /// Returns the fault that nothing goes on with the next token.
    pub fn unexpected(&self) -> ParseFault
        ensures { result ≡ fault.Unexpected (place_of_first self.now.left.now) }
    {
        ParseFault::Unexpected(self.place())
    }

    /// Takes the next token if it has this mark, and returns its place.
    pub fn accept(&mut self, mark: Mark) -> Option<TokenPlace>
        ensures taken { result ≡ accepted mark self.old.left.now }
        ensures after { progress_of self.new ≡ option_map_or (λ _. after_token (progress_of self.old)) result (progress_of self.old) }
    {
        match self.left {
            [token, rest @ ..] => {
                if mark_of(&token.what).is(mark) {
                    self.left = rest;
                    return Some(token.place());
                }
                None
            }
            [] => None,
        }
    }

    /// Takes the next token, which must have this mark, and returns its place.
    pub fn expect(&mut self, mark: Mark) -> Result<TokenPlace, ParseFault>
        ensures { IsAsRead (λ place. (place, progress_of self.new)) result (expected mark (progress_of self.old)) }
    {
        match self.accept(mark) {
            Some(place) => Ok(place),
            None => Err(self.unexpected()),
        }
    }

    /// string : a word that is not reserved | a quoted text
    pub fn string(&mut self) -> Result<Name, ParseFault>
        ensures { IsAsRead (λ name. (name, progress_of self.new)) result (reading.string (progress_of self.old)) }
    {
        if let [token, rest @ ..] = self.left {
            if let Some(text) = text_of(&token.what) {
                let text = Text::new(String::from_str(self.alloc, text.as_str())?);
                self.left = rest;
                return Ok(Name {
                    text,
                    place: token.place(),
                });
            }
        }
        Err(self.unexpected())
    }

    /// up | down | unknown
    pub fn link_state(&mut self) -> Result<LinkState, ParseFault>
        ensures { IsAsRead (λ l. (l, progress_of self.new)) result (reading.link_state (progress_of self.old)) }
    {
        if let [token, rest @ ..] = self.left {
            if let Some(link_state) = link_state_of(mark_of(&token.what)) {
                self.left = rest;
                return Ok(link_state);
            }
        }
        Err(self.unexpected())
    }

    /// number : an unquoted word of digits, from 1 to 604,800
    pub fn period(&mut self) -> Result<Period, ParseFault>
        ensures { IsAsRead (λ n. (n, progress_of self.new)) result (reading.period words.fits_period (progress_of self.old)) }
    {
        if let [token, rest @ ..] = self.left {
            if let Some(number) = number_of(&token.what) {
                let period = period_of(number, token.place())?;
                self.left = rest;
                return Ok(period);
            }
        }
        Err(self.unexpected())
    }

    /// test : string "." link "." ( up | down | unknown ) | string every number
    pub fn test(&mut self) -> Result<Test, ParseFault>
        ensures { IsAsRead (λ t. (t, progress_of self.new)) result (reading.test words.fits_period (progress_of self.old)) }
    {
        let name = self.string()?;
        if self.accept(Mark::Dot).is_some() {
            self.expect(Mark::Link)?;
            self.expect(Mark::Dot)?;
            return Ok(Test::Link(name, self.link_state()?));
        }
        self.expect(Mark::Every)?;
        Ok(Test::External(name, self.period()?))
    }
}

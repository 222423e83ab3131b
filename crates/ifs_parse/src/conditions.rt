//! Parses conditions.

ghost use Rattle.std.specs.Prelude.{◌≡◌, ◌≤◌, ◌||◌, [], suc, zero, length, MatchResult};
ghost use Rattle.ifs_parse.specs.inner.Combined.{IsAsRead, many};
ghost use Rattle.ifs_parse.specs.inner.Parsers.{progress_of, others_of};
ghost use Rattle.ifs_parse.specs.inner.Reading as reading;
ghost use Rattle.ifs_parse.specs.Trees.{Or};
ghost use Rattle.ifs_parse.specs.Views.{any_of};
ghost use Rattle.ifs_parse.specs.Words as words;
ghost use Rattle.ifs_parse.specs.Rules as rules;
ghost use Rattle.ifs_parse.specs.declared.mark.Mark.TheVariants as mark;
ghost use Rattle.ifs_parse.specs.declared.fault.ParseFault.TheVariants.{Memory, Nesting};

use crate::condition::{Condition, Node};
use crate::fault::ParseFault;
use crate::mark::Mark;
use crate::parser::{Operand, Parser};
use crate::tree::Test;
use ifs_lex::TokenPlace;
use std::alloc::Global;

/// The operands after the first two, and whether any operand is a chain.
#[derive(Drop)]
struct Others {
    rest: Vec<Condition<Test>>,
    is_mixed: bool,
}

impl Others {
    /// Makes an empty list after the first two operands.
    fn after(alloc: Global, first: &Operand, second: &Operand) -> Others
        ensures { others_of result ≡ reading.others [] (first.now.is_chain || second.now.is_chain) }
    {
        Others {
            rest: Vec::new(alloc),
            is_mixed: first.is_chain || second.is_chain,
        }
    }

    /// Appends an operand.
    fn add(&mut self, next: Operand) -> Result<(), ParseFault>
        ensures { MatchResult
            result
            (λ done. others_of self.new ≡ reading.with_operand (others_of self.old) next)
            (λ fault. fault ≡ Memory) }
    {
        self.is_mixed = self.is_mixed || next.is_chain;
        self.rest.push(next.into_condition())?;
        Ok(())
    }

    /// Returns the operands after the first two.
    fn into_rest(self) -> Vec<Condition<Test>>
        ensures { result.items ≡ self.rest.items }
    {
        let Others {
            rest,
            is_mixed: _is_mixed,
        } = self;
        rest
    }
}

/// Boxes the first two operands of a chain.
fn boxed(
    alloc: Global,
    first: Condition<Test>,
    second: Condition<Test>,
) -> Result<(Box<Condition<Test>>, Box<Condition<Test>>), ParseFault>
    ensures { MatchResult result (λ pair. (pair.0.value ≡ first) × (pair.1.value ≡ second)) (λ fault. fault ≡ Memory) }
{
    let first = Box::new(alloc, first)?;
    let second = Box::new(alloc, second)?;
    Ok((first, second))
}

/// Joins operands by `||`.
fn any(
    alloc: Global,
    first: Operand,
    second: Operand,
    others: Others,
) -> Result<Condition<Test>, ParseFault>
    ensures { MatchResult result (λ c. c ≡ any_of (Or first.condition second.condition) others.rest.items) (λ fault. fault ≡ Memory) }
{
    let (first, second) = boxed(alloc, first.into_condition(), second.into_condition())?;
    Ok(Condition::new(Node::Any(first, second, others.into_rest())))
}

/// Opens one more level of nesting at a place, and returns how many more may be open in it.
pub fn within(room: u32, place: TokenPlace) -> Result<u32, ParseFault>
    ensures { MatchResult result (λ inner. room ≡ suc inner) (λ fault. (room ≡ zero) × (fault ≡ Nesting place)) }
{
    room.checked_sub(1).ok_or(ParseFault::Nesting(place))
}

impl<'a> Parser<'a> {
    /// one : "!" one | "(" any ")" | test
    #[cycle(conditions)]
    fn one(&mut self, room: u32) -> Result<Condition<Test>, ParseFault>
        ensures { IsAsRead (λ c. (c, progress_of self.new)) result (reading.one words.fits_period room (progress_of self.old)) }
    {
        if let Some(place) = self.accept(Mark::Bang) {
            let inner = self.one(within(room, place)?)?;
            return Ok(Condition::new(Node::Not(Box::new(self.alloc, inner)?)));
        }
        if let Some(place) = self.accept(Mark::ParenOpen) {
            let inner = self.condition(within(room, place)?)?;
            self.expect(Mark::ParenClose)?;
            return Ok(inner);
        }
        let test = self.test()?;
        Ok(Condition::new(Node::Leaf(test)))
    }

    /// "&&" one, if it comes next
    #[cycle(conditions)]
    fn next_one(&mut self, room: u32) -> Result<Option<Condition<Test>>, ParseFault>
        ensures { IsAsRead (λ c. (c, progress_of self.new)) result (reading.next_operand mark.And (reading.one words.fits_period room) (progress_of self.old)) }
    {
        match self.accept(Mark::And) {
            Some(_) => Ok(Some(self.one(room)?)),
            None => Ok(None),
        }
    }

    /// { "&&" one }
    #[cycle(conditions)]
    fn ones(&mut self, room: u32) -> Result<Vec<Condition<Test>>, ParseFault>
        ensures { IsAsRead
            (λ rest. (rest.items, progress_of self.new))
            result
            (many (reading.next_operand mark.And (reading.one words.fits_period room)) rules.with_last [] (progress_of self.old)) }
    {
        let mut rest = Vec::new(self.alloc);
        for _turn in 0..self.left.len() {
            match self.next_one(room) {
                Ok(Some(next)) => rest.push(next)?,
                Ok(None) => return Ok(rest),
                Err(fault) => return Err(fault),
            }
        }
        Ok(rest)
    }

    /// all : one { "&&" one }
    #[cycle(conditions)]
    fn all(&mut self, room: u32) -> Result<Operand, ParseFault>
        ensures { IsAsRead (λ o. (o, progress_of self.new)) result (reading.all (reading.one words.fits_period room) (progress_of self.old)) }
    {
        let first = self.one(room)?;
        if self.accept(Mark::And).is_none() {
            return Ok(Operand {
                condition: first,
                is_chain: false,
            });
        }
        let second = self.one(room)?;
        let rest = self.ones(room)?;
        let (first, second) = boxed(self.alloc, first, second)?;
        Ok(Operand {
            condition: Condition::new(Node::All(first, second, rest)),
            is_chain: true,
        })
    }

    /// "||" all, if it comes next
    #[cycle(conditions)]
    fn next_all(&mut self, room: u32) -> Result<Option<Operand>, ParseFault>
        ensures { IsAsRead (λ o. (o, progress_of self.new)) result (reading.next_operand mark.Or (reading.all (reading.one words.fits_period room)) (progress_of self.old)) }
    {
        match self.accept(Mark::Or) {
            Some(_) => Ok(Some(self.all(room)?)),
            None => Ok(None),
        }
    }

    /// { "||" all }
    #[cycle(conditions)]
    fn alls(&mut self, room: u32, before: Others) -> Result<Others, ParseFault>
        ensures { IsAsRead
            (λ o. (others_of o, progress_of self.new))
            result
            (many (reading.next_operand mark.Or (reading.all (reading.one words.fits_period room))) reading.with_operand (others_of before) (progress_of self.old)) }
    {
        let mut others = before;
        for _turn in 0..self.left.len() {
            match self.next_all(room) {
                Ok(Some(next)) => others.add(next)?,
                Ok(None) => return Ok(others),
                Err(fault) => return Err(fault),
            }
        }
        Ok(others)
    }

    /// Inserts a note of a line at an index of the notes, if operands are mixed.
    fn note(&mut self, index: usize, line: u32, is_mixed: bool) -> Result<(), ParseFault>
        requires { index ≤ length self.old.notes.items }
        ensures { MatchResult
            result
            (λ done. progress_of self.new ≡ reading.noted index line is_mixed (progress_of self.old))
            (λ fault. fault ≡ Memory) }
    {
        if is_mixed {
            self.notes.insert(index, line)?;
        }
        Ok(())
    }

    /// What follows `all "||"` : all { "||" all }, with a note if operands are mixed
    #[cycle(conditions)]
    fn alternatives(
        &mut self,
        room: u32,
        first: Operand,
        place: TokenPlace,
    ) -> Result<Condition<Test>, ParseFault>
        ensures { IsAsRead
            (λ c. (c, progress_of self.new))
            result
            (reading.noted_alternatives (reading.all (reading.one words.fits_period room)) first place (progress_of self.old)) }
    {
        let index = self.notes.len();
        let second = self.all(room)?;
        let others = self.alls(room, Others::after(self.alloc, &first, &second))?;
        self.note(index, place.span.line, others.is_mixed)?;
        let condition = any(self.alloc, first, second, others)?;
        Ok(condition)
    }

    /// any : all { "||" all }
    #[cycle(conditions)]
    pub fn condition(&mut self, room: u32) -> Result<Condition<Test>, ParseFault>
        ensures { IsAsRead (λ c. (c, progress_of self.new)) result (reading.condition words.fits_period room (progress_of self.old)) }
    {
        let first = self.all(room)?;
        match self.accept(Mark::Or) {
            Some(place) => self.alternatives(room, first, place),
            None => Ok(first.into_condition()),
        }
    }
}

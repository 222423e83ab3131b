//! Parses statements, states and files.

ghost use Rattle.std.specs.Prelude.{◌≡◌, []};
ghost use Rattle.ifs_parse.specs.inner.Combined.{IsAsRead, many};
ghost use Rattle.ifs_parse.specs.inner.Parsers.{progress_of};
ghost use Rattle.ifs_parse.specs.inner.Reading as reading;
ghost use Rattle.ifs_parse.specs.Words as words;
ghost use Rattle.ifs_parse.specs.Rules as rules;

use crate::block::{Block, Statement};
use crate::conditions::within;
use crate::fault::ParseFault;
use crate::mark::Mark;
use crate::parser::Parser;
use crate::tree::{Action, Actions, Item, Part, Wish};
use ifs_base::Items;

impl<'a> Parser<'a> {
    /// What follows `if` : any block
    #[cycle(statements)]
    fn conditional(&mut self, room: u32) -> Result<Action, ParseFault>
        ensures { IsAsRead (λ s. (s, progress_of self.new)) result (reading.conditional words.fits_period room (progress_of self.old)) }
    {
        let condition = self.condition(room)?;
        let inner = self.block(room)?;
        Ok(Statement::If(condition, inner))
    }

    /// stmt : if any block | run string | set-state string, if one comes next
    #[cycle(statements)]
    fn statement(&mut self, room: u32) -> Result<Option<Action>, ParseFault>
        ensures { IsAsRead (λ s. (s, progress_of self.new)) result (reading.statement words.fits_period room (progress_of self.old)) }
    {
        if let Some(place) = self.accept(Mark::If) {
            return Ok(Some(self.conditional(within(room, place)?)?));
        }
        if self.accept(Mark::Run).is_some() {
            return Ok(Some(Statement::Run(self.string()?)));
        }
        match self.accept(Mark::SetState) {
            Some(place) => {
                let state = self.string()?;
                Ok(Some(Statement::SetState(Wish { place, state })))
            }
            None => Ok(None),
        }
    }

    /// { stmt }
    #[cycle(statements)]
    fn statements(&mut self, room: u32) -> Result<Vec<Action>, ParseFault>
        ensures { IsAsRead
            (λ all. (all.items, progress_of self.new))
            result
            (many (reading.statement words.fits_period room) rules.with_last [] (progress_of self.old)) }
    {
        let mut all = Vec::new(self.alloc);
        for _turn in 0..self.left.len() {
            match self.statement(room) {
                Ok(Some(next)) => all.push(next)?,
                Ok(None) => return Ok(all),
                Err(fault) => return Err(fault),
            }
        }
        Ok(all)
    }

    /// block : stmt | "{" { stmt } "}"
    #[cycle(statements)]
    fn block(&mut self, room: u32) -> Result<Actions, ParseFault>
        ensures { IsAsRead (λ b. (b, progress_of self.new)) result (reading.block (reading.statement words.fits_period room) (progress_of self.old)) }
    {
        if self.accept(Mark::BraceOpen).is_some() {
            let statements = self.statements(room)?;
            self.expect(Mark::BraceClose)?;
            return Ok(Block::new(statements));
        }
        match self.statement(room)? {
            Some(only) => {
                let mut statements = Vec::new(self.alloc);
                statements.push(only)?;
                Ok(Block::new(statements))
            }
            None => Err(self.unexpected()),
        }
    }

    /// init block | stmt, if one comes next
    fn part(&mut self, room: u32) -> Result<Option<Part>, ParseFault>
        ensures { IsAsRead (λ p. (p, progress_of self.new)) result (reading.part (reading.statement words.fits_period room) (progress_of self.old)) }
    {
        if let Some(place) = self.accept(Mark::Init) {
            return Ok(Some(Part::Init(place, self.block(room)?)));
        }
        Ok(self.statement(room)?.map(Part::Do))
    }

    /// { init block | stmt }
    fn parts(&mut self, room: u32) -> Result<Vec<Part>, ParseFault>
        ensures { IsAsRead
            (λ all. (all.items, progress_of self.new))
            result
            (many (reading.part (reading.statement words.fits_period room)) rules.with_last [] (progress_of self.old)) }
    {
        let mut all = Vec::new(self.alloc);
        for _turn in 0..self.left.len() {
            match self.part(room) {
                Ok(Some(next)) => all.push(next)?,
                Ok(None) => return Ok(all),
                Err(fault) => return Err(fault),
            }
        }
        Ok(all)
    }

    /// What follows `state` : string "{" { init block | stmt } "}"
    fn state(&mut self, room: u32) -> Result<Item, ParseFault>
        ensures { IsAsRead
            (λ i. (i, progress_of self.new))
            result
            (reading.state_item (reading.part (reading.statement words.fits_period room)) (progress_of self.old)) }
    {
        let name = self.string()?;
        self.expect(Mark::BraceOpen)?;
        let parts = self.parts(room)?;
        self.expect(Mark::BraceClose)?;
        Ok(Item::State(name, Items::new(parts)))
    }

    /// init-state string | state string "{" { init block | stmt } "}" | init block | stmt, if one comes next
    fn item(&mut self, room: u32) -> Result<Option<Item>, ParseFault>
        ensures { IsAsRead
            (λ i. (i, progress_of self.new))
            result
            (reading.item (reading.part (reading.statement words.fits_period room)) (progress_of self.old)) }
    {
        if let Some(place) = self.accept(Mark::InitState) {
            return Ok(Some(Item::InitState(place, self.string()?)));
        }
        if self.accept(Mark::State).is_some() {
            return Ok(Some(self.state(room)?));
        }
        Ok(self.part(room)?.map(Item::Always))
    }

    /// The items of a file
    fn items(&mut self, room: u32) -> Result<Vec<Item>, ParseFault>
        ensures { IsAsRead
            (λ all. (all.items, progress_of self.new))
            result
            (many (reading.item (reading.part (reading.statement words.fits_period room))) rules.with_last [] (progress_of self.old)) }
    {
        let mut all = Vec::new(self.alloc);
        for _turn in 0..self.left.len() {
            match self.item(room) {
                Ok(Some(next)) => all.push(next)?,
                Ok(None) => return Ok(all),
                Err(fault) => return Err(fault),
            }
        }
        Ok(all)
    }

    /// file : { init-state string | state string "{" { init block | stmt } "}" | init block | stmt }, and the end
    pub fn file(&mut self, room: u32) -> Result<Vec<Item>, ParseFault>
        ensures { IsAsRead
            (λ all. (all.items, progress_of self.new))
            result
            (reading.items (reading.item (reading.part (reading.statement words.fits_period room))) (progress_of self.old)) }
    {
        let all = self.items(room)?;
        self.expect(Mark::End)?;
        Ok(all)
    }
}

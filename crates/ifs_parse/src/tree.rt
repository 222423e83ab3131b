//! The tree of a policy.

ghost use Rattle.std.specs.Prelude.{◌≡◌};
ghost use Rattle.ifs_parse.specs.Files.{file};
ghost use Rattle.ifs_parse.specs.Grammar.{IsSaid};

use crate::block::{Block, Statement};
use crate::period::Period;
use ifs_base::{Items, LinkState, Text};
use ifs_lex::TokenPlace;
use std::marker::Model;

/// A string of a policy, and its place.
#[derive(Debug, Drop)]
pub struct Name {
    pub text: Text,
    pub place: TokenPlace,
}

/// A leaf of a condition.
#[derive(Debug, Drop)]
pub enum Test {
    /// Whether an interface has a link state.
    Link(Name, LinkState),
    /// Whether a command that runs with this period ended well.
    External(Name, Period),
}

/// A wish for a state: the place of the word `set-state`, and the name of the state.
#[derive(Debug, Drop)]
pub struct Wish {
    pub place: TokenPlace,
    pub state: Name,
}

/// A block of a policy.
pub type Actions = Block<Test, Name, Wish>;

/// A statement of a policy.
pub type Action = Statement<Test, Name, Wish>;

/// A part of a state, or a part outside any state.
#[derive(Drop)]
pub enum Part {
    /// The place of the word `init`, and its block.
    Init(TokenPlace, Actions),
    /// A statement.
    Do(Action),
}

/// An item of a policy.
#[derive(Drop)]
pub enum Item {
    /// The place of the word `init-state`, and the name of the state.
    InitState(TokenPlace, Name),
    /// The name of a state, and its parts in order.
    State(Name, Items<Part>),
    /// A part outside any state.
    Always(Part),
}

/// A policy as its text says it, with notes.
pub struct Tree {
    items: Vec<Item>,
    notes: Vec<u32>,
}

impl Drop for Tree {
    fn drop(self) {
        let Tree {
            items: _items,
            notes: _notes,
        } = self;
    }
}

impl Model for Tree {
    ghost use Rattle.ifs_parse.specs.Files.{File, file};
    ghost use Rattle.std.specs.Coded.{codes};
    ghost use Rattle.ifs_parse.specs.contracts.tree.Item as item;

    ghost Value = { File };

    ghost coded = { Prim.hlevel (codes, item.the_row.coded) };

    ghost use Rattle.ifs_parse.specs.Grammar.{IsSaid};

    ghost view = { λ a. file a.items.items a.notes.items };

    ghost invariant = { λ a. IsSaid (file a.items.items a.notes.items) };
}

impl Tree {
    /// Makes a tree of items and notes. It allocates nothing.
    pub(crate) fn new(items: Vec<Item>, notes: Vec<u32>) -> Self
        requires { IsSaid (file items.items notes.items) }
        ensures { result ≡ file items.items notes.items }
    {
        Tree { items, notes }
    }

    /// Returns the items, in text order.
    pub fn items(&self) -> &[Item]
        ensures items { result.now ≡ self.now.items }
        // Some tokens say the file, so it keeps within the limits of the grammar.
        ensures said { IsSaid self.now }
    {
        self.items.as_slice()
    }

    /// Returns the lines of the notes, in text order. A note is about a `||` beside a `&&` without parentheses.
    pub fn notes(&self) -> &[u32]
        ensures { result.now ≡ self.now.notes }
    {
        self.notes.as_slice()
    }
}

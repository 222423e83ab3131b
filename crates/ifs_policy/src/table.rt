//! A table of distinct entries, found by hash.

ghost use Rattle.std.specs.Prelude.{◌≡◌, ◌≤◌, ◌<◌, ◌↔◌, [], length, slice_get};
ghost use Rattle.std.specs.Prelude.{option_copied, position, IsSome, IfSome, IfOk, OnOk, OnErr};
ghost use Rattle.std.specs.List.{list_any};
ghost use Rattle.indexmap.specs.IndexSet.{insert_key};

use indexmap::IndexSet;
use std::alloc::{AllocFailed, Global};
use std::hash::Hash;
use std::marker::Model;

/// Distinct entries in the order of their insertion. Clauses see the list of entries.
pub struct Table<T: Eq + Hash> {
    entries: IndexSet<T>,
}

impl<T: Eq + Hash + Drop> Drop for Table<T> {
    fn drop(self) {
        let Table { entries: _entries } = self;
    }
}

impl<T: Eq + Hash> Model for Table<T> {
    ghost use Rattle.std.specs.Prelude.{List};

    ghost Value = { List T };

    ghost view = { λ a. a.entries.keys };
}

impl<T: Eq + Hash + Drop> Table<T> {
    /// An empty table. Does not allocate.
    pub fn new(alloc: Global) -> Self
        ensures { result ≡ [] }
    {
        Table {
            entries: IndexSet::new(alloc),
        }
    }

    /// The number of entries.
    pub fn len(&self) -> usize
        ensures { result ≡ length self.now }
    {
        self.entries.len()
    }

    /// The entry at an index.
    pub fn get(&self, index: usize) -> Option<&T>
        ensures value { option_copied result ≡ slice_get self.now index }
        ensures known { IsSome result ↔ (index < length self.now) }
    {
        self.entries.get_index(index)
    }

    /// Whether an entry is in the table.
    pub fn has(&self, entry: &T) -> bool
        ensures { result ≡ list_any (T.eq entry.now) self.now }
    {
        self.entries.contains(entry)
    }

    /// The index of an entry, or `None` if it is not in the table.
    pub fn place_of(&self, entry: &T) -> Option<usize>
        ensures place { result ≡ position (T.eq entry.now) self.now }
        ensures within { IfSome result (λ place. place < length self.now) }
    {
        self.entries.get_index_of(entry)
    }

    /// Appends an entry, unless it is in the table already. An `Err` changes nothing.
    pub fn insert(&mut self, entry: T) -> Result<(), AllocFailed<T>>
        ensures entries { OnOk result (self.new ≡ insert_key T.eq self.old entry) }
        ensures unchanged { OnErr result (self.new ≡ self.old) }
    {
        self.entries.insert(entry)?;
        Ok(())
    }
}

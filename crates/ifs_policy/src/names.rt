//! Mentions fill the tables, and are checked against the rules.

ghost use Rattle.std.specs.Prelude.{◌≡◌, true, false, map, IsTrue, IfErr, OnOk};
ghost use Rattle.ifs_base.specs.Sizes.{TextFits};
ghost use Rattle.ifs_policy.specs.declared.fault.ResolveFault.TheVariants.{BadText, SecondInit};
ghost use Rattle.ifs_policy.specs.Tables.{no_names, test_eq, test_of, text_eq};
ghost use Rattle.ifs_policy.specs.declared.mention.Mention.TheVariants.{Defined, External};
ghost use Rattle.ifs_policy.specs.inner.Entries.{AllNoted, Enters, Filled, MentionNoted, StatesChecked};
ghost use Rattle.ifs_policy.specs.inner.Seen.{seen};

use crate::fault::ResolveFault;
use crate::mention::{Half, Mention, Owner};
use crate::table::Table;
use crate::tables::{ExternalTest, Tables, test_of};
use ifs_base::{Text, limits};
use ifs_lex::TokenPlace;
use ifs_parse::{Name, Period};
use std::alloc::Global;
use std::hash::Hash;

/// The tables at a place of a text, and which of the words that may occur once have occurred.
#[derive(Drop)]
pub struct Names {
    pub tables: Tables,
    /// The part outside any state has an `init`.
    pub always_init: bool,
    /// The state that was defined last has an `init`.
    pub state_init: bool,
    /// An `init-state` has occurred.
    pub init_state: bool,
}

impl Names {
    /// Empty tables. Does not allocate.
    pub fn new(alloc: Global) -> Self
        ensures { result ≡ no_names }
    {
        Names {
            tables: Tables {
                interfaces: Table::new(alloc),
                tests: Table::new(alloc),
                commands: Table::new(alloc),
                states: Table::new(alloc),
            },
            always_init: false,
            state_init: false,
            init_state: false,
        }
    }

    /// Enters the mentions of a text in order. Then checks that each target is a defined state.
    pub fn fill(&mut self, mentions: &[Mention<&Name, &Period>]) -> Result<(), ResolveFault>
        ensures { Filled self.old (map seen mentions.now) result self.new }
    {
        self.note_all(mentions)?;
        check_states(&self.tables.states, mentions)?;
        Ok(())
    }

    /// Enters mentions in text order, or returns the first fault.
    fn note_all(&mut self, mentions: &[Mention<&Name, &Period>]) -> Result<(), ResolveFault>
        ensures { AllNoted self.old (map seen mentions.now) result self.new }
    {
        for mention in mentions {
            self.note(mention)?;
        }
        Ok(())
    }

    /// Enters a mention, or returns the lowest rule that it breaks.
    fn note(&mut self, mention: &Mention<&Name, &Period>) -> Result<(), ResolveFault>
        ensures { MentionNoted self.old (seen mention.now) result self.new }
    {
        match mention {
            Mention::Interface(name) => {
                enter_text(&mut self.tables.interfaces, limits::INTERFACES, name)
            }
            Mention::External(half, command, period) => self.note_test(*half, command, **period),
            Mention::Command(text) => {
                enter_text(&mut self.tables.commands, limits::COMMANDS, text)
            }
            Mention::Defined(name) => self.note_state(name),
            Mention::Target(name) => check_text(name),
            Mention::Init(owner, place) => match owner {
                Owner::Always => occur_once(&mut self.always_init, *place),
                Owner::State => occur_once(&mut self.state_init, *place),
            },
            Mention::InitState(place) => occur_once(&mut self.init_state, *place),
            Mention::SetState(half, place) => match half {
                Half::Init => Err(ResolveFault::SetStateInInit(*place)),
                Half::Body => Ok(()),
            },
        }
    }

    /// Enters an external test, which only a body may contain.
    fn note_test(&mut self, half: Half, command: &Name, period: Period) -> Result<(), ResolveFault>
        ensures { MentionNoted self.old (External half command.now period) result self.new }
    {
        match half {
            Half::Init => Err(ResolveFault::TestInInit(command.place)),
            Half::Body => enter_test(&mut self.tables.tests, command, period),
        }
    }

    /// Enters the name of a state. The state begins without an `init`.
    fn note_state(&mut self, name: &Name) -> Result<(), ResolveFault>
        ensures { MentionNoted self.old (Defined name.now) result self.new }
    {
        if self.tables.states.has(&name.text) {
            return Err(ResolveFault::StateTwice(name.place));
        }
        self.state_init = false;
        enter_text(&mut self.tables.states, limits::STATES, name)
    }
}

/// Rejects the first target that is not in the table of states.
fn check_states(
    states: &Table<Text>,
    mentions: &[Mention<&Name, &Period>],
) -> Result<(), ResolveFault>
    ensures { StatesChecked states.now (map seen mentions.now) result }
{
    for mention in mentions {
        if let Mention::Target(name) = mention
            && !states.has(&name.text)
        {
            return Err(ResolveFault::UnknownState(name.place));
        }
    }
    Ok(())
}

/// Enters a string into its table, if there is room and the string is valid.
fn enter_text(table: &mut Table<Text>, limit: u16, name: &Name) -> Result<(), ResolveFault>
    ensures { Enters text_eq limit name.now.text name.now table.old result table.new }
{
    let entry = name.text.clone()?;
    enter(table, limit, entry, name)
}

/// Enters a test into its table, if there is room and its command is valid.
fn enter_test(
    table: &mut Table<ExternalTest>,
    command: &Name,
    period: Period,
) -> Result<(), ResolveFault>
    ensures { Enters test_eq 64 (test_of command.now period) command.now table.old result table.new }
{
    let entry = test_of(command, period)?;
    enter(table, limits::TESTS, entry, command)
}

/// Enters an entry into its table, if there is room and its string is valid.
fn enter<T: Eq + Hash + Drop>(
    table: &mut Table<T>,
    limit: u16,
    entry: T,
    name: &Name,
) -> Result<(), ResolveFault>
    ensures { Enters T.eq limit entry name.now table.old result table.new }
{
    if !table.has(&entry) && table.len() >= usize::from(limit) {
        return Err(ResolveFault::TableFull(name.place));
    }
    check_text(name)?;
    table.insert(entry)?;
    Ok(())
}

/// Rejects a string that is empty, too long or contains a NUL.
fn check_text(name: &Name) -> Result<(), ResolveFault>
    ensures fits { OnOk result (TextFits name.now.text) }
    ensures refused { IfErr result (λ fault. (fault ≡ BadText name.now.place) × (¬ TextFits name.now.text)) }
{
    if !limits::text_fits(name.text.as_bytes()) {
        return Err(ResolveFault::BadText(name.place));
    }
    Ok(())
}

/// Notes an occurrence of a word that may occur once.
fn occur_once(occurs: &mut bool, place: TokenPlace) -> Result<(), ResolveFault>
    ensures first { OnOk result ((occurs.old ≡ false) × (occurs.new ≡ true)) }
    ensures refused { IfErr result (λ fault. (fault ≡ SecondInit place) × IsTrue occurs.old) }
{
    if *occurs {
        return Err(ResolveFault::SecondInit(place));
    }
    *occurs = true;
    Ok(())
}

//! Whether parts fit the limits of the format.

ghost use Rattle.std.specs.Prelude.{◌≡◌, ◌↔◌, ◌≤◌, ◌⊎◌, [], ◌∷◌, All, IsTrue};
ghost use Rattle.ifs_image.specs.Limits.{Fits, IsVersion, BudgetsFit, CountsFit, TestFits, IsPlain, RoutineFits, RoutinesFit};
ghost use Rattle.ifs_image.specs.Limits.{NamesFit, StatesFit, AreDistinct, names_of, instructions, code_limit};
ghost use Rattle.ifs_base.specs.declared.op.Kind.{Kind};
ghost use Rattle.ifs_base.specs.declared.op.Kind.TheVariants.{Truth};
ghost use Rattle.ifs_base.specs.Sizes.{TextFits};
ghost use Rattle.std.specs.List.{list_any};
ghost use Rattle.std.specs.Str.{bytes_eq};
ghost use Rattle.ifs_image.specs.Reading.{stands_in};

use crate::limits;
use crate::parts::{Budgets, ImageParts, Routine, StateSpec, TestSpec};
use ifs_base::{Kind, Text};

impl ImageParts {
    /// Whether all limits hold, and the names of interfaces and of states are distinct.
    pub fn fits(&self) -> bool
        ensures { IsTrue result ↔ Fits self.now }
    {
        is_version(self.version) && self.budgets.fit() && self.counts_fit() && self.tables_fit()
    }

    fn tables_fit(&self) -> bool
        ensures { IsTrue result ↔ (NamesFit self.now.interfaces × All TestFits self.now.tests × All TextFits self.now.commands × StatesFit self.now.states
            × RoutinesFit self.now.version self.now.routines) }
    {
        names_fit(self.interfaces.as_slice())
            && self.tests.as_slice().iter().all(test_fits)
            && self.commands.as_slice().iter().all(text_fits)
            && states_fit(self.states.as_slice())
            && routines_fit(self.version, self.routines.as_slice())
    }

    fn counts_fit(&self) -> bool
        ensures { IsTrue result ↔ CountsFit self.now }
    {
        self.interfaces.len() <= usize::from(limits::INTERFACES)
            && self.tests.len() <= usize::from(limits::TESTS)
            && self.commands.len() <= usize::from(limits::COMMANDS)
            && 1 <= self.states.len()
            && self.states.len() <= usize::from(limits::STATES)
            && self.routines.len() <= usize::from(limits::ROUTINES)
    }
}

impl Budgets {
    fn fit(&self) -> bool
        ensures { IsTrue result ↔ BudgetsFit self.now }
    {
        self.stack <= limits::STACK
            && self.frames <= limits::FRAMES
            && self.cost <= limits::EVENT_COST
            && self.commands <= limits::COMMANDS_OF_EVENT
    }
}

fn text_fits(text: &Text) -> bool
    ensures { IsTrue result ↔ TextFits text.now }
{
    limits::text_fits(text.as_bytes())
}

fn test_fits(test: &TestSpec) -> bool
    ensures { IsTrue result ↔ TestFits test.now }
{
    limits::period_fits(test.period) && text_fits(&test.text)
}

fn is_version(version: u8) -> bool
    ensures { IsTrue result ↔ IsVersion version }
{
    1 <= version && version <= limits::VERSIONS
}

fn routine_fits(version: u8, routine: &Routine) -> bool
    ensures { IsTrue result ↔ RoutineFits version routine.now }
{
    (version == 2 || is_plain(routine))
        && routine.code.len() <= usize::from(limits::CODE_OF_ROUTINE)
}

/// Whether a routine has no parameters, and no result or one truth.
fn is_plain(routine: &Routine) -> bool
    ensures { IsTrue result ↔ IsPlain routine.now }
{
    routine.params.is_empty() && are_truths(routine.results.as_slice())
}

/// Whether there are no kinds, or one truth.
fn are_truths(kinds: &[Kind]) -> bool
    ensures { IsTrue result ↔ ((kinds.now ≡ []) ⊎ (kinds.now ≡ Truth ∷ [])) }
{
    match kinds {
        [] | [Kind::Truth] => true,
        _ => false,
    }
}

/// Whether a table has a name.
fn is_among(names: &[Text], name: &[u8]) -> bool
    ensures { result ≡ stands_in name.now names.now }
{
    names.iter().any(|other| other.as_bytes() == name)
}

/// Whether a state of a table has a name.
fn is_name_among(states: &[StateSpec], name: &[u8]) -> bool
    ensures { result ≡ stands_in name.now (names_of states.now) }
{
    have_name(states, name)
}

fn have_name(states: &[StateSpec], name: &[u8]) -> bool
    ensures { result ≡ list_any (λ s. bytes_eq s.name name.now) states.now }
{
    states.iter().any(|other| other.name.as_bytes() == name)
}

fn names_fit(names: &[Text]) -> bool
    ensures { IsTrue result ↔ NamesFit names.now }
{
    names.iter().all(text_fits) && are_distinct(names)
}

fn states_fit(states: &[StateSpec]) -> bool
    ensures { IsTrue result ↔ StatesFit states.now }
{
    states.iter().all(|state| text_fits(&state.name)) && have_distinct_names(states)
}

fn routines_fit(version: u8, routines: &[Routine]) -> bool
    ensures { IsTrue result ↔ RoutinesFit version routines.now }
{
    routines
        .iter()
        .all(|routine| routine_fits(version, routine))
        && code_fits(version, routines)
}

fn are_distinct(names: &[Text]) -> bool
    ensures { IsTrue result ↔ AreDistinct names.now }
{
    for (i, name) in names.iter().enumerate() {
        if is_among(&names[..i], name.as_bytes()) {
            return false;
        }
    }
    true
}

fn have_distinct_names(states: &[StateSpec]) -> bool
    ensures { IsTrue result ↔ AreDistinct (names_of states.now) }
{
    for (i, state) in states.iter().enumerate() {
        if is_name_among(&states[..i], state.name.as_bytes()) {
            return false;
        }
    }
    true
}

/// Whether the instructions of all routines together are within their limit; stops at the first routine beyond it.
fn code_fits(version: u8, routines: &[Routine]) -> bool
    ensures { IsTrue result ↔ (instructions routines.now ≤ code_limit version) }
{
    let mut room = usize::from(limits::code_of_image(version));
    for routine in routines {
        let length = routine.code.len();
        if room < length {
            return false;
        }
        room -= length;
    }
    true
}

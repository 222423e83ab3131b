//! What an edit of a policy changes.

ghost use Rattle.std.specs.Bool.{OnFalse, OnTrue};
ghost use Rattle.std.specs.Prelude.{◌≡◌, ◌≢◌, ◌⊎◌, ◌&&◌, ◌<◌, ◌^◌, true, IfOk, length};
ghost use Rattle.ifs_policy.specs.Fits.{PolicyFits};
ghost use Rattle.ifs_gen.specs.PlainSizes.{room_of};
ghost use Rattle.ifs_compare.specs.Alike.{is_same, IsTheSame};
ghost use Rattle.ifs_compare.specs.Differing.{blocks_of, blocks_over, AreOther, DoDiffer};
ghost use Rattle.ifs_compare.specs.Renumbering.{HaveSameNames};
ghost use Rattle.ifs_compare.specs.Spent.{IsUsedUp};
ghost use Rattle.ifs_compare.specs.inner.Comparing.{scope_in, AreAlikeOver, AreOfPolicy, AreOfRenumbered, AreSidesAlike, IsSameButRoom};
ghost use Rattle.ifs_compare.specs.inner.Numbering.{HasNumbers};
ghost use Rattle.ifs_compare.specs.inner.Telling.{blocks_made, AreNamedTold, AreTold, IsConcluded, IsRoomTold};

use crate::answers::{Compared, Difference};
use crate::effort::Effort;
use crate::joining::{adjusted, joined};
use crate::names::{have_same_names, report_names};
use crate::parts::judge_sides;
use crate::renumbering::{Numbering, Renumbered, has_numbers, renumber};
use crate::reporting::{Case, report};
use crate::sides::{Means, Side, Sides, Stage};
use crate::wording::{put_all_open, report_rooms};
use ifs_play::CompiledPolicy;
use ifs_policy::{Policy, Tables};
use ifs_solver::Scope;
use std::alloc::{AllocError, Global};

/// Says what an edit of a policy changes: names that only one of the two has, and states in which an evaluation leads
/// elsewhere, runs other commands or has other active tests. Each evaluation and each init is compared under all facts, by at
/// most 20,000 situations at a time, and all together by 500,000. What is not decided then is named. Returns an error if an
/// allocation fails.
pub fn compare(
    alloc: Global,
    old: &CompiledPolicy,
    new: &CompiledPolicy,
) -> Result<Compared, AllocError>
    // If nothing differs and nothing is undecided, the policies have the same names, and do the same with the same numbers.
    ensures same { IfOk result (λ compared. is_same compared ≡ true → IsTheSame old.now new.now) }
    // A difference is reported only of policies that differ.
    ensures told { IfOk result (λ compared. 0 < length compared.differences.items → DoDiffer old.now new.now) }
{
    let mut effort = Effort::of(old, new);
    let compared = compare_within(alloc, old, new, &mut effort)?;
    Ok(compared)
}

/// The same with these situations to look at. Some of those that are left are used to find facts and requests.
pub fn compare_within(
    alloc: Global,
    old: &CompiledPolicy,
    new: &CompiledPolicy,
    effort: &mut Effort,
) -> Result<Compared, AllocError>
    ensures same { IfOk result (λ compared. is_same compared ≡ true → IsTheSame old.now new.now) }
    ensures told { IfOk result (λ compared. 0 < length compared.differences.items → DoDiffer old.now new.now) }
    // Where the names are the same, something is undecided only if the situations are used up, or the policies are not the same.
    ensures undecided { IfOk result (λ compared. HaveSameNames old.now.tables new.now.tables → 0 < length compared.undecided.items → IsUsedUp effort.old effort.new ⊎ AreOther old.now new.now) }
{
    let mut found = Compared::new(alloc);
    let (before, after) = (old.policy(), new.policy());
    let means = Means { old, new };
    let alike = compare_named(alloc, before, after, means, effort, &mut found)?;
    let same_room = compare_rooms(alloc, old, new, &mut found.differences)?;
    let same = both(alike, same_room);
    let compared = concluded(alloc, found, same)?;
    Ok(compared)
}

/// Says whether events of two policies may queue as many commands.
fn compare_rooms(
    alloc: Global,
    old: &CompiledPolicy,
    new: &CompiledPolicy,
    differences: &mut Vec<Difference>,
) -> Result<bool, AllocError>
    ensures { IfOk result (λ same. IsRoomTold old.now new.now same differences.old.items differences.new.items) }
{
    let same = has_same_room(old, new);
    if !same {
        report_rooms(alloc, old, new, differences)?;
    }
    Ok(same)
}

/// Both are so.
fn both(one: bool, other: bool) -> bool
    ensures { result ≡ (one && other) }
{
    one && other
}

/// Whether events of two policies may queue as many commands.
fn has_same_room(old: &CompiledPolicy, new: &CompiledPolicy) -> bool
    ensures same { OnTrue result (room_of old.now ≡ room_of new.now) }
    ensures apart { OnFalse result (room_of old.now ≢ room_of new.now) }
{
    old.budgets().commands == new.budgets().commands
}

/// What is said of two policies that are not the same, or are. If it is not known to be so, and no difference was found, that is
/// a question that is not decided.
fn concluded(alloc: Global, found: Compared, same: bool) -> Result<Compared, AllocError>
    ensures { IfOk result (λ compared. IsConcluded same found compared) }
{
    if same || !found.is_same() {
        return Ok(found);
    }
    let compared = opened(alloc, found)?;
    Ok(compared)
}

/// The same with a question on everything.
fn opened(alloc: Global, found: Compared) -> Result<Compared, AllocError>
    ensures differences { IfOk result (λ compared. compared.differences.items ≡ found.differences.items) }
    ensures undecided { IfOk result (λ compared. 0 < length compared.undecided.items) }
{
    let mut found = found;
    put_all_open(alloc, &mut found.undecided)?;
    Ok(found)
}

/// The numbers of a policy refer to states that it has.
fn fits(policy: &Policy)
    ensures { PolicyFits policy.now }
{
    let _counts = policy.counts();
}

/// Compares two policies, over the tables of the old one if they have the same names, else over tables that have all names.
/// Returns whether they are known to do the same.
fn compare_named(
    alloc: Global,
    old: &Policy,
    new: &Policy,
    means: Means<'_>,
    effort: &mut Effort,
    found: &mut Compared,
) -> Result<bool, AllocError>
    ensures alike { IfOk result (λ alike. OnTrue alike (IsSameButRoom old.now new.now)) }
    ensures told { IfOk result (λ alike. AreNamedTold old.now new.now effort.old effort.new alike found.old found.new) }
{
    if !have_same_names(old.tables(), new.tables()) {
        compare_apart(alloc, old, new, means, effort, found)?;
        return Ok(false);
    }
    fits(old);
    let numbering = Numbering {
        from: new.tables(),
        to: old.tables(),
    };
    let alike = compare_over(alloc, old, new, numbering, means, effort, found)?;
    Ok(alike)
}

/// Compares two policies that do not have the same names.
fn compare_apart(
    alloc: Global,
    old: &Policy,
    new: &Policy,
    means: Means<'_>,
    effort: &mut Effort,
    found: &mut Compared,
) -> Result<(), AllocError> {
    report_names(alloc, old.tables(), new.tables(), &mut found.differences)?;
    let from = adjusted(alloc, old.tables(), new.tables())?;
    let to = joined(alloc, old.tables(), &from)?;
    if !has_numbers(&to) {
        return put_all_open(alloc, &mut found.undecided);
    }
    let numbering = Numbering {
        from: &from,
        to: &to,
    };
    compare_over(alloc, old, new, numbering, means, effort, found)?;
    Ok(())
}

/// The links and tests of tables.
fn scope_of(tables: &Tables) -> Scope
    ensures { result ≡ scope_in tables.now }
{
    Scope {
        links: tables.interfaces.len(),
        tests: tables.tests.len(),
    }
}

/// Compares two policies over these tables, in which the old one has its own numbers. Returns whether they are known to do the
/// same.
fn compare_over(
    alloc: Global,
    old: &Policy,
    new: &Policy,
    numbering: Numbering<'_>,
    means: Means<'_>,
    effort: &mut Effort,
    found: &mut Compared,
) -> Result<bool, AllocError>
    requires { HasNumbers numbering.to.now }
    ensures alike { IfOk result (λ alike. OnTrue alike (AreAlikeOver numbering.entry.from.now numbering.entry.to.now old.now new.now)) }
    ensures told { IfOk result (λ alike. AreTold (scope_in numbering.entry.to.now) (blocks_of old.now) (blocks_over numbering.entry.from.now numbering.entry.to.now new.now) effort.old effort.new alike found.old found.new) }
{
    let renumbered = renumber(alloc, new, numbering)?;
    let tables = numbering.to;
    let alike = compare_renumbered(alloc, old, tables, &renumbered, means, effort, found)?;
    Ok(alike)
}

/// Compares two policies. The new one has the numbers of these tables.
fn compare_renumbered<'a>(
    alloc: Global,
    old: &'a Policy,
    tables: &'a Tables,
    renumbered: &'a Renumbered,
    means: Means<'a>,
    effort: &mut Effort,
    found: &mut Compared,
) -> Result<bool, AllocError>
    requires tests { length tables.now.tests < 2 ^ 16 }
    requires states { length renumbered.now.states < 2 ^ 16 }
    ensures alike { IfOk result (λ alike. OnTrue alike (AreSidesAlike (scope_in tables.now) old.now.initial renumbered.now.initial old.now.always renumbered.now.always old.now.states renumbered.now.states)) }
    ensures told { IfOk result (λ alike. AreTold (scope_in tables.now) (blocks_of old.now) (blocks_made renumbered.now) effort.old effort.new alike found.old found.new) }
{
    let sides = sides_of(old, renumbered);
    let scope = scope_of(tables);
    let judged = judge_sides(alloc, scope, sides, effort)?;
    let case = Case {
        stage: Stage {
            alloc,
            old: means.old,
            new: means.new,
            tables,
            scope,
            sides,
        },
        judged: &judged,
    };
    report(&case, *effort, found)?;
    Ok(judged.alike)
}

/// The blocks of both policies.
fn sides_of<'a>(old: &'a Policy, renumbered: &'a Renumbered) -> Sides<'a>
    ensures old { AreOfPolicy result.old old.now }
    ensures new { AreOfRenumbered result.new renumbered.now }
{
    Sides {
        old: Side {
            initial: old.initial(),
            always: old.always(),
            states: old.states(),
        },
        new: Side {
            initial: renumbered.initial,
            always: &renumbered.always,
            states: renumbered.states.as_slice(),
        },
    }
}

//! From the tree of a text to its policy.

ghost use Rattle.std.specs.Prelude.{◌≡◌, ◌≢◌, ◌↔◌, ℕ, IsTrue, IfOk, IfErr, false, Err, map};
ghost use Rattle.std.specs.List.{list_any};
ghost use Rattle.ifs_policy.specs.declared.fault.ResolveFault.TheVariants.{Memory, NoState};
ghost use Rattle.ifs_policy.specs.declared.policy.PolicyParts.{PolicyParts};
ghost use Rattle.ifs_policy.specs.Mentions.{mentions_of};
ghost use Rattle.ifs_policy.specs.Faults.{IsTreeRefused, is_state};
ghost use Rattle.ifs_policy.specs.Resolution.{Resolves};
ghost use Rattle.ifs_policy.specs.Tables.{no_names};
ghost use Rattle.ifs_policy.specs.inner.Entries.{IsFirst};
ghost use Rattle.ifs_policy.specs.inner.Seen.{seen};
ghost use Rattle.ifs_policy.specs.inner.Walked.{Walked};

use crate::fault::ResolveFault;
use crate::mention::{Mentions, mention_item};
use crate::names::Names;
use crate::placing::{PolicyTrees, place_items};
use crate::policy::{Policy, PolicyParts};
use ifs_parse::{Item, Tree};
use std::alloc::{AllocError, Global};

/// The policy of a tree, or the first fault with its place. A tree without a state comes first, then the first
/// mention that breaks a rule, with the lowest such rule, then the first unknown state. P0 may come in place of
/// any other result, except that of a tree without a state.
pub fn resolve(alloc: Global, tree: &Tree) -> Result<Policy, ResolveFault>
    // The result is the policy of the tree.
    ensures policy { IfOk result (λ policy. Resolves tree.now.items policy) }
    // A fault other than P0 is the first one.
    ensures refused { IfErr result (λ fault. fault ≢ Memory → IsTreeRefused tree.now.items fault) }
    // It comes only if the tree has no policy.
    ensures none { IfErr result (λ fault. fault ≢ Memory → (policy : PolicyParts) → ¬ Resolves tree.now.items policy) }
    // A tree without a state is reported before the first allocation.
    ensures at_once { list_any is_state tree.now.items ≡ false → result ≡ Err (NoState 1) }
{
    let items = tree.items();
    if !has_state(items) {
        return Err(ResolveFault::NoState { line: 1 });
    }
    let mut names = Names::new(alloc);
    let PolicyTrees {
        initial,
        always,
        states,
    } = walk(alloc, &mut names, items)?;
    Ok(Policy::new(PolicyParts {
        tables: names.tables,
        initial,
        always,
        states,
    }))
}

/// Fills empty tables with the mentions of items, and replaces the names of the items by places.
fn walk(alloc: Global, names: &mut Names, items: &[Item]) -> Result<PolicyTrees, ResolveFault>
    requires { names.old ≡ no_names }
    ensures walked { IfOk result (λ placed. Walked items.now placed names.new) }
    ensures refused { IfErr result (λ fault. fault ≢ Memory → IsFirst no_names (mentions_of items.now) fault) }
{
    let mentions = mentions_of(alloc, items)?;
    names.fill(mentions.as_slice())?;
    let placed = place_items(alloc, &names.tables, items)?;
    Ok(placed)
}

/// Whether an item defines a state.
fn has_state(items: &[Item]) -> bool
    ensures { result ≡ list_any is_state items.now }
{
    for item in items {
        if let Item::State(..) = item {
            return true;
        }
    }
    false
}

/// The mentions of items, in text order.
fn mentions_of<'a>(alloc: Global, items: &'a [Item]) -> Result<Mentions<'a>, AllocError>
    ensures { IfOk result (λ mentions. map seen mentions.items ≡ mentions_of items.now) }
{
    let mut mentions = Vec::new(alloc);
    for item in items {
        mention_item(item, &mut mentions)?;
    }
    Ok(mentions)
}

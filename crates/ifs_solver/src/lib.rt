//! What is said of a policy whatever its links and tests are: conditions that are never or always true, commands and
//! `set-state`s that nothing reaches, and states that nothing enters or leaves.
//!
//! A question is a list of constraints on the facts of one evaluation. A search in sets of facts answers it. Within a
//! set, each part of a condition is true, is false, or depends on a fact, at which the set is then split.
//! What a handler reaches is known in the same way, or the fact on which it depends.
//! Contract: `judge_places` answers for each place of a policy, and `judge_states` for each state. An answer is right in
//! both ways, with facts that show it, or it is `Undecided` since the budget ran out.
#![tactic(auto)]

mod answers;
mod constraints;
mod domains;
mod fact_sets;
mod judging;
pub mod laws;
mod reaching;
mod rounds;
mod searching;
mod touring;
mod verdicts;
mod walking;

pub use answers::Answer;
pub use constraints::{Aim, Constraint, Guard, PolicyStatement};
pub use domains::{Branch, Domain};
pub use fact_sets::{FactSet, Scope};
pub use judging::{judge, judge_held};
pub use reaching::{Bodies, Handler, Reached, Yielded, other_than, reach, reach_body, reached_by};
pub use rounds::{Round, Rounds, put_targets};
pub use searching::{Budget, Extent, Search, ask, ask_in, either, find};
pub use touring::{StateAnswer, judge_states};
pub use verdicts::Verdict;
pub use walking::{judge_places, truth_of};

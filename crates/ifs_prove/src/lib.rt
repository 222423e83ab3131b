//! The answers to claims on a policy: a claim holds, or steps break it, or it is not decided.
//!
//! `ifs_claims` judges a claim by the facts of one evaluation. If some facts would break it, walks over a core look for steps
//! that do, without a contract; another core then makes these steps, and shows that the claim is broken.
//! Contract: `Holds` is said of every list of steps, and `laws` carries it over to every core of the image. `Broken` comes with
//! steps from an opening on, after which the claim does not hold. If a claim is not decided, some facts of an evaluation would break
//! it, or its budget is used up.
#![tactic(auto)]

mod describing;
mod exploring;
mod facts;
mod fronts;
mod guards;
mod judging;
mod laps;
pub mod laws;
mod making;
mod needed;
mod opening;
mod playing;
mod prolonging;
mod proving;
mod replaying;
mod searching;
mod targets;
mod trial;
mod verdicts;
mod wording;
mod worlds;

pub use judging::judge;
pub use proving::verdicts_of;
pub use trial::{Ending, Trial};
pub use verdicts::{Broken, Obstacle, Verdict};

//! The compiler: from a policy to the image that runs it.
//!
//! The code computes every operand of a condition. A body first checks that each test that it mentions has a
//! value. A condition of at least five instructions that occurs twice becomes a routine, which is called in its
//! place. Each part is measured in plain code, without calls, before it is written.
//! Contract: `generate` returns the image of a policy, which the verifier accepts, or the first limit that its
//! plain code exceeds. `compile` returns the bytes of the image of a text, and `compiled_core` a core that runs
//! the text. Laws: the budgets of the image are the least ones, and the image means what the policy says.
#![tactic(auto)]

mod amounts;
mod compile_fault;
mod compiling;
mod costs;
mod emission;
mod fault;
mod generating;
mod keys;
pub mod laws;
mod measure;
mod mention;
mod opening;
mod routines;
mod sharing;

pub use compile_fault::CompileFault;
pub use compiling::{CompiledText, compile, compile_with_notes};
pub use fault::GenFault;
pub use generating::generate;
pub use opening::{compiled_core, opened_with};

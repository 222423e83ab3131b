//! Laws about every policy, its plain code and its image.

ghost use Rattle.std.specs.Prelude.{◌≢◌, IfOk, IfErr};
ghost use Rattle.ifs_gen.specs.Acceptance.{BudgetsAreLeast, ImageIsAccepted};
ghost use Rattle.ifs_gen.specs.declared.compile_fault.CompileFault.TheVariants.{Memory};
ghost use Rattle.ifs_gen.specs.Compiled.{Compiles, IsCompileRefusal, TextsMeanTheirPolicy};
ghost use Rattle.ifs_gen.specs.CompiledCore.{LeadsTo, RepliesAsText};
ghost use Rattle.ifs_gen.specs.Events.{ActiveAreMentioned, ImageMeansPolicy};
ghost use Rattle.ifs_gen.specs.FirstShared.{FirstAreShared};
ghost use Rattle.ifs_gen.specs.Heights.{HeightsAreGreatest};
ghost use Rattle.ifs_gen.specs.Refused.{FitsOrIsRefused, OneLimitIsFirst, RefusedDoNotFit};
ghost use Rattle.ifs_gen.specs.Runs.{TruthRuns, SharedTruthRuns, BlockRuns, HandlersDo};
ghost use Rattle.ifs_gen.specs.Sizes.{RunsAreQueued, SizesAreLengths};
ghost use Rattle.ifs_lex.specs.Expansion.{defined_by};

use crate::compile_fault::CompileFault;
use crate::opening::compiled_core;
use ifs_base::laws::instructions_are_read_back;
use ifs_core::laws::accepted_is_kept;
use ifs_core::{Core, Reply, Step};
use ifs_image::laws::one_image;
use ifs_lex::laws::one_list;
use ifs_parse::laws::one_tree;
use ifs_policy::laws::{mentioned_are_mentions, one_policy, policies_fit};
use ifs_verify::laws::one_typing;
use std::alloc::{AllocError, Global};

/// Anywhere in a routine, the plain code of a condition executes each of its instructions once, and leaves the
/// condition's truth on the stack.
pub fn truth_runs()
    ensures { TruthRuns }
{}

/// Code that calls a shared condition does the same. It also executes the instructions of the called routine.
pub fn shared_truth_runs()
    ensures { SharedTruthRuns }
{
    instructions_are_read_back();
}

/// Anywhere in a routine, the code of a block runs to its end and has the effects that the block reaches.
pub fn block_runs()
    ensures { BlockRuns }
{}

/// On the machine, the handlers of a policy have the effects of their yields.
pub fn handlers_do()
    ensures { HandlersDo }
{}

/// The verifier accepts the image of a policy whose plain code keeps the limits.
pub fn plain_is_accepted()
    ensures { ImageIsAccepted }
{
    instructions_are_read_back();
}

/// The code of the image is accepted with no lower budgets than those of the image.
pub fn budgets_are_least()
    ensures { BudgetsAreLeast }
{
    instructions_are_read_back();
    one_typing();
}

/// The image of a policy means what the policy says. For every list of steps, a core that is opened on the image
/// has the replies, states, queues and traces of a run over the policy's own events, apart from costs. It is busy
/// if the queue lacks the policy's room.
pub fn image_means_policy()
    ensures { ImageMeansPolicy }
{
    instructions_are_read_back();
    accepted_is_kept();
}

/// The plain code of each policy keeps the limits of images, or there is a first limit that it exceeds.
pub fn fits_or_is_refused()
    ensures { FitsOrIsRefused }
{}

/// Code that exceeds a limit first does not keep the limits.
pub fn refused_do_not_fit()
    ensures { RefusedDoNotFit }
{}

/// A policy determines the first limit that its plain code exceeds, with the routine.
pub fn one_limit()
    ensures { OneLimitIsFirst }
{}

/// The limits are checked on sizes. The sizes of conditions, blocks, inits and bodies are the lengths of their
/// plain code, and the sizes of a policy are the lengths of all its inits and bodies. Its image has no more
/// instructions.
pub fn sizes_are_lengths()
    ensures { SizesAreLengths }
{
    instructions_are_read_back();
}

/// The heights of a policy are the greatest numbers of values on the stack of its inits and bodies in plain code, in
/// order.
pub fn heights_are_greatest()
    ensures { HeightsAreGreatest }
{}

/// The number of commands of a block, from which the room of a policy follows, is the number that its code queues.
pub fn runs_are_queued()
    ensures { RunsAreQueued }
{}

/// The shared conditions of a policy are distinct, have five instructions or more and are those of two `if`s or more.
/// They are in the order of their first occurrence. Any other such condition occurs behind 510 shared ones.
pub fn first_are_shared()
    ensures { FirstAreShared }
{
    instructions_are_read_back();
}

/// The mask of a part has exactly the tests that its body mentions.
pub fn active_are_mentioned()
    ensures { ActiveAreMentioned }
{
    mentioned_are_mentions();
}

/// From text to replies, for every text and all definitions beside it. The text has at most one policy. If the
/// code of that policy keeps the limits, the verifier accepts the bytes of its image, unless an allocation fails.
/// For every list of steps, a core that is opened on the image has the replies, states, queues and traces of a
/// run over the policy's own events, apart from costs. It is busy if the queue lacks the policy's room. Its
/// readers return the policy's names and texts.
pub fn means_the_policy()
    ensures { TextsMeanTheirPolicy }
{
    instructions_are_read_back();
    one_list();
    one_tree();
    one_policy();
    policies_fit();
    one_image();
    accepted_is_kept();
}

/// The replies of the policy of a text to any steps. It opens the core of the text and makes the steps in order.
/// An example of a caller of `compiled_core`.
pub fn replies_of_text<'a>(
    alloc: Global,
    text: &'a str,
    defs: &'a [(&'a str, &'a str)],
    steps: &[Step],
) -> Result<Vec<Reply>, CompileFault>
    ensures replies { IfOk result (λ replies. RepliesAsText text.now (defined_by defs.now) steps.now replies.items) }
    // An error other than P0 comes only if the text has no policy, or if its code exceeds a limit.
    ensures refused { IfErr result (λ fault. IsCompileRefusal text.now (defined_by defs.now) fault) }
    // So each text that compiles gets replies, unless an allocation fails.
    ensures none { IfErr result (λ fault. fault ≢ Memory → ¬ Compiles text.now (defined_by defs.now)) }
{
    let mut image = Vec::new(alloc);
    let mut core = match compiled_core(alloc, text, defs, &mut image) {
        Ok(core) => core,
        Err(fault) => return Err(fault),
    };
    match make_steps(alloc, &mut core, steps) {
        Ok(replies) => Ok(replies),
        Err(_) => Err(CompileFault::Memory),
    }
}

/// Makes steps of a core in order. Returns the replies.
fn make_steps(alloc: Global, core: &mut Core<'_>, steps: &[Step]) -> Result<Vec<Reply>, AllocError>
    ensures { IfOk result (λ replies. LeadsTo core.old.image steps.now replies.items core.old.state core.new.state) }
{
    let mut replies = Vec::new(alloc);
    for step in steps {
        replies.push(core.step(*step))?;
    }
    Ok(replies)
}

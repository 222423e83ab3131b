//! Laws about all policies and every list of steps.

ghost use Rattle.ifs_compare.specs.Alike.{AlikeCoresReplyTheSame, AlikeRunTheSame};
ghost use Rattle.ifs_compare.specs.Differing.{DifferencesAreReal};
ghost use Rattle.ifs_compare.specs.Renumbering.{RenumberedMeansTheSame};

use ifs_gen::laws::image_means_policy;

/// Policies that do the same over the same tables have the same replies to every list of steps and the same state after it,
/// whatever is known at the opening, if an event has the same room in both.
pub fn alike_run_the_same()
    ensures { AlikeRunTheSame }
{}

/// Cores that are opened on the images of such policies have the same replies, apart from costs.
pub fn alike_cores_reply_the_same()
    ensures { AlikeCoresReplyTheSame }
{
    image_means_policy();
}

/// A part with the numbers of other tables does what it does with its own: under the same facts by name, its handlers run the
/// same commands by text and wish for the same state by name.
pub fn renumbered_means_the_same()
    ensures { RenumberedMeansTheSame }
{}

/// Policies are not the same if a difference is reported, or if their handlers differ.
pub fn differences_are_real()
    ensures { DifferencesAreReal }
{}

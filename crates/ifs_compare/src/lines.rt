//! Lines of the new policy.

use crate::answers::{Compared, Difference};
use ifs_parse::{Item, Tree};

/// Gives each difference and each question that is about a state the line on which the new policy defines the state. `tree` is
/// that of the new policy's text.
pub fn place(compared: &mut Compared, tree: &Tree) {
    place_all(compared.differences.as_mut_slice(), tree);
    place_all(compared.undecided.as_mut_slice(), tree)
}

fn place_all(differences: &mut [Difference], tree: &Tree) {
    for difference in differences.iter_mut() {
        let line = line_of(tree, difference.state.as_str());
        difference.line = line;
    }
}

/// The line on which a state is defined, or 0.
fn line_of(tree: &Tree, state: &str) -> u32 {
    for item in tree.items() {
        if let Item::State(name, _) = item {
            if name.text.as_str() == state {
                return name.place.span.line;
            }
        }
    }
    0
}

//! Links on the command line.

use ifs_base::LinkState;

/// The interface and the link state of a word after `--links`, which is split at its last blank. It is `None` if there is no
/// blank, if the part before it is empty, or if the part after it is no link state.
pub fn link_of(word: &str) -> Option<(&str, LinkState)> {
    let (name, state) = word.rsplit_once(' ')?;
    let state = match state {
        "up" => LinkState::Up,
        "down" => LinkState::Down,
        "unknown" => LinkState::Unknown,
        _ => return None,
    };
    if name.is_empty() {
        None
    } else {
        Some((name, state))
    }
}

//! Steps as request lines.

use ifs_base::{IfaceId, LinkState};
use ifs_core::{Core, Step};
use ifs_policy::Policy;
use std::alloc::{AllocError, Global};

/// The most bytes of a request line.
const MOST_BYTES: usize = 256;

/// The request lines of some steps of a core on the image of a policy.
pub fn requests_of(alloc: Global, policy: &Policy, steps: &[Step]) -> Result<String, AllocError> {
    let mut requests = String::new(alloc);
    for step in steps {
        put_request(&mut requests, policy, *step)?;
    }
    Ok(requests)
}

/// Adds the request line of a step.
fn put_request(requests: &mut String, policy: &Policy, step: Step) -> Result<(), AllocError> {
    match step {
        Step::Link(interface, state) => {
            let name = match policy.interface(interface) {
                Some(name) => name.as_str(),
                None => "",
            };
            let word = word_of(state);
            write!(requests, "link {name} {word}\n")
        }
        Step::Finished(test, run, value) => {
            let (number, word) = (test.0, if value { "ok" } else { "fail" });
            write!(requests, "result {number} {run} {word}\n")
        }
        Step::Tick(moment) => write!(requests, "tick {moment}\n"),
        Step::Take => requests.push_str("take\n"),
    }
}

/// Whether a request line has room for an interface of a core and a state of its link. No client can report another one.
pub fn has_request(core: &Core<'_>, interface: IfaceId, state: LinkState) -> bool {
    let index = usize::from(interface.0);
    let image = core.image();
    if index >= image.interfaces() {
        return true;
    }
    line_fits(image.interface(index), state)
}

/// Whether a request line has room for the name of an interface and a state of its link.
pub fn line_fits(name: &str, state: LinkState) -> bool {
    let words = "link  ".len().saturating_add(word_of(state).len());
    name.len() <= MOST_BYTES.saturating_sub(words)
}

/// The word of a link state.
pub fn word_of(state: LinkState) -> &'static str {
    match state {
        LinkState::Unknown => "unknown",
        LinkState::Down => "down",
        LinkState::Up => "up",
    }
}

//! Whether the replies of a daemon can be those of an image.

use crate::naming::is_named;
use ifs_core::Step;
use ifs_image::ImageView;
use ifs_session::{StatusLine, TraceLine};
use ifs_terminal::Escaped;
use std::alloc::{AllocError, Global};
use std::fmt::{self, Formatter, Write};

/// What an image lacks to be that of a daemon, by its replies to `status` and `trace`, in words. It is `None` if nothing is
/// known to lack. The only error is a failed allocation.
///
/// The image has to have each state by its name, the interfaces and tests by their numbers, as many tests as run, and budgets
/// for the cost and the commands of each step.
pub fn lacks(
    alloc: Global,
    image: &ImageView<'_>,
    reply: &str,
) -> Result<Option<String>, AllocError> {
    match first_lack(image, reply) {
        Some(lack) => Ok(Some(format!(in alloc; "{lack}")?)),
        None => Ok(None),
    }
}

/// What an image lacks, by what a daemon has.
#[derive(Clone, Copy)]
enum Lack<'r> {
    /// The state with this name in quotes.
    State(&'r [u8]),
    /// The interface of this number.
    Interface(u16),
    /// The test of this number.
    Test(u16),
    /// So many tests.
    Tests(u64),
    /// A budget for this cost.
    Cost(u32),
    /// A budget for so many commands.
    Commands(u16),
}

impl fmt::Display for Lack<'_> {
    fn fmt<W: Write>(&self, f: &mut Formatter<W>) -> fmt::Result {
        match self {
            Lack::State(name) => write!(f, "it has no state {}", Escaped(name)),
            Lack::Interface(number) => write!(f, "it has no interface {number}"),
            Lack::Test(number) => write!(f, "it has no test {number}"),
            Lack::Tests(count) => write!(f, "it has fewer tests than {count}"),
            Lack::Cost(cost) => write!(f, "it states a cost below {cost}"),
            Lack::Commands(count) => write!(f, "it states fewer commands than {count}"),
        }
    }
}

/// What an image lacks for the first line of the replies that needs more than it has.
fn first_lack<'r>(image: &ImageView<'_>, reply: &'r str) -> Option<Lack<'r>> {
    for line in reply.lines() {
        let lack = match TraceLine::read(line.as_bytes()) {
            Some(line) => lack_of_step(image, &line),
            None => lack_of_status(image, StatusLine::read(line.as_bytes())),
        };
        if lack.is_some() {
            return lack;
        }
    }
    None
}

/// What an image lacks for the reply to `status`.
fn lack_of_status<'r>(image: &ImageView<'_>, line: Option<StatusLine<'r>>) -> Option<Lack<'r>> {
    let line = line?;
    if !has_state(image, line.state) {
        Some(Lack::State(line.state))
    } else if line.running > image.tests() as u64 {
        Some(Lack::Tests(line.running))
    } else {
        None
    }
}

/// What an image lacks for a step.
fn lack_of_step<'r>(image: &ImageView<'_>, line: &TraceLine<'r>) -> Option<Lack<'r>> {
    let budgets = image.budgets();
    match line.step {
        Step::Link(interface, _) if usize::from(interface.0) >= image.interfaces() => {
            Some(Lack::Interface(interface.0))
        }
        Step::Finished(test, _, _) if usize::from(test.0) >= image.tests() => {
            Some(Lack::Test(test.0))
        }
        _ if !has_state(image, line.state) => Some(Lack::State(line.state)),
        _ if line.cost > budgets.cost => Some(Lack::Cost(line.cost)),
        _ if line.queued > budgets.commands => Some(Lack::Commands(line.queued)),
        _ => None,
    }
}

/// Whether an image has the state with this name in quotes.
fn has_state(image: &ImageView<'_>, quoted: &[u8]) -> bool {
    for state in 0..image.states() {
        if is_named(quoted, image.state_name(state)) {
            return true;
        }
    }
    false
}

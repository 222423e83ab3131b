//! The text of a daemon's steps.

use crate::flaps::{Flap, Flaps};
use crate::naming::{is_named, put_link_name, put_named, put_request};
use crate::steps::{MOST_STEPS, Times, commands_of, first_moment, is_taken, steps_of};
use ifs_base::IfaceId;
use ifs_core::{Answer, Core, Step};
use ifs_image::ImageView;
use ifs_options::Explained;
use ifs_session::{TraceLine, answer_word};
use ifs_terminal::{Draft, Escaped, Shown};
use std::alloc::{AllocError, Global};
use std::fmt::{self, Formatter, Write};

/// Explains what a daemon replied to `status` and `trace`, with the names of its image in place of numbers. The core is one of
/// that image at its opening. The only error is a failed allocation.
///
/// With times, a step's moment has what the clock showed then, if that is known. The first line is the number of steps that
/// came before those of the reply, if there were any, and the latest changes of state among them follow. If there were none, and
/// the daemon took no other image over, `Steps` has the text of each command that was taken. The core makes the steps for it.
///
/// The line of a step has its moment, or `-` if that is not known, and begins with `*` if the state changed. A number
/// without a name in the image is unchanged. A line without a step is unchanged too, and `Requests` leaves it out. What a
/// terminal may act on in the reply is escaped. Lines after the 256th step are left out. If a link was reported over eight times,
/// a line says so, and its reports between the first four and the last four are left out with what was taken after them.
pub fn explain(
    alloc: Global,
    core: &mut Core<'_>,
    reply: &str,
    explained: Explained,
    times: Option<Times<'_>>,
) -> Result<String, AllocError> {
    let read = steps_of(alloc, reply)?;
    let steps = read.as_slice();
    if matches!(explained, Explained::Requests) {
        return requests_of(alloc, core.image(), steps);
    }
    let commands = match (explained, times) {
        (Explained::Steps, Some(times)) if times.are_of_all(steps) => {
            commands_of(alloc, core, steps)?
        }
        _ => Vec::new(alloc),
    };
    let story = Story {
        text: Draft::new(alloc),
        has_changes_only: matches!(explained, Explained::Changes),
        times,
        commands: commands.as_slice(),
        taken: 0,
        moment: None,
        state: initial_of(core.image(), steps.len()),
        flaps: Flaps::of(steps),
    };
    story_of(story, core.image(), reply, steps)
}

/// The requests that make steps.
fn requests_of(
    alloc: Global,
    image: &ImageView<'_>,
    steps: &[TraceLine<'_>],
) -> Result<String, AllocError> {
    let mut requests = Draft::new(alloc);
    for line in steps {
        put_request(&mut requests, image, line.step);
        requests.put("\n");
    }
    requests.into_text()
}

/// The text of a story with the lines of a reply, after the number of steps that came before its own.
fn story_of<'s>(
    story: Story<'s, '_, '_>,
    image: &ImageView<'_>,
    reply: &'s str,
    steps: &[TraceLine<'_>],
) -> Result<String, AllocError> {
    let mut story = story;
    if let Some(times) = story.times {
        story.put_earlier(times, steps);
    }
    story.put_lines(image, reply);
    story.text.into_text()
}

/// The state before the first of so many steps. It is the initial one if all steps are reported.
fn initial_of<'s>(image: &ImageView<'s>, steps: usize) -> State<'s> {
    let initial = usize::from(image.initial().0);
    if initial < image.states() && steps < MOST_STEPS {
        State::Initial(image.state_name(initial))
    } else {
        State::Unknown
    }
}

/// The state between two steps.
#[derive(Clone, Copy)]
enum State<'s> {
    /// It is not known.
    Unknown,
    /// The initial one, by its name.
    Initial(&'s str),
    /// The state after a step, by its name in quotes.
    After(&'s [u8]),
}

impl State<'_> {
    /// Whether it is known, and not the one of this name in quotes.
    fn differs(self, name: &[u8]) -> bool {
        match self {
            State::Unknown => false,
            State::Initial(initial) => !is_named(name, initial),
            State::After(state) => state != name,
        }
    }
}

/// Prints its name in quotes.
impl fmt::Display for State<'_> {
    fn fmt<W: Write>(&self, f: &mut Formatter<W>) -> fmt::Result {
        match self {
            State::Unknown => Ok(()),
            State::Initial(name) => write!(f, "{}", Shown(name)),
            State::After(name) => write!(f, "{}", Escaped(name)),
        }
    }
}

/// The text so far, and what is known after the last step.
#[derive(Drop)]
struct Story<'s, 't, 'c> {
    text: Draft,
    /// Whether steps that changed nothing are left out.
    has_changes_only: bool,
    times: Option<Times<'t>>,
    /// The texts of the commands that the steps took, if they are known.
    commands: &'c [&'s str],
    /// How many of them were added.
    taken: usize,
    /// The moment of the last tick.
    moment: Option<u64>,
    state: State<'s>,
    flaps: Flaps,
}

impl<'s> Story<'s, '_, '_> {
    /// Adds the line on the steps that came before those of a reply, if there are any, and the latest changes of state among them.
    fn put_earlier(&mut self, times: Times<'_>, steps: &[TraceLine<'_>]) {
        match times.earlier(steps) {
            0 => return,
            1 => self.text.put("1 step came before these\n"),
            count => self
                .text
                .add(&format_args!("{count} steps came before these\n")),
        }
        let first = first_moment(steps).unwrap_or_default();
        for change in times.changes {
            if change.0 < first {
                self.text.put("* at ");
                self.text.put(change.1.as_str());
                self.text.put("\n");
            }
        }
    }

    /// Adds the lines of a reply up to its last step.
    fn put_lines(&mut self, image: &ImageView<'_>, reply: &'s str) {
        let mut steps = 0usize;
        for line in reply.lines() {
            if steps == MOST_STEPS {
                break;
            }
            match TraceLine::read(line.as_bytes()) {
                Some(step) => {
                    steps = steps.saturating_add(1);
                    self.know(image, &step);
                }
                None => self
                    .text
                    .add(&format_args!("{}\n", Escaped(line.as_bytes()))),
            }
        }
    }

    /// Adds a step unless it is left out, and knows what it did. A tick that evaluated nothing does not change the state.
    fn know(&mut self, image: &ImageView<'_>, line: &TraceLine<'s>) {
        if let Step::Tick(moment) = line.step {
            self.moment = Some(moment);
            if line.cost == 0 {
                return;
            }
        }
        let is_change = self.state.differs(line.state);
        match self.flaps.next(line.step) {
            Flap::Shown if is_change || !self.has_changes_only || self.may_change(line) => {
                self.put_step(image, line, is_change);
            }
            Flap::First(interface, total) => self.put_flaps(image, interface, total),
            Flap::Shown | Flap::Further => {}
        }
        self.pass_command(line);
        self.state = State::After(line.state);
    }

    /// Adds the line on a link that was reported so often.
    fn put_flaps(&mut self, image: &ImageView<'_>, interface: IfaceId, total: u16) {
        self.text.put("  .. link ");
        put_link_name(&mut self.text, image, interface);
        self.text.add(&format_args!(
            " was reported {total} times: all but the first 4 and the last 4 are left out\n"
        ));
    }

    /// Passes over the command that a step took.
    fn pass_command(&mut self, line: &TraceLine<'_>) {
        if is_taken(line) {
            self.taken = self.taken.saturating_add(1);
        }
    }

    /// Whether a step that is not known to change the state may have changed something, or queued a command. If the state before
    /// is not known, a tick may have changed it.
    fn may_change(&self, line: &TraceLine<'_>) -> bool {
        match line.answer {
            Answer::Done => true,
            Answer::Ticked => matches!(self.state, State::Unknown) || line.queued != 0,
            Answer::Same | Answer::Taken => false,
        }
    }

    fn put_step(&mut self, image: &ImageView<'_>, line: &TraceLine<'s>, is_change: bool) {
        self.text.put(if is_change { "* at " } else { "  at " });
        self.put_moment();
        put_named(&mut self.text, image, line.step);
        self.put_limit(line.step);
        if is_taken(line) {
            self.put_command();
        }
        self.put_outcome(line, is_change);
    }

    /// Adds the limit at which the run was killed whose end a step is, if that is known.
    fn put_limit(&mut self, step: Step) {
        if let (Step::Finished(_, run, _), Some(times)) = (step, self.times)
            && let Some(limit) = times.limit_of(run)
        {
            self.text
                .add(&format_args!(", killed at its limit of {limit} s"));
        }
    }

    /// Adds the moment, and what the clock showed then.
    fn put_moment(&mut self) {
        let Some(moment) = self.moment else {
            return self.text.put("- ");
        };
        self.text.add(&format_args!("{moment} "));
        if let Some(times) = self.times
            && let Some(clock) = times.clock_at(moment)
        {
            self.text.add(&format_args!("{clock} "));
        }
    }

    /// Adds the text of the next command that is taken, if it is known.
    fn put_command(&mut self) {
        if let Some(command) = self.commands.get(self.taken) {
            self.text.add(&format_args!(" {}", Shown(command)));
        }
    }

    fn put_outcome(&mut self, line: &TraceLine<'s>, is_change: bool) {
        self.text
            .add(&format_args!(" -> {} ", answer_word(line.answer)));
        if is_change {
            self.text.add(&format_args!("{} => ", self.state));
        }
        self.text.add(&format_args!(
            "{} cost {} queue {}\n",
            Escaped(line.state),
            line.cost,
            line.queued
        ));
    }
}

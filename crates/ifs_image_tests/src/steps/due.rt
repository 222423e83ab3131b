//! When the next tick is due, after each of some requests.

use super::{bytes_in, opened, step_of};
use crate::checks::same_in;
use ifs_core::Core;
use ifs_test_images::images;
use std::alloc::Global;
use std::process::Abort;

/// The last moment.
const LAST: u64 = 18446744073709551615;

/// A request, and the moment at which the next tick is due after it.
type Due = (&'static str, Option<u64>);

/// Asserts the next due moment after each request.
fn check_due(rt: &impl Abort, name: &str, core: &mut Core<'_>, requests: &[Due]) {
    for (request, wanted) in requests {
        if let Some(step) = step_of(core, request) {
            core.step(step);
        }
        let case = format_args!("{name}: {request}");
        same_in(rt, case, core.next_due(), *wanted);
    }
}

/// The same on a core that is opened on an image. The word `open` is no request, so its moment is the one after the opening.
fn play(rt: &impl Abort, alloc: Global, name: &str, image: &str, requests: &[Due]) {
    let image = bytes_in(rt, alloc, image);
    let mut core = opened(rt, alloc, image.as_slice());
    check_due(rt, name, &mut core, requests);
}

const MACROS: [Due; 6] = [
    ("open", Some(0)),
    ("tick 0", None),
    ("result 0 1 fail", Some(10)),
    ("tick 9", Some(10)),
    ("tick 10", None),
    ("result 0 2 fail", Some(20)),
];

const TICKS: [Due; 8] = [
    ("open", Some(0)),
    ("tick 5", None),
    ("tick 5", None),
    ("tick 4", None),
    ("result 0 1 ok", Some(15)),
    ("tick 18446744073709551615", None),
    ("result 0 2 ok", Some(LAST)),
    ("tick 18446744073709551615", None),
];

const HELD_BACK: [Due; 5] = [
    ("open", Some(0)),
    ("tick 100", None),
    ("result 1 2 ok", Some(105)),
    ("result 0 1 ok", Some(105)),
    ("result 7 1 ok", Some(105)),
];

/// A test is due at the present moment when its state is entered. It is not due once the state is left.
const STALE: [Due; 11] = [
    ("open", None),
    ("link carp0 up", Some(0)),
    ("tick 7", None),
    ("link carp0 down", None),
    ("link carp0 up", Some(7)),
    ("tick 8", None),
    ("result 0 1 ok", None),
    ("result 0 2 ok", Some(13)),
    ("link carp0 down", None),
    ("link carp0 up", Some(8)),
    ("tick 8", None),
];

#[test]
fn next_due_of_sessions(rt: HostRuntime) {
    play(&rt, rt.alloc(), "macros", images::MACROS, &MACROS);
    play(&rt, rt.alloc(), "ticks", images::MACROS, &TICKS);
    play(&rt, rt.alloc(), "held back", images::HELD_BACK, &HELD_BACK);
    play(&rt, rt.alloc(), "stale", images::STALE, &STALE);
}

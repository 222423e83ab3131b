//! Steps with the names of an image in place of numbers.

use ifs_base::{IfaceId, Quoted, TestId, link_word};
use ifs_core::Step;
use ifs_image::ImageView;
use ifs_session::value_word;
use ifs_terminal::{Draft, Shown, displays_as};
use std::str::from_utf8;

/// Adds a step with names. A number without a name in the image is unchanged.
pub(crate) fn put_named(text: &mut Draft, image: &ImageView<'_>, step: Step) {
    match step {
        Step::Link(interface, link) => {
            text.put("link ");
            put_link_name(text, image, interface);
            put_word(text, link_word(link));
        }
        Step::Finished(test, run, value) => {
            text.put("result ");
            put_test(text, image, test);
            text.put(" run ");
            text.add(run);
            put_word(text, value_word(value));
        }
        Step::Tick(_) | Step::Take => put_request(text, image, step),
    }
}

/// Adds the name of an interface in quotes, or its number if it has none in the image.
pub(crate) fn put_link_name(text: &mut Draft, image: &ImageView<'_>, interface: IfaceId) {
    match interface_name(image, interface) {
        Some(name) => text.add(Shown(name)),
        None => text.add(interface.0),
    }
}

/// Adds the request that makes a step.
pub(crate) fn put_request(text: &mut Draft, image: &ImageView<'_>, step: Step) {
    match step {
        Step::Link(interface, link) => {
            text.put("link ");
            match interface_name(image, interface) {
                Some(name) => text.put(name),
                None => text.add(interface.0),
            }
            put_word(text, link_word(link));
        }
        Step::Finished(test, run, value) => {
            text.add(&format_args!("result {} {run}", test.0));
            put_word(text, value_word(value));
        }
        Step::Tick(moment) => {
            text.put("tick ");
            text.add(moment);
        }
        Step::Take => text.put("take"),
    }
}

/// Adds a blank and a word.
fn put_word(text: &mut Draft, word: &str) {
    text.put(" ");
    text.put(word);
}

/// Adds the command and the period of a test, or its number if it is not in the image.
fn put_test(text: &mut Draft, image: &ImageView<'_>, test: TestId) {
    let index = usize::from(test.0);
    if index < image.tests() {
        text.add(Shown(image.test_text(index)));
        text.put(" every ");
        text.add(image.test_period(index));
    } else {
        text.add(test.0);
    }
}

/// The name of an interface.
fn interface_name<'a>(image: &ImageView<'a>, interface: IfaceId) -> Option<&'a str> {
    let index = usize::from(interface.0);
    if index < image.interfaces() {
        Some(image.interface(index))
    } else {
        None
    }
}

/// Whether a text is this name in quotes.
pub(crate) fn is_named(quoted: &[u8], name: &str) -> bool {
    match from_utf8(quoted) {
        Ok(quoted) => displays_as(Quoted(name), quoted),
        Err(_) => false,
    }
}

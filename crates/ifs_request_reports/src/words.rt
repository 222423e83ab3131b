//! The words of requests, as reports name them.

use ifs_report::Draft;
use ifs_session::{RequestWord, words_at};
use std::alloc::{AllocError, Global};

/// What may follow a word, the shortest first: nothing, a link state, a value, a run and its value, a name and its link state, a test,
/// its run and their value, and a moment.
const TAILS: [&str; 7] = ["", " up", " ok", " 0 ok", " x up", " 0 0 ok", " 0"];

/// What reports call a word.
fn name_of(word: RequestWord) -> &'static str {
    match word {
        RequestWord::Link => "`link`",
        RequestWord::Result => "`result`",
        RequestWord::Tick => "`tick`",
        RequestWord::Take => "`take`",
        RequestWord::Status => "`status`",
        RequestWord::Trace => "`trace`",
        RequestWord::Stop => "`stop`",
        RequestWord::Up => "`up`",
        RequestWord::Down => "`down`",
        RequestWord::Unknown => "`unknown`",
        RequestWord::Good => "`ok`",
        RequestWord::Fail => "`fail`",
        RequestWord::Name => "the name of an interface",
        RequestWord::Number => "a number",
    }
}

/// Whether a word stands for others.
pub(crate) fn is_general(word: RequestWord) -> bool {
    matches!(word, RequestWord::Name | RequestWord::Number)
}

/// Adds words to what a report expects. Where a name may be, each word is one.
pub(crate) fn expect(draft: &mut Draft, words: &[RequestWord]) {
    if words.contains(&RequestWord::Name) {
        draft.expect(name_of(RequestWord::Name));
        return;
    }
    for word in words {
        draft.expect(name_of(*word));
    }
}

/// The words that make a request of the beginning of a line with the shortest rest that one of them can have.
pub(crate) fn words_behind(alloc: Global, front: &[u8]) -> Result<Vec<RequestWord>, AllocError> {
    for tail in TAILS.as_slice() {
        let words = words_at(alloc, front, tail.as_bytes())?;
        if !words.is_empty() {
            return Ok(words);
        }
    }
    Ok(Vec::new(alloc))
}

/// The words with which a request begins.
pub(crate) fn first_words(alloc: Global) -> Result<Vec<RequestWord>, AllocError> {
    let mut first = Vec::new(alloc);
    for tail in [" x up", " 0 0 ok", " 0", ""].as_slice() {
        for word in words_at(alloc, &[], tail.as_bytes())?.as_slice() {
            first.push(*word)?;
        }
    }
    Ok(first)
}

//! The words of a line.

ghost use Rattle.std.specs.Prelude.{◌≤◌, length};

/// A word of a line.
#[derive(Clone, Copy)]
pub(crate) struct Word<'a> {
    /// Its offset in the line.
    pub from: usize,
    pub bytes: &'a [u8],
}

impl Word<'_> {
    /// The offset in the line of what follows it.
    pub(crate) fn to(&self) -> usize {
        self.from.saturating_add(self.bytes.len())
    }

    /// Whether it begins with a quote.
    pub(crate) fn is_quoted(&self) -> bool {
        match self.bytes {
            [b'"', ..] => true,
            _ => false,
        }
    }
}

/// The words of a line that are still unread.
#[derive(Clone, Copy)]
pub(crate) struct Unread<'a> {
    rest: &'a [u8],
    at: usize,
}

impl<'a> Unread<'a> {
    /// The words of a line after the first one.
    pub(crate) fn after_first(line: &'a [u8]) -> Unread<'a> {
        let mut unread = Unread { rest: line, at: 0 };
        unread.take();
        unread
    }

    /// The next word. If there is none, it is empty and at the end of the last one.
    pub(crate) fn next(&mut self) -> Word<'a> {
        let end = self.at;
        let Word { from, bytes } = self.take();
        Word {
            from: if bytes.is_empty() { end } else { from },
            bytes,
        }
    }

    /// The next word. If there is none, it is empty and at the end of the line.
    fn take(&mut self) -> Word<'a> {
        let rest = self.rest;
        let (gap, others) = rest.split_at(blanks(rest));
        let (bytes, after) = others.split_at(word_len(others));
        let from = self.at.saturating_add(gap.len());
        self.rest = after;
        self.at = from.saturating_add(bytes.len());
        Word { from, bytes }
    }
}

/// The first three words of a line. Those that it does not have are empty.
#[derive(Clone, Copy)]
pub(crate) struct Front<'a> {
    pub first: Word<'a>,
    pub second: Word<'a>,
    pub third: Word<'a>,
}

impl<'a> Front<'a> {
    pub(crate) fn of(line: &'a [u8]) -> Front<'a> {
        let mut unread = Unread { rest: line, at: 0 };
        let first = unread.take();
        let second = unread.take();
        let third = unread.take();
        Front {
            first,
            second,
            third,
        }
    }

    /// Whether the line says nothing: it is empty or a comment.
    pub(crate) fn is_silent(&self) -> bool {
        match self.first.bytes {
            [] | [b';', ..] => true,
            _ => false,
        }
    }

    /// Whether one of the words after the first begins with a quote.
    pub(crate) fn has_text(&self) -> bool {
        self.second.is_quoted() || self.third.is_quoted()
    }
}

/// The number of blanks at the front.
fn blanks(bytes: &[u8]) -> usize
    ensures { result ≤ length bytes.now }
{
    for (place, byte) in bytes.iter().enumerate() {
        if !is_blank(*byte) {
            return place;
        }
    }
    bytes.len()
}

fn is_blank(byte: u8) -> bool {
    byte == b' ' || byte == b'\t'
}

/// Whether a byte ends a line.
pub(crate) fn is_newline(byte: &u8) -> bool {
    *byte == b'\n'
}

/// Where a byte of a line is.
#[derive(Clone, Copy, PartialEq, Eq)]
enum Mode {
    /// Outside quotes.
    Bare,
    /// Inside quotes.
    Inside,
    /// Inside quotes, after a backslash.
    Escaped,
}

impl Mode {
    /// Where the next byte is.
    fn after(self, byte: u8) -> Mode {
        match (self, byte) {
            (Mode::Bare, b'"') => Mode::Inside,
            (Mode::Inside, b'"') => Mode::Bare,
            (Mode::Inside, b'\\') => Mode::Escaped,
            (Mode::Escaped, _) => Mode::Inside,
            (mode, _) => mode,
        }
    }
}

/// The number of bytes before the first blank outside quotes.
fn word_len(bytes: &[u8]) -> usize
    ensures { result ≤ length bytes.now }
{
    let mut mode = Mode::Bare;
    for (place, byte) in bytes.iter().enumerate() {
        if mode == Mode::Bare && is_blank(*byte) {
            return place;
        }
        mode = mode.after(*byte);
    }
    bytes.len()
}

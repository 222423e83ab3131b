//! A text for a reader, with or without colours.

use ifs_terminal::Escaped;
use std::alloc::{AllocError, Global};

/// How a piece of a page is shown.
#[derive(Clone, Copy)]
pub(crate) enum Style {
    Error,
    Warning,
    Note,
    Message,
    Gutter,
    Carets,
    Hint,
}

impl Style {
    /// The escape sequence that begins the style.
    fn sequence(self) -> &'static str {
        match self {
            Style::Error => "\x1b[1;31m",
            Style::Warning => "\x1b[1;35m",
            Style::Note => "\x1b[1;36m",
            Style::Message => "\x1b[1m",
            Style::Gutter => "\x1b[34m",
            Style::Carets => "\x1b[31m",
            Style::Hint => "\x1b[32m",
        }
    }
}

/// A text that grows.
#[derive(Drop)]
pub(crate) struct Page {
    pub(crate) text: String,
    colours: bool,
}

impl Page {
    pub(crate) fn new(alloc: Global, colours: bool) -> Self {
        Page {
            text: String::new(alloc),
            colours,
        }
    }

    /// Begins a style, if there are colours.
    pub(crate) fn begin(&mut self, style: Style) -> Result<(), AllocError> {
        if self.colours {
            self.text.push_str(style.sequence())
        } else {
            Ok(())
        }
    }

    /// Ends the style, if there are colours.
    pub(crate) fn end(&mut self) -> Result<(), AllocError> {
        if self.colours {
            self.text.push_str("\x1b[0m")
        } else {
            Ok(())
        }
    }

    /// Adds a text in a style.
    pub(crate) fn put_styled(&mut self, style: Style, text: &str) -> Result<(), AllocError> {
        self.begin(style)?;
        self.text.push_str(text)?;
        self.end()
    }

    /// Adds a text on one line. Each byte of a character that a terminal may act on is added as `\xHH`.
    pub(crate) fn put_escaped(&mut self, text: &str) -> Result<(), AllocError> {
        let mut first = true;
        for line in text.split('\n') {
            let newline = if first { "" } else { "\\x0a" };
            write!(self.text, "{newline}{}", Escaped(line.as_bytes()))?;
            first = false;
        }
        Ok(())
    }
}

//! Lines of a text, with carets under a part of each.

use crate::cells::{cells_of, extent_of, put_repeated};
use crate::page::{Page, Style};
use crate::spots::Line;
use crate::window::{Window, choose};
use std::alloc::AllocError;

/// The least columns of the gutter, so that the lines of most reports are under each other.
const LEAST_GUTTER: usize = 5;

/// Returns the columns of a gutter that has room for the numbers of lines up to the last one.
pub(crate) fn gutter_columns(last: usize) -> usize {
    let digits = last.checked_ilog10().map_or(1, |power| power as usize + 1);
    digits.max(LEAST_GUTTER)
}

/// Adds a line and its carets, with words behind them.
pub(crate) fn put_excerpt(
    page: &mut Page,
    gutter: usize,
    line: &Line<'_>,
    words: &str,
) -> Result<(), AllocError> {
    let shown = choose(
        extent_of(line.before),
        extent_of(line.inside),
        extent_of(line.after),
    );
    put_number(page, gutter, line)?;
    put_line(&mut page.text, line, shown)?;
    put_bar(page, gutter)?;
    put_indent(&mut page.text, line, shown)?;
    page.begin(Style::Carets)?;
    put_carets(&mut page.text, line, shown)?;
    page.end()?;
    put_words(page, words)
}

/// Adds words that belong to no line.
pub(crate) fn put_remark(page: &mut Page, gutter: usize, words: &str) -> Result<(), AllocError> {
    page.begin(Style::Gutter)?;
    put_repeated(&mut page.text, ' ', gutter)?;
    page.text.push_str(" =")?;
    page.end()?;
    put_words(page, words)
}

/// Adds the gutter of a line: its number, or `-D` for the word of a definition.
fn put_number(page: &mut Page, gutter: usize, line: &Line<'_>) -> Result<(), AllocError> {
    page.begin(Style::Gutter)?;
    if line.is_defined {
        write!(page.text, "{:>gutter$} |", "-D")?;
    } else {
        write!(page.text, "{:>gutter$} |", line.start.line)?;
    }
    page.end()
}

/// Adds the gutter of carets.
fn put_bar(page: &mut Page, gutter: usize) -> Result<(), AllocError> {
    page.begin(Style::Gutter)?;
    put_repeated(&mut page.text, ' ', gutter)?;
    page.text.push_str(" |")?;
    page.end()?;
    page.text.push(' ')
}

/// Adds what is shown of a line. `..` is where it is cut.
fn put_line(text: &mut String, line: &Line<'_>, shown: Window) -> Result<(), AllocError> {
    if !shown.is_empty() {
        text.push(' ')?;
    }
    if shown.skipped > 0 {
        text.push_str("..")?;
    }
    put_cells(text, line.before, shown.skipped, shown.before)?;
    put_cells(text, line.inside, 0, shown.inside)?;
    put_cells(text, line.after, 0, shown.after)?;
    text.push_str(if shown.is_cut { "..\n" } else { "\n" })
}

/// Adds cells of a line.
fn put_cells(
    text: &mut String,
    line: &[u8],
    skipped: usize,
    count: usize,
) -> Result<(), AllocError> {
    for cell in cells_of(line).skip(skipped).take(count) {
        cell.put(text)?;
    }
    Ok(())
}

/// Adds blanks as wide as what is shown before the part.
fn put_indent(text: &mut String, line: &Line<'_>, shown: Window) -> Result<(), AllocError> {
    if shown.skipped > 0 {
        text.push_str("  ")?;
    }
    for cell in cells_of(line.before).skip(shown.skipped).take(shown.before) {
        cell.put_marks(text, ' ')?;
    }
    Ok(())
}

/// Adds carets as wide as what is shown of the part, but at least one.
fn put_carets(text: &mut String, line: &Line<'_>, shown: Window) -> Result<(), AllocError> {
    if cells_of(line.inside)
        .take(shown.inside)
        .all(|cell| cell.columns() == 0)
    {
        return text.push('^');
    }
    for cell in cells_of(line.inside).take(shown.inside) {
        cell.put_marks(text, '^')?;
    }
    Ok(())
}

/// Adds words, if there are any, and ends the line.
fn put_words(page: &mut Page, words: &str) -> Result<(), AllocError> {
    if !words.is_empty() {
        page.text.push(' ')?;
        page.put_escaped(words)?;
    }
    page.text.push('\n')
}

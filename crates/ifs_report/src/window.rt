//! What is shown of a long line.

/// The most columns of a line that are shown.
const MOST_COLUMNS: usize = 160;

/// Bytes that have more cells than are shown: a cell has at most four. What is farther from a part is never shown.
pub(crate) const MOST_BYTES: usize = 4 * (MOST_COLUMNS + 1);

/// The cells of a piece of a line: how many there are, and their columns.
#[derive(Clone, Copy)]
pub(crate) struct Extent {
    pub(crate) cells: usize,
    pub(crate) columns: usize,
    /// The columns of the widest one.
    pub(crate) widest: usize,
}

/// How many cells of a line are shown: before a part, of the part, and after it.
#[derive(Clone, Copy)]
pub(crate) struct Window {
    /// The cells left out at the start of the line.
    pub(crate) skipped: usize,
    pub(crate) before: usize,
    pub(crate) inside: usize,
    pub(crate) after: usize,
    /// Whether cells at the end of the line are left out.
    pub(crate) is_cut: bool,
}

impl Window {
    /// Whether nothing is shown.
    pub(crate) fn is_empty(self) -> bool {
        self.before == 0 && self.inside == 0 && self.after == 0
    }
}

/// Chooses what is shown of a line, by its cells before a part, of the part, and after it. It is all of a line of at most 160
/// columns. Otherwise it is as many cells as surely have no more, with the part in their middle, or with the start of a longer part.
pub(crate) fn choose(before: Extent, inside: Extent, after: Extent) -> Window {
    let most = most_cells(before, inside, after);
    choose_cells(before.cells, inside.cells, after.cells, most)
}

/// The most cells that are shown: all, or as many of the widest as have at most 160 columns.
fn most_cells(before: Extent, inside: Extent, after: Extent) -> usize {
    let columns = before
        .columns
        .saturating_add(inside.columns)
        .saturating_add(after.columns);
    let widest = before.widest.max(inside.widest).max(after.widest).max(1);
    if columns > MOST_COLUMNS {
        MOST_COLUMNS / widest
    } else {
        MOST_BYTES
    }
}

/// Chooses at most so many cells.
fn choose_cells(before: usize, inside: usize, after: usize, most: usize) -> Window {
    let all = before.saturating_add(inside).saturating_add(after);
    let around = most.saturating_sub(inside) / 2;
    let skipped = before.saturating_sub(around).min(all.saturating_sub(most));
    let shown_before = before.saturating_sub(skipped);
    let shown_inside = inside.min(most.saturating_sub(shown_before));
    let room = most
        .saturating_sub(shown_before)
        .saturating_sub(shown_inside);
    let shown_after = after.min(room);
    Window {
        skipped,
        before: shown_before,
        inside: shown_inside,
        after: shown_after,
        is_cut: shown_inside < inside || shown_after < after,
    }
}

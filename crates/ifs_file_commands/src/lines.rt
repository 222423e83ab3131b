//! The lines that are printed for valid bytes.

ghost use Rattle.std.specs.Prelude.{◌≡◌, ◌++◌, string_bytes, IfOk, OnOk};
ghost use Rattle.ifs_file_commands.specs.Lines.{budgets_line, size_line, note_line, note_lines, counts_line};

use ifs_image::Budgets;
use ifs_policy::{Counts, Policy};
use std::alloc::{AllocError, Global};

/// The line of an image's budgets.
pub(crate) fn of_budgets(alloc: Global, budgets: Budgets) -> Result<String, AllocError>
    ensures { IfOk result (λ line. string_bytes line ≡ budgets_line budgets) }
{
    let Budgets {
        stack,
        frames,
        cost,
        commands,
    } = budgets;
    format!(in alloc; "ok stack {stack} frames {frames} cost {cost} commands {commands}\n")
}

/// The line of a file of this size in bytes.
pub(crate) fn of_size(alloc: Global, size: usize) -> Result<String, AllocError>
    ensures { IfOk result (λ line. string_bytes line ≡ size_line size) }
{
    format!(in alloc; "ok {size} bytes\n")
}

/// Adds the line of a file of this size in bytes.
pub(crate) fn put_size(lines: &mut String, size: usize) -> Result<(), AllocError>
    ensures { OnOk result (string_bytes lines.new ≡ string_bytes lines.old ++ size_line size) }
{
    writeln!(lines, "ok {size} bytes")?;
    Ok(())
}

/// The lines of notes on these lines of a policy.
pub(crate) fn of_notes(alloc: Global, notes: &[u32]) -> Result<String, AllocError>
    ensures { IfOk result (λ lines. string_bytes lines ≡ note_lines notes.now) }
{
    let mut lines = String::new(alloc);
    for line in notes {
        put_note(&mut lines, *line)?;
    }
    Ok(lines)
}

/// Adds the line of a note.
fn put_note(lines: &mut String, line: u32) -> Result<(), AllocError>
    ensures { OnOk result (string_bytes lines.new ≡ string_bytes lines.old ++ note_line line) }
{
    writeln!(lines, "note line {line}: || and && without parentheses")?;
    Ok(())
}

/// Adds the line of the numbers of names and texts of a policy.
pub(crate) fn put_counts(lines: &mut String, policy: &Policy) -> Result<(), AllocError>
    ensures { OnOk result (string_bytes lines.new ≡ string_bytes lines.old ++ counts_line policy.now.tables) }
{
    let Counts {
        interfaces,
        tests,
        commands,
        states,
    } = policy.counts();
    writeln!(
        lines,
        "ok {interfaces} interfaces {tests} tests {commands} commands {states} states"
    )?;
    Ok(())
}

//! Writes the entries of tables.

ghost use Rattle.std.specs.Prelude.{◌≡◌, ◌++◌, List, ℕ, OnOk, All, string_bytes};
ghost use Rattle.std.specs.List.{flat_map};

use std::alloc::AllocError;

/// How the entries of a table are written.
pub(crate) trait Table<T> {
    // The lines of an entry.
    ghost text: { Self → T → List ℕ };

    // The entry is within its ranges.
    ghost InRange: { T → Type 0 };

    /// Writes the lines of an entry.
    fn put(&self, out: &mut String, entry: &T) -> Result<(), AllocError>
        ensures bytes { OnOk result (string_bytes out.new ≡ string_bytes out.old ++ text self.now entry.now) }
        ensures in_range { OnOk result (InRange entry.now) };
}

/// Writes the lines of all entries.
pub(crate) fn put_each<T, P: Table<T>>(
    out: &mut String,
    table: &P,
    entries: &[T],
) -> Result<(), AllocError>
    ensures bytes { OnOk result (string_bytes out.new ≡ string_bytes out.old ++ flat_map (P.text table.now) entries.now) }
    ensures in_range { OnOk result (All P.InRange entries.now) }
{
    for entry in entries {
        table.put(out, entry)?;
    }
    Ok(())
}

//! Tables of bounds.

ghost use Rattle.std.specs.Prelude.{ℕ, ◌≡◌, ◌<◌, ◌≤◌, length, slice_index};

/// The greater of two numbers.
pub fn greater(a: u32, b: u32) -> u32
    ensures left { a ≤ result }
    ensures right { b ≤ result }
    ensures least { (bound : ℕ) → a ≤ bound → b ≤ bound → result ≤ bound }
{
    if a < b { b } else { a }
}

/// An entry of a table.
pub fn entry(table: &Vec<u32>, routine: usize) -> u32
    requires { routine < length table.now.items }
    ensures { result ≡ slice_index table.now.items routine }
{
    table[routine]
}

//! A search in a table of what stands before each item.

ghost use Rattle.std.specs.Prelude.{◌≡◌, ◌+◌, ◌<◌, ◌≤◌, length, slice_index};

/// An item of the table that is at most `value`, where the next one, if there is one, is above it.
pub fn last_at_most(table: &[u64], value: u64) -> usize
    requires some { 0 < length table.now }
    requires first { slice_index table.now 0 ≤ value }
    ensures inside { result < length table.now }
    ensures low { slice_index table.now result ≤ value }
    ensures high { result + 1 < length table.now → value < slice_index table.now (result + 1) }
{
    let mut low = 0;
    let mut high = table.len();
    while high - low > 1 {
        let middle = low + (high - low) / 2;
        if table[middle] <= value {
            low = middle;
        } else {
            high = middle;
        }
    }
    low
}

//! How far from its first row and its first column a block has coefficients.

ghost use Rattle.std.specs.Prelude.{◌≡◌, ℕ, ◌+◌, ◌*◌, ◌<◌, ◌≤◌, true, pos, length};
ghost use Rattle.spec_transforms.specs.Matrices.{at};

/// How many rows there are up to the last one with a coefficient.
pub fn filled_rows<const SIZE: usize>(d: &[i32]) -> usize
    requires room { length d.now ≡ SIZE * SIZE }
    ensures count { result ≤ SIZE }
    ensures value { (i : ℕ) → SIZE * result ≤ i → at d.now i ≡ pos 0 }
    ensures least { (rows : ℕ) → ((i : ℕ) → SIZE * rows ≤ i → at d.now i ≡ pos 0) → result ≤ rows }
{
    for k in 0..SIZE {
        let row = SIZE - 1 - k;
        if !is_zero::<SIZE>(d, SIZE * row) {
            return row + 1;
        }
    }
    0
}

/// Whether as many numbers from `start` on are all 0.
#[inline(always)]
fn is_zero<const COUNT: usize>(numbers: &[i32], start: usize) -> bool
    requires room { start + COUNT ≤ length numbers.now }
    ensures zero { result ≡ true → (k : ℕ) → k < COUNT → at numbers.now (start + k) ≡ pos 0 }
    ensures only { ((k : ℕ) → k < COUNT → at numbers.now (start + k) ≡ pos 0) → result ≡ true }
{
    let mut zero = true;
    for k in 0..COUNT {
        zero &= numbers[start + k] == 0;
    }
    zero
}

/// How many columns there are up to the last one with a coefficient in the first `rows` rows.
pub fn filled_columns<const SIZE: usize>(d: &[i32], rows: usize) -> usize
    requires room { length d.now ≡ SIZE * SIZE }
    requires rows { rows ≤ SIZE }
    ensures count { result ≤ SIZE }
    ensures value { (x y : ℕ) → result ≤ x → x < SIZE → y < rows → at d.now (SIZE * y + x) ≡ pos 0 }
    ensures least { (columns : ℕ)
        → ((x y : ℕ) → columns ≤ x → x < SIZE → y < rows → at d.now (SIZE * y + x) ≡ pos 0) → result ≤ columns }
{
    for k in 0..SIZE {
        let column = SIZE - 1 - k;
        if !is_zero_column::<SIZE>(d, rows, column) {
            return column + 1;
        }
    }
    0
}

/// Whether a column has no coefficient in the first `rows` rows.
#[inline(always)]
fn is_zero_column<const SIZE: usize>(d: &[i32], rows: usize, column: usize) -> bool
    requires room { length d.now ≡ SIZE * SIZE }
    requires rows { rows ≤ SIZE }
    requires column { column < SIZE }
    ensures zero { result ≡ true → (y : ℕ) → y < rows → at d.now (SIZE * y + column) ≡ pos 0 }
    ensures only { ((y : ℕ) → y < rows → at d.now (SIZE * y + column) ≡ pos 0) → result ≡ true }
{
    for y in 0..rows {
        if d[SIZE * y + column] != 0 {
            return false;
        }
    }
    true
}

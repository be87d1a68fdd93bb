//! A transform matrix (8.6.4.2), and the size of a block.

ghost use Rattle.std.specs.Prelude.{Bool, true, false, ◌≡◌, ℕ, ◌+◌, ◌*◌, ◌^◌, ◌<◌, ◌≤◌, length};
ghost use Rattle.std.specs.List.{All};
ghost use Rattle.spec_transforms.specs.Matrices.{at, entry, matrix_in};
ghost use Rattle.spec_transforms.specs.Scaling.{IsSize};
ghost use Rattle.residual_transform.specs.Sums.{IsEntry, IsMatrix};

use spec_transforms::{COSINE_MATRIX, SINE_MATRIX};

/// The rows of a matrix, which stand `stride` apart in `entries` and have `size` columns.
#[derive(Clone, Copy)]
pub struct Matrix<'a> {
    /// The entries, row after row.
    pub entries: &'a [i32],
    /// How far in `entries` a row begins behind the one before.
    pub stride: usize,
    /// How many rows and columns there are: 4, 8, 16 or 32.
    pub size: usize,
}

/// The matrix of a transform of 2^`log2` columns and rows: of sines, or of cosines.
pub fn matrix_of(dst: bool, log2: u32) -> Matrix<'static>
    requires log2 { IsSize log2 }
    requires dst { dst ≡ true → log2 ≡ 2 }
    ensures size { result.size ≡ 2 ^ log2 }
    ensures value { matrix_in result.entries.now result.stride ≡ entry dst result.size }
    ensures matrix { IsMatrix result.entries.now result.stride result.size }
{
    if dst {
        sine_matrix()
    } else {
        cosine_matrix(log2)
    }
}

/// The matrix of sines, of 4 columns and rows.
#[tactic(auto, unfolding(spec_transforms::specs::Matrices::entry))]
fn sine_matrix() -> Matrix<'static>
    ensures size { result.size ≡ 4 }
    ensures value { matrix_in result.entries.now result.stride ≡ entry true result.size }
    ensures matrix { IsMatrix result.entries.now result.stride result.size }
{
    Matrix {
        entries: &SINE_MATRIX,
        stride: 4,
        size: 4,
    }
}

/// The matrix of cosines, of 2^`log2` columns and rows.
fn cosine_matrix(log2: u32) -> Matrix<'static>
    requires { IsSize log2 }
    ensures size { result.size ≡ 2 ^ log2 }
    ensures value { matrix_in result.entries.now result.stride ≡ entry false result.size }
    ensures matrix { IsMatrix result.entries.now result.stride result.size }
{
    let size = size_of(log2);
    Matrix {
        entries: &COSINE_MATRIX,
        stride: 32 * (32 / size),
        size,
    }
}

/// A row of a matrix.
pub fn row<'a>(matrix: &Matrix<'a>, k: usize) -> &'a [i32]
    requires matrix { IsMatrix matrix.now.entries.now matrix.now.stride matrix.now.size }
    requires k { k < matrix.now.size }
    ensures count { length result.now ≡ matrix.now.size }
    ensures value { (j : ℕ) → j < matrix.now.size
        → at result.now j ≡ matrix_in matrix.now.entries.now matrix.now.stride k j }
    ensures small { All IsEntry result.now }
{
    let start = matrix.stride * k;
    &matrix.entries[start..start + matrix.size]
}

/// How many columns and rows a block has.
pub fn size_of(log2: u32) -> usize
    requires { IsSize log2 }
    ensures value { result ≡ 2 ^ log2 }
    ensures some { 4 ≤ result }
    ensures few { result ≤ 32 }
{
    1 << log2
}

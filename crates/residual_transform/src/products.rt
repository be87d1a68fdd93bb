//! Sums of products, and how they are rounded.

ghost use Rattle.std.specs.Prelude.{◌≡◌, ℕ, ◌+◌, ◌-◌, ◌*◌, ◌^◌, ◌<◌, ◌≤◌, pos, negsuc, ◌+ℤ◌, ◌*ℤ◌, ◌≤ℤ◌, length};
ghost use Rattle.std.specs.Int.{int_shr};
ghost use Rattle.std.specs.List.{All};
ghost use Rattle.spec_arithmetic.specs.Rounding.{rounded};
ghost use Rattle.spec_arithmetic.specs.Sums.{int_sum_below};
ghost use Rattle.spec_transforms.specs.Matrices.{at, matrix_in};
ghost use Rattle.spec_transforms.specs.Scaling.{Is16, IsDepth, clip16};
ghost use Rattle.spec_transforms.specs.Transforms.{IsResidual, residual_of};
ghost use Rattle.residual_transform.specs.Sums.{IsEntry, IsMatrix, IsPartialSum, IsSum};

use crate::matrix::{Matrix, row};

/// The transform of a column of a block that has coefficients in its first `count` rows alone: a sum for each place
/// along it.
pub fn column_sums<const SIZE: usize>(
    values: &[i32],
    matrix: &Matrix<'_>,
    count: usize,
    column: usize,
) -> [i32; SIZE]
    requires same { matrix.now.size ≡ SIZE }
    requires matrix { IsMatrix matrix.now.entries.now matrix.now.stride SIZE }
    requires column { column < SIZE }
    requires count { count ≤ SIZE }
    requires room { SIZE * SIZE ≤ length values.now }
    requires values { All Is16 values.now }
    ensures value { (j : ℕ) → j < SIZE → at result j ≡ int_sum_below count
        (λ k. matrix_in matrix.now.entries.now matrix.now.stride k j *ℤ at values.now (SIZE * k + column)) }
    ensures small { (j : ℕ) → j < SIZE → IsSum (at result j) }
{
    let mut sums = [0; SIZE];
    for k in 0..count {
        add_row::<SIZE>(&mut sums, row(matrix, k), values[SIZE * k + column]);
    }
    sums
}

/// Adds a row of a matrix, or the beginning of one, times a coefficient, to sums.
#[inline(always)]
pub fn add_row<const SIZE: usize>(sums: &mut [i32; SIZE], row: &[i32], coefficient: i32)
    requires count { SIZE ≤ length row.now }
    requires entries { All IsEntry row.now }
    requires coefficient { Is16 coefficient }
    requires sums { (j : ℕ) → j < SIZE → IsPartialSum (at sums.old j) }
    ensures value { (j : ℕ) → j < SIZE → at sums.new j ≡ at sums.old j +ℤ at row.now j *ℤ coefficient }
{
    for j in 0..SIZE {
        sums[j] = with_product(sums[j], row[j], coefficient);
    }
}

/// A sum with one more product.
fn with_product(sum: i32, entry: i32, coefficient: i32) -> i32
    requires sum { IsPartialSum sum }
    requires entry { IsEntry entry }
    requires coefficient { Is16 coefficient }
    ensures { result ≡ sum +ℤ entry *ℤ coefficient }
{
    sum + product(entry, coefficient)
}

/// A product of an entry and a coefficient.
fn product(entry: i32, coefficient: i32) -> i32
    requires entry { IsEntry entry }
    requires coefficient { Is16 coefficient }
    ensures value { result ≡ entry *ℤ coefficient }
    ensures low { negsuc 2949119 ≤ℤ result }
    ensures high { result ≤ℤ pos 2949120 }
{
    entry * coefficient
}

/// What the first stage makes of a sum.
pub fn held(sum: i32) -> i32
    requires { IsSum sum }
    ensures value { result ≡ clip16 (rounded 7 sum) }
    ensures small { Is16 result }
{
    ((sum + 64) >> 7).clamp(-32768, 32767)
}

/// A residual of a value that the transformation process, or its place taken by transform skip, gives.
pub fn residual_of(sum: i32, depth: u32) -> i32
    requires sum { IsSum sum }
    requires depth { IsDepth depth }
    ensures value { result ≡ residual_of depth sum }
    ensures small { IsResidual result }
{
    let shift = 20 - depth;
    shifted(sum + half(shift), shift)
}

/// Half of 2^`shift`.
fn half(shift: u32) -> i32
    requires some_shift { 6 ≤ shift }
    requires shift { shift ≤ 12 }
    ensures value { result ≡ pos (2 ^ (shift - 1)) }
    ensures high { result ≤ℤ pos 2048 }
{
    1 << (shift - 1)
}

/// A number in units of 2^-`shift`, rounded down.
fn shifted(value: i32, shift: u32) -> i32
    requires low { negsuc 94373887 ≤ℤ value }
    requires high { value ≤ℤ pos 94373888 }
    requires some_shift { 6 ≤ shift }
    requires shift { shift ≤ 12 }
    ensures value { result ≡ int_shr value shift }
    ensures small { IsResidual result }
{
    value >> shift
}

//! The transform of a column by the even and the odd rows of a matrix.

ghost use Rattle.std.specs.Prelude.{◌≡◌, ℕ, ◌+◌, ◌-◌, ◌*◌, ◌<◌, ◌≤◌, ◌+ℤ◌, ◌-ℤ◌, ◌*ℤ◌, length};
ghost use Rattle.std.specs.List.{All};
ghost use Rattle.spec_arithmetic.specs.Sums.{int_sum_below};
ghost use Rattle.spec_transforms.specs.Matrices.{at, matrix_in};
ghost use Rattle.spec_transforms.specs.Scaling.{Is16};
ghost use Rattle.residual_transform.specs.Sums.{IsHalfSum, IsMatrix, IsSum};

use crate::matrix::{Matrix, row};
use crate::products::add_row;

/// The transform of a column, as `column_sums` gives it, in half as many products: the even rows of a matrix are the
/// same from both ends, the odd ones are opposite.
pub fn column_halves<const SIZE: usize, const HALF: usize>(
    values: &[i32],
    matrix: &Matrix<'_>,
    count: usize,
    column: usize,
) -> [i32; SIZE]
    requires half { 2 * HALF ≡ SIZE }
    requires large { 4 < SIZE }
    requires same { matrix.now.size ≡ SIZE }
    requires matrix { IsMatrix matrix.now.entries.now matrix.now.stride SIZE }
    requires column { column < SIZE }
    requires count { count ≤ SIZE }
    requires room { SIZE * SIZE ≤ length values.now }
    requires values { All Is16 values.now }
    ensures value { (j : ℕ) → j < SIZE → at result j ≡ int_sum_below count
        (λ k. matrix_in matrix.now.entries.now matrix.now.stride k j *ℤ at values.now (SIZE * k + column)) }
    ensures small { (j : ℕ) → j < SIZE → IsSum (at result j) }
{
    let even = even::<SIZE, HALF>(values, matrix, count.div_ceil(2), column);
    let odd = odd::<SIZE, HALF>(values, matrix, count / 2, column);
    unfolded::<SIZE, HALF>(&even, &odd)
}

/// What the even rows of a matrix add to the transform of a column (8.6.4.2), the first `count` of them, along half of
/// the places. From both ends it is the same.
#[inline(always)]
pub fn even<const SIZE: usize, const HALF: usize>(
    values: &[i32],
    matrix: &Matrix<'_>,
    count: usize,
    column: usize,
) -> [i32; HALF]
    requires half { 2 * HALF ≡ SIZE }
    requires same { matrix.now.size ≡ SIZE }
    requires matrix { IsMatrix matrix.now.entries.now matrix.now.stride SIZE }
    requires column { column < SIZE }
    requires count { count ≤ HALF }
    requires room { SIZE * SIZE ≤ length values.now }
    requires values { All Is16 values.now }
    ensures value { (j : ℕ) → j < HALF → at result j ≡ int_sum_below count
        (λ k. matrix_in matrix.now.entries.now matrix.now.stride (2 * k) j
        *ℤ at values.now (SIZE * (2 * k) + column)) }
    ensures small { (j : ℕ) → j < HALF → IsHalfSum (at result j) }
{
    half_sums::<SIZE, HALF>(values, matrix, 0, count, column)
}

/// What its odd rows add. From both ends it is opposite.
#[inline(always)]
pub fn odd<const SIZE: usize, const HALF: usize>(
    values: &[i32],
    matrix: &Matrix<'_>,
    count: usize,
    column: usize,
) -> [i32; HALF]
    requires half { 2 * HALF ≡ SIZE }
    requires same { matrix.now.size ≡ SIZE }
    requires matrix { IsMatrix matrix.now.entries.now matrix.now.stride SIZE }
    requires column { column < SIZE }
    requires count { count ≤ HALF }
    requires room { SIZE * SIZE ≤ length values.now }
    requires values { All Is16 values.now }
    ensures value { (j : ℕ) → j < HALF → at result j ≡ int_sum_below count
        (λ k. matrix_in matrix.now.entries.now matrix.now.stride (2 * k + 1) j
        *ℤ at values.now (SIZE * (2 * k + 1) + column)) }
    ensures small { (j : ℕ) → j < HALF → IsHalfSum (at result j) }
{
    half_sums::<SIZE, HALF>(values, matrix, 1, count, column)
}

/// The sums of every other row of a matrix from `first` on, `count` rows in all, along the first half of the places.
#[inline(always)]
fn half_sums<const SIZE: usize, const HALF: usize>(
    values: &[i32],
    matrix: &Matrix<'_>,
    first: usize,
    count: usize,
    column: usize,
) -> [i32; HALF]
    requires half { 2 * HALF ≡ SIZE }
    requires first { first < 2 }
    requires same { matrix.now.size ≡ SIZE }
    requires matrix { IsMatrix matrix.now.entries.now matrix.now.stride SIZE }
    requires column { column < SIZE }
    requires count { count ≤ HALF }
    requires room { SIZE * SIZE ≤ length values.now }
    requires values { All Is16 values.now }
    ensures value { (j : ℕ) → j < HALF → at result j ≡ int_sum_below count
        (λ k. matrix_in matrix.now.entries.now matrix.now.stride (2 * k + first) j
        *ℤ at values.now (SIZE * (2 * k + first) + column)) }
    ensures small { (j : ℕ) → j < HALF → IsHalfSum (at result j) }
{
    let mut sums = [0; HALF];
    for k in 0..count {
        let line = 2 * k + first;
        add_row::<HALF>(&mut sums, row(matrix, line), values[SIZE * line + column]);
    }
    sums
}

/// What the sums of the even and the odd rows add up to, from both ends.
#[inline(always)]
fn unfolded<const SIZE: usize, const HALF: usize>(
    even: &[i32; HALF],
    odd: &[i32; HALF],
) -> [i32; SIZE]
    requires half { 2 * HALF ≡ SIZE }
    requires even { (j : ℕ) → j < HALF → IsHalfSum (at even.now j) }
    requires odd { (j : ℕ) → j < HALF → IsHalfSum (at odd.now j) }
    ensures front { (j : ℕ) → j < HALF → at result j ≡ at even.now j +ℤ at odd.now j }
    ensures back { (j : ℕ) → j < HALF → at result (SIZE - 1 - j) ≡ at even.now j -ℤ at odd.now j }
{
    let mut sums = [0; SIZE];
    for j in 0..HALF {
        sums[j] = sum(even[j], odd[j]);
        sums[SIZE - 1 - j] = difference(even[j], odd[j]);
    }
    sums
}

/// The sum of two halves.
fn sum(even: i32, odd: i32) -> i32
    requires even { IsHalfSum even }
    requires odd { IsHalfSum odd }
    ensures value { result ≡ even +ℤ odd }
{
    even + odd
}

/// The difference of two halves.
fn difference(even: i32, odd: i32) -> i32
    requires even { IsHalfSum even }
    requires odd { IsHalfSum odd }
    ensures value { result ≡ even -ℤ odd }
{
    even - odd
}

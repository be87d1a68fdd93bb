//! The transformation process for scaled transform coefficients (8.6.4), and its rounding (8.6.2).

ghost use Rattle.std.specs.Prelude.{◌≡◌, ℕ, ◌+◌, ◌*◌, ◌^◌, ◌<◌, ◌≤◌, ◌*ℤ◌, Bool, true, length};
ghost use Rattle.std.specs.List.{All};
ghost use Rattle.spec_arithmetic.specs.Rounding.{rounded};
ghost use Rattle.spec_arithmetic.specs.Sums.{int_sum_below};
ghost use Rattle.spec_transforms.specs.Matrices.{at, matrix_in};
ghost use Rattle.spec_transforms.specs.Scaling.{Is16, IsDepth, IsSize, clip16};
ghost use Rattle.spec_transforms.specs.Transforms.{IsResidual, block_in, first_stage, residual_of, second_stage};
ghost use Rattle.spec_transforms.specs.Transforms.{transformed};
ghost use Rattle.residual_transform.specs.Sums.{IsMatrix, IsSum};

use crate::filled::{filled_columns, filled_rows};
use crate::halves::column_halves;
use crate::matrix::{Matrix, matrix_of};
use crate::products::{column_sums, held, residual_of};

/// The residuals `out` of the scaled coefficients `d` of a block of 2^`log2` columns and rows, both row after row.
///
/// `dst` asks for the transform of sines, which 4x4 luma blocks of intra prediction have; `depth` is the bit depth of
/// the component.
pub fn inverse(d: &[i32], log2: u32, dst: bool, depth: u32, out: &mut [i32])
    requires depth { IsDepth depth }
    requires log2 { IsSize log2 }
    requires dst { dst ≡ true → log2 ≡ 2 }
    requires coefficients { All Is16 d.now }
    requires count { length d.now ≡ 2 ^ log2 * 2 ^ log2 }
    requires room { length out.old ≡ length d.now }
    ensures value { (x y : ℕ) → x < 2 ^ log2 → y < 2 ^ log2
        → block_in (2 ^ log2) out.new x y ≡ transformed depth dst (2 ^ log2) (block_in (2 ^ log2) d.now) x y }
    ensures small { All IsResidual out.new }
{
    let matrix = matrix_of(dst, log2);
    match log2 {
        2 => transform_whole::<4, 2, 16>(d, &matrix, depth, out),
        3 => transform::<8, 4, 64>(d, &matrix, depth, out),
        4 => transform::<16, 8, 256>(d, &matrix, depth, out),
        _ => transform::<32, 16, 1024>(d, &matrix, depth, out),
    }
}

/// Both stages, over the rows and columns that have coefficients. What is between them stands column after column, so
/// that the second reads its rows as columns.
fn transform<const SIZE: usize, const HALF: usize, const AREA: usize>(
    d: &[i32],
    matrix: &Matrix<'_>,
    depth: u32,
    out: &mut [i32],
)
    requires same { matrix.now.size ≡ SIZE }
    requires half { 2 * HALF ≡ SIZE }
    requires area { SIZE * SIZE ≡ AREA }
    requires depth { IsDepth depth }
    requires matrix { IsMatrix matrix.now.entries.now matrix.now.stride SIZE }
    requires coefficients { All Is16 d.now }
    requires count { length d.now ≡ SIZE * SIZE }
    requires room { length out.old ≡ length d.now }
    ensures value { (x y : ℕ) → x < SIZE → y < SIZE → block_in SIZE out.new x y
        ≡ residual_of depth (second_stage (matrix_in matrix.now.entries.now matrix.now.stride) SIZE
        (first_stage (matrix_in matrix.now.entries.now matrix.now.stride) SIZE (block_in SIZE d.now)) x y) }
    ensures small { All IsResidual out.new }
{
    let rows = filled_rows::<SIZE>(d);
    let columns = filled_columns::<SIZE>(d, rows);
    let mut between = [0; AREA];
    transform_columns::<SIZE, HALF, AREA>(d, matrix, Filled { rows, columns }, &mut between);
    transform_rows::<SIZE, HALF, AREA>(&between, matrix, columns, depth, out);
}

/// Both stages, over all rows and columns.
///
/// How many columns there are is the matrix's to say: by a bound that isn't constant what is between the stages stays
/// in
/// memory, line by line, from which the compiler makes vectors.
#[inline(never)]
fn transform_whole<const SIZE: usize, const HALF: usize, const AREA: usize>(
    d: &[i32],
    matrix: &Matrix<'_>,
    depth: u32,
    out: &mut [i32],
)
    requires same { matrix.now.size ≡ SIZE }
    requires half { 2 * HALF ≡ SIZE }
    requires area { SIZE * SIZE ≡ AREA }
    requires depth { IsDepth depth }
    requires matrix { IsMatrix matrix.now.entries.now matrix.now.stride SIZE }
    requires coefficients { All Is16 d.now }
    requires count { length d.now ≡ SIZE * SIZE }
    requires room { length out.old ≡ length d.now }
    ensures value { (x y : ℕ) → x < SIZE → y < SIZE → block_in SIZE out.new x y
        ≡ residual_of depth (second_stage (matrix_in matrix.now.entries.now matrix.now.stride) SIZE
        (first_stage (matrix_in matrix.now.entries.now matrix.now.stride) SIZE (block_in SIZE d.now)) x y) }
    ensures small { All IsResidual out.new }
{
    let all = Filled {
        rows: SIZE,
        columns: matrix.size,
    };
    let mut between = [0; AREA];
    transform_columns::<SIZE, HALF, AREA>(d, matrix, all, &mut between);
    transform_rows::<SIZE, HALF, AREA>(&between, matrix, SIZE, depth, out);
}

/// How many rows and columns have coefficients.
#[derive(Clone, Copy)]
struct Filled {
    rows: usize,
    columns: usize,
}

/// The first stage; the column `x` stands at `size * x`.
fn transform_columns<const SIZE: usize, const HALF: usize, const AREA: usize>(
    d: &[i32],
    matrix: &Matrix<'_>,
    filled: Filled,
    out: &mut [i32; AREA],
)
    requires same { matrix.now.size ≡ SIZE }
    requires half { 2 * HALF ≡ SIZE }
    requires area { SIZE * SIZE ≡ AREA }
    requires matrix { IsMatrix matrix.now.entries.now matrix.now.stride SIZE }
    requires coefficients { All Is16 d.now }
    requires count { length d.now ≡ SIZE * SIZE }
    requires rows { filled.rows ≤ SIZE }
    requires columns { filled.columns ≤ SIZE }
    requires out { All Is16 out.old }
    ensures value { (x y : ℕ) → x < filled.columns → y < SIZE → block_in SIZE out.new y x
        ≡ clip16 (rounded 7 (int_sum_below filled.rows
        (λ k. matrix_in matrix.now.entries.now matrix.now.stride k y *ℤ at d.now (SIZE * k + x)))) }
    ensures small { All Is16 out.new }
{
    for column in 0..filled.columns {
        let sums = sums_of::<SIZE, HALF>(d, matrix, filled.rows, column);
        store_held::<SIZE, AREA>(&sums, out, SIZE * column);
    }
}

/// The second stage over the columns that the first stored.
fn transform_rows<const SIZE: usize, const HALF: usize, const AREA: usize>(
    g: &[i32; AREA],
    matrix: &Matrix<'_>,
    columns: usize,
    depth: u32,
    out: &mut [i32],
)
    requires same { matrix.now.size ≡ SIZE }
    requires half { 2 * HALF ≡ SIZE }
    requires area { SIZE * SIZE ≡ AREA }
    requires depth { IsDepth depth }
    requires matrix { IsMatrix matrix.now.entries.now matrix.now.stride SIZE }
    requires values { All Is16 g.now }
    requires columns { columns ≤ SIZE }
    requires room { length out.old ≡ SIZE * SIZE }
    ensures value { (x y : ℕ) → x < SIZE → y < SIZE → block_in SIZE out.new x y
        ≡ residual_of depth (int_sum_below columns
        (λ k. matrix_in matrix.now.entries.now matrix.now.stride k x *ℤ block_in SIZE g.now y k)) }
    ensures small { All IsResidual out.new }
{
    for line in 0..SIZE {
        let sums = sums_of::<SIZE, HALF>(g, matrix, columns, line);
        store_residuals::<SIZE>(&sums, out, SIZE * line, depth);
    }
}

/// The transform of a column: by halves, unless they are too short to gain from that.
fn sums_of<const SIZE: usize, const HALF: usize>(
    values: &[i32],
    matrix: &Matrix<'_>,
    count: usize,
    column: usize,
) -> [i32; SIZE]
    requires half { 2 * HALF ≡ SIZE }
    requires same { matrix.now.size ≡ SIZE }
    requires matrix { IsMatrix matrix.now.entries.now matrix.now.stride SIZE }
    requires column { column < SIZE }
    requires count { count ≤ SIZE }
    requires room { SIZE * SIZE ≤ length values.now }
    requires values { All Is16 values.now }
    ensures value { (j : ℕ) → j < SIZE → at result j ≡ int_sum_below count
        (λ k. matrix_in matrix.now.entries.now matrix.now.stride k j *ℤ at values.now (SIZE * k + column)) }
    ensures small { (j : ℕ) → j < SIZE → IsSum (at result j) }
{
    if SIZE > 4 {
        column_halves::<SIZE, HALF>(values, matrix, count, column)
    } else {
        column_sums::<SIZE>(values, matrix, count, column)
    }
}

/// Stores what the first stage makes of sums, from `start` on.
#[inline(always)]
fn store_held<const SIZE: usize, const AREA: usize>(
    sums: &[i32; SIZE],
    out: &mut [i32; AREA],
    start: usize,
)
    requires sums { (j : ℕ) → j < SIZE → IsSum (at sums.now j) }
    requires room { start + SIZE ≤ AREA }
    requires out { All Is16 out.old }
    ensures here { (j : ℕ) → j < SIZE → at out.new (start + j) ≡ clip16 (rounded 7 (at sums.now j)) }
    ensures before { (i : ℕ) → i < start → at out.new i ≡ at out.old i }
    ensures small { All Is16 out.new }
{
    for j in 0..SIZE {
        out[start + j] = held(sums[j]);
    }
}

/// Stores the residuals of sums, from `start` on.
#[inline(always)]
fn store_residuals<const SIZE: usize>(sums: &[i32; SIZE], out: &mut [i32], start: usize, depth: u32)
    requires depth { IsDepth depth }
    requires sums { (j : ℕ) → j < SIZE → IsSum (at sums.now j) }
    requires room { start + SIZE ≤ length out.old }
    ensures here { (j : ℕ) → j < SIZE → at out.new (start + j) ≡ residual_of depth (at sums.now j) }
    ensures before { (i : ℕ) → i < start → at out.new i ≡ at out.old i }
    ensures small { (j : ℕ) → j < SIZE → IsResidual (at out.new (start + j)) }
{
    for j in 0..SIZE {
        out[start + j] = residual_of(sums[j], depth);
    }
}

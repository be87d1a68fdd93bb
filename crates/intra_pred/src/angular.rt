//! Prediction along a direction (8.4.4.2.6).

ghost use Rattle.std.specs.Prelude.{◌≡◌, ◌≤◌, ◌<◌, ◌+◌, ◌-◌, ◌*◌, ◌^◌, ◌/◌, ◌%◌, ℕ, pos, negsuc, ◌+ℤ◌, ◌-ℤ◌, ◌≤ℤ◌};
ghost use Rattle.std.specs.Prelude.{length, true, cond, nat_le, nat_lt, ◌&&◌, ◌||◌, ◌==◌};
ghost use Rattle.std.specs.Int.{int_shr};
ghost use Rattle.intra_pred.specs.Reference.{IsReference};
ghost use Rattle.spec_intra_prediction.specs.Neighbours.{at};
ghost use Rattle.spec_intra_prediction.specs.Angular.{angle, angular, inverse_angle, met, met_sample, between};
ghost use Rattle.spec_intra_prediction.specs.Angular.{reference, stepped};

use crate::rows::{columns, greatest};
use spec_intra_prediction::{inverse_angle, pred_angle};

/// A direction, at a block of 2^`log2` columns.
#[derive(Clone, Copy, Debug)]
pub struct Direction {
    /// The size of the block.
    pub log2: u32,
    /// The prediction mode.
    pub mode: u8,
    /// Whether horizontal and vertical filter the edge.
    pub edges: bool,
    /// The bits of a sample.
    pub depth: u32,
}

/// Writes the prediction of a block along a direction, line after line. `main` and `side` begin with the corner; for
/// the modes below 18 they are the samples on the left and above, and the block is written with columns for lines.
pub fn angular(main: &[u16], side: &[u16], direction: Direction, out: &mut [u16])
    requires log2 { (2 ≤ direction.log2) × (direction.log2 ≤ 5) }
    requires mode { (2 ≤ direction.mode) × (direction.mode ≤ 34) }
    requires depth { (8 ≤ direction.depth) × (direction.depth ≤ 16) }
    requires main { length main.now ≡ 2 * 2 ^ direction.log2 + 1 }
    requires side { length side.now ≡ 2 * 2 ^ direction.log2 + 1 }
    requires out { 2 ^ direction.log2 * 2 ^ direction.log2 ≤ length out.old }
    ensures value { (x y : ℕ) → x < 2 ^ direction.log2 → y < 2 ^ direction.log2
        → at out.new (2 ^ direction.log2 * y + x)
        ≡ angular direction.edges direction.log2 direction.mode direction.depth main.now side.now x y }
    ensures rest { (k : ℕ) → 2 ^ direction.log2 * 2 ^ direction.log2 ≤ k → at out.new k ≡ at out.old k }
{
    let n = columns(direction.log2);
    let mut reference = [0; 98];
    fill(main, side, direction.mode, n, &mut reference);
    let sides = Sides { main, side };
    let small = greatest(&reference) < 512;
    for y in 0..n {
        line(
            &sides,
            direction,
            &reference,
            LinePlace { n, y, small },
            out,
        );
    }
}

/// The main side and the other one, both from the corner on.
#[derive(Clone, Copy)]
struct Sides<'a> {
    main: &'a [u16],
    side: &'a [u16],
}

/// A line of a block of `n` columns, and whether all reference samples are below 512.
#[derive(Clone, Copy)]
struct LinePlace {
    n: usize,
    y: usize,
    small: bool,
}

/// Writes the reference samples of a direction, `n` places behind.
fn fill(main: &[u16], side: &[u16], mode: u8, n: usize, reference: &mut [u16; 98])
    requires n { n ≤ 32 }
    requires mode { (2 ≤ mode) × (mode ≤ 34) }
    requires main { length main.now ≡ 2 * n + 1 }
    requires side { length side.now ≡ 2 * n + 1 }
    ensures { IsReference n mode main.now side.now reference.new }
{
    lay_main(main, n, reference);
    let angle = pred_angle(mode);
    if angle < 0 {
        lay_side(
            side,
            n,
            angle.unsigned_abs() as usize,
            inverse_angle(mode),
            reference,
        );
    }
}

/// Copies the main side, from its corner on.
fn lay_main(main: &[u16], n: usize, reference: &mut [u16; 98])
    requires n { n ≤ 32 }
    requires main { length main.now ≡ 2 * n + 1 }
    ensures { (q : ℕ) → at reference.new q
        ≡ cond (nat_le n q && nat_lt q (n + (2 * n + 1))) (at main.now (q - n)) (at reference.old q) }
{
    for k in 0..2 * n + 1 {
        reference[n + k] = main[k];
    }
}

/// Writes what lies before the corner, of the side, by the inverse angle.
fn lay_side(side: &[u16], n: usize, size: usize, inverse: usize, reference: &mut [u16; 98])
    requires n { n ≤ 32 }
    requires size { size ≤ 32 }
    requires inverse { inverse ≤ 4096 }
    requires product { size * inverse ≤ 8208 }
    requires side { length side.now ≡ 2 * n + 1 }
    ensures { (q : ℕ) → at reference.new q
        ≡ cond (nat_lt q n && nat_lt (32 * (n - q)) (n * size)) (at side.now (((n - q) * inverse + 128) / 256))
        (at reference.old q) }
{
    for j in 1..(n * size + 31) / 32 {
        reference[n - j] = side[side_place(j, inverse)];
    }
}

/// Which sample of the side stands so many places before the corner.
#[inline(always)]
fn side_place(places: usize, inverse: usize) -> usize
    requires places { places ≤ 32 }
    requires inverse { inverse ≤ 4096 }
    ensures { result ≡ (places * inverse + 128) / 256 }
{
    (places * inverse + 128) / 256
}

/// A line of the prediction.
fn line(
    sides: &Sides<'_>,
    direction: Direction,
    reference: &[u16; 98],
    line: LinePlace,
    out: &mut [u16],
)
    requires n { line.n ≡ 2 ^ direction.log2 }
    requires few { line.n ≤ 32 }
    requires log2 { (2 ≤ direction.log2) × (direction.log2 ≤ 5) }
    requires mode { (2 ≤ direction.mode) × (direction.mode ≤ 34) }
    requires depth { (8 ≤ direction.depth) × (direction.depth ≤ 16) }
    requires y { line.y < line.n }
    requires main { length sides.now.main.now ≡ 2 * line.n + 1 }
    requires side { length sides.now.side.now ≡ 2 * line.n + 1 }
    requires reference { IsReference line.n direction.mode sides.now.main.now sides.now.side.now reference.now }
    requires small { line.small ≡ true → (k : ℕ) → k < 98 → at reference.now k < 512 }
    requires out { line.n * line.y + line.n ≤ length out.old }
    ensures { (q : ℕ) → at out.new q
        ≡ cond (nat_le (line.n * line.y) q && nat_lt q (line.n * line.y + line.n))
        (angular direction.edges direction.log2 direction.mode direction.depth sides.now.main.now sides.now.side.now
        (q - line.n * line.y) line.y)
        (at out.old q) }
{
    let first = line.n * line.y;
    let place = met(line.n, pred_angle(direction.mode), line.y);
    met_line(reference, place, direction.log2, line.small, first, out);
    if has_edge(direction) {
        let main = sides.main;
        out[first] = stepped(direction.depth, main[1], sides.side[line.y + 1], main[0]);
    }
}

/// Whether the edge beside the side is filtered.
#[inline(always)]
fn has_edge(direction: Direction) -> bool
    ensures { result ≡ (direction.edges && (direction.mode == 10 || direction.mode == 26)) }
{
    direction.edges && (direction.mode == 10 || direction.mode == 26)
}

/// Where a line meets the reference samples, in 1/32 of a sample.
fn met(n: usize, angle: i32, y: usize) -> usize
    requires n { n ≤ 32 }
    requires least { negsuc 31 ≤ℤ angle }
    requires greatest { angle ≤ℤ pos 32 }
    requires y { y < n }
    ensures value { result ≡ met n angle y }
    ensures greatest { result ≤ 64 * n }
{
    let size = angle.unsigned_abs() as usize;
    if angle < 0 {
        32 * n - (y + 1) * size
    } else {
        32 * n + (y + 1) * size
    }
}

/// A line of 2^`log2` samples between those that it meets; `small` says that all are below 512.
fn met_line(
    reference: &[u16; 98],
    place: usize,
    log2: u32,
    small: bool,
    first: usize,
    out: &mut [u16],
)
    requires log2 { (2 ≤ log2) × (log2 ≤ 5) }
    requires place { place ≤ 64 * 2 ^ log2 }
    requires small { small ≡ true → (k : ℕ) → k < 98 → at reference.now k < 512 }
    requires out { first + 2 ^ log2 ≤ length out.old }
    ensures { (q : ℕ) → at out.new q
        ≡ cond (nat_le first q && nat_lt q (first + 2 ^ log2))
        (between (place % 32) (at reference.now (place / 32 + (q - first) + 1))
        (at reference.now (place / 32 + (q - first) + 2)))
        (at out.old q) }
{
    if small {
        small_line(reference, place, log2, first, out);
    } else {
        wide_line(reference, place, log2, first, out);
    }
}

/// A line of 2^`log2` samples between those that it meets, whatever they are.
fn wide_line(reference: &[u16; 98], place: usize, log2: u32, first: usize, out: &mut [u16])
    requires log2 { (2 ≤ log2) × (log2 ≤ 5) }
    requires place { place ≤ 64 * 2 ^ log2 }
    requires out { first + 2 ^ log2 ≤ length out.old }
    ensures { (q : ℕ) → at out.new q
        ≡ cond (nat_le first q && nat_lt q (first + 2 ^ log2))
        (between (place % 32) (at reference.now (place / 32 + (q - first) + 1))
        (at reference.now (place / 32 + (q - first) + 2)))
        (at out.old q) }
{
    match log2 {
        2 => met_samples::<4>(reference, place, first, out),
        3 => met_samples::<8>(reference, place, first, out),
        4 => met_samples::<16>(reference, place, first, out),
        _ => met_samples::<32>(reference, place, first, out),
    }
}

/// So many samples of a line, between those that they meet.
#[inline(always)]
fn met_samples<const COUNT: usize>(
    reference: &[u16; 98],
    place: usize,
    first: usize,
    out: &mut [u16],
)
    requires few { COUNT ≤ 32 }
    requires place { place ≤ 64 * COUNT }
    requires out { first + COUNT ≤ length out.old }
    ensures { (q : ℕ) → at out.new q
        ≡ cond (nat_le first q && nat_lt q (first + COUNT))
        (between (place % 32) (at reference.now (place / 32 + (q - first) + 1))
        (at reference.now (place / 32 + (q - first) + 2)))
        (at out.old q) }
{
    let whole = place / 32;
    let part = (place % 32) as u32;
    for x in 0..COUNT {
        out[first + x] = between(part, reference[whole + x + 1], reference[whole + x + 2]);
    }
}

/// Two samples, by 1/32 of the way between them.
#[inline(always)]
fn between(part: u32, first: u16, second: u16) -> u16
    requires { part < 32 }
    ensures { result ≡ between part first second }
{
    (((32 - part) * u32::from(first) + part * u32::from(second) + 16) / 32) as u16
}

/// A line of 2^`log2` samples between those that it meets, which are below 512.
fn small_line(reference: &[u16; 98], place: usize, log2: u32, first: usize, out: &mut [u16])
    requires log2 { (2 ≤ log2) × (log2 ≤ 5) }
    requires place { place ≤ 64 * 2 ^ log2 }
    requires small { (k : ℕ) → k < 98 → at reference.now k < 512 }
    requires out { first + 2 ^ log2 ≤ length out.old }
    ensures { (q : ℕ) → at out.new q
        ≡ cond (nat_le first q && nat_lt q (first + 2 ^ log2))
        (between (place % 32) (at reference.now (place / 32 + (q - first) + 1))
        (at reference.now (place / 32 + (q - first) + 2)))
        (at out.old q) }
{
    match log2 {
        2 => small_samples::<4>(reference, place, first, out),
        3 => small_samples::<8>(reference, place, first, out),
        4 => small_samples::<16>(reference, place, first, out),
        _ => small_samples::<32>(reference, place, first, out),
    }
}

/// So many samples of a line, between those that they meet, which are below 512.
#[inline(always)]
fn small_samples<const COUNT: usize>(
    reference: &[u16; 98],
    place: usize,
    first: usize,
    out: &mut [u16],
)
    requires few { COUNT ≤ 32 }
    requires place { place ≤ 64 * COUNT }
    requires small { (k : ℕ) → k < 98 → at reference.now k < 512 }
    requires out { first + COUNT ≤ length out.old }
    ensures { (q : ℕ) → at out.new q
        ≡ cond (nat_le first q && nat_lt q (first + COUNT))
        (between (place % 32) (at reference.now (place / 32 + (q - first) + 1))
        (at reference.now (place / 32 + (q - first) + 2)))
        (at out.old q) }
{
    let whole = place / 32;
    let part = (place % 32) as u16;
    for x in 0..COUNT {
        out[first + x] = small_between(part, reference[whole + x + 1], reference[whole + x + 2]);
    }
}

/// Two samples below 512, by 1/32 of the way between them.
#[inline(always)]
fn small_between(part: u16, first: u16, second: u16) -> u16
    requires part { part < 32 }
    requires first { first < 512 }
    requires second { second < 512 }
    ensures { result ≡ between part first second }
{
    ((32 - part) * first + part * second + 16) / 32
}

/// A sample moved by half of what the side changes, clipped to the range of samples.
fn stepped(depth: u32, first: u16, now: u16, corner: u16) -> u16
    requires depth { (8 ≤ depth) × (depth ≤ 16) }
    ensures { result ≡ stepped depth first now corner }
{
    (i32::from(first) + half_change(now, corner)).clamp(0, greatest_sample(depth)) as u16
}

/// Half of how much a sample is above another.
fn half_change(now: u16, corner: u16) -> i32
    ensures value { result ≡ int_shr (pos now -ℤ pos corner) 1 }
    ensures least { negsuc 65535 ≤ℤ result }
    ensures greatest { result ≤ℤ pos 65535 }
{
    (i32::from(now) - i32::from(corner)) >> 1
}

/// The greatest sample of so many bits.
fn greatest_sample(depth: u32) -> i32
    requires depth { (8 ≤ depth) × (depth ≤ 16) }
    ensures value { result ≡ pos (2 ^ depth - 1) }
    ensures least { pos 0 ≤ℤ result }
    ensures greatest { result ≤ℤ pos 65535 }
{
    (1 << depth) - 1
}

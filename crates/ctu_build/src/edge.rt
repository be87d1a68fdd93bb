//! The neighbours of an intra block, where prediction isn't constrained to intra samples.

ghost use Rattle.std.specs.Prelude.{◌≡◌, ◌≤◌, ◌<◌, ◌+◌, ◌-◌, ◌*◌, ◌^◌, ℕ, length, take, cond, nat_lt, true, false};
ghost use Rattle.std.specs.Prelude.{slice_index_or};
ghost use Rattle.ctu_build.specs.Beside.{AreBeside, IsCopied, above_cell, is_known, left_cell, value_in};
ghost use Rattle.ctu_build.specs.Held.{IsInside, cell, held};
ghost use Rattle.spec_intra_prediction.specs.Neighbours.{at, beside, known_beside};
ghost use Rattle.spec_intra_prediction.specs.Substitution.{first_available, following, sample_or, substituted};

use crate::lines::lay_line;
use crate::place::Place;
use crate::unit_samples::UnitSamples;
use intra_pred::Border;

/// Writes the neighbours of a block from the bottom of the left column on, each that isn't known as the one before it
/// (8.4.4.2.2).
pub(crate) fn write_edge(samples: &UnitSamples, place: Place, depth: u32, edge: &mut [u16])
    requires place { IsInside place }
    requires some_depth { 1 ≤ depth }
    requires depth { depth ≤ 16 }
    requires room { 4 * 2 ^ place.log2 + 1 ≤ length edge.old }
    ensures { take (4 * 2 ^ place.log2 + 1) edge.new
        ≡ substituted depth (beside (held samples.now place.c) (2 ^ place.log2) place.x place.y) }
{
    if !write_run(samples, place, edge) {
        let n = place.side() as u32;
        let first = first_known(samples, place, n, 1 << (depth - 1));
        write_known(samples, place, n, first, edge);
    }
}

/// The cells beside a block of two columns for each of so many groups: what they have, where the corner is, and how
/// many groups of four neighbours stand on the left and above.
#[derive(Clone, Copy)]
struct Beside<'a> {
    values: &'a [u16],
    known: &'a [bool],
    corner: usize,
    groups: usize,
}

/// Writes the neighbours where those that are known follow one another up to the corner, and says whether they do.
fn write_run(samples: &UnitSamples, place: Place, edge: &mut [u16]) -> bool
    requires place { IsInside place }
    requires room { 4 * 2 ^ place.log2 + 1 ≤ length edge.old }
    ensures { result ≡ true → (depth : ℕ) → take (4 * 2 ^ place.log2 + 1) edge.new
        ≡ substituted depth (beside (held samples.now place.c) (2 ^ place.log2) place.x place.y) }
{
    let groups = place.side() / 2;
    let line = place.y as usize;
    let outside = (line + 4 * groups).saturating_sub(64);
    if outside % 4 != 0 {
        return false;
    }
    let beside = Beside {
        values: samples.values(),
        known: samples.known(),
        corner: corner_of(place),
        groups,
    };
    let below = unknown_below(&beside, outside / 4);
    write_left(&beside, below, edge) && write_above(&beside, edge)
}

/// The cell of the corner of a block's neighbours.
fn corner_of(place: Place) -> usize
    requires place { IsInside place }
    ensures { result ≡ cell place.c place.x place.y }
{
    8385 * usize::from(place.c) + 129 * place.y as usize + place.x as usize
}

/// How many groups from the bottom of the left column have no sample that is known, where so many lie outside.
fn unknown_below(beside: &Beside<'_>, outside: usize) -> usize
    requires beside { AreBeside beside.now }
    requires outside { outside ≤ beside.now.groups }
    requires bottom { beside.now.corner + 129 * (4 * beside.now.groups - 4 * outside) < 25155 }
    ensures least { outside ≤ result }
    ensures greatest { result ≤ beside.now.groups }
    ensures value { (k : ℕ) → 4 * outside ≤ k → k < 4 * result → is_known beside.now (left_cell beside.now k) ≡ false }
{
    for group in outside..beside.groups {
        if some_up(beside.known, beside.corner + 516 * (beside.groups - group)) {
            return group;
        }
    }
    beside.groups
}

/// Writes the left column from a group on, and the corner, where all are known, and says whether they are. What stands
/// below becomes as the lowest of them.
fn write_left(beside: &Beside<'_>, below: usize, edge: &mut [u16]) -> bool
    requires beside { AreBeside beside.now }
    requires below { below ≤ beside.now.groups }
    requires bottom { beside.now.corner + 129 * (4 * beside.now.groups - 4 * below) < 25155 }
    requires room { 8 * beside.now.groups + 1 ≤ length edge.old }
    ensures value { result ≡ true → (k : ℕ) → 4 * below ≤ k → k ≤ 4 * beside.now.groups
        → IsCopied beside.now (left_cell beside.now k) (at edge.new k) }
    ensures below { result ≡ true → (k : ℕ) → k < 4 * below → at edge.new k ≡ at edge.new (4 * below) }
{
    for group in below..beside.groups {
        let lowest = beside.corner + 516 * (beside.groups - group);
        if !all_up(beside.known, lowest) {
            return false;
        }
        lay_line::<4>(edge, 4 * group, &four_up(beside.values, lowest), 0);
    }
    edge[4 * beside.groups] = beside.values[beside.corner];
    lay_below(below, edge);
    beside.known[beside.corner]
}

/// So many groups as the sample behind them.
fn lay_below(below: usize, edge: &mut [u16])
    requires { 4 * below < length edge.old }
    ensures { (k : ℕ) → at edge.new k ≡ cond (nat_lt k (4 * below)) (at edge.old (4 * below)) (at edge.old k) }
{
    let first = edge[4 * below];
    for group in 0..below {
        lay_line::<4>(edge, 4 * group, &[first; 4], 0);
    }
}

/// Writes the line above, behind the corner, where each group is known or none of it is, and says whether it's so.
fn write_above(beside: &Beside<'_>, edge: &mut [u16]) -> bool
    requires beside { AreBeside beside.now }
    requires room { 8 * beside.now.groups + 1 ≤ length edge.old }
    ensures value { result ≡ true → (k : ℕ) → 4 * beside.now.groups < k → k ≤ 8 * beside.now.groups
        → at edge.new k
        ≡ cond (is_known beside.now (above_cell beside.now k)) (value_in beside.now (above_cell beside.now k))
        (at edge.new (k - 1)) }
    ensures rest { (k : ℕ) → k ≤ 4 * beside.now.groups → at edge.new k ≡ at edge.old k }
{
    for group in 0..beside.groups {
        if !write_group(beside, group, edge) {
            return false;
        }
    }
    true
}

/// Writes a group of the line above, where all of it is known or none, and says whether it's so.
#[inline(always)]
fn write_group(beside: &Beside<'_>, group: usize, edge: &mut [u16]) -> bool
    requires beside { AreBeside beside.now }
    requires group { group < beside.now.groups }
    requires room { 8 * beside.now.groups + 1 ≤ length edge.old }
    ensures value { result ≡ true → (k : ℕ) → 4 * (beside.now.groups + group) < k
        → k ≤ 4 * (beside.now.groups + (group + 1))
        → at edge.new k
        ≡ cond (is_known beside.now (above_cell beside.now k)) (value_in beside.now (above_cell beside.now k))
        (at edge.new (k - 1)) }
    ensures rest { (k : ℕ) → k < 4 * (beside.now.groups + group) + 1 → at edge.new k ≡ at edge.old k }
{
    let first = 4 * (beside.groups + group) + 1;
    let cell = beside.corner + 4 * group + 1;
    if all_across(beside.known, cell) {
        lay_line::<4>(edge, first, beside.values, cell);
        return true;
    }
    if some_across(beside.known, cell) {
        return false;
    }
    let last = edge[first - 1];
    lay_line::<4>(edge, first, &[last; 4], 0);
    true
}

/// Whether four cells of a column, from the lowest up, are known.
#[inline(always)]
fn all_up(known: &[bool], lowest: usize) -> bool
    requires low { 387 ≤ lowest }
    requires high { lowest < length known.now }
    ensures { result ≡ true → (k : ℕ) → k < 4 → slice_index_or known.now (lowest - 129 * k) false ≡ true }
{
    known[lowest] & known[lowest - 129] & known[lowest - 258] & known[lowest - 387]
}

/// Whether one of them is.
#[inline(always)]
fn some_up(known: &[bool], lowest: usize) -> bool
    requires low { 387 ≤ lowest }
    requires high { lowest < length known.now }
    ensures { result ≡ false → (k : ℕ) → k < 4 → slice_index_or known.now (lowest - 129 * k) false ≡ false }
{
    known[lowest] | known[lowest - 129] | known[lowest - 258] | known[lowest - 387]
}

/// What they have.
#[inline(always)]
fn four_up(values: &[u16], lowest: usize) -> [u16; 4]
    requires low { 387 ≤ lowest }
    requires high { lowest < length values.now }
    ensures { (k : ℕ) → k < 4 → at result k ≡ at values.now (lowest - 129 * k) }
{
    [
        values[lowest],
        values[lowest - 129],
        values[lowest - 258],
        values[lowest - 387],
    ]
}

/// Whether four cells of a line are known.
#[inline(always)]
fn all_across(known: &[bool], first: usize) -> bool
    requires { first + 4 ≤ length known.now }
    ensures { result ≡ true → (k : ℕ) → k < 4 → slice_index_or known.now (first + k) false ≡ true }
{
    known[first] & known[first + 1] & known[first + 2] & known[first + 3]
}

/// Whether one of them is.
#[inline(always)]
fn some_across(known: &[bool], first: usize) -> bool
    requires { first + 4 ≤ length known.now }
    ensures { result ≡ false → (k : ℕ) → k < 4 → slice_index_or known.now (first + k) false ≡ false }
{
    known[first] | known[first + 1] | known[first + 2] | known[first + 3]
}

/// The first neighbour that is known.
fn first_known(samples: &UnitSamples, place: Place, n: u32, otherwise: u16) -> u16
    requires n { n ≤ 32 }
    requires x { place.x ≤ 64 }
    requires y { place.y ≤ 64 }
    ensures { result ≡ first_available otherwise (beside (held samples.now place.c) n place.x place.y) }
{
    for k in 0..4 * n + 1 {
        match neighbour(samples, place, n, k) {
            Some(value) => return value,
            None => {}
        }
    }
    otherwise
}

/// A neighbour by its number, from the bottom of the left column on.
fn neighbour(samples: &UnitSamples, place: Place, n: u32, k: u32) -> Option<u16>
    requires n { n ≤ 32 }
    requires k { k ≤ 4 * n }
    requires x { place.x ≤ 64 }
    requires y { place.y ≤ 64 }
    ensures { result ≡ known_beside (held samples.now place.c) n place.x place.y k }
{
    if k <= 2 * n {
        samples.sample(place.c, place.x, place.y + (2 * n - k))
    } else {
        samples.sample(place.c, place.x + (k - 2 * n), place.y)
    }
}

/// Writes the neighbours, those before the first known one as `first`.
fn write_known(samples: &UnitSamples, place: Place, n: u32, first: u16, edge: &mut [u16])
    requires n { n ≤ 32 }
    requires x { place.x ≤ 64 }
    requires y { place.y ≤ 64 }
    requires room { 4 * n + 1 ≤ length edge.old }
    ensures { take (4 * n + 1) edge.new ≡ following first (beside (held samples.now place.c) n place.x place.y) }
{
    let mut former = first;
    'left: for k in 0..2 * n + 1 {
        former = sample_or(
            samples.sample(place.c, place.x, place.y + (2 * n - k)),
            former,
        );
        edge[k as usize] = former;
    }
    'above: for k in 2 * n + 1..4 * n + 1 {
        former = sample_or(
            samples.sample(place.c, place.x + (k - 2 * n), place.y),
            former,
        );
        edge[k as usize] = former;
    }
}

/// A sample, or the one before it where it isn't known.
fn sample_or(sample: Option<u16>, former: u16) -> u16
    ensures { result ≡ sample_or sample former }
{
    match sample {
        Some(value) => value,
        None => former,
    }
}

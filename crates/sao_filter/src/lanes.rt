//! Eight samples with an offset at once.

ghost use Rattle.std.specs.Prelude.{◌≡◌, ◌≤◌, ◌<◌, ◌+◌, ◌-◌, ◌/◌, ◌%◌, ◌^◌, ◌==◌, ℕ, length, cond, min, nat_le};
ghost use Rattle.spec_sample_adaptive_offset.specs.Offsets.{compared};
ghost use Rattle.sao_filter.specs.Row.{at};
ghost use Rattle.sao_filter.specs.Units.{on_base};

use std::simd::prelude::*;

/// 1 where a number is at most another, else 0.
#[inline(always)]
fn at_most(numbers: u16x8, others: u16x8) -> u16x8
    ensures long { length result ≡ 8 }
    ensures value { (k : ℕ) → k < 8 → at result k ≡ cond (nat_le (at numbers k) (at others k)) 1 0 }
{
    numbers
        .simd_le(others)
        .select(u16x8::splat(1), u16x8::splat(0))
}

/// Two more than the signs of the differences from both neighbours.
#[inline(always)]
fn signs(samples: u16x8, first: u16x8, second: u16x8) -> u16x8
    ensures long { length result ≡ 8 }
    ensures value { (k : ℕ) → k < 8 → at result k
        ≡ compared (at samples k) (at first k) + compared (at samples k) (at second k) }
{
    u16x8::splat(2) - at_most(samples, first) - at_most(samples, second)
        + at_most(first, samples)
        + at_most(second, samples)
}

/// A number where the place is so much, else 0.
#[inline(always)]
fn where_is(places: u16x8, place: u16, number: u16) -> u16x8
    ensures long { length result ≡ 8 }
    ensures value { (k : ℕ) → k < 8 → at result k ≡ cond (at places k == place) number 0 }
    ensures small { (k : ℕ) → k < 8 → at result k < 65536 }
{
    places
        .simd_eq(u16x8::splat(place))
        .select(u16x8::splat(number), u16x8::splat(0))
}

/// The entries of a table at eight places.
#[inline(always)]
fn entries(table: &[u16; 5], places: u16x8) -> u16x8
    requires { (k : ℕ) → k < 8 → at places k < 5 }
    ensures long { length result ≡ 8 }
    ensures value { (k : ℕ) → k < 8 → at result k ≡ at table.now (at places k) }
{
    where_is(places, 0, table[0])
        + where_is(places, 1, table[1])
        + where_is(places, 2, table[2])
        + where_is(places, 3, table[3])
        + where_is(places, 4, table[4])
}

/// Numbers less others, or 0.
#[inline(always)]
fn less(numbers: u16x8, others: u16x8) -> u16x8
    ensures long { length result ≡ 8 }
    ensures value { (k : ℕ) → k < 8 → at result k ≡ at numbers k - at others k }
{
    numbers.saturating_sub(others)
}

/// Sums, or the greatest number of 16 bits.
#[inline(always)]
fn more(numbers: u16x8, others: u16x8) -> u16x8
    ensures long { length result ≡ 8 }
    ensures value { (k : ℕ) → k < 8 → at result k ≡ min (at numbers k + at others k) 65535 }
{
    numbers + others.simd_min(u16x8::splat(65535) - numbers)
}

/// Samples held to the greatest of their depth.
#[inline(always)]
fn held(samples: u16x8, greatest: u16) -> u16x8
    ensures long { length result ≡ 8 }
    ensures value { (k : ℕ) → k < 8 → at result k ≡ min (at samples k) greatest }
{
    samples.simd_min(u16x8::splat(greatest))
}

/// Eight samples with what is added to each, on 32768.
#[inline(always)]
fn changed(samples: u16x8, changes: u16x8, greatest: u16) -> u16x8
    ensures long { length result ≡ 8 }
    ensures value { (k : ℕ) → k < 8 → at result k ≡ on_base (at samples k) (at changes k) greatest }
{
    let base = u16x8::splat(32768);
    held(
        less(more(samples, less(changes, base)), less(base, changes)),
        greatest,
    )
}

/// Eight samples between their neighbours, by what is added by the signs of the differences, on 32768.
#[inline(always)]
pub fn eight_moved(
    samples: u16x8,
    first: u16x8,
    second: u16x8,
    table: &[u16; 5],
    greatest: u16,
) -> u16x8
    ensures long { length result ≡ 8 }
    ensures value { (k : ℕ) → k < 8 → at result k ≡ on_base (at samples k)
        (at table.now (compared (at samples k) (at first k) + compared (at samples k) (at second k))) greatest }
{
    changed(
        samples,
        entries(table, signs(samples, first, second)),
        greatest,
    )
}

/// Where the bands of samples stand, counted modulo 32 from one on; 4 is behind the fourth.
#[inline(always)]
fn places(samples: u16x8, shift: u16, before: u16) -> u16x8
    requires shift { shift ≤ 9 }
    requires before { before ≤ 32 }
    ensures long { length result ≡ 8 }
    ensures value { (k : ℕ) → k < 8 → at result k ≡ min ((at samples k / 2 ^ shift + before) % 32) 4 }
{
    let bands = (samples >> u16x8::splat(shift)) + u16x8::splat(before);
    let turns = bands >> u16x8::splat(5);
    (bands - turns * u16x8::splat(32)).simd_min(u16x8::splat(4))
}

/// Eight samples by their bands: what is added to four bands from one on, and to all others, on 32768.
#[inline(always)]
pub fn eight_banded(
    samples: u16x8,
    shift: u16,
    before: u16,
    table: &[u16; 5],
    greatest: u16,
) -> u16x8
    requires shift { shift ≤ 9 }
    requires before { before ≤ 32 }
    ensures long { length result ≡ 8 }
    ensures value { (k : ℕ) → k < 8 → at result k ≡ on_base (at samples k)
        (at table.now (min ((at samples k / 2 ^ shift + before) % 32) 4)) greatest }
{
    changed(
        samples,
        entries(table, places(samples, shift, before)),
        greatest,
    )
}

//! What is known beside a coding tree unit (6.4.1).

ghost use Rattle.std.specs.Prelude.{◌≡◌, ℕ, ◌+◌, ◌*◌, ◌<◌, ◌≤◌, ◌==◌, Some, None, if◌then◌else◌};
ghost use Rattle.ctu_build.specs.Held.{held};
ghost use Rattle.unit_build.specs.Beside.{first_above, has_left, is_above, is_left, sample_at};
ghost use Rattle.unit_build.specs.Parts.{IsPart, IsRoom};
ghost use Rattle.spec_picture_build.specs.Border.{known_beside};

use crate::part::Part;
use crate::view::Beside;
use ctu_build::UnitSamples;
use picture_motion::CodingTreeUnit;

/// What is known beside a unit becomes known, and nothing else is.
pub(crate) fn gather<B: Beside>(unit: &CodingTreeUnit, beside: &B, samples: &mut UnitSamples)
    requires { B.unit_of beside.now ≡ unit.now }
    ensures { held samples.new
        ≡ known_beside unit.now.layout unit.now.slice unit.now.address (B.sample_at beside.now) }
{
    samples.restart();
    gather_component(unit, 0, beside, samples);
    gather_component(unit, 1, beside, samples);
    gather_component(unit, 2, beside, samples);
}

/// What is known of a component beside it.
fn gather_component<B: Beside>(
    unit: &CodingTreeUnit,
    c: usize,
    beside: &B,
    samples: &mut UnitSamples,
)
    requires component { c < 3 }
    requires stands { B.unit_of beside.now ≡ unit.now }
    ensures { ((j k : ℕ) → held samples.old c j k ≡ None) → (i j k : ℕ)
        → held samples.new i j k
        ≡ (if i == c
        then known_beside unit.now.layout unit.now.slice unit.now.address (B.sample_at beside.now) i j k
        else held samples.old i j k) }
{
    let part = Part::of_unit(unit, c);
    gather_above(part, first_above(unit, part), beside, samples);
    if has_left(unit) {
        gather_left(part, beside, samples);
    }
}

/// The first column of the line above a part of a unit that is of a unit of its slice.
#[tactic(auto, unfolding(crate::specs::Beside::first_above))]
fn first_above(unit: &CodingTreeUnit, part: Part) -> usize
    requires part { IsPart unit.now.layout unit.now.address part }
    requires room { IsRoom part }
    ensures value { result ≡ first_above unit.now.layout unit.now.slice unit.now.address part.side }
    ensures some { 1 ≤ part.x + result }
    ensures small { result ≤ 129 }
{
    let units = unit.slice as usize + unit.layout.width() as usize;
    let address = unit.address as usize;
    if units + 1 <= address && unit.layout.column(unit.address) > 0 {
        0
    } else if units <= address {
        1
    } else if units <= address + 1 {
        part.side + 1
    } else {
        2 * part.side + 1
    }
}

/// Whether the unit on the left is of its slice.
fn has_left(unit: &CodingTreeUnit) -> bool
    ensures { result ≡ has_left unit.now.layout unit.now.slice unit.now.address }
{
    unit.layout.column(unit.address) > 0 && unit.slice < unit.address
}

/// The line above a part of a unit, from a column on.
fn gather_above<B: Beside>(part: Part, first: usize, beside: &B, samples: &mut UnitSamples)
    requires part { IsPart (B.unit_of beside.now).layout (B.unit_of beside.now).address part }
    requires room { IsRoom part }
    requires some { 1 ≤ part.x + first }
    requires few { first ≤ 129 }
    ensures { (i j k : ℕ) → held samples.new i j k
        ≡ (if is_above part first i j k then Some (sample_at part (B.sample_at beside.now) i j k)
        else held samples.old i j k) }
{
    let last = (2 * part.side).min(part.width - part.x);
    if 1 <= part.y && part.y <= part.height && first <= last {
        let line = beside.above(part, part.x + first - 1, part.x + last);
        samples.put_line(part.c, first, 0, line);
    }
}

/// The column on its left.
fn gather_left<B: Beside>(part: Part, beside: &B, samples: &mut UnitSamples)
    requires part { IsPart (B.unit_of beside.now).layout (B.unit_of beside.now).address part }
    requires room { IsRoom part }
    requires some { 1 ≤ part.x }
    ensures { (i j k : ℕ) → held samples.new i j k
        ≡ (if is_left part i j k then Some (sample_at part (B.sample_at beside.now) i j k)
        else held samples.old i j k) }
{
    let lines = part.side.min(part.height.saturating_sub(part.y));
    for line in 0..lines {
        samples.put(part.c, 0, line + 1, beside.left(part, line));
    }
}

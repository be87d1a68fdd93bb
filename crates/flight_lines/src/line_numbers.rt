//! Lines and units by number.

ghost use Rattle.std.specs.Prelude.{◌≡◌, ◌+◌, ◌*◌, ◌<◌, ◌≤◌};
ghost use Rattle.sample_words.specs.Sizes.{columns, rows};
ghost use Rattle.sample_words.specs.Words.{IsLine, line_at, line_number, line_units, lines, phase_at};
ghost use Rattle.flight_lines.specs.Numbers.{unit_number, units_a_picture, units_before};

use hv_base::{Line, Phase, UnitNumber};
use sample_words::Layout;

/// The number that the board has for a line.
#[tactic(auto, using(crate::proofs::Numbered::eighth_of_count, crate::proofs::Numbered::number_of_words))]
pub fn line_number(layout: &Layout, line: Line) -> usize
    requires { IsLine layout.now line }
    ensures value { result ≡ line_number layout.now line }
    ensures inside { result < lines layout.now }
{
    (layout.count_word(line) / 8) as usize
}

/// The line that has a number.
#[tactic(auto, using(crate::proofs::Numbered::word_line_is, crate::proofs::Numbered::few_of_number))]
pub fn line_of_number(layout: &Layout, number: usize) -> Line
    requires { number < lines layout.now }
    ensures value { result ≡ line_at layout.now number }
    ensures line { IsLine layout.now result }
{
    let _few = layout.lines();
    let rows = layout.rows();
    let row = number as u64 / 4;
    Line {
        phase: phase_at(number as u64 % 4),
        picture: (row / rows) as u32,
        row: (row % rows) as u32,
    }
}

/// The phase of a number.
fn phase_at(number: u64) -> Phase
    ensures { result ≡ phase_at number }
{
    match number {
        0 => Phase::B,
        1 => Phase::V,
        2 => Phase::H,
        _ => Phase::S,
    }
}

/// The number of a unit of a line in the flight, by which a fault word tells it.
pub fn unit_number(layout: &Layout, line: Line, unit: u32) -> UnitNumber
    requires line { IsLine layout.now line }
    requires unit { unit < line_units layout.now line.phase }
    ensures { result ≡ unit_number layout.now line unit }
{
    let pictures = units_above(layout, line);
    let start = units_before(layout, line.phase);
    pictures + (start + unit_in_phase(layout, line, unit))
}

/// The units of the pictures before that of a line.
fn units_above(layout: &Layout, line: Line) -> u64
    requires { IsLine layout.now line }
    ensures value { result ≡ line.picture * units_a_picture layout.now }
    ensures few { result ≤ 17280532480 }
{
    let _few = layout.sizes();
    let count = units_a_picture(layout);
    u64::from(line.picture) * count
}

/// The units of a picture.
fn units_a_picture(layout: &Layout) -> u64
    ensures value { result ≡ units_a_picture layout.now }
    ensures few { result ≤ 263680 }
{
    let rows = layout.rows();
    rows * layout.columns() + 3 * rows
}

/// The units of a picture before those of a phase.
fn units_before(layout: &Layout, phase: Phase) -> u64
    ensures value { result ≡ units_before layout.now phase }
    ensures few { result ≤ 263168 }
{
    let rows = layout.rows();
    let columns = layout.columns();
    match phase {
        Phase::B => 0,
        Phase::V => rows * columns,
        Phase::H => rows * columns + rows,
        Phase::S => rows * columns + 2 * rows,
    }
}

/// The number of a unit among those of its phase and picture.
fn unit_in_phase(layout: &Layout, line: Line, unit: u32) -> u64
    requires line { IsLine layout.now line }
    requires unit { unit < line_units layout.now line.phase }
    ensures value { result ≡ line.row * line_units layout.now line.phase + unit }
    ensures few { result ≤ 262656 }
{
    let _few = layout.rows();
    let units = layout.line_units(line.phase);
    u64::from(line.row) * units + u64::from(unit)
}

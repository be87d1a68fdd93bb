//! The samples of a component of a coding tree unit.

ghost use Rattle.std.specs.Prelude.{◌≡◌, ◌*◌, ◌<◌, ◌≤◌};
ghost use Rattle.unit_build.specs.Parts.{IsPart, IsRoom};
ghost use Rattle.picture_motion.specs.PictureLayout.{IsShape};
ghost use Rattle.spec_picture_build.specs.SpecSliceData.{samples_of_place};

use picture_motion::CodingTreeUnit;

/// Where the samples of a component of a unit are in the component's plane.
#[derive(Clone, Copy)]
pub struct Part {
    /// The component: 0, 1 or 2.
    pub c: usize,
    /// A unit's side in samples.
    pub side: usize,
    /// The column of its first sample.
    pub x: usize,
    /// The line of its first sample.
    pub y: usize,
    /// The plane's columns.
    pub width: usize,
    /// The plane's lines.
    pub height: usize,
}

impl Part {
    /// That of a unit.
    pub fn of_unit(unit: &CodingTreeUnit, c: usize) -> Part
        requires { c < 3 }
        ensures component { result.c ≡ c }
        ensures part { IsPart unit.now.layout unit.now.address result }
        ensures room { IsRoom result }
        ensures shape { IsShape unit.now.layout }
    {
        let scale = samples_of_place(c);
        let side = scale * unit.layout.side();
        Part {
            c,
            side,
            x: side * unit.layout.column(unit.address) as usize,
            y: side * unit.layout.row(unit.address) as usize,
            width: scale * unit.layout.across() as usize,
            height: scale * unit.layout.down() as usize,
        }
    }
}

/// How many samples of a component a place has on a side.
fn samples_of_place(c: usize) -> usize
    ensures value { result ≡ samples_of_place c }
    ensures some { 2 ≤ result }
    ensures few { result ≤ 4 }
{
    if c == 0 { 4 } else { 2 }
}

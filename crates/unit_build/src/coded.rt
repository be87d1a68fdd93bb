//! Which places beside a coding tree unit are coded (8.7.2.4).

ghost use Rattle.std.specs.Prelude.{◌≡◌, ◌+◌, ◌-◌, ◌≤◌};
ghost use Rattle.picture_filters.specs.Filtering.{IsCodedAbove, IsCodedLeft};
ghost use Rattle.spec_picture_filters.specs.Units.{coded_near};

use crate::view::Beside;
use picture_filters::CodedBeside;
use picture_motion::CodingTreeUnit;

/// Which places beside a unit are coded.
pub(crate) fn coded_beside<B: Beside>(unit: &CodingTreeUnit, beside: &B) -> CodedBeside
    ensures left { IsCodedLeft unit.now (B.coded_at beside.now) result.left }
    ensures above { IsCodedAbove unit.now (B.coded_at beside.now) result.above }
{
    CodedBeside {
        left: coded_left(unit, beside),
        above: coded_above(unit, beside),
    }
}

/// Whether the places on the left of a unit are coded, from the upper one down.
fn coded_left<B: Beside>(unit: &CodingTreeUnit, beside: &B) -> [bool; 16]
    ensures { IsCodedLeft unit.now (B.coded_at beside.now) result }
{
    let mut coded = [false; 16];
    for k in 0..16 {
        coded[k] = coded_near(unit, beside, 0, k + 1);
    }
    coded
}

/// Whether the places above it are.
fn coded_above<B: Beside>(unit: &CodingTreeUnit, beside: &B) -> [bool; 16]
    ensures { IsCodedAbove unit.now (B.coded_at beside.now) result }
{
    let mut coded = [false; 16];
    for k in 0..16 {
        coded[k] = coded_near(unit, beside, k + 1, 0);
    }
    coded
}

/// Whether a place that is counted from 1 at a unit's first place is coded; `false` outside the picture.
#[tactic(auto, unfolding(spec_picture_filters::specs::Units::coded_near))]
fn coded_near<B: Beside>(unit: &CodingTreeUnit, beside: &B, column: usize, row: usize) -> bool
    requires column { column ≤ 16 }
    requires row { row ≤ 16 }
    ensures { result ≡ coded_near unit.now.layout unit.now.address (B.coded_at beside.now) column row }
{
    if unit.is_there(column, row) {
        let x = unit.first_column() + column - 1;
        let y = unit.first_row() + row - 1;
        beside.coded(x, y)
    } else {
        false
    }
}

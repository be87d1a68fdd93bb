//! The lines of a coding tree unit in the planes of a picture.

ghost use Rattle.std.specs.Prelude.{◌≡◌, ℕ, ◌+◌, ◌-◌, ◌*◌, ◌<◌, ◌≤◌, ◌==◌, if◌then◌else◌};
ghost use Rattle.std.specs.Option.{unwrap_or};
ghost use Rattle.unit_build.specs.CtuBuild.{held};
ghost use Rattle.picture_buffer.specs.Planes.{HasSides, samples_of};
ghost use Rattle.picture_trees.specs.PictureLayout.{IsShape};
ghost use Rattle.unit_build.specs.Parts.{IsPart, IsRoom, is_in_part};
ghost use Rattle.spec_picture_build.specs.Built.{unit_laid};

use picture_buffer::Planes;
use picture_trees::CodingTreeUnit;
use unit_build::{Part, UnitSamples};

/// Lays the samples of a unit into the picture.
pub(crate) fn lay_unit(unit: &CodingTreeUnit, samples: &UnitSamples, planes: &mut Planes)
    requires { HasSides planes.old (4 * unit.now.layout.across) (4 * unit.now.layout.down) }
    ensures value { samples_of planes.new
        ≡ unit_laid unit.now.layout unit.now.address (held samples.now) (samples_of planes.old) }
    ensures sides { HasSides planes.new (4 * unit.now.layout.across) (4 * unit.now.layout.down) }
    ensures shape { IsShape unit.now.layout }
{
    lay_component(unit, 0, samples, planes);
    lay_component(unit, 1, samples, planes);
    lay_component(unit, 2, samples, planes);
}

/// Lays those of a component.
fn lay_component(unit: &CodingTreeUnit, c: usize, samples: &UnitSamples, planes: &mut Planes)
    requires component { c < 3 }
    requires sides { HasSides planes.old (4 * unit.now.layout.across) (4 * unit.now.layout.down) }
    ensures value { (i j k : ℕ) → samples_of planes.new i j k
        ≡ (if i == c then unit_laid unit.now.layout unit.now.address (held samples.now) (samples_of planes.old) i j k
        else samples_of planes.old i j k) }
    ensures sides { HasSides planes.new (4 * unit.now.layout.across) (4 * unit.now.layout.down) }
    ensures shape { IsShape unit.now.layout }
{
    lay_part(unit, Part::of_unit(unit, c), samples, planes);
}

/// Lays the lines of a part of a unit, as far as the picture goes.
fn lay_part(unit: &CodingTreeUnit, part: Part, samples: &UnitSamples, planes: &mut Planes)
    requires part { IsPart unit.now.layout unit.now.address part }
    requires room { IsRoom part }
    requires sides { HasSides planes.old (4 * unit.now.layout.across) (4 * unit.now.layout.down) }
    ensures value { (i j k : ℕ) → samples_of planes.new i j k
        ≡ (if is_in_part part i j k then unwrap_or (held samples.now i (j - part.x + 1) (k - part.y + 1)) 0
        else samples_of planes.old i j k) }
    ensures sides { HasSides planes.new (4 * unit.now.layout.across) (4 * unit.now.layout.down) }
{
    let columns = part.side.min(part.width - part.x);
    let lines = part.side.min(part.height.saturating_sub(part.y));
    for line in 0..lines {
        let built = samples.line(part.c, line + 1);
        planes.lay(
            part.c,
            part.x as u32,
            (part.y + line) as u32,
            &built[1..1 + columns],
        );
    }
}

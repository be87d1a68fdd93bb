//! How many samples a unit has, and which of its words has which of them.

ghost use Rattle.std.specs.Prelude.{◌≡◌, ◌<◌, ◌≤◌};
ghost use Rattle.sample_words.specs.Contents.{component_side};
ghost use Rattle.sample_words.specs.Sizes.{line_words};
ghost use Rattle.line_words.specs.Places.{IsUnit};
ghost use Rattle.sample_lines.specs.Lines.{height_at, luma_height, luma_width, sample_index, width_at};

use line_words::UnitPlace;
use sample_words::{Layout, UnitContent, UnitShape};

/// The shape of a unit.
#[inline(always)]
fn shape_of(layout: &Layout, at: &UnitPlace) -> UnitShape
    requires { at.now.sizes ≡ layout.now }
    ensures width { result.width ≡ luma_width at.now }
    ensures height { result.height ≡ luma_height at.now }
    ensures column { result.column ≡ at.now.unit }
    ensures across { result.width ≤ 8192 }
    ensures down { result.height ≤ 64 }
    ensures unit { IsUnit at.now }
{
    layout.unit_shape(at.line(), u64::from(at.unit()))
}

/// How many samples of a component it has across.
#[inline(always)]
pub(crate) fn width_at(layout: &Layout, at: &UnitPlace, c: usize) -> usize
    requires { at.now.sizes ≡ layout.now }
    ensures value { result ≡ width_at at.now c }
    ensures few { result ≤ 8192 }
    ensures unit { IsUnit at.now }
{
    component_side(c, shape_of(layout, at).width) as usize
}

/// How many lines it has of a component.
#[inline(always)]
pub(crate) fn height_at(layout: &Layout, at: &UnitPlace, c: usize) -> usize
    requires { at.now.sizes ≡ layout.now }
    ensures value { result ≡ height_at at.now c }
    ensures few { result ≤ 64 }
    ensures unit { IsUnit at.now }
{
    component_side(c, shape_of(layout, at).height) as usize
}

/// Which of its words has samples of a line of a component.
pub(crate) fn sample_index(
    layout: &Layout,
    at: &UnitPlace,
    c: usize,
    line: usize,
    word: usize,
) -> usize
    requires place { at.now.sizes ≡ layout.now }
    requires component { c < 3 }
    requires line { line < height_at at.now c }
    requires word { word < line_words layout.now (width_at at.now c) }
    requires few { word ≤ 8192 }
    ensures value { result ≡ sample_index at.now c line word }
    ensures unit { IsUnit at.now }
{
    let shape = shape_of(layout, at);
    let _lines = component_side(c, shape.height);
    let content = UnitContent::Samples(c as u8, line as u32, word as u32);
    layout.index_of(shape, content) as usize
}

/// A component's side, by that of luma.
#[inline(always)]
pub(crate) fn component_side(c: usize, side: u32) -> u32
    ensures value { result ≡ component_side c side }
    ensures few { result ≤ side }
{
    if c == 0 { side } else { side / 2 }
}

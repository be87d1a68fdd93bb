//! Which of a unit's words has what.

ghost use Rattle.std.specs.Prelude.{◌≡◌, ◌+◌, ◌*◌, ◌/◌, ◌<◌, ◌≤◌, ◌↔◌, IsTrue};
ghost use Rattle.sample_words.specs.Contents.{IsContent, component_side, component_words, components_before, index_of};
ghost use Rattle.sample_words.specs.Contents.{unit_width};
ghost use Rattle.sample_words.specs.Sizes.{carry_words, context_words, height_of};
ghost use Rattle.sample_words.specs.Words.{IsLine, line_units};

use crate::board::Layout;
use crate::unit_content::UnitContent;
use hv_base::{Line, Phase};

/// How many luma samples a unit has, and where it stands in its row.
#[derive(Clone, Copy)]
pub struct UnitShape {
    /// How many columns of luma samples it has, at most 8192.
    pub width: u32,
    /// How many lines of luma samples it has, at most 64.
    pub height: u32,
    /// The column of a coding tree unit, else 0.
    pub column: u32,
}

impl Layout {
    /// The shape of a unit.
    pub fn unit_shape(&self, line: Line, unit: u64) -> UnitShape
        requires line { IsLine self.now line }
        requires unit { unit < line_units self.now line.phase }
        ensures width { result.width ≡ unit_width self.now line.phase unit }
        ensures height { result.height ≡ height_of self.now line.row }
        ensures column { result.column ≡ unit }
        ensures across { result.width ≤ 8192 }
        ensures down { result.height ≤ 64 }
    {
        let units = self.line_units(line.phase);
        UnitShape {
            width: self.unit_width(line.phase, unit),
            height: self.line_height(line) as u32,
            column: unit.min(units) as u32,
        }
    }

    /// How many luma samples a unit has across: a coding tree unit, or a row as a whole.
    fn unit_width(&self, phase: Phase, unit: u64) -> u32
        requires { unit < line_units self.now phase }
        ensures value { result ≡ unit_width self.now phase unit }
        ensures few { result ≤ 8192 }
    {
        let sizes = self.sizes();
        let _units = self.line_units(phase);
        match phase {
            Phase::B => self.width_of(unit) as u32,
            Phase::V => sizes.width,
            Phase::H => sizes.width,
            Phase::S => sizes.width,
        }
    }

    /// Whether a unit of a shape has a word of this content, if it is a coding tree unit; a row as a whole has samples
    /// alone.
    pub fn has_content(&self, shape: UnitShape, content: UnitContent) -> bool
        requires { shape.width ≤ 8192 }
        ensures { IsTrue result ↔ IsContent self.now shape.width shape.height shape.column content }
    {
        match content {
            UnitContent::Samples(c, line, word) => self.has_samples(shape, c, line, word),
            UnitContent::Vectors(x, y) => x < shape.width / 4 && y < shape.height / 4,
            UnitContent::Modes(x, y) => x < shape.width / 4 && y < shape.height / 4,
            UnitContent::Offsets(k) => k < 2,
            UnitContent::Contexts(k) => k < context_words(shape.column),
            UnitContent::Carried(k) => k < self.carry_words(shape.column),
        }
    }

    /// Whether it has a word of a line of samples.
    fn has_samples(&self, shape: UnitShape, c: u8, line: u32, word: u32) -> bool
        requires { shape.width ≤ 8192 }
        ensures { IsTrue result
            ↔ IsContent self.now shape.width shape.height shape.column (UnitContent.Samples c line word) }
    {
        let words = self.line_words(component_side(c, u64::from(shape.width)));
        c < 3
            && u64::from(line) < component_side(c, u64::from(shape.height))
            && u64::from(word) < words
    }

    /// Which of a unit's words has a content, counted from 0.
    #[tactic(auto, unfolding(crate::specs::Contents::index_of))]
    pub fn index_of(&self, shape: UnitShape, content: UnitContent) -> u64
        requires width { shape.width ≤ 8192 }
        requires height { shape.height ≤ 64 }
        requires content { IsContent self.now shape.width shape.height shape.column content }
        ensures { result ≡ index_of self.now shape.width shape.height shape.column content }
    {
        let (width, height) = (u64::from(shape.width), u64::from(shape.height));
        let samples = self.sample_words(width, height);
        let places = places(width, height);
        match content {
            UnitContent::Samples(c, line, word) => self.sample_index(shape, c, line, word),
            UnitContent::Vectors(x, y) => samples + place_index(width, height, x, y),
            UnitContent::Modes(x, y) => samples + places + place_index(width, height, x, y),
            UnitContent::Offsets(k) => samples + 2 * places + u64::from(k),
            UnitContent::Contexts(k) => samples + 2 * places + 2 + u64::from(k),
            UnitContent::Carried(k) => {
                let contexts = u64::from(context_words(shape.column));
                samples + 2 * places + 2 + contexts + u64::from(k)
            }
        }
    }

    /// Which word has samples of a line of a component.
    #[tactic(auto, unfolding(crate::specs::Contents::index_of))]
    fn sample_index(&self, shape: UnitShape, c: u8, line: u32, word: u32) -> u64
        requires width { shape.width ≤ 8192 }
        requires height { shape.height ≤ 64 }
        requires content { IsContent self.now shape.width shape.height shape.column (UnitContent.Samples c line word) }
        ensures { result
            ≡ index_of self.now shape.width shape.height shape.column (UnitContent.Samples c line word) }
    {
        let (width, height) = (u64::from(shape.width), u64::from(shape.height));
        let words = self.line_words(component_side(c, width));
        self.components_before(width, height, c) + (u64::from(line) * words + u64::from(word))
    }

    /// The words of the components before one.
    fn components_before(&self, width: u64, height: u64, c: u8) -> u64
        requires width { width ≤ 8192 }
        requires height { height ≤ 64 }
        requires component { c < 3 }
        ensures value { result ≡ components_before self.now width height c }
        ensures few { result ≤ 1048576 }
    {
        let luma = self.component_words(width, height, 0);
        let chroma = self.component_words(width, height, 1);
        match c {
            0 => 0,
            1 => luma,
            _ => luma + chroma,
        }
    }

    /// The words of a component's lines.
    fn component_words(&self, width: u64, height: u64, c: u8) -> u64
        requires width { width ≤ 8192 }
        requires height { height ≤ 64 }
        ensures value { result ≡ component_words self.now width height c }
        ensures few { result ≤ 524288 }
    {
        let lines = component_side(c, height);
        let words = self.line_words(component_side(c, width));
        lines * words
    }

    /// How many words a coding tree unit has of what is carried on: the last one of a row.
    fn carry_words(&self, column: u32) -> u32
        ensures { result ≡ carry_words self.now column }
    {
        if u64::from(column) + 1 == self.columns() {
            24
        } else {
            0
        }
    }
}

/// A component's side, by that of luma.
fn component_side(c: u8, side: u64) -> u64
    ensures value { result ≡ component_side c side }
    ensures few { result ≤ side }
{
    if c == 0 { side } else { side / 2 }
}

/// How many words a coding tree unit has of contexts: the second one of a row.
fn context_words(column: u32) -> u32
    ensures value { result ≡ context_words column }
    ensures few { result ≤ 20 }
{
    if column == 1 { 20 } else { 0 }
}

/// How many places of 4x4 luma samples a unit has.
fn places(width: u64, height: u64) -> u64
    requires width { width ≤ 8192 }
    requires height { height ≤ 64 }
    ensures value { result ≡ width / 4 * (height / 4) }
    ensures few { result ≤ 32768 }
{
    width / 4 * (height / 4)
}

/// The number of a place of a unit, row after row.
fn place_index(width: u64, height: u64, x: u32, y: u32) -> u64
    requires width { width ≤ 8192 }
    requires height { height ≤ 64 }
    requires column { x < width / 4 }
    requires row { y < height / 4 }
    ensures value { result ≡ y * (width / 4) + x }
    ensures few { result ≤ 32768 }
{
    u64::from(y) * (width / 4) + u64::from(x)
}

//! A coding tree unit whose work is done, as words.

ghost use Rattle.std.specs.Prelude.{◌≡◌, ℕ, ◌+◌, ◌/◌, ◌<◌, ◌≤◌, length, slice_index};
ghost use Rattle.sample_words.specs.Carried.{carried_word};
ghost use Rattle.sample_words.specs.Contents.{component_side};
ghost use Rattle.sample_words.specs.Sizes.{columns};
ghost use Rattle.sample_words.specs.declared.unit_content.UnitContent.TheVariants.{Samples, Vectors, Modes, Offsets};
ghost use Rattle.sample_words.specs.declared.unit_content.UnitContent.TheVariants.{Contexts, Carried};
ghost use Rattle.unit_words.specs.Work.{HasContent, IsPackable, height, width};

use crate::unit_lines::pack_unit_line;
use crate::unit_places::{PlaceSource, pack_modes_row, pack_vectors_row};
use ctu_records::Records;
use sample_words::{Carry, Layout, pack_offsets};
use unit_build::BuiltUnit;
use unit_trees::UnitReader;

/// A coding tree unit whose work is done.
#[derive(Clone, Copy)]
pub struct DoneUnit<'a, 'b> {
    /// How the words of the flight lie.
    pub layout: &'a Layout,
    /// Its row of coding tree blocks.
    pub row: u32,
    /// Its column of coding tree blocks.
    pub column: u32,
    /// The number of its slice segment in the picture.
    pub segment: u32,
    /// What its work left.
    pub built: &'a BuiltUnit,
    /// What was read of it.
    pub records: &'a Records,
    /// What stands behind it.
    pub reader: &'a UnitReader<'b>,
}

impl DoneUnit<'_, '_> {
    /// How many luma samples it has across.
    #[inline(always)]
    pub fn width(&self) -> u32
        requires { self.now.column < 512 }
        ensures value { result ≡ width self.now }
        ensures few { result ≤ 64 }
    {
        self.layout.width_of(u64::from(self.column)) as u32
    }

    /// How many lines of luma samples it has.
    #[inline(always)]
    pub fn height(&self) -> u32
        requires { self.now.row < 512 }
        ensures value { result ≡ height self.now }
        ensures few { result ≤ 64 }
    {
        self.layout.height_of(u64::from(self.row)) as u32
    }

    /// The words of a line of its samples of a component, as many as are asked for.
    pub fn pack_samples(&self, c: u8, line: u32, words: &mut [u64])
        requires unit { IsPackable self.now }
        requires component { c < 3 }
        requires line { line < component_side c (height self.now) }
        ensures count { length words.new ≡ length words.old }
        ensures value { (k : ℕ) → k < length words.old
            → HasContent self.now (Samples c line k) (slice_index words.new k) }
    {
        let width = component_side(c, self.width());
        let _height = component_side(c, self.height());
        pack_unit_line(
            self.layout,
            &self.built.samples,
            usize::from(c),
            line as usize,
            width as usize,
            words,
        );
    }

    /// The words of the vectors of a row of its places of 4x4 luma samples, from the left one on.
    pub fn pack_vectors(&self, y: u32, words: &mut [u64])
        requires unit { IsPackable self.now }
        requires row { y < height self.now / 4 }
        requires few { length words.old ≤ width self.now / 4 }
        ensures count { length words.new ≡ length words.old }
        ensures value { (x : ℕ) → x < length words.old → HasContent self.now (Vectors x y) (slice_index words.new x) }
    {
        let _width = self.width();
        let _height = self.height();
        pack_vectors_row(&self.built.motion, y as usize, words);
    }

    /// The words of the modes of a row of its places, from the left one on.
    pub fn pack_modes(&self, y: u32, words: &mut [u64])
        requires unit { IsPackable self.now }
        requires row { y < height self.now / 4 }
        requires few { length words.old ≤ width self.now / 4 }
        ensures count { length words.new ≡ length words.old }
        ensures value { (x : ℕ) → x < length words.old → HasContent self.now (Modes x y) (slice_index words.new x) }
    {
        let _width = self.width();
        let _height = self.height();
        let source = PlaceSource {
            records: self.records,
            motion: &self.built.motion,
            filters: &self.built.filters,
            segment: self.segment,
        };
        pack_modes_row(&source, y as usize, words);
    }

    /// The two words of its sample adaptive offset.
    pub fn pack_offsets(&self) -> [u64; 2]
        ensures { (k : ℕ) → k < 2 → HasContent self.now (Offsets k) (slice_index result k) }
    {
        pack_offsets(&self.records.sao())
    }

    /// The words of the contexts behind the second unit of a row.
    pub fn pack_contexts(&self) -> [u64; 20]
        requires { self.now.column ≡ 1 }
        ensures { (k : ℕ) → k < 20 → HasContent self.now (Contexts k) (slice_index result k) }
    {
        self.reader.bins.contexts.pack()
    }

    /// The words of what the last unit of a row carries on to the next one.
    pub fn pack_carried(&self) -> [u64; 24]
        requires { self.now.column + 1 ≡ columns self.now.layout.now }
        ensures { (k : ℕ) → k < 24 → HasContent self.now (Carried k) (slice_index result k) }
    {
        carried_words(&Carry {
            state: self.reader.bins.interval.state(),
            contexts: self.reader.bins.contexts.pack(),
            last: self.reader.last,
        })
    }
}

/// The words of what is carried on.
fn carried_words(carry: &Carry) -> [u64; 24]
    ensures { (k : ℕ) → k < 24 → slice_index result k ≡ carried_word carry.now k }
{
    let mut words = [0; 24];
    for k in 0..24 {
        words[k] = carry.word(k);
    }
    words
}

/// A component's side, by that of luma.
#[inline(always)]
fn component_side(c: u8, side: u32) -> u32
    ensures value { result ≡ component_side c side }
    ensures few { result ≤ side }
{
    if c == 0 { side } else { side / 2 }
}

//! Where the words of a flight stand.

ghost use Rattle.std.specs.Prelude.{◌≡◌, ◌+◌, ◌*◌, ◌^◌, ◌<◌, ◌≤◌, cond};
ghost use Rattle.sample_words.specs.Sizes.{IsFlight, built_words, columns, common_words, ctb_size, filtered_words};
ghost use Rattle.sample_words.specs.Sizes.{height_of, line_words, picture_words, row_words, rows};
ghost use Rattle.sample_words.specs.Sizes.{sample_words, samples_a_word, tree_start, tree_words, width_of};
ghost use Rattle.sample_words.specs.Words.{IsLine, count_word, fault_word, first_unit_word, line_units};
ghost use Rattle.sample_words.specs.Words.{lines, start_in_picture, start_in_row, ticket_word, unit_start};
ghost use Rattle.sample_words.specs.Words.{phase_number, unit_words, words};

use crate::sizes::FlightSizes;
use hv_base::{Line, Phase};
use std::marker::Model;

/// How the pictures of a flight lie in words. First stand the words that many threads write, eight words apart: a count
/// for each line, the ticket, the least fault. Behind them stands picture after picture, in each row after row of
/// coding tree blocks, in each row first phase B, unit after unit, then phase S; phases V and H have no words. A unit's
/// words follow one another: lines of luma samples, of Cb and of Cr; and in phase B the vectors of its places of 4x4
/// luma samples, row after row, their modes, two words of offsets, the contexts behind a row's second unit, and what
/// its last one carries on.
#[derive(Clone, Copy)]
pub struct Layout {
    sizes: FlightSizes,
}

impl Model for Layout {
    ghost use Rattle.sample_words.specs.declared.sizes.FlightSizes.{FlightSizes};
    ghost use Rattle.sample_words.specs.Sizes.{IsFlight};

    ghost Value = { FlightSizes };

    ghost view = { λ l. l.sizes };

    ghost inverse = { λ s. record { sizes = s } };

    ghost invariant = { λ l. IsFlight l.sizes };
}

impl Layout {
    /// That of a flight of these sizes.
    pub fn new(sizes: FlightSizes) -> Layout
        requires { IsFlight sizes }
        ensures { result ≡ sizes }
    {
        Layout { sizes }
    }

    /// The sizes.
    pub fn sizes(&self) -> FlightSizes
        ensures value { result ≡ self.now }
        ensures there { IsFlight result }
        ensures in_range { IsFlight self.now }
    {
        self.sizes
    }

    /// CtbSizeY.
    #[tactic(auto, using(crate::proofs::Bounds::side_most, crate::proofs::Bounds::side_least))]
    pub fn ctb_size(&self) -> u64
        ensures value { result ≡ ctb_size self.now }
        ensures least { 16 ≤ result }
        ensures greatest { result ≤ 64 }
        ensures in_range { IsFlight self.now }
    {
        1 << self.sizes.ctb_log2
    }

    /// PicWidthInCtbsY.
    #[tactic(auto, unfolding(crate::specs::Sizes::columns))]
    pub fn columns(&self) -> u64
        ensures value { result ≡ columns self.now }
        ensures some { 0 < result }
        ensures few { result ≤ 512 }
    {
        let sizes = self.sizes();
        let side = self.ctb_size();
        (u64::from(sizes.width) + (side - 1)) / side
    }

    /// PicHeightInCtbsY.
    #[tactic(auto, unfolding(crate::specs::Sizes::rows))]
    pub fn rows(&self) -> u64
        ensures value { result ≡ rows self.now }
        ensures some { 0 < result }
        ensures few { result ≤ 512 }
    {
        let sizes = self.sizes();
        let side = self.ctb_size();
        (u64::from(sizes.height) + (side - 1)) / side
    }

    /// How many columns of luma samples the coding tree units of a column have.
    #[tactic(auto, unfolding(crate::specs::Sizes::width_of))]
    pub fn width_of(&self, column: u64) -> u64
        requires { column ≤ 8192 }
        ensures value { result ≡ width_of self.now column }
        ensures few { result ≤ 64 }
    {
        let side = self.ctb_size();
        side.min(u64::from(self.sizes.width).saturating_sub(column * side))
    }

    /// How many lines of luma samples those of a row have.
    #[tactic(auto, unfolding(crate::specs::Sizes::height_of))]
    pub fn height_of(&self, row: u64) -> u64
        requires { row ≤ 8192 }
        ensures value { result ≡ height_of self.now row }
        ensures few { result ≤ 64 }
    {
        let side = self.ctb_size();
        side.min(u64::from(self.sizes.height).saturating_sub(row * side))
    }

    /// How many samples a word has: four where a bit depth is above 8, else eight.
    pub fn samples_a_word(&self) -> u64
        ensures value { result ≡ samples_a_word self.now }
        ensures least { 4 ≤ result }
        ensures greatest { result ≤ 8 }
    {
        if self.sizes.deep { 4 } else { 8 }
    }

    /// The words of a line of so many samples.
    #[tactic(auto, unfolding(crate::specs::Sizes::line_words))]
    pub fn line_words(&self, samples: u64) -> u64
        requires { samples ≤ 8192 }
        ensures value { result ≡ line_words self.now samples }
        ensures few { result ≤ samples }
    {
        let count = self.samples_a_word();
        (samples + (count - 1)) / count
    }

    /// The words of the samples of a block of so many luma samples across and down.
    #[tactic(auto, unfolding(crate::specs::Sizes::sample_words))]
    pub(crate) fn sample_words(&self, width: u64, height: u64) -> u64
        requires width { width ≤ 8192 }
        requires height { height ≤ 64 }
        ensures value { result ≡ sample_words self.now width height }
        ensures few { result ≤ 786432 }
    {
        let luma = self.line_words(width);
        let chroma = self.line_words(width / 2);
        height * luma + 2 * (height / 2 * chroma)
    }

    /// The words that each coding tree unit of such a size has.
    #[tactic(auto, unfolding(crate::specs::Sizes::common_words))]
    fn common_words(&self, width: u64, height: u64) -> u64
        requires width { width ≤ 64 }
        requires height { height ≤ 64 }
        ensures value { result ≡ common_words self.now width height }
        ensures few { result ≤ 786946 }
    {
        let samples = self.sample_words(width, height);
        samples + 2 * (width / 4 * (height / 4)) + 2
    }

    /// The words of the coding tree unit in a column of a row of so many lines.
    fn tree_words(&self, height: u64, column: u64) -> u64
        requires height { height ≤ 64 }
        requires column { column < columns self.now }
        ensures value { result ≡ tree_words self.now height column }
        ensures few { result ≤ 786990 }
    {
        let columns = self.columns();
        let common = self.common_words(self.width_of(column), height);
        common + (chosen(column == 1, 20) + chosen(column + 1 == columns, 24))
    }

    /// The words of the units left of that one.
    fn tree_start(&self, height: u64, column: u64) -> u64
        requires height { height ≤ 64 }
        requires column { column < columns self.now }
        ensures value { result ≡ tree_start self.now height column }
        ensures few { result ≤ 402129426 }
    {
        let _few = self.columns();
        let common = self.common_words(self.ctb_size(), height);
        column * common + chosen(1 < column, 20)
    }

    /// The words of the coding tree units of a row of so many lines.
    #[tactic(auto, unfolding(crate::specs::Sizes::built_words))]
    fn built_words(&self, height: u64) -> u64
        requires { height ≤ 64 }
        ensures value { result ≡ built_words self.now height }
        ensures few { result ≤ 402916416 }
    {
        let last = self.columns() - 1;
        self.tree_start(height, last) + self.tree_words(height, last)
    }

    /// The words of a row of so many lines behind all loop filters.
    #[tactic(auto, unfolding(crate::specs::Sizes::filtered_words))]
    fn filtered_words(&self, height: u64) -> u64
        requires { height ≤ 64 }
        ensures value { result ≡ filtered_words self.now height }
        ensures few { result ≤ 786432 }
    {
        self.sample_words(u64::from(self.sizes.width), height)
    }

    /// The words of a row of so many lines.
    #[tactic(auto, unfolding(crate::specs::Sizes::row_words))]
    fn row_words(&self, height: u64) -> u64
        requires { height ≤ 64 }
        ensures value { result ≡ row_words self.now height }
        ensures few { result ≤ 405275712 }
    {
        self.built_words(height) + self.filtered_words(height)
    }

    /// The words of the rows above one.
    fn rows_before(&self, row: u64) -> u64
        requires { row < 512 }
        ensures value { result ≡ row * row_words self.now (ctb_size self.now) }
        ensures few { result ≤ 207095888832 }
    {
        let whole = self.row_words(self.ctb_size());
        row * whole
    }

    /// The words of a picture.
    #[tactic(auto, unfolding(crate::specs::Sizes::picture_words))]
    fn picture_words(&self) -> u64
        ensures value { result ≡ picture_words self.now }
        ensures few { result ≤ 207501164544 }
    {
        let last = self.rows() - 1;
        let height = self.height_of(last);
        self.rows_before(last) + self.row_words(height)
    }

    /// How many lines the flight has.
    pub fn lines(&self) -> u64
        ensures value { result ≡ lines self.now }
        ensures few { result ≤ 134217728 }
    {
        let sizes = self.sizes();
        let rows = self.rows();
        u64::from(sizes.pictures) * rows * 4
    }

    /// The word that has the least fault; that of the ticket stands eight words before it.
    #[tactic(auto, unfolding(crate::specs::Words::fault_word))]
    pub fn fault_word(&self) -> u64
        ensures { result ≡ fault_word self.now }
    {
        self.lines() * 8 + 8
    }

    /// The word that counts the jobs that are drawn.
    #[tactic(auto, unfolding(crate::specs::Words::ticket_word))]
    pub fn ticket_word(&self) -> u64
        ensures { result ≡ ticket_word self.now }
    {
        self.lines() * 8
    }

    /// The first word of a unit.
    #[tactic(auto, unfolding(crate::specs::Words::first_unit_word))]
    pub fn first_unit_word(&self) -> u64
        ensures value { result ≡ first_unit_word self.now }
        ensures few { result ≤ 1073741840 }
    {
        self.lines() * 8 + 16
    }

    /// How many words there are.
    #[tactic(auto, unfolding(crate::specs::Words::words))]
    pub fn words(&self) -> u64
        ensures { result ≡ words self.now }
    {
        let pictures = self.pictures_before(self.sizes().pictures);
        self.first_unit_word() + pictures
    }

    /// The words of so many pictures.
    fn pictures_before(&self, pictures: u32) -> u64
        requires { pictures ≤ 65536 }
        ensures value { result ≡ pictures * picture_words self.now }
        ensures few { result ≤ 13598796319555584 }
    {
        let whole = self.picture_words();
        u64::from(pictures) * whole
    }

    /// The word that counts the units of a line that are done.
    #[tactic(auto, unfolding(crate::specs::Words::count_word))]
    pub fn count_word(&self, line: Line) -> u64
        requires { IsLine self.now line }
        ensures { result ≡ count_word self.now line }
    {
        (self.rows_above(line) * 4 + phase_number(line.phase)) * 8
    }

    /// How many rows of coding tree blocks the flight has above that of a line.
    fn rows_above(&self, line: Line) -> u64
        requires { IsLine self.now line }
        ensures value { result ≡ line.picture * rows self.now + line.row }
        ensures few { result ≤ 33554944 }
    {
        let _few = self.sizes();
        let rows = self.rows();
        u64::from(line.picture) * rows + u64::from(line.row)
    }

    /// How many units a line has.
    pub fn line_units(&self, phase: Phase) -> u64
        ensures value { result ≡ line_units self.now phase }
        ensures few { result ≤ 512 }
    {
        match phase {
            Phase::B => self.columns(),
            Phase::V => 1,
            Phase::H => 1,
            Phase::S => 1,
        }
    }

    /// How many words a unit has: a row in phase V or H has none.
    pub fn unit_words(&self, line: Line, unit: u64) -> u64
        requires line { IsLine self.now line }
        requires unit { unit < line_units self.now line.phase }
        ensures value { result ≡ unit_words self.now line unit }
        ensures few { result ≤ 786990 }
    {
        let height = self.line_height(line);
        match line.phase {
            Phase::B => self.tree_words(height, unit),
            Phase::V | Phase::H => 0,
            Phase::S => self.filtered_words(height),
        }
    }

    /// How many lines of luma samples a line of the flight has.
    pub(crate) fn line_height(&self, line: Line) -> u64
        requires { IsLine self.now line }
        ensures value { result ≡ height_of self.now line.row }
        ensures few { result ≤ 64 }
    {
        let _few = self.rows();
        self.height_of(u64::from(line.row))
    }

    /// The first word of a unit, behind which all its others follow.
    #[tactic(auto, unfolding(crate::specs::Words::unit_start))]
    pub fn unit_start(&self, line: Line, unit: u64) -> u64
        requires line { IsLine self.now line }
        requires unit { unit < line_units self.now line.phase }
        ensures value { result ≡ unit_start self.now line unit }
        ensures few { result < 2 ^ 60 }
    {
        let _few = self.sizes();
        let pictures = self.pictures_before(line.picture);
        let start = self.start_in_picture(line, unit);
        self.first_unit_word() + (pictures + start)
    }

    /// Where a unit begins in its picture.
    #[tactic(auto, unfolding(crate::specs::Words::start_in_picture))]
    fn start_in_picture(&self, line: Line, unit: u64) -> u64
        requires line { IsLine self.now line }
        requires unit { unit < line_units self.now line.phase }
        ensures value { result ≡ start_in_picture self.now line unit }
        ensures few { result ≤ 210000000000 }
    {
        let _few = self.rows();
        let above = self.rows_before(u64::from(line.row));
        above + self.start_in_row(line, unit)
    }

    /// Where a unit begins in its row.
    #[tactic(auto, unfolding(crate::specs::Words::start_in_row))]
    fn start_in_row(&self, line: Line, unit: u64) -> u64
        requires line { IsLine self.now line }
        requires unit { unit < line_units self.now line.phase }
        ensures value { result ≡ start_in_row self.now line unit }
        ensures few { result ≤ 500000000 }
    {
        let height = self.line_height(line);
        match line.phase {
            Phase::B => self.tree_start(height, unit),
            Phase::V | Phase::H | Phase::S => self.built_words(height),
        }
    }
}

/// A number of words, or none.
fn chosen(is_chosen: bool, words: u64) -> u64
    ensures value { result ≡ cond is_chosen words 0 }
    ensures few { result ≤ words }
{
    if is_chosen { words } else { 0 }
}

/// The number of a phase.
fn phase_number(phase: Phase) -> u64
    ensures value { result ≡ phase_number phase }
    ensures few { result < 4 }
{
    match phase {
        Phase::B => 0,
        Phase::V => 1,
        Phase::H => 2,
        Phase::S => 3,
    }
}

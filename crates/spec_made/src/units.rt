//! What is drawn of a picture.

/// A coding tree unit whose samples come by pulse code modulation.
#[derive(Clone, Copy, Debug)]
pub struct PcmUnit {
    /// Whether it has four coding units, of 8x8 luma samples each.
    pub split: bool,
    /// The samples, coding unit after coding unit: those of luma, of Cb and of Cr, row after row.
    pub samples: [u8; 384],
}

/// A coding tree unit that is predicted from other pictures.
#[derive(Clone, Copy, Debug)]
pub struct InterUnit {
    /// Whether it has four coding units, of 8x8 luma samples each.
    pub split: bool,
    /// Which of its coding units are skipped; of one that isn't split the first says it.
    pub skips: [bool; 4],
}

/// How far a picture moves: by 2 * `across` - 200 luma samples to the right and 2 * `down` - 200 down.
#[derive(Clone, Copy, Debug)]
pub struct Shift {
    /// From 0 to 200.
    pub across: u32,
    /// From 0 to 200.
    pub down: u32,
}

/// The vectors of a picture: that of list 0 and, in a B picture, that of list 1.
#[derive(Clone, Copy, Debug)]
pub struct Motion {
    /// That of list 0.
    pub first: Shift,
    /// That of list 1, in a B picture.
    pub second: Option<Shift>,
}

//! The sizes of the pictures of a flight.

/// The sizes on which the words of a flight depend. Its pictures are of one sequence parameter set, in 4:2:0.
#[derive(Clone, Copy)]
pub struct FlightSizes {
    /// pic_width_in_luma_samples: a multiple of 8, from 8 to 8192.
    pub width: u32,
    /// pic_height_in_luma_samples: a multiple of 8, from 8 to 8192.
    pub height: u32,
    /// CtbLog2SizeY, from 4 to 6.
    pub ctb_log2: u32,
    /// Whether BitDepthY or BitDepthC is above 8: a word has four samples then, else eight.
    pub deep: bool,
    /// How many pictures are decoded together, from 1 to 65536.
    pub pictures: u32,
}

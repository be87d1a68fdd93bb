//! Pictures that are drawn of a seed, without a stream.

use crate::byte_text::number_of;
use crate::row_error::RowError;
use drawn_pictures::{draw_pictures, shown_at};
use std::alloc::Global;

/// How many bytes a picture is: a plane of 128x96 samples, and two of 64x48.
const PICTURE: usize = 18_432;

/// The bytes of `SEED COUNT`: so many pictures drawn of the seed, in the order in which they are shown.
pub(crate) fn drawn_output(alloc: Global, text: &str) -> Result<Vec<u8>, RowError> {
    let mut words = text.split(' ');
    let seed = number_of(words.next().unwrap_or(""))?;
    let count = number_of(words.next().unwrap_or(""))?;
    let drawn = draw_pictures(alloc, u64::from(seed), count)?;
    let mut shown = Vec::new(alloc);
    for place in 0..count {
        let number = shown_at(count, place) as usize;
        let picture = drawn.chunks_exact(PICTURE).nth(number);
        shown.extend_from_slice(picture.ok_or(RowError::Unreadable)?)?;
    }
    Ok(shown)
}

//! Memory for pictures that are decoded.

use header_types::PictureFormat;
use loop_filters::FilterScratch;
use picture_buffer::{Picture, SharedPicture};
use progress_words::BoardMemory;
use std::alloc::Global;

/// Memory for pictures that are decoded: pictures that nobody has any more, in which later ones of their size are kept,
/// that in which they are filtered, and that of boards. Contracts don't see it.
#[derive(Drop)]
pub struct Spares {
    alloc: Global,
    pictures: Vec<Picture>,
    pub(crate) scratch: FilterScratch,
    pub(crate) board: BoardMemory,
}

impl Spares {
    /// None. It takes no memory.
    pub fn new(alloc: Global) -> Spares {
        Spares {
            alloc,
            pictures: Vec::new(alloc),
            scratch: FilterScratch::new(alloc),
            board: BoardMemory::new(alloc),
        }
    }

    /// Takes a picture, if this is its last owner. It is dropped for want of memory.
    pub fn give(&mut self, shared: SharedPicture) {
        match shared.into_picture() {
            Some(picture) => {
                let _pushed = self.pictures.push(picture);
            }
            None => {}
        }
    }

    /// Takes the last spare picture out. Where it isn't of the size of this format all are let go of.
    pub(crate) fn take(&mut self, format: &PictureFormat) -> Option<Picture> {
        let spare = self.pictures.pop()?;
        if has_size(&spare, format) {
            return Some(spare);
        }
        self.pictures = Vec::new(self.alloc);
        None
    }
}

/// Whether a picture has the luma sides of a format.
fn has_size(picture: &Picture, format: &PictureFormat) -> bool {
    picture.format().pic_width_in_luma_samples == format.pic_width_in_luma_samples
        && picture.format().pic_height_in_luma_samples == format.pic_height_in_luma_samples
}

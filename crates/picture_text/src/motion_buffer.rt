//! The motion of the pictures of the decoded picture buffer.

use picture_buffer::MotionField;
use std::alloc::{AllocError, Global};

/// The motion of the buffer's pictures, in decoding order. A picture is named by its place.
#[derive(Drop)]
pub(crate) struct MotionBuffer {
    fields: Vec<MotionField>,
}

impl MotionBuffer {
    /// An empty buffer.
    pub(crate) fn new(alloc: Global) -> MotionBuffer {
        MotionBuffer {
            fields: Vec::new(alloc),
        }
    }

    /// The motion of the picture at a place.
    pub(crate) fn get(&self, place: u32) -> Option<&MotionField> {
        self.fields.get(place as usize)
    }

    /// The motion of a picture, which then stands behind the last.
    pub(crate) fn push(&mut self, field: MotionField) -> Result<(), AllocError> {
        match self.fields.push(field) {
            Ok(()) => Ok(()),
            Err(_) => Err(AllocError),
        }
    }

    /// Keeps that of the pictures at these places.
    pub(crate) fn keep(&mut self, places: &[u32]) {
        let count = self.fields.len();
        for k in 0..count {
            let place = count - 1 - k;
            if place < self.fields.len() && !is_among(places, place) {
                self.fields.remove(place);
            }
        }
    }
}

/// Whether a place is one of these.
fn is_among(places: &[u32], place: usize) -> bool {
    places.iter().any(|other| *other as usize == place)
}

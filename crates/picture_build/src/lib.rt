//! Reads and builds a planned picture (H.265 6.4.1, 8.4.4.1, 8.5.3, 8.6.5, 8.7), on one thread: the motion and the
//! samples of its coding tree units one after the other, each from what is known beside it and from the pictures that
//! it refers to, and then its loop filters.
#![tactic(auto)]

mod beside;
mod builder;
mod factors;
mod format;
mod fresh;
mod held;
mod inside;
mod lines;
mod picture;
mod references;
mod spare;
mod unit;

pub use format::{common_format, set_slice};
pub use picture::build_picture;
pub use picture_buffer::Bases;
pub use references::References;
pub use spare::picture_parts;

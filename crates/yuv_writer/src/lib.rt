//! Pictures as they are put out: I420 inside the conformance window, a byte a sample, or two where a bit depth is over
//! 8 (H.265 7.4.3.2, C.5.2.4).
#![tactic(auto)]

mod gathering;
mod hashing;
mod pieces;
mod window;
mod writing;

pub use hashing::picture_md5;
pub use writing::write_picture;

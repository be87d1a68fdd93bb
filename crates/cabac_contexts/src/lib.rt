//! Contexts of arithmetic decoding, and a reader of bins over the interval and the contexts (H.265 9.3.2.2, 9.3.3,
//! 9.3.4).
#![tactic(auto)]

mod bin_reader;
mod contexts;
mod packing;

pub use bin_reader::BinReader;
pub use cabac_engine::Interval;
pub use contexts::Contexts;
pub use packing::packed_contexts_are_unpacked;

//! Fields of headers, from bits and as bits (H.265 7.2, 9.2).
#![tactic(auto)]

mod aligned;
mod bit_reader;
mod bit_writer;
mod exp_golomb;
mod laws;

pub use bit_reader::BitReader;
pub use bit_writer::BitWriter;
pub use laws::fields_read_back;

#[cfg(test)]
mod tests;

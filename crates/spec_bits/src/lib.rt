//! What the bits of a byte string are, what number the next n bits or the next Exp-Golomb code spell, and which bits
//! spell a number (H.265 7.2, 9.2), with a plain program that reads and the laws that bind the two.
#![tactic(auto)]

mod alignment;
mod exp_golomb;
mod laws;
mod plain;

pub use alignment::byte_alignment;
pub use exp_golomb::{signed_exp_golomb, signed_value, unsigned_exp_golomb};
pub use laws::{
    alignment_as_spelled, bytes_as_spelled, code_alone_is_read, code_has_few_zeros,
    code_num_is_as_written, flag_is_one_bit, signed_exp_golomb_as_spelled, unsigned_as_spelled,
    unsigned_exp_golomb_as_spelled,
};
pub use plain::{bits_of, flag, unsigned};

#[cfg(test)]
mod tests;

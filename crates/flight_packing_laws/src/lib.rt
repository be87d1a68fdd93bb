//! Laws of words of flights: a coding tree unit whose work is done holds the values of its picture, and so the words
//! that it is packed into are as expected, and its derived motion tells the blocks that it is predicted from (H.265
//! 6.3.1, 6.4.1, 8.5.3).
#![tactic(auto)]

mod laws;

pub use laws::{
    built_units_hold_the_values_of_their_flight, built_units_hold_what_agrees,
    derived_units_tell_their_blocks,
};
pub use unit_words::DoneUnit;

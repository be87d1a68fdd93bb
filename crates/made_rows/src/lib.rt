//! Rows of coding tree units of made pictures, as bytes.
#![tactic(auto)]

mod bent_rows;
mod bin_writer;
mod inter_rows;
mod pcm_rows;
mod row;

pub use bent_rows::{bent_inter_row, bent_pcm_row};
pub use bin_writer::are_bytes;
pub use inter_rows::{inter_row, later_motion};
pub use pcm_rows::pcm_row;
pub use row::Row;

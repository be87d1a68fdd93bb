//! What a stream that is made of a seed reads back as: its units, its headers, its pictures and their substreams.
#![tactic(auto)]

mod laws;

pub use laws::{
    made_entry_points_cut, made_headers_read_back, made_pictures_go_out_in_order,
    made_streams_hold_their_pictures, made_streams_split,
};

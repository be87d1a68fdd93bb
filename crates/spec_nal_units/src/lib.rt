//! What the NAL units of a byte stream are, and how each is read or refused (H.265 B.2, 7.3.1): definitions.
#![tactic(auto)]

mod laws;

pub use laws::{
    escaped_units_read_back, start_codes_end_units, streams_split_as_written, whole_units_stay,
};

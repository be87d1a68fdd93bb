//! Plans a picture by the headers of its slice segments (H.265 7.4.2.4.4, 7.4.7.1, 8.3).
#![tactic(auto)]

mod closing;
mod headers;
mod opening;
mod outputs;
mod segments;

pub use closing::broken_at_closing;
pub use headers::{first_flag, judge_header};
pub use opening::open_picture;
pub use output_order::{is_irap, last_outputs};
pub use segments::segment_of;
pub use slice_headers::{read_pps, read_sps};

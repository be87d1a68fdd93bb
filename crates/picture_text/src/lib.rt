//! Planned pictures as text: a line each in decoding order or in output order, their slice segment headers, their
//! coding trees and motion, the samples of those of I slices by rows, and what is planned of one (H.265 7.3.8, 8.3,
//! 8.5.3.2, 8.7, C.5.2).
#![tactic(auto)]

mod coded_picture;
mod motion_buffer;
mod output_trace;
mod picture_line;
mod plane_rows;
mod planned;
mod prediction_lines;
mod row_trace;
mod tree_trace;
mod tree_units;
mod unit_lines;

pub use coded_picture::print_slice_segments;
pub use output_trace::OutputTrace;
pub use picture_line::PictureLine;
pub use planned::plan_text;
pub use row_trace::RowTrace;
pub use tree_trace::TreeTrace;

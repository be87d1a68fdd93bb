//! The levels of a transform block, off its bins (H.265 7.3.8.11, 9.3.4.2.3 to 9.3.4.2.7).
#![tactic(auto)]

mod indices;
mod last_position;
mod level_list;
mod reading;
mod remaining;
mod significance;
mod sub_block;

pub use cabac_contexts::{BinReader, Contexts, Interval};
pub use level_list::Levels;
pub use reading::read_residual;
pub use spec_cabac::{CBF_CHROMA, CBF_LUMA, CU_QP_DELTA_ABS, SPLIT_TRANSFORM_FLAG};
pub use spec_residuals::{Level, ResidualBlock, Scan};

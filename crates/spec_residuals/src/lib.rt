//! residual_coding (H.265 7.3.8.11, 9.3.4.2.3 to 9.3.4.2.7) as a format over bins, and the law that binds its reading
//! to the bins that spell it.
#![tactic(auto)]

mod block;
mod laws;
mod progress;
mod tables;

pub use block::{Level, ResidualBlock};
pub use block_geometry::{Scan, scan, scan_index};
pub use laws::residuals_are_spelled;
pub use progress::{Greater1Flags, LevelState, Progress, Signs, SubBlock};
pub use tables::CTX_IDX_MAP;

//! Intra prediction of one block (8.4.4.2): its neighbours are gathered, substituted and filtered, and its samples
//! predicted from them.
#![tactic(auto)]

mod angular;
mod beside;
mod border;
mod planar_dc;
mod prediction;
mod rows;
mod smoothing;
mod substitution;

pub use beside::neighbours;
pub use border::Border;
pub use prediction::predict;
pub use substitution::substitute;

//! Pictures of a stream as they are planned, and what is known of it between two units: the types alone, which
//! definitions, readers and decoders share.
#![tactic(auto)]

mod between;
mod outputs;
mod payload;
mod picture_plan;
mod segment_plan;
mod stated_hash;

pub use between::Between;
pub use outputs::Outputs;
pub use payload::Payload;
pub use picture_plan::PicturePlan;
pub use segment_plan::SegmentPlan;
pub use stated_hash::StatedHash;

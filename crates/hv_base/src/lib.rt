//! Plain types that every layer of the decoder knows: broken rules, limits, outcomes and exit statuses.
#![tactic(auto)]

mod breach;
mod digest;
mod fault;
mod field_rules;
mod level;
mod limit;
mod line;
mod lists;
mod nal;
mod nal_types;
mod outcome;
mod refusal;
mod unit;

pub use breach::Breach;
pub use digest::Digest;
pub use fault::{Fault, FaultKind};
pub use field_rules::{FieldRules, PARAMETER_SET_RULES, SLICE_HEADER_RULES};
pub use level::LevelMeasure;
pub use limit::{Limit, LimitKind};
pub use line::{Line, Phase};
pub use lists::{BytePlaces, Bytes};
pub use nal::Nal;
pub use nal_types::{
    AUD_NUT, BLA_N_LP, BLA_W_LP, CRA_NUT, EOB_NUT, EOS_NUT, IDR_N_LP, IDR_W_RADL, PPS_NUT,
    PREFIX_SEI_NUT, RADL_N, RADL_R, RASL_N, RASL_R, RSV_VCL_N14, SPS_NUT, SUFFIX_SEI_NUT, TRAIL_N,
    VPS_NUT,
};
pub use outcome::{Outcome, Status};
pub use refusal::{Refusal, Stop};
pub use unit::UnitNumber;

#[cfg(test)]
mod tests;

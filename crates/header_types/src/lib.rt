//! Plain types of parameter sets and reference pictures (H.265 7.3, 8.3), with a field for each field of the grammar.
#![tactic(auto)]

mod exact_clone;
mod field_list;
mod former;
mod laws;
mod pps;
mod profile;
mod ref_list;
mod reference_pictures;
mod scaling;
mod shared;
mod short_term_set;
mod sps;
mod sps_ranges;

pub use exact_clone::ExactClone;
pub use field_list::FieldList;
pub use former::{Former, Sets};
pub use laws::same_content_is_equality;
pub use pps::{
    DeblockingControl, Pps, PpsFields, PpsFilters, PpsIdentity, PpsPrediction, PpsQuantization,
    PpsSliceDefaults,
};
pub use profile::{Profile, ProfileTierLevel, SubLayerProfile};
pub use ref_list::RefList;
pub use reference_pictures::{
    DpbPicture, Lists, LongTermRef, Mark, NamedSets, PictureName, RefEntry, Rps,
};
pub use scaling::{ScalingList, ScalingLists};
pub use shared::Shared;
pub use short_term_set::{ShortTermRef, StRps};
pub use sps::{
    BlockSizes, ConformanceWindow, LongTermCandidate, PcmFormat, PictureFormat, SpsFields,
    SpsIdentity, SpsOrder, SpsReferences, SpsTools, SubLayerOrdering,
};
pub use sps_ranges::Sps;

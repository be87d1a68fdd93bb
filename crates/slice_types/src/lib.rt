//! Plain types of slice segment headers (H.265 7.3.6, 7.4.7), with a field for each field of the grammar.
#![tactic(auto)]

mod exact_clone;
mod laws;
mod slice;
mod substream;
mod weights;

pub use header_types::{DpbPicture, FieldList, Former, Lists, Pps, Rps, Sets, Shared, Sps};
pub use laws::same_references_are_equality;
pub use slice::{
    Collocated, InterFields, LongTermRefs, PictureKind, ReferenceFields, SegmentFields,
    SliceDeblocking, SliceFields, SliceHeader, SliceHeaderFields, SliceType,
};
pub use substream::Substream;
pub use weights::{ChromaWeight, LumaWeight, PredWeightTable, RefWeights};

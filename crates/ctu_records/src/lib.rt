//! What is read of one coding tree unit (H.265 7.3.8): the items of its syntax in reading order, its sample adaptive
//! offset and quantization, and what is asked of them by place.
#![tactic(auto)]

mod item;
mod neighbours;
mod offset;
mod places;
mod prediction;
mod records;
mod side;

pub use item::{
    CodedBlock, CodingPlace, CodingUnit, Item, LumaMode, QpDelta, Square, TransformUnit,
};
pub use neighbours::Neighbours;
pub use offset::{ComponentOffset, Sao};
pub use prediction::{
    MotionSyntax, Mv, PartMode, PredictionUnit, Rectangle, VectorSyntax, part_block,
};
pub use records::{Quantization, Records};
pub use side::Side;

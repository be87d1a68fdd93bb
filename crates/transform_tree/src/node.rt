//! What a node of a transform tree depends on.

ghost use Rattle.std.specs.Prelude.{◌≡◌};

use ctu_records::Square;
use spec_slice_data::{ChromaFlags, CtuSyntax, UnitSyntax};

/// What the transform tree of a coding unit depends on.
#[derive(Clone, Copy)]
pub struct UnitContext {
    /// What all elements of the coding tree unit depend on.
    pub syntax: CtuSyntax,
    /// What is known of the coding unit.
    pub unit: UnitSyntax,
}

/// A node of a transform tree.
#[derive(Clone, Copy)]
pub struct TransformNode {
    /// Its chroma flags, or those of the node above before they are read.
    pub flags: ChromaFlags,
    /// Its luma block.
    pub square: Square,
    /// trafoDepth.
    pub depth: u8,
}

impl TransformNode {
    /// A node like this one over another square.
    pub fn over(self, square: Square) -> TransformNode
        ensures { result ≡ record { flags = self.flags; square = square; depth = self.depth } }
    {
        TransformNode { square, ..self }
    }
}

//! What is the same for all edges that are filtered in one direction.

use crate::window::Window;
use spec_deblocking::Plane;

/// The filtering of edges in one direction.
#[derive(Clone, Copy, Debug, PartialEq, Eq)]
pub struct Pass {
    /// Whether the plane is luma or chroma.
    pub plane: Plane,
    /// From 8 to 14.
    pub bit_depth: u32,
    /// How many samples the plane has across the edges.
    pub side: usize,
    /// The samples, in which each edge is filtered.
    pub window: Window,
    /// The first edge that is filtered, counted in eights of samples.
    pub first: usize,
    /// The edge behind the last that is filtered.
    pub end: usize,
    /// The first sample along the edges that is filtered.
    pub along_first: usize,
    /// The sample behind the last along the edges.
    pub along_end: usize,
}

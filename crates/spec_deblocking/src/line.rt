//! The samples of one line on both sides of an edge, and how they are filtered.

/// Four samples before an edge and four behind it, numbered from the edge on.
#[derive(Clone, Copy, Debug, PartialEq, Eq)]
pub struct Line {
    /// The fourth sample before the edge.
    pub p3: u32,
    /// The third before it.
    pub p2: u32,
    /// The second before it.
    pub p1: u32,
    /// The sample right before the edge.
    pub p0: u32,
    /// The sample right behind the edge.
    pub q0: u32,
    /// The second behind it.
    pub q1: u32,
    /// The third behind it.
    pub q2: u32,
    /// The fourth sample behind the edge.
    pub q3: u32,
}

/// How the lines of a place are filtered across an edge.
#[derive(Clone, Copy, Debug, PartialEq, Eq)]
pub enum Filter {
    /// Not at all: dE is 0.
    Off,
    /// By the normal filter of luma: dE is 1, dEp and dEq say whether p1 and q1 change.
    Normal { p1: bool, q1: bool },
    /// By the strong filter of luma: dE is 2.
    Strong,
    /// By the filter of chroma, which changes p0 and q0 alone.
    Nearest,
}

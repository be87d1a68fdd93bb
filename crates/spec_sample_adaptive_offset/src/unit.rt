//! What sample adaptive offset asks of a coding tree unit.

use ctu_records::ComponentOffset;

/// One component of a coding tree unit, and the slice that the unit belongs to.
#[derive(Clone, Copy, Debug, PartialEq, Eq)]
pub struct OffsetUnit {
    /// SaoTypeIdx of the component, with what belongs to it.
    pub offset: ComponentOffset,
    /// SliceAddrRs: the address of the first coding tree unit of the slice, in raster order of the picture.
    pub slice: u32,
    /// slice_loop_filter_across_slices_enabled_flag of the slice.
    pub across: bool,
}

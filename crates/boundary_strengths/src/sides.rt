//! What is known beside a coding tree unit, apart from motion.

ghost use Rattle.std.specs.Prelude.{◌≡◌, ◌≤◌};
ghost use Rattle.boundary_strengths.specs.Held.{coded_beside};

/// What a unit's filtering depends on, apart from what was read of it and motion.
#[derive(Clone, Copy, Debug, PartialEq, Eq)]
pub struct UnitSides {
    /// Whether the luma transform blocks of the places on its left have levels that aren't 0, from the upper one down.
    pub coded_left: [bool; 16],
    /// The same of the places above it.
    pub coded_above: [bool; 16],
    /// Whether its left side is filtered: not at the edge of the picture, nor at that of its slice where
    /// slice_loop_filter_across_slices_enabled_flag is 0.
    pub filter_left: bool,
    /// Whether its top is filtered.
    pub filter_top: bool,
    /// slice_deblocking_filter_disabled_flag.
    pub deblocking_disabled: bool,
    /// pcm_loop_filter_disabled_flag.
    pub pcm_loop_filter_disabled: bool,
    /// QpBdOffsetY.
    pub qp_bd_offset: u8,
}

impl UnitSides {
    /// Whether a place beside the unit is coded, column and row counted from 1 at the unit's first place.
    #[tactic(auto, unfolding(crate::specs::Held::coded_beside))]
    pub(crate) fn coded(&self, column: usize, row: usize) -> bool
        requires column { column ≤ 16 }
        requires row { row ≤ 16 }
        ensures { result ≡ coded_beside self.now column row }
    {
        if column == 0 {
            self.coded_left[row.saturating_sub(1)]
        } else {
            self.coded_above[column - 1]
        }
    }
}

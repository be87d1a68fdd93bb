//! Sample adaptive offset (7.4.9.3).

/// SaoTypeIdx of a component and what belongs to it, SaoOffsetVal unscaled.
#[derive(Clone, Copy, Debug, PartialEq, Eq)]
pub enum ComponentOffset {
    /// Not applied.
    Off,
    /// Band offset: sao_band_position, and the offsets.
    Band(u8, [i8; 4]),
    /// Edge offset: sao_eo_class, and the offsets.
    Edge(u8, [i8; 4]),
}

/// Sample adaptive offset of a coding tree unit.
#[derive(Clone, Copy, Debug, PartialEq, Eq)]
pub struct Sao {
    /// That of luma.
    pub luma: ComponentOffset,
    /// That of Cb.
    pub cb: ComponentOffset,
    /// That of Cr.
    pub cr: ComponentOffset,
}

//! Numbers of the units of work of a flight of pictures.

/// The number of a unit of work: picture by picture, in each the coding tree units in raster order, then the rows whose
/// vertical edges are deblocked, those whose horizontal edges are, and those that have their offsets.
pub type UnitNumber = u64;

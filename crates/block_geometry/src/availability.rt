//! Which places may be used by another (6.4.1). A place is a block of 4x4 luma samples.

ghost use Rattle.std.specs.Prelude.{◌≡◌, ◌+◌, ◌*◌, ◌^◌, ◌<◌, ◌≤◌};
ghost use Rattle.block_geometry.specs.Availability.{available, block_start, is_usable, min_transform_order, spread};
ghost use Rattle.block_geometry.specs.Availability.{unit_of_place, z_scan_order};

/// The picture of a slice, in places.
#[derive(Clone, Copy, Debug, PartialEq, Eq)]
pub struct SliceArea {
    /// The places of a row of the picture, at most 2048.
    pub across: u32,
    /// The rows of places, at most 2048.
    pub down: u32,
    /// The binary logarithm of a coding tree unit's side in places, at most 4.
    pub size: u32,
    /// The binary logarithm of a minimum transform block's side in places, at most 3.
    pub min_transform: u32,
    /// SliceAddrRs: the address of the slice's first coding tree unit.
    pub first_unit: u32,
}

/// Whether the place at (`neighbour_x`, `neighbour_y`) is available for the one at (`x`, `y`) of the slice: the picture
/// has it, it is in the same slice, and its minimum transform block isn't decoded after the one of that place.
#[tactic(auto, unfolding(crate::specs::Availability::available))]
pub fn available(area: &SliceArea, x: u32, y: u32, neighbour_x: i32, neighbour_y: i32) -> bool
    requires across { area.now.across ≤ 2048 }
    requires down { area.now.down ≤ 2048 }
    requires size { area.now.size ≤ 4 }
    requires block { area.now.min_transform ≤ 3 }
    requires x { x < area.now.across }
    requires y { y < area.now.down }
    ensures { result ≡ available area.now x y neighbour_x neighbour_y }
{
    match (u32::try_from(neighbour_x), u32::try_from(neighbour_y)) {
        (Ok(neighbour_x), Ok(neighbour_y)) => is_usable(area, x, y, neighbour_x, neighbour_y),
        _ => false,
    }
}

/// The same of a place that is neither left of the picture nor above it.
fn is_usable(area: &SliceArea, x: u32, y: u32, neighbour_x: u32, neighbour_y: u32) -> bool
    requires across { area.now.across ≤ 2048 }
    requires down { area.now.down ≤ 2048 }
    requires size { area.now.size ≤ 4 }
    requires block { area.now.min_transform ≤ 3 }
    requires x { x < area.now.across }
    requires y { y < area.now.down }
    ensures { result ≡ is_usable area.now x y neighbour_x neighbour_y }
{
    if neighbour_x >= area.across || neighbour_y >= area.down {
        return false;
    }
    area.first_unit <= unit_of_place(area, neighbour_x, neighbour_y)
        && min_transform_order(area, neighbour_x, neighbour_y) <= min_transform_order(area, x, y)
}

/// Where the minimum transform block of a place stands in z-scan order.
fn min_transform_order(area: &SliceArea, x: u32, y: u32) -> u32
    requires across { area.now.across ≤ 2048 }
    requires size { area.now.size ≤ 4 }
    requires block { area.now.min_transform ≤ 3 }
    requires x { x < 2048 }
    requires y { y < 2048 }
    ensures { result ≡ min_transform_order area.now x y }
{
    let log2 = area.min_transform;
    z_scan_order(area, block_start(log2, x), block_start(log2, y))
}

/// The first column, or row, of the block of so many places on a side that has a place.
fn block_start(log2: u32, x: u32) -> u32
    requires { log2 ≤ 4 }
    ensures value { result ≡ block_start log2 x }
    ensures before { result ≤ x }
{
    x.saturating_sub(x % side_of(log2))
}

/// The address of the coding tree unit that has a place.
#[tactic(auto, unfolding(crate::specs::Availability::unit_of_place))]
fn unit_of_place(area: &SliceArea, x: u32, y: u32) -> u32
    requires across { area.now.across ≤ 2048 }
    requires size { area.now.size ≤ 4 }
    requires x { x < 2048 }
    requires y { y < 2048 }
    ensures value { result ≡ unit_of_place area.now x y }
    ensures small { result < 8388608 }
{
    let side = side_of(area.size);
    let width = (area.across + (side - 1)) / side;
    width * (y / side) + x / side
}

/// The place of a place in z-scan order.
#[tactic(auto, unfolding(crate::specs::Availability::z_scan_order))]
fn z_scan_order(area: &SliceArea, x: u32, y: u32) -> u32
    requires across { area.now.across ≤ 2048 }
    requires size { area.now.size ≤ 4 }
    requires x { x < 2048 }
    requires y { y < 2048 }
    ensures { result ≡ z_scan_order area.now x y }
{
    let side = side_of(area.size);
    256 * unit_of_place(area, x, y) + (spread(x % side) + 2 * spread(y % side))
}

/// A side in places.
fn side_of(size: u32) -> u32
    requires { size ≤ 4 }
    ensures value { result ≡ 2 ^ size }
    ensures some { 1 ≤ result }
    ensures small { result ≤ 16 }
{
    1 << size
}

/// The bits of a number below 16, each at the place of its square.
#[tactic(auto, unfolding(crate::specs::Availability::spread))]
fn spread(k: u32) -> u32
    requires { k < 16 }
    ensures value { result ≡ spread k }
    ensures small { result ≤ 85 }
{
    k % 2 + 4 * (k / 2 % 2) + 16 * (k / 4 % 2) + 64 * (k / 8 % 2)
}

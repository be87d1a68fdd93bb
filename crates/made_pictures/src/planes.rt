//! The samples of made pictures.

ghost use Rattle.std.specs.Prelude.{◌≡◌, ◌+◌, ◌*◌, ◌/◌, ◌<◌, ◌≤◌, length, IfOk};
ghost use Rattle.spec_made.specs.Planes.{Planes, Component, luma, pcm_sample, pcm_planes, moved_place, moved_sample};
ghost use Rattle.spec_made.specs.Planes.{moved_planes, plane_of, mean_of, mean_planes};

use spec_made::{PcmUnit, Shift};
use std::alloc::{AllocError, Global};

/// A luma sample of a unit by pulse code modulation.
#[tactic(auto, unfolding(spec_made::specs::Planes::pcm_sample))]
fn pcm_luma(units: &[PcmUnit], x: usize, y: usize) -> u8
    requires count { length units.now ≡ 48 }
    requires across { x < 128 }
    requires down { y < 96 }
    ensures { result ≡ pcm_sample units.now luma x y }
{
    let unit = &units[8 * (y / 16) + x / 16];
    let i = x % 16;
    let j = y % 16;
    let place = if unit.split {
        96 * (2 * (j / 8) + i / 8) + 8 * (j % 8) + i % 8
    } else {
        16 * j + i
    };
    unit.samples[place]
}

/// A sample of a chroma component, by where its samples begin in a unit and in a coding unit.
#[tactic(auto, unfolding(spec_made::specs::Planes::pcm_sample))]
fn pcm_chroma(units: &[PcmUnit], whole: usize, quarter: usize, x: usize, y: usize) -> u8
    requires count { length units.now ≡ 48 }
    requires whole { whole ≤ 320 }
    requires quarter { quarter ≤ 80 }
    requires across { x < 64 }
    requires down { y < 48 }
    ensures { result ≡ pcm_sample units.now (record { side = 8; whole = whole; quarter = quarter }) x y }
{
    let unit = &units[8 * (y / 8) + x / 8];
    let i = x % 8;
    let j = y % 8;
    let place = if unit.split {
        96 * (2 * (j / 4) + i / 4) + quarter + 4 * (j % 4) + i % 4
    } else {
        whole + 8 * j + i
    };
    unit.samples[place]
}

/// The luma sample that moves to a place.
#[tactic(auto, unfolding(spec_made::specs::Planes::moved_sample))]
fn moved_luma(plane: &[u8], shift: Shift, x: usize, y: usize) -> u8
    requires count { length plane.now ≡ 12288 }
    requires across { x < 128 }
    requires down { y < 96 }
    ensures { result ≡ moved_sample plane.now 16 shift x y }
{
    let column = (x + 2 * shift.across as usize).saturating_sub(200).min(127);
    let row = (y + 2 * shift.down as usize).saturating_sub(200).min(95);
    plane[128 * row + column]
}

/// The chroma sample that moves to a place.
#[tactic(auto, unfolding(spec_made::specs::Planes::moved_sample))]
fn moved_chroma(plane: &[u8], shift: Shift, x: usize, y: usize) -> u8
    requires count { length plane.now ≡ 3072 }
    requires across { x < 64 }
    requires down { y < 48 }
    ensures { result ≡ moved_sample plane.now 8 shift x y }
{
    let column = (x + shift.across as usize).saturating_sub(100).min(63);
    let row = (y + shift.down as usize).saturating_sub(100).min(47);
    plane[64 * row + column]
}

/// The luma plane of units by pulse code modulation.
pub fn pcm_luma_plane(alloc: Global, units: &[PcmUnit]) -> Result<Vec<u8>, AllocError>
    requires { length units.now ≡ 48 }
    ensures value { IfOk result (λ plane. plane.items ≡ plane_of 16 (pcm_sample units.now luma)) }
    ensures length { IfOk result (λ plane. length plane.items ≡ 12288) }
{
    let mut plane = Vec::new(alloc);
    for k in 0..12288usize {
        plane.push(pcm_luma(units, k % 128, k / 128))?;
    }
    Ok(plane)
}

/// A chroma plane of them.
pub fn pcm_chroma_plane(
    alloc: Global,
    units: &[PcmUnit],
    whole: usize,
    quarter: usize,
) -> Result<Vec<u8>, AllocError>
    requires count { length units.now ≡ 48 }
    requires whole { whole ≤ 320 }
    requires quarter { quarter ≤ 80 }
    ensures value { IfOk result (λ plane. plane.items
        ≡ plane_of 8 (pcm_sample units.now (record { side = 8; whole = whole; quarter = quarter }))) }
    ensures length { IfOk result (λ plane. length plane.items ≡ 3072) }
{
    let mut plane = Vec::new(alloc);
    for k in 0..3072usize {
        plane.push(pcm_chroma(units, whole, quarter, k % 64, k / 64))?;
    }
    Ok(plane)
}

/// A luma plane that moves.
pub fn moved_luma_plane(alloc: Global, from: &[u8], shift: Shift) -> Result<Vec<u8>, AllocError>
    requires { length from.now ≡ 12288 }
    ensures value { IfOk result (λ plane. plane.items ≡ plane_of 16 (moved_sample from.now 16 shift)) }
    ensures length { IfOk result (λ plane. length plane.items ≡ 12288) }
{
    let mut plane = Vec::new(alloc);
    for k in 0..12288usize {
        plane.push(moved_luma(from, shift, k % 128, k / 128))?;
    }
    Ok(plane)
}

/// A chroma plane that moves.
pub fn moved_chroma_plane(alloc: Global, from: &[u8], shift: Shift) -> Result<Vec<u8>, AllocError>
    requires { length from.now ≡ 3072 }
    ensures value { IfOk result (λ plane. plane.items ≡ plane_of 8 (moved_sample from.now 8 shift)) }
    ensures length { IfOk result (λ plane. length plane.items ≡ 3072) }
{
    let mut plane = Vec::new(alloc);
    for k in 0..3072usize {
        plane.push(moved_chroma(from, shift, k % 64, k / 64))?;
    }
    Ok(plane)
}

/// The mean of two samples, rounded up.
fn mean(first: u8, second: u8) -> u8
    ensures { result ≡ (first + second + 1) / 2 }
{
    ((u32::from(first) + u32::from(second) + 1) / 2) as u8
}

/// The mean of two planes.
pub fn mean_plane(alloc: Global, first: &[u8], second: &[u8]) -> Result<Vec<u8>, AllocError>
    requires { length first.now ≡ length second.now }
    ensures value { IfOk result (λ plane. plane.items ≡ mean_of first.now second.now) }
    ensures length { IfOk result (λ plane. length plane.items ≡ length first.now) }
{
    let mut plane = Vec::new(alloc);
    for k in 0..first.len() {
        plane.push(mean(first[k], second[k]))?;
    }
    Ok(plane)
}

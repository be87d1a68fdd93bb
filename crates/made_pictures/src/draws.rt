//! What is drawn.

ghost use Rattle.std.specs.Prelude.{◌≡◌, ℕ, ◌%◌, ◌≤◌, true, false, map, length, slice_set, OnOk, IfOk};
ghost use Rattle.rand_pcg.specs.Pcg.{pcg32};
ghost use Rattle.spec_made.specs.Draws.{draws, is_odd, low_bits, pcm_unit_of, skips_of, inter_unit_of, all_of};
ghost use Rattle.spec_made.specs.Draws.{coded_first};
ghost use Rattle.made_rows.specs.Small.{AreSmall};
ghost use Rattle.spec_made.specs.Draws.{pcm_units_of, inter_units_of, shift_of, motion_of};

use rand_core::utils::NextWord;
use rand_pcg::Lcg64Xsh32;
use spec_made::{InterUnit, Motion, PcmUnit, Shift};
use std::alloc::{AllocError, Global};

/// Whether the next word is odd.
fn odd(generator: &mut Lcg64Xsh32) -> bool
    ensures value { result ≡ is_odd (pcg32 generator.old).0 }
    ensures behind { generator.new ≡ (pcg32 generator.old).1 }
{
    generator.next_word() % 2 == 1
}

/// The low bits of a word for each sample.
fn samples(generator: &mut Lcg64Xsh32) -> [u8; 384]
    ensures value { result ≡ map low_bits (draws 384 generator.old).0 }
    ensures behind { generator.new ≡ (draws 384 generator.old).1 }
{
    let mut samples = [0; 384];
    for i in 0..384usize {
        samples[i] = (generator.next_word() % 256) as u8;
    }
    samples
}

/// A unit by pulse code modulation.
#[tactic(auto, unfolding(spec_made::specs::Draws::pcm_unit_of))]
fn pcm_unit(generator: &mut Lcg64Xsh32) -> PcmUnit
    ensures value { result ≡ (pcm_unit_of generator.old).0 }
    ensures behind { generator.new ≡ (pcm_unit_of generator.old).1 }
{
    let split = odd(generator);
    let samples = samples(generator);
    PcmUnit { split, samples }
}

/// Which coding units are skipped.
#[tactic(auto, unfolding(spec_made::specs::Draws::skips_of, spec_made::specs::Draws::draws))]
fn skips(generator: &mut Lcg64Xsh32, split: bool) -> [bool; 4]
    ensures value { result ≡ (skips_of split generator.old).0 }
    ensures behind { generator.new ≡ (skips_of split generator.old).1 }
{
    let first = odd(generator);
    if split {
        let second = odd(generator);
        let third = odd(generator);
        let fourth = odd(generator);
        [first, second, third, fourth]
    } else {
        [first, false, false, false]
    }
}

/// Another unit.
#[tactic(auto, unfolding(spec_made::specs::Draws::inter_unit_of))]
fn inter_unit(generator: &mut Lcg64Xsh32) -> InterUnit
    ensures value { result ≡ (inter_unit_of generator.old).0 }
    ensures behind { generator.new ≡ (inter_unit_of generator.old).1 }
{
    let split = odd(generator);
    let skips = skips(generator, split);
    InterUnit { split, skips }
}

/// The units of an IDR picture.
pub fn pcm_units(alloc: Global, generator: &mut Lcg64Xsh32) -> Result<Vec<PcmUnit>, AllocError>
    ensures value { IfOk result (λ units. units.items ≡ (pcm_units_of generator.old).0) }
    ensures behind { OnOk result (generator.new ≡ (pcm_units_of generator.old).1) }
    ensures count { IfOk result (λ units. length units.items ≡ 48) }
{
    let mut units = Vec::new(alloc);
    for i in 0..48usize {
        units.push(pcm_unit(generator))?;
    }
    Ok(units)
}

/// The units of another picture, of which the first may be skipped.
fn all_inter_units(alloc: Global, generator: &mut Lcg64Xsh32) -> Result<Vec<InterUnit>, AllocError>
    ensures value { IfOk result (λ units. units.items ≡ (all_of inter_unit_of 48 generator.old).0) }
    ensures behind { OnOk result (generator.new ≡ (all_of inter_unit_of 48 generator.old).1) }
    ensures count { IfOk result (λ units. length units.items ≡ 48) }
{
    let mut units = Vec::new(alloc);
    for i in 0..48usize {
        units.push(inter_unit(generator))?;
    }
    Ok(units)
}

/// A unit whose first coding unit isn't skipped.
fn coded_first(unit: InterUnit) -> InterUnit
    ensures { result ≡ coded_first unit }
{
    let mut skips = unit.skips;
    skips[0] = false;
    InterUnit {
        split: unit.split,
        skips,
    }
}

/// The units of another picture.
pub fn inter_units(alloc: Global, generator: &mut Lcg64Xsh32) -> Result<Vec<InterUnit>, AllocError>
    ensures value { IfOk result (λ units. units.items ≡ (inter_units_of generator.old).0) }
    ensures behind { OnOk result (generator.new ≡ (inter_units_of generator.old).1) }
    ensures count { IfOk result (λ units. length units.items ≡ 48) }
{
    let mut units = all_inter_units(alloc, generator)?;
    units[0] = coded_first(units[0]);
    Ok(units)
}

/// A vector.
#[tactic(auto, unfolding(spec_made::specs::Draws::shift_of))]
fn shift(generator: &mut Lcg64Xsh32) -> Shift
    ensures value { result ≡ (shift_of generator.old).0 }
    ensures behind { generator.new ≡ (shift_of generator.old).1 }
    ensures across { result.across ≤ 200 }
    ensures down { result.down ≤ 200 }
{
    let across = generator.next_word() % 201;
    let down = generator.next_word() % 201;
    Shift { across, down }
}

/// The vectors of a picture, one or two.
#[tactic(auto, unfolding(spec_made::specs::Draws::motion_of))]
pub fn motion(generator: &mut Lcg64Xsh32, both: bool) -> Motion
    ensures value { result ≡ (motion_of both generator.old).0 }
    ensures behind { generator.new ≡ (motion_of both generator.old).1 }
    ensures small { AreSmall result }
{
    let first = shift(generator);
    if both {
        let second = shift(generator);
        Motion {
            first,
            second: Some(second),
        }
    } else {
        Motion {
            first,
            second: None,
        }
    }
}

//! Samples by pulse code modulation.

ghost use Rattle.std.specs.Prelude.{◌≡◌, ℕ, ◌+◌, ◌-◌, ◌*◌, ◌%◌, ◌^◌, ◌<◌, ◌≤◌, length, slice_index_or};
ghost use Rattle.ctu_records.specs.declared.item.Item.TheVariants.{Sample};
ghost use Rattle.ctu_build.specs.Held.{held, IsInside};
ghost use Rattle.spec_reconstruction.specs.Sound.{HasPulses, IsFormat, IsSquare};
ghost use Rattle.spec_reconstruction.specs.Known.{laid};
ghost use Rattle.spec_reconstruction.specs.Pulses.{sample_of, shifted, pulses_laid};

use crate::place::{Place, chroma_place, luma_place};
use crate::unit_samples::UnitSamples;
use ctu_records::{Item, Square};
use spec_reconstruction::UnitFormat;

/// The value of an item that is a sample.
fn sample_of(item: Item) -> u16
    ensures { result ≡ sample_of item }
{
    match item {
        Item::Sample(value) => value,
        _ => 0,
    }
}

/// The value of the item with this number, where it is a sample.
fn sample_at(items: &[Item], k: usize) -> u16
    ensures { result ≡ sample_of (slice_index_or items.now k (Sample 0)) }
{
    if k < items.len() {
        sample_of(items[k])
    } else {
        0
    }
}

/// Samples of a component: the items from a number on, shifted up by so many places.
#[derive(Clone, Copy)]
struct Pulses<'a> {
    items: &'a [Item],
    first: usize,
    places: u32,
}

/// Writes so many samples, cut to 16 bits.
fn shift_samples(pulses: &Pulses<'_>, count: usize, out: &mut [u16; 1024])
    requires places { pulses.now.places ≤ 14 }
    requires first { pulses.now.first ≤ 2048 }
    requires count { count ≤ 1024 }
    ensures { (k : ℕ) → k < count
        → slice_index_or out.new k 0
        ≡ sample_of (slice_index_or pulses.now.items.now (pulses.now.first + k) (Sample 0)) * 2 ^ pulses.now.places
        % 65536 }
{
    for k in 0..count {
        out[k] = sample_at(pulses.items, pulses.first + k) << pulses.places;
    }
}

/// Lays the samples of a component.
fn lay_component(
    place: Place,
    pulses: &Pulses<'_>,
    block: &mut [u16; 1024],
    samples: &mut UnitSamples,
)
    requires place { IsInside place }
    requires places { pulses.now.places ≤ 14 }
    requires first { pulses.now.first ≤ 2048 }
    ensures { ((k : ℕ) → k < 2 ^ place.log2 * 2 ^ place.log2
        → sample_of (slice_index_or pulses.now.items.now (pulses.now.first + k) (Sample 0)) * 2 ^ pulses.now.places
        < 65536)
        → held samples.new
        ≡ laid place.c place.x place.y (2 ^ place.log2)
        (shifted pulses.now.places pulses.now.first pulses.now.items.now (2 ^ place.log2)) (held samples.old) }
{
    shift_samples(pulses, place.area(), block);
    samples.lay(place, block);
}

/// Lays the samples of a coding unit, which are the next items.
pub(crate) fn lay_pulses(
    format: &UnitFormat,
    square: Square,
    items: &[Item],
    block: &mut [u16; 1024],
    samples: &mut UnitSamples,
)
    requires format { IsFormat format.now }
    requires square { IsSquare square }
    requires some { 1 ≤ square.log2_size }
    ensures { HasPulses format.now square items.now
        → held samples.new ≡ pulses_laid format.now square items.now (held samples.old) }
{
    let luma = u32::from(format.luma_depth - format.pcm_luma_bits);
    let chroma = u32::from(format.chroma_depth - format.pcm_chroma_bits);
    let y_place = luma_place(square);
    let cb_place = chroma_place(square, 1);
    let cb_first = y_place.area();
    let cr_first = cb_first + cb_place.area();
    let y = Pulses {
        items,
        first: 0,
        places: luma,
    };
    let cb = Pulses {
        items,
        first: cb_first,
        places: chroma,
    };
    let cr = Pulses {
        items,
        first: cr_first,
        places: chroma,
    };
    lay_component(y_place, &y, block, samples);
    lay_component(cb_place, &cb, block, samples);
    lay_component(chroma_place(square, 2), &cr, block, samples);
}

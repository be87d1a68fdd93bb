//! Sample adaptive offset of a coding tree unit in two words.

ghost use Rattle.std.specs.Prelude.{◌≡◌, ◌+◌, ◌*◌, ◌<◌, slice_index};
ghost use Rattle.sample_words.specs.Offsets.{component_in, first_word, four_offsets, kind_of, offsets_in, offsets_of};
ghost use Rattle.sample_words.specs.Offsets.{position_of, sao_in, second_word};

use spec_motion::{ComponentOffset, Sao};

/// What sample adaptive offset has of a unit: the offsets of luma and of Cb; those of Cr, and of each component its
/// kind with the band position or the class of edges.
pub fn pack_offsets(sao: &Sao) -> [u64; 2]
    ensures first { slice_index result 0 ≡ first_word sao.now }
    ensures second { slice_index result 1 ≡ second_word sao.now }
{
    let first = offset_bits(sao.luma) + 4_294_967_296 * offset_bits(sao.cb);
    let kinds = kind_bits(sao.luma) + 1_024 * (kind_bits(sao.cb) + 1_024 * kind_bits(sao.cr));
    let second = offset_bits(sao.cr) + 4_294_967_296 * kinds;
    [first, second]
}

/// The four offsets of a component in 32 bits.
fn offset_bits(component: ComponentOffset) -> u64
    ensures value { result ≡ four_offsets (offsets_of component) }
    ensures small { result < 4294967296 }
{
    match component {
        ComponentOffset::Off => 0,
        ComponentOffset::Band(_, offsets) => four_offsets(offsets),
        ComponentOffset::Edge(_, offsets) => four_offsets(offsets),
    }
}

/// Four offsets in 32 bits.
fn four_offsets(offsets: [i8; 4]) -> u64
    ensures value { result ≡ four_offsets offsets }
    ensures small { result < 4294967296 }
{
    u64::from(offsets[0].cast_unsigned())
        + 256 * u64::from(offsets[1].cast_unsigned())
        + 65_536 * u64::from(offsets[2].cast_unsigned())
        + 16_777_216 * u64::from(offsets[3].cast_unsigned())
}

/// The kind of a component with its band position or class, in ten bits.
fn kind_bits(component: ComponentOffset) -> u64
    ensures value { result ≡ kind_of component + 4 * position_of component }
    ensures small { result < 1024 }
{
    match component {
        ComponentOffset::Off => 0,
        ComponentOffset::Band(position, _) => 1 + 4 * u64::from(position),
        ComponentOffset::Edge(class, _) => 2 + 4 * u64::from(class),
    }
}

/// The offsets that two words have.
pub fn unpack_offsets(first: u64, second: u64) -> Sao
    ensures { result ≡ sao_in first second }
{
    let luma = (second / 4_294_967_296 % 4) as u8;
    let cb = (second / 4_398_046_511_104 % 4) as u8;
    let cr = (second / 4_503_599_627_370_496 % 4) as u8;
    let luma_position = (second / 17_179_869_184 % 256) as u8;
    let cb_position = (second / 17_592_186_044_416 % 256) as u8;
    let cr_position = (second / 18_014_398_509_481_984 % 256) as u8;
    Sao {
        luma: component_in(luma, luma_position, lower_offsets(first)),
        cb: component_in(cb, cb_position, upper_offsets(first)),
        cr: component_in(cr, cr_position, lower_offsets(second)),
    }
}

/// A component by its kind, its band position or class, and its offsets.
fn component_in(kind: u8, position: u8, offsets: [i8; 4]) -> ComponentOffset
    ensures { result ≡ component_in kind position offsets }
{
    if kind == 1 {
        ComponentOffset::Band(position, offsets)
    } else if kind == 2 {
        ComponentOffset::Edge(position, offsets)
    } else {
        ComponentOffset::Off
    }
}

/// The four offsets in the lower half of a word.
fn lower_offsets(word: u64) -> [i8; 4]
    ensures { result ≡ offsets_in 0 word }
{
    [
        ((word % 256) as u8).cast_signed(),
        ((word / 256 % 256) as u8).cast_signed(),
        ((word / 65_536 % 256) as u8).cast_signed(),
        ((word / 16_777_216 % 256) as u8).cast_signed(),
    ]
}

/// Those in the upper half.
fn upper_offsets(word: u64) -> [i8; 4]
    ensures { result ≡ offsets_in 32 word }
{
    [
        ((word / 4_294_967_296 % 256) as u8).cast_signed(),
        ((word / 1_099_511_627_776 % 256) as u8).cast_signed(),
        ((word / 281_474_976_710_656 % 256) as u8).cast_signed(),
        ((word / 72_057_594_037_927_936 % 256) as u8).cast_signed(),
    ]
}

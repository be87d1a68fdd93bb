//! Whole units by a view that has none before them.

ghost use Rattle.std.specs.Prelude.{◌≡◌, ◌^◌, ◌<◌, ◌≤◌, false, length};
ghost use Rattle.spec_slice_data.specs.Syntax.{IsSyntax};

use cabac_contexts::{BinReader, Contexts};
use cabac_engine::Interval;
use coding_quadtree::{UnitPlace, read_ctu};
use ctu_records::{
    ComponentOffset, Item, MotionSyntax, Mv, Neighbours, PartMode, PredictionUnit, Records, Sao,
    Side, Square, VectorSyntax,
};
use hv_base::{Breach, FaultKind};
use residual_syntax::Levels;
use spec_slice_data::{CtuSyntax, End, InterSyntax, PcmSyntax};
use std::alloc::Global;

/// A view of which each place may be asked, and none is available.
#[derive(Drop)]
struct NoUnits;

impl Neighbours for NoUnits {
    ghost use Rattle.std.specs.Prelude.{true};
    ghost use Rattle.ctu_records.specs.Tree.{no_side};
    ghost use Rattle.spec_slice_data.specs.Offset.{no_sao};

    ghost side_at = { λ v x y. no_side };

    ghost sao_at = { λ v ctu. no_sao };

    ghost covers = { λ v x y. true };

    ghost covers_unit = { λ v ctu. true };

    fn side(&mut self, _x: u32, _y: u32) -> Side {
        Side {
            depth: 0,
            skipped: false,
            intra: false,
            luma_mode: 1,
            qp: 0,
        }
    }

    fn sao(&mut self, _ctu: u32) -> Sao {
        Sao {
            luma: ComponentOffset::Off,
            cb: ComponentOffset::Off,
            cr: ComponentOffset::Off,
        }
    }
}

/// A picture of 8x8 luma samples, with pulse code modulation of 8 bits.
const SAMPLES: CtuSyntax = CtuSyntax {
    log2_min_coding: 1,
    log2_min_transform: 0,
    log2_max_transform: 2,
    max_depth_intra: 0,
    log2_group: 2,
    luma_depth: 8,
    chroma_depth: 8,
    qp_offset: 0,
    cu_qp_delta_enabled: false,
    transquant_bypass_enabled: false,
    transform_skip_enabled: false,
    sign_data_hiding_enabled: false,
    pcm: PcmSyntax {
        enabled: true,
        log2_least: 1,
        log2_greatest: 1,
        luma_bits: 8,
        chroma_bits: 8,
    },
    inter: InterSyntax {
        is_inter: false,
        is_b: false,
        max_merge: 1,
        active_0: 1,
        active_1: 1,
        mvd_l1_zero: false,
        amp_enabled: false,
        max_depth_inter: 0,
    },
    sao_luma: false,
    sao_chroma: false,
    has_left: false,
    has_above: false,
    right: 2,
    lower: 2,
};

/// The one unit of the picture, before which Qp'Y is 26.
const PLACE: UnitPlace = UnitPlace {
    size: 2,
    address: 0,
    width: 1,
    x: 0,
    y: 0,
    last_qp: 26,
    is_last: true,
    ends_subset: false,
};

/// How the reading of a unit ends where Qp'Y before it is `qp`; none where its data don't start.
fn end_of(
    bytes: &[u8],
    qp: u8,
    syntax: &CtuSyntax,
    records: &mut Records,
    levels: &mut Levels,
) -> Option<Result<End, Breach>>
    requires few { length bytes.now < 2 ^ 60 }
    requires syntax { IsSyntax syntax.now }
    requires least { syntax.now.log2_min_coding ≤ 2 }
    requires left { syntax.now.has_left ≡ false }
    requires above { syntax.now.has_above ≡ false }
{
    let mut reader = BinReader {
        interval: Interval::start(bytes)?,
        contexts: Contexts::init(i32::from(qp), if syntax.inter.is_b { 2 } else { 0 }),
    };
    let mut place = PLACE;
    place.last_qp = qp;
    Some(read_ctu(&mut reader, syntax, &place, &mut NoUnits, records, levels))
}

/// Whether a unit ends its slice segment and has so many items, one of which stands at its place.
fn is_read(
    end: Option<Result<End, Breach>>,
    items: &[Item],
    count: usize,
    place: usize,
    item: Item,
) -> bool {
    matches!(end, Some(Ok(End::Segment))) && items.len() == count && items.get(place) == Some(&item)
}

/// The grey unit.
fn is_grey_read(records: &mut Records, levels: &mut Levels) -> bool {
    let end = end_of(&[0x05, 0xF7], 26, &SAMPLES, records, levels);
    matches!(end, Some(Ok(End::Segment))) && records.items().len() == 4
}

/// Bits behind its end.
fn are_bits_behind_told(records: &mut Records, levels: &mut Levels) -> bool {
    let end = end_of(&[0x05, 0xF7, 0x01], 26, &SAMPLES, records, levels);
    matches!(end, Some(Err(Breach::Fault(FaultKind::TrailingBits))))
}

/// A unit by pulse code modulation whose samples are 1 to 96.
fn samples() -> [u8; 100] {
    let mut bytes = [0; 100];
    for i in 0..96u8 {
        bytes[usize::from(i) + 2] = i + 1;
    }
    bytes[0] = 0x86;
    bytes[1] = 0x80;
    bytes[98] = 0xFE;
    bytes[99] = 0x80;
    bytes
}

/// Those samples.
fn are_samples_read(records: &mut Records, levels: &mut Levels) -> bool {
    let end = end_of(&samples(), 26, &SAMPLES, records, levels);
    is_read(end, records.items(), 98, 97, Item::Sample(96))
}

/// The data of an encoder's slice of SliceQpY 20: four luma blocks of modes 0, 11, 24 and 33 and two chroma blocks of
/// mode 26.
#[rattlefmt::skip]
const DATA: [u8; 61] = [
    92, 205, 142, 88, 94, 145, 171, 251, 66, 221, 39, 195, 236, 168, 56, 163, 112, 185, 123, 114, 178,
    230, 199, 220, 167, 243, 206, 176, 67, 132, 25, 224, 7, 187, 30, 203, 227, 252, 225, 231, 93, 112,
    178, 170, 69, 150, 205, 43, 171, 123, 219, 254, 44, 197, 59, 62, 175, 93, 37, 7, 56,
];

/// Their levels, as another decoder has them.
fn are_levels_read(records: &mut Records, levels: &mut Levels) -> bool {
    let mut syntax = SAMPLES;
    syntax.pcm.enabled = false;
    syntax.max_depth_intra = 2;
    syntax.transform_skip_enabled = true;
    syntax.sign_data_hiding_enabled = true;
    let end = end_of(&DATA, 20, &syntax, records, levels);
    is_read(end, records.items(), 96, 95, Item::Level(0, 4))
}

/// The data of an encoder's B slice of SliceQpY 29: one unit of two prediction units, the first of which points two
/// quarters of a sample to the left of its prediction in the second reference picture.
#[rattlefmt::skip]
const B_SLICE: [u8; 25] = [
    174, 226, 143, 248, 83, 191, 119, 13, 23, 71, 220, 203, 245, 158, 206, 158, 47, 205, 211,
    114, 44, 143, 84, 201, 240,
];

/// The parts of that unit, and its levels up to the end of the slice.
fn are_parts_read(records: &mut Records, levels: &mut Levels) -> bool {
    let mut syntax = SAMPLES;
    syntax.pcm.enabled = false;
    syntax.transform_skip_enabled = true;
    syntax.sign_data_hiding_enabled = true;
    syntax.inter = InterSyntax {
        is_inter: true,
        is_b: true,
        max_merge: 5,
        active_0: 2,
        active_1: 2,
        mvd_l1_zero: false,
        amp_enabled: true,
        max_depth_inter: 2,
    };
    let end = end_of(&B_SLICE, 29, &syntax, records, levels);
    matches!(end, Some(Ok(End::Segment)))
        && records.items().get(1) == Some(&Item::Prediction(first_part()))
}

/// The first of them.
fn first_part() -> PredictionUnit {
    PredictionUnit {
        unit: Square {
            x: 0,
            y: 0,
            log2_size: 1,
        },
        part_mode: PartMode::TwoNxN,
        part: 0,
        motion: MotionSyntax::Vectors(
            Some(VectorSyntax {
                ref_idx: 1,
                mvd: Mv { x: -2, y: 0 },
                mvp: false,
            }),
            None,
        ),
    }
}

/// Whether the unit of a row is read as it should be.
fn is_row_read(alloc: Global, row: u8) -> bool {
    let (Ok(mut records), Ok(mut levels)) = (Records::new(alloc, 4), Levels::new(alloc)) else {
        return false;
    };
    match row {
        0 => is_grey_read(&mut records, &mut levels),
        1 => are_bits_behind_told(&mut records, &mut levels),
        2 => are_samples_read(&mut records, &mut levels),
        3 => are_levels_read(&mut records, &mut levels),
        _ => are_parts_read(&mut records, &mut levels),
    }
}

/// The grey unit, bits behind its end, samples, levels, and prediction units.
#[test]
fn units_are_read(rt: HostRuntime) {
    for row in 0..5u8 {
        assert!(rt; is_row_read(rt.alloc(), row), "row {row}");
    }
}

//! The pictures that long-term entries name (8.3.2).

ghost use Rattle.std.specs.Prelude.{◌≡◌, ◌+◌, ◌*◌, ◌^◌, ◌<◌, ◌≤◌, map, pos, ◌+ℤ◌, ◌-ℤ◌, nat_abs, length};
ghost use Rattle.std.specs.Prelude.{slice_index_or, IfOk};
ghost use Rattle.std.specs.List.{range_with_len};
ghost use Rattle.spec_reference_pictures.specs.PictureOrderCount.{lsb_of};
ghost use Rattle.spec_reference_pictures.specs.ReferencePictureSet.{IsName, is_for, long_term_entry, long_term_name};
ghost use Rattle.spec_reference_pictures.specs.ReferencePictureSet.{long_term_places, long_term_set, msb_cycle_before};
ghost use Rattle.spec_reference_pictures.specs.ReferencePictureSet.{name_by, no_entry, place_of, reference_pocs};

use crate::picture_order_count::lsb_of;
use crate::search::place_of;
use header_types::{DpbPicture, FieldList, LongTermRef, PictureName};
use slice_types::{LongTermRefs, PictureKind};
use std::alloc::{AllocError, Global};

/// The picture whose reference picture set is derived.
#[derive(Clone, Copy)]
pub(crate) struct CurrentPicture {
    /// What is known of it before its slices are read.
    pub(crate) kind: PictureKind,
    /// PicOrderCntVal.
    pub(crate) poc: i32,
}

/// DeltaPocMsbCycleLt of entry `i`, where `before` is that of the entry before it (7-38).
#[tactic(auto, using(crate::proofs::Cycles::cycle_more))]
fn msb_cycle(long: &LongTermRefs, i: usize, before: u64) -> u64
    requires inside { i < length long.now.entries }
    requires before { before ≡ msb_cycle_before long.now i }
    requires few { before < 2 ^ 40 }
    ensures value { result ≡ msb_cycle_before long.now (i + 1) }
    ensures small { result ≤ before + 2 ^ 32 }
{
    let own = match long.entries.as_slice()[i].delta_poc_msb_cycle_lt {
        Some(cycle) => u64::from(cycle),
        None => 0,
    };
    if i == long.num_long_term_sps as usize {
        own
    } else {
        own + before
    }
}

/// How an entry names its picture, where `cycle` is its DeltaPocMsbCycleLt.
fn name_by(current: CurrentPicture, cycle: u64, entry: LongTermRef) -> PictureName
    requires max_lsb_low { 1 ≤ current.kind.max_lsb }
    requires max_lsb_high { current.kind.max_lsb ≤ 65536 }
    requires cycle { cycle < 2 ^ 41 }
    ensures value { result
        ≡ name_by current.kind.max_lsb current.poc entry.poc_lsb_lt cycle entry.delta_poc_msb_cycle_lt }
    ensures name { IsName result }
{
    let max_lsb = current.kind.max_lsb;
    match entry.delta_poc_msb_cycle_lt {
        Some(_) => {
            PictureName::OrderCount(poc_lt(max_lsb, current.poc, cycle, entry.poc_lsb_lt))
        }
        None => PictureName::Lsb {
            max_lsb,
            lsb: entry.poc_lsb_lt,
        },
    }
}

/// pocLt of an entry whose msb are coded (8-5).
fn poc_lt(max_lsb: u32, poc: i32, cycle: u64, lsb: u32) -> i64
    requires max_lsb_low { 1 ≤ max_lsb }
    requires max_lsb_high { max_lsb ≤ 65536 }
    requires cycle { cycle < 2 ^ 41 }
    ensures { result ≡ poc -ℤ pos (cycle * max_lsb) -ℤ pos (lsb_of max_lsb poc) +ℤ pos lsb }
{
    let back = further_back(poc, scaled(cycle, max_lsb));
    with_lsb(back, lsb_of(max_lsb, poc), lsb)
}

/// An order count so many order counts further back.
fn further_back(poc: i32, back: u64) -> i64
    requires { back < 2 ^ 57 }
    ensures value { result ≡ poc -ℤ pos back }
    ensures near { nat_abs result ≤ 2 ^ 58 }
{
    i64::from(poc) - back as i64
}

/// An order count with `lsb` in place of its least significant bits `own`.
fn with_lsb(poc: i64, own: u32, lsb: u32) -> i64
    requires { nat_abs poc ≤ 2 ^ 58 }
    ensures { result ≡ poc -ℤ pos own +ℤ pos lsb }
{
    poc - i64::from(own) + i64::from(lsb)
}

/// The order counts of `cycle` cycles.
fn scaled(cycle: u64, max_lsb: u32) -> u64
    requires max_lsb { max_lsb ≤ 65536 }
    requires cycle { cycle < 2 ^ 41 }
    ensures value { result ≡ cycle * max_lsb }
    ensures small { result < 2 ^ 57 }
{
    cycle * u64::from(max_lsb)
}

/// The places of the pictures that the long-term entries name, where `counts` are the order counts of the pictures that
/// are marked as reference.
#[tactic(auto, using(crate::proofs::Growing::lengths))]
pub(crate) fn long_term_places(
    alloc: Global,
    current: CurrentPicture,
    long: &LongTermRefs,
    counts: &[Option<i32>],
) -> Result<FieldList<Option<u32>>, AllocError>
    requires max_lsb_low { 1 ≤ current.kind.max_lsb }
    requires max_lsb_high { current.kind.max_lsb ≤ 65536 }
    requires entries { length long.now.entries ≤ 33 }
    requires few { length counts.now < 2 ^ 32 }
    ensures value { IfOk result (λ places. places
        ≡ map (λ i. place_of (long_term_name current.kind long.now current.poc i) counts.now)
        (range_with_len 0 (length long.now.entries))) }
    ensures each { IfOk result (λ places. length places ≡ length long.now.entries) }
{
    let mut places = FieldList::new(alloc);
    let mut cycle = 0;
    for (i, entry) in long.entries.as_slice().iter().enumerate() {
        cycle = msb_cycle(long, i, cycle);
        let name = name_by(current, cycle, *entry);
        places.push(place_of(name, counts))?;
    }
    Ok(places)
}

/// The places of the entries for the picture itself, or of the others, where `places` are those of all.
pub(crate) fn long_term_set(
    alloc: Global,
    places: &[Option<u32>],
    current: bool,
    entries: &[LongTermRef],
) -> Result<FieldList<Option<u32>>, AllocError>
    requires same { length places.now ≡ length entries.now }
    ensures { IfOk result (λ set. set ≡ long_term_set places.now current entries.now) }
{
    let mut set = FieldList::new(alloc);
    for (i, entry) in entries.iter().enumerate() {
        if is_for(current, entry.used_by_curr_pic_lt_flag) {
            set.push(places[i])?;
        }
    }
    Ok(set)
}

/// Whether an entry, by its flag, is one for the picture itself, or one of the others.
pub(crate) fn is_for(current: bool, used: bool) -> bool
    ensures { result ≡ is_for current used }
{
    used == current
}

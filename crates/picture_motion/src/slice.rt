//! What the motion of a slice's coding tree units depends on (7.4.7.1, 8.3.4).

ghost use Rattle.std.specs.Prelude.{◌≡◌, ◌+◌, ◌-◌, ◌*◌, ◌<◌, ◌≤◌, length, min, if◌then◌else◌};
ghost use Rattle.spec_picture_motion.specs.SpecPictureTrees.{picture_shape, slice_start};
ghost use Rattle.spec_picture_motion.specs.Slices.{collocated_entry, collocation, entries_0, entries_1};
ghost use Rattle.spec_picture_motion.specs.Slices.{is_bi_predictive, is_from_list_0, is_there, log2_parallel};
ghost use Rattle.spec_picture_motion.specs.Slices.{max_candidates, motion_of_slice, order_of, reference_at, references};
ghost use Rattle.spec_picture_motion.specs.Slices.{slice_motion};

use header_types::{Lists, Pps, RefEntry};
use picture_layout::{CodingTreeUnit, slice_of};
use slice_types::{Collocated, InterFields, SliceFields, SliceType};
use spec_motion::{Reference, SliceMotion};
use spec_picture_motion::{PicturePlan, SegmentPlan};

/// What stands behind the last entry of a list.
const NO_REFERENCE: Reference = Reference {
    picture: 0,
    order: 0,
    long_term: false,
};

/// What the motion of a unit depends on, in the slice of a segment.
#[tactic(auto, unfolding(spec_picture_motion::specs::Slices::motion_of_slice))]
pub fn slice_motion(unit: &CodingTreeUnit, plan: &PicturePlan, segment: &SegmentPlan) -> SliceMotion
    requires { unit.now.layout ≡ picture_shape plan.now.sps plan.now.pps }
    ensures { result ≡ slice_motion plan.now segment.now unit.now.address }
{
    let slice = &segment.header.fields().slice;
    let lists = &slice_of(plan, segment).lists;
    let (l0, l1) = (entries_0(lists), entries_1(lists));
    let collocated = collocated_entry(slice, lists);
    SliceMotion {
        is_b: is_bi_predictive(slice.slice_type),
        max_candidates: max_candidates(&slice.inter),
        log2_parallel: log2_parallel(&plan.pps),
        order: plan.poc,
        references_0: references(l0),
        references_1: references(l1),
        active_0: l0.len().min(16) as u8,
        active_1: l1.len().min(16) as u8,
        temporal: is_there(collocated),
        from_list_0: is_from_list_0(collocation(slice)),
        collocated_order: order_of(collocated),
        side: unit.layout.side() as u8,
        right: unit.places_right(),
        lower: unit.places_below(),
    }
}

/// The entry of the collocated picture in a slice's lists.
#[tactic(auto, unfolding(spec_picture_motion::specs::Slices::collocated_entry))]
pub fn collocated_entry(slice: &SliceFields, lists: &Option<Lists>) -> Option<RefEntry>
    ensures { result ≡ collocated_entry slice.now lists.now }
{
    let named = match collocation(slice) {
        Some(named) => named,
        None => return None,
    };
    let list = if named.collocated_from_l0_flag {
        entries_0(lists)
    } else {
        entries_1(lists)
    };
    let place = named.collocated_ref_idx as usize;
    if place < list.len() {
        Some(list[place])
    } else {
        None
    }
}

/// collocated_from_l0_flag and collocated_ref_idx, where there are candidates of a collocated picture.
fn collocation(slice: &SliceFields) -> Option<Collocated>
    ensures { result ≡ collocation slice.now }
{
    if !slice.slice_temporal_mvp_enabled_flag {
        return None;
    }
    match &slice.inter {
        Some(fields) => fields.collocated,
        None => None,
    }
}

/// RefPicList0 as it is planned.
fn entries_0(lists: &Option<Lists>) -> &[RefEntry]
    ensures { result.now ≡ entries_0 lists.now }
{
    match lists {
        Some(lists) => lists.l0.as_slice(),
        None => &[],
    }
}

/// RefPicList1 as it is planned.
fn entries_1(lists: &Option<Lists>) -> &[RefEntry]
    ensures { result.now ≡ entries_1 lists.now }
{
    match lists {
        Some(lists) => lists.l1.as_slice(),
        None => &[],
    }
}

/// A list of 16 entries.
fn references(entries: &[RefEntry]) -> [Reference; 16]
    ensures { result ≡ references entries.now }
{
    let mut all = [NO_REFERENCE; 16];
    for k in 0..16 {
        all[k] = reference_at(entries, k);
    }
    all
}

/// The entry with this number.
fn reference_at(entries: &[RefEntry], k: usize) -> Reference
    ensures { result ≡ reference_at entries.now k }
{
    if k < entries.len() {
        let entry = entries[k];
        Reference {
            picture: entry.place,
            order: entry.poc,
            long_term: entry.is_long_term,
        }
    } else {
        NO_REFERENCE
    }
}

/// Whether slice_type is B.
fn is_bi_predictive(slice_type: SliceType) -> bool
    ensures { result ≡ is_bi_predictive slice_type }
{
    match slice_type {
        SliceType::B => true,
        SliceType::P | SliceType::I => false,
    }
}

/// MaxNumMergeCand.
fn max_candidates(inter: &Option<InterFields>) -> u8
    ensures { result ≡ max_candidates inter.now }
{
    match inter {
        Some(fields) => 5_u32.saturating_sub(fields.five_minus_max_num_merge_cand) as u8,
        None => 0,
    }
}

/// Log2ParMrgLevel.
fn log2_parallel(pps: &Pps) -> u8
    ensures { result ≡ log2_parallel pps.now }
{
    pps.fields()
        .log2_parallel_merge_level_minus2
        .saturating_add(2)
        .min(6) as u8
}

fn is_there(entry: Option<RefEntry>) -> bool
    ensures { result ≡ is_there entry }
{
    match entry {
        Some(_) => true,
        None => false,
    }
}

/// The order count of the collocated picture.
fn order_of(entry: Option<RefEntry>) -> i32
    ensures { result ≡ order_of entry }
{
    match entry {
        Some(entry) => entry.poc,
        None => 0,
    }
}

/// collocated_from_l0_flag, 1 where it isn't coded.
fn is_from_list_0(collocation: Option<Collocated>) -> bool
    ensures { result ≡ is_from_list_0 collocation }
{
    match collocation {
        Some(named) => named.collocated_from_l0_flag,
        None => true,
    }
}

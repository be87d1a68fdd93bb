ghost use Rattle.std.specs.Prelude.{◌≡◌, ◌≤◌, true};
ghost use Rattle.std.specs.List.{count_by};
ghost use Rattle.ref_picture_sets.specs.SpecReferencePictures.{is_reference};

use crate::dpb::Dpb;
use crate::outputs::newest;
use header_types::{Mark, SubLayerOrdering};
use hv_base::{FaultKind, Refusal};
use spec_output_order::CurrentPicture;
use std::alloc::Global;

/// A picture of this order count in a buffer that holds so many pictures.
fn picture(
    poc: i32,
    begins_anew: bool,
    max_dec_pic_buffering_minus1: u32,
    max_num_reorder_pics: u32,
) -> CurrentPicture
    ensures anew { result.begins_anew ≡ begins_anew }
    ensures size { result.ordering.max_dec_pic_buffering_minus1 ≡ max_dec_pic_buffering_minus1 }
{
    CurrentPicture {
        poc,
        begins_anew,
        no_output_of_prior_pics_flag: true,
        pic_output_flag: true,
        ordering: SubLayerOrdering {
            max_dec_pic_buffering_minus1,
            max_num_reorder_pics,
            max_latency_increase_plus1: 0,
        },
    }
}

/// Whether none goes out as a picture with these marks starts, and these behind it.
fn puts_out(dpb: &mut Dpb, current: CurrentPicture, marks: &[Mark], behind: &[u32]) -> bool
    requires anew { current.begins_anew ≡ true → count_by is_reference marks.now ≡ 0 }
    requires buffering { current.ordering.max_dec_pic_buffering_minus1 ≤ 15 }
{
    let Ok(start) = dpb.start_current(current, marks) else {
        return false;
    };
    let Ok(placed) = dpb.place_newest(newest(current.poc, current.pic_output_flag)) else {
        return false;
    };
    start.before.len() == 0 && placed.behind.as_slice() == behind
}

/// Whether order counts 0, 4 and 2 go out as they should in a buffer of three that reorders one: 0 behind 4, and 2 at
/// once.
fn are_reordered(dpb: &mut Dpb) -> bool {
    puts_out(dpb, picture(0, true, 2, 1), &[], &[])
        && puts_out(dpb, picture(4, false, 2, 1), &[Mark::Short], &[0])
        && puts_out(
            dpb,
            picture(2, false, 2, 1),
            &[Mark::Short, Mark::Short],
            &[2],
        )
}

fn is_flushed(dpb: &mut Dpb, places: &[u32]) -> bool {
    match dpb.flush() {
        Ok(flushed) => flushed.behind.as_slice() == places,
        Err(_) => false,
    }
}

fn waiting_go_out_at_the_end(alloc: Global) -> bool {
    match Dpb::new(alloc) {
        Ok(dpb) => {
            let mut dpb = dpb;
            are_reordered(&mut dpb) && is_flushed(&mut dpb, &[1])
        }
        Err(_) => false,
    }
}

fn waiting_are_discarded(alloc: Global) -> bool {
    match Dpb::new(alloc) {
        Ok(dpb) => {
            let mut dpb = dpb;
            are_reordered(&mut dpb)
                && puts_out(&mut dpb, picture(0, true, 2, 1), &[], &[])
                && is_flushed(&mut dpb, &[0])
        }
        Err(_) => false,
    }
}

/// Whether two pictures that are referenced fill a buffer of two.
fn is_full(alloc: Global) -> bool {
    match Dpb::new(alloc) {
        Ok(dpb) => {
            let mut dpb = dpb;
            puts_out(&mut dpb, picture(0, true, 1, 0), &[], &[0])
                && puts_out(&mut dpb, picture(1, false, 1, 0), &[Mark::Short], &[1])
                && is_refused(&mut dpb)
                && dpb.pictures().len() == 2
        }
        Err(_) => false,
    }
}

fn is_refused(dpb: &mut Dpb) -> bool {
    let current = picture(2, false, 1, 0);
    match dpb.start_current(current, &[Mark::Short, Mark::Short]) {
        Err(Refusal::Fault(FaultKind::DpbFull)) => true,
        _ => false,
    }
}

/// Whether pictures 1 to 14 are placed behind picture 0 in a buffer of sixteen, and none goes out.
fn are_kept_waiting(dpb: &mut Dpb) -> bool {
    for i in 1..15 {
        if !puts_out(dpb, picture(i as i32, false, 15, 15), &REFERENCES[..i], &[]) {
            return false;
        }
    }
    true
}

const REFERENCES: [Mark; 15] = [Mark::Short; 15];

/// Whether sixteen pictures fill a buffer, and the first of them goes out behind the last.
fn are_sixteen_placed(dpb: &mut Dpb) -> bool {
    puts_out(dpb, picture(0, true, 15, 15), &[], &[])
        && are_kept_waiting(dpb)
        && puts_out(dpb, picture(15, false, 15, 15), &REFERENCES, &[0])
        && dpb.pictures().len() == 16
}

/// Whether the others go out at the end.
fn sixteen_wait(alloc: Global) -> bool {
    match Dpb::new(alloc) {
        Ok(dpb) => {
            let mut dpb = dpb;
            let places = [1, 2, 3, 4, 5, 6, 7, 8, 9, 10, 11, 12, 13, 14, 15];
            are_sixteen_placed(&mut dpb) && is_flushed(&mut dpb, &places)
        }
        Err(_) => false,
    }
}

/// Whether an IDR picture discards the others.
fn sixteen_are_discarded(alloc: Global) -> bool {
    match Dpb::new(alloc) {
        Ok(dpb) => {
            let mut dpb = dpb;
            are_sixteen_placed(&mut dpb)
                && puts_out(&mut dpb, picture(0, true, 15, 15), &[], &[])
                && is_flushed(&mut dpb, &[0])
        }
        Err(_) => false,
    }
}

#[test]
fn pictures_go_out_by_their_order_counts(rt: HostRuntime) {
    assert!(rt; waiting_go_out_at_the_end(rt.alloc()));
}

#[test]
fn an_idr_picture_discards_what_waits(rt: HostRuntime) {
    assert!(rt; waiting_are_discarded(rt.alloc()));
}

#[test]
fn references_fill_the_buffer(rt: HostRuntime) {
    assert!(rt; is_full(rt.alloc()));
}

#[test]
fn a_full_buffer_waits(rt: HostRuntime) {
    assert!(rt; sixteen_wait(rt.alloc()));
}

#[test]
fn a_full_buffer_is_discarded(rt: HostRuntime) {
    assert!(rt; sixteen_are_discarded(rt.alloc()));
}

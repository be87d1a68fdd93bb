//! The first bins of the grey coding tree unit.

use cabac_engine::Interval;

/// The first bins of the grey coding tree unit, as a decoder in another language reads them: part_mode, pcm_flag,
/// prev_intra_luma_pred_flag and the first of mpm_idx.
fn are_grey_bins(interval: &mut Interval) -> bool {
    let (mut part_mode, mut most_probable) = (1, 1);
    interval.state() == [510, 11, 7]
        && interval.decision(&mut part_mode) == Some(true)
        && part_mode == 3
        && interval.terminate() == Some(false)
        && interval.decision(&mut most_probable) == Some(true)
        && interval.bypass() == Some(false)
}

fn is_grey_unit_read() -> bool {
    match Interval::start(&[0x05, 0xF7]) {
        Some(mut interval) => are_grey_bins(&mut interval),
        None => false,
    }
}

#[test]
fn the_grey_unit_has_its_bins(rt: HostRuntime) {
    assert!(rt; is_grey_unit_read());
}

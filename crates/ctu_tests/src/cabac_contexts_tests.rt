//! The first bin of an I slice.

use cabac_contexts::{BinReader, Contexts};
use cabac_engine::Interval;

/// part_mode of the grey coding tree unit, as a decoder in another language reads it.
fn is_first_bin_read() -> bool {
    let Some(interval) = Interval::start(&[0x05, 0xF7]) else {
        return false;
    };
    let mut reader = BinReader {
        interval,
        contexts: Contexts::init(26, 0),
    };
    matches!(reader.decision(spec_cabac::PART_MODE), Ok(true))
}

#[test]
fn the_first_bin_of_an_i_slice_is_read(rt: HostRuntime) {
    assert!(rt; is_first_bin_read());
}

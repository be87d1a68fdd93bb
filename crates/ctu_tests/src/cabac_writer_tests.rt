//! Bins that are written.

use cabac_writer::Encoder;
use spec_cabac::{
    CBF_CHROMA, CBF_LUMA, INIT_VALUES, INTRA_CHROMA_PRED_MODE, PART_MODE,
    PREV_INTRA_LUMA_PRED_FLAG, initial_context,
};
use std::alloc::{AllocError, Global};

/// The bytes of the bins of the grey coding tree unit, as a decoder in another language reads them: part_mode,
/// pcm_flag, prev_intra_luma_pred_flag, the first of mpm_idx, intra_chroma_pred_mode, cbf_cb, cbf_cr, cbf_luma and the
/// end.
fn grey_bytes(alloc: Global) -> Result<Vec<u8>, AllocError> {
    let mut part_mode = initial_context(26, INIT_VALUES[0][PART_MODE]);
    let mut most_probable = initial_context(26, INIT_VALUES[0][PREV_INTRA_LUMA_PRED_FLAG]);
    let mut chroma_mode = initial_context(26, INIT_VALUES[0][INTRA_CHROMA_PRED_MODE]);
    let mut cbf_chroma = initial_context(26, INIT_VALUES[0][CBF_CHROMA]);
    let mut cbf_luma = initial_context(26, INIT_VALUES[0][CBF_LUMA + 1]);
    let mut encoder = Encoder::new(alloc);
    encoder.decision(&mut part_mode, true)?;
    encoder.terminate(false)?;
    encoder.decision(&mut most_probable, true)?;
    encoder.bypass(false)?;
    encoder.decision(&mut chroma_mode, false)?;
    encoder.decision(&mut cbf_chroma, false)?;
    encoder.decision(&mut cbf_chroma, false)?;
    encoder.decision(&mut cbf_luma, false)?;
    encoder.terminate(true)?;
    encoder.flush()
}

/// Those before the samples of a unit by pulse code modulation: part_mode and pcm_flag.
fn bytes_before_samples(alloc: Global) -> Result<Vec<u8>, AllocError> {
    let mut part_mode = initial_context(26, INIT_VALUES[0][PART_MODE]);
    let mut encoder = Encoder::new(alloc);
    encoder.decision(&mut part_mode, true)?;
    encoder.terminate(true)?;
    encoder.flush()
}

/// Those behind them: the end.
fn bytes_behind_samples(alloc: Global) -> Result<Vec<u8>, AllocError> {
    let mut encoder = Encoder::new(alloc);
    encoder.terminate(true)?;
    encoder.flush()
}

fn are_bytes(written: Result<Vec<u8>, AllocError>, bytes: [u8; 2]) -> bool {
    match written {
        Ok(written) => written.as_slice() == bytes.as_slice(),
        Err(_) => false,
    }
}

#[test]
fn units_are_written(rt: HostRuntime) {
    assert!(rt; are_bytes(grey_bytes(rt.alloc()), [0x05, 0xF7]));
    assert!(rt; are_bytes(bytes_before_samples(rt.alloc()), [0x86, 0x80]));
    assert!(rt; are_bytes(bytes_behind_samples(rt.alloc()), [0xFE, 0x80]));
}

//! Arithmetic decoding as the standard says it (9.3.2.2, 9.3.2.5, 9.3.3, 9.3.4): the engine with a plain program that
//! computes it, the contexts, and bins as the questions of formats.
#![tactic(auto)]

mod context;
mod init_values;
mod laws;
mod plain;
mod tables;

pub use context::{after_lps, after_mps, initial_context};
pub use hv_base::{Breach, FaultKind};
pub use init_values::{
    ABS_MVD_GREATER0_FLAG, ABS_MVD_GREATER1_FLAG, CBF_CHROMA, CBF_LUMA, CODED_SUB_BLOCK_FLAG,
    COEFF_ABS_LEVEL_GREATER1_FLAG, COEFF_ABS_LEVEL_GREATER2_FLAG, CONTEXTS, CU_QP_DELTA_ABS,
    CU_SKIP_FLAG, CU_TRANSQUANT_BYPASS_FLAG, INIT_VALUES, INTER_PRED_IDC, INTRA_CHROMA_PRED_MODE,
    LAST_SIG_COEFF_X_PREFIX, LAST_SIG_COEFF_Y_PREFIX, MERGE_FLAG, MERGE_IDX, MVP_FLAG, PART_MODE,
    PRED_MODE_FLAG, PREV_INTRA_LUMA_PRED_FLAG, REF_IDX, RQT_ROOT_CBF, SAO_MERGE_FLAG, SAO_TYPE_IDX,
    SIG_COEFF_FLAG, SPLIT_CU_FLAG, SPLIT_TRANSFORM_FLAG, TRANSFORM_SKIP_FLAG,
};
pub use laws::{bins_are_spelled, tables_stand_by_column};
pub use plain::{PlainEngine, bypass, decision, start, terminate};
pub use tables::{lps_range, next_state_lps, next_state_mps, tables_keep_their_order};

#[cfg(test)]
mod tests;

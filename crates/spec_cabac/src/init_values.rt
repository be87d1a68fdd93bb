//! The contexts by their syntax elements (9.3.1), and their initValue (9.3.2.2).

/// sao_merge_left_flag and sao_merge_up_flag.
pub const SAO_MERGE_FLAG: usize = 0;
/// sao_type_idx_luma and sao_type_idx_chroma, their first bin.
pub const SAO_TYPE_IDX: usize = SAO_MERGE_FLAG + 1;
/// split_cu_flag.
pub const SPLIT_CU_FLAG: usize = SAO_TYPE_IDX + 1;
/// cu_transquant_bypass_flag.
pub const CU_TRANSQUANT_BYPASS_FLAG: usize = SPLIT_CU_FLAG + 3;
/// cu_skip_flag.
pub const CU_SKIP_FLAG: usize = CU_TRANSQUANT_BYPASS_FLAG + 1;
/// pred_mode_flag.
pub const PRED_MODE_FLAG: usize = CU_SKIP_FLAG + 3;
/// part_mode.
pub const PART_MODE: usize = PRED_MODE_FLAG + 1;
/// prev_intra_luma_pred_flag.
pub const PREV_INTRA_LUMA_PRED_FLAG: usize = PART_MODE + 4;
/// intra_chroma_pred_mode, its first bin.
pub const INTRA_CHROMA_PRED_MODE: usize = PREV_INTRA_LUMA_PRED_FLAG + 1;
/// merge_flag.
pub const MERGE_FLAG: usize = INTRA_CHROMA_PRED_MODE + 1;
/// merge_idx, its first bin.
pub const MERGE_IDX: usize = MERGE_FLAG + 1;
/// inter_pred_idc.
pub const INTER_PRED_IDC: usize = MERGE_IDX + 1;
/// ref_idx_l0 and ref_idx_l1, their first two bins.
pub const REF_IDX: usize = INTER_PRED_IDC + 5;
/// abs_mvd_greater0_flag.
pub const ABS_MVD_GREATER0_FLAG: usize = REF_IDX + 2;
/// abs_mvd_greater1_flag.
pub const ABS_MVD_GREATER1_FLAG: usize = ABS_MVD_GREATER0_FLAG + 1;
/// mvp_l0_flag and mvp_l1_flag.
pub const MVP_FLAG: usize = ABS_MVD_GREATER1_FLAG + 1;
/// rqt_root_cbf.
pub const RQT_ROOT_CBF: usize = MVP_FLAG + 1;
/// split_transform_flag.
pub const SPLIT_TRANSFORM_FLAG: usize = RQT_ROOT_CBF + 1;
/// cbf_luma.
pub const CBF_LUMA: usize = SPLIT_TRANSFORM_FLAG + 3;
/// cbf_cb and cbf_cr.
pub const CBF_CHROMA: usize = CBF_LUMA + 2;
/// transform_skip_flag, of luma and of chroma.
pub const TRANSFORM_SKIP_FLAG: usize = CBF_CHROMA + 4;
/// cu_qp_delta_abs, its prefix.
pub const CU_QP_DELTA_ABS: usize = TRANSFORM_SKIP_FLAG + 2;
/// last_sig_coeff_x_prefix.
pub const LAST_SIG_COEFF_X_PREFIX: usize = CU_QP_DELTA_ABS + 2;
/// last_sig_coeff_y_prefix.
pub const LAST_SIG_COEFF_Y_PREFIX: usize = LAST_SIG_COEFF_X_PREFIX + 18;
/// coded_sub_block_flag.
pub const CODED_SUB_BLOCK_FLAG: usize = LAST_SIG_COEFF_Y_PREFIX + 18;
/// sig_coeff_flag.
pub const SIG_COEFF_FLAG: usize = CODED_SUB_BLOCK_FLAG + 4;
/// coeff_abs_level_greater1_flag.
pub const COEFF_ABS_LEVEL_GREATER1_FLAG: usize = SIG_COEFF_FLAG + 42;
/// coeff_abs_level_greater2_flag.
pub const COEFF_ABS_LEVEL_GREATER2_FLAG: usize = COEFF_ABS_LEVEL_GREATER1_FLAG + 24;
/// How many contexts there are.
pub const CONTEXTS: usize = COEFF_ABS_LEVEL_GREATER2_FLAG + 6;

/// initValue of each context: a row for each initType, in it the elements in the order of their bases. A context that
/// slices of a type don't use has 154.
#[rattlefmt::skip]
pub static INIT_VALUES: [[u8; 154]; 3] = [
    [
        153, // sao_merge_flag
        200, // sao_type_idx
        139, 141, 157, // split_cu_flag
        154, // cu_transquant_bypass_flag
        154, 154, 154, // cu_skip_flag
        154, // pred_mode_flag
        184, 154, 154, 154, // part_mode
        184, // prev_intra_luma_pred_flag
         63, // intra_chroma_pred_mode
        154, // merge_flag
        154, // merge_idx
        154, 154, 154, 154, 154, // inter_pred_idc
        154, 154, // ref_idx
        154, // abs_mvd_greater0_flag
        154, // abs_mvd_greater1_flag
        154, // mvp_flag
        154, // rqt_root_cbf
        153, 138, 138, // split_transform_flag
        111, 141, // cbf_luma
         94, 138, 182, 154, // cbf_chroma
        139, 139, // transform_skip_flag
        154, 154, // cu_qp_delta_abs
        110, 110, 124, 125, 140, 153, 125, 127, 140, 109, 111, 143, 127, 111, // last_sig_coeff_x_prefix
         79, 108, 123,  63,
        110, 110, 124, 125, 140, 153, 125, 127, 140, 109, 111, 143, 127, 111, // last_sig_coeff_y_prefix
         79, 108, 123,  63,
         91, 171, 134, 141, // coded_sub_block_flag
        111, 111, 125, 110, 110,  94, 124, 108, 124, 107, 125, 141, 179, 153, // sig_coeff_flag
        125, 107, 125, 141, 179, 153, 125, 107, 125, 141, 179, 153, 125, 140,
        139, 182, 182, 152, 136, 152, 136, 153, 136, 139, 111, 136, 139, 111,
        140,  92, 137, 138, 140, 152, 138, 139, 153,  74, 149,  92, 139, 107, // coeff_abs_level_greater1_flag
        122, 152, 140, 179, 166, 182, 140, 227, 122, 197,
        138, 153, 136, 167, 152, 152, // coeff_abs_level_greater2_flag
    ],
    [
        153, // sao_merge_flag
        185, // sao_type_idx
        107, 139, 126, // split_cu_flag
        154, // cu_transquant_bypass_flag
        197, 185, 201, // cu_skip_flag
        149, // pred_mode_flag
        154, 139, 154, 154, // part_mode
        154, // prev_intra_luma_pred_flag
        152, // intra_chroma_pred_mode
        110, // merge_flag
        122, // merge_idx
         95,  79,  63,  31,  31, // inter_pred_idc
        153, 153, // ref_idx
        140, // abs_mvd_greater0_flag
        198, // abs_mvd_greater1_flag
        168, // mvp_flag
         79, // rqt_root_cbf
        124, 138,  94, // split_transform_flag
        153, 111, // cbf_luma
        149, 107, 167, 154, // cbf_chroma
        139, 139, // transform_skip_flag
        154, 154, // cu_qp_delta_abs
        125, 110,  94, 110,  95,  79, 125, 111, 110,  78, 110, 111, 111,  95, // last_sig_coeff_x_prefix
         94, 108, 123, 108,
        125, 110,  94, 110,  95,  79, 125, 111, 110,  78, 110, 111, 111,  95, // last_sig_coeff_y_prefix
         94, 108, 123, 108,
        121, 140,  61, 154, // coded_sub_block_flag
        155, 154, 139, 153, 139, 123, 123,  63, 153, 166, 183, 140, 136, 153, // sig_coeff_flag
        154, 166, 183, 140, 136, 153, 154, 166, 183, 140, 136, 153, 154, 170,
        153, 123, 123, 107, 121, 107, 121, 167, 151, 183, 140, 151, 183, 140,
        154, 196, 196, 167, 154, 152, 167, 182, 182, 134, 149, 136, 153, 121, // coeff_abs_level_greater1_flag
        136, 137, 169, 194, 166, 167, 154, 167, 137, 182,
        107, 167,  91, 122, 107, 167, // coeff_abs_level_greater2_flag
    ],
    [
        153, // sao_merge_flag
        160, // sao_type_idx
        107, 139, 126, // split_cu_flag
        154, // cu_transquant_bypass_flag
        197, 185, 201, // cu_skip_flag
        134, // pred_mode_flag
        154, 139, 154, 154, // part_mode
        183, // prev_intra_luma_pred_flag
        152, // intra_chroma_pred_mode
        154, // merge_flag
        137, // merge_idx
         95,  79,  63,  31,  31, // inter_pred_idc
        153, 153, // ref_idx
        169, // abs_mvd_greater0_flag
        198, // abs_mvd_greater1_flag
        168, // mvp_flag
         79, // rqt_root_cbf
        224, 167, 122, // split_transform_flag
        153, 111, // cbf_luma
        149,  92, 167, 154, // cbf_chroma
        139, 139, // transform_skip_flag
        154, 154, // cu_qp_delta_abs
        125, 110, 124, 110,  95,  94, 125, 111, 111,  79, 125, 126, 111, 111, // last_sig_coeff_x_prefix
         79, 108, 123,  93,
        125, 110, 124, 110,  95,  94, 125, 111, 111,  79, 125, 126, 111, 111, // last_sig_coeff_y_prefix
         79, 108, 123,  93,
        121, 140,  61, 154, // coded_sub_block_flag
        170, 154, 139, 153, 139, 123, 123,  63, 124, 166, 183, 140, 136, 153, // sig_coeff_flag
        154, 166, 183, 140, 136, 153, 154, 166, 183, 140, 136, 153, 154, 170,
        153, 138, 138, 122, 121, 122, 121, 167, 151, 183, 140, 151, 183, 140,
        154, 196, 167, 167, 154, 152, 167, 182, 182, 134, 149, 136, 153, 121, // coeff_abs_level_greater1_flag
        136, 122, 169, 208, 166, 167, 154, 152, 167, 182,
        107, 167,  91, 107, 107, 167, // coeff_abs_level_greater2_flag
    ],
];

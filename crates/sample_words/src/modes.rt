//! What is known of a place of 4x4 luma samples apart from its vectors, in a word.

ghost use Rattle.std.specs.Prelude.{◌≡◌, ◌+◌, ◌*◌, ◌<◌, IfSome};
ghost use Rattle.std.specs.Int.{from_bool};
ghost use Rattle.sample_words.specs.Values.{IsModes, list_code, modes_in, modes_word};

use spec_motion::{Motion, Side, Vector};

/// What is known of a place apart from its vectors.
#[derive(Clone, Copy)]
pub struct PlaceModes {
    /// The number of its slice segment in the picture, below 2^18.
    pub segment: u32,
    /// What was read of it.
    pub side: Side,
    /// bS of the edge at its left side: 0, 1 or 2 (8.7.2.4).
    pub left_strength: u8,
    /// bS of the edge at its top.
    pub top_strength: u8,
    /// Whether loop filters leave its samples (pcm_loop_filter_disabled_flag, cu_transquant_bypass_flag).
    pub kept: bool,
    /// Whether its luma transform block has levels that aren't 0.
    pub coded: bool,
}

/// A place's modes, with the reference indices of its motion.
pub fn pack_modes(modes: &PlaceModes, motion: &Motion) -> u64
    requires modes { IsModes modes.now }
    requires first { IfSome motion.now.list_0 (λ v. v.ref_idx < 16) }
    requires second { IfSome motion.now.list_1 (λ v. v.ref_idx < 16) }
    ensures { result ≡ modes_word modes.now motion.now }
{
    let side = &modes.side;
    let rest = u64::from(side.skipped) + 2 * (u64::from(side.intra) + 2 * edge_bits(modes, motion));
    u64::from(side.qp) + 128 * (u64::from(side.luma_mode) + 64 * (u64::from(side.depth) + 4 * rest))
}

/// The fields from the strengths on.
fn edge_bits(modes: &PlaceModes, motion: &Motion) -> u64
    requires modes { IsModes modes.now }
    requires first { IfSome motion.now.list_0 (λ v. v.ref_idx < 16) }
    requires second { IfSome motion.now.list_1 (λ v. v.ref_idx < 16) }
    ensures value { result ≡ modes.now.left_strength + 4 * (modes.now.top_strength + 4 * (from_bool modes.now.kept
        + 2 * (from_bool modes.now.coded + 2 * (list_code motion.now.list_0
        + 32 * (list_code motion.now.list_1 + 32 * modes.now.segment))))) }
    ensures small { result < 17179869184 }
{
    let lists = list_code(motion.list_0)
        + 32 * (list_code(motion.list_1) + 32 * u64::from(modes.segment));
    let flags = u64::from(modes.kept) + 2 * (u64::from(modes.coded) + 2 * lists);
    u64::from(modes.left_strength) + 4 * (u64::from(modes.top_strength) + 4 * flags)
}

/// RefIdxLX and PredFlagLX of a list.
fn list_code(vector: Option<Vector>) -> u64
    requires { IfSome vector (λ v. v.ref_idx < 16) }
    ensures value { result ≡ list_code vector }
    ensures small { result < 32 }
{
    match vector {
        Some(vector) => 2 * u64::from(vector.ref_idx) + 1,
        None => 0,
    }
}

/// The modes that a word has.
pub fn unpack_modes(word: u64) -> PlaceModes
    ensures { result ≡ modes_in word }
{
    PlaceModes {
        segment: (word / 8_589_934_592 % 262_144) as u32,
        side: Side {
            depth: (word / 8_192 % 4) as u8,
            skipped: word / 32_768 % 2 == 1,
            intra: word / 65_536 % 2 == 1,
            luma_mode: (word / 128 % 64) as u8,
            qp: (word % 128) as u8,
        },
        left_strength: (word / 131_072 % 4) as u8,
        top_strength: (word / 524_288 % 4) as u8,
        kept: word / 2_097_152 % 2 == 1,
        coded: word / 4_194_304 % 2 == 1,
    }
}

//! The filtering of neighbouring samples (8.4.4.2.3).

ghost use Rattle.std.specs.Prelude.{◌≡◌, ◌≤◌, ◌<◌, ◌+◌, ◌-◌, ◌*◌, ◌^◌, ◌/◌, length, take, Bool, if◌then◌else◌};
ghost use Rattle.spec_intra_prediction.specs.Neighbours.{at};
ghost use Rattle.spec_intra_prediction.specs.Smoothing.{is_filtered, is_flat, is_strong, smoothed, smoothed_at};
ghost use Rattle.spec_intra_prediction.specs.Smoothing.{straightened, straight_at, distance_threshold};

/// Whether a block's neighbours are filtered before a mode predicts from them.
#[tactic(auto, unfolding(spec_intra_prediction::specs::Smoothing::is_filtered))]
pub fn is_filtered(c: u8, log2: u32, mode: u8) -> bool
    ensures { result ≡ is_filtered c log2 mode }
{
    c == 0 && mode != 1 && log2 != 2 && threshold(log2) < mode.abs_diff(26).min(mode.abs_diff(10))
}

/// How far a mode of a filtered block at least is from horizontal and vertical.
fn threshold(log2: u32) -> u8
    ensures { result ≡ distance_threshold log2 }
{
    match log2 {
        3 => 7,
        4 => 1,
        _ => 0,
    }
}

/// Writes the neighbours, filtered.
#[tactic(auto, using(crate::proofs::Sizes::small))]
pub fn filter(edge: &[u16], log2: u32, strong: bool, depth: u32, smooth: &mut [u16; 129])
    requires edge { length edge.now ≡ 4 * 2 ^ log2 + 1 }
    requires log2 { log2 ≤ 5 }
    requires depth_low { 5 ≤ depth }
    requires depth { depth ≤ 16 }
    ensures { take (length edge.now) smooth.new
        ≡ if is_strong log2 strong depth edge.now then straightened edge.now else smoothed edge.now }
{
    if is_strong(edge, log2, strong, depth) {
        straighten(edge, smooth);
    } else {
        smoothen(edge, smooth);
    }
}

/// Whether both sides are so flat that they are drawn straight.
#[tactic(auto, unfolding(spec_intra_prediction::specs::Smoothing::is_strong))]
fn is_strong(edge: &[u16], log2: u32, strong: bool, depth: u32) -> bool
    requires edge { length edge.now ≡ 4 * 2 ^ log2 + 1 }
    requires log2 { log2 ≤ 5 }
    requires depth_low { 5 ≤ depth }
    requires depth { depth ≤ 16 }
    ensures { result ≡ is_strong log2 strong depth edge.now }
{
    strong
        && log2 == 5
        && is_flat(depth, edge[64], edge[96], edge[128])
        && is_flat(depth, edge[64], edge[32], edge[0])
}

/// Whether the second difference of three samples is small.
fn is_flat(depth: u32, first: u16, middle: u16, last: u16) -> bool
    requires depth_low { 5 ≤ depth }
    requires depth { depth ≤ 16 }
    ensures { result ≡ is_flat depth first middle last }
{
    let ends = u32::from(first) + u32::from(last);
    ends.abs_diff(2 * u32::from(middle)) < 1 << (depth - 5)
}

/// Writes each neighbour as the weighted mean of itself and the two beside it, but the two ends.
fn smoothen(edge: &[u16], smooth: &mut [u16; 129])
    requires some { 2 ≤ length edge.now }
    requires few { length edge.now ≤ 129 }
    ensures { take (length edge.now) smooth.new ≡ smoothed edge.now }
{
    let last = edge.len() - 1;
    smooth[0] = edge[0];
    for k in 1..last {
        smooth[k] = weighted(edge[k - 1], edge[k], edge[k + 1]);
    }
    smooth[last] = edge[last];
}

/// The mean of three samples, of which the second counts twice.
fn weighted(before: u16, here: u16, after: u16) -> u16
    ensures { result ≡ (before + 2 * here + after + 2) / 4 }
{
    ((u32::from(before) + 2 * u32::from(here) + u32::from(after) + 2) / 4) as u16
}

/// Writes both sides drawn straight from the corner to their ends.
fn straighten(edge: &[u16], smooth: &mut [u16; 129])
    requires { length edge.now ≡ 129 }
    ensures { take (length edge.now) smooth.new ≡ straightened edge.now }
{
    'left: for k in 0..65 {
        smooth[k] = part_way(k as u32, edge[0], edge[64]);
    }
    'above: for k in 65..129 {
        smooth[k] = part_way(k as u32 - 64, edge[64], edge[128]);
    }
}

/// The sample so many of 64 steps from one to another.
fn part_way(steps: u32, from: u16, to: u16) -> u16
    requires { steps ≤ 64 }
    ensures { result ≡ ((64 - steps) * from + steps * to + 32) / 64 }
{
    (((64 - steps) * u32::from(from) + steps * u32::from(to) + 32) / 64) as u16
}

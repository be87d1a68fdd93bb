//! Contexts: their first values (9.3.2.2), and how a bin changes them (9.3.4.3.2.2).

ghost use Rattle.std.specs.Prelude.{◌≡◌, ◌+◌, ◌*◌, ◌<◌, ◌≤◌};
ghost use Rattle.spec_cabac.specs.Contexts.{context_after_lps, context_after_mps, pre_context_state, first_context};

use crate::tables::{next_state_lps, next_state_mps};

/// The first value of a context, 2 * pStateIdx + valMps, from SliceQpY, clipped to 0..=51, and its initValue.
#[tactic(auto, unfolding(crate::specs::Contexts::first_context))]
pub fn initial_context(qp: u32, init_value: u8) -> u8
    requires { qp ≤ 51 }
    ensures value { result ≡ first_context qp init_value }
    ensures small { result < 126 }
{
    let pre_state = pre_state(qp, init_value);
    if pre_state <= 63 {
        (2 * (63 - pre_state)) as u8
    } else {
        (2 * (pre_state - 64) + 1) as u8
    }
}

/// preCtxState. The sum is kept above 0 by 160 = 144 + 16, since the slope times `qp` is at least -45 * 51 > -144 * 16.
fn pre_state(qp: u32, init_value: u8) -> u32
    requires { qp ≤ 51 }
    ensures value { result ≡ pre_context_state qp init_value }
    ensures low { 1 ≤ result }
    ensures high { result ≤ 126 }
{
    let slope_index = u32::from(init_value) / 16;
    let offset_index = u32::from(init_value) % 16;
    let scaled = (5 * slope_index * qp + 144 * 16 - 45 * qp) / 16;
    (scaled + 8 * offset_index).clamp(161, 286) - 160
}

/// The context after its less probable symbol.
#[inline(always)]
#[tactic(auto, unfolding(crate::specs::Contexts::context_after_lps))]
pub fn after_lps(context: u8) -> u8
    requires { context < 126 }
    ensures value { result ≡ context_after_lps context }
    ensures small { result < 126 }
{
    let state = u32::from(context) / 2;
    let mps = u32::from(context) % 2;
    let next = next_state_lps(state);
    (2 * next + if state == 0 { 1 - mps } else { mps }) as u8
}

/// The context after its more probable symbol.
#[inline(always)]
#[tactic(auto, unfolding(crate::specs::Contexts::context_after_mps))]
pub fn after_mps(context: u8) -> u8
    requires { context < 126 }
    ensures value { result ≡ context_after_mps context }
    ensures small { result < 126 }
{
    let next = next_state_mps(u32::from(context) / 2);
    (2 * next + u32::from(context) % 2) as u8
}

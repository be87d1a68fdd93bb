//! Predictions from a picture that has one sample everywhere.

ghost use Rattle.std.specs.Prelude.{◌<◌};

use ctu_records::Mv;
use inter_pred::{
    Prediction, PredictionBlock, RefWindow, Scratch, Window, chroma, luma, weigh_one, weigh_two,
};
use spec_inter_prediction::{Weight, Weighting, Weights};

/// A picture that has one sample everywhere.
#[derive(Drop)]
struct Flat {
    sample: u16,
    ghost invariant: { sample < 256 },
}

impl RefWindow for Flat {
    ghost reference_at = { λ f picture component x y. f.sample };

    fn row(&mut self, _picture: u32, _component: u8, _x: i32, _y: i32, out: &mut [u16]) {
        out.fill(self.sample);
    }

    fn window(&mut self, _from: Window, out: &mut [u16; 5112]) {
        out.fill(self.sample);
    }
}

/// The weights of a P slice whose denominator is 1, weight change -1 and offset 3: a sample of 100 becomes 53.
fn is_weighted() -> bool {
    let mut view = Flat { sample: 100 };
    let block = PredictionBlock {
        x: 4,
        y: 8,
        width: 8,
        height: 8,
    };
    let mut scratch = Scratch::new();
    let mut prediction = Prediction::new();
    let mut out = [0; 4096];
    luma(
        &mut view,
        0,
        block,
        Mv { x: 5, y: -6 },
        8,
        &mut scratch,
        &mut prediction,
    );
    let weight = Weight {
        weight: 1,
        offset: 3,
    };
    let weights = Weights {
        log2_denominator: 1,
        list0: weight,
        list1: weight,
    };
    weigh_one(
        &prediction,
        0,
        Weighting::Explicit(weights),
        8,
        8,
        8,
        &mut out,
    );
    out[64 * 7 + 7] == 53
}

#[test]
fn an_explicit_weight_halves_and_moves_a_sample(rt: HostRuntime) {
    assert!(rt; is_weighted());
}

/// Whether a flat picture predicts itself at every fraction of luma and of chroma.
fn is_flat_predicted() -> bool {
    let mut view = Flat { sample: 77 };
    let mut scratch = Scratch::new();
    let mut first = Prediction::new();
    let mut second = Prediction::new();
    let mut out = [0; 4096];
    let mut same = true;
    for v in -8..8i16 {
        predict_both(&mut view, v, &mut scratch, &mut first, &mut second);
        weigh_two(&first, &second, Weighting::Default, 8, 4, 4, &mut out);
        if out[0] != 77 || out[64 * 3 + 3] != 77 {
            same = false;
        }
    }
    same
}

#[test]
fn a_flat_picture_predicts_itself(rt: HostRuntime) {
    assert!(rt; is_flat_predicted());
}

/// A luma and a chroma block by one vector.
fn predict_both(
    view: &mut Flat,
    v: i16,
    scratch: &mut Scratch,
    first: &mut Prediction,
    second: &mut Prediction,
) {
    let block = PredictionBlock {
        x: 0,
        y: 0,
        width: 4,
        height: 4,
    };
    let mv = Mv { x: v, y: v };
    luma(view, 0, block, mv, 8, scratch, first);
    chroma(view, 0, 1, block, mv, 8, scratch, second);
}

//! Substitution of neighbouring samples that aren't available (8.4.4.2.2).

ghost use Rattle.std.specs.Prelude.{◌≡◌, ◌≤◌, ◌-◌, ◌^◌, length, take};
ghost use Rattle.spec_intra_prediction.specs.Substitution.{first_available, sample_or, substituted};

/// Writes the neighbours of a block in the order of the standard, from the bottom of the left column on, each that
/// isn't available as the one before it. Those before the first available one are as that one; where none is available,
/// all are half of the range of samples of `depth` bits.
pub fn substitute(neighbours: &[Option<u16>], depth: u32, samples: &mut [u16])
    requires some_depth { 1 ≤ depth }
    requires depth { depth ≤ 16 }
    requires room { length neighbours.now ≤ length samples.old }
    ensures { take (length neighbours.now) samples.new ≡ substituted depth neighbours.now }
{
    let mut former = first_available(neighbours, half_of_range(depth));
    for k in 0..neighbours.len() {
        former = sample_or(neighbours[k], former);
        samples[k] = former;
    }
}

/// Half of the range of samples of `depth` bits.
fn half_of_range(depth: u32) -> u16
    requires some_depth { 1 ≤ depth }
    requires depth { depth ≤ 16 }
    ensures { result ≡ 2 ^ (depth - 1) }
{
    1 << (depth - 1)
}

/// A sample, or the one before it where it isn't available.
fn sample_or(sample: Option<u16>, former: u16) -> u16
    ensures { result ≡ sample_or sample former }
{
    match sample {
        Some(value) => value,
        None => former,
    }
}

/// The first sample that is available.
fn first_available(neighbours: &[Option<u16>], otherwise: u16) -> u16
    ensures { result ≡ first_available otherwise neighbours.now }
{
    for k in 0..neighbours.len() {
        match neighbours[k] {
            Some(value) => return value,
            None => {}
        }
    }
    otherwise
}

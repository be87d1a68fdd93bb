//! Samples as bytes, row after row.

ghost use Rattle.std.specs.Prelude.{◌≡◌, ℕ, ◌+◌, ◌*◌, ◌<◌, ◌≤◌, true, false, length, take, slice_index_or};
ghost use Rattle.std.specs.List.{flat_map};
ghost use Rattle.picture_buffer.specs.Planes.{samples_of, plane_width, plane_height};
ghost use Rattle.spec_picture_build.specs.Output.{sample_bytes, row_bytes, plane_bytes};
ghost use Rattle.yuv_writer.specs.Parts.{size_of, row_size, LiesIn};

use crate::window::PlaneWindow;
use picture_buffer::Planes;

/// Samples as a byte each.
fn narrow(samples: &[u16], bytes: &mut [u8])
    requires { length bytes.old ≡ length samples.now }
    ensures { bytes.new ≡ flat_map (sample_bytes false) samples.now }
{
    for k in 0..samples.len() {
        bytes[k] = (samples[k] % 256) as u8;
    }
}

/// Samples as two bytes each, the low one first.
fn widen(samples: &[u16], bytes: &mut [u8])
    requires { length bytes.old ≡ 2 * length samples.now }
    ensures { bytes.new ≡ flat_map (sample_bytes true) samples.now }
{
    for k in 0..samples.len() {
        bytes[2 * k] = (samples[k] % 256) as u8;
        bytes[2 * k + 1] = (samples[k] / 256) as u8;
    }
}

/// The bytes of samples.
#[tactic(auto, unfolding(crate::specs::Parts::size_of))]
fn lay_samples(samples: &[u16], two_bytes: bool, bytes: &mut [u8])
    requires { length bytes.old ≡ size_of two_bytes (length samples.now) }
    ensures { bytes.new ≡ flat_map (sample_bytes two_bytes) samples.now }
{
    if two_bytes {
        widen(samples, bytes);
    } else {
        narrow(samples, bytes);
    }
}

/// A row of a window, counted from its first.
fn lay_row(planes: &Planes, c: usize, window: &PlaneWindow, row: u32, bytes: &mut [u8])
    requires component { c < 3 }
    requires inside { LiesIn window.now (plane_width planes.now c) (plane_height planes.now c) }
    requires row { row < window.now.height }
    requires room { length bytes.old ≡ row_size window.now }
    ensures { bytes.new ≡ row_bytes (samples_of planes.now) c window.now row }
{
    let first = window.left as usize;
    let samples = planes.row(c, window.top + row);
    lay_samples(
        &samples[first..first + window.width as usize],
        window.two_bytes,
        bytes,
    );
}

/// The rows of a window, one after the other.
pub(crate) fn gather(planes: &Planes, c: usize, window: &PlaneWindow, bytes: &mut [u8])
    requires component { c < 3 }
    requires inside { LiesIn window.now (plane_width planes.now c) (plane_height planes.now c) }
    requires room { row_size window.now * window.now.height ≤ length bytes.old }
    ensures count { length bytes.new ≡ length bytes.old }
    ensures value { take (row_size window.now * window.now.height) bytes.new
        ≡ plane_bytes (samples_of planes.now) c window.now }
{
    let row_size = window.row_size() as usize;
    for row in 0..window.height {
        let first = row_size * row as usize;
        lay_row(planes, c, window, row, &mut bytes[first..first + row_size]);
    }
}

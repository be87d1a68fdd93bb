//! A plane, written in pieces of whole rows.

ghost use Rattle.std.specs.Prelude.{◌≡◌, ℕ, ◌*◌, ◌<◌, ◌≤◌, OnOk, OnErr, length};
ghost use Rattle.hv_io.specs.Streams.{Rose, Gains, GainsPrefix};
ghost use Rattle.picture_buffer.specs.Planes.{samples_of, plane_width, plane_height};
ghost use Rattle.spec_picture_build.specs.Output.{plane_bytes};
ghost use Rattle.yuv_writer.specs.Parts.{row_size, LiesIn};

use crate::gathering::gather;
use crate::window::PlaneWindow;
use hv_io::{Failed, Sink, write_all};
use picture_buffer::Planes;

/// How many bytes a piece has at most: four rows of two bytes a sample of the widest picture.
pub(crate) const ROOM: usize = 65536;

/// How many rows of so many bytes a piece has at most.
pub(crate) fn rows_of_piece(row_size: u32) -> u32
    requires { row_size ≤ 16384 }
    ensures some { 0 < result }
    ensures few { row_size * result ≤ 65536 }
{
    65536 / row_size.max(1)
}

/// Writes the rows of a window in one piece.
fn write_piece<O: Sink>(
    planes: &Planes,
    c: usize,
    window: &PlaneWindow,
    buffer: &mut [u8],
    out: &mut O,
) -> Result<(), Failed>
    requires component { c < 3 }
    requires inside { LiesIn window.now (plane_width planes.now c) (plane_height planes.now c) }
    requires room { row_size window.now * window.now.height ≤ length buffer.old }
    ensures buffer { length buffer.new ≡ length buffer.old }
    ensures gained { OnOk result
        (Gains (O.contents out.old) (O.contents out.new) (plane_bytes (samples_of planes.now) c window.now)) }
    ensures front { OnErr result
        (GainsPrefix (O.contents out.old) (O.contents out.new) (plane_bytes (samples_of planes.now) c window.now)) }
    ensures quiet { OnOk result (O.faults out.new ≡ O.faults out.old) }
    ensures counted { OnErr result (Rose (O.faults out.old) (O.faults out.new)) }
    ensures grows { O.faults out.old ≤ O.faults out.new }
{
    gather(planes, c, window, buffer);
    write_all(
        out,
        &buffer[..window.row_size() as usize * window.height as usize],
    )
}

/// Writes the rows of a window.
pub(crate) fn write_plane<O: Sink>(
    planes: &Planes,
    c: usize,
    window: &PlaneWindow,
    buffer: &mut [u8],
    out: &mut O,
) -> Result<(), Failed>
    requires component { c < 3 }
    requires inside { LiesIn window.now (plane_width planes.now c) (plane_height planes.now c) }
    requires room { length buffer.old ≡ 65536 }
    ensures buffer { length buffer.new ≡ 65536 }
    ensures gained { OnOk result
        (Gains (O.contents out.old) (O.contents out.new) (plane_bytes (samples_of planes.now) c window.now)) }
    ensures front { OnErr result
        (GainsPrefix (O.contents out.old) (O.contents out.new) (plane_bytes (samples_of planes.now) c window.now)) }
    ensures quiet { OnOk result (O.faults out.new ≡ O.faults out.old) }
    ensures counted { OnErr result (Rose (O.faults out.old) (O.faults out.new)) }
    ensures grows { O.faults out.old ≤ O.faults out.new }
{
    let rows = rows_of_piece(window.row_size());
    let mut done = 0;
    while done < window.height {
        let count = rows.min(window.height - done);
        write_piece(planes, c, &window.below(done, count), buffer, out)?;
        done += count;
    }
    Ok(())
}

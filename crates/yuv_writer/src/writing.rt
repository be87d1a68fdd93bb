//! Writes a picture.

ghost use Rattle.std.specs.Prelude.{◌≡◌, ℕ, ◌≤◌, OnOk, OnErr};
ghost use Rattle.hv_io.specs.Streams.{Rose, Gains, GainsPrefix};
ghost use Rattle.picture_buffer.specs.Planes.{samples_of};
ghost use Rattle.spec_picture_build.specs.Output.{picture_bytes};

use crate::pieces::{ROOM, write_plane};
use crate::window::window_of;
use hv_io::{Failed, Sink};
use picture_buffer::Picture;

/// Writes the planes Y, Cb and Cr of a picture inside its conformance window, row after row: a byte a sample where both
/// bit depths are 8, and else two, the low one first.
///
/// `Failed` where a write failed; a front of these bytes was gained then. It takes no memory.
#[tactic(auto, unfolding(spec_picture_build::specs::Output::picture_bytes))]
pub fn write_picture<O: Sink>(picture: &Picture, out: &mut O) -> Result<(), Failed>
    ensures gained { OnOk result
        (Gains (O.contents out.old) (O.contents out.new)
        (picture_bytes picture.now.format (samples_of picture.now.planes))) }
    ensures front { OnErr result
        (GainsPrefix (O.contents out.old) (O.contents out.new)
        (picture_bytes picture.now.format (samples_of picture.now.planes))) }
    ensures quiet { OnOk result (O.faults out.new ≡ O.faults out.old) }
    ensures counted { OnErr result (Rose (O.faults out.old) (O.faults out.new)) }
    ensures grows { O.faults out.old ≤ O.faults out.new }
{
    let format = picture.format();
    let planes = picture.planes();
    let mut buffer = [0; ROOM];
    write_plane(planes, 0, &window_of(format, 0), &mut buffer, out)?;
    write_plane(planes, 1, &window_of(format, 1), &mut buffer, out)?;
    write_plane(planes, 2, &window_of(format, 2), &mut buffer, out)
}

//! The MD5 of a picture.

ghost use Rattle.std.specs.Prelude.{◌≡◌, ℕ, ◌*◌, ◌≤◌, ◌<◌, ◌++◌, List, length};
ghost use Rattle.md5.specs.Md5.{Holds, md5};
ghost use Rattle.picture_buffer.specs.Planes.{samples_of, plane_width, plane_height};
ghost use Rattle.spec_picture_build.specs.Output.{picture_bytes, plane_bytes};
ghost use Rattle.yuv_writer.specs.Parts.{row_size, LiesIn};

use crate::gathering::gather;
use crate::pieces::{ROOM, rows_of_piece};
use crate::window::{PlaneWindow, window_of};
use md5::{Digest, Md5};
use picture_buffer::{Picture, Planes};

/// The MD5 of the bytes that `write_picture` writes. It takes no memory.
#[tactic(auto, unfolding(spec_picture_build::specs::Output::picture_bytes))]
pub fn picture_md5(picture: &Picture) -> [u8; 16]
    ensures { result ≡ md5 (picture_bytes picture.now.format (samples_of picture.now.planes)) }
{
    let format = picture.format();
    let planes = picture.planes();
    let mut buffer = [0; ROOM];
    let mut hash = Md5::new();
    hash_plane(planes, 0, &window_of(format, 0), &mut buffer, &mut hash);
    hash_plane(planes, 1, &window_of(format, 1), &mut buffer, &mut hash);
    hash_plane(planes, 2, &window_of(format, 2), &mut buffer, &mut hash);
    hash.finalize()
}

/// Adds the rows of a window.
fn hash_plane(planes: &Planes, c: usize, window: &PlaneWindow, buffer: &mut [u8], hash: &mut Md5)
    requires component { c < 3 }
    requires inside { LiesIn window.now (plane_width planes.now c) (plane_height planes.now c) }
    requires room { length buffer.old ≡ 65536 }
    ensures buffer { length buffer.new ≡ 65536 }
    ensures held { (m : List ℕ) → Holds hash.old m
        → Holds hash.new (m ++ plane_bytes (samples_of planes.now) c window.now) }
{
    let rows = rows_of_piece(window.row_size());
    let mut done = 0;
    while done < window.height {
        let count = rows.min(window.height - done);
        hash_piece(planes, c, &window.below(done, count), buffer, hash);
        done += count;
    }
}

/// Adds the rows of a window in one piece.
fn hash_piece(planes: &Planes, c: usize, window: &PlaneWindow, buffer: &mut [u8], hash: &mut Md5)
    requires component { c < 3 }
    requires inside { LiesIn window.now (plane_width planes.now c) (plane_height planes.now c) }
    requires room { row_size window.now * window.now.height ≤ length buffer.old }
    ensures buffer { length buffer.new ≡ length buffer.old }
    ensures held { (m : List ℕ) → Holds hash.old m
        → Holds hash.new (m ++ plane_bytes (samples_of planes.now) c window.now) }
{
    gather(planes, c, window, buffer);
    hash.update(&buffer[..window.row_size() as usize * window.height as usize]);
}

//! The planes of a picture by rows of coding tree blocks.

ghost use Rattle.std.specs.Prelude.{◌<◌};

use md5::{Digest, Md5};
use picture_buffer::Planes;
use std::io::{self, Write};

/// A line for each row of coding tree blocks of each component, where a block has so many luma samples on a side.
pub(crate) fn print_rows<W: Write>(planes: &Planes, side: u32, out: &mut W) -> io::Result<()> {
    print_plane(planes, 0, side, out)?;
    print_plane(planes, 1, side / 2, out)?;
    print_plane(planes, 2, side / 2, out)
}

fn print_plane<W: Write>(planes: &Planes, c: usize, side: u32, out: &mut W) -> io::Result<()>
    requires { c < 3 }
{
    let height = planes.height(c);
    let side = side.max(1);
    let rows = height / side + u32::from(height % side != 0);
    for row in 0..rows {
        write!(out, "row final {c} {row}: ")?;
        print_digest(&digest(planes, c, side.saturating_mul(row), side), out)?;
    }
    Ok(())
}

fn print_digest<W: Write>(digest: &[u8; 16], out: &mut W) -> io::Result<()> {
    for byte in digest {
        write!(out, "{byte:02x}")?;
    }
    writeln!(out)
}

/// The MD5 of the samples of a component in so many rows from one on, of each its low byte.
fn digest(planes: &Planes, c: usize, first: u32, rows: u32) -> [u8; 16]
    requires { c < 3 }
{
    let mut hash = Md5::new();
    let behind = first.saturating_add(rows).min(planes.height(c));
    for y in first..behind {
        hash_row(&mut hash, planes.row(c, y));
    }
    hash.finalize()
}

fn hash_row(hash: &mut Md5, row: &[u16]) {
    for sample in row {
        hash.update(&[(*sample % 256) as u8]);
    }
}

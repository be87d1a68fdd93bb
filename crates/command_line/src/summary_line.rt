//! The line that sums a stream up, in room of its own: making it takes no memory.

ghost use Rattle.std.specs.Prelude.{◌≡◌, ◌+◌, ◌≤◌, ◌++◌, codes, length};
ghost use Rattle.std.specs.Fmt.{decimal};
ghost use Rattle.arrayvec.specs.ArrayVec.{array_vec_len};
ghost use Rattle.command_line.specs.Summary.{summary_line};

use arrayvec::ArrayVec;
use itoa::Buffer;
use md5::{Digest, Md5};

/// The text of the line, of at most 96 bytes: a number of up to 10 digits, one of up to 20, a digest of 32 digits, and
/// 22 bytes more.
pub(crate) type SummaryLine = ArrayVec<u8, 96>;

/// The line of so many pictures that have these bytes.
#[tactic(auto, unfolding(crate::specs::Summary::summary_line))]
pub(crate) fn summary_line(pictures: u32, bytes: &[u8]) -> SummaryLine
    ensures { result.items ≡ summary_line pictures bytes.now }
{
    let mut digits = [0; 32];
    hex::encode_to_slice(&Md5::digest(bytes), &mut digits).unwrap();
    let mut line = SummaryLine::new();
    push(&mut line, b"pictures ");
    push(&mut line, Buffer::new().format(pictures).as_bytes());
    push(&mut line, b" bytes ");
    push(&mut line, Buffer::new().format(bytes.len()).as_bytes());
    push(&mut line, b" md5 ");
    push(&mut line, &digits);
    push(&mut line, b"\n");
    line
}

/// Appends bytes.
fn push(line: &mut SummaryLine, bytes: &[u8])
    requires { array_vec_len line.old + length bytes.now ≤ 96 }
    ensures text { line.new.items ≡ line.old.items ++ bytes.now }
    ensures len { array_vec_len line.new ≡ array_vec_len line.old + length bytes.now }
{
    line.try_extend_from_slice(bytes).unwrap();
}

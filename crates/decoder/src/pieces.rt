//! What is written of a picture.

ghost use Rattle.std.specs.Prelude.{◌≡◌, ◌+◌, ◌≤◌, ◌++◌, codes, length, OnErr, OnOk};
ghost use Rattle.std.specs.Fmt.{decimal};
ghost use Rattle.header_types.specs.SequenceParameterSets.{IsPictureFormat, cropped_height, cropped_width};
ghost use Rattle.hv_io.specs.Streams.{Gains, GainsPrefix, Rose};
ghost use Rattle.spec_decoder.specs.Decoder.{picture_out};
ghost use Rattle.spec_decoder.specs.Output.{hash_line, list_line, piece_of};
ghost use Rattle.decoder.specs.Buffers.{tagged};

use crate::tag::Tag;
use arrayvec::ArrayVec;
use header_types::PictureFormat;
use hv_io::{Failed, Sink, write_all};
use itoa::Buffer;
use picture_buffer::Picture;
use spec_decoder::Form;
use yuv_writer::{picture_md5, write_picture};

/// The text of a line, of at most 64 bytes: a number of up to 20 digits and a digest of 32, or that number, one of up
/// to 11 characters and three of up to 10 digits, with what stands between them and the line feed.
type Line = ArrayVec<u8, 64>;

/// Writes the piece of a picture of a number.
pub(crate) fn write_piece<O: Sink>(
    form: Form,
    number: u64,
    tag: Tag,
    picture: &Picture,
    out: &mut O,
) -> Result<(), Failed>
    ensures gained { OnOk result (Gains (O.contents out.old) (O.contents out.new)
        (piece_of form number (picture_out (tagged tag picture.now)))) }
    ensures front { OnErr result (GainsPrefix (O.contents out.old) (O.contents out.new)
        (piece_of form number (picture_out (tagged tag picture.now)))) }
    ensures quiet { OnOk result (O.faults out.new ≡ O.faults out.old) }
    ensures counted { OnErr result (Rose (O.faults out.old) (O.faults out.new)) }
    ensures grows { O.faults out.old ≤ O.faults out.new }
{
    match form {
        Form::I420 => write_picture(picture, out),
        Form::Hash => write_all(out, hash_line(number, tag, picture).as_slice()),
        Form::List => write_all(out, list_line(number, tag, picture).as_slice()),
    }
}

/// The line of a picture's hash.
#[tactic(auto, unfolding(spec_decoder::specs::Output::hash_line))]
fn hash_line(number: u64, tag: Tag, picture: &Picture) -> Line
    ensures { result.items ≡ hash_line number (picture_out (tagged tag picture.now)) }
{
    let mut digits = [0; 32];
    hex::encode_to_slice(&picture_md5(picture), &mut digits).unwrap();
    let mut line = Line::new();
    push(&mut line, Buffer::new().format(number).as_bytes());
    push(&mut line, b" ");
    push(&mut line, &digits);
    push(&mut line, b"\n");
    line
}

/// The line of a picture's order count, type and size.
#[tactic(auto, unfolding(spec_decoder::specs::Output::list_line))]
fn list_line(number: u64, tag: Tag, picture: &Picture) -> Line
    ensures { result.items ≡ list_line number (picture_out (tagged tag picture.now)) }
{
    let mut line = Line::new();
    push(&mut line, Buffer::new().format(number).as_bytes());
    push(&mut line, b" ");
    push(&mut line, Buffer::new().format(tag.poc).as_bytes());
    push(&mut line, b" ");
    push(&mut line, Buffer::new().format(tag.nal_type).as_bytes());
    push(&mut line, b" ");
    push_size(&mut line, picture.format());
    push(&mut line, b"\n");
    line
}

/// Appends the sides of the pictures of a format inside the conformance window, in luma samples.
fn push_size(line: &mut Line, format: &PictureFormat)
    requires format { IsPictureFormat format.now }
    requires room { length line.old.items + 21 ≤ 64 }
    ensures text { line.new.items ≡ line.old.items
        ++ (decimal (cropped_width format.now) ++ (codes "x" ++ decimal (cropped_height format.now))) }
    ensures short { length line.new.items ≤ length line.old.items + 21 }
{
    let (width, height) = cropped_sides(format);
    push(line, Buffer::new().format(width).as_bytes());
    push(line, b"x");
    push(line, Buffer::new().format(height).as_bytes());
}

/// The sides of the pictures of a format inside the conformance window, in luma samples.
pub(crate) fn cropped_sides(format: &PictureFormat) -> (u32, u32)
    requires { IsPictureFormat format.now }
    ensures width { result.0 ≡ cropped_width format.now }
    ensures height { result.1 ≡ cropped_height format.now }
{
    let width = format.pic_width_in_luma_samples;
    let height = format.pic_height_in_luma_samples;
    match format.conformance_window {
        None => (width, height),
        Some(w) => (
            width - 2 * (w.conf_win_left_offset + w.conf_win_right_offset),
            height - 2 * (w.conf_win_top_offset + w.conf_win_bottom_offset),
        ),
    }
}

/// Appends bytes.
fn push(line: &mut Line, bytes: &[u8])
    requires { length line.old.items + length bytes.now ≤ 64 }
    ensures text { line.new.items ≡ line.old.items ++ bytes.now }
    ensures len { length line.new.items ≡ length line.old.items + length bytes.now }
{
    line.try_extend_from_slice(bytes).unwrap();
}

//! What a row says of the bytes of the output.

use crate::byte_text::{bytes_of, number_of};
use crate::drawn_output::drawn_output;
use crate::ends::is_front;
use crate::made_stream::made_stream;
use crate::row_error::RowError;
use md5::{Digest, Md5};
use std::alloc::Global;

/// What a row says of the bytes of the output.
#[derive(Drop)]
pub(crate) enum RowOutput {
    Bytes(Vec<u8>),
    /// So many grey pictures of 8x8 luma samples.
    Grey(u32),
    /// The MD5 in lower case digits.
    Md5(String),
}

impl RowOutput {
    /// The output of a column: `-` for none, `grey N`, `md5 DIGITS`, `lines A, B`, a stream or pictures of a
    /// seed, or its bytes.
    pub(crate) fn read(alloc: Global, text: &str) -> Result<RowOutput, RowError> {
        match text.split_once(' ') {
            Some((kind, rest)) => output_of_kind(alloc, kind, rest),
            None if text == "-" => Ok(RowOutput::Bytes(Vec::new(alloc))),
            None => Ok(RowOutput::Bytes(bytes_of(alloc, text)?)),
        }
    }

    /// Whether these are the bytes.
    pub(crate) fn is(&self, alloc: Global, bytes: &[u8]) -> Result<bool, RowError> {
        match self {
            RowOutput::Bytes(wanted) => Ok(bytes == wanted.as_slice()),
            RowOutput::Grey(count) => {
                Ok(
                    bytes.len() as u64 == u64::from(*count) * 96
                        && bytes.iter().all(|byte| *byte == 128),
                )
            }
            RowOutput::Md5(wanted) => is_md5(alloc, wanted.as_str(), bytes),
        }
    }

    /// Whether these bytes are a front of it such as so many writes leave, each of at most a piece. No output but bytes
    /// is told so.
    pub(crate) fn is_left_by(&self, bytes: &[u8], calls: u32, piece: u32) -> bool {
        match self {
            RowOutput::Bytes(wanted) => is_front(wanted.as_slice(), bytes, calls, piece),
            RowOutput::Grey(_) | RowOutput::Md5(_) => false,
        }
    }
}

/// The output that isn't written as its bytes.
fn output_of_kind(alloc: Global, kind: &str, rest: &str) -> Result<RowOutput, RowError> {
    match kind {
        "grey" => Ok(RowOutput::Grey(number_of(rest)?)),
        "md5" => Ok(RowOutput::Md5(String::from_str(alloc, rest)?)),
        "lines" => Ok(RowOutput::Bytes(bytes_of_lines(alloc, rest)?)),
        "made" => Ok(RowOutput::Bytes(made_stream(alloc, rest)?)),
        "drawn" => Ok(RowOutput::Bytes(drawn_output(alloc, rest)?)),
        _ => Err(RowError::Unreadable),
    }
}

/// The bytes of lines, each with its end.
fn bytes_of_lines(alloc: Global, text: &str) -> Result<Vec<u8>, RowError> {
    let mut bytes = Vec::new(alloc);
    for line in text.split(", ") {
        bytes.extend_from_slice(line.as_bytes())?;
        bytes.push(b'\n')?;
    }
    Ok(bytes)
}

/// Whether bytes have the MD5 of these digits.
fn is_md5(alloc: Global, wanted: &str, bytes: &[u8]) -> Result<bool, RowError> {
    let digest = hex::encode(alloc, Md5::digest(bytes))?;
    Ok(digest.as_str() == wanted)
}

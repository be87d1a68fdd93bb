//! Bytes as a row writes them.

use crate::row_error::RowError;
use std::alloc::{AllocError, Global};

/// Names for NAL units, from lines `unit NAME DIGITS ..`.
#[derive(Drop)]
pub(crate) struct UnitNames<'a> {
    list: Vec<(&'a str, &'a str)>,
}

impl<'a> UnitNames<'a> {
    /// No name.
    pub(crate) fn new(alloc: Global) -> UnitNames<'a> {
        UnitNames {
            list: Vec::new(alloc),
        }
    }

    /// Whether a line is a row. Takes the name of a line that gives one.
    pub(crate) fn is_row(&mut self, line: &'a str) -> Result<bool, AllocError> {
        if is_note(line) {
            return Ok(false);
        }
        match line.strip_prefix("unit ") {
            Some(rest) => self.take(rest),
            None => Ok(true),
        }
    }

    /// Takes a name and its units. No such line is a row.
    fn take(&mut self, rest: &'a str) -> Result<bool, AllocError> {
        if let Some((name, units)) = rest.split_once(' ') {
            self.list.push((name, units))?;
        }
        Ok(false)
    }

    /// The units of a name.
    fn units_of(&self, word: &str) -> Option<&'a str> {
        for (name, units) in self.list.as_slice() {
            if *name == word {
                return Some(*units);
            }
        }
        None
    }

    /// The bytes of a stream: its NAL units, each behind 00 00 00 01, or all its bytes behind `raw`. `NxUNIT` is a unit
    /// N times.
    pub(crate) fn stream_of(&self, alloc: Global, text: &str) -> Result<Vec<u8>, RowError> {
        let mut bytes = Vec::new(alloc);
        let mut is_raw = false;
        for word in text.split_whitespace() {
            if word == "raw" {
                is_raw = true;
            } else {
                self.push_word(alloc, &mut bytes, word, is_raw)?;
            }
        }
        Ok(bytes)
    }

    /// Appends the units of a name, or the unit that is written here, as often as the word says.
    fn push_word(
        &self,
        alloc: Global,
        bytes: &mut Vec<u8>,
        word: &str,
        is_raw: bool,
    ) -> Result<(), RowError> {
        let (count, name) = counted(word, 'x')?;
        let units = units_bytes(alloc, self.units_of(name).unwrap_or(name), is_raw)?;
        push_times(bytes, units.as_slice(), count)
    }
}

/// Whether a line is empty or a comment.
fn is_note(line: &str) -> bool {
    line.is_empty() || line.starts_with('#')
}

/// The name of a row, and its columns behind it.
pub(crate) fn name_and_columns(line: &str) -> (&str, &str) {
    line.split_once(" | ").unwrap_or((line, ""))
}

/// The bytes of units, each behind a start code where it isn't raw.
fn units_bytes(alloc: Global, units: &str, is_raw: bool) -> Result<Vec<u8>, RowError> {
    let mut bytes = Vec::new(alloc);
    for unit in units.split_whitespace() {
        push_unit(alloc, &mut bytes, unit, is_raw)?;
    }
    Ok(bytes)
}

/// Appends a unit, behind a start code where it isn't raw.
fn push_unit(alloc: Global, bytes: &mut Vec<u8>, unit: &str, is_raw: bool) -> Result<(), RowError> {
    if !is_raw {
        bytes.extend_from_slice(&[0, 0, 0, 1])?;
    }
    push_parts(alloc, bytes, unit)
}

/// The bytes of parts with `+` between them, each in hexadecimal digits; `N*PART` is a part N times.
pub(crate) fn bytes_of(alloc: Global, parts: &str) -> Result<Vec<u8>, RowError> {
    let mut bytes = Vec::new(alloc);
    push_parts(alloc, &mut bytes, parts)?;
    Ok(bytes)
}

/// Appends the bytes of parts.
fn push_parts(alloc: Global, bytes: &mut Vec<u8>, parts: &str) -> Result<(), RowError> {
    for part in parts.split('+') {
        push_part(alloc, bytes, part)?;
    }
    Ok(())
}

/// Appends the bytes of a part.
fn push_part(alloc: Global, bytes: &mut Vec<u8>, part: &str) -> Result<(), RowError> {
    let (count, digits) = counted(part, '*')?;
    match hex::decode(alloc, digits) {
        Ok(piece) => push_times(bytes, piece.as_slice(), count),
        Err(_) => Err(RowError::Unreadable),
    }
}

/// Appends a piece so many times.
fn push_times(bytes: &mut Vec<u8>, piece: &[u8], count: u32) -> Result<(), RowError> {
    for _ in 0..count {
        bytes.extend_from_slice(piece)?;
    }
    Ok(())
}

/// The count before the sign, 1 where there is none, and what is counted.
fn counted(text: &str, sign: char) -> Result<(u32, &str), RowError> {
    match text.split_once(sign) {
        Some((count, rest)) => Ok((number_of(count)?, rest)),
        None => Ok((1, text)),
    }
}

/// A number in decimal digits.
pub(crate) fn number_of(text: &str) -> Result<u32, RowError> {
    match text.parse() {
        Ok(number) => Ok(number),
        Err(_) => Err(RowError::Unreadable),
    }
}

/// The words of a command line, in which `each` stands for this word; none for `-`.
pub(crate) fn words_of(alloc: Global, text: &str, each: &str) -> Result<Vec<String>, RowError> {
    let mut words = Vec::new(alloc);
    for word in text.split_whitespace() {
        if word != "-" {
            let word = if word == "each" { each } else { word };
            words.push(String::from_str(alloc, word)?)?;
        }
    }
    Ok(words)
}

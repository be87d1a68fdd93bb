//! Lines of fields: a name and a value.

use std::fmt::Display;
use std::io::{self, Write};

/// Prints these fields of a structure on a line each, a flag as 0 or 1.
macro_rules! fields {
    ($lines:expr, $of:expr; $($name:ident),+ $(,)?) => {
        $lines.fields(&[$(stringify!($name)),+], &[$(i64::from($of.$name)),+])
    };
}

pub(crate) use fields;

/// Lines on a writer, up to the first that it doesn't take.
#[derive(Drop)]
pub(crate) struct Lines<'a, W: Write> {
    out: &'a mut W,
    /// The writer's error, behind which nothing is written.
    result: io::Result<()>,
}

impl<'a, W: Write> Lines<'a, W> {
    /// Before the first line.
    pub(crate) fn new(out: &'a mut W) -> Lines<'a, W> {
        Lines {
            out,
            result: Ok(()),
        }
    }

    /// The writer's error, if it had one.
    pub(crate) fn finish(self) -> io::Result<()> {
        self.result
    }

    /// Fields of these names and values, on a line each.
    pub(crate) fn fields(&mut self, names: &[&str], values: &[i64]) {
        for (name, value) in names.iter().zip(values) {
            self.number(*name, *value);
        }
    }

    /// A field's value on a line of its own.
    pub(crate) fn number<T: Display + Copy>(&mut self, name: &str, value: T) {
        if self.result.is_ok() {
            self.result = writeln!(self.out, "{name}={value}");
        }
    }

    /// A flag as 0 or 1.
    pub(crate) fn flag(&mut self, name: &str, value: bool) {
        self.number(name, u32::from(value));
    }

    /// A field of an item of a list.
    pub(crate) fn item<T: Display + Copy>(&mut self, name: &str, index: usize, value: T) {
        if self.result.is_ok() {
            self.result = writeln!(self.out, "{name}[{index}]={value}");
        }
    }

    /// A part of a line: a value and what stands behind it.
    pub(crate) fn part<T: Display + Copy>(&mut self, value: T, behind: &str) {
        if self.result.is_ok() {
            self.result = write!(self.out, "{value}{behind}");
        }
    }

    /// A part of a line without a value.
    pub(crate) fn text(&mut self, text: &str) {
        if self.result.is_ok() {
            self.result = self.out.write_all(text.as_bytes());
        }
    }
}

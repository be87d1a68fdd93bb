//! What the words of a row ask of a session.

use crate::byte_text::number_of;
use crate::row_error::RowError;
use command_line::{Form, Options, Session};
use std::alloc::{AllocError, Global};

/// What the words of a row ask of a session.
#[derive(Clone, Copy)]
pub(crate) struct Asked {
    form: Form,
    hash: bool,
    workers: u32,
    ahead: u32,
}

impl Asked {
    /// What these words ask for, the words of a command line that isn't faulty; `None` where they don't decode.
    pub(crate) fn read(words: &[String]) -> Result<Option<Asked>, RowError> {
        let Some(form) = form_of(words) else {
            return Ok(None);
        };
        let mut asked = Asked {
            form,
            hash: true,
            workers: 4,
            ahead: 4,
        };
        let mut before = "";
        for word in words {
            asked.take(before, word.as_str())?;
            before = word.as_str();
        }
        Ok(Some(asked))
    }

    /// Takes a word behind another.
    fn take(&mut self, before: &str, word: &str) -> Result<(), RowError> {
        if word == "--no-hash" {
            self.hash = false;
        }
        if let Some(number) = value_of("--workers", before, word) {
            self.workers = number_of(number)?;
        }
        if let Some(number) = value_of("--ahead", before, word) {
            self.ahead = number_of(number)?;
        }
        Ok(())
    }

    /// A session that was given nothing.
    pub(crate) fn session(self, alloc: Global) -> Result<Session, AllocError> {
        Session::new(
            alloc,
            Options {
                workers: self.workers.max(1).min(64),
                ahead: self.ahead.max(1).min(16),
                hash: self.hash,
                form: self.form,
            },
        )
    }

    /// The most plans that a session may hold.
    pub(crate) fn ahead(self) -> u32 {
        self.ahead
    }
}

/// What a word behind another gives to the option of a name: it stands behind the name, or behind the name and a sign.
fn value_of<'a>(name: &str, before: &str, word: &'a str) -> Option<&'a str> {
    if before == name {
        return Some(word);
    }
    word.strip_prefix(name)?.strip_prefix("=")
}

/// What is written of each picture, by the first of the words; `None` where they don't decode.
fn form_of(words: &[String]) -> Option<Form> {
    match words.first()?.as_str() {
        "decode" => Some(Form::I420),
        "hash" => Some(Form::Hash),
        "list" => Some(Form::List),
        _ => None,
    }
}

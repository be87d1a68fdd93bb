//! What the program does with its words: it decodes a stream or makes one, and tells how that ended.
#![tactic(auto)]

mod growing_sink;
mod laws;
mod line;
mod line_text;
mod program;
mod request;
mod slice_source;
mod summary;
mod summary_line;
mod words;

pub use decoder::{Form, Options, Session};
pub use program::run;
pub use request::{MakeOptions, Request};

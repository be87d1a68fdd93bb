//! What a framer answers.

use hv_base::{Fault, Limit, Nal};

/// What stands next in a byte stream.
#[derive(Debug, Drop)]
pub enum Next {
    /// A unit that is whole.
    Unit(Nal),
    /// The first broken rule.
    Fault(Fault),
    /// The limit that is met before a rule is broken.
    Limit(Limit),
    /// Nothing is whole before more bytes come.
    More,
    /// The input ends, and all its units were given.
    End,
}

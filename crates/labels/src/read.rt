//! A label that was read.
use crate::parts::Parts;

/// Its kind, and its parts as the block has them.
// A variant for each kind, for code that goes by the kind of what was read: a header begins a section,
// and each trailer ends it in its own way.
#[derive(Clone, Copy)]
pub enum LabelRef<'a> {
    Hdr(Parts<'a>),
    Etr(Parts<'a>),
    Eov(Parts<'a>),
    Eof(Parts<'a>),
}

pub mod parse;

//! Items: a tape mark, or a block of 1 to 256 bytes.
ghost use Rattle.std.specs.Prelude.{◌≡◌, is_some, unwrap_or};
ghost use Rattle.tape.specs.Items.{item_of, proper, short};
ghost use Rattle.tape.specs.Tape.{takes_item};

use crate::bounds::{LONGEST_BLOCK, LONGEST_LABEL, WRITES_AFTER};

/// An item that is given to be recorded; the bytes stay the caller's.
// No Option, nor is Kind: None would not say that the item is a mark.
#[derive(Clone, Copy)]
pub enum ItemRef<'a> {
    Mark,
    Block(&'a [u8]),
}

/// What a look tells of an item: its kind and, of a block, its length in bytes.
#[derive(Clone, Copy, PartialEq, Eq, Debug)]
pub enum Kind {
    Mark,
    Block(usize),
}

impl ItemRef<'_> {
    /// Whether it is an item at all: a mark, or a block of 1 to 256 bytes.
    pub fn is_proper(self) -> bool
        ensures { result ≡ proper (item_of self.entry) }
    {
        match self {
            ItemRef::Mark => true,
            ItemRef::Block(bytes) => (1..=LONGEST_BLOCK).contains(&bytes.len()),
        }
    }

    /// Whether it is a mark or a block no longer than a label, 32 bytes.
    pub fn is_short(self) -> bool
        ensures { result ≡ short (item_of self.entry) }
    {
        match self {
            ItemRef::Mark => true,
            ItemRef::Block(bytes) => bytes.len() <= LONGEST_LABEL,
        }
    }

    /// Whether a track takes it: one that has not met its marker, or that has taken so many writes since.
    pub fn is_taken(self, since: Option<usize>) -> bool
        ensures { result ≡ takes_item (is_some since) (unwrap_or since 0) (item_of self.entry) }
    {
        match since {
            None => self.is_proper(),
            Some(since) => self.is_proper() && since < WRITES_AFTER && self.is_short(),
        }
    }
}

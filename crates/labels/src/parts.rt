//! The parts of a label behind its kind, borrowed from the block that was read.

/// The parts of a label, in the order of the layout.
// No Debug, here and of LabelRef: it would add a half to the time of the crate's check.
#[derive(Clone, Copy)]
pub struct Parts<'a> {
    pub volume: &'a [u8; 4],
    pub file: &'a [u8; 8],
    pub section: &'a [u8; 2],
    pub created: &'a [u8; 5],
    pub retention: &'a [u8; 3],
    pub count: &'a [u8; 4],
    pub code: &'a [u8; 1],
    pub user: &'a [u8; 4],
}

pub mod found;
pub mod told;

//! The line of an item.
ghost use Rattle.tape.specs.Items.{item_of};
ghost use Rattle.labels.specs.Reading.{reading};
ghost use Rattle.inspection.specs.Items.{block_text, item_text, item_line};

use crate::data::Data;
use crate::told::{Named, Told};
use figures::decimal::decimal;
use labels::read::parse::parse;
use std::alloc::AllocError;
use tape::item::ItemRef;
use tape::place::Place;

// A block, which is a label or data.
#[derive(Clone, Copy)]
struct Block<'a>(&'a [u8]);

impl Told for Block<'_> {
    ghost text = { λ s. block_text (reading s.0.now) s.0.now };

    fn tell(&self, out: &mut Vec<u8>) -> Result<(), AllocError> {
        match parse(self.0) {
            Ok(label) => label.tell(out),
            Err(_) => Data(self.0).tell(out),
        }
    }
}

impl Told for ItemRef<'_> {
    ghost text = { λ i. item_text (item_of i) };

    fn tell(&self, out: &mut Vec<u8>) -> Result<(), AllocError> {
        match *self {
            ItemRef::Mark => b" mark\n".tell(out),
            ItemRef::Block(bytes) => {
                Named(b" block ", &decimal::<3>(bytes.len())).tell(out)?;
                Block(bytes).tell(out)
            }
        }
    }
}

/// The line of the item at the place.
#[derive(Clone, Copy)]
pub(crate) struct ItemLine<'a> {
    pub(crate) place: Place,
    pub(crate) item: ItemRef<'a>,
}

impl Told for ItemLine<'_> {
    ghost text = { λ s. item_line s.place (item_of s.item) };

    fn tell(&self, out: &mut Vec<u8>) -> Result<(), AllocError> {
        self.place.tell(out)?;
        self.item.tell(out)
    }
}

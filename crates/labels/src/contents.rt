//! What a label says.
ghost use Rattle.std.specs.Prelude.{◌≡◌};
ghost use Rattle.labels.specs.Contents.{lawful_volume, lawful_contents};

use crate::characters::CharSet;
use crate::fields::Fields;
use crate::kind::LabelKind;

/// The greatest section number: two digits.
const LAST_SECTION: u8 = 99;

/// The greatest block count: four digits.
const LAST_COUNT: u16 = 9999;

/// All that a label says: what one is made of, and what reading it gives back.
#[derive(Clone, Copy, PartialEq, Eq, Debug)]
pub struct Contents {
    pub kind: LabelKind,
    /// the volume: a characters
    pub volume: [u8; 4],
    pub fields: Fields,
    /// the section number: at most 99
    pub section: u8,
    /// the block count: at most 9,999, and 0 in a header
    pub count: u16,
}

/// Whether the volume is four a characters.
pub(crate) fn is_volume(volume: [u8; 4]) -> bool
    ensures { result ≡ lawful_volume volume }
{
    CharSet::Text.has_all(&volume)
}

impl Contents {
    /// Whether a label can say this.
    pub fn is_lawful(&self) -> bool
        ensures { result ≡ lawful_contents self.now }
    {
        is_volume(self.volume)
            && self.fields.are_lawful()
            && self.section <= LAST_SECTION
            && self.count <= LAST_COUNT
            && self.kind.allows(self.count)
    }
}

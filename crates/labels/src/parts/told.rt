//! What the parts tell.
ghost use Rattle.std.specs.Prelude.{◌≡◌};
ghost use Rattle.labels.specs.Characters.{number};
ghost use Rattle.labels.specs.Layout.{lawful_parts};
ghost use Rattle.labels.specs.Reading.{held, fields_of};

use crate::characters::{CharSet, is_date, number};
use crate::fields::Fields;
use crate::parts::Parts;

impl Parts<'_> {
    /// The volume, copied out of the block.
    pub fn volume(&self) -> [u8; 4]
        ensures { result ≡ (held self.now).volume }
    {
        *self.volume
    }

    /// The header fields, copied out of the block.
    pub fn fields(&self) -> Fields
        ensures { result ≡ fields_of (held self.now) }
    {
        Fields {
            file: *self.file,
            created: *self.created,
            retention: *self.retention,
            code: self.code[0],
            user: *self.user,
        }
    }

    /// The section number.
    pub fn section(&self) -> u8
        ensures { result ≡ number (held self.now).section }
    {
        // by a name: the check lends no slice straight from a field that is a reference
        let digits = self.section;
        number(digits) as u8
    }

    /// The block count.
    pub fn count(&self) -> u16
        ensures { result ≡ number (held self.now).count }
    {
        let digits = self.count;
        number(digits)
    }

    /// Whether each part is lawful.
    // In the layout's order, as in `lawful_parts`; by `Fields::are_lawful` the check finds no proof.
    pub(crate) fn are_lawful(&self) -> bool
        ensures { result ≡ lawful_parts (held self.now) }
    {
        let Parts {
            volume,
            file,
            section,
            created,
            retention,
            count,
            code,
            user,
        } = *self;
        CharSet::Text.has_all(volume)
            && CharSet::Text.has_all(file)
            && CharSet::Digits.has_all(section)
            && is_date(created)
            && CharSet::Digits.has_all(retention)
            && CharSet::Digits.has_all(count)
            && CharSet::Digits.has_all(code)
            && CharSet::Text.has_all(user)
    }
}

//! The fields that a file is begun with.
ghost use Rattle.std.specs.Prelude.{◌≡◌, Decides};
ghost use Rattle.labels.specs.Fields.{lawful_fields, same_fields};

use crate::characters::{CharSet, is_date, is_n_character};

/// The header fields of a file, as the characters of its labels.
#[derive(Clone, Copy, PartialEq, Eq, Debug)]
pub struct Fields {
    /// the file identifier: a characters
    pub file: [u8; 8],
    /// the creation date: YYDDD, or 00000
    pub created: [u8; 5],
    /// the days of retention: n characters
    pub retention: [u8; 3],
    /// the data code: an n character
    pub code: u8,
    /// for the user: a characters
    pub user: [u8; 4],
}

impl Fields {
    /// Whether each field is made of lawful characters, and the date is lawful.
    pub(crate) fn are_lawful(&self) -> bool
        ensures { result ≡ lawful_fields self.now }
    {
        CharSet::Text.has_all(&self.file)
            && is_date(&self.created)
            && CharSet::Digits.has_all(&self.retention)
            && is_n_character(self.code)
            && CharSet::Text.has_all(&self.user)
    }

    /// Whether each field has the same characters, which is what `==` decides.
    pub fn agrees(&self, other: &Fields) -> bool
        ensures same { result ≡ same_fields self.now other.now }
        ensures equal { Decides result (self.now ≡ other.now) }
    {
        self == other
    }
}

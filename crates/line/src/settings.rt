//! The settings of a line transport.
ghost use Rattle.std.specs.Prelude.{◌≡◌};
ghost use Rattle.line.specs.Settings.{lawful_settings};

use tape::bounds::{FIRST_MARKER, LAST_MARKER, is_size};

/// What a line transport is made for.
#[derive(Clone, Copy, PartialEq, Eq, Debug)]
pub struct Settings {
    /// The tracks of a volume: 1 or 2.
    pub tracks: usize,
    /// The volumes in all, 1 to 49, the first of them mounted from the start.
    pub volumes: usize,
    /// The write that meets each track's marker: 3 to 60,000.
    pub marker: usize,
    /// The room for the text, in bytes.
    pub room: usize,
}

impl Settings {
    /// Whether each setting is in its range.
    pub(crate) fn is_lawful(&self) -> bool
        ensures { result ≡ lawful_settings self.now }
    {
        is_size(self.tracks, self.volumes) && (FIRST_MARKER..=LAST_MARKER).contains(&self.marker)
    }
}

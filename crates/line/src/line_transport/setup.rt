//! A line transport is made, erased, and asked for what it holds.
ghost use Rattle.std.specs.Prelude.{◌≡◌, ◌<◌, [], length};
ghost use Rattle.tape.specs.Tape.{Exactly, fresh};
ghost use Rattle.line_text.specs.Layout.{text_of};
ghost use Rattle.line.specs.Meaning.{line_tape, settings_of};
ghost use Rattle.line.specs.Setup.{Made, sought};
ghost use Rattle.line.specs.Steps.{Becomes};

use super::{Head, LineTransport};
use crate::settings::Settings;
use crate::text::put_blanks;
use std::alloc::Global;
use tape::refusal::{Reason, SetupError};

impl LineTransport {
    /// A new transport, its first volume mounted and blank. All its memory is obtained here.
    pub fn new(heap: Global, settings: Settings) -> Result<LineTransport, SetupError>
        ensures { Made settings result }
    {
        if !settings.is_lawful() {
            return Err(SetupError::Refused(Reason::Unlawful.nowhere()));
        }
        let text = Vec::with_capacity(heap, settings.room)?;
        let mut spans = Vec::with_capacity(heap, settings.volumes * settings.tracks)?;
        put_blanks(&mut spans, settings.tracks);
        Ok(LineTransport {
            text,
            spans,
            settings,
            head: Head::start_of(0, 0),
            last: 0,
            failed: false,
        })
    }

    // Blank again, as it was made: as in `new`, but the memory stays.
    pub(super) fn erase(&mut self)
        ensures becomes { Becomes self.old self.new (fresh self.old.settings.tracks self.old.settings.volumes) }
        ensures text { self.new.text.items ≡ [] }
        ensures last { self.new.last ≡ self.new.head.at }
    {
        self.text.clear();
        self.spans.clear();
        put_blanks(&mut self.spans, self.settings.tracks);
        self.head = Head::start_of(0, 0);
        self.last = 0;
        self.failed = false;
    }

    /// Its text: the lines of its items, track by track and volume by volume.
    pub fn text(&self) -> &[u8]
        ensures { result.now ≡ text_of (line_tape self.now) }
    {
        self.text.as_slice()
    }

    /// The number of tracks of all volumes that it has.
    pub fn all_tracks(&self) -> usize
        ensures { result ≡ length (line_tape self.now).image }
    {
        self.spans.len()
    }

    /// The head goes to the first item of a track, counted from 0 over all volumes: a way to look
    /// behind blank tracks, which the interface has not. Tells whether the track is there.
    // A bool: it is what `following` answers too.
    pub fn seek_track(&mut self, k: usize) -> bool
        ensures found { Exactly (sought (line_tape self.old) k) (result, line_tape self.new) }
        ensures settings { settings_of self.new ≡ settings_of self.old }
    {
        if k >= self.spans.len() {
            return false;
        }
        self.head_to_track(k);
        true
    }
}

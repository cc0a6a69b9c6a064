//! The lines of the settings and of the totals, and the place that a line begins with.
ghost use Rattle.std.specs.Prelude.{◌<◌, ◌^◌};
ghost use Rattle.line_text.specs.Lines.{place_text};
ghost use Rattle.inspection.specs.Lines.{settings_line, counts_text, track_line, total_line};

use crate::told::{Named, Told};
use crate::totals::{Sums, Totals};
use figures::decimal::decimal;
use line_text::lines::place_text;
use std::alloc::AllocError;
use tape::place::Place;

/// The line of the settings: the tracks of a volume, the volumes that the text has, and its bytes.
#[derive(Clone, Copy)]
pub(crate) struct SettingsLine {
    pub(crate) tracks: usize,
    pub(crate) volumes: usize,
    pub(crate) bytes: usize,
}

impl Told for SettingsLine {
    ghost text = { λ s. settings_line s.tracks s.volumes s.bytes };

    fn tell(&self, out: &mut Vec<u8>) -> Result<(), AllocError> {
        b"settings".tell(out)?;
        Named(b" tracks=", &decimal::<1>(self.tracks)).tell(out)?;
        Named(b" volumes=", &decimal::<2>(self.volumes)).tell(out)?;
        Named(b" text=", &decimal::<10>(self.bytes)).tell(out)?;
        b"\n".tell(out)
    }
}

impl Told for Place {
    ghost text = { λ p. place_text p.volume p.track p.item };

    fn tell(&self, out: &mut Vec<u8>) -> Result<(), AllocError> {
        place_text(*self).tell(out)
    }
}

// Totals to a line's end: the counts in one width, and the bytes in a wider one. Digits of either
// width fit in memory.
#[derive(Clone, Copy)]
struct Counts<const W: usize, const WIDE: usize> {
    totals: Totals,
    ghost narrow: { W < 2 ^ 63 },
    ghost wide: { WIDE < 2 ^ 63 },
}

impl<const W: usize, const WIDE: usize> Told for Counts<W, WIDE> {
    ghost text = { λ s. counts_text s.totals W WIDE };

    fn tell(&self, out: &mut Vec<u8>) -> Result<(), AllocError> {
        let Totals {
            items,
            blocks,
            marks,
            bytes,
        } = self.totals;
        Named(b" items=", &decimal::<W>(items)).tell(out)?;
        Named(b" blocks=", &decimal::<W>(blocks)).tell(out)?;
        Named(b" marks=", &decimal::<W>(marks)).tell(out)?;
        Named(b" bytes=", &decimal::<WIDE>(bytes)).tell(out)?;
        b"\n".tell(out)
    }
}

/// The line of a track of a volume: its totals.
#[derive(Clone, Copy)]
pub(crate) struct TrackLine {
    pub(crate) volume: usize,
    pub(crate) track: usize,
    pub(crate) totals: Totals,
}

impl Told for TrackLine {
    ghost text = { λ s. track_line s.volume s.track s.totals };

    fn tell(&self, out: &mut Vec<u8>) -> Result<(), AllocError> {
        Named(b"track vol=", &decimal::<2>(self.volume)).tell(out)?;
        Named(b" track=", &decimal::<1>(self.track)).tell(out)?;
        Counts::<5, 8> {
            totals: self.totals,
        }
        .tell(out)
    }
}

impl Told for Sums {
    ghost text = { λ s. total_line s.tracks s.totals };

    fn tell(&self, out: &mut Vec<u8>) -> Result<(), AllocError> {
        b"total".tell(out)?;
        Named(b" tracks=", &decimal::<2>(self.tracks)).tell(out)?;
        Counts::<7, 10> {
            totals: self.totals,
        }
        .tell(out)
    }
}

//! What a track, or a whole set, amounts to.
ghost use Rattle.std.specs.Prelude.{◌≡◌, if◌then◌else◌, nat_eq};
ghost use Rattle.inspection.specs.Amounts.{sum, counted, together};

use tape::item::Kind;

/// How many items, of them blocks and marks, and the bytes of the blocks. A sum stops at the
/// greatest number, which no tape comes near.
#[derive(Clone, Copy, Default)]
pub(crate) struct Totals {
    pub(crate) items: usize,
    pub(crate) blocks: usize,
    pub(crate) marks: usize,
    pub(crate) bytes: usize,
}

impl Totals {
    /// The totals with one item more.
    // Not by `plus`: the totals of one item would be written out all the same.
    pub(crate) fn with(self, kind: Kind) -> Totals
        ensures { result ≡ counted self kind }
    {
        let items = self.items.saturating_add(1);
        match kind {
            Kind::Mark => Totals {
                items,
                marks: self.marks.saturating_add(1),
                ..self
            },
            Kind::Block(length) => Totals {
                items,
                blocks: self.blocks.saturating_add(1),
                bytes: self.bytes.saturating_add(length),
                ..self
            },
        }
    }

    /// The totals of these items and those. No `+`, which would hide that a sum stops.
    pub(crate) fn plus(self, other: Totals) -> Totals
        ensures { result ≡ together self other }
    {
        Totals {
            items: self.items.saturating_add(other.items),
            blocks: self.blocks.saturating_add(other.blocks),
            marks: self.marks.saturating_add(other.marks),
            bytes: self.bytes.saturating_add(other.bytes),
        }
    }
}

/// The totals of tracks, and how many of them have items.
#[derive(Clone, Copy, Default)]
pub(crate) struct Sums {
    pub(crate) totals: Totals,
    pub(crate) tracks: usize,
}

impl Sums {
    /// The sums with the totals of one track more.
    pub(crate) fn with_track(self, track: Totals) -> Sums
        ensures totals { result.totals ≡ together self.totals track }
        ensures tracks { result.tracks ≡ (if nat_eq track.items 0 then self.tracks else sum self.tracks 1) }
    {
        let tracks = if track.items == 0 {
            self.tracks
        } else {
            self.tracks.saturating_add(1)
        };
        Sums {
            totals: self.totals.plus(track),
            tracks,
        }
    }
}

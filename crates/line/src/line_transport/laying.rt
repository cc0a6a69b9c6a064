//! An item is put on its track, and its line at the text's end; for one that was recorded elsewhere
//! blank volumes are added until the track is there.
ghost use Rattle.std.specs.Prelude.{◌≡◌, ◌+◌, ◌-◌, ◌*◌, ◌/◌, ◌<◌, ◌≤◌, true, ◌&&◌, ◌++◌, length, slice_index_or};
ghost use Rattle.tape.specs.Items.{item_of};
ghost use Rattle.tape.specs.Tape.{blank_track};
ghost use Rattle.line_text.specs.Lines.{line_size};
ghost use Rattle.line.specs.Meaning.{line_tape};
ghost use Rattle.line.specs.Taken.{track_named, goes_on, grown_tape, line_on};
ghost use Rattle.line.specs.Steps.{Becomes, Fits, with_item};

use super::{Head, LineTransport};
use crate::text::{put_blanks, put_line};
use line_text::lines::{track_of_line, volume_of_line};
use line_text::span::Span;
use tape::bounds::MOST_ITEMS;
use tape::item::ItemRef;

impl LineTransport {
    // The index of the track that a line names.
    pub(super) fn named_track(&self, line: &[u8]) -> usize
        ensures { result ≡ track_named self.now.settings.tracks line.now }
    {
        volume_of_line(line).saturating_sub(1) * self.settings.tracks
            + track_of_line(line).saturating_sub(1)
    }

    // The number of a track's items; a track that is not there counts as blank.
    #[tactic(auto, using(crate::proofs::Facts::any_count))]
    pub(super) fn count_of(&self, k: usize) -> usize
        ensures { result ≡ length (slice_index_or (line_tape self.now).image k blank_track).items }
    {
        self.spans.get(k).copied().unwrap_or(Span::blank()).count
    }

    pub(super) fn goes_on(&self, k: usize) -> bool
        ensures { result ≡ goes_on self.now.settings.volumes (line_tape self.now) k }
    {
        k < self.settings.volumes * self.settings.tracks
            && self.head.at <= k
            && self.count_of(k) < MOST_ITEMS
    }

    pub(super) fn grow_to(&mut self, k: usize)
        requires { k < self.old.settings.volumes * self.old.settings.tracks }
        ensures becomes { Becomes self.old self.new (grown_tape self.old.settings.volumes (line_tape self.old) k) }
        ensures inside { k < length self.new.spans.items }
        ensures text { self.new.text.items ≡ self.old.text.items }
        ensures last { self.new.last ≡ self.old.last }
    {
        let there = (k / self.settings.tracks + 1) * self.settings.tracks;
        let more = there.saturating_sub(self.spans.len());
        put_blanks(&mut self.spans, more);
    }

    // The item is put behind those of a track, with the track's span then, and the head behind it.
    pub(super) fn put_item(&mut self, k: usize, item: ItemRef<'_>, span: Span)
        requires fits { Fits self.old k (item_of item) span }
        requires room { length self.old.text.items + line_size (item_of item) ≤ self.old.settings.room }
        ensures becomes { Becomes self.old self.new (with_item (line_tape self.old) k (item_of item.entry) span) }
        ensures text { self.new.text.items ≡ self.old.text.items ++ line_on (line_tape self.old) k (item_of item.entry) }
        ensures last { self.new.last ≡ k }
    {
        let place = self.place_of(k, span.count);
        put_line(&mut self.text, place, item);
        self.spans[k] = span;
        self.last = k;
        self.head = Head {
            at: k,
            item: span.count,
            pos: self.text.len(),
        };
    }
}

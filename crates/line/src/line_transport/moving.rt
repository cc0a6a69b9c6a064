//! The head goes to another track, and volumes are mounted.
ghost use Rattle.std.specs.Prelude.{◌≡◌, ◌+◌, ◌/◌, ◌%◌, ◌<◌, not, ◌&&◌, length, nat_lt};
ghost use Rattle.tape.specs.Tape.{at_end, on_last_track, no_items, here, next_volume, any_items, head_to, mounted};
ghost use Rattle.line.specs.Meaning.{line_tape};
ghost use Rattle.line.specs.Steps.{Becomes, span_at};

use super::{Head, LineTransport};
use crate::text::put_blanks;
use line_text::span::Span;
use tape::place::Place;
use tape::transport::Transport;

impl LineTransport {
    // The span of a track that is mounted.
    pub(super) fn span(&self, k: usize) -> Span
        requires { k < length self.now.spans.items }
        ensures { result ≡ span_at self.now k }
    {
        self.spans[k]
    }

    // The place of an item of a track that is mounted.
    pub(super) fn place_of(&self, k: usize, item: usize) -> Place
        requires { k < length self.now.spans.items }
        ensures { result ≡ record { volume = k / self.now.settings.tracks + 1; track = k % self.now.settings.tracks + 1; item = item } }
    {
        Place {
            volume: k / self.settings.tracks + 1,
            track: k % self.settings.tracks + 1,
            item,
        }
    }

    // The head goes to the first item of a track that is mounted.
    pub(super) fn head_to_track(&mut self, k: usize)
        requires { k < length self.old.spans.items }
        ensures { Becomes self.old self.new (head_to (line_tape self.old) k 0) }
    {
        self.head = Head::start_of(k, self.span(k).start);
    }

    #[tactic(auto, using(crate::proofs::Facts::end_of))]
    pub(super) fn is_at_end(&self) -> bool
        ensures { result ≡ at_end (line_tape self.now) }
    {
        self.is_past_track() && self.last <= self.head.at
    }

    pub(super) fn is_on_last_track(&self) -> bool
        ensures { result ≡ on_last_track (line_tape self.now) }
    {
        (self.head.at + 1) % self.settings.tracks == 0
    }

    #[tactic(auto, using(crate::proofs::Facts::some_of))]
    pub(super) fn has_next_track(&self) -> bool
        ensures { result ≡ (not (no_items (here (line_tape self.now)).items) && not (on_last_track (line_tape self.now))) }
    {
        0 < self.span(self.head.at).count && !self.is_on_last_track()
    }

    // The index of the next volume's first track. No method of the settings, which have no invariant.
    pub(super) fn next_volume(&self) -> usize
        ensures { result ≡ next_volume (line_tape self.now) }
    {
        (self.head.at / self.settings.tracks + 1) * self.settings.tracks
    }

    // The volumes still to be mounted.
    fn left(&self) -> usize
        ensures { result ≡ (line_tape self.now).left }
    {
        self.settings.volumes - self.spans.len() / self.settings.tracks
    }

    pub(super) fn can_mount(&self) -> bool
        ensures { result ≡ (any_items (line_tape self.now) && at_end (line_tape self.now) && on_last_track (line_tape self.now) && nat_lt 0 (line_tape self.now).left) }
    {
        self.has_items() && self.is_at_end() && self.is_on_last_track() && 0 < self.left()
    }

    // A blank volume more, with the head on its first track.
    pub(super) fn add_volume(&mut self)
        requires { 0 < (line_tape self.old).left }
        ensures { Becomes self.old self.new (mounted (line_tape self.old)) }
    {
        self.head = Head::start_of(self.spans.len(), 0);
        put_blanks(&mut self.spans, self.settings.tracks);
    }
}

//! The line at the head is read, and passed.
ghost use Rattle.std.specs.Prelude.{◌≡◌, ℕ, ◌==◌, suc, ◌+◌, ◌*◌, ◌≤◌, List, ◌++◌, is_some, MatchOption};
ghost use Rattle.std.specs.Option.{option_map};
ghost use Rattle.tape.specs.Items.{kind_of};
ghost use Rattle.tape.specs.Tape.{head_place, next_item, head_to, fits_in, filled};
ghost use Rattle.line_text.specs.Lines.{line, line_size};
ghost use Rattle.line.specs.Meaning.{line_tape};
ghost use Rattle.line.specs.Ahead.{HasNext, next};
ghost use Rattle.line.specs.Steps.{Becomes, span_at};

use super::LineTransport;
use line_text::lines::{copy_block, kind_of_line};
use tape::item::Kind;

impl LineTransport {
    // Whether the head has passed every item of its track.
    pub(super) fn is_past_track(&self) -> bool
        ensures { result ≡ (self.now.head.item == (span_at self.now self.now.head.at).count) }
    {
        self.head.item == self.span(self.head.at).count
    }

    // The kind and length of the next item, or that the track has no more.
    #[tactic(auto, using(crate::specs::Sound::here_count, std::proofs::lemmas::Bool::Decides::nat_tests))]
    pub(super) fn next_kind(&self) -> Option<Kind>
        ensures { result ≡ option_map kind_of (next_item (line_tape self.now)) }
    {
        // no `then`: its closure would owe that an item comes next
        if self.is_past_track() {
            return None;
        }
        Some(kind_of_line(self.next_line()))
    }

    // The text from the next item's line on.
    fn next_line(&self) -> &[u8]
        requires { HasNext self.now }
        ensures { let place = head_place (line_tape self.now) in (rest : List ℕ) × (result.now ≡ line place.volume place.track place.item (next self.now) ++ rest) }
    {
        &self.text[self.head.pos..]
    }

    // The bytes of the item there, which a block alone has, go to the front of a buffer that is long
    // enough for them.
    pub(super) fn copy_bytes(&self, kind: Kind, buffer: &mut [u8]) -> Option<()>
        requires there { HasNext self.now }
        requires kind { kind_of (next self.now) ≡ kind }
        ensures told { is_some result ≡ fits_in (next self.now) buffer.old }
        ensures bytes { MatchOption result (buffer.new ≡ buffer.old) (λ _. buffer.new ≡ filled buffer.old (next self.now)) }
    {
        match kind {
            Kind::Mark => Some(()),
            Kind::Block(size) => copy_block(self.next_line(), size, buffer),
        }
    }

    // The head passes the item there, whose line has so many bytes.
    #[tactic(auto, using(crate::proofs::Facts::item_there))]
    pub(super) fn pass(&mut self, bytes: usize)
        requires there { HasNext self.old }
        requires size { bytes ≡ line_size (next self.old) }
        ensures { Becomes self.old self.new (head_to (line_tape self.old) self.old.head.at (suc self.old.head.item)) }
    {
        self.head.item += 1;
        self.head.pos += bytes;
    }
}

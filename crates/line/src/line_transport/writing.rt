//! An item is recorded as a line at the text's end.
ghost use Rattle.std.specs.Prelude.{◌≡◌, ◌+◌, ◌≤◌, true, ◌&&◌, length, nat_le};
ghost use Rattle.tape.specs.Items.{item_of};
ghost use Rattle.tape.specs.Tape.{at_end, takes, here, recorded, written};
ghost use Rattle.line_text.specs.Lines.{line_size};
ghost use Rattle.line.specs.Meaning.{line_tape, line_choice};
ghost use Rattle.line.specs.Steps.{Becomes};

use super::LineTransport;
use line_text::lines::fits;
use tape::item::ItemRef;

impl LineTransport {
    // Whether a write of this item applies here.
    pub(super) fn can_record(&self, item: ItemRef<'_>) -> bool
        ensures { result ≡ (at_end (line_tape self.now) && takes (here (line_tape self.now)) (item_of item.entry)) }
    {
        let span = self.span(self.head.at);
        self.is_at_end() && item.is_taken(span.marked.then_some(span.since))
    }

    // Whether its line fits the text.
    pub(super) fn has_room(&self, item: ItemRef<'_>) -> bool
        ensures { result ≡ nat_le (length self.now.text.items + line_size (item_of item.entry)) self.now.settings.room }
    {
        fits(item, self.settings.room - self.text.len())
    }

    // Records it; tells whether the track's marker is met.
    pub(super) fn record(&mut self, item: ItemRef<'_>) -> bool
        requires applies { (at_end (line_tape self.old) && takes (here (line_tape self.old)) (item_of item)) ≡ true }
        requires room { length self.old.text.items + line_size (item_of item) ≤ self.old.settings.room }
        ensures answer { result ≡ (recorded (line_choice self.old (item_of item.entry)) (here (line_tape self.old)) (item_of item.entry)).marked }
        ensures becomes { Becomes self.old self.new (written (line_choice self.old (item_of item.entry)) (line_tape self.old) (item_of item.entry)) }
    {
        let k = self.head.at;
        let span = self
            .span(k)
            .with_one_more(self.text.len(), self.settings.marker);
        self.put_item(k, item, span);
        span.marked()
    }
}

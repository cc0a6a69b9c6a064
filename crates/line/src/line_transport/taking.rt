//! A recorded text is taken, line by line.
ghost use Rattle.std.specs.Prelude.{◌≡◌, true, ◌&&◌, length, take, drop, MatchOption, OnOk};
ghost use Rattle.std.specs.Str.{bytes_eq};
ghost use Rattle.tape.specs.Items.{block, item_of, proper};
ghost use Rattle.tape.specs.Tape.{Exactly};
ghost use Rattle.line_text.specs.Lines.{item_in, unhexed};
ghost use Rattle.line_text.specs.Layout.{text_of};
ghost use Rattle.line.specs.Meaning.{line_tape, settings_of};
ghost use Rattle.line.specs.Taken.{track_named, goes_on, lawful_line, is_own_line, rewound, taken, outcome};
ghost use Rattle.line.specs.Steps.{Awaits, Took};

use super::LineTransport;
use line_text::lines::{copy_block, fits, kind_of_line};
use tape::bounds::LONGEST_BLOCK;
use tape::item::{ItemRef, Kind};
use tape::refusal::{Reason, Refusal};

impl LineTransport {
    // The item is laid on its track, and its line compared with the one that told it.
    fn take_item(&mut self, line: &[u8], k: usize, item: ItemRef<'_>) -> Option<()>
        requires goes { goes_on self.old.settings.volumes (line_tape self.old) k ≡ true }
        requires awaits { Awaits self.old line.now }
        requires item { proper (item_of item) ≡ true }
        ensures { Took self.old self.new (is_own_line (line_tape self.old) k (item_of item.entry) line.now) k (item_of item.entry) result }
    {
        if !fits(item, line.len()) {
            return None;
        }
        self.grow_to(k);
        let end = self.text.len();
        let span = self.span(k).with_one_recorded(end);
        self.put_item(k, item, span);
        line.starts_with(&self.text[end..]).then_some(())
    }

    // A line that tells a block of this size.
    fn take_block(&mut self, line: &[u8], k: usize, size: usize) -> Option<()>
        requires goes { goes_on self.old.settings.volumes (line_tape self.old) k ≡ true }
        requires awaits { Awaits self.old line.now }
        ensures { let told = block (unhexed size (drop 50 line.now)) in Took self.old self.new (proper told && is_own_line (line_tape self.old) k told line.now) k told result }
    {
        if size == 0 {
            return None;
        }
        let mut bytes = [0u8; LONGEST_BLOCK];
        copy_block(line, size, &mut bytes)?;
        self.take_item(line, k, ItemRef::Block(&bytes[..size]))
    }

    // One line of a recorded text.
    fn take_line(&mut self, line: &[u8]) -> Option<()>
        requires { Awaits self.old line.now }
        ensures { Took self.old self.new (lawful_line self.old.settings.volumes (line_tape self.old) line.now) (track_named self.old.settings.tracks line.now) (item_in line.now) result }
    {
        let k = self.named_track(line);
        if !self.goes_on(k) {
            return None;
        }
        match kind_of_line(line) {
            Kind::Mark => self.take_item(line, k, ItemRef::Mark),
            Kind::Block(size) => self.take_block(line, k, size),
        }
    }

    // A recorded text in place of what was there, with the head behind its last line. An Option: whatever
    // is wrong, `take` has one reason for it.
    fn take_lines(&mut self, source: &[u8]) -> Option<()>
        ensures tape { MatchOption result (taken (settings_of self.old) source.now ≡ None) (λ _. taken (settings_of self.old) source.now ≡ rewound (Some (line_tape self.new))) }
        ensures text { MatchOption result (Unit {0}) (λ _. text_of (line_tape self.new) ≡ source.now) }
        ensures settings { settings_of self.new ≡ settings_of self.old }
    {
        self.erase();
        if source.len() > self.settings.room {
            return None;
        }
        while self.text.len() < source.len() {
            let from = self.text.len();
            self.take_line(&source[from..])?;
        }
        Some(())
    }

    /// Takes a recorded text to be read, in place of what was there; the head goes to the first item.
    /// Text that is not whole items in order, or that goes beyond the settings, is refused and leaves
    /// the tape blank.
    pub fn take(&mut self, source: &[u8]) -> Result<(), Refusal>
        ensures outcome { Exactly (outcome (settings_of self.old) (taken (settings_of self.old) source.now)) (result, line_tape self.new) }
        ensures text { OnOk result (text_of (line_tape self.new) ≡ source.now) }
        ensures settings { settings_of self.new ≡ settings_of self.old }
    {
        if self.take_lines(source).is_none() {
            self.erase();
            return Err(Reason::Unlawful.nowhere());
        }
        self.head_to_track(0);
        Ok(())
    }
}

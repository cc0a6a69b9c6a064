//! The line transport as a transport. Beyond the interface it promises which write meets a track's
//! marker, that a write fails exactly where its line does not fit the text, and that nothing else
//! ever fails.
// The clauses `exact` and `settings` stand on each function: they are of two states, which no invariant
// is. A Model would forget the invariant, and `sound` speaks of every value.
ghost use Rattle.std.specs.Prelude.{◌≡◌, true, false, ◌⊎◌, MatchResult};
ghost use Rattle.tape.specs.Items.{item_of};
ghost use Rattle.tape.specs.Tape.{Does, Exactly, write, next_track, mount, following, rewind, look, read, head_place, marker_met, any_items};
ghost use Rattle.line.specs.Meaning.{line_tape, line_choice, settings_of, sure};
ghost use Rattle.line.specs.Sound.{sound_of};

use super::LineTransport;
use line_text::lines::size_of_line;
use tape::item::{ItemRef, Kind};
use tape::place::Place;
use tape::transport::{Fault, Transport};

impl LineTransport {
    // A function goes on only where it applies, here and in a transport that has not failed: as in
    // `attempt`, `here` is true of those that only a failure turns down. Where `here` takes work, the
    // failure is asked first by itself, so that a transport that has failed works nothing out.
    fn applies(&self, here: bool) -> Result<(), Fault>
        ensures { MatchResult result (λ _. (self.now.failed ≡ false) × (here ≡ true)) (λ fault. (fault ≡ Fault.TurnedDown) × ((self.now.failed ≡ true) ⊎ (here ≡ false))) }
    {
        if self.failed || !here {
            return Err(Fault::TurnedDown);
        }
        Ok(())
    }
}

impl Transport for LineTransport {
    ghost tape = { line_tape };

    ghost sound = { sound_of };

    fn write(&mut self, item: ItemRef<'_>) -> Result<bool, Fault>
        ensures does { Does (λ c. write c (line_tape self.old) (item_of item.entry)) (result, line_tape self.new) }
        ensures exact { Exactly (write (line_choice self.old (item_of item.entry)) (line_tape self.old) (item_of item.entry)) (result, line_tape self.new) }
        ensures settings { settings_of self.new ≡ settings_of self.old }
    {
        self.applies(true)?;
        self.applies(self.can_record(item))?;
        if !self.has_room(item) {
            self.failed = true;
            return Err(Fault::Failed);
        }
        Ok(self.record(item))
    }

    fn next_track(&mut self) -> Result<(), Fault>
        ensures does { Does (λ c. next_track c (line_tape self.old)) (result, line_tape self.new) }
        ensures exact { Exactly (next_track sure (line_tape self.old)) (result, line_tape self.new) }
        ensures settings { settings_of self.new ≡ settings_of self.old }
    {
        self.applies(true)?;
        self.applies(self.has_next_track())?;
        self.head_to_track(self.head.at + 1);
        Ok(())
    }

    fn mount(&mut self) -> Result<(), Fault>
        ensures does { Does (λ c. mount c (line_tape self.old)) (result, line_tape self.new) }
        ensures exact { Exactly (mount sure (line_tape self.old)) (result, line_tape self.new) }
        ensures settings { settings_of self.new ≡ settings_of self.old }
    {
        self.applies(true)?;
        self.applies(self.can_mount())?;
        self.add_volume();
        Ok(())
    }

    fn following(&mut self) -> Result<bool, Fault>
        ensures does { Does (λ c. following c (line_tape self.old)) (result, line_tape self.new) }
        ensures exact { Exactly (following sure (line_tape self.old)) (result, line_tape self.new) }
        ensures settings { settings_of self.new ≡ settings_of self.old }
    {
        self.applies(true)?;
        Ok(self.seek_track(self.next_volume()))
    }

    fn rewind(&mut self) -> Result<(), Fault>
        ensures does { Does (λ c. rewind c (line_tape self.old)) (result, line_tape self.new) }
        ensures exact { Exactly (rewind sure (line_tape self.old)) (result, line_tape self.new) }
        ensures settings { settings_of self.new ≡ settings_of self.old }
    {
        self.applies(true)?;
        self.head_to_track(0);
        Ok(())
    }

    fn look(&mut self) -> Result<Option<Kind>, Fault>
        ensures does { Does (λ c. look c (line_tape self.old)) (result, line_tape self.new) }
        ensures exact { Exactly (look sure (line_tape self.old)) (result, line_tape self.new) }
        ensures settings { settings_of self.new ≡ settings_of self.old }
    {
        self.applies(true)?;
        Ok(self.next_kind())
    }

    fn read(&mut self, buffer: &mut [u8]) -> Result<Kind, Fault>
        ensures does { Does (λ c. read c (line_tape self.old) buffer.old) (result, buffer.new, line_tape self.new) }
        ensures exact { Exactly (read sure (line_tape self.old) buffer.old) (result, buffer.new, line_tape self.new) }
        ensures settings { settings_of self.new ≡ settings_of self.old }
    {
        self.applies(true)?;
        let kind = self.next_kind().ok_or(Fault::TurnedDown)?;
        self.copy_bytes(kind, buffer).ok_or(Fault::TurnedDown)?;
        self.pass(size_of_line(kind));
        Ok(kind)
    }

    // The questions never fail, and change nothing.
    fn place(&self) -> Place {
        self.place_of(self.head.at, self.head.item + 1)
    }

    fn tracks(&self) -> usize {
        self.settings.tracks
    }

    fn marked(&self) -> bool {
        self.span(self.head.at).marked()
    }

    fn failed(&self) -> bool {
        self.failed
    }

    #[tactic(auto, using(crate::proofs::Facts::any_of))]
    fn has_items(&self) -> bool {
        0 < self.span(self.last).count
    }
}

//! The interface of a tape transport.
//!
//! To fit a drive, give `tape`, which says what state your type stands for (the image, the head,
//! the markers, the volumes to mount, the failure), and `sound`, the proof of the law; implement each
//! function so that it does exactly what its definition says for some choice of yours. What you may
//! choose is only this: at which write a track's marker is met, from its 3rd to its 60,000th, and
//! that a function which applies fails. A function that cannot apply is turned down and changes
//! nothing; a failure changes nothing but the failed state, and from then on every function but the
//! questions is turned down.
ghost use Rattle.std.specs.Prelude.{◌≡◌, Some};
ghost use Rattle.tape.specs.Items.{item_of};
ghost use Rattle.tape.specs.Tape.{Tape, Does, write, next_track, mount, following, rewind, look, read, head_place, marker_met, any_items};
ghost use Rattle.tape.specs.Sound.{Sound};
ghost use Rattle.tape.specs.Faults.{fault_word};

use crate::item::{ItemRef, Kind};
use crate::place::Place;
use std::error::Error;
use std::fmt;

/// Why a transport's function did not do its work.
#[derive(Clone, Copy, PartialEq, Eq, Debug)]
pub enum Fault {
    /// it cannot apply here; nothing has changed
    TurnedDown,
    /// the transport failed; what it had recorded stays
    Failed,
}

impl fmt::Display for Fault {
    ghost output = { λ fault. Some (fault_word fault) };

    fn fmt<W: fmt::Write>(&self, f: &mut fmt::Formatter<W>) -> fmt::Result {
        f.write_str(match self {
            Fault::TurnedDown => "down",
            Fault::Failed => "failed",
        })
    }
}

impl Error for Fault {}

/// What code above a drive asks of it.
pub trait Transport {
    /// The state that this transport stands for.
    ghost tape: { Self → Tape };

    /// Records an item behind the image's last one and passes it; tells whether the track's marker
    /// is met. Turned down where the image has an item at or after the head, at an empty block or
    /// one of more than 256 bytes, and behind the marker after eight writes or at a block of more
    /// than 32 bytes.
    fn write(&mut self, item: ItemRef<'_>) -> Result<bool, Fault>
        ensures { Does (λ c. write c (tape self.old) (item_of item.entry)) (result, tape self.new) };

    /// From a track that has items to the start of the one behind it in the same volume. Turned down
    /// on a blank track and on a volume's last.
    fn next_track(&mut self) -> Result<(), Fault>
        ensures { Does (λ c. next_track c (tape self.old)) (result, tape self.new) };

    /// A new blank volume joins the image, and the head goes there. Turned down where an item stands
    /// at or behind the head, where the image has none, before a volume's last track, and where no
    /// volume is left.
    fn mount(&mut self) -> Result<(), Fault>
        ensures { Does (λ c. mount c (tape self.old)) (result, tape self.new) };

    /// Moves on to the start of the next volume that the image has; false, and no move, where it has
    /// no more.
    fn following(&mut self) -> Result<bool, Fault>
        ensures { Does (λ c. following c (tape self.old)) (result, tape self.new) };

    /// Back to the very first item.
    fn rewind(&mut self) -> Result<(), Fault>
        ensures { Does (λ c. rewind c (tape self.old)) (result, tape self.new) };

    /// What comes next on this track: a mark, a block of so many bytes, or nothing. The head stays.
    fn look(&mut self) -> Result<Option<Kind>, Fault>
        ensures { Does (λ c. look c (tape self.old)) (result, tape self.new) };

    /// Passes the next item; a block's bytes go to the front of the buffer, whose other bytes stay.
    /// Turned down at the track's end and where the buffer is too short for the block.
    fn read(&mut self, buffer: &mut [u8]) -> Result<Kind, Fault>
        ensures { Does (λ c. read c (tape self.old) buffer.old) (result, buffer.new, tape self.new) };

    /// The head's place.
    fn place(&self) -> Place
        ensures { result ≡ head_place (tape self.now) };

    /// The tracks of a volume.
    fn tracks(&self) -> usize
        ensures { result ≡ (tape self.now).tracks };

    /// Whether the marker of the head's track is met.
    fn marked(&self) -> bool
        ensures { result ≡ marker_met (tape self.now) };

    /// Whether the transport has failed.
    fn failed(&self) -> bool
        ensures { result ≡ (tape self.now).failed };

    /// Whether the image has an item.
    fn has_items(&self) -> bool
        ensures { result ≡ any_items (tape self.now) };

    /// What every state keeps, so that code above need never be turned down.
    ghost sound: { (x : Self) → Sound (tape x) };
}

#[cfg(test)]
mod tests {
    use super::*;
    use std::test::Fail;

    #[test]
    fn faults_have_words(rt: HostRuntime) -> Result<(), Fail> {
        let down = Fault::TurnedDown.to_string(rt.alloc())?;
        assert_eq!(rt; down.as_str(), "down");
        let failed = Fault::Failed.to_string(rt.alloc())?;
        assert_eq!(rt; failed.as_str(), "failed");
        Ok(())
    }
}

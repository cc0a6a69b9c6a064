//! The walk over a tape: item by item, track by track.
ghost use Rattle.std.specs.Prelude.{◌≡◌, ◌<◌, false, ◌++◌, length, IfOk};
ghost use Rattle.line.specs.Meaning.{line_tape};
ghost use Rattle.inspection.specs.Account.{tape_account};

use crate::item::ItemLine;
use crate::lines::{SettingsLine, TrackLine};
use crate::told::Told;
use crate::totals::{Sums, Totals};
use line::line_transport::LineTransport;
use std::alloc::AllocError;
use tape::bounds::LONGEST_BLOCK;
use tape::item::{ItemRef, Kind};
use tape::transport::Transport;

/// The account so far of a tape that works.
#[derive(Drop)]
pub(crate) struct Walk {
    out: Vec<u8>,
    tape: LineTransport,
    ghost works: { (line_tape tape).failed ≡ false },
}

impl Walk {
    ghost use Rattle.inspection.specs.Walked.{walked, PutNext, PutItems, PutTrack, PutTracks};

    // The next item of the head's track has its line put and is counted; None at the track's end.
    fn put_next(&mut self, totals: Totals) -> Result<Option<Totals>, AllocError>
        ensures { IfOk result (λ o. PutNext self.old totals o self.new) }
    {
        let place = self.tape.place();
        let mut buffer = [0u8; LONGEST_BLOCK];
        // the tape works and the buffer is long enough: only the track's end turns a read down
        let Ok(kind) = self.tape.read(&mut buffer) else {
            return Ok(None);
        };
        let item = match kind {
            Kind::Mark => ItemRef::Mark,
            Kind::Block(size) => ItemRef::Block(&buffer[..size]),
        };
        ItemLine { place, item }.tell(&mut self.out)?;
        Ok(Some(totals.with(kind)))
    }

    // The lines of all items of the head's track, from its first; their totals.
    fn put_items(&mut self) -> Result<Totals, AllocError>
        requires { (walked self.old).item ≡ 0 }
        ensures { IfOk result (λ c. PutItems self.old c self.new) }
    {
        let mut totals = Totals::default();
        while let Some(more) = self.put_next(totals)? {
            totals = more;
        }
        Ok(totals)
    }

    // The lines of a track and of its totals, which it returns.
    fn put_track(&mut self, k: usize) -> Result<Totals, AllocError>
        requires { k < length (walked self.old).image }
        ensures { IfOk result (λ c. PutTrack self.old k c self.new) }
    {
        // the track is there, so the seek finds it
        let _ = self.tape.seek_track(k);
        let place = self.tape.place();
        let totals = self.put_items()?;
        TrackLine {
            volume: place.volume,
            track: place.track,
            totals,
        }
        .tell(&mut self.out)?;
        Ok(totals)
    }

    // The lines of all tracks; their sums.
    fn put_tracks(&mut self) -> Result<Sums, AllocError>
        ensures { IfOk result (λ s. PutTracks self.old s self.new) }
    {
        let mut sums = Sums::default();
        for k in 0..self.tape.all_tracks() {
            sums = sums.with_track(self.put_track(k)?);
        }
        Ok(sums)
    }
}

/// The account, behind what `out` has, of a tape that was taken from a text of so many bytes.
pub(crate) fn account_of_tape(
    out: Vec<u8>,
    tape: LineTransport,
    bytes: usize,
) -> Result<Vec<u8>, AllocError>
    requires { (line_tape tape).failed ≡ false }
    ensures { IfOk result (λ v. v.items ≡ out.items ++ tape_account (line_tape tape) bytes) }
{
    let mut walk = Walk { out, tape };
    let tracks = walk.tape.tracks();
    SettingsLine {
        tracks,
        volumes: walk.tape.all_tracks() / tracks,
        bytes,
    }
    .tell(&mut walk.out)?;
    let sums = walk.put_tracks()?;
    sums.tell(&mut walk.out)?;
    Ok(walk.out)
}

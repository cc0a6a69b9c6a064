//! Whether a transport is as it was made.
ghost use Rattle.std.specs.Prelude.{◌↔◌, IsTrue};
ghost use Rattle.line.specs.Meaning.{line_tape};
ghost use Rattle.case_words.specs.Blank.{LooksNew};

use line::line_transport::LineTransport;
use tape::place::Place;
use tape::status::Status;

/// The very first item's place.
pub const FRONT: Place = Place {
    volume: 1,
    track: 1,
    item: 1,
};

/// Whether it is as it was made: no text, no item, one volume, the head at its front.
pub fn is_blank(line: &LineTransport) -> bool
    ensures { IsTrue result ↔ LooksNew (line_tape line.now) }
{
    let blank = Status {
        place: FRONT,
        tracks: line.all_tracks(),
        marked: false,
        failed: false,
        recorded: false,
    };
    line.text().is_empty() && Status::of(line) == blank
}

//! What a transport tells of itself.
ghost use Rattle.std.specs.Prelude.{◌≡◌};
ghost use Rattle.tape.specs.Tape.{status_of};

use crate::place::Place;
use crate::transport::Transport;

/// The answers to all the questions that a transport can be asked.
#[derive(Clone, Copy, PartialEq, Eq, Debug)]
pub struct Status {
    /// the head's place
    pub place: Place,
    /// the tracks of a volume
    pub tracks: usize,
    /// whether the marker of the head's track is met
    pub marked: bool,
    /// whether the transport has failed
    pub failed: bool,
    /// whether the image has an item
    pub recorded: bool,
}

impl Status {
    /// All the answers of a transport at once.
    pub fn of<T: Transport>(transport: &T) -> Status
        ensures { result ≡ status_of (T.tape transport.now) }
    {
        Status {
            place: transport.place(),
            tracks: transport.tracks(),
            marked: transport.marked(),
            failed: transport.failed(),
            recorded: transport.has_items(),
        }
    }
}

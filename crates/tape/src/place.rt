//! Places on a set of volumes.

/// The volume, the track of that volume and the item of that track, each counted from 1;
/// zeros where there is no transport.
#[derive(Clone, Copy, PartialEq, Eq, Debug)]
pub struct Place {
    pub volume: usize,
    pub track: usize,
    pub item: usize,
}

//! Bounds that the crates above compare with, by name, and the size that a set may have.
ghost use Rattle.std.specs.Prelude.{◌≡◌, true, ◌&&◌, nat_le};
ghost use Rattle.tape.specs.Tape.{lawful_size, fresh};
ghost use Rattle.tape.specs.Sound.{Sound};

/// The tracks of a volume, at most.
pub const MOST_TRACKS: usize = 2;

/// The volumes of a set, at most.
pub const MOST_VOLUMES: usize = 49;

/// The items of a track, at most.
pub const MOST_ITEMS: usize = 99_999;

/// The first write of a track that may meet its end-of-tape marker.
pub const FIRST_MARKER: usize = 3;

/// The write of a track that meets its marker at the latest.
pub const LAST_MARKER: usize = 60_000;

/// The writes that a track takes behind its marker.
pub const WRITES_AFTER: usize = 8;

/// The bytes of a block, at most.
pub const LONGEST_BLOCK: usize = 256;

/// The bytes of a label, and so of a block behind a track's marker, at most.
pub const LONGEST_LABEL: usize = 32;

fn is_within(n: usize, most: usize) -> bool
    ensures { result ≡ (nat_le 1 n && nat_le n most) }
{
    (1..=most).contains(&n)
}

/// Whether a set may have so many tracks to a volume and so many volumes. A new transport of such a
/// size is sound.
pub fn is_size(tracks: usize, volumes: usize) -> bool
    ensures size { result ≡ lawful_size tracks volumes }
    ensures starts { result ≡ true → Sound (fresh tracks volumes) }
{
    is_within(tracks, MOST_TRACKS) && is_within(volumes, MOST_VOLUMES)
}

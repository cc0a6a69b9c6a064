//! The parts of a line, written and read.
ghost use Rattle.std.specs.Prelude.{◌≡◌, ◌+◌, ◌*◌, ◌<◌, ◌&&◌, ◌++◌, ◌-◌, ◌^◌, min, length, drop, nat_le, slice_index, is_some, MatchOption};
ghost use Rattle.tape.specs.Items.{item_of, longest_block};
ghost use Rattle.line_text.specs.Lines.{place_text, line_head, block_head, line_size, size_of_kind, digit_value, hex_value, byte_in, kind_in, volume_in, track_in, unhexed};

use figures::decimal::decimal;
use tape::bounds::LONGEST_BLOCK;
use tape::item::{ItemRef, Kind};
use tape::place::Place;

/// The bytes of a mark's line.
pub const MARK_SIZE: usize = 36;

/// The bytes of a block's line, but for its hex digits.
pub const BLOCK_SIZE: usize = 51;

/// The text of a place, `vol=01 track=1 item=00002`.
#[tactic(auto, unfolding(crate::specs::Lines::place_text))]
pub fn place_text(place: Place) -> [u8; 25]
    ensures { result ≡ place_text place.volume place.track place.item }
{
    let mut text = *b"vol=00 track=0 item=00000";
    text[4..6].copy_from_slice(&decimal::<2>(place.volume));
    text[13..14].copy_from_slice(&decimal::<1>(place.track));
    text[20..25].copy_from_slice(&decimal::<5>(place.item));
    text
}

/// The 31 bytes that begin every line: the item's place, and `kind=`.
#[tactic(auto, unfolding(crate::specs::Lines::line_head, crate::specs::Lines::place_text))]
pub fn head_of(place: Place) -> [u8; 31]
    ensures { result ≡ line_head place.volume place.track place.item }
{
    let mut head = [0; 31];
    head[..25].copy_from_slice(&place_text(place));
    head[25..].copy_from_slice(b" kind=");
    head
}

/// `block size=`, the length in three digits, and ` hex=`.
#[tactic(auto, unfolding(crate::specs::Lines::block_head))]
pub fn block_head_of(size: usize) -> [u8; 19]
    ensures { result ≡ block_head size }
{
    let mut head = *b"block size=000 hex=";
    head[11..14].copy_from_slice(&decimal::<3>(size));
    head
}

/// Whether the line of an item takes no more than `left` bytes.
pub fn fits(item: ItemRef<'_>, left: usize) -> bool
    ensures { result ≡ nat_le (line_size (item_of item.entry)) left }
{
    match item {
        ItemRef::Mark => MARK_SIZE <= left,
        ItemRef::Block(bytes) => BLOCK_SIZE <= left && bytes.len() <= (left - BLOCK_SIZE) / 2,
    }
}

/// The bytes of the line of an item of this kind, up to the largest number, which no block reaches.
pub fn size_of_line(kind: Kind) -> usize
    ensures { result ≡ min (size_of_kind kind) (2 ^ 64 - 1) }
{
    match kind {
        Kind::Mark => MARK_SIZE,
        Kind::Block(size) => size.saturating_mul(2).saturating_add(BLOCK_SIZE),
    }
}

// A byte of a line, 0 past its end. A line is any bytes, read by their columns: a type of its own
// would have no invariant, so these are functions of the bytes.
fn at(line: &[u8], i: usize) -> u8
    ensures { result ≡ slice_index line.now i }
{
    line.get(i).copied().unwrap_or(0)
}

// The value of a decimal digit, in the wide type that sums are taken in.
fn digit_at(line: &[u8], i: usize) -> usize
    ensures value { result ≡ digit_value (slice_index line.now i) }
    ensures bound { result < 256 }
{
    usize::from(at(line, i).saturating_sub(b'0'))
}

/// The kind that a line tells and, of a block, its length.
pub fn kind_of_line(line: &[u8]) -> Kind
    ensures { result ≡ kind_in line.now }
{
    if at(line, 31) == b'm' {
        Kind::Mark
    } else {
        Kind::Block(100 * digit_at(line, 42) + 10 * digit_at(line, 43) + digit_at(line, 44))
    }
}

/// The volume that a line names.
pub fn volume_of_line(line: &[u8]) -> usize
    ensures value { result ≡ volume_in line.now }
    ensures bound { result < 3000 }
{
    10 * digit_at(line, 4) + digit_at(line, 5)
}

/// The track that a line names.
pub fn track_of_line(line: &[u8]) -> usize
    ensures value { result ≡ track_in line.now }
    ensures bound { result < 256 }
{
    digit_at(line, 13)
}

// The value of a hex digit.
fn hex_at(line: &[u8], i: usize) -> u8
    ensures value { result ≡ hex_value (slice_index line.now i) }
    ensures bound { result < 16 }
{
    let c = at(line, i);
    if b'A' <= c {
        (c - (b'A' - 10)) % 16
    } else {
        c.saturating_sub(b'0') % 16
    }
}

// A byte of a line's block.
fn byte_at(line: &[u8], i: usize) -> u8
    requires { i < longest_block }
    ensures { result ≡ byte_in line.now i }
{
    16 * hex_at(line, 50 + 2 * i) + hex_at(line, 51 + 2 * i)
}

/// Copies the first `size` bytes of a line's block to the front of a buffer, where they fit and
/// no block is longer; the other bytes of the buffer stay. `None` where they do not, and the whole
/// buffer stays.
#[tactic(auto, using(crate::proofs::Hex::copied_more))]
pub fn copy_block(line: &[u8], size: usize, out: &mut [u8]) -> Option<()>
    ensures told { is_some result ≡ (nat_le size (length out.old) && nat_le size longest_block) }
    ensures bytes { MatchOption result (out.new ≡ out.old) (λ _. out.new ≡ unhexed size (drop 50 line.now) ++ drop size out.old) }
{
    if size > out.len() || size > LONGEST_BLOCK {
        return None;
    }
    for (i, b) in out[..size].iter_mut().enumerate() {
        *b = byte_at(line, i);
    }
    Some(())
}

#[cfg(test)]
mod tests {
    use super::*;

    #[test]
    fn has_two_digits_for_each_byte_of_a_block(rt: HostRuntime) {
        for (kind, size) in [
            (Kind::Mark, 36),
            (Kind::Block(1), 53),
            (Kind::Block(256), 563),
            (Kind::Block(usize::MAX), usize::MAX),
        ] {
            assert_eq!(rt; size_of_line(kind), size, "size of the line of {kind:?}");
        }
    }

    #[test]
    fn begins_with_the_place(rt: HostRuntime) {
        let place = Place {
            volume: 1,
            track: 1,
            item: 2,
        };
        assert_eq!(rt; place_text(place), *b"vol=01 track=1 item=00002");
        assert_eq!(rt; head_of(place), *b"vol=01 track=1 item=00002 kind=");
    }
}

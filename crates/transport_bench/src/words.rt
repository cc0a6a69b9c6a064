//! Answers in words, and numbers and bytes that are given in words.
use std::fmt;
use tape::item::Kind;
use tape::place::Place;
use tape::refusal::Refusal;
use tape::transport::Fault;

/// What comes next, or what a read passed.
#[derive(Clone, Copy)]
pub(crate) struct Next(pub(crate) Result<Option<Kind>, Fault>);

impl fmt::Display for Next {
    fn fmt<W: fmt::Write>(&self, f: &mut fmt::Formatter<W>) -> fmt::Result {
        match self.0 {
            Ok(Some(Kind::Block(size))) => write!(f, "block {size:03}"),
            Ok(Some(Kind::Mark)) => f.write_str("mark"),
            Ok(None) => f.write_str("end"),
            Err(fault) => write!(f, "{fault}"),
        }
    }
}

/// Bytes in hex, a space behind each.
#[derive(Clone, Copy)]
pub(crate) struct Hex<'a>(pub(crate) &'a [u8]);

impl fmt::Display for Hex<'_> {
    fn fmt<W: fmt::Write>(&self, f: &mut fmt::Formatter<W>) -> fmt::Result {
        for b in self.0 {
            write!(f, "{b:02X} ")?;
        }
        Ok(())
    }
}

/// A place as the lines of a recorded text have it. Each program prints it in its own form, which
/// its stored output has.
#[derive(Clone, Copy)]
pub(crate) struct At(pub(crate) Place);

impl fmt::Display for At {
    fn fmt<W: fmt::Write>(&self, f: &mut fmt::Formatter<W>) -> fmt::Result {
        let place = self.0;
        write!(
            f,
            "vol={:02} track={} item={:05}",
            place.volume, place.track, place.item
        )
    }
}

/// Why a call was refused, the place that the refusal speaks of, and by which layer. Each program
/// prints it in its own form, which its stored output has.
#[derive(Clone, Copy)]
pub(crate) struct Refused(pub(crate) Refusal);

impl fmt::Display for Refused {
    fn fmt<W: fmt::Write>(&self, f: &mut fmt::Formatter<W>) -> fmt::Result {
        let Refusal { reason, place } = self.0;
        write!(
            f,
            "refused={} {} layer={}",
            reason.number(),
            At(place),
            reason.layer()
        )
    }
}

pub(crate) fn number(text: &str) -> usize {
    text.parse::<usize>().unwrap_or(0)
}

fn byte(pair: &[u8]) -> Option<u8> {
    u8::from_str_radix(std::str::from_utf8(pair).ok()?, 16).ok()
}

/// Adds bytes that are given in hex, as far as they can be read; tells whether there is one.
pub(crate) fn put_hex(bytes: &mut Vec<u8>, hex: &str) -> bool {
    let mut any = false;
    // byte by byte: where there is no memory for one, it alone is left out
    for b in hex.as_bytes().chunks(2).filter_map(byte) {
        any = true;
        let _ = bytes.push(b);
    }
    any
}

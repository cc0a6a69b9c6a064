//! What the cases share: what is printed, and steps that several take.
use anyhow::anyhow;
use case_words::answer::{Answer, yes};
use line::line_transport::LineTransport;
use line::settings::Settings;
use std::alloc::Global;
use std::fmt;
use tape::bounds::{LONGEST_BLOCK, MOST_ITEMS};
use tape::item::Kind;
use tape::place::Place;
use tape::refusal::Refusal;
use tape::transport::{Fault, Transport};

/// A place in short. Each program prints it in its own form, which its stored output has.
#[derive(Clone, Copy)]
pub(crate) struct At(pub(crate) Place);

impl fmt::Display for At {
    fn fmt<W: fmt::Write>(&self, f: &mut fmt::Formatter<W>) -> fmt::Result {
        let place = self.0;
        write!(f, "{}/{}/{}", place.volume, place.track, place.item)
    }
}

/// Why a call was refused, by which layer, and the place that the refusal speaks of. Each program
/// prints it in its own form, which its stored output has.
#[derive(Clone, Copy)]
pub(crate) struct Refused(pub(crate) Refusal);

impl fmt::Display for Refused {
    fn fmt<W: fmt::Write>(&self, f: &mut fmt::Formatter<W>) -> fmt::Result {
        let Refusal { reason, place } = self.0;
        write!(
            f,
            "refused={} layer={} place={}",
            reason.number(),
            reason.layer(),
            At(place)
        )
    }
}

/// A transport to try. Where there is none, the words are this program's own.
pub(crate) fn transport(alloc: Global, settings: Settings) -> anyhow::Result<LineTransport> {
    LineTransport::new(alloc, settings).map_err(|_| anyhow!("no transport"))
}

/// Whether a text was taken, and whether the transport then hands out the same.
#[derive(Clone, Copy)]
pub(crate) struct Taking {
    taken: bool,
    same: bool,
}

impl fmt::Display for Taking {
    fn fmt<W: fmt::Write>(&self, f: &mut fmt::Formatter<W>) -> fmt::Result {
        write!(f, "taken={} same={}", yes(self.taken), yes(self.same))
    }
}

/// Takes a text.
pub(crate) fn take(line: &mut LineTransport, text: &[u8]) -> Taking {
    Taking {
        taken: line.take(text).is_ok(),
        same: line.text() == text,
    }
}

fn kind_word(kind: Kind) -> &'static str {
    match kind {
        Kind::Mark => "mark",
        Kind::Block(_) => "block",
    }
}

/// Of a look: what comes next.
pub(crate) fn seen(answer: Result<Option<Kind>, Fault>) -> Answer {
    Answer(answer.map(|next| next.map_or("end", kind_word)))
}

/// Of a read: what was passed.
pub(crate) fn passed(answer: Result<Kind, Fault>) -> Answer {
    Answer(answer.map(kind_word))
}

/// Makes a call until one does not hold, so many times at most, and counts those that do.
pub(crate) fn count_while<F: FnMut() -> bool>(most: usize, mut call: F) -> usize
    requires { F.IsAlwaysCallable call }
{
    for held in 0..most {
        if !call() {
            return held;
        }
    }
    most
}

/// Passes the items that the head's track still has, and counts them.
pub(crate) fn pass_all(line: &mut LineTransport) -> usize {
    let mut buffer = [0; LONGEST_BLOCK];
    count_while(MOST_ITEMS, || line.read(&mut buffer).is_ok())
}

/// The items of a track, which are passed.
pub(crate) fn pass_track(line: &mut LineTransport, k: usize) -> usize {
    let _ = line.seek_track(k);
    pass_all(line)
}

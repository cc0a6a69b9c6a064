//! What a transport tells of itself, in words.
ghost use Rattle.std.specs.Prelude.{Some};
ghost use Rattle.case_words.specs.Words.{status_words};

use crate::answer::yes;
use std::fmt;
use tape::status::Status;

/// A status but for its place, which each program writes in its own way.
#[derive(Clone, Copy, Debug)]
pub struct StatusWords(pub Status);

impl fmt::Display for StatusWords {
    ghost output = { λ words. Some (status_words words.0) };

    fn fmt<W: fmt::Write>(&self, f: &mut fmt::Formatter<W>) -> fmt::Result {
        let status = self.0;
        let marked = yes(status.marked);
        let failed = yes(status.failed);
        let items = yes(status.recorded);
        write!(
            f,
            "tracks={} marked={marked} failed={failed} items={items}",
            status.tracks
        )
    }
}

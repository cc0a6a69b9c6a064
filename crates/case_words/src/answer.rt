//! Answers in words.
ghost use Rattle.std.specs.Prelude.{◌≡◌, Some};
ghost use Rattle.case_words.specs.Words.{yes_word, answer_word, written_word, moved_word, found_word};

use std::fmt;
use tape::transport::Fault;

/// `yes` or `no`.
pub fn yes(b: bool) -> &'static str
    ensures { result.now ≡ yes_word b }
{
    if b { "yes" } else { "no" }
}

/// What a call came to: the word for what it did, or its fault.
#[derive(Clone, Copy, Debug)]
pub struct Answer(pub Result<&'static str, Fault>);

impl fmt::Display for Answer {
    ghost output = { λ answer. Some (answer_word answer) };

    fn fmt<W: fmt::Write>(&self, f: &mut fmt::Formatter<W>) -> fmt::Result {
        match self.0 {
            Ok(word) => f.write_str(word),
            Err(fault) => write!(f, "{fault}"),
        }
    }
}

/// Of a write: taken, or taken with the marker met.
pub fn written(answer: Result<bool, Fault>) -> Answer
    ensures { answer_word result ≡ written_word answer }
{
    Answer(answer.map(|marked| if marked { "marker" } else { "taken" }))
}

/// Of a move to another track, or of a new volume.
pub fn moved(answer: Result<(), Fault>) -> Answer
    ensures { answer_word result ≡ moved_word answer }
{
    Answer(answer.map(|()| "done"))
}

/// Of a search: whether it is there.
pub fn found(answer: Result<bool, Fault>) -> Answer
    ensures { answer_word result ≡ found_word answer }
{
    Answer(answer.map(|there| if there { "there" } else { "none" }))
}

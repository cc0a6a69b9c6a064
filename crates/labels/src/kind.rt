//! The four kinds of label.
ghost use Rattle.std.specs.Prelude.{◌≡◌, Some};
ghost use Rattle.std.specs.Option.{ok_or};
ghost use Rattle.tape.specs.declared.refusal.Reason.TheVariants.{BadLabel};
ghost use Rattle.labels.specs.Kinds.{kind_character, kind_from, kind_name, count_fits};

use std::fmt;
use tape::refusal::Reason;

/// A header, or one of the three trailers.
#[derive(Clone, Copy, PartialEq, Eq, Debug)]
pub enum LabelKind {
    /// '1': a header
    Hdr,
    /// '3': a trailer
    Etr,
    /// '7': a trailer
    Eov,
    /// '9': a trailer
    Eof,
}

/// The character that stands first in a label of this kind.
impl From<LabelKind> for u8 {
    ghost from_gives = { λ k b. b ≡ kind_character k };

    fn from(kind: LabelKind) -> u8 {
        match kind {
            LabelKind::Hdr => b'1',
            LabelKind::Etr => b'3',
            LabelKind::Eov => b'7',
            LabelKind::Eof => b'9',
        }
    }
}

/// The kind that the character stands for; where it stands for none, the label is bad.
impl TryFrom<u8> for LabelKind {
    type Error = Reason;

    ghost try_from_gives = { λ b r. r ≡ ok_or (kind_from b) BadLabel };

    fn try_from(b: u8) -> Result<LabelKind, Reason> {
        match b {
            b'1' => Ok(LabelKind::Hdr),
            b'3' => Ok(LabelKind::Etr),
            b'7' => Ok(LabelKind::Eov),
            b'9' => Ok(LabelKind::Eof),
            _ => Err(Reason::BadLabel),
        }
    }
}

impl LabelKind {
    /// The name of the kind.
    pub fn name(self) -> &'static str
        ensures { result.now ≡ kind_name self }
    {
        match self {
            LabelKind::Hdr => "HDR",
            LabelKind::Etr => "ETR",
            LabelKind::Eov => "EOV",
            LabelKind::Eof => "EOF",
        }
    }

    /// Whether a label of this kind may have the block count: a header has none.
    pub(crate) fn allows(self, count: u16) -> bool
        ensures { result ≡ count_fits self count }
    {
        match self {
            LabelKind::Hdr => count == 0,
            LabelKind::Etr | LabelKind::Eov | LabelKind::Eof => true,
        }
    }
}

impl fmt::Display for LabelKind {
    ghost output = { λ k. Some (kind_name k) };

    fn fmt<W: fmt::Write>(&self, f: &mut fmt::Formatter<W>) -> fmt::Result {
        f.write_str(self.name())
    }
}

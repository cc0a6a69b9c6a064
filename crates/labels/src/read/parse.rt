//! Reading a label from a block.
ghost use Rattle.std.specs.Prelude.{◌≡◌};
ghost use Rattle.labels.specs.Reading.{held, told_by, told, contents_of, reading};

use crate::contents::Contents;
use crate::kind::LabelKind;
use crate::parts::Parts;
use crate::read::LabelRef;
use tape::refusal::Reason;

/// The label of the kind with these parts.
fn labelled<'a>(kind: LabelKind, parts: Parts<'a>) -> LabelRef<'a>
    ensures { told_by result ≡ (kind, held parts.entry) }
{
    match kind {
        LabelKind::Hdr => LabelRef::Hdr(parts),
        LabelKind::Etr => LabelRef::Etr(parts),
        LabelKind::Eov => LabelRef::Eov(parts),
        LabelKind::Eof => LabelRef::Eof(parts),
    }
}

impl<'a> LabelRef<'a> {
    /// The label's kind.
    pub fn kind(&self) -> LabelKind
        ensures { result ≡ (told_by self.now).0 }
    {
        match self {
            LabelRef::Hdr(_) => LabelKind::Hdr,
            LabelRef::Etr(_) => LabelKind::Etr,
            LabelRef::Eov(_) => LabelKind::Eov,
            LabelRef::Eof(_) => LabelKind::Eof,
        }
    }

    /// The label's parts.
    pub fn parts(&self) -> Parts<'a>
        ensures { held result ≡ (told_by self.now).1 }
    {
        match *self {
            LabelRef::Hdr(parts)
            | LabelRef::Etr(parts)
            | LabelRef::Eov(parts)
            | LabelRef::Eof(parts) => parts,
        }
    }

    /// What the label says, copied out of the block.
    pub fn contents(&self) -> Contents
        ensures { result ≡ contents_of (told_by self.now) }
    {
        let parts = self.parts();
        Contents {
            kind: self.kind(),
            volume: parts.volume(),
            fields: parts.fields(),
            section: parts.section(),
            count: parts.count(),
        }
    }
}

/// Reads the block as a label: a kind, and the parts behind it.
pub fn parse(block: &[u8]) -> Result<LabelRef<'_>, Reason>
    ensures { told result ≡ reading block.now }
{
    // a slice pattern: the first byte as the kind, the rest as the fields
    let [first, rest @ ..] = block else {
        return Err(Reason::BadLabel);
    };
    let kind = LabelKind::try_from(*first)?;
    let parts = Parts::of(rest).ok_or(Reason::BadLabel)?;
    if parts.are_lawful() && kind.allows(parts.count()) {
        Ok(labelled(kind, parts))
    } else {
        Err(Reason::BadLabel)
    }
}

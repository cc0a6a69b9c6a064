//! What a line tells of a label: its own characters.
ghost use Rattle.labels.specs.Reading.{held, told_by};
ghost use Rattle.inspection.specs.Items.{parts_text, label_text};

use crate::told::{Named, Told};
use labels::parts::Parts;
use labels::read::LabelRef;
use std::alloc::AllocError;

impl Told for Parts<'_> {
    ghost text = { λ p. parts_text (held p) };

    fn tell(&self, out: &mut Vec<u8>) -> Result<(), AllocError> {
        let Parts {
            volume,
            file,
            section,
            created,
            retention,
            count,
            code,
            user,
        } = *self;
        Named(b" volume=|", volume).tell(out)?;
        Named(b"| file=|", file).tell(out)?;
        Named(b"| section=", section).tell(out)?;
        Named(b" created=", created).tell(out)?;
        Named(b" retention=", retention).tell(out)?;
        Named(b" count=", count).tell(out)?;
        Named(b" code=", code).tell(out)?;
        Named(b" user=|", user).tell(out)?;
        b"|\n".tell(out)
    }
}

impl Told for LabelRef<'_> {
    ghost text = { λ l. label_text (told_by l) };

    fn tell(&self, out: &mut Vec<u8>) -> Result<(), AllocError> {
        Named(b" ", self.kind().name().as_bytes()).tell(out)?;
        self.parts().tell(out)
    }
}

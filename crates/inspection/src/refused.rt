//! The lines of a refusal: its number, its place and its layer, and what to look at.
ghost use Rattle.inspection.specs.Refused.{refusal_lines};

use crate::told::{Named, Told};
use figures::decimal::decimal;
use std::alloc::AllocError;
use tape::refusal::Refusal;

impl Told for Refusal {
    ghost text = { refusal_lines };

    fn tell(&self, out: &mut Vec<u8>) -> Result<(), AllocError> {
        Named(
            b"refused=",
            &decimal::<2>(usize::from(self.reason.number())),
        )
        .tell(out)?;
        b" ".tell(out)?;
        self.place.tell(out)?;
        Named(b" layer=", self.reason.layer().name().as_bytes()).tell(out)?;
        Named(b"\n", self.reason.words().as_bytes()).tell(out)?;
        b"\n".tell(out)
    }
}

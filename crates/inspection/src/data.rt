//! What a line shows of a block that is no label: its first bytes, as numbers and as text.
ghost use Rattle.std.specs.Prelude.{◌≡◌, map};
ghost use Rattle.std.specs.List.{flat_map};
ghost use Rattle.figures.specs.Hex.{hex_pair};
ghost use Rattle.inspection.specs.Items.{seen_code, first_bytes, data_text};

use crate::told::Told;
use figures::hex::hex_of;
use std::alloc::AllocError;

/// The bytes that are shown.
const SHOWN: usize = 16;

// The byte, or a full stop where it is no character that can be seen.
fn seen(b: u8) -> u8
    ensures { result ≡ seen_code b }
{
    if matches!(b, b' '..=b'~') { b } else { b'.' }
}

// The first bytes, which are shown.
fn front(bytes: &[u8]) -> &[u8]
    ensures { result.now ≡ first_bytes bytes.now }
{
    &bytes[..bytes.len().min(SHOWN)]
}

// Each byte as two hexadecimal digits.
#[derive(Clone, Copy)]
struct HexShown<'a>(&'a [u8]);

impl Told for HexShown<'_> {
    ghost text = { λ s. flat_map hex_pair s.0.now };

    fn tell(&self, out: &mut Vec<u8>) -> Result<(), AllocError> {
        // a loop: behind a `flat_map` into arrays a proof does not know the digits
        for b in self.0 {
            hex_of(*b).tell(out)?;
        }
        Ok(())
    }
}

// Each byte as the character that it is seen as.
#[derive(Clone, Copy)]
struct TextShown<'a>(&'a [u8]);

impl Told for TextShown<'_> {
    ghost text = { λ s. map seen_code s.0.now };

    fn tell(&self, out: &mut Vec<u8>) -> Result<(), AllocError> {
        out.extend(self.0.iter().map(|b| seen(*b)))
    }
}

/// A block that is no label.
#[derive(Clone, Copy)]
pub(crate) struct Data<'a>(pub(crate) &'a [u8]);

impl Told for Data<'_> {
    ghost text = { λ s. data_text s.0.now };

    fn tell(&self, out: &mut Vec<u8>) -> Result<(), AllocError> {
        let shown = front(self.0);
        b" data hex=".tell(out)?;
        HexShown(shown).tell(out)?;
        b" text=|".tell(out)?;
        TextShown(shown).tell(out)?;
        b"|\n".tell(out)
    }
}

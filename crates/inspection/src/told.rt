//! What an account tells: whatever has a text, and the pieces that lines are made of.
ghost use Rattle.std.specs.Prelude.{◌≡◌, ℕ, List, ◌++◌, OnOk};
ghost use Rattle.inspection.specs.Pieces.{named};

use std::alloc::AllocError;

/// Whatever has a text in an account. That is bytes, and its numbers are cut to a width, so it is no
/// `Display`.
pub(crate) trait Told {
    /// The text of a value.
    ghost text: { Self → List ℕ };

    /// Appends the text.
    fn tell(&self, out: &mut Vec<u8>) -> Result<(), AllocError>
        ensures { OnOk result (out.new.items ≡ out.old.items ++ text self.now) };
}

/// Text as it stands.
impl<const N: usize> Told for [u8; N] {
    ghost text = { λ s. s };

    fn tell(&self, out: &mut Vec<u8>) -> Result<(), AllocError> {
        out.extend_from_slice(self)
    }
}

/// A name, and the text behind it.
#[derive(Clone, Copy)]
pub(crate) struct Named<'a>(pub(crate) &'a [u8], pub(crate) &'a [u8]);

impl Told for Named<'_> {
    ghost text = { λ s. named s.0.now s.1.now };

    // in line, where the lengths are known: a label's line has nine of these
    #[inline]
    #[tactic(auto, unfolding(crate::specs::Pieces::named))]
    fn tell(&self, out: &mut Vec<u8>) -> Result<(), AllocError> {
        out.extend_from_slice(self.0)?;
        out.extend_from_slice(self.1)
    }
}

//! Making a label, and handing its bytes out.
ghost use Rattle.std.specs.Prelude.{◌≡◌, ◌+◌, ◌≤◌, ◌++◌, take, true, IfOk};
ghost use Rattle.figures.specs.Decimal;
ghost use Rattle.labels.specs.Contents.{label_bytes};
ghost use Rattle.labels.specs.Laws.{ReadsBack};
ghost use Rattle.labels.specs.Layout.{lawful_label};
ghost use Rattle.labels.specs.Made.{bytes_of, made_bytes, making};

use crate::contents::Contents;
use crate::label::Label;
use figures::decimal::decimal;
use tape::refusal::Reason;

/// The two digits of a section number.
// A function of its own, so that digits put wrongly are refused here, at the fact.
fn section_digits(section: u8) -> [u8; 2]
    ensures { result ≡ Decimal.decimal 2 section }
{
    decimal(usize::from(section))
}

/// Puts the part at its place, behind what is there.
fn put<const N: usize>(bytes: &mut [u8; 32], from: usize, part: &[u8; N])
    requires { from + N ≤ 32 }
    ensures { take (from + N) bytes.new ≡ take from bytes.old ++ part.now }
{
    bytes[from..from + N].copy_from_slice(part);
}

/// The bytes of the label, each part at its place.
fn laid_out(contents: Contents) -> [u8; 32]
    ensures { result ≡ label_bytes contents }
{
    let Contents {
        kind,
        volume,
        fields,
        section,
        count,
    } = contents;
    // the kind stands first; what is behind it is put there next
    let mut bytes = [u8::from(kind); 32];
    put(&mut bytes, 1, &volume);
    put(&mut bytes, 5, &fields.file);
    put(&mut bytes, 13, &section_digits(section));
    put(&mut bytes, 15, &fields.created);
    put(&mut bytes, 20, &fields.retention);
    put(&mut bytes, 23, &decimal::<4>(usize::from(count)));
    put(&mut bytes, 27, &[fields.code]);
    put(&mut bytes, 28, &fields.user);
    bytes
}

impl Label {
    /// The label that says this, or a refusal where that is unlawful.
    pub fn new(contents: Contents) -> Result<Label, Reason>
        ensures bytes { made_bytes result ≡ making contents }
        ensures read_back { IfOk result (λ l. ReadsBack contents (bytes_of l)) }
    {
        if !contents.is_lawful() {
            return Err(Reason::Unlawful);
        }
        let bytes = laid_out(contents);
        Ok(Label { bytes })
    }

    /// The 32 bytes, to be written.
    pub fn as_bytes(&self) -> &[u8]
        ensures bytes { result.now ≡ bytes_of self.now }
        ensures lawful { lawful_label (bytes_of self.now) ≡ true }
    {
        &self.bytes
    }
}

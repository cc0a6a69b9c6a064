//! A label made by value.
ghost use Rattle.std.specs.Prelude.{◌≡◌, true};
ghost use Rattle.labels.specs.Layout.{lawful_label};

/// The 32 bytes of a lawful label.
// A ghost field and no Model, whose clauses see a value that forgets that it is lawful.
#[derive(Clone, Copy, Debug)]
pub struct Label {
    bytes: [u8; 32],
    ghost lawful: { lawful_label bytes ≡ true },
}

pub mod made;

//! The law of labels.
ghost use Rattle.std.specs.Prelude.{◌≡◌, true};
ghost use Rattle.labels.specs.Laws.{GivesBack};

/// Every label that can be made is lawful, and reading it gives back what it was made of.
pub fn reading_gives_back_what_was_made() -> bool
    ensures law { GivesBack }
    ensures answer { result ≡ true }
{
    true // the clause holds the law
}

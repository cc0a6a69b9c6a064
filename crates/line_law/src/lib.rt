//! The law of the line transport: which texts it takes.
#![tactic(auto)]

ghost use Rattle.std.specs.Prelude.{◌≡◌, true};
ghost use Rattle.line_law.specs.Law.{EveryTextTaken, NoOtherTaken};

/// The text of every recorded image that has room is taken and gives exactly that image, and no other text is taken.
pub fn every_lawful_text_is_taken() -> bool
    ensures law { EveryTextTaken }
    ensures others { NoOtherTaken }
    ensures answer { result ≡ true }
{
    true // the clauses hold the law
}

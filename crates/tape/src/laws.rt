//! What is proved of the meaning of every transport.
ghost use Rattle.std.specs.Prelude.{◌≡◌, true};
ghost use Rattle.tape.specs.Runs.{StaysSound, StartsSound};
ghost use Rattle.tape.specs.Examples.{WorkedExamples};

/// Whatever functions are called on a transport, its tape stays sound, and a new one is sound.
pub fn transports_stay_sound() -> bool
    ensures stays { StaysSound }
    ensures starts { StartsSound }
    ensures answer { result ≡ true }
{
    true // the clauses hold the theorems
}

/// The rules give the worked examples.
pub fn worked_examples() -> bool
    ensures examples { WorkedExamples }
    ensures answer { result ≡ true }
{
    true // the clause holds the examples
}

//! The characters of a label's fields, the numbers they write, and the date rule.
ghost use Rattle.std.specs.Prelude.{◌≡◌, ◌≤◌, length};
ghost use Rattle.std.specs.List.{list_all};
ghost use Rattle.labels.specs.Characters.{a_character, n_character, in_set, digit, number, lawful_date};

/// The two sets of characters that fields are made of: a characters, and n characters.
#[derive(Clone, Copy)]
pub enum CharSet {
    Text,
    Digits,
}

/// Whether the byte is an a character.
pub(crate) fn is_a_character(b: u8) -> bool
    ensures { result ≡ a_character b }
{
    matches!(b, b' '..=b'Z') && !matches!(b, b'#' | b'$' | b'@')
}

/// Whether the byte is an n character: a digit.
pub(crate) fn is_n_character(b: u8) -> bool
    ensures { result ≡ n_character b }
{
    b.is_ascii_digit()
}

impl CharSet {
    /// Whether the set has the byte.
    pub(crate) fn has(self, b: u8) -> bool
        ensures { result ≡ in_set self b }
    {
        match self {
            CharSet::Text => is_a_character(b),
            CharSet::Digits => is_n_character(b),
        }
    }

    /// Whether the set has every byte of the part.
    pub(crate) fn has_all(self, part: &[u8]) -> bool
        ensures { result ≡ list_all (in_set self) part.now }
    {
        part.iter().all(|b| self.has(*b))
    }
}

/// The value of a digit; any other character counts for nothing.
fn digit(b: u8) -> u8
    ensures { result ≡ digit b }
{
    if is_n_character(b) { b - b'0' } else { 0 }
}

/// The number that up to four digits write.
pub(crate) fn number(digits: &[u8]) -> u16
    requires { length digits.now ≤ 4 }
    ensures { result ≡ number digits.now }
{
    // a loop: as a fold, the closure would owe the bound of n * 10
    let mut n = 0;
    for b in digits {
        n = n * 10 + u16::from(digit(*b));
    }
    n
}

/// Whether the part is a date: two digits of a year and three of a day, or 00000 for none.
pub(crate) fn is_date(date: &[u8]) -> bool
    ensures { result ≡ lawful_date date.now }
{
    if date.len() != 5 || !CharSet::Digits.has_all(date) {
        return false;
    }
    let year = number(&date[0..2]);
    let day = number(&date[2..5]);
    (year == 0 && day == 0) || matches!(day, 1..=366)
}

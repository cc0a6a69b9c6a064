//! Decimals of a fixed width.
ghost use Rattle.std.specs.Prelude.{◌≡◌};
ghost use Rattle.figures.specs.Decimal;

// The character of a number's last decimal digit.
fn digit(n: usize) -> u8
    ensures { result ≡ Decimal.digit n }
{
    b'0' + (n % 10) as u8
}

/// The last `W` decimal digits of a number, with zeros in front.
#[tactic(auto, using(crate::proofs::Step::one_digit_more))]
pub fn decimal<const W: usize>(n: usize) -> [u8; W]
    ensures { result ≡ Decimal.decimal W n }
{
    let mut digits = [b'0'; W];
    let mut rest = n;
    // by index: behind `iter_mut().rev()` a proof does not know what was written
    for i in (0..W).rev() {
        digits[i] = digit(rest);
        rest /= 10;
    }
    digits
}

#[cfg(test)]
mod tests {
    use super::*;

    #[test]
    fn has_the_last_digits_with_zeros_in_front(rt: HostRuntime) {
        for (n, one, two, five) in [
            (0, b"0", b"00", b"00000"),
            (7, b"7", b"07", b"00007"),
            (42, b"2", b"42", b"00042"),
            (99_999, b"9", b"99", b"99999"),
            (100_000, b"0", b"00", b"00000"),
        ] {
            assert_eq!(rt; decimal::<1>(n), *one, "one digit of {n}");
            assert_eq!(rt; decimal::<2>(n), *two, "two digits of {n}");
            assert_eq!(rt; decimal::<5>(n), *five, "five digits of {n}");
        }
    }
}

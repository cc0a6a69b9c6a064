//! Bytes as pairs of hexadecimal digits, in capitals.
ghost use Rattle.std.specs.Prelude.{◌≡◌, ◌<◌};
ghost use Rattle.figures.specs.Hex;

// A digit of a number below 16.
fn hex_digit(n: u8) -> u8
    requires { n < 16 }
    ensures { result ≡ Hex.hex_digit n }
{
    if n < 10 { b'0' + n } else { b'A' - 10 + n }
}

/// The two digits of a byte.
pub fn hex_of(b: u8) -> [u8; 2]
    ensures { result ≡ Hex.hex_pair b }
{
    [hex_digit(b / 16), hex_digit(b % 16)]
}

#[cfg(test)]
mod tests {
    use super::*;

    #[test]
    fn has_two_digits_in_capitals(rt: HostRuntime) {
        for (b, digits) in [
            (0, b"00"),
            (9, b"09"),
            (10, b"0A"),
            (175, b"AF"),
            (255, b"FF"),
        ] {
            assert_eq!(rt; hex_of(b), *digits, "digits of {b}");
        }
    }
}

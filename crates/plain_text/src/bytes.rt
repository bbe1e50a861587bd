ghost use Rattle.std.specs.Prelude.{◌≡◌};
ghost use Rattle.plain_text.specs.Bytes.{is_digit, is_letter, is_run_byte, is_white};

/// A digit, 0 to 9.
pub fn is_digit(byte: u8) -> bool
    ensures { result ≡ is_digit byte }
{
    b'0' <= byte && byte <= b'9'
}

/// A letter, A to Z or a to z.
pub fn is_letter(byte: u8) -> bool
    ensures { result ≡ is_letter byte }
{
    b'A' <= byte && byte <= b'Z' || b'a' <= byte && byte <= b'z'
}

/// A letter, a digit or `_`: what words and numbers are made of.
pub fn is_run_byte(byte: u8) -> bool
    ensures { result ≡ is_run_byte byte }
{
    is_letter(byte) || is_digit(byte) || byte == b'_'
}

/// A space, tab, carriage return or line feed.
pub fn is_white(byte: u8) -> bool
    ensures { result ≡ is_white byte }
{
    byte == b' ' || byte == b'\t' || byte == b'\r' || byte == b'\n'
}

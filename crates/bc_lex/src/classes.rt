// Classes of bytes.

ghost use Rattle.std.specs.Prelude.{◌≡◌};
ghost use Rattle.bc_data.specs.Lexical.{is_blank, is_digit, is_letter, is_name_byte, is_plain, is_escape};

/// Whether the byte is white space.
pub fn is_blank(b: u8) -> bool
    ensures { result ≡ is_blank b }
{
    b == b'\t' || b == b'\n' || b == b'\r' || b == b' '
}

pub fn is_digit(b: u8) -> bool
    ensures { result ≡ is_digit b }
{
    b'0' <= b && b <= b'9'
}

/// Whether the byte is a letter or `_`.
pub fn is_letter(b: u8) -> bool
    ensures { result ≡ is_letter b }
{
    (b'A' <= b && b <= b'Z') || (b'a' <= b && b <= b'z') || b == b'_'
}

/// Whether the byte may stand in a name behind its first byte.
pub fn is_name_byte(b: u8) -> bool
    ensures { result ≡ is_name_byte b }
{
    is_letter(b) || is_digit(b)
}

/// Whether the byte stands for itself in a text literal.
pub fn is_plain(b: u8) -> bool
    ensures { result ≡ is_plain b }
{
    b' ' <= b && b <= b'~' && b != b'"' && b != b'\\'
}

/// Whether the byte makes an escape behind a `\`.
pub fn is_escape(b: u8) -> bool
    ensures { result ≡ is_escape b }
{
    b == b'n' || b == b't' || b == b'"' || b == b'\\'
}

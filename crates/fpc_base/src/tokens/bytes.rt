//! Tests of bytes.
ghost use Rattle.std.specs.Prelude.{◌≡◌, ◌≤◌, length};
ghost use Rattle.std.specs.List.{prefix_len};
ghost use Rattle.fpc_base.specs.Tokens.{is_small, is_capital, is_digit, is_word_byte, is_in_line};

pub fn is_small(byte: u8) -> bool
    ensures { result ≡ is_small byte }
{
    (b'a'..=b'z').contains(&byte)
}

pub fn is_capital(byte: u8) -> bool
    ensures { result ≡ is_capital byte }
{
    (b'A'..=b'Z').contains(&byte)
}

pub fn is_digit(byte: u8) -> bool
    ensures { result ≡ is_digit byte }
{
    (b'0'..=b'9').contains(&byte)
}

pub fn is_word_byte(byte: u8) -> bool
    ensures { result ≡ is_word_byte byte }
{
    is_small(byte) || is_capital(byte) || is_digit(byte) || byte == b'_'
}

/// How many bytes at the front may stand in a word.
pub fn word_bytes(bytes: &[u8]) -> usize
    ensures count { result ≡ prefix_len is_word_byte bytes.now }
    ensures within { result ≤ length bytes.now }
{
    bytes.iter().take_while(|b| is_word_byte(**b)).count()
}

/// How many bytes at the front are digits.
pub fn digits(bytes: &[u8]) -> usize
    ensures count { result ≡ prefix_len is_digit bytes.now }
    ensures within { result ≤ length bytes.now }
{
    bytes.iter().take_while(|b| is_digit(**b)).count()
}

/// How many bytes there are before the end of the line.
pub fn line_bytes(bytes: &[u8]) -> usize
    ensures count { result ≡ prefix_len is_in_line bytes.now }
    ensures within { result ≤ length bytes.now }
{
    bytes.iter().take_while(|b| **b != b'\n').count()
}

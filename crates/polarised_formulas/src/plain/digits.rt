//! The digits of numbers in plain form.
ghost use Rattle.std.specs.Prelude.{◌≡◌, ◌&&◌, ◌-◌, if◌then◌else◌, Some, None};
ghost use Rattle.fpc_base.specs.Tokens.{is_digit};
ghost use Rattle.polarised_formulas.specs.PlainReading.{can_grow, grown};

pub fn is_digit(b: u8) -> bool
    ensures { result ≡ is_digit b }
{
    b >= b'0' && b <= b'9'
}

/// The number with one more digit, where the byte is one that may stand there: a number has at most nine digits, and none
/// behind a 0.
pub fn with_digit(number: u32, b: u8) -> Option<u32>
    ensures { result ≡ (if can_grow number b then Some (grown number b) else None) }
{
    if is_digit(b) && (0 < number && number < 100_000_000) {
        Some(10 * number + u32::from(b - b'0'))
    } else {
        None
    }
}

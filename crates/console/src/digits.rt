//! Numbers as they stand in a line: which bytes write one, and what it comes to.
ghost use Rattle.std.specs.Prelude.{◌≡◌, ℕ, ◌^◌, ◌<◌, decimal, IsTrue, ◌↔◌};
ghost use Rattle.console.specs.Numerals.{Numeral, NumberOf};

const MOST_DIGITS: usize = 6;

pub(crate) fn is_numeral(bytes: &[u8]) -> bool
    ensures { IsTrue result ↔ Numeral bytes.now }
{
    match bytes {
        [] | [b'0', _, ..] => false,
        _ => bytes.len() <= MOST_DIGITS && bytes.iter().all(|byte| byte.is_ascii_digit()),
    }
}

/// The number that the digits write; 0 for bytes that write none.
pub fn value_of(digits: &[u8]) -> u32
    ensures value { NumberOf digits.now result }
    ensures written { Numeral digits.now → decimal result ≡ digits.now }
    ensures bound { result < 10 ^ 6 }
{
    if !is_numeral(digits) {
        return 0;
    }
    // by hand: the library's `parse` wants the bytes as text first, and takes more than twice the time
    let mut value = 0;
    for digit in digits {
        value = value * 10 + u32::from(*digit - b'0');
    }
    value
}

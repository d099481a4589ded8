// Numbers read from a field.
ghost use Rattle.std.specs.Prelude.{◌≡◌, ◌+◌, ◌*◌, ◌<◌, ◌≤◌, min, length, drop};
ghost use Rattle.text.specs.Numerals.{digits_of, numeral_of, DigitsFrom};

use ground::Parts;

// Digits in a row: the number that they write, at most the largest of 64 bits, and the place after them.
#[derive(Clone, Copy)]
pub struct Digits {
    pub size: u64,
    pub end: usize,
}

// The number that the whole field writes, or nothing. A size that 64 bits can't hold is their largest.
pub fn number_in(field: &[u8]) -> Option<Parts>
    ensures { result ≡ numeral_of field.now }
{
    if field.len() == 0 {
        return None;
    }
    if field[0] == 45 {
        return digits_in(field, 1, true);
    }
    digits_in(field, 0, false)
}

// The number that the digits from `from` on write, with its sign.
fn digits_in(field: &[u8], from: usize, negative: bool) -> Option<Parts>
    requires { from ≤ length field.now }
    ensures { result ≡ digits_of negative (drop from field.now) }
{
    let digits = digits_from(field, from);
    if digits.end < field.len() {
        return None;
    }
    if digits.end == from {
        return None;
    }
    let size = digits.size;
    Some(Parts { negative, size })
}

// The digits that stand in a row from `from` on, which may be none.
pub fn digits_from(s: &[u8], from: usize) -> Digits
    requires { from ≤ length s.now }
    ensures { DigitsFrom s.now from result }
{
    let mut size: u64 = 0;
    let mut i = from;
    while i < s.len() {
        // an octet below the digit 0 wraps to a number far above 9
        let digit = std::num::wrapping_sub_u64(s[i] as u64, 48);
        if 9 < digit {
            return Digits { size, end: i };
        }
        size = grown(size, digit);
        i += 1;
    }
    Digits { size, end: i }
}

// One digit more after a number, as far as 64 bits can hold it. Most numbers are far from that, and take one test.
fn grown(size: u64, digit: u64) -> u64
    requires { digit < 10 }
    ensures { result ≡ min (10 * size + digit) 18446744073709551615 }
{
    if size < 1844674407370955161 {
        return size * 10 + digit;
    }
    if 1844674407370955161 < size {
        return 18446744073709551615;
    }
    if 18446744073709551615 - size * 10 < digit {
        return 18446744073709551615;
    }
    size * 10 + digit
}

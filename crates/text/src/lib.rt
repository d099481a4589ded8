// The text of the programs, put into a lent buffer: what stood before and after it stays as it was.
#![tactic(auto)]

mod answer_lines;
mod marks;
mod numeral;
mod said;
mod widths;

ghost use Rattle.std.specs.Prelude.{◌≡◌, ◌+◌, ◌*◌, ◌/◌, ◌%◌, ◌<◌, ◌≤◌, [], ◌∷◌, length};
ghost use Rattle.text.specs.Text.{Puts, decimal, pair, four, eight, lanes, pairs, FourPairs, Tens, Digits, signed_decimal, hexadecimal, octet_text, octets_text};

pub use answer_lines::{put_end, put_line};
use ground::Whole;
pub use marks::{field_end, line_end};
pub use numeral::{digits_from, number_in};
pub use said::{SaidLine, line_of_code, line_of_quantity};
pub use widths::{Size, signed_32, signed_64, size_of, unsigned_32};

// Puts one octet at `at`, and answers the place after it.
pub fn put_byte(out: &mut [u8], at: usize, b: u8) -> usize
    requires { at + 1 ≤ length out.old }
    ensures { Puts out.old at (b ∷ []) out.new result }
{
    out[at] = b;
    at + 1
}

// Puts n in decimal, eight digits at a time, and answers the place after it.
pub fn put_decimal(out: &mut [u8], at: usize, n: u64) -> usize
    requires { at + length (decimal n) ≤ length out.old }
    ensures { Puts out.old at (decimal n) out.new result }
{
    if n < 100000000 {
        return put_medium(out, at, n);
    }
    let next = put_upper(out, at, n / 100000000);
    put_eight(out, next, n % 100000000)
}

// Puts a number of at most sixteen digits.
fn put_upper(out: &mut [u8], at: usize, n: u64) -> usize
    requires n_bound { n < 10000000000000000 }
    requires n_in_bounds { at + length (decimal n) ≤ length out.old }
    ensures { Puts out.old at (decimal n) out.new result }
{
    if n < 100000000 {
        return put_medium(out, at, n);
    }
    let next = put_medium(out, at, n / 100000000);
    put_eight(out, next, n % 100000000)
}

// Puts a number of at most eight digits.
fn put_medium(out: &mut [u8], at: usize, n: u64) -> usize
    requires n_bound { n < 100000000 }
    requires n_in_bounds { at + length (decimal n) ≤ length out.old }
    ensures { Puts out.old at (decimal n) out.new result }
{
    if n < 10000 {
        return put_short(out, at, n);
    }
    let next = put_short(out, at, n / 10000);
    put_four(out, next, n % 10000)
}

// Puts a number of at most four digits: for one that is known to be short, the quicker way.
pub fn put_short(out: &mut [u8], at: usize, n: u64) -> usize
    requires n_bound { n < 10000 }
    requires n_in_bounds { at + length (decimal n) ≤ length out.old }
    ensures { Puts out.old at (decimal n) out.new result }
{
    if n < 10 {
        return put_byte(out, at, (48 + n) as u8);
    }
    if n < 100 {
        return put_pair(out, at, n);
    }
    if n < 1000 {
        let next = put_byte(out, at, (48 + n / 100) as u8);
        return put_pair(out, next, n % 100);
    }
    put_four(out, at, n)
}

// Puts eight digits.
fn put_eight(out: &mut [u8], at: usize, n: u64) -> usize
    requires n_bound { n < 100000000 }
    requires at_in_bounds { at + 8 ≤ length out.old }
    ensures { Puts out.old at (eight n) out.new result }
{
    let text = digits_of(pairs_of(n));
    out[at] = (text % 256) as u8;
    out[at + 1] = (text / 256 % 256) as u8;
    out[at + 2] = (text / 65536 % 256) as u8;
    out[at + 3] = (text / 16777216 % 256) as u8;
    out[at + 4] = (text / 4294967296 % 256) as u8;
    out[at + 5] = (text / 1099511627776 % 256) as u8;
    out[at + 6] = (text / 281474976710656 % 256) as u8;
    out[at + 7] = (text / 72057594037927936 % 256) as u8;
    at + 8
}

// Puts four digits.
fn put_four(out: &mut [u8], at: usize, n: u64) -> usize
    requires n_bound { n < 10000 }
    requires at_in_bounds { at + 4 ≤ length out.old }
    ensures { Puts out.old at (four n) out.new result }
{
    let text = digits_of(two_pairs_of(n));
    out[at] = (text % 256) as u8;
    out[at + 1] = (text / 256 % 256) as u8;
    out[at + 2] = (text / 65536 % 256) as u8;
    out[at + 3] = (text / 16777216 % 256) as u8;
    at + 4
}

// The digits of four pairs, each in its octet, the first lowest: 48 in each octet, and a pair's tens and 256 times its units, which is
// 256 times the pair less 2559 times its tens.
fn digits_of(pairs: u64) -> u64
    requires { FourPairs pairs }
    ensures { Digits pairs result }
{
    3472328296227680304 + 256 * pairs - 2559 * tens_of(pairs)
}

// The tens of four pairs, each in its sixteen bits: 103/1024 of a number below 100, and 103 times one fits sixteen bits.
fn tens_of(pairs: u64) -> u64
    requires { FourPairs pairs }
    ensures { Tens pairs result }
{
    let scaled = pairs * 103;
    scaled % 65536 / 1024
        + 65536 * (scaled / 65536 % 65536 / 1024)
        + 4294967296 * (scaled / 4294967296 % 65536 / 1024)
        + 281474976710656 * (scaled / 281474976710656 % 65536 / 1024)
}

// The four pairs of eight digits, each in sixteen bits, the first lowest. The hundreds of a number below 10000 are 5243/524288 of it,
// found for both halves at once; 65536 times a half less 6553599 times its hundreds is its hundreds and 65536 times the rest.
fn pairs_of(n: u64) -> u64
    requires { n < 100000000 }
    ensures { result ≡ pairs n }
{
    let upper = n / 10000;
    let halves = upper + 4294967296 * (n - 10000 * upper);
    let scaled = halves * 5243;
    let hundreds = scaled % 4294967296 / 524288 + 4294967296 * (scaled / 4294967296 / 524288);
    65536 * halves - 6553599 * hundreds
}

// The two pairs of four digits, and no others.
fn two_pairs_of(n: u64) -> u64
    requires { n < 10000 }
    ensures { result ≡ lanes (n / 100) (n % 100) 0 0 }
{
    65536 * n - 6553599 * (n * 5243 / 524288)
}

// Puts two digits.
fn put_pair(out: &mut [u8], at: usize, n: u64) -> usize
    requires n_bound { n < 100 }
    requires at_in_bounds { at + 2 ≤ length out.old }
    ensures { Puts out.old at (pair n) out.new result }
{
    out[at] = (48 + n / 10) as u8;
    out[at + 1] = (48 + n % 10) as u8;
    at + 2
}

// Puts x in decimal, with a minus sign where it is below zero, and answers the place after it.
pub fn put_number(out: &mut [u8], at: usize, x: Whole) -> usize
    requires { at + length (signed_decimal x.0) ≤ length out.old }
    ensures { Puts out.old at (signed_decimal x.0) out.new result }
{
    let parts = ground::taken_apart(x);
    let size = parts.size;
    if parts.negative {
        let next = put_byte(out, at, 45);
        return put_decimal(out, next, size);
    }
    put_decimal(out, at, size)
}

// Puts the octets of src, and answers the place after them.
pub fn put_bytes(out: &mut [u8], at: usize, src: &[u8]) -> usize
    requires { at + length src.now ≤ length out.old }
    ensures { Puts out.old at src.now out.new result }
{
    let end = at + src.len();
    out[at..end].copy_from_slice(src);
    end
}

// Puts octets as digits, and answers the place after them.
pub fn put_octets(out: &mut [u8], at: usize, src: &[u8]) -> usize
    requires { at + 3 * length src.now ≤ length out.old }
    ensures { Puts out.old at (octets_text src.now) out.new result }
{
    let mut next = at;
    for octet in src {
        next = put_octet(out, next, *octet);
    }
    next
}

// Puts a space and the two digits of an octet.
fn put_octet(out: &mut [u8], at: usize, octet: u8) -> usize
    requires { at + 3 ≤ length out.old }
    ensures { Puts out.old at (octet_text octet) out.new result }
{
    let first = put_byte(out, at, 32);
    let second = put_byte(out, first, digit_of(octet / 16));
    put_byte(out, second, digit_of(octet % 16))
}

// An upper-case digit.
fn digit_of(value: u8) -> u8
    requires { value < 16 }
    ensures { result ≡ hexadecimal value }
{
    if value < 10 {
        return 48 + value;
    }
    55 + value
}

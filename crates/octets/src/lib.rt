// Numbers and codes in octets, high octet first, read where they stand.
#![tactic(auto)]

mod storing;

ghost use Rattle.std.specs.Prelude.{◌≡◌, ◌+◌, ◌*◌, ◌<◌, ◌≤◌, length};
ghost use Rattle.octets.specs.Bits.{bits};
ghost use Rattle.octets.specs.Codes.{from_complement, latitude_in, longitude_in, altitude_in};

use ground::{AltitudeCode, LatitudeCode, LongitudeCode};
pub use storing::{complement_of, put_altitude, put_four, put_position, put_word};

// The number in the octet at `at`.
pub fn octet(s: &[u8], at: usize) -> u8
    requires { at < length s.now }
    ensures { result ≡ bits s.now (8 * at) 8 }
{
    s[at]
}

// The number in the low seven bits of the octet at `at`.
pub fn low_seven(s: &[u8], at: usize) -> u8
    requires { at < length s.now }
    ensures { result ≡ bits s.now (8 * at + 1) 7 }
{
    octet(s, at) % 128
}

// The number in the two octets from `at`.
pub fn word(s: &[u8], at: usize) -> u16
    requires { at + 2 ≤ length s.now }
    ensures { result ≡ bits s.now (8 * at) 16 }
{
    let high = octet(s, at) as u16;
    let low = octet(s, at + 1) as u16;
    high * 256 + low
}

// The number in the three octets from `at`.
fn three_octets(s: &[u8], at: usize) -> u32
    requires { at + 3 ≤ length s.now }
    ensures { result ≡ bits s.now (8 * at) 24 }
{
    let high = octet(s, at) as u32;
    let middle = octet(s, at + 1) as u32;
    let low = octet(s, at + 2) as u32;
    high * 65536 + middle * 256 + low
}

// The latitude in the three octets from `at`.
pub fn latitude_at(s: &[u8], at: usize) -> LatitudeCode
    requires { at + 3 ≤ length s.now }
    ensures { result ≡ latitude_in s.now (8 * at) }
{
    let n = three_octets(s, at);
    LatitudeCode(n / 8388608 == 1, n % 8388608)
}

// The longitude in the three octets from `at`.
pub fn longitude_at(s: &[u8], at: usize) -> LongitudeCode
    requires { at + 3 ≤ length s.now }
    ensures { result ≡ longitude_in s.now (8 * at) }
{
    LongitudeCode(from_complement(three_octets(s, at)))
}

// The number of 24 bits in two's complement.
fn from_complement(v: u32) -> i32
    requires { v < 16777216 }
    ensures { result ≡ from_complement v }
{
    if v < 8388608 {
        return v as i32;
    }
    v as i32 - 16777216
}

// The altitude in the two octets from `at`.
pub fn altitude_at(s: &[u8], at: usize) -> AltitudeCode
    requires { at + 2 ≤ length s.now }
    ensures { result ≡ altitude_in s.now (8 * at) }
{
    let n = word(s, at);
    AltitudeCode(n / 32768 == 1, n % 32768)
}

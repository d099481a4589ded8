// Numbers and codes stored as octets in a lent buffer, high octet first. A sign is made a part of its number before that is stored, so
// that the compiler needs no branch for it, which a processor could not guess.
ghost use Rattle.std.specs.Prelude.{◌≡◌, [], ◌∷◌, ◌+◌, ◌<◌, ◌≤◌, length};
ghost use Rattle.std.proofs.lemmas.List.Edits.{sets};
ghost use Rattle.octets.specs.Bits.{octets};
ghost use Rattle.octets.specs.Codes.{complement, latitude_bits, level_bits, position, level};

use ground::{AltitudeCode, LatitudeCode, LongitudeCode};

// Stores one octet.
pub fn put_octet(out: &mut [u8], at: usize, n: u8)
    requires { at < length out.old }
    ensures { out.new ≡ sets out.old at (n ∷ []) }
{
    out[at] = n;
}

// Stores the two octets of a number.
pub fn put_word(out: &mut [u8], at: usize, n: u16)
    requires { at + 2 ≤ length out.old }
    ensures { out.new ≡ sets out.old at (octets 2 n) }
{
    out[at] = (n / 256 % 256) as u8;
    out[at + 1] = (n % 256) as u8;
}

// Stores the three octets of a number.
pub fn put_three(out: &mut [u8], at: usize, n: u32)
    requires { at + 3 ≤ length out.old }
    ensures { out.new ≡ sets out.old at (octets 3 n) }
{
    out[at] = (n / 256 / 256 % 256) as u8;
    out[at + 1] = (n / 256 % 256) as u8;
    out[at + 2] = (n % 256) as u8;
}

// Stores the three octets of a latitude.
pub fn put_latitude(out: &mut [u8], at: usize, latitude: LatitudeCode)
    requires at_in_bounds { at + 3 ≤ length out.old }
    requires latitude_bound { latitude.1 < 8388608 }
    ensures { out.new ≡ sets out.old at (octets 3 (latitude_bits latitude)) }
{
    put_three(out, at, latitude_bits(latitude));
}

// The number of 24 bits that a sign and a latitude make.
fn latitude_bits(latitude: LatitudeCode) -> u32
    requires { latitude.1 < 8388608 }
    ensures { result ≡ latitude_bits latitude }
{
    8388608 * u32::from(latitude.0) + latitude.1
}

// The number of 24 bits that stands for a longitude, or 2^24 where there is none.
pub fn complement_of(longitude: LongitudeCode) -> u32
    ensures { result ≡ complement longitude.0 }
{
    let n = longitude.0;
    if n < -8388608 {
        return 16777216;
    }
    if n < 8388608 {
        if n < 0 {
            return (n + 16777216) as u32;
        }
        return n as u32;
    }
    16777216
}

// Stores the six octets of a position.
pub fn put_position(out: &mut [u8], at: usize, latitude: LatitudeCode, longitude: LongitudeCode)
    requires at_in_bounds { at + 6 ≤ length out.old }
    requires latitude_bound { latitude.1 < 8388608 }
    ensures { out.new ≡ sets out.old at (position latitude longitude) }
{
    put_latitude(out, at, latitude);
    let turn = complement_of(longitude);
    put_three(out, at + 3, turn);
}

// Stores the two octets of an altitude.
pub fn put_altitude(out: &mut [u8], at: usize, altitude: AltitudeCode)
    requires at_in_bounds { at + 2 ≤ length out.old }
    requires altitude_bound { altitude.1 < 32768 }
    ensures { out.new ≡ sets out.old at (level altitude) }
{
    put_word(out, at, level_bits(altitude));
}

// The number of 16 bits that a direction and an altitude make.
fn level_bits(altitude: AltitudeCode) -> u16
    requires { altitude.1 < 32768 }
    ensures { result ≡ level_bits altitude }
{
    32768 * u16::from(altitude.0) + altitude.1
}

// Stores four octets.
pub fn put_four(out: &mut [u8], at: usize, a: u8, b: u8, c: u8, d: u8)
    requires { at + 4 ≤ length out.old }
    ensures { out.new ≡ sets out.old at (a ∷ b ∷ c ∷ d ∷ []) }
{
    out[at] = a;
    out[at + 1] = b;
    out[at + 2] = c;
    out[at + 3] = d;
}

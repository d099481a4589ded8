// The numbers of codes. A number that a code's own type can't hold is taken as the largest that it holds, where that is outside the
// code's field too.
ghost use Rattle.std.specs.Prelude.{◌≡◌, ◌++◌, ◌≤◌, length, drop};
ghost use Rattle.octets.specs.Codes.{bit_of};
ghost use Rattle.code_arrays.specs.CodeNumbers.{capped, from_bits, bits_of};

use ground::LongitudeCode;

pub fn capped_octet(n: u32) -> u8
    ensures { result ≡ capped 255 n }
{
    u8::try_from(n).unwrap_or(u8::MAX)
}

pub fn capped_word(n: u32) -> u16
    ensures { result ≡ capped 65535 n }
{
    u16::try_from(n).unwrap_or(u16::MAX)
}

// The number of a sign.
pub fn bit(sign: bool) -> u32
    ensures { result ≡ bit_of sign }
{
    u32::from(sign)
}

// A longitude code and its 32 bits in two's complement.
pub fn longitude_of(n: u32) -> LongitudeCode
    ensures { result.0 ≡ from_bits n }
{
    if n < 2147483648 {
        return LongitudeCode(n as i32);
    }
    LongitudeCode(!((4294967295 - n) as i32))
}

pub fn complement_of(code: LongitudeCode) -> u32
    ensures { result ≡ bits_of code.0 }
{
    let n = code.0;
    if n < 0 {
        return 4294967295 - ((!n) as u32);
    }
    n as u32
}

// Puts the elements into the first of the array, one by one, so that the compiler stores each where it is made.
pub fn put_codes(out: &mut [u32], src: &[u32])
    requires { length src.now ≤ length out.old }
    ensures { out.new ≡ src.now ++ drop (length src.now) out.old }
{
    for i in 0..src.len() {
        out[i] = src[i];
    }
}

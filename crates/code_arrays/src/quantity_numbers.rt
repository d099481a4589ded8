// The numbers of quantities, in the widths in which they arrive.
ghost use Rattle.std.specs.Prelude.{◌≡◌, ◌++◌, ◌≤◌, length, drop, pos};
ghost use Rattle.ground.specs.Answers.{Decides};
ghost use Rattle.code_arrays.specs.QuantityNumbers.{missing, Natural32, natural_of, Signed32, signed_of};

use ground::Whole;

// A number of 32 bits with a sign.
#[derive(Clone, Copy)]
pub struct Narrow(pub i32);

// The mark of a missing quantity: the least number of 64 bits.
pub fn missing() -> Whole
    ensures { result.0 ≡ missing }
{
    Whole(-9223372036854775808)
}

pub fn is_missing(element: Whole) -> bool
    ensures { Decides result (element.0 ≡ missing) }
{
    element.0 == i64::MIN
}

// Whether 32 bits without a sign hold the number, and the number, 0 where they don't.
pub fn is_natural(element: Whole) -> bool
    ensures { Decides result (Natural32 element.0) }
{
    matches!(element.0, 0..=4294967295)
}

pub fn natural(element: Whole) -> u32
    ensures { result ≡ natural_of element.0 }
{
    u32::try_from(element.0).unwrap_or(0)
}

// The same of 32 bits with a sign.
pub fn is_signed(element: Whole) -> bool
    ensures { Decides result (Signed32 element.0) }
{
    matches!(element.0, -2147483648..=2147483647)
}

pub fn signed(element: Whole) -> Narrow
    ensures { result.0 ≡ signed_of element.0 }
{
    Narrow(i32::try_from(element.0).unwrap_or(0))
}

// A number of 32 bits in an element.
pub fn wide(n: u32) -> Whole
    ensures { result.0 ≡ pos n }
{
    Whole(i64::from(n))
}

pub fn wide_signed(n: Narrow) -> Whole
    ensures { result.0 ≡ n.0 }
{
    Whole(i64::from(n.0))
}

// Puts the elements into the first of the array.
pub fn put_quantities(out: &mut [i64], src: &[i64])
    requires { length src.now ≤ length out.old }
    ensures { out.new ≡ src.now ++ drop (length src.now) out.old }
{
    out[..src.len()].copy_from_slice(src);
}

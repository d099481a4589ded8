// A numeral as a number of some width, where minus zero is zero.
ghost use Rattle.text.specs.Widths.{AsSigned64, AsSigned32, AsUnsigned32, AsSize};

use ground::Parts;

// The size of a code that has no sign, at most the largest that 64 bits hold.
#[derive(Clone, Copy)]
pub enum Size {
    Code(u64),
    Below,
    Nothing,
}

pub fn signed_64(n: Option<Parts>) -> Option<i64>
    ensures { AsSigned64 n result }
{
    let p = n?;
    if p.negative {
        return 0i64.checked_sub_unsigned(p.size);
    }
    0i64.checked_add_unsigned(p.size)
}

pub fn signed_32(n: Option<Parts>) -> Option<i32>
    ensures { AsSigned32 n result }
{
    i32::try_from(signed_64(n)?).ok()
}

pub fn unsigned_32(n: Option<Parts>) -> Option<u32>
    ensures { AsUnsigned32 n result }
{
    u32::try_from(signed_64(n)?).ok()
}

pub fn size_of(n: Option<Parts>) -> Size
    ensures { AsSize n result }
{
    let Some(p) = n else {
        return Size::Nothing;
    };
    if p.negative && p.size != 0 {
        return Size::Below;
    }
    Size::Code(p.size)
}

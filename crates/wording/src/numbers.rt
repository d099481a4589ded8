// A number after a space, and the head of a record's text, put into a lent buffer. No number takes more than 20 octets.
ghost use Rattle.std.specs.Prelude.{◌+◌, ◌≤◌, pos, length};
ghost use Rattle.text.specs.Text.{PutsWithin};
ghost use Rattle.wording.specs.Numbers.{number_text, head_text};

use ground::Whole;

pub fn put_signed(out: &mut [u8], at: usize, x: Whole) -> usize
    requires { at + 21 ≤ length out.old }
    ensures { PutsWithin 21 out.old at (number_text x.0) out.new result }
{
    let next = text::put_byte(out, at, 32);
    text::put_number(out, next, x)
}

pub fn put_natural(out: &mut [u8], at: usize, n: u32) -> usize
    requires { at + 21 ≤ length out.old }
    ensures { PutsWithin 21 out.old at (number_text (pos n)) out.new result }
{
    let next = text::put_byte(out, at, 32);
    text::put_decimal(out, next, n as u64)
}

// Puts the answer 0 and the type.
pub fn put_head(out: &mut [u8], at: usize, type_number: u8) -> usize
    requires { at + 22 ≤ length out.old }
    ensures { PutsWithin 22 out.old at (head_text type_number) out.new result }
{
    let next = text::put_bytes(out, at, b"0 ");
    text::put_short(out, next, type_number as u64)
}

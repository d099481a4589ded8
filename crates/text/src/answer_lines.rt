// The text of a line's answer, put into a lent buffer. No answer takes more than 46 octets.
ghost use Rattle.std.specs.Prelude.{◌+◌, ◌≤◌, length};
ghost use Rattle.text.specs.Text.{PutsWithin};
ghost use Rattle.text.specs.AnswerLines.{line_text, end_text, said_line_text, sign_text};

use crate::said::SaidLine;

// Puts the line's number and its answer, and answers the place after them.
pub fn put_line(out: &mut [u8], at: usize, number: u64, said: SaidLine) -> usize
    requires { at + 46 ≤ length out.old }
    ensures { PutsWithin 46 out.old at (line_text number said) out.new result }
{
    let space = crate::put_decimal(out, at, number);
    let answer = crate::put_byte(out, space, 32);
    let end = put_said(out, answer, said);
    crate::put_byte(out, end, 10)
}

// Puts the last line, and answers the place after it.
pub fn put_end(out: &mut [u8], at: usize, lines: u64) -> usize
    requires { at + 46 ≤ length out.old }
    ensures { PutsWithin 46 out.old at (end_text lines) out.new result }
{
    let number = crate::put_bytes(out, at, b"end ");
    let newline = crate::put_decimal(out, number, lines);
    crate::put_byte(out, newline, 10)
}

// Puts the answer alone.
fn put_said(out: &mut [u8], at: usize, said: SaidLine) -> usize
    requires { at + 24 ≤ length out.old }
    ensures { PutsWithin 24 out.old at (said_line_text said) out.new result }
{
    match said {
        SaidLine::Unreadable => crate::put_byte(out, at, 45),
        SaidLine::Refused(number) => crate::put_decimal(out, at, number),
        SaidLine::Missing => crate::put_bytes(out, at, b"0 -"),
        SaidLine::One(x) => {
            let next = crate::put_bytes(out, at, b"0 ");
            crate::put_number(out, next, x)
        }
        SaidLine::Two(sign, x) => {
            let next = put_sign(out, at, sign);
            crate::put_number(out, next, x)
        }
    }
}

// Puts the answer 0 and the sign.
fn put_sign(out: &mut [u8], at: usize, sign: bool) -> usize
    requires { at + 4 ≤ length out.old }
    ensures { PutsWithin 4 out.old at (sign_text sign) out.new result }
{
    if sign {
        return crate::put_bytes(out, at, b"0 1 ");
    }
    crate::put_bytes(out, at, b"0 0 ")
}

// What is listed for a frame, put into a lent buffer: document 01, "The lister". Each function answers the place after what it put.
ghost use Rattle.std.specs.Prelude.{◌+◌, ◌≤◌, ◌<◌, ◌^◌, length};
ghost use Rattle.text.specs.Text.{PutsWithin};
ghost use Rattle.frames.specs.Frames.{octets_of};
ghost use Rattle.listing.specs.Steps.{line_of, broken_of, text_of, longest_step};

use frames::Frame;
use ground::Refusal;

// Puts what is listed for the frame at the start of s, after so many unbroken ones.
pub fn put_step(out: &mut [u8], at: usize, frame: Frame, s: &[u8], unbroken: u64) -> usize
    requires longest_step_in_bounds { at + longest_step ≤ length out.old }
    requires unbroken_bound { unbroken + 1 < 2 ^ 64 }
    requires frame_in_bounds { octets_of frame ≤ length s.now }
    ensures { PutsWithin longest_step out.old at (text_of frame unbroken s.now) out.new result }
{
    let number = unbroken + 1;
    match frame {
        Frame::Whole { kind, size } => put_line(out, at, number, kind, &s[4..4 + size]),
        Frame::Broken => {
            let end = put_broken(out, at, number);
            text::put_end(out, end, unbroken)
        }
        Frame::More => at,
        Frame::End => text::put_end(out, at, unbroken),
    }
}

fn put_line(out: &mut [u8], at: usize, number: u64, kind: u8, message: &[u8]) -> usize
    requires { at + longest_step ≤ length out.old }
    ensures { PutsWithin longest_step out.old at (line_of number kind message.now) out.new result }
{
    let space = text::put_decimal(out, at, number);
    let kind_at = text::put_byte(out, space, 32);
    let next_space = text::put_decimal(out, kind_at, kind as u64);
    let answer = text::put_byte(out, next_space, 32);
    let newline = wording::put_message(out, answer, kind, message);
    text::put_byte(out, newline, 10)
}

fn put_broken(out: &mut [u8], at: usize, number: u64) -> usize
    requires { at + 44 ≤ length out.old }
    ensures { PutsWithin 44 out.old at (broken_of number) out.new result }
{
    let dash = text::put_decimal(out, at, number);
    let answer = text::put_bytes(out, dash, b" - ");
    let newline = text::put_decimal(out, answer, u64::from(Refusal::FrameBroken));
    text::put_byte(out, newline, 10)
}

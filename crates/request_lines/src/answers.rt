// The text of an answer, put into a lent buffer. No answer takes more than 65 octets.
ghost use Rattle.std.specs.Prelude.{◌+◌, ◌≤◌, length};
ghost use Rattle.text.specs.Text.{PutsWithin};
ghost use Rattle.request_lines.specs.Answers.{Short, answered, choice_text, said_text};

use ground::Refusal;

// What a line is answered: that it says no request, or the refusal of the request or its message.
#[derive(Clone, Copy)]
pub enum Answer<'a> {
    Unreadable,
    Refused(Refusal),
    Message(&'a [u8]),
}

// Puts the line's number and its answer, and answers the place after them.
pub fn put_answer(out: &mut [u8], at: usize, number: u64, answer: Answer<'_>) -> usize
    requires message_len_bound { Short answer }
    requires at_in_bounds { at + 65 ≤ length out.old }
    ensures { PutsWithin 65 out.old at (choice_text number (answered answer.entry)) out.new result }
{
    let space = text::put_decimal(out, at, number);
    let said = text::put_byte(out, space, 32);
    let end = put_said(out, said, answer);
    text::put_byte(out, end, 10)
}

// Puts the answer alone.
fn put_said(out: &mut [u8], at: usize, answer: Answer<'_>) -> usize
    requires message_len_bound { Short answer }
    requires at_in_bounds { at + 43 ≤ length out.old }
    ensures { PutsWithin 43 out.old at (said_text (answered answer.entry)) out.new result }
{
    match answer {
        Answer::Unreadable => text::put_byte(out, at, 45),
        Answer::Refused(why) => text::put_decimal(out, at, u64::from(why)),
        Answer::Message(message) => {
            let next = text::put_byte(out, at, 48);
            text::put_octets(out, next, message)
        }
    }
}

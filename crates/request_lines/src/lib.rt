// A line of the chooser's input, the receiver's list or a request, and the text of a request's answer.
#![tactic(auto)]

mod amounts;
mod answers;
mod entries;
mod request;

ghost use Rattle.request_lines.specs.Asking.{ReadsList};

pub use answers::{Answer, put_answer};
pub use request::{area_given, horizontal_of, request_in};

// What should say a request, and says none.
#[derive(Clone, Copy, Debug, PartialEq, Eq)]
pub struct Unreadable;

// The receiver's list that the line writes: a number that 16 bits can hold.
pub fn list_in(line: &[u8]) -> Option<u16>
    ensures { ReadsList line.now result }
{
    u16::try_from(text::unsigned_32(text::number_in(line))?).ok()
}

// The message of the record that a shape's elements say, stored as octets: document 01, "Octet layouts".
#![tactic(auto)]

mod message;
mod points;

ghost use Rattle.std.specs.Prelude.{◌≡◌, ◌≤◌, length};
ghost use Rattle.code_arrays.specs.Shapes.{array_kind, array_rows, value_in};
ghost use Rattle.judging.specs.Judging.{RecordAnswer};
ghost use Rattle.composing.specs.Composing.{WritesElements};

use ground::Refusal;
use layout::Kind;

// Writes the message into the first octets of the buffer, or refuses the record and leaves the buffer as it is.
pub fn write(out: &mut [u8], codes: &[u32]) -> Result<usize, Refusal>
    requires { 61 ≤ length codes.now }
    ensures { WritesElements codes.now out.old out.new result }
{
    let kind = code_arrays::kind_in(codes);
    judging::outcome(codes, kind)?;
    write_taken(out, codes, kind)
}

// 10, of a record that is taken.
fn write_taken(out: &mut [u8], codes: &[u32], kind: Kind) -> Result<usize, Refusal>
    requires in_bounds { 61 ≤ length codes.now }
    requires kind_value { kind ≡ array_kind codes.now }
    requires record_answer { RecordAnswer (array_rows codes.now) (value_in codes.now) 0 }
    ensures { WritesElements codes.now out.old out.new result }
{
    let length = layout::message_length(kind, codes[1] as u8);
    if out.len() < length {
        return Err(Refusal::BufferTooShort);
    }
    message::store_shape(out, codes, kind);
    Ok(length)
}

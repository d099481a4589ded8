// The choice of shape for one point: document 01, "When a message holds a request". The request's codes are found once; which
// kind is best is read off them, and its message is stored.
#![tactic(auto)]

mod kind;
mod message;
mod request_codes;

ghost use Rattle.std.specs.Prelude.{◌≡◌};
ghost use Rattle.ground.specs.Answers.{outcome_number, value_or};
ghost use Rattle.requests.specs.Choice.{Listed, Chooses};
ghost use Rattle.requests.specs.Codes.{Tame};
ghost use Rattle.choice.specs.Writing.{WritesBest};

use ground::Refusal;
use requests::{Request, Wanted};

// Writes the best message for a request, of the kinds on the receiver's list, or refuses it and leaves the buffer as it is.
pub fn choose(out: &mut [u8], request: Request, list: u16) -> Result<usize, Refusal>
    ensures { Chooses request (Listed list) out.old out.new result }
{
    let codes = request_codes::request_codes(request)?;
    write_best(out, codes, list)
}

// Writes the best message for the codes of a request. It is fixed before the room is looked at.
fn write_best(out: &mut [u8], codes: Wanted, list: u16) -> Result<usize, Refusal>
    requires { Tame codes }
    ensures { WritesBest codes (Listed list) out.old (outcome_number result) (value_or 0 result) out.new }
{
    let Some(kind) = kind::best_kind(codes, list) else {
        return Err(Refusal::NoneHolds);
    };
    let length = layout::message_length(kind, 0);
    if out.len() < length {
        return Err(Refusal::BufferTooShort);
    }
    message::store_choice(out, kind, codes);
    Ok(length)
}

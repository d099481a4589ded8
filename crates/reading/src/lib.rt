// Octets to a shape's record: document 01, "Octet layouts" and "Refusal numbers".
#![tactic(auto)]

ghost use Rattle.layout.specs.Shapes.{ReadsShape};

use ground::Refusal;
use layout::{Kind, Shape};

// The record in a message, or the refusal. Each octet is looked at once; 5 and 6 are judged on the record, in which a code
// that its kind has no field for is 0.
pub fn read_shape(s: &[u8]) -> Result<Shape, Refusal>
    ensures { ReadsShape s.now result }
{
    if s.len() == 0 {
        return Err(Refusal::NoOctets);
    }
    let first = octets::octet(s, 0);
    let kind = Kind::from(first / 16);
    let n = first % 16;
    forming::form(s.len(), kind, n)?;
    let shape = fetching::shape(s, kind, n);
    forming::codes_outcome(
        shape.orientation.0,
        shape.offset.0,
        shape.included.0,
        shape.confidence.0,
    )?;
    Ok(shape)
}

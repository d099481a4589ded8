// A shape's record to octets: document 01, "Octet layouts" and "Refusal numbers". A record is written by its elements.
#![tactic(auto)]

ghost use Rattle.ground.specs.Answers.{outcome_number};
ghost use Rattle.layout.specs.Shapes.{WritesShape};
ghost use Rattle.writing.specs.Writing.{ShapeAnswer};

use ground::Refusal;
use layout::{Kind, Shape};

// Writes the record's message into the first octets of the buffer, or refuses the record and leaves the buffer as it is.
pub fn write_shape(out: &mut [u8], shape: Shape) -> Result<usize, Refusal>
    ensures { WritesShape shape out.old out.new result }
{
    if let Kind::Nothing = shape.kind {
        return Err(Refusal::UnknownType);
    }
    let codes = code_arrays::elements_of(shape);
    composing::write(out, &codes)
}

// What writing the record answers, given room for its message.
pub fn shape_outcome(shape: Shape) -> Result<(), Refusal>
    ensures { ShapeAnswer shape (outcome_number result) }
{
    let kind = shape.kind;
    if let Kind::Nothing = kind {
        return Err(Refusal::UnknownType);
    }
    let codes = code_arrays::elements_of(shape);
    judging::outcome(&codes, kind)
}

// The codes of the quantities that a shape's elements say, put into elements: document 01, "Quantities and codes" and "Range 7". No record is
// made of the points.
#![tactic(auto)]

mod points;

ghost use Rattle.std.specs.Prelude.{◌≡◌, ◌≤◌, length};
ghost use Rattle.records.specs.Kinds.{Formed};
ghost use Rattle.quantity_arrays.specs.Shapes.{quantities_in, quantity_outline_in, ShapeArrives};
ghost use Rattle.array_records.specs.Records.{CodesInto};

use ground::Refusal;
use quantities::ShapeQuantities;

// Puts the codes of the quantities' own type into the first elements of the array, or refuses the quantities and leaves the array as it is.
pub fn code(codes: &mut [u32], given: &[i64]) -> Result<(), Refusal>
    requires { 44 ≤ length given.now }
    ensures { CodesInto given.now codes.old codes.new result }
{
    let outline = quantity_arrays::outline_in(given);
    let kind = outline.kind;
    records::form(kind, outline.count)?;
    if !quantity_arrays::shape_arrives(given) {
        return Err(Refusal::OutOfRange);
    }
    code_formed(codes, given, outline)
}

// 7, 8 and 10. Every code is found once: those that may be out of range first.
fn code_formed(codes: &mut [u32], given: &[i64], outline: ShapeQuantities) -> Result<(), Refusal>
    requires in_bounds { 44 ≤ length given.now }
    requires outline_value { outline ≡ quantity_outline_in given.now }
    requires formed { Formed (quantities_in given.now) }
    requires shape_arrives { ShapeArrives given.now }
    ensures { CodesInto given.now codes.old codes.new result }
{
    let kind = outline.kind;
    let uses = outline_codes::used_by(kind);
    if !outline_codes::is_zero(uses, outline) {
        return Err(Refusal::OutOfRange);
    }
    if outline.semi_major.0 < outline.semi_minor.0 {
        return Err(Refusal::OutOfRange);
    }
    let ranged = outline_codes::code_ranges(uses.arc, outline)?;
    if !points::in_range(given, outline.count) {
        return Err(Refusal::OutOfRange);
    }
    let sizes = outline_codes::code_sizes(outline)?;
    let shape = outline_codes::outlined(outline, ranged, sizes);
    if codes.len() < 61 {
        return Err(Refusal::BufferTooShort);
    }
    code_arrays::put_singles(codes, shape);
    points::put_coded_points(codes, given, outline.count);
    code_arrays::clear_from(codes, outline.count);
    Ok(())
}

// A shape's record from its quantities.
ghost use Rattle.quantities.specs.Shapes.{CodesShape};
ghost use Rattle.records.specs.Kinds.{Formed};

use crate::kinds;
use ground::Refusal;
use layout::Shape;
use quantities::ShapeQuantities;

// The record of the quantities' own type, or the refusal: 2, 4, 7, 8.
pub fn code_shape(quantities: ShapeQuantities) -> Result<Shape, Refusal>
    ensures { CodesShape quantities result }
{
    let kind = quantities.kind;
    kinds::form(kind, quantities.count)?;
    coded(quantities)
}

// 7 and 8. Every code is found once: those that may be out of range first.
fn coded(quantities: ShapeQuantities) -> Result<Shape, Refusal>
    requires { Formed quantities }
    ensures { CodesShape quantities result }
{
    let kind = quantities.kind;
    let uses = outline_codes::used_by(kind);
    if !outline_codes::is_zero(uses, quantities) {
        return Err(Refusal::OutOfRange);
    }
    if quantities.semi_major.0 < quantities.semi_minor.0 {
        return Err(Refusal::OutOfRange);
    }
    let ranged = outline_codes::code_ranges(uses.arc, quantities)?;
    let latitudes = quantities.latitudes;
    let longitudes = quantities.longitudes;
    let points = outline_codes::code_points(latitudes, longitudes, quantities.count)?;
    let sizes = outline_codes::code_sizes(quantities)?;
    let mut shape = outline_codes::outlined(quantities, ranged, sizes);
    let latitudes = points.latitudes;
    let longitudes = points.longitudes;
    shape.latitudes = latitudes;
    shape.longitudes = longitudes;
    Ok(shape)
}

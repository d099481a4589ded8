// The record of these codes and of those that are always found, but for its points.
ghost use Rattle.outline_codes.specs.Outlines.{Outlined};

use crate::ranges::Ranged;
use crate::sizes::Sizes;
use layout::Shape;
use quantities::ShapeQuantities;

pub fn outlined(quantities: ShapeQuantities, ranged: Ranged, sizes: Sizes) -> Shape
    ensures { Outlined quantities ranged sizes result }
{
    let kind = quantities.kind;
    let mut shape = layout::blank_shape(kind);
    shape.count = quantities.count;
    shape.altitude = lengths::altitude_code(quantities.altitude);
    shape.inner_radius = lengths::inner_radius_code(quantities.inner_radius);
    let latitude = ranged.latitude;
    let longitude = ranged.longitude;
    let orientation = ranged.orientation;
    let offset = ranged.offset;
    let included = ranged.included;
    let confidence = ranged.confidence;
    shape.latitude = latitude;
    shape.longitude = longitude;
    shape.orientation = orientation;
    shape.offset = offset;
    shape.included = included;
    shape.confidence = confidence;
    let uncertainty = sizes.uncertainty;
    let semi_major = sizes.semi_major;
    let semi_minor = sizes.semi_minor;
    let altitude_uncertainty = sizes.altitude_uncertainty;
    shape.uncertainty = uncertainty;
    shape.semi_major = semi_major;
    shape.semi_minor = semi_minor;
    shape.altitude_uncertainty = altitude_uncertainty;
    shape
}

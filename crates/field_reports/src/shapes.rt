// What is reported of a shape's record that the writer takes, its points aside. What its kind doesn't use is zero, and zero is reported
// as zero; an included angle alone, whose code 0 is 2 degrees, is told by the kind.
ghost use Rattle.std.specs.Prelude.{◌<◌};
ghost use Rattle.field_reports.specs.Outlines.{IncludedReported, OutlineHeld, OutlineReported};

use ground::{IncludedCode, Millidegrees, Nanodegrees};
use layout::{Kind, Shape};
use quantities::ShapeQuantities;

// The quantities of the record but for its points, of which there are none.
pub fn outline(shape: Shape) -> ShapeQuantities
    requires { OutlineHeld shape }
    ensures { OutlineReported shape result }
{
    let kind = shape.kind;
    let included = included_of(kind, shape.included);
    let confidence = crate::confidence(shape.confidence);
    ShapeQuantities {
        kind,
        latitude: crate::latitude(shape.latitude),
        longitude: crate::longitude(shape.longitude),
        altitude: crate::altitude(shape.altitude),
        uncertainty: crate::uncertainty(shape.uncertainty),
        semi_major: crate::uncertainty(shape.semi_major),
        semi_minor: crate::uncertainty(shape.semi_minor),
        orientation: crate::orientation(shape.orientation),
        altitude_uncertainty: crate::altitude_uncertainty(shape.altitude_uncertainty),
        confidence,
        inner_radius: lengths::reported_inner_radius(shape.inner_radius),
        offset: crate::offset(shape.offset),
        included,
        count: shape.count,
        latitudes: [Nanodegrees(0); 15],
        longitudes: [Nanodegrees(0); 15],
    }
}

// An arc's included angle.
fn included_of(kind: Kind, code: IncludedCode) -> Millidegrees
    requires { code.0 < 180 }
    ensures { IncludedReported kind code result }
{
    match kind {
        Kind::Arc => crate::included(code),
        _ => Millidegrees(0),
    }
}

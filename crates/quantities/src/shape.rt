// A shape's quantities: its kind, and a quantity for every code of the record. What its kind has no field for is zero, a
// confidence missing.
ghost use Rattle.std.specs.Prelude.{◌≡◌};
ghost use Rattle.quantities.specs.Shapes.{no_shape};

use ground::{Millidegrees, Millimetres, Nanodegrees, PerCent, SignedMillimetres};
use layout::Kind;

#[derive(Clone, Copy)]
pub struct ShapeQuantities {
    pub kind: Kind,
    pub latitude: Nanodegrees,
    pub longitude: Nanodegrees,
    pub altitude: SignedMillimetres,
    // of a circle or an arc
    pub uncertainty: Millimetres,
    pub semi_major: Millimetres,
    pub semi_minor: Millimetres,
    pub orientation: Millidegrees,
    pub altitude_uncertainty: Millimetres,
    pub confidence: Option<PerCent>,
    pub inner_radius: Millimetres,
    pub offset: Millidegrees,
    pub included: Millidegrees,
    // a polygon's points
    pub count: u8,
    pub latitudes: [Nanodegrees; 15],
    pub longitudes: [Nanodegrees; 15],
}

// The quantities of no shape.
pub fn no_shape() -> ShapeQuantities
    ensures { result ≡ no_shape }
{
    ShapeQuantities {
        kind: Kind::Nothing,
        latitude: Nanodegrees(0),
        longitude: Nanodegrees(0),
        altitude: SignedMillimetres(0),
        uncertainty: Millimetres(0),
        semi_major: Millimetres(0),
        semi_minor: Millimetres(0),
        orientation: Millidegrees(0),
        altitude_uncertainty: Millimetres(0),
        confidence: None,
        inner_radius: Millimetres(0),
        offset: Millidegrees(0),
        included: Millidegrees(0),
        count: 0,
        latitudes: [Nanodegrees(0); 15],
        longitudes: [Nanodegrees(0); 15],
    }
}

// Which quantities a kind of shape uses, and whether the others are zero.
ghost use Rattle.std.specs.Prelude.{◌≡◌};
ghost use Rattle.ground.specs.Answers.{Decides};
ghost use Rattle.outline_codes.specs.Kinds.{uses_of, uses_given};
ghost use Rattle.outline_codes.specs.Unused.{RestZero, NumbersZero};

use layout::Kind;
use quantities::ShapeQuantities;

// Whether a kind uses the places of a group.
#[derive(Clone, Copy)]
pub struct Uses {
    pub position: bool,
    pub altitude: bool,
    pub uncertainty: bool,
    // semi-major, semi-minor and orientation
    pub axes: bool,
    pub altitude_uncertainty: bool,
    pub confidence: bool,
    // inner radius, offset and included
    pub arc: bool,
    pub count: bool,
}

// In the order of the groups.
pub fn used_by(kind: Kind) -> Uses
    ensures { result ≡ uses_of kind }
{
    match kind {
        Kind::Nothing => used(false, false, false, false, false, false, false, false),
        Kind::Point => used(true, false, false, false, false, false, false, false),
        Kind::Circle => used(true, false, true, false, false, false, false, false),
        Kind::Ellipse => used(true, false, false, true, false, true, false, false),
        Kind::Polygon => used(false, false, false, false, false, false, false, true),
        Kind::AltitudePoint => used(true, true, false, false, false, false, false, false),
        Kind::AltitudeEllipsoid => used(true, true, false, true, true, true, false, false),
        Kind::Arc => used(true, false, true, false, false, true, true, false),
    }
}

fn used(
    position: bool,
    altitude: bool,
    uncertainty: bool,
    axes: bool,
    altitude_uncertainty: bool,
    confidence: bool,
    arc: bool,
    count: bool,
) -> Uses
    ensures { result ≡ uses_given position altitude uncertainty axes altitude_uncertainty confidence arc count }
{
    Uses {
        position,
        altitude,
        uncertainty,
        axes,
        altitude_uncertainty,
        confidence,
        arc,
        count,
    }
}

// Whether what isn't used is zero, polygon points aside.
pub fn is_zero(uses: Uses, quantities: ShapeQuantities) -> bool
    ensures { Decides result (RestZero uses quantities) }
{
    if !uses.position && (quantities.latitude.0 != 0 || quantities.longitude.0 != 0) {
        return false;
    }
    if !uses.altitude && quantities.altitude.0 != 0 {
        return false;
    }
    if !uses.confidence && quantities.confidence.is_some() {
        return false;
    }
    if !uses.count && quantities.count != 0 {
        return false;
    }
    numbers_are_zero(uses, quantities)
}

fn numbers_are_zero(uses: Uses, quantities: ShapeQuantities) -> bool
    ensures { Decides result (NumbersZero uses quantities) }
{
    if !uses.uncertainty && quantities.uncertainty.0 != 0 {
        return false;
    }
    if !uses.axes
        && (quantities.semi_major.0 != 0
            || quantities.semi_minor.0 != 0
            || quantities.orientation.0 != 0)
    {
        return false;
    }
    if !uses.altitude_uncertainty && quantities.altitude_uncertainty.0 != 0 {
        return false;
    }
    uses.arc
        || (quantities.inner_radius.0 == 0
            && quantities.offset.0 == 0
            && quantities.included.0 == 0)
}

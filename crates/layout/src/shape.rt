// A shape's record: its kind, and the codes of every field that any shape has. What its kind has no field for is zero.
ghost use Rattle.std.specs.Prelude.{◌≡◌, ◌*◌};
ghost use Rattle.layout.specs.Layout.{type_of, shape_rows};
ghost use Rattle.layout.specs.Rows.{length_of};
ghost use Rattle.layout.specs.Shapes.{blank_shape, kind_of};

use ground::{
    AltitudeCode, AltitudeUncertaintyCode, ConfidenceCode, IncludedCode, InnerRadiusCode,
    LatitudeCode, LongitudeCode, OffsetCode, OrientationCode, UncertaintyCode,
};

#[derive(Clone, Copy)]
pub enum Kind {
    // of a number that no shape's type has
    Nothing,
    Point,
    Circle,
    Ellipse,
    Polygon,
    AltitudePoint,
    AltitudeEllipsoid,
    Arc,
}

#[derive(Clone, Copy)]
pub struct Shape {
    pub kind: Kind,
    pub latitude: LatitudeCode,
    pub longitude: LongitudeCode,
    pub altitude: AltitudeCode,
    // of a circle or an arc
    pub uncertainty: UncertaintyCode,
    pub semi_major: UncertaintyCode,
    pub semi_minor: UncertaintyCode,
    pub orientation: OrientationCode,
    pub altitude_uncertainty: AltitudeUncertaintyCode,
    pub confidence: ConfidenceCode,
    pub inner_radius: InnerRadiusCode,
    pub offset: OffsetCode,
    pub included: IncludedCode,
    // a polygon's points
    pub count: u8,
    pub latitudes: [LatitudeCode; 15],
    pub longitudes: [LongitudeCode; 15],
}

// The record of that kind in which every code is zero.
pub fn blank_shape(kind: Kind) -> Shape
    ensures { result ≡ blank_shape kind }
{
    Shape {
        kind,
        latitude: LatitudeCode(false, 0),
        longitude: LongitudeCode(0),
        altitude: AltitudeCode(false, 0),
        uncertainty: UncertaintyCode(0),
        semi_major: UncertaintyCode(0),
        semi_minor: UncertaintyCode(0),
        orientation: OrientationCode(0),
        altitude_uncertainty: AltitudeUncertaintyCode(0),
        confidence: ConfidenceCode(0),
        inner_radius: InnerRadiusCode(0),
        offset: OffsetCode(0),
        included: IncludedCode(0),
        count: 0,
        latitudes: [LatitudeCode(false, 0); 15],
        longitudes: [LongitudeCode(0); 15],
    }
}

// The kind of a type's number.
impl From<u8> for Kind {
    ghost from_gives = { λ number kind. kind ≡ kind_of number };

    fn from(number: u8) -> Kind {
        match number {
            0 => Kind::Point,
            1 => Kind::Circle,
            3 => Kind::Ellipse,
            5 => Kind::Polygon,
            8 => Kind::AltitudePoint,
            9 => Kind::AltitudeEllipsoid,
            10 => Kind::Arc,
            _ => Kind::Nothing,
        }
    }
}

// The type's number.
impl From<Kind> for u8 {
    ghost from_gives = { λ kind number. number ≡ type_of kind };

    fn from(kind: Kind) -> u8 {
        match kind {
            Kind::Nothing => 0,
            Kind::Point => 0,
            Kind::Circle => 1,
            Kind::Ellipse => 3,
            Kind::Polygon => 5,
            Kind::AltitudePoint => 8,
            Kind::AltitudeEllipsoid => 9,
            Kind::Arc => 10,
        }
    }
}

// The type in bits 8 to 5; a polygon's count is added to it.
pub fn first_octet(kind: Kind) -> u8
    ensures { result ≡ 16 * type_of kind }
{
    16 * u8::from(kind)
}

// The length of a kind's message; n is a polygon's count.
pub fn message_length(kind: Kind, n: u8) -> usize
    ensures { result ≡ length_of (shape_rows kind n) }
{
    match kind {
        Kind::Nothing => 0,
        Kind::Point => 7,
        Kind::Circle => 8,
        Kind::Ellipse => 11,
        Kind::Polygon => 1 + 6 * (n as usize),
        Kind::AltitudePoint => 9,
        Kind::AltitudeEllipsoid => 14,
        Kind::Arc => 13,
    }
}

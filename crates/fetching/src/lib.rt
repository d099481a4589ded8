// The record in the octets of a message of a kind, whose length is the kind's: document 01, "Octet layouts".
#![tactic(auto)]

mod points;

ghost use Rattle.std.specs.Prelude.{◌≡◌, ◌≤◌, length};
ghost use Rattle.octets.specs.Bits.{bits};
ghost use Rattle.layout.specs.declared.shape.Kind.TheVariants.{Circle, Ellipse, AltitudeEllipsoid, Arc};
ghost use Rattle.fetching.specs.Fetching.{ShapeOfLength, shape_of_kind, start_of, level_of};

use ground::{
    AltitudeUncertaintyCode, ConfidenceCode, IncludedCode, InnerRadiusCode, OffsetCode,
    OrientationCode, UncertaintyCode,
};
use layout::{Kind, Shape};

// n is a polygon's count.
pub fn shape(s: &[u8], kind: Kind, n: u8) -> Shape
    requires n_value { n ≡ bits s.now 4 4 }
    requires shape_of_length { ShapeOfLength kind s.now }
    ensures { result ≡ shape_of_kind kind s.now }
{
    match kind {
        Kind::Nothing => layout::blank_shape(Kind::Nothing),
        Kind::Point => started(s, Kind::Point),
        Kind::Circle => circle(s),
        Kind::Ellipse => ellipse(s),
        Kind::Polygon => points::polygon(s, n),
        Kind::AltitudePoint => levelled(s, Kind::AltitudePoint),
        Kind::AltitudeEllipsoid => altitude_ellipsoid(s),
        Kind::Arc => arc(s),
    }
}

// The position that every shape but a polygon starts with.
fn started(s: &[u8], kind: Kind) -> Shape
    requires { 7 ≤ length s.now }
    ensures { result ≡ start_of kind s.now }
{
    let mut shape = layout::blank_shape(kind);
    shape.latitude = octets::latitude_at(s, 1);
    shape.longitude = octets::longitude_at(s, 4);
    shape
}

fn circle(s: &[u8]) -> Shape
    requires { 8 ≤ length s.now }
    ensures { result ≡ shape_of_kind Circle s.now }
{
    let mut shape = started(s, Kind::Circle);
    let uncertainty = UncertaintyCode(octets::low_seven(s, 7));
    shape.uncertainty = uncertainty;
    shape
}

fn ellipse(s: &[u8]) -> Shape
    requires { 11 ≤ length s.now }
    ensures { result ≡ shape_of_kind Ellipse s.now }
{
    let mut shape = started(s, Kind::Ellipse);
    let semi_major = UncertaintyCode(octets::low_seven(s, 7));
    let semi_minor = UncertaintyCode(octets::low_seven(s, 8));
    let orientation = OrientationCode(octets::octet(s, 9));
    let confidence = ConfidenceCode(octets::low_seven(s, 10));
    shape.semi_major = semi_major;
    shape.semi_minor = semi_minor;
    shape.orientation = orientation;
    shape.confidence = confidence;
    shape
}

// The position and the altitude.
fn levelled(s: &[u8], kind: Kind) -> Shape
    requires { 9 ≤ length s.now }
    ensures { result ≡ level_of kind s.now }
{
    let mut shape = started(s, kind);
    shape.altitude = octets::altitude_at(s, 7);
    shape
}

fn altitude_ellipsoid(s: &[u8]) -> Shape
    requires { 14 ≤ length s.now }
    ensures { result ≡ shape_of_kind AltitudeEllipsoid s.now }
{
    let mut shape = levelled(s, Kind::AltitudeEllipsoid);
    let semi_major = UncertaintyCode(octets::low_seven(s, 9));
    let semi_minor = UncertaintyCode(octets::low_seven(s, 10));
    let orientation = OrientationCode(octets::octet(s, 11));
    let altitude_uncertainty = AltitudeUncertaintyCode(octets::low_seven(s, 12));
    let confidence = ConfidenceCode(octets::low_seven(s, 13));
    shape.semi_major = semi_major;
    shape.semi_minor = semi_minor;
    shape.orientation = orientation;
    shape.altitude_uncertainty = altitude_uncertainty;
    shape.confidence = confidence;
    shape
}

fn arc(s: &[u8]) -> Shape
    requires { 13 ≤ length s.now }
    ensures { result ≡ shape_of_kind Arc s.now }
{
    let mut shape = started(s, Kind::Arc);
    let inner_radius = InnerRadiusCode(octets::word(s, 7));
    let uncertainty = UncertaintyCode(octets::low_seven(s, 9));
    let offset = OffsetCode(octets::octet(s, 10));
    let included = IncludedCode(octets::octet(s, 11));
    let confidence = ConfidenceCode(octets::low_seven(s, 12));
    shape.inner_radius = inner_radius;
    shape.uncertainty = uncertainty;
    shape.offset = offset;
    shape.included = included;
    shape.confidence = confidence;
    shape
}

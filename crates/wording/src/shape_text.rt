// The text of a shape that the writer takes, put into a lent buffer: document 01, "The lister".
ghost use Rattle.std.specs.Prelude.{◌+◌, ◌≤◌, ◌<◌, length};
ghost use Rattle.std.specs.Int.Signed.{mag};
ghost use Rattle.text.specs.Text.{PutsWithin};
ghost use Rattle.fields.specs.Fields as field;
ghost use Rattle.layout.specs.declared.shape.Kind.TheVariants.{AltitudeEllipsoid, Arc};
ghost use Rattle.quantities.specs.Shapes.{TakesShape};
ghost use Rattle.wording.specs.Numbers.{code_text};
ghost use Rattle.wording.specs.ShapeTexts.{shape_text, position_text, axes_text, points_text, rest_text, PointsHeld};

use crate::numbers;
use ground::{
    ConfidenceCode, LatitudeCode, LongitudeCode, OrientationCode, UncertaintyCode, Whole,
};
use layout::{Kind, Shape};

pub fn put_shape(out: &mut [u8], at: usize, shape: Shape) -> usize
    requires at_in_bounds { at + 680 ≤ length out.old }
    requires takes_shape { TakesShape shape }
    ensures { PutsWithin 680 out.old at (shape_text shape) out.new result }
{
    let kind = shape.kind;
    let a = numbers::put_head(out, at, u8::from(kind));
    if let Kind::Polygon = kind {
        let latitudes = shape.latitudes;
        let longitudes = shape.longitudes;
        let b = numbers::put_natural(out, a, shape.count as u32);
        return put_points(out, b, latitudes, longitudes, shape.count);
    }
    let latitude = shape.latitude;
    let longitude = shape.longitude;
    let b = put_position(out, a, latitude, longitude);
    put_rest(out, b, shape)
}

fn put_position(
    out: &mut [u8],
    at: usize,
    latitude: LatitudeCode,
    longitude: LongitudeCode,
) -> usize
    requires at_in_bounds { at + 42 ≤ length out.old }
    requires latitude_bound { latitude.1 < 8388608 }
    requires longitude_bound { mag longitude.0 < 8388608 }
    ensures { PutsWithin 42 out.old at (position_text latitude longitude) out.new result }
{
    let next = numbers::put_signed(out, at, Whole(field_reports::latitude(latitude).0));
    numbers::put_signed(out, next, Whole(field_reports::longitude(longitude).0))
}

// Puts the first n points.
fn put_points(
    out: &mut [u8],
    at: usize,
    latitudes: [LatitudeCode; 15],
    longitudes: [LongitudeCode; 15],
    n: u8,
) -> usize
    requires at_in_bounds { at + 630 ≤ length out.old }
    requires n_bound { n ≤ 15 }
    requires points_held { PointsHeld latitudes longitudes }
    ensures { PutsWithin 630 out.old at (points_text latitudes longitudes n) out.new result }
{
    let end = n as usize;
    let mut next = at;
    for i in 0..end {
        let latitude = latitudes[i];
        let longitude = longitudes[i];
        next = put_position(out, next, latitude, longitude);
    }
    next
}

fn put_axes(
    out: &mut [u8],
    at: usize,
    semi_major: UncertaintyCode,
    semi_minor: UncertaintyCode,
    orientation: OrientationCode,
) -> usize
    requires at_in_bounds { at + 63 ≤ length out.old }
    requires semi_major_bound { semi_major.0 < 128 }
    requires semi_minor_bound { semi_minor.0 < 128 }
    requires orientation_bound { orientation.0 < 180 }
    ensures { PutsWithin 63 out.old at (axes_text semi_major semi_minor orientation) out.new result }
{
    let a = numbers::put_natural(out, at, field_reports::uncertainty(semi_major).0);
    let b = numbers::put_natural(out, a, field_reports::uncertainty(semi_minor).0);
    numbers::put_natural(out, b, field_reports::orientation(orientation).0)
}

// Puts what the kind has after the position.
fn put_rest(out: &mut [u8], at: usize, shape: Shape) -> usize
    requires at_in_bounds { at + 126 ≤ length out.old }
    requires takes_shape { TakesShape shape }
    ensures { PutsWithin 126 out.old at (rest_text shape.kind shape) out.new result }
{
    let kind = shape.kind;
    match kind {
        Kind::Nothing => at,
        Kind::Point => at,
        Kind::Circle => numbers::put_natural(
            out,
            at,
            field_reports::uncertainty(shape.uncertainty).0,
        ),
        Kind::Ellipse => {
            let a = put_axes(
                out,
                at,
                shape.semi_major,
                shape.semi_minor,
                shape.orientation,
            );
            put_confidence(out, a, shape.confidence)
        }
        Kind::Polygon => at,
        Kind::AltitudePoint => {
            numbers::put_signed(
                out,
                at,
                Whole(field_reports::altitude(shape.altitude).0 as i64),
            )
        }
        Kind::AltitudeEllipsoid => put_ellipsoid(out, at, shape),
        Kind::Arc => put_arc(out, at, shape),
    }
}

fn put_ellipsoid(out: &mut [u8], at: usize, shape: Shape) -> usize
    requires at_in_bounds { at + 126 ≤ length out.old }
    requires takes_shape { TakesShape shape }
    ensures { PutsWithin 126 out.old at (rest_text AltitudeEllipsoid shape) out.new result }
{
    let a = numbers::put_signed(
        out,
        at,
        Whole(field_reports::altitude(shape.altitude).0 as i64),
    );
    let b = put_axes(
        out,
        a,
        shape.semi_major,
        shape.semi_minor,
        shape.orientation,
    );
    let c = numbers::put_natural(
        out,
        b,
        field_reports::altitude_uncertainty(shape.altitude_uncertainty).0,
    );
    put_confidence(out, c, shape.confidence)
}

fn put_arc(out: &mut [u8], at: usize, shape: Shape) -> usize
    requires at_in_bounds { at + 126 ≤ length out.old }
    requires takes_shape { TakesShape shape }
    ensures { PutsWithin 126 out.old at (rest_text Arc shape) out.new result }
{
    let a = numbers::put_natural(
        out,
        at,
        lengths::reported_inner_radius(shape.inner_radius).0,
    );
    let b = numbers::put_natural(out, a, field_reports::uncertainty(shape.uncertainty).0);
    let c = numbers::put_natural(out, b, field_reports::offset(shape.offset).0);
    let d = numbers::put_natural(out, c, field_reports::included(shape.included).0);
    put_confidence(out, d, shape.confidence)
}

// Puts what is reported of the code, or the mark of a missing quantity.
fn put_confidence(out: &mut [u8], at: usize, code: ConfidenceCode) -> usize
    requires at_in_bounds { at + 21 ≤ length out.old }
    requires code_bound { code.0 < 101 }
    ensures { PutsWithin 21 out.old at (code_text field.confidence code) out.new result }
{
    match field_reports::confidence(code) {
        Some(p) => numbers::put_natural(out, at, p.0),
        None => text::put_bytes(out, at, b" -"),
    }
}

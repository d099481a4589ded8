// The message of a record that can be written.
ghost use Rattle.std.specs.Prelude.{◌≡◌, ◌≤◌, length};
ghost use Rattle.std.proofs.lemmas.List.Edits.{sets};
ghost use Rattle.layout.specs.Demands.{InFields};
ghost use Rattle.code_arrays.specs.Shapes.{array_kind, array_rows, value_in, record_in};
ghost use Rattle.composing.specs.Composing.{ShapeStorable, stored, rest_of, RestFits};

use crate::points;
use layout::{Kind, Shape};

// Stores the message.
pub fn store_shape(out: &mut [u8], codes: &[u32], kind: Kind)
    requires in_bounds { 61 ≤ length codes.now }
    requires kind_value { kind ≡ array_kind codes.now }
    requires in_fields { InFields (array_rows codes.now) (value_in codes.now) }
    requires shape_storable { ShapeStorable (record_in codes.now) (length out.old) }
    ensures { out.new ≡ stored (record_in codes.now) out.old }
{
    let first = layout::first_octet(kind);
    if let Kind::Polygon = kind {
        out[0] = first + codes[1] as u8;
        points::store_points(out, codes);
        return;
    }
    let outline = code_arrays::outline_in(codes, kind);
    let latitude = outline.latitude;
    let longitude = outline.longitude;
    out[0] = first;
    octets::put_position(out, 1, latitude, longitude);
    put_rest(out, outline);
}

// Stores the octets after a position.
fn put_rest(out: &mut [u8], shape: Shape)
    requires { RestFits shape (length out.old) }
    ensures { out.new ≡ sets out.old 7 (rest_of shape) }
{
    let kind = shape.kind;
    let altitude = shape.altitude;
    let uncertainty = shape.uncertainty.0;
    let major = shape.semi_major.0;
    let minor = shape.semi_minor.0;
    let orientation = shape.orientation.0;
    let altitude_uncertainty = shape.altitude_uncertainty.0;
    let confidence = shape.confidence.0;
    let offset = shape.offset.0;
    let included = shape.included.0;
    match kind {
        Kind::Nothing => {}
        Kind::Point => {}
        Kind::Circle => out[7] = uncertainty,
        Kind::Ellipse => octets::put_four(out, 7, major, minor, orientation, confidence),
        Kind::Polygon => {}
        Kind::AltitudePoint => octets::put_altitude(out, 7, altitude),
        Kind::AltitudeEllipsoid => {
            octets::put_altitude(out, 7, altitude);
            octets::put_four(out, 9, major, minor, orientation, altitude_uncertainty);
            out[13] = confidence;
        }
        Kind::Arc => {
            octets::put_word(out, 7, shape.inner_radius.0);
            octets::put_four(out, 9, uncertainty, offset, included, confidence);
        }
    }
}

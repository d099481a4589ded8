// The 61 elements of a shape's codes: type, count, S, latitude, longitude, D, altitude, uncertainty, semi-major, semi-minor, orientation,
// altitude uncertainty, inner radius, offset, included, confidence; then S, latitude, longitude of fifteen points.
ghost use Rattle.std.specs.Prelude.{◌≡◌, ◌+◌, ◌*◌, ◌-◌, ◌≤◌, ◌<◌, length, replicate};
ghost use Rattle.std.proofs.lemmas.List.Edits.{sets};
ghost use Rattle.code_arrays.specs.Shapes.{single_elements, point_element, point_elements, shape_elements, array_kind, array_rows, value_in, outline_in};
ghost use Rattle.layout.specs.Demands.{InFields};

use crate::code_numbers;
use ground::{
    AltitudeCode, AltitudeUncertaintyCode, ConfidenceCode, IncludedCode, InnerRadiusCode,
    LatitudeCode, LongitudeCode, OffsetCode, OrientationCode, UncertaintyCode,
};
use layout::{Kind, Shape};

// The kind of the elements' type.
pub fn kind_in(codes: &[u32]) -> Kind
    requires { 61 ≤ length codes.now }
    ensures { result ≡ array_kind codes.now }
{
    Kind::from(code_numbers::capped_octet(codes[0]))
}

// The record that elements say but for its points, where each number is within its field.
pub fn outline_in(codes: &[u32], kind: Kind) -> Shape
    requires in_bounds { 61 ≤ length codes.now }
    requires kind_value { kind ≡ array_kind codes.now }
    requires in_fields { InFields (array_rows codes.now) (value_in codes.now) }
    ensures { result ≡ outline_in codes.now }
{
    Shape {
        kind,
        latitude: LatitudeCode(codes[2] == 1, codes[3]),
        longitude: code_numbers::longitude_of(codes[4]),
        altitude: AltitudeCode(codes[5] == 1, codes[6] as u16),
        uncertainty: UncertaintyCode(codes[7] as u8),
        semi_major: UncertaintyCode(codes[8] as u8),
        semi_minor: UncertaintyCode(codes[9] as u8),
        orientation: OrientationCode(codes[10] as u8),
        altitude_uncertainty: AltitudeUncertaintyCode(codes[11] as u8),
        inner_radius: InnerRadiusCode(codes[12] as u16),
        offset: OffsetCode(codes[13] as u8),
        included: IncludedCode(codes[14] as u8),
        confidence: ConfidenceCode(codes[15] as u8),
        count: 0,
        latitudes: [LatitudeCode(false, 0); 15],
        longitudes: [LongitudeCode(0); 15],
    }
}

// The elements of a record.
pub fn elements_of(shape: Shape) -> [u32; 61]
    ensures { result ≡ shape_elements shape }
{
    let mut codes = [0u32; 61];
    let singles = single_elements(shape);
    let latitudes = shape.latitudes;
    let longitudes = shape.longitudes;
    code_numbers::put_codes(&mut codes, &singles);
    put_points(&mut codes, latitudes, longitudes, 15);
    codes
}

// Puts the elements before the points into the first of the array.
pub fn put_singles(out: &mut [u32], shape: Shape)
    requires { 61 ≤ length out.old }
    ensures { out.new ≡ sets out.old 0 (single_elements shape) }
{
    let singles = single_elements(shape);
    code_numbers::put_codes(out, &singles);
}

// The elements before the points.
fn single_elements(shape: Shape) -> [u32; 16]
    ensures { result ≡ single_elements shape }
{
    let count = shape.count;
    let altitude = shape.altitude.1;
    let uncertainty = shape.uncertainty.0;
    let semi_major = shape.semi_major.0;
    let semi_minor = shape.semi_minor.0;
    let orientation = shape.orientation.0;
    let altitude_uncertainty = shape.altitude_uncertainty.0;
    let inner_radius = shape.inner_radius.0;
    let offset = shape.offset.0;
    let included = shape.included.0;
    let confidence = shape.confidence.0;
    let longitude = shape.longitude;
    let kind = shape.kind;
    let type_number = u8::from(kind);
    [
        type_number as u32,
        count as u32,
        code_numbers::bit(shape.latitude.0),
        shape.latitude.1,
        code_numbers::complement_of(longitude),
        code_numbers::bit(shape.altitude.0),
        altitude as u32,
        uncertainty as u32,
        semi_major as u32,
        semi_minor as u32,
        orientation as u32,
        altitude_uncertainty as u32,
        inner_radius as u32,
        offset as u32,
        included as u32,
        confidence as u32,
    ]
}

// Puts the elements of the first n points.
fn put_points(
    out: &mut [u32],
    latitudes: [LatitudeCode; 15],
    longitudes: [LongitudeCode; 15],
    n: u8,
)
    requires in_bounds { 61 ≤ length out.old }
    requires n_bound { n ≤ 15 }
    ensures { out.new ≡ sets out.old 16 (point_elements latitudes longitudes n) }
{
    for i in 0..n as usize {
        put_point(out, i, latitudes[i], longitudes[i]);
    }
}

// Puts the elements of the point i, the first being 0.
pub fn put_point(out: &mut [u32], i: usize, latitude: LatitudeCode, longitude: LongitudeCode)
    requires in_bounds { 61 ≤ length out.old }
    requires i_bound { i < 15 }
    ensures { out.new ≡ sets out.old (16 + 3 * i) (point_element latitude longitude) }
{
    let at = 16 + 3 * i;
    out[at] = code_numbers::bit(latitude.0);
    out[at + 1] = latitude.1;
    out[at + 2] = code_numbers::complement_of(longitude);
}

// Puts zeros for the points after the first n.
pub fn clear_from(out: &mut [u32], n: u8)
    requires in_bounds { 61 ≤ length out.old }
    requires n_bound { n ≤ 15 }
    ensures { out.new ≡ sets out.old (16 + 3 * n) (replicate (45 - 3 * n) 0) }
{
    let first = 16 + 3 * (n as usize);
    out[first..61].fill(0);
}

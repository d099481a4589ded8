// The 44 elements of a shape's quantities: type, count, latitude, longitude, altitude, uncertainty, semi-major, semi-minor, orientation,
// altitude uncertainty, inner radius, offset, included, confidence; then latitude and longitude of fifteen points.
ghost use Rattle.std.specs.Prelude.{◌≡◌, ◌+◌, ◌*◌, ◌-◌, ◌≤◌, pos, length, replicate};
ghost use Rattle.std.proofs.lemmas.List.Edits.{sets};
ghost use Rattle.ground.specs.Answers.{Decides};
ghost use Rattle.code_arrays.specs.QuantityNumbers.{natural_of, quantity_in};
ghost use Rattle.quantity_arrays.specs.Shapes.{single_quantity_elements, quantity_outline_in, ShapeArrives, NaturalsArrive};

use crate::numbers;
use code_arrays::Narrow;
use ground::{Millidegrees, Millimetres, Nanodegrees, SignedMillimetres, Whole};
use layout::Kind;
use quantities::ShapeQuantities;

// Puts the elements that are no point's into the first of the array.
pub fn put_singles(out: &mut [i64], quantities: ShapeQuantities)
    requires { 44 ≤ length out.old }
    ensures { out.new ≡ sets out.old 0 (single_quantity_elements quantities) }
{
    let singles = single_elements(quantities);
    code_arrays::put_quantities(out, &singles);
}

// Puts zeros for the points after the first n.
pub fn clear_from(out: &mut [i64], n: u8)
    requires in_bounds { 44 ≤ length out.old }
    requires n_bound { n ≤ 15 }
    ensures { out.new ≡ sets out.old (14 + 2 * n) (replicate (30 - 2 * n) (pos 0)) }
{
    let first = 14 + 2 * (n as usize);
    out[first..44].fill(0);
}

// The elements before the points.
fn single_elements(quantities: ShapeQuantities) -> [i64; 14]
    ensures { result ≡ single_quantity_elements quantities }
{
    let kind = quantities.kind;
    let type_number = u8::from(kind);
    let confidence = quantities.confidence;
    let altitude = quantities.altitude.0;
    [
        code_arrays::wide(type_number as u32).0,
        code_arrays::wide(quantities.count as u32).0,
        quantities.latitude.0,
        quantities.longitude.0,
        code_arrays::wide_signed(Narrow(altitude)).0,
        code_arrays::wide(quantities.uncertainty.0).0,
        code_arrays::wide(quantities.semi_major.0).0,
        code_arrays::wide(quantities.semi_minor.0).0,
        code_arrays::wide(quantities.orientation.0).0,
        code_arrays::wide(quantities.altitude_uncertainty.0).0,
        code_arrays::wide(quantities.inner_radius.0).0,
        code_arrays::wide(quantities.offset.0).0,
        code_arrays::wide(quantities.included.0).0,
        numbers::confidence_element(confidence).0,
    ]
}

// The quantities of the elements but for their points.
pub fn outline_in(given: &[i64]) -> ShapeQuantities
    requires { 44 ≤ length given.now }
    ensures { result ≡ quantity_outline_in given.now }
{
    let kind = Kind::from(numbers::octet(Whole(given[0])));
    let count = numbers::octet(Whole(given[1]));
    let altitude = code_arrays::signed(Whole(given[4]));
    let confidence = numbers::confidence(Whole(given[13]));
    ShapeQuantities {
        kind,
        latitude: Nanodegrees(given[2]),
        longitude: Nanodegrees(given[3]),
        altitude: SignedMillimetres(altitude.0),
        uncertainty: Millimetres(natural_at(given, 5)),
        semi_major: Millimetres(natural_at(given, 6)),
        semi_minor: Millimetres(natural_at(given, 7)),
        orientation: Millidegrees(natural_at(given, 8)),
        altitude_uncertainty: Millimetres(natural_at(given, 9)),
        inner_radius: Millimetres(natural_at(given, 10)),
        offset: Millidegrees(natural_at(given, 11)),
        included: Millidegrees(natural_at(given, 12)),
        confidence,
        count,
        latitudes: [Nanodegrees(0); 15],
        longitudes: [Nanodegrees(0); 15],
    }
}

fn natural_at(given: &[i64], at: usize) -> u32
    requires in_bounds { 44 ≤ length given.now }
    requires at_bound { at ≤ 43 }
    ensures { result ≡ natural_of (quantity_in given.now at) }
{
    code_arrays::natural(Whole(given[at]))
}

// Whether the quantities are of the widths in which they arrive.
pub fn shape_arrives(given: &[i64]) -> bool
    requires { 44 ≤ length given.now }
    ensures { Decides result (ShapeArrives given.now) }
{
    code_arrays::is_signed(Whole(given[4]))
        && numbers::is_optional(Whole(given[13]))
        && naturals_arrive(given)
}

// From the uncertainty to the included angle.
fn naturals_arrive(given: &[i64]) -> bool
    requires { 44 ≤ length given.now }
    ensures { Decides result (NaturalsArrive given.now) }
{
    given[5..13]
        .iter()
        .all(|element| code_arrays::is_natural(Whole(*element)))
}

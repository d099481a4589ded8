// Whether each number in a shape's elements is within its field. A field that a kind doesn't have has no bits, and its one number is
// zero.
#![tactic(auto)]

mod points;

ghost use Rattle.std.specs.Prelude.{◌≡◌, ◌≤◌, length};
ghost use Rattle.ground.specs.Answers.{Decides};
ghost use Rattle.code_arrays.specs.Shapes.{array_kind};
ghost use Rattle.limits.specs.Limits.{ElementsInFields, numbers_in, largest_of, positioned_largest, Within};

use layout::Kind;

pub fn in_fields(codes: &[u32], kind: Kind) -> bool
    requires in_bounds { 61 ≤ length codes.now }
    requires kind_value { kind ≡ array_kind codes.now }
    ensures { Decides result (ElementsInFields codes.now) }
{
    if !within(numbers_in(codes), largest_of(kind)) {
        return false;
    }
    let count = codes[1] as usize;
    points::within(codes, count)
}

// The number in each field that is no polygon point's, in the order of the elements.
fn numbers_in(codes: &[u32]) -> [u32; 16]
    requires { 61 ≤ length codes.now }
    ensures { result ≡ numbers_in codes.now }
{
    [
        codes[0],
        codes[1],
        codes[2],
        codes[3],
        octets::complement_of(code_arrays::longitude_of(codes[4])),
        codes[5],
        codes[6],
        codes[7],
        codes[8],
        codes[9],
        codes[10],
        codes[11],
        codes[12],
        codes[13],
        codes[14],
        codes[15],
    ]
}

// The largest number that each of these fields holds: type, count, S, latitude, longitude, D, altitude, uncertainty, semi-major,
// semi-minor, orientation, altitude uncertainty, inner radius, offset, included, confidence.
fn largest_of(kind: Kind) -> [u32; 16]
    ensures { result ≡ largest_of kind }
{
    match kind {
        Kind::Nothing => [0; 16],
        Kind::Point => positioned([0; 11]),
        Kind::Circle => positioned([0, 0, 127, 0, 0, 0, 0, 0, 0, 0, 0]),
        Kind::Ellipse => positioned([0, 0, 0, 127, 127, 255, 0, 0, 0, 0, 127]),
        Kind::Polygon => [15, 15, 0, 0, 0, 0, 0, 0, 0, 0, 0, 0, 0, 0, 0, 0],
        Kind::AltitudePoint => positioned([1, 32767, 0, 0, 0, 0, 0, 0, 0, 0, 0]),
        Kind::AltitudeEllipsoid => positioned([1, 32767, 0, 127, 127, 255, 127, 0, 0, 0, 127]),
        Kind::Arc => positioned([0, 0, 127, 0, 0, 0, 0, 65535, 255, 255, 127]),
    }
}

// Those of a kind that has a position and no count: of its fields from D on these.
fn positioned(others: [u32; 11]) -> [u32; 16]
    ensures { result ≡ positioned_largest others }
{
    [
        15, 0, 1, 8388607, 16777215, others[0], others[1], others[2], others[3], others[4],
        others[5], others[6], others[7], others[8], others[9], others[10],
    ]
}

// Every number is compared whatever the others are, so that the compiler takes them together.
fn within(numbers: [u32; 16], largest: [u32; 16]) -> bool
    ensures { Decides result (Within numbers largest) }
{
    let mut all = true;
    for i in 0..16 {
        if largest[i] < numbers[i] {
            all = false;
        }
    }
    all
}

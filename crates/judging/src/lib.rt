// What writing the record that a shape's elements say answers, the room aside: document 01, "Refusal numbers".
#![tactic(auto)]

ghost use Rattle.std.specs.Prelude.{◌≡◌, ◌≤◌, length};
ghost use Rattle.ground.specs.Answers.{outcome_number};
ghost use Rattle.code_arrays.specs.Shapes.{array_kind, array_rows, value_in};
ghost use Rattle.judging.specs.Judging.{RecordAnswer, CodesAnswerOf, CountAnswer};

use ground::Refusal;
use layout::Kind;

// 2, 4, 5, 6 and 7.
pub fn outcome(codes: &[u32], kind: Kind) -> Result<(), Refusal>
    requires in_bounds { 61 ≤ length codes.now }
    requires kind_value { kind ≡ array_kind codes.now }
    ensures { RecordAnswer (array_rows codes.now) (value_in codes.now) (outcome_number result) }
{
    codes_outcome(codes, kind)?;
    if !limits::in_fields(codes, kind) {
        return Err(Refusal::OutOfRange);
    }
    Ok(())
}

// 2, 4, 5 and 6.
fn codes_outcome(codes: &[u32], kind: Kind) -> Result<(), Refusal>
    requires in_bounds { 61 ≤ length codes.now }
    requires kind_value { kind ≡ array_kind codes.now }
    ensures { CodesAnswerOf (array_rows codes.now) (value_in codes.now) (outcome_number result) }
{
    match kind {
        Kind::Nothing => Err(Refusal::UnknownType),
        Kind::Point => Ok(()),
        Kind::Circle => Ok(()),
        Kind::Ellipse => layout::codes_outcome(codes[10], 0, 0, codes[15]),
        Kind::Polygon => count(codes[1]),
        Kind::AltitudePoint => Ok(()),
        Kind::AltitudeEllipsoid => layout::codes_outcome(codes[10], 0, 0, codes[15]),
        Kind::Arc => layout::codes_outcome(0, codes[13], codes[14], codes[15]),
    }
}

// A polygon has 3 to 15 points.
fn count(n: u32) -> Result<(), Refusal>
    ensures { CountAnswer n (outcome_number result) }
{
    if n < 3 {
        return Err(Refusal::PolygonCount);
    }
    if 15 < n {
        return Err(Refusal::PolygonCount);
    }
    Ok(())
}

// Whether octets have the form of a message of a kind: document 01, "Refusal numbers".
#![tactic(auto)]

ghost use Rattle.std.specs.Prelude.{◌<◌};
ghost use Rattle.ground.specs.Answers.{outcome_number};
ghost use Rattle.layout.specs.declared.shape.Kind.TheVariants.{Polygon};
ghost use Rattle.layout.specs.Demands.{CodesAnswer};
ghost use Rattle.forming.specs.Forming.{MessageFormAnswer, LengthAnswer};

use ground::Refusal;
use layout::Kind;

// 5 and 6, of the codes in octets.
pub fn codes_outcome(
    orientation: u8,
    offset: u8,
    included: u8,
    confidence: u8,
) -> Result<(), Refusal>
    ensures { CodesAnswer orientation offset included confidence (outcome_number result) }
{
    layout::codes_outcome(
        orientation as u32,
        offset as u32,
        included as u32,
        confidence as u32,
    )
}

// 2, 4 and 3, of so many octets; n is a polygon's count.
pub fn form(length: usize, kind: Kind, n: u8) -> Result<(), Refusal>
    requires { n < 16 }
    ensures { MessageFormAnswer kind n length (outcome_number result) }
{
    match kind {
        Kind::Nothing => Err(Refusal::UnknownType),
        Kind::Point => of_length(length, 7),
        Kind::Circle => of_length(length, 8),
        Kind::Ellipse => of_length(length, 11),
        Kind::Polygon => polygon(length, n),
        Kind::AltitudePoint => of_length(length, 9),
        Kind::AltitudeEllipsoid => of_length(length, 14),
        Kind::Arc => of_length(length, 13),
    }
}

// 3, of a kind whose messages all have one length.
fn of_length(length: usize, whole: usize) -> Result<(), Refusal>
    ensures { LengthAnswer whole length (outcome_number result) }
{
    if length == whole {
        return Ok(());
    }
    Err(Refusal::WrongLength)
}

// 4 and 3. Four bits hold no count above 15.
#[tactic(auto, using(crate::proofs::AnswerKinds::polygon_of_wrong_length, crate::proofs::AnswerKinds::polygon_of_its_length))]
fn polygon(length: usize, n: u8) -> Result<(), Refusal>
    requires { n < 16 }
    ensures { MessageFormAnswer Polygon n length (outcome_number result) }
{
    let whole = 1 + 6 * (n as usize);
    if n < 3 {
        return Err(Refusal::PolygonCount);
    }
    if length != whole {
        return Err(Refusal::WrongLength);
    }
    Ok(())
}

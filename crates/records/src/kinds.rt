// The form of quantities.
ghost use Rattle.ground.specs.Answers.{outcome_number};
ghost use Rattle.records.specs.Kinds.{QuantitiesFormAnswer};

use ground::Refusal;
use layout::Kind;

// 2 and 4.
pub fn form(kind: Kind, count: u8) -> Result<(), Refusal>
    ensures { QuantitiesFormAnswer kind count (outcome_number result) }
{
    match kind {
        Kind::Nothing => Err(Refusal::UnknownType),
        Kind::Point => Ok(()),
        Kind::Circle => Ok(()),
        Kind::Ellipse => Ok(()),
        Kind::Polygon => {
            if count < 3 {
                return Err(Refusal::PolygonCount);
            }
            if 15 < count {
                return Err(Refusal::PolygonCount);
            }
            Ok(())
        }
        Kind::AltitudePoint => Ok(()),
        Kind::AltitudeEllipsoid => Ok(()),
        Kind::Arc => Ok(()),
    }
}

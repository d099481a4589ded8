// The codes of the quantities that have a range, polygon points aside.
ghost use Rattle.outline_codes.specs.Ranges.{CodesRanged, CodesIncluded};

use ground::{
    ConfidenceCode, IncludedCode, LatitudeCode, LongitudeCode, Millidegrees, OffsetCode,
    OrientationCode, Refusal,
};
use quantities::ShapeQuantities;

#[derive(Clone, Copy)]
pub struct Ranged {
    pub latitude: LatitudeCode,
    pub longitude: LongitudeCode,
    pub orientation: OrientationCode,
    pub offset: OffsetCode,
    pub included: IncludedCode,
    pub confidence: ConfidenceCode,
}

// An included angle is coded where it is used: 0, which is unused, is out of its range.
pub fn code_ranges(arc: bool, quantities: ShapeQuantities) -> Result<Ranged, Refusal>
    ensures { CodesRanged arc quantities result }
{
    let confidence = quantities.confidence;
    let latitude = coordinates::latitude_code(quantities.latitude)?;
    let longitude = coordinates::longitude_code(quantities.longitude)?;
    let orientation = angles::orientation_code(quantities.orientation)?;
    let offset = angles::offset_code(quantities.offset)?;
    let included = included_where(arc, quantities.included)?;
    let confidence = confidences::confidence_code(confidence)?;
    Ok(Ranged {
        latitude,
        longitude,
        orientation,
        offset,
        included,
        confidence,
    })
}

fn included_where(arc: bool, angle: Millidegrees) -> Result<IncludedCode, Refusal>
    ensures { CodesIncluded arc angle result }
{
    if arc {
        return angles::included_code(angle);
    }
    Ok(IncludedCode(0))
}

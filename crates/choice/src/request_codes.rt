// A request to its codes: what is out of range is refused before what is too uncertain.
ghost use Rattle.requests.specs.Codes.{AltitudeCodes};
ghost use Rattle.choice.specs.RequestCodes.{CodesRequest, CodesOrientation, CodesArea, CodesHeight, OrientationOf};

use ground::{
    AltitudeCode, AltitudeUncertaintyCode, Millimetres, OrientationCode, Refusal, SignedMillimetres,
};
use requests::{AreaWanted, Horizontal, Request, Wanted};

// The codes of a request, each found once.
pub fn request_codes(request: Request) -> Result<Wanted, Refusal>
    ensures { CodesRequest request result }
{
    let latitude = coordinates::latitude_code(request.latitude)?;
    let longitude = coordinates::longitude_code(request.longitude)?;
    let confidence = confidences::confidence_code(request.confidence)?;
    let orientation = orientation_code(request.horizontal)?;
    let area = area_codes(request.horizontal, orientation)?;
    let altitude_uncertainty = height_code(request.altitude_uncertainty)?;
    Ok(Wanted {
        latitude,
        longitude,
        altitude: altitude_code(request.altitude),
        area,
        altitude_uncertainty,
        confidence,
    })
}

// The orientation of an ellipse whose axes are in order; 0 where none is asked.
fn orientation_code(horizontal: Horizontal) -> Result<OrientationCode, Refusal>
    ensures { CodesOrientation horizontal result }
{
    match horizontal {
        Horizontal::Circle(_) | Horizontal::NotAsked => Ok(OrientationCode(0)),
        Horizontal::Ellipse {
            semi_major,
            semi_minor,
            orientation,
        } => {
            if semi_major.0 < semi_minor.0 {
                return Err(Refusal::OutOfRange);
            }
            angles::orientation_code(orientation)
        }
    }
}

// The axes' codes beside the orientation's. A circle's one code is that of both axes.
fn area_codes(
    horizontal: Horizontal,
    orientation: OrientationCode,
) -> Result<Option<AreaWanted>, Refusal>
    requires { OrientationOf horizontal orientation }
    ensures { CodesArea horizontal result }
{
    match horizontal {
        Horizontal::Circle(radius) => {
            let code = radii::uncertainty_code(radius)?;
            Ok(Some(AreaWanted {
                semi_major: code,
                semi_minor: code,
                orientation,
            }))
        }
        Horizontal::Ellipse {
            semi_major,
            semi_minor,
            orientation: _,
        } => Ok(Some(AreaWanted {
            semi_major: radii::uncertainty_code(semi_major)?,
            semi_minor: radii::uncertainty_code(semi_minor)?,
            orientation,
        })),
        Horizontal::NotAsked => Ok(None),
    }
}

fn height_code(height: Option<Millimetres>) -> Result<Option<AltitudeUncertaintyCode>, Refusal>
    ensures { CodesHeight height result }
{
    height.map(radii::altitude_uncertainty_code).transpose()
}

fn altitude_code(altitude: Option<SignedMillimetres>) -> Option<AltitudeCode>
    ensures { AltitudeCodes altitude result }
{
    altitude.map(lengths::altitude_code)
}

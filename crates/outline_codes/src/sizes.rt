// The codes of a shape's uncertainties.
ghost use Rattle.outline_codes.specs.Sizes.{CodesSizes};

use ground::{AltitudeUncertaintyCode, Refusal, UncertaintyCode};
use quantities::ShapeQuantities;

#[derive(Clone, Copy)]
pub struct Sizes {
    pub uncertainty: UncertaintyCode,
    pub semi_major: UncertaintyCode,
    pub semi_minor: UncertaintyCode,
    pub altitude_uncertainty: AltitudeUncertaintyCode,
}

pub fn code_sizes(quantities: ShapeQuantities) -> Result<Sizes, Refusal>
    ensures { CodesSizes quantities result }
{
    let uncertainty = radii::uncertainty_code(quantities.uncertainty)?;
    let semi_major = radii::uncertainty_code(quantities.semi_major)?;
    let semi_minor = radii::uncertainty_code(quantities.semi_minor)?;
    let altitude_uncertainty = radii::altitude_uncertainty_code(quantities.altitude_uncertainty)?;
    Ok(Sizes {
        uncertainty,
        semi_major,
        semi_minor,
        altitude_uncertainty,
    })
}

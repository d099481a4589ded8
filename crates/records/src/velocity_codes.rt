// A velocity's record coded from its quantities by its own type: document 01, "Quantities and codes" and "Range 7".

ghost use Rattle.quantities.specs.Velocities.{CodesVelocity};

use crate::velocity_zeros;
use ground::Refusal;
use layout::{Velocity, VelocityKind};
use quantities::VelocityQuantities;

// The record of the quantities' own type, or the refusal: 2, 7, 8.
pub fn code_velocity(quantities: VelocityQuantities) -> Result<Velocity, Refusal>
    ensures { CodesVelocity quantities result }
{
    let kind = quantities.kind;
    let uncertainty = quantities.uncertainty;
    let vertical_uncertainty = quantities.vertical_uncertainty;
    if let VelocityKind::Nothing = kind {
        return Err(Refusal::UnknownType);
    }
    if !velocity_zeros::is_zero(quantities) {
        return Err(Refusal::OutOfRange);
    }
    let bearing = angles::bearing_code(quantities.bearing)?;
    let uncertainty = speeds::uncertainty_speed_code(uncertainty)?;
    let vertical_uncertainty = speeds::uncertainty_speed_code(vertical_uncertainty)?;
    let horizontal_speed = speeds::horizontal_speed_code(quantities.horizontal_speed);
    let vertical_speed = speeds::vertical_speed_code(quantities.vertical_speed);
    Ok(Velocity {
        kind,
        bearing,
        horizontal_speed,
        vertical_speed,
        uncertainty,
        vertical_uncertainty,
    })
}

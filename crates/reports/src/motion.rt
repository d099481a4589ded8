// The quantities of a velocity that the writer takes.
ghost use Rattle.quantities.specs.Velocities.{TakesVelocity, VelocityQuantitiesOf};

use layout::Velocity;
use quantities::VelocityQuantities;

pub fn quantities_of(velocity: Velocity) -> VelocityQuantities
    requires { TakesVelocity velocity }
    ensures { VelocityQuantitiesOf velocity result }
{
    let kind = velocity.kind;
    let uncertainty = speeds::reported_uncertainty_speed(velocity.uncertainty);
    let vertical_uncertainty = speeds::reported_uncertainty_speed(velocity.vertical_uncertainty);
    VelocityQuantities {
        kind,
        bearing: field_reports::bearing(velocity.bearing),
        horizontal_speed: speeds::reported_horizontal_speed(velocity.horizontal_speed),
        vertical_speed: speeds::reported_vertical_speed(velocity.vertical_speed),
        uncertainty,
        vertical_uncertainty,
    }
}

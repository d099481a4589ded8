// A record's reported quantities: document 01, "Quantities and codes".
#![tactic(auto)]

mod motion;
mod points;
mod shape;

ghost use Rattle.quantities.specs.Shapes.{ReportsShape};
ghost use Rattle.quantities.specs.Velocities.{ReportsVelocity};

use ground::Refusal;
use layout::{Shape, Velocity};
use quantities::{ShapeQuantities, VelocityQuantities};

// The quantities of a shape's record, or the refusal of the writer.
pub fn report_shape(shape: Shape) -> Result<ShapeQuantities, Refusal>
    ensures { ReportsShape shape result }
{
    writing::shape_outcome(shape)?;
    Ok(shape::quantities_of(shape))
}

// The quantities of a velocity's record, or the refusal of the writer.
pub fn report_velocity(velocity: Velocity) -> Result<VelocityQuantities, Refusal>
    ensures { ReportsVelocity velocity result }
{
    velocities::velocity_outcome(velocity)?;
    Ok(motion::quantities_of(velocity))
}

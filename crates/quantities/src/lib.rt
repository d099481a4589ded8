// The quantities of a record, in document 01's units, and in specs/ what it means that they are reported and coded.
#![tactic(auto)]

mod shape;
mod velocity;

pub use shape::{ShapeQuantities, no_shape};
pub use velocity::{VelocityQuantities, no_velocity};

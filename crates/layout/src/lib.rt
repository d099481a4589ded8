// The records of a message, and in specs/ the layout table of document 01 ("Octet layouts") with what reading and
// writing mean by it.
#![tactic(auto)]

mod demand;
mod shape;
mod velocity;

pub use demand::codes_outcome;
pub use shape::{Kind, Shape, blank_shape, first_octet, message_length};
pub use velocity::{Velocity, VelocityKind, blank_velocity};

// A record's quantities in elements, and in specs/ the quantities that elements say.
#![tactic(auto)]

mod numbers;
mod shape;
mod velocity;

pub use shape::{clear_from, outline_in, put_singles, shape_arrives};
pub use velocity::{put_velocity_quantities, velocity_arrives, velocity_quantities_in};

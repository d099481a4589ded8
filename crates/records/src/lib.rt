// A shape's record coded from its quantities by its own type: document 01, "Quantities and codes" and "Range 7".
#![tactic(auto)]

mod kinds;
mod shapes;
mod velocity_codes;
mod velocity_zeros;

pub use kinds::form;
pub use shapes::code_shape;
pub use velocity_codes::code_velocity;

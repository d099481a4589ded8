// The codes of a shape's quantities, by groups that are refused in document 01's order, and the test that what a type does not
// use is zero.
#![tactic(auto)]

mod outline;
mod points;
mod ranges;
mod sizes;
mod unused;

pub use outline::outlined;
pub use points::{PointCode, Points, code_point, code_points};
pub use ranges::{Ranged, code_ranges};
pub use sizes::{Sizes, code_sizes};
pub use unused::{is_zero, used_by};

// A single field's code and quantity in the library's arrays.
#![tactic(auto)]

mod code;
mod quantity;

pub use code::{coded, put_code};
pub use quantity::{put_quantity, reported};

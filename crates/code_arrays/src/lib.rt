// The library's arrays: numbers that arrive in 64 bits, and the codes of a record in an array of 32-bit numbers.
#![tactic(auto)]

mod answers;
mod code_numbers;
mod quantity_numbers;
mod shape;
mod velocity;

pub use answers::answer;
pub use code_numbers::{bit, complement_of, longitude_of};
pub use quantity_numbers::{
    Narrow, is_missing, is_natural, is_signed, missing, natural, put_quantities, signed, wide,
    wide_signed,
};
pub use shape::{clear_from, elements_of, kind_in, outline_in, put_point, put_singles};
pub use velocity::{put_velocity, velocity_in, velocity_is_whole};

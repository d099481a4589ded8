// One field by its number in a line or an array: what codes a quantity of it, and what a code of it reports.
#![tactic(auto)]

mod coding;
mod reporting;

pub use coding::{
    Coordinate, Markable, Unsigned, coded_altitude, coded_coordinate, coded_missing,
    coded_unsigned, coded_vertical_speed,
};
pub use reporting::{
    Byte, Signed, Word, reported_byte, reported_longitude, reported_signed, reported_word,
};

// Latitude and longitude codes and their reported nanodegrees (document 01, "Quantities and codes").
#![tactic(auto)]

mod latitudes;
mod longitudes;

pub use latitudes::{latitude_code, reported_latitude};
pub use longitudes::{longitude_code, reported_longitude};

// Quantities, in the widths in which document 01 has them arrive. No two units mix.

// Latitude and longitude.
#[derive(Clone, Copy)]
pub struct Nanodegrees(pub i64);

// Every other angle.
#[derive(Clone, Copy)]
pub struct Millidegrees(pub u32);

#[derive(Clone, Copy)]
pub struct Millimetres(pub u32);

// An altitude: a depth is below zero.
#[derive(Clone, Copy)]
pub struct SignedMillimetres(pub i32);

#[derive(Clone, Copy)]
pub struct MetresPerHour(pub u32);

// A vertical speed: downward is below zero.
#[derive(Clone, Copy)]
pub struct SignedMetresPerHour(pub i32);

// A confidence; a missing one is `None`, as a missing uncertainty of a speed is.
#[derive(Clone, Copy)]
pub struct PerCent(pub u32);

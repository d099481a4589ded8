// Codes, as a message holds them: never a quantity, and never one another.

// South, and N of 23 bits.
#[derive(Clone, Copy)]
pub struct LatitudeCode(pub bool, pub u32);

// N, signed, of 24 bits.
#[derive(Clone, Copy)]
pub struct LongitudeCode(pub i32);

// K of 7 bits.
#[derive(Clone, Copy)]
pub struct UncertaintyCode(pub u8);

// K of 7 bits, by another table.
#[derive(Clone, Copy)]
pub struct AltitudeUncertaintyCode(pub u8);

// Depth, and N of 15 bits.
#[derive(Clone, Copy)]
pub struct AltitudeCode(pub bool, pub u16);

#[derive(Clone, Copy)]
pub struct InnerRadiusCode(pub u16);

#[derive(Clone, Copy)]
pub struct OffsetCode(pub u8);

#[derive(Clone, Copy)]
pub struct IncludedCode(pub u8);

#[derive(Clone, Copy)]
pub struct OrientationCode(pub u8);

#[derive(Clone, Copy)]
pub struct BearingCode(pub u16);

#[derive(Clone, Copy)]
pub struct HorizontalSpeedCode(pub u16);

// Down, and N.
#[derive(Clone, Copy)]
pub struct VerticalSpeedCode(pub bool, pub u8);

#[derive(Clone, Copy)]
pub struct UncertaintySpeedCode(pub u8);

#[derive(Clone, Copy)]
pub struct ConfidenceCode(pub u8);

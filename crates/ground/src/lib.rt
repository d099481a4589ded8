// What every other crate shares: the quantities and the codes, each a type of its own, the refusals of document 01, and
// signed numbers taken apart into a sign and a size.
#![tactic(auto)]

mod code;
mod quantity;
mod refusals;
mod said;
mod signs;

pub use code::{
    AltitudeCode, AltitudeUncertaintyCode, BearingCode, ConfidenceCode, HorizontalSpeedCode,
    IncludedCode, InnerRadiusCode, LatitudeCode, LongitudeCode, OffsetCode, OrientationCode,
    UncertaintyCode, UncertaintySpeedCode, VerticalSpeedCode,
};
pub use quantity::{
    MetresPerHour, Millidegrees, Millimetres, Nanodegrees, PerCent, SignedMetresPerHour,
    SignedMillimetres,
};
pub use refusals::Refusal;
pub use said::{SaidCode, SaidQuantity, SignedCode};
pub use signs::{Parts, Whole, joined, taken_apart};

// The reporters side by side, with answers in plain numbers. A number that a code's own type can't hold is refused as one
// that its field can't hold.

ghost use Rattle.std.specs.Prelude.{◌≡◌, Err};
ghost use Rattle.one_field.specs.Reporting.{TellsQuantity, TellsByte, TellsWord, TellsSigned, above_byte, above_word};
ghost use Rattle.fields.specs.Fields.{longitude};

use angles::{reported_bearing, reported_included, reported_offset, reported_orientation};
use confidences::reported_confidence;
use coordinates::reported_latitude;
use ground::{
    AltitudeCode, AltitudeUncertaintyCode, BearingCode, ConfidenceCode, HorizontalSpeedCode,
    IncludedCode, InnerRadiusCode, LatitudeCode, LongitudeCode, OffsetCode, OrientationCode,
    Refusal, SaidQuantity, UncertaintyCode, UncertaintySpeedCode, VerticalSpeedCode,
};
use lengths::{reported_altitude, reported_inner_radius};
use radii::{reported_altitude_uncertainty, reported_uncertainty};
use speeds::{reported_horizontal_speed, reported_uncertainty_speed, reported_vertical_speed};

// The fields whose codes are of 8 bits at most.
#[derive(Clone, Copy)]
pub enum Byte {
    Uncertainty,
    AltitudeUncertainty,
    Offset,
    Included,
    Orientation,
    UncertaintySpeed,
    Confidence,
}

// The fields whose codes are of 9 to 16 bits.
#[derive(Clone, Copy)]
pub enum Word {
    InnerRadius,
    Bearing,
    HorizontalSpeed,
}

// The fields whose codes have a sign and a number.
#[derive(Clone, Copy)]
pub enum Signed {
    Latitude,
    Altitude,
    VerticalSpeed,
}

pub fn reported_byte(field: Byte, n: u32) -> Result<SaidQuantity, Refusal>
    ensures { TellsByte field n result }
{
    let Ok(n) = u8::try_from(n) else {
        return Err(above_byte(field));
    };
    match field {
        Byte::Uncertainty => reported_uncertainty(UncertaintyCode(n)).map(SaidQuantity::from),
        Byte::AltitudeUncertainty => reported_altitude_uncertainty(AltitudeUncertaintyCode(n)).map(
            SaidQuantity::from,
        ),
        Byte::Offset => reported_offset(OffsetCode(n)).map(SaidQuantity::from),
        Byte::Included => reported_included(IncludedCode(n)).map(SaidQuantity::from),
        Byte::Orientation => reported_orientation(OrientationCode(n)).map(SaidQuantity::from),
        Byte::UncertaintySpeed => Ok(SaidQuantity::from(reported_uncertainty_speed(
            UncertaintySpeedCode(n),
        ))),
        Byte::Confidence => reported_confidence(ConfidenceCode(n)).map(SaidQuantity::from),
    }
}

pub fn reported_word(field: Word, n: u32) -> Result<SaidQuantity, Refusal>
    ensures { TellsWord field n result }
{
    let Ok(n) = u16::try_from(n) else {
        return Err(above_word(field));
    };
    match field {
        Word::InnerRadius => Ok(SaidQuantity::from(reported_inner_radius(InnerRadiusCode(n)))),
        Word::Bearing => reported_bearing(BearingCode(n)).map(SaidQuantity::from),
        Word::HorizontalSpeed => Ok(SaidQuantity::from(reported_horizontal_speed(
            HorizontalSpeedCode(n),
        ))),
    }
}

pub fn reported_signed(field: Signed, sign: bool, n: u32) -> Result<SaidQuantity, Refusal>
    ensures { TellsSigned field sign n result }
{
    match field {
        Signed::Latitude => reported_latitude(LatitudeCode(sign, n)).map(SaidQuantity::from),
        Signed::Altitude => {
            let Ok(n) = u16::try_from(n) else {
                return Err(Refusal::OutOfRange);
            };
            reported_altitude(AltitudeCode(sign, n)).map(SaidQuantity::from)
        }
        Signed::VerticalSpeed => {
            let Ok(n) = u8::try_from(n) else {
                return Err(Refusal::OutOfRange);
            };
            Ok(SaidQuantity::from(reported_vertical_speed(VerticalSpeedCode(sign, n))))
        }
    }
}

pub fn reported_longitude(code: LongitudeCode) -> Result<SaidQuantity, Refusal>
    ensures { TellsQuantity longitude code result }
{
    coordinates::reported_longitude(code).map(SaidQuantity::from)
}

// The refusal of a number that 8 bits can't hold.
fn above_byte(field: Byte) -> Refusal
    ensures { Err result ≡ above_byte field }
{
    match field {
        Byte::Uncertainty | Byte::AltitudeUncertainty | Byte::UncertaintySpeed =>
            Refusal::OutOfRange,
        Byte::Offset | Byte::Included | Byte::Orientation => Refusal::AngleCode,
        Byte::Confidence => Refusal::ConfidenceTooLarge,
    }
}

// The refusal of a number that 16 bits can't hold.
fn above_word(field: Word) -> Refusal
    ensures { Err result ≡ above_word field }
{
    match field {
        Word::InnerRadius | Word::HorizontalSpeed => Refusal::OutOfRange,
        Word::Bearing => Refusal::AngleCode,
    }
}

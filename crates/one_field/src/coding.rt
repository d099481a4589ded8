// The coders side by side, with answers in plain numbers.

ghost use Rattle.one_field.specs.Coding.{TellsCode, TellsCoordinate, TellsUnsigned, TellsMissing};
ghost use Rattle.fields.specs.Fields.{altitude, vertical_speed};

use angles::{bearing_code, included_code, offset_code, orientation_code};
use confidences::confidence_code;
use coordinates::{latitude_code, longitude_code};
use ground::{
    MetresPerHour, Millidegrees, Millimetres, Nanodegrees, PerCent, Refusal, SaidCode,
    SignedMetresPerHour, SignedMillimetres,
};
use lengths::{altitude_code, inner_radius_code};
use radii::{altitude_uncertainty_code, uncertainty_code};
use speeds::{horizontal_speed_code, uncertainty_speed_code, vertical_speed_code};

#[derive(Clone, Copy)]
pub enum Coordinate {
    Latitude,
    Longitude,
}

// The fields whose quantities arrive unsigned in 32 bits.
#[derive(Clone, Copy)]
pub enum Unsigned {
    Uncertainty,
    AltitudeUncertainty,
    InnerRadius,
    Offset,
    Included,
    Orientation,
    Bearing,
    HorizontalSpeed,
    UncertaintySpeed,
    Confidence,
}

// The fields whose quantity may be missing.
#[derive(Clone, Copy)]
pub enum Markable {
    UncertaintySpeed,
    Confidence,
}

// Here and below a refusal leaves by `?`: where `map` hands it on, the compiler tells each answer apart a second time.
pub fn coded_coordinate(field: Coordinate, x: Nanodegrees) -> Result<SaidCode, Refusal>
    ensures { TellsCoordinate field x result }
{
    match field {
        Coordinate::Latitude => Ok(SaidCode::from(latitude_code(x)?)),
        Coordinate::Longitude => Ok(SaidCode::from(longitude_code(x)?)),
    }
}

pub fn coded_unsigned(field: Unsigned, x: u32) -> Result<SaidCode, Refusal>
    ensures { TellsUnsigned field x result }
{
    match field {
        Unsigned::Uncertainty => Ok(SaidCode::from(uncertainty_code(Millimetres(x))?)),
        Unsigned::AltitudeUncertainty => Ok(SaidCode::from(altitude_uncertainty_code(Millimetres(
            x,
        ))?)),
        Unsigned::InnerRadius => Ok(SaidCode::from(inner_radius_code(Millimetres(x)))),
        Unsigned::Offset => Ok(SaidCode::from(offset_code(Millidegrees(x))?)),
        Unsigned::Included => Ok(SaidCode::from(included_code(Millidegrees(x))?)),
        Unsigned::Orientation => Ok(SaidCode::from(orientation_code(Millidegrees(x))?)),
        Unsigned::Bearing => Ok(SaidCode::from(bearing_code(Millidegrees(x))?)),
        Unsigned::HorizontalSpeed => Ok(SaidCode::from(horizontal_speed_code(MetresPerHour(x)))),
        Unsigned::UncertaintySpeed => Ok(SaidCode::from(uncertainty_speed_code(Some(MetresPerHour(
            x,
        )))?)),
        Unsigned::Confidence => Ok(SaidCode::from(confidence_code(Some(PerCent(x)))?)),
    }
}

pub fn coded_missing(field: Markable) -> Result<SaidCode, Refusal>
    ensures { TellsMissing field result }
{
    match field {
        Markable::UncertaintySpeed => Ok(SaidCode::from(uncertainty_speed_code(None)?)),
        Markable::Confidence => Ok(SaidCode::from(confidence_code(None)?)),
    }
}

pub fn coded_altitude(x: SignedMillimetres) -> Result<SaidCode, Refusal>
    ensures { TellsCode altitude x result }
{
    Ok(SaidCode::from(altitude_code(x)))
}

pub fn coded_vertical_speed(x: SignedMetresPerHour) -> Result<SaidCode, Refusal>
    ensures { TellsCode vertical_speed x result }
{
    Ok(SaidCode::from(vertical_speed_code(x)))
}

// What is reported of a code that its field holds: a reporter's answer without its refusals.
#![tactic(auto)]

mod shapes;

ghost use Rattle.std.specs.Prelude.{◌<◌};
ghost use Rattle.std.specs.Int.Signed.{mag};
ghost use Rattle.ground.specs.Answers.{done};
ghost use Rattle.fields.specs.Fields.{Reporting};
ghost use Rattle.fields.specs.Fields as field;

use ground::{
    AltitudeCode, AltitudeUncertaintyCode, BearingCode, ConfidenceCode, IncludedCode, LatitudeCode,
    LongitudeCode, Millidegrees, Millimetres, Nanodegrees, OffsetCode, OrientationCode, PerCent,
    SignedMillimetres, UncertaintyCode,
};
pub use shapes::outline;

pub fn latitude(code: LatitudeCode) -> Nanodegrees
    requires { code.1 < 8388608 }
    ensures { Reporting field.latitude code (done result) }
{
    coordinates::reported_latitude(code).unwrap()
}

pub fn longitude(code: LongitudeCode) -> Nanodegrees
    requires { mag code.0 < 8388608 }
    ensures { Reporting field.longitude code (done result) }
{
    coordinates::reported_longitude(code).unwrap()
}

pub fn altitude(code: AltitudeCode) -> SignedMillimetres
    requires { code.1 < 32768 }
    ensures { Reporting field.altitude code (done result) }
{
    lengths::reported_altitude(code).unwrap()
}

pub fn uncertainty(code: UncertaintyCode) -> Millimetres
    requires { code.0 < 128 }
    ensures { Reporting field.uncertainty code (done result) }
{
    radii::reported_uncertainty(code).unwrap()
}

pub fn altitude_uncertainty(code: AltitudeUncertaintyCode) -> Millimetres
    requires { code.0 < 128 }
    ensures { Reporting field.altitude_uncertainty code (done result) }
{
    radii::reported_altitude_uncertainty(code).unwrap()
}

pub fn orientation(code: OrientationCode) -> Millidegrees
    requires { code.0 < 180 }
    ensures { Reporting field.orientation code (done result) }
{
    angles::reported_orientation(code).unwrap()
}

pub fn offset(code: OffsetCode) -> Millidegrees
    requires { code.0 < 180 }
    ensures { Reporting field.offset code (done result) }
{
    angles::reported_offset(code).unwrap()
}

pub fn included(code: IncludedCode) -> Millidegrees
    requires { code.0 < 180 }
    ensures { Reporting field.included code (done result) }
{
    angles::reported_included(code).unwrap()
}

pub fn bearing(code: BearingCode) -> Millidegrees
    requires { code.0 < 360 }
    ensures { Reporting field.bearing code (done result) }
{
    angles::reported_bearing(code).unwrap()
}

pub fn confidence(code: ConfidenceCode) -> Option<PerCent>
    requires { code.0 < 101 }
    ensures { Reporting field.confidence code (done result) }
{
    confidences::reported_confidence(code).unwrap()
}

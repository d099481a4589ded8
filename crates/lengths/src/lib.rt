// Altitude and inner radius: codes that are steps of 1 or 5 metres (document 01, "Quantities and codes").
#![tactic(auto)]

ghost use Rattle.lengths.specs.Lengths.{AltitudeSet, ReportedAltitude, InnerRadiusSet, InnerRadiusReporting};

use ground::{
    AltitudeCode, InnerRadiusCode, Millimetres, Parts, Refusal, SignedMillimetres, Whole,
};

pub fn altitude_code(altitude: SignedMillimetres) -> AltitudeCode
    ensures { AltitudeSet result altitude.0 }
{
    let parts = ground::taken_apart(Whole(altitude.0 as i64));
    let metres = parts.size / 1000;
    if 32767 < metres {
        return AltitudeCode(parts.negative, 32767);
    }
    AltitudeCode(parts.negative, metres as u16)
}

pub fn reported_altitude(code: AltitudeCode) -> Result<SignedMillimetres, Refusal>
    ensures { ReportedAltitude code result }
{
    let n = code.1;
    if 32767 < n {
        return Err(Refusal::OutOfRange);
    }
    let altitude = ground::joined(Parts {
        negative: code.0,
        size: n as u64 * 1000,
    });
    Ok(SignedMillimetres(altitude.0 as i32))
}

pub fn inner_radius_code(radius: Millimetres) -> InnerRadiusCode
    ensures { InnerRadiusSet result radius.0 }
{
    let steps = radius.0 / 5000;
    if 65535 < steps {
        return InnerRadiusCode(65535);
    }
    InnerRadiusCode(steps as u16)
}

pub fn reported_inner_radius(code: InnerRadiusCode) -> Millimetres
    ensures { InnerRadiusReporting code result }
{
    Millimetres(code.0 as u32 * 5000)
}

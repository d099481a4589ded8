// Offset, included angle, orientation and bearing: codes that are steps of 1 or 2 degrees (document 01, "Quantities and codes").
#![tactic(auto)]

ghost use Rattle.std.specs.Prelude.{◌*◌, ◌<◌, ◌≤◌};
ghost use Rattle.angles.specs.Angles.{CodedStep, ReportedStep, CodedOffset, ReportedOffset, CodedIncluded, ReportedIncluded, CodedOrientation, ReportedOrientation, CodedBearing, ReportedBearing};

use ground::{BearingCode, IncludedCode, Millidegrees, OffsetCode, OrientationCode, Refusal};

pub fn offset_code(angle: Millidegrees) -> Result<OffsetCode, Refusal>
    ensures { CodedOffset angle result }
{
    Ok(OffsetCode(step_of::<2000, 180>(angle)? as u8))
}

pub fn reported_offset(code: OffsetCode) -> Result<Millidegrees, Refusal>
    ensures { ReportedOffset code result }
{
    start_of::<2000, 180>(u32::from(code.0))
}

// A step holds its upper end, and not its lower one: 360 degrees have a code, and 0 has none.
pub fn included_code(angle: Millidegrees) -> Result<IncludedCode, Refusal>
    ensures { CodedIncluded angle result }
{
    match angle.0 {
        n @ 1..=360000 => Ok(IncludedCode(((n - 1) / 2000) as u8)),
        _ => Err(Refusal::OutOfRange),
    }
}

pub fn reported_included(code: IncludedCode) -> Result<Millidegrees, Refusal>
    ensures { ReportedIncluded code result }
{
    let start = start_of::<2000, 180>(u32::from(code.0))?;
    Ok(Millidegrees(start.0 + 2000))
}

pub fn orientation_code(angle: Millidegrees) -> Result<OrientationCode, Refusal>
    ensures { CodedOrientation angle result }
{
    Ok(OrientationCode(step_of::<1000, 180>(angle)? as u8))
}

pub fn reported_orientation(code: OrientationCode) -> Result<Millidegrees, Refusal>
    ensures { ReportedOrientation code result }
{
    start_of::<1000, 180>(u32::from(code.0))
}

pub fn bearing_code(angle: Millidegrees) -> Result<BearingCode, Refusal>
    ensures { CodedBearing angle result }
{
    Ok(BearingCode(step_of::<1000, 360>(angle)? as u16))
}

pub fn reported_bearing(code: BearingCode) -> Result<Millidegrees, Refusal>
    ensures { ReportedBearing code result }
{
    start_of::<1000, 360>(u32::from(code.0))
}

// The step that holds the angle, of STEPS from 0 on.
fn step_of<const UNIT: u32, const STEPS: u32>(angle: Millidegrees) -> Result<u32, Refusal>
    requires { 0 < UNIT }
    ensures { CodedStep UNIT STEPS angle.0 result }
{
    let step = angle.0 / UNIT;
    if STEPS <= step {
        return Err(Refusal::OutOfRange);
    }
    Ok(step)
}

// The least angle of a step.
fn start_of<const UNIT: u32, const STEPS: u32>(step: u32) -> Result<Millidegrees, Refusal>
    requires unit { 0 < UNIT }
    requires fits { UNIT * STEPS ≤ 360000 }
    ensures { ReportedStep UNIT STEPS step result }
{
    if STEPS <= step {
        return Err(Refusal::AngleCode);
    }
    Ok(Millidegrees(UNIT * step))
}

// Longitude: steps of 360 / 2^24 degrees, counted down. Half a turn is added, and taken off again, so that no step is
// counted below zero.
ghost use Rattle.std.specs.Prelude.{◌<◌};
ghost use Rattle.coordinates.specs.Halves.{Less};
ghost use Rattle.coordinates.specs.Longitude.{CodedLongitude, ReportedLongitude};

use ground::{LongitudeCode, Nanodegrees, Refusal, Whole};

// The remainder takes +180 degrees, a whole turn once half a turn is added, to the meridian of -180.
pub fn longitude_code(longitude: Nanodegrees) -> Result<LongitudeCode, Refusal>
    ensures { CodedLongitude longitude result }
{
    let parts = ground::taken_apart(Whole(longitude.0));
    let size = parts.size;
    if 180000000000 < size {
        return Err(Refusal::OutOfRange);
    }
    let turned = if parts.negative {
        180000000000 - size
    } else {
        180000000000 + size
    };
    let steps = turned * 16777216 / 360000000000 % 16777216;
    Ok(code_of(steps as u32))
}

// The whole nanodegree at or above the step's lower end.
pub fn reported_longitude(code: LongitudeCode) -> Result<Nanodegrees, Refusal>
    ensures { ReportedLongitude code result }
{
    let parts = ground::taken_apart(Whole(code.0 as i64));
    let size = parts.size;
    if 8388608 < size {
        return Err(Refusal::OutOfRange);
    }
    let steps = if parts.negative {
        8388608 - size
    } else {
        8388608 + size
    };
    if 16777216 <= steps {
        return Err(Refusal::OutOfRange);
    }
    let turned = (steps * 360000000000 + 16777215) / 16777216;
    Ok(lowered(turned))
}

// The code of a step, less half a turn.
fn code_of(steps: u32) -> LongitudeCode
    requires { steps < 16777216 }
    ensures { Less result.0 steps 8388608 }
{
    LongitudeCode(steps as i32 - 8388608)
}

// The longitude, less half a turn.
fn lowered(turned: u64) -> Nanodegrees
    requires { turned < 360000000000 }
    ensures { Less result.0 turned 180000000000 }
{
    Nanodegrees(turned as i64 - 180000000000)
}

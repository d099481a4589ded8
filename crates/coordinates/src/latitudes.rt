// Latitude: a sign, and steps of 90 / 2^23 degrees away from the equator.
ghost use Rattle.coordinates.specs.Latitude.{CodedLatitude, ReportedLatitude};

use ground::{LatitudeCode, Nanodegrees, Parts, Refusal, Whole};

// The last code takes 90 degrees too.
pub fn latitude_code(latitude: Nanodegrees) -> Result<LatitudeCode, Refusal>
    ensures { CodedLatitude latitude result }
{
    let parts = ground::taken_apart(Whole(latitude.0));
    let size = parts.size;
    if 90000000000 < size {
        return Err(Refusal::OutOfRange);
    }
    if size == 90000000000 {
        return Ok(LatitudeCode(parts.negative, 8388607));
    }
    Ok(LatitudeCode(parts.negative, (size * 8388608 / 90000000000) as u32))
}

// The whole nanodegree at or above the step's lower end; in the south, for N = 0, -1.
pub fn reported_latitude(code: LatitudeCode) -> Result<Nanodegrees, Refusal>
    ensures { ReportedLatitude code result }
{
    let n = code.1;
    if 8388608 <= n {
        return Err(Refusal::OutOfRange);
    }
    let latitude = ground::joined(Parts {
        negative: code.0,
        size: (n as u64 * 90000000000 + 8388607) / 8388608,
    });
    Ok(Nanodegrees(latitude.0))
}

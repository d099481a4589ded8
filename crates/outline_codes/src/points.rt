// The codes of a polygon's points.
ghost use Rattle.std.specs.Prelude.{◌≡◌};
ghost use Rattle.outline_codes.specs.Points.{CodesPoint, CodesPoints, blank_points};

use ground::{LatitudeCode, LongitudeCode, Nanodegrees, Refusal};

#[derive(Clone, Copy)]
pub struct Points {
    pub latitudes: [LatitudeCode; 15],
    pub longitudes: [LongitudeCode; 15],
}

#[derive(Clone, Copy)]
pub struct PointCode {
    pub latitude: LatitudeCode,
    pub longitude: LongitudeCode,
}

// The codes of the first n points, if those after them are zero.
pub fn code_points(
    latitudes: [Nanodegrees; 15],
    longitudes: [Nanodegrees; 15],
    n: u8,
) -> Result<Points, Refusal>
    ensures { CodesPoints latitudes longitudes n result }
{
    let mut points = blank_points();
    let end = n as usize;
    for i in 0..15 {
        let code = code_point(i < end, latitudes[i], longitudes[i])?;
        points.latitudes[i] = code.latitude;
        points.longitudes[i] = code.longitude;
    }
    Ok(points)
}

pub fn code_point(
    used: bool,
    latitude: Nanodegrees,
    longitude: Nanodegrees,
) -> Result<PointCode, Refusal>
    ensures { CodesPoint used latitude longitude result }
{
    if used {
        return Ok(PointCode {
            latitude: coordinates::latitude_code(latitude)?,
            longitude: coordinates::longitude_code(longitude)?,
        });
    }
    if latitude.0 != 0 || longitude.0 != 0 {
        return Err(Refusal::OutOfRange);
    }
    Ok(PointCode {
        latitude: LatitudeCode(false, 0),
        longitude: LongitudeCode(0),
    })
}

// Fifteen points whose codes are zero.
fn blank_points() -> Points
    ensures { result ≡ blank_points }
{
    Points {
        latitudes: [LatitudeCode(false, 0); 15],
        longitudes: [LongitudeCode(0); 15],
    }
}

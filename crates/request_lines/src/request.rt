// A request's line: latitude, longitude, altitude, semi-major, semi-minor, orientation, altitude uncertainty, confidence, `-`
// where absent. A circle has a semi-major alone.
ghost use Rattle.std.specs.Prelude.{◌≡◌, List, ℕ};
ghost use Rattle.request_lines.specs.Asking.{Asks};
ghost use Rattle.request_lines.specs.Entries.{Eight};
ghost use Rattle.text.specs.LineFields.{field_at};
ghost use Rattle.request_lines.specs.Reading.{area_given, horizontal_of, ReadsHorizontal};

use crate::entries::Entry;
use crate::{Unreadable, amounts, entries};
use ground::{Millidegrees, Millimetres};
use requests::{Horizontal, Request};

// The request that the line says.
pub fn request_in(line: &[u8]) -> Result<Request, Unreadable>
    ensures { Asks line.now result }
{
    let mut held = [Entry::Neither; 8];
    entries::read_eight(&mut held, line)?;
    Ok(Request {
        latitude: amounts::coordinate_of(held[0])?,
        longitude: amounts::coordinate_of(held[1])?,
        altitude: amounts::altitude_of(held[2])?,
        horizontal: horizontal_in(&held)?,
        altitude_uncertainty: amounts::uncertainty_of(held[6])?,
        confidence: amounts::confidence_of(held[7])?,
    })
}

// The horizontal uncertainty, in fields 3, 4 and 5.
fn horizontal_in(held: &[Entry; 8]) -> Result<Horizontal, Unreadable>
    ensures { (line : List ℕ) → Eight line held.now → ReadsHorizontal (field_at line 3) (field_at line 4) (field_at line 5) result }
{
    let semi_major = amounts::amount_of(held[3]);
    let semi_minor = amounts::amount_of(held[4]);
    let orientation = amounts::amount_of(held[5]);
    horizontal_of(semi_major, semi_minor, orientation)
}

// The horizontal uncertainty of amounts as they were read.
pub fn horizontal_of(
    semi_major: Result<Option<u32>, Unreadable>,
    semi_minor: Result<Option<u32>, Unreadable>,
    orientation: Result<Option<u32>, Unreadable>,
) -> Result<Horizontal, Unreadable>
    ensures { result ≡ horizontal_of semi_major semi_minor orientation }
{
    area_given(semi_major?, semi_minor?, orientation?)
}

// A circle where semi-minor and orientation are absent, an ellipse where neither is, and none where all is absent.
pub fn area_given(
    semi_major: Option<u32>,
    semi_minor: Option<u32>,
    orientation: Option<u32>,
) -> Result<Horizontal, Unreadable>
    ensures { result ≡ area_given semi_major semi_minor orientation }
{
    match (semi_major, semi_minor, orientation) {
        (Some(radius), None, None) => Ok(Horizontal::Circle(Millimetres(radius))),
        (Some(major), Some(minor), Some(angle)) => Ok(Horizontal::Ellipse {
            semi_major: Millimetres(major),
            semi_minor: Millimetres(minor),
            orientation: Millidegrees(angle),
        }),
        (None, None, None) => Ok(Horizontal::NotAsked),
        _ => Err(Unreadable),
    }
}

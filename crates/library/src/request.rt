// The request in eight elements: latitude, longitude, altitude, semi-major, semi-minor, orientation, altitude uncertainty, confidence, each
// but the coordinates perhaps missing. A circle has a semi-major alone.
ghost use Rattle.std.specs.Prelude.{◌≤◌, length};
ghost use Rattle.code_arrays.specs.QuantityNumbers.{quantity_in};
ghost use Rattle.library.specs.Requests.{ElementsAsk, ReadsAltitudeElement, ReadsAmountElement, ReadsHorizontalElements, ReadsUncertaintyElement, ReadsConfidenceElement};

use ground::{Millimetres, Nanodegrees, PerCent, SignedMillimetres, Whole};
use request_lines::Unreadable;
use requests::{Horizontal, Request};

// The request that the elements say.
pub fn request_in(given: &[i64]) -> Result<Request, Unreadable>
    requires { 8 ≤ length given.now }
    ensures { ElementsAsk given.now result }
{
    Ok(Request {
        latitude: Nanodegrees(given[0]),
        longitude: Nanodegrees(given[1]),
        altitude: altitude_in(given[2])?,
        horizontal: horizontal_in(given)?,
        altitude_uncertainty: uncertainty_in(given[6])?,
        confidence: confidence_in(given[7])?,
    })
}

fn altitude_in(element: i64) -> Result<Option<SignedMillimetres>, Unreadable>
    ensures { ReadsAltitudeElement element result }
{
    if code_arrays::is_missing(Whole(element)) {
        return Ok(None);
    }
    let Ok(altitude) = i32::try_from(element) else {
        return Err(Unreadable);
    };
    Ok(Some(SignedMillimetres(altitude)))
}

fn amount_in(element: i64) -> Result<Option<u32>, Unreadable>
    ensures { ReadsAmountElement element result }
{
    if code_arrays::is_missing(Whole(element)) {
        return Ok(None);
    }
    let Ok(amount) = u32::try_from(element) else {
        return Err(Unreadable);
    };
    Ok(Some(amount))
}

// The horizontal uncertainty, in elements 3, 4 and 5.
fn horizontal_in(given: &[i64]) -> Result<Horizontal, Unreadable>
    requires { 8 ≤ length given.now }
    ensures { ReadsHorizontalElements (quantity_in given.now 3) (quantity_in given.now 4) (quantity_in given.now 5) result }
{
    let semi_major = amount_in(given[3])?;
    let semi_minor = amount_in(given[4])?;
    let orientation = amount_in(given[5])?;
    request_lines::area_given(semi_major, semi_minor, orientation)
}

fn uncertainty_in(element: i64) -> Result<Option<Millimetres>, Unreadable>
    ensures { ReadsUncertaintyElement element result }
{
    Ok(amount_in(element)?.map(Millimetres))
}

fn confidence_in(element: i64) -> Result<Option<PerCent>, Unreadable>
    ensures { ReadsConfidenceElement element result }
{
    Ok(amount_in(element)?.map(PerCent))
}

// A quantity's code. The fields are numbered as document 01's table and the coder's names are: latitude, longitude, uncertainty,
// altitude uncertainty, altitude, inner radius, offset, included, orientation, bearing, horizontal speed, vertical speed, uncertainty
// speed, confidence, from 0.
ghost use Rattle.ground.specs.Answers.{outcome_of};
ghost use Rattle.code_arrays.specs.Answers.{PutsElements};
ghost use Rattle.field_arrays.specs.Fields.{CodesField, CodesNatural, CodesElement, said_code_elements};
ghost use Rattle.fields.specs.Fields.{altitude, vertical_speed, uncertainty_speed, confidence};
ghost use Rattle.std.specs.Prelude.{[], ◌∷◌, Ok};

use ground::{Nanodegrees, Refusal, SaidCode, SignedMetresPerHour, SignedMillimetres, Whole};
use one_field::{Coordinate, Markable, Unsigned};

// The code of the quantity in an element. One that doesn't arrive in its width is out of range; there is no field from 14 on.
pub fn coded(field: u8, quantity: Whole) -> Result<SaidCode, Refusal>
    ensures { CodesField field quantity.0 result }
{
    match field {
        0 => one_field::coded_coordinate(Coordinate::Latitude, Nanodegrees(quantity.0)),
        1 => one_field::coded_coordinate(Coordinate::Longitude, Nanodegrees(quantity.0)),
        2 => natural(Unsigned::Uncertainty, quantity),
        3 => natural(Unsigned::AltitudeUncertainty, quantity),
        4 => altitude(quantity),
        5 => natural(Unsigned::InnerRadius, quantity),
        6 => natural(Unsigned::Offset, quantity),
        7 => natural(Unsigned::Included, quantity),
        8 => natural(Unsigned::Orientation, quantity),
        9 => natural(Unsigned::Bearing, quantity),
        10 => natural(Unsigned::HorizontalSpeed, quantity),
        11 => vertical_speed(quantity),
        12 => uncertainty_speed(quantity),
        13 => confidence(quantity),
        _ => Err(Refusal::UnknownType),
    }
}

fn natural(field: Unsigned, quantity: Whole) -> Result<SaidCode, Refusal>
    ensures { CodesNatural field quantity.0 result }
{
    match quantity.0 {
        x @ 0..=4294967295 => one_field::coded_unsigned(field, x as u32),
        _ => Err(Refusal::OutOfRange),
    }
}

fn uncertainty_speed(quantity: Whole) -> Result<SaidCode, Refusal>
    ensures { CodesElement uncertainty_speed quantity.0 result }
{
    if code_arrays::is_missing(quantity) {
        return one_field::coded_missing(Markable::UncertaintySpeed);
    }
    natural(Unsigned::UncertaintySpeed, quantity)
}

fn confidence(quantity: Whole) -> Result<SaidCode, Refusal>
    ensures { CodesElement confidence quantity.0 result }
{
    if code_arrays::is_missing(quantity) {
        return one_field::coded_missing(Markable::Confidence);
    }
    natural(Unsigned::Confidence, quantity)
}

fn altitude(quantity: Whole) -> Result<SaidCode, Refusal>
    ensures { CodesElement altitude quantity.0 result }
{
    match quantity.0 {
        x @ -2147483648..=2147483647 => one_field::coded_altitude(SignedMillimetres(x as i32)),
        _ => Err(Refusal::OutOfRange),
    }
}

fn vertical_speed(quantity: Whole) -> Result<SaidCode, Refusal>
    ensures { CodesElement vertical_speed quantity.0 result }
{
    match quantity.0 {
        x @ -2147483648..=2147483647 => one_field::coded_vertical_speed(SignedMetresPerHour(
            x as i32,
        )),
        _ => Err(Refusal::OutOfRange),
    }
}

// Puts a code's numbers: S or D and N, or N alone. Each answer is made where it is known: a `Result` of how many would be told apart again.
pub fn put_code(out: &mut [u32], said: Result<SaidCode, Refusal>) -> Whole
    ensures { PutsElements (outcome_of said) (said_code_elements said) out.old out.new result.0 }
{
    match said {
        Ok(SaidCode::Natural(n)) => put_one(out, n),
        Ok(SaidCode::Signed(code)) => put_two(out, code_arrays::bit(code.0), code.1),
        Ok(SaidCode::Longitude(code)) => put_one(out, code_arrays::complement_of(code)),
        Err(why) => code_arrays::answer(Err(why)),
    }
}

fn put_one(out: &mut [u32], n: u32) -> Whole
    ensures { PutsElements (Ok tt) (n ∷ []) out.old out.new result.0 }
{
    let [one, ..] = out else {
        return code_arrays::answer(Err(Refusal::BufferTooShort));
    };
    *one = n;
    code_arrays::answer(Ok(1))
}

fn put_two(out: &mut [u32], first: u32, second: u32) -> Whole
    ensures { PutsElements (Ok tt) (first ∷ second ∷ []) out.old out.new result.0 }
{
    let Some(both) = out.first_chunk_mut::<2>() else {
        return code_arrays::answer(Err(Refusal::BufferTooShort));
    };
    *both = [first, second];
    code_arrays::answer(Ok(2))
}

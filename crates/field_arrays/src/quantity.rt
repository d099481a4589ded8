// A code's quantity. The code is given as its elements.
ghost use Rattle.std.specs.Prelude.{◌≡◌, [], ◌∷◌, Ok};
ghost use Rattle.ground.specs.Answers.{outcome_of};
ghost use Rattle.code_arrays.specs.Answers.{PutsElements};
ghost use Rattle.field_arrays.specs.Fields.{ReportsField, ReportsSigned, ReportsByte, ReportsWord, ReportsElements, quantity_elements, said_quantity_elements};
ghost use Rattle.fields.specs.Fields.{longitude};

use ground::{Refusal, SaidQuantity, Whole};
use one_field::{Byte, Signed, Word};

// The quantity of the code in elements. Too few of them are refused with 3; there is no field from 14 on.
pub fn reported(field: u8, code: &[u32]) -> Result<SaidQuantity, Refusal>
    ensures { ReportsField field code.now result }
{
    match field {
        0 => signed(Signed::Latitude, code),
        1 => longitude(code),
        2 => byte(Byte::Uncertainty, code),
        3 => byte(Byte::AltitudeUncertainty, code),
        4 => signed(Signed::Altitude, code),
        5 => word(Word::InnerRadius, code),
        6 => byte(Byte::Offset, code),
        7 => byte(Byte::Included, code),
        8 => byte(Byte::Orientation, code),
        9 => word(Word::Bearing, code),
        10 => word(Word::HorizontalSpeed, code),
        11 => signed(Signed::VerticalSpeed, code),
        12 => byte(Byte::UncertaintySpeed, code),
        13 => byte(Byte::Confidence, code),
        _ => Err(Refusal::UnknownType),
    }
}

// S or D, which is 0 or 1, and N.
fn signed(field: Signed, code: &[u32]) -> Result<SaidQuantity, Refusal>
    ensures { ReportsSigned field code.now result }
{
    let [sign, n, ..] = code else {
        return Err(Refusal::WrongLength);
    };
    if 1 < *sign {
        return Err(Refusal::OutOfRange);
    }
    one_field::reported_signed(field, *sign == 1, *n)
}

fn byte(field: Byte, code: &[u32]) -> Result<SaidQuantity, Refusal>
    ensures { ReportsByte field code.now result }
{
    let [n, ..] = code else {
        return Err(Refusal::WrongLength);
    };
    one_field::reported_byte(field, *n)
}

fn word(field: Word, code: &[u32]) -> Result<SaidQuantity, Refusal>
    ensures { ReportsWord field code.now result }
{
    let [n, ..] = code else {
        return Err(Refusal::WrongLength);
    };
    one_field::reported_word(field, *n)
}

fn longitude(code: &[u32]) -> Result<SaidQuantity, Refusal>
    ensures { ReportsElements longitude code.now result }
{
    let [n, ..] = code else {
        return Err(Refusal::WrongLength);
    };
    one_field::reported_longitude(code_arrays::longitude_of(*n))
}

// Puts a quantity, or the mark of a missing one.
pub fn put_quantity(out: &mut [i64], said: Result<SaidQuantity, Refusal>) -> Whole
    ensures { PutsElements (outcome_of said) (said_quantity_elements said) out.old out.new result.0 }
{
    match said {
        Ok(quantity) => put_one(out, element_of(quantity)),
        Err(why) => code_arrays::answer(Err(why)),
    }
}

fn put_one(out: &mut [i64], quantity: Whole) -> Whole
    ensures { PutsElements (Ok tt) (quantity.0 ∷ []) out.old out.new result.0 }
{
    let [one, ..] = out else {
        return code_arrays::answer(Err(Refusal::BufferTooShort));
    };
    *one = quantity.0;
    code_arrays::answer(Ok(1))
}

fn element_of(said: SaidQuantity) -> Whole
    ensures { result.0 ∷ [] ≡ quantity_elements said }
{
    match said {
        SaidQuantity::Natural(n) => Whole(i64::from(n)),
        SaidQuantity::Coordinate(x) => Whole(x.0),
        SaidQuantity::Altitude(x) => Whole(i64::from(x.0)),
        SaidQuantity::VerticalSpeed(x) => Whole(i64::from(x.0)),
        SaidQuantity::Missing => code_arrays::missing(),
    }
}

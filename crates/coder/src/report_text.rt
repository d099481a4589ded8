// A code's quantity. A number that is no code of the field is refused; what is no number makes its line unreadable.
ghost use Rattle.std.specs.Prelude.{◌≡◌, List, ◌∷◌, ℕ, min, pos, Some};
ghost use Rattle.fields.specs.Fields.{longitude};
ghost use Rattle.text.specs.LineFields.{fields_of};
ghost use Rattle.text.specs.Numerals.{numeral_of};
ghost use Rattle.text.specs.declared.said.SaidLine.TheVariants.{Refused};
ghost use Rattle.text.specs.Widths.{AsSize, Means};
ghost use Rattle.coder.specs.FieldTexts.{ReportsAt, ReportsText, ReportsNumber, byte_field, word_field, signed_field};

use crate::names::Name;
use ground::{LongitudeCode, Refusal, SaidQuantity};
use one_field::{Byte, Signed, Word};
use text::{SaidLine, Size};

// The quantity for that name.
pub fn reported(name: Name, texts: &[u8]) -> SaidLine
    ensures { ReportsAt (Some name) (fields_of texts.now) result }
{
    match name {
        Name::Latitude => signed(Signed::Latitude, texts),
        Name::Longitude => longitude(texts),
        Name::Uncertainty => byte(Byte::Uncertainty, texts),
        Name::AltitudeUncertainty => byte(Byte::AltitudeUncertainty, texts),
        Name::Altitude => signed(Signed::Altitude, texts),
        Name::InnerRadius => word(Word::InnerRadius, texts),
        Name::Offset => byte(Byte::Offset, texts),
        Name::Included => byte(Byte::Included, texts),
        Name::Orientation => byte(Byte::Orientation, texts),
        Name::Bearing => word(Word::Bearing, texts),
        Name::HorizontalSpeed => word(Word::HorizontalSpeed, texts),
        Name::VerticalSpeed => signed(Signed::VerticalSpeed, texts),
        Name::UncertaintySpeed => byte(Byte::UncertaintySpeed, texts),
        Name::Confidence => byte(Byte::Confidence, texts),
    }
}

fn byte(field: Byte, text: &[u8]) -> SaidLine
    ensures { ReportsText (byte_field field) (fields_of text.now) result }
{
    number(text, |n| one_field::reported_byte(field, n))
}

fn word(field: Word, text: &[u8]) -> SaidLine
    ensures { ReportsText (word_field field) (fields_of text.now) result }
{
    number(text, |n| one_field::reported_word(field, n))
}

// A code of one number without a sign.
fn number<F: FnOnce(u32) -> Result<SaidQuantity, Refusal>>(text: &[u8], report: F) -> SaidLine
    requires { F.IsAlwaysCallable report }
    ensures { ReportsNumber (F.post report) text.now result }
{
    match text::size_of(text::number_in(text)) {
        Size::Code(n) => text::line_of_quantity(report(capped(n))),
        Size::Below => no_code(),
        Size::Nothing => SaidLine::Unreadable,
    }
}

fn longitude(text: &[u8]) -> SaidLine
    ensures { ReportsText longitude (fields_of text.now) result }
{
    let Some(number) = text::number_in(text) else {
        return SaidLine::Unreadable;
    };
    let Some(x) = text::signed_32(Some(number)) else {
        return no_code();
    };
    text::line_of_quantity(one_field::reported_longitude(LongitudeCode(x)))
}

// A code of two numbers, the first of them 0 or 1.
fn signed(field: Signed, texts: &[u8]) -> SaidLine
    ensures { ReportsText (signed_field field) (fields_of texts.now) result }
{
    let end = text::field_end(texts, 0);
    if end == texts.len() {
        return SaidLine::Unreadable;
    }
    let sign = text::size_of(text::number_in(&texts[..end]));
    with_sign(
        field,
        sign,
        text::size_of(text::number_in(&texts[end + 1..])),
    )
}

// What is no number comes first: it makes the line unreadable.
fn with_sign(field: Signed, sign: Size, size: Size) -> SaidLine
    ensures { (first rest : List ℕ) → AsSize (numeral_of first) sign → AsSize (numeral_of rest) size → ReportsText (signed_field field) (first ∷ fields_of rest) result }
{
    match sign {
        Size::Nothing => SaidLine::Unreadable,
        Size::Below => match size {
            Size::Nothing => SaidLine::Unreadable,
            Size::Below => no_code(),
            Size::Code(_) => no_code(),
        },
        Size::Code(s) => match size {
            Size::Nothing => SaidLine::Unreadable,
            Size::Below => no_code(),
            Size::Code(n) => with_bit(field, s, n),
        },
    }
}

// The sign is 0 or 1.
fn with_bit(field: Signed, sign: u64, n: u64) -> SaidLine
    ensures { (first rest : List ℕ) → Means (numeral_of first) (pos sign) → Means (numeral_of rest) (pos n) → ReportsText (signed_field field) (first ∷ fields_of rest) result }
{
    if 1 < sign {
        return no_code();
    }
    text::line_of_quantity(one_field::reported_signed(field, sign == 1, capped(n)))
}

// The number itself, or the largest of 32 bits, which is outside every field too.
fn capped(n: u64) -> u32
    ensures { result ≡ min n 4294967295 }
{
    u32::try_from(n).unwrap_or(u32::MAX)
}

// The answer to what is no code of the field.
fn no_code() -> SaidLine
    ensures { result ≡ Refused 7 }
{
    SaidLine::Refused(u64::from(Refusal::OutOfRange))
}

// A quantity's code. A quantity that does not fit the width in which it arrives makes its line unreadable.
ghost use Rattle.std.specs.Prelude.{Some};
ghost use Rattle.fields.specs.Fields.{altitude, vertical_speed, uncertainty_speed, confidence};
ghost use Rattle.text.specs.LineFields.{fields_of};
ghost use Rattle.coder.specs.FieldTexts.{CodesAt, CodesText, CodesUnsigned, coordinate_field};

use crate::names::Name;
use ground::{Nanodegrees, SignedMetresPerHour, SignedMillimetres};
use one_field::{Coordinate, Markable, Unsigned};
use text::SaidLine;

// The code for that name. More than one text is no number: there is a space in it.
pub fn coded(name: Name, text: &[u8]) -> SaidLine
    ensures { CodesAt (Some name) (fields_of text.now) result }
{
    match name {
        Name::Latitude => coordinate(Coordinate::Latitude, text),
        Name::Longitude => coordinate(Coordinate::Longitude, text),
        Name::Uncertainty => unsigned(Unsigned::Uncertainty, text),
        Name::AltitudeUncertainty => unsigned(Unsigned::AltitudeUncertainty, text),
        Name::Altitude => altitude(text),
        Name::InnerRadius => unsigned(Unsigned::InnerRadius, text),
        Name::Offset => unsigned(Unsigned::Offset, text),
        Name::Included => unsigned(Unsigned::Included, text),
        Name::Orientation => unsigned(Unsigned::Orientation, text),
        Name::Bearing => unsigned(Unsigned::Bearing, text),
        Name::HorizontalSpeed => unsigned(Unsigned::HorizontalSpeed, text),
        Name::VerticalSpeed => vertical_speed(text),
        Name::UncertaintySpeed => uncertainty_speed(text),
        Name::Confidence => confidence(text),
    }
}

fn coordinate(field: Coordinate, text: &[u8]) -> SaidLine
    ensures { CodesText (coordinate_field field) (fields_of text.now) result }
{
    let Some(x) = text::signed_64(text::number_in(text)) else {
        return SaidLine::Unreadable;
    };
    text::line_of_code(one_field::coded_coordinate(field, Nanodegrees(x)))
}

fn unsigned(field: Unsigned, text: &[u8]) -> SaidLine
    ensures { CodesUnsigned field text.now result }
{
    let Some(x) = text::unsigned_32(text::number_in(text)) else {
        return SaidLine::Unreadable;
    };
    text::line_of_code(one_field::coded_unsigned(field, x))
}

// A dash is a missing quantity.
fn uncertainty_speed(text: &[u8]) -> SaidLine
    ensures { CodesText uncertainty_speed (fields_of text.now) result }
{
    if check::same(text, b"-") {
        return text::line_of_code(one_field::coded_missing(Markable::UncertaintySpeed));
    }
    unsigned(Unsigned::UncertaintySpeed, text)
}

fn confidence(text: &[u8]) -> SaidLine
    ensures { CodesText confidence (fields_of text.now) result }
{
    if check::same(text, b"-") {
        return text::line_of_code(one_field::coded_missing(Markable::Confidence));
    }
    unsigned(Unsigned::Confidence, text)
}

fn altitude(text: &[u8]) -> SaidLine
    ensures { CodesText altitude (fields_of text.now) result }
{
    let Some(x) = text::signed_32(text::number_in(text)) else {
        return SaidLine::Unreadable;
    };
    text::line_of_code(one_field::coded_altitude(SignedMillimetres(x)))
}

fn vertical_speed(text: &[u8]) -> SaidLine
    ensures { CodesText vertical_speed (fields_of text.now) result }
{
    let Some(x) = text::signed_32(text::number_in(text)) else {
        return SaidLine::Unreadable;
    };
    text::line_of_code(one_field::coded_vertical_speed(SignedMetresPerHour(x)))
}

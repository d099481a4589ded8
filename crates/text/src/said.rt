// What a line says, as a value.
ghost use Rattle.std.specs.Prelude.{◌≡◌};
ghost use Rattle.text.specs.AnswerLines.{line_of_code, line_of_quantity};

use ground::{Refusal, SaidCode, SaidQuantity, Whole};

#[derive(Clone, Copy)]
pub enum SaidLine {
    Unreadable,
    // document 01's number
    Refused(u64),
    Missing,
    One(Whole),
    // a sign, and the number after it
    Two(bool, Whole),
}

// The line of what a coder says.
#[tactic(auto, unfolding(crate::specs::AnswerLines::line_of_code))]
pub fn line_of_code(said: Result<SaidCode, Refusal>) -> SaidLine
    ensures { result ≡ line_of_code said }
{
    match said {
        Ok(code) => match code {
            SaidCode::Natural(n) => SaidLine::One(Whole(n as i64)),
            SaidCode::Signed(code) => SaidLine::Two(code.0, Whole(code.1 as i64)),
            SaidCode::Longitude(code) => SaidLine::One(Whole(code.0 as i64)),
        },
        Err(why) => SaidLine::Refused(u64::from(why)),
    }
}

// The line of what a reporter says.
#[tactic(auto, unfolding(crate::specs::AnswerLines::line_of_quantity))]
pub fn line_of_quantity(said: Result<SaidQuantity, Refusal>) -> SaidLine
    ensures { result ≡ line_of_quantity said }
{
    match said {
        Ok(quantity) => match quantity {
            SaidQuantity::Natural(n) => SaidLine::One(Whole(n as i64)),
            SaidQuantity::Coordinate(x) => SaidLine::One(Whole(x.0)),
            SaidQuantity::Altitude(x) => SaidLine::One(Whole(x.0 as i64)),
            SaidQuantity::VerticalSpeed(x) => SaidLine::One(Whole(x.0 as i64)),
            SaidQuantity::Missing => SaidLine::Missing,
        },
        Err(why) => SaidLine::Refused(u64::from(why)),
    }
}

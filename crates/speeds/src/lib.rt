// Horizontal and vertical speed, and their uncertainty (document 01, "Quantities and codes").
#![tactic(auto)]

ghost use Rattle.speeds.specs.Speeds.{HorizontalSpeedSet, HorizontalSpeedReporting, VerticalSpeedSet, VerticalSpeedReporting, CodedUncertaintySpeed, UncertaintySpeedReporting};

use ground::{
    HorizontalSpeedCode, MetresPerHour, Parts, Refusal, SignedMetresPerHour, UncertaintySpeedCode,
    VerticalSpeedCode, Whole,
};

pub fn horizontal_speed_code(speed: MetresPerHour) -> HorizontalSpeedCode
    ensures { HorizontalSpeedSet result speed.0 }
{
    let h = speed.0;
    if 65535000 <= h {
        return HorizontalSpeedCode(65535);
    }
    HorizontalSpeedCode(((h + 500) / 1000) as u16)
}

pub fn reported_horizontal_speed(code: HorizontalSpeedCode) -> MetresPerHour
    ensures { HorizontalSpeedReporting code result }
{
    MetresPerHour(code.0 as u32 * 1000)
}

pub fn vertical_speed_code(speed: SignedMetresPerHour) -> VerticalSpeedCode
    ensures { VerticalSpeedSet result speed.0 }
{
    let parts = ground::taken_apart(Whole(speed.0 as i64));
    let size = parts.size;
    if 255000 <= size {
        return VerticalSpeedCode(parts.negative, 255);
    }
    VerticalSpeedCode(parts.negative, ((size + 500) / 1000) as u8)
}

pub fn reported_vertical_speed(code: VerticalSpeedCode) -> SignedMetresPerHour
    ensures { VerticalSpeedReporting code result }
{
    let n = code.1;
    let speed = ground::joined(Parts {
        negative: code.0,
        size: n as u64 * 1000,
    });
    SignedMetresPerHour(speed.0 as i32)
}

// A missing one is code 255, which no speed has.
pub fn uncertainty_speed_code(
    uncertainty: Option<MetresPerHour>,
) -> Result<UncertaintySpeedCode, Refusal>
    ensures { CodedUncertaintySpeed uncertainty result }
{
    match uncertainty {
        None => Ok(UncertaintySpeedCode(255)),
        Some(MetresPerHour(s @ 0..=254000)) => Ok(UncertaintySpeedCode(((s + 999) / 1000) as u8)),
        Some(_) => Err(Refusal::UncertaintyTooLarge),
    }
}

pub fn reported_uncertainty_speed(code: UncertaintySpeedCode) -> Option<MetresPerHour>
    ensures { UncertaintySpeedReporting code result }
{
    match code.0 {
        255 => None,
        n => Some(MetresPerHour(u32::from(n) * 1000)),
    }
}
